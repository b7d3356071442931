// Replays recorded calls of child lists: reads records from standard input, calls the function that each names on the memory that it
// holds, and compares our outcome with the recorded one. Writes a line for the first record that differs and one for all. At what is no
// record it says so and stops.
#![tactic(auto)]

mod input;
mod judge;
mod memory;
mod report;

use std::io::Read;

// How many records there were, and how many of them differ.
#[derive(Clone, Copy)]
struct Totals {
    records: u32,
    missed: u32,
}

// Counts the cases and those that differ, or gives the place, from 1, of what is no record. A proved loop has to end, and nothing says
// that the input does, so it takes no more records than a u32 counts.
fn run<R: Read>(input: &mut R, rt: &impl Print) -> Result<Totals, u32> {
    let mut missed = 0;
    for k in 0..u32::MAX {
        let case = match input::next(input) {
            Ok(Some(case)) => case,
            Ok(None) => return Ok(Totals { records: k, missed }),
            Err(_) => return Err(k + 1),
        };
        if !case.is_same {
            if missed == 0 {
                report::write_first(rt, k + 1, case.call);
            }
            missed += 1;
        }
    }
    Ok(Totals {
        records: u32::MAX,
        missed,
    })
}

fn main(rt: HostRuntime) {
    match run(&mut rt.stdin(), &rt) {
        Err(k) => report::write_bad(&rt, k),
        Ok(totals) => report::write_counts(&rt, totals.records, totals.missed),
    }
}
