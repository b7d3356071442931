// Replays recorded calls: reads records from standard input, calls the function that each names, and compares our answer with the
// recorded one. Writes a line for the first record that differs, one for each function and one for all. At what is no record it says so
// and stops.
#![tactic(auto)]

mod input;
mod leaves;
mod report;

ghost use Rattle.std.specs.Prelude.{◌≡◌, ◌<◌, length, IfOk};
ghost use Rattle.replay.specs.Turns.{sum, Counted, Sums};

use std::io::Read;

// How many cases each function has, and how many of them differ.
#[derive(Clone, Copy)]
struct Counts {
    cases: [u32; 32],
    differ: [u32; 32],
}

// How many records there were, and how many of them differ.
#[derive(Clone, Copy)]
struct Totals {
    records: u32,
    missed: u32,
}

// One more for function f.
fn count(counts: &mut [u32; 32], f: usize)
    requires { (f < 32) × (length counts.old ≡ 32) × (sum counts.old < 4294967295) }
    ensures { Counted counts.old f counts.new }
{
    counts[f] += 1;
}

// Counts the cases and those that differ, or gives the place, from 1, of what is no record. A proved loop has to end, and nothing says
// that the input does, so it takes no more records than a u32 counts.
fn run<R: Read>(input: &mut R, rt: &impl Print, counts: &mut Counts) -> Result<Totals, u32>
    requires { Sums counts.old.cases 0 × Sums counts.old.differ 0 }
    ensures { IfOk result (λ t. Sums counts.new.cases t.records × Sums counts.new.differ t.missed) }
{
    let mut missed = 0;
    for k in 0..u32::MAX {
        let case = match input::next(input) {
            Ok(Some(case)) => case,
            Ok(None) => return Ok(Totals { records: k, missed }),
            Err(_) => return Err(k + 1),
        };
        count(&mut counts.cases, case.function);
        if !case.is_same {
            count(&mut counts.differ, case.function);
            if missed == 0 {
                report::write_first(rt, k + 1, case);
            }
            missed += 1;
        }
    }
    Ok(Totals {
        records: u32::MAX,
        missed,
    })
}

#[tactic(auto, unfolding(crate::specs::Turns::sum))]
fn main(rt: HostRuntime) {
    let mut counts = Counts {
        cases: [0; 32],
        differ: [0; 32],
    };
    match run(&mut rt.stdin(), &rt, &mut counts) {
        Err(k) => report::write_bad(&rt, k),
        Ok(totals) => {
            report::write_functions(&rt, &counts.cases, &counts.differ);
            report::write(&rt, b"replayed");
            report::write_counts(&rt, totals.records, totals.missed);
        }
    }
}
