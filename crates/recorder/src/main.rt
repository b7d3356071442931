// The program: reads a journal from standard input, of any length, and writes its listing to standard output. What a turn does is `journal::turn`'s; here
// bytes are only moved, in behind the buffer's first `fill` and out of the output's first `put`. What fails is said on standard error.
#![tactic(auto)]

ghost use Rattle.std.specs.Prelude.{◌≡◌, false, ℕ, ◌≤◌, ◌<◌, length};
ghost use Rattle.plain_note.specs.Note.{need};
ghost use Rattle.plain_journal.specs.Replay.{slots};
ghost use Rattle.recorder.specs.Program.{Running, Reads, Pumps, Ended};

use journal::{SLOTS, State};
use pool::{HEAD_BYTES, SLOT_BYTES};
use std::io::{Read, Write};

// Why the program cannot go on: the memory is too short, the fields have no more numbers, the journal cannot be read, or the listing cannot be written.
#[derive(Clone, Copy)]
enum Fault {
    Memory,
    Fields,
    Read,
    Write,
}

// How a run ended that met no fault: the listing is complete, or all turns are taken.
#[derive(Clone, Copy)]
enum Ran {
    Over,
    Long,
}

// What the slots of a journal's note need.
const MEMORY: usize = SLOT_BYTES * SLOTS + HEAD_BYTES;

fn memory() -> [u8; MEMORY]
    ensures { need slots ≡ length result }
{
    [0; MEMORY]
}

// Reads once, behind what the buffer holds. A read that gives nothing is the input's end.
fn read_more<R: Read>(input: &mut R, buf: &mut [u8], st: State) -> Result<State, Fault>
    requires { st.fill < length buf.old }
    ensures { Reads buf.old buf.new st result }
{
    let fill = st.fill;
    let Ok(n) = input.read(&mut buf[fill..]) else {
        return Err(Fault::Read);
    };
    Ok(State {
        fill: fill + n,
        k: st.k,
        last: n == 0,
        over: false,
        put: 0,
    })
}

// One turn: what it put is written, and where it used nothing more is read.
fn pump<R: Read, W: Write>(
    input: &mut R,
    output: &mut W,
    m: &mut [u8],
    buf: &mut [u8],
    st: State,
    out: &mut [u8],
) -> Result<State, Fault>
    requires { ((n : ℕ) × Running m.old buf.old st n) × (st.over ≡ false) × (65538 ≤ length buf.old) × (20690 ≤ length out.old) }
    ensures { Pumps m.old m.new buf.old buf.new st result }
{
    let fill = st.fill;
    let Ok(r) = journal::turn(m, buf, st, out) else {
        return Err(Fault::Fields);
    };
    let put = r.put;
    if output.write_all(&out[..put]).is_err() {
        return Err(Fault::Write);
    }
    if r.over {
        return Ok(r);
    }
    if r.fill < fill {
        return Ok(r);
    }
    read_more(input, buf, r)
}

// A proved loop has to end, and nothing says that the input does: the turns are counted up to a number that no run comes to.
fn run<R: Read, W: Write>(
    input: &mut R,
    output: &mut W,
    m: &mut [u8],
    buf: &mut [u8],
    out: &mut [u8],
) -> Result<Ran, Fault>
    requires { (need slots ≤ length m.old) × (65538 ≤ length buf.old) × (20690 ≤ length out.old) }
    ensures { Ended m.new buf.new result }
{
    let Ok(()) = journal::start(m) else {
        return Err(Fault::Memory);
    };
    let mut st = journal::started();
    for _turn in 0..u64::MAX {
        if st.over {
            return Ok(Ran::Over);
        }
        st = pump(input, output, m, buf, st, out)?;
    }
    Ok(if st.over { Ran::Over } else { Ran::Long })
}

// A message that cannot be written is let go.
fn tell<W: Write>(errors: &mut W, text: &[u8]) {
    let _told = errors.write_all(text);
}

fn tell_fault<W: Write>(errors: &mut W, why: Fault) {
    match why {
        Fault::Memory => tell(errors, b"recorder: the memory is too short\n"),
        Fault::Fields => tell(errors, b"recorder: the journal has too many fields\n"),
        Fault::Read => tell(errors, b"recorder: the journal cannot be read\n"),
        Fault::Write => tell(errors, b"recorder: the listing cannot be written\n"),
    }
}

fn main(rt: HostRuntime) {
    let mut input = rt.stdin();
    let mut output = rt.stdout();
    let mut errors = rt.stderr();
    let mut space = memory();
    let mut buf = [0u8; 131072];
    let mut out = [0u8; 65536];
    let ran = run(&mut input, &mut output, &mut space, &mut buf, &mut out);
    match ran {
        Ok(Ran::Over) => {}
        Err(why) => tell_fault(&mut errors, why),
        Ok(Ran::Long) => tell(&mut errors, b"recorder: the journal has too many fields\n"),
    }
}
