// A journal turned into its listing, for input of any length in bounded memory. Input lies in a buffer, and a turn lists the fields that are whole there into
// an output. Where it uses nothing it wants more input; where that has ended it lists the end. A turn speaks of what is still to come, so that turn after turn
// the outputs joined are the listing of the inputs joined (proofs/Runs.antt).
#![tactic(auto)]

mod fields;

ghost use Rattle.std.specs.Prelude.{◌≡◌, true, false, ◌+◌, ◌-◌, ◌≤◌, ◌<◌, ◌^◌, length, take, drop};
ghost use Rattle.opening.specs.Opened.{opens};
ghost use Rattle.pool.specs.Calls.{Wrote};
ghost use Rattle.memory.specs.Formed.{well_formed};
ghost use Rattle.framing.specs.Field.{is_whole};
ghost use Rattle.plain_journal.specs.Replay.{slots};
ghost use Rattle.journal.specs.Turns.{started as startedState, Finishes, Serves, Advances, Turns};

use crate::fields::{FIELD, ROOM, whole_fields};
use answer::{Answer, Refusal};
use listing_end::put_ending;
use listing_lines::put_field;

// The slots of the note that a journal is replayed on.
pub const SLOTS: usize = 80;

// What a program keeps from turn to turn: the buffer's first `fill` bytes are input that is not used yet, k is the next field's number, and the output's first `put`
// bytes are to be written. `last`: the input has ended. `over`: the listing is complete.
#[derive(Clone, Copy)]
pub struct State {
    pub fill: usize,
    pub k: u64,
    pub last: bool,
    pub over: bool,
    pub put: usize,
}

#[derive(Clone, Copy)]
struct Served {
    used: usize,
    k: u64,
    over: bool,
    put: usize,
}

// Makes the empty note that a journal is replayed on: refused by 1 where the memory is shorter than 80 slots need.
pub fn start(m: &mut [u8]) -> Answer<()>
    ensures { Wrote (opens m.old slots) m.old result m.new }
{
    note::open(m, SLOTS)
}

// What a program starts with.
pub fn started() -> State
    ensures { result ≡ startedState }
{
    State {
        fill: 0,
        k: 1,
        last: false,
        over: false,
        put: 0,
    }
}

// The end of the input: what is left of it is a cut field, or nothing.
fn finish(m: &[u8], rest: &[u8], k: u64, out: &mut [u8], put: usize) -> Served
    requires { (well_formed m.now ≡ true) × (put + 20640 ≤ length out.old) × (is_whole rest.now ≡ false) × (k + length rest.now < 2 ^ 64) }
    ensures { Finishes m.now rest.now k out.old out.new put result }
{
    let used = rest.len();
    if used == 0 {
        let p = put_ending(m, out, put);
        return Served {
            used,
            k,
            over: true,
            put: p,
        };
    }
    let q = put_field(out, put, k, FIELD);
    let p = put_ending(m, out, q);
    Served {
        used,
        k: k + 1,
        over: true,
        put: p,
    }
}

// The fields that are whole in buf, and the end of the listing where it has come.
fn serve(m: &mut [u8], buf: &[u8], k: u64, last: bool, out: &mut [u8]) -> Served
    requires { (well_formed m.old ≡ true) × (k + length buf.now < 2 ^ 64) × (20690 ≤ length out.old) }
    ensures { Serves m.old m.new buf.now k last out.old out.new result }
{
    let r = whole_fields(m, buf, k, out);
    let used = r.used;
    let j = r.k;
    let put = r.put;
    if r.ended {
        let p = put_ending(m, out, put);
        return Served {
            used,
            k: j,
            over: true,
            put: p,
        };
    }
    if last {
        if used == 0 {
            return finish(m, buf, j, out, put);
        }
    }
    Served {
        used,
        k: j,
        over: false,
        put,
    }
}

// Moves the bytes in [from, to) to the front, and answers how many they are.
fn slide(buf: &mut [u8], from: usize, to: usize) -> usize
    requires { (from ≤ to) × (to ≤ length buf.old) }
    ensures { (result ≡ to - from) × (take result buf.new ≡ take (to - from) (drop from buf.old)) }
{
    buf.copy_within(from..to, 0);
    to - from
}

// What is whole is listed, and what is left moved to the front.
fn advance(m: &mut [u8], buf: &mut [u8], st: State, out: &mut [u8]) -> State
    requires { (well_formed m.old ≡ true) × (st.fill ≤ length buf.old) × (st.k + st.fill < 2 ^ 64) × (20690 ≤ length out.old) }
    ensures { Advances m.old m.new buf.old buf.new st out.old out.new result }
{
    let fill = st.fill;
    let k = st.k;
    let last = st.last;
    let r = serve(m, &buf[..fill], k, last, out);
    let used = r.used;
    let put = r.put;
    let j = r.k;
    let over = r.over;
    let n = slide(buf, used, fill);
    State {
        fill: n,
        k: j,
        last,
        over,
        put,
    }
}

// A turn: refused by 2 where the memory is not well formed, by 3 where `fill` is past the buffer's end or the fields' numbers would pass 64 bits, by 9 where the
// output is shorter than 20,690 bytes. A refused one changes nothing. Nor does one that comes when the listing is complete, which puts nothing.
pub fn turn(m: &mut [u8], buf: &mut [u8], st: State, out: &mut [u8]) -> Answer<State>
    ensures { Turns m.old m.new buf.old buf.new st out.old out.new result }
{
    if !note::check(m) {
        return Err(Refusal::Memory);
    }
    let fill = st.fill;
    if buf.len() < fill {
        return Err(Refusal::Place);
    }
    if u64::MAX - (fill as u64) < st.k {
        return Err(Refusal::Place);
    }
    if out.len() < ROOM {
        return Err(Refusal::Output);
    }
    if st.over {
        return Ok(State {
            fill,
            k: st.k,
            last: st.last,
            over: st.over,
            put: 0,
        });
    }
    Ok(advance(m, buf, st, out))
}
