// The fields at the front of a buffer: one, and all that are whole.
ghost use Rattle.std.specs.Prelude.{◌≡◌, true, ◌+◌, ◌≤◌, ◌<◌, ◌^◌, length};
ghost use Rattle.memory.specs.Formed.{well_formed};
ghost use Rattle.journal.specs.Turns.{Did, Feeds};

use journal_fields::{Done, Front, take_field};
use listing_lines::put_field;

// What an output keeps free: a field's line, and behind it the line of a cut field, the totals and 256 marks.
pub(crate) const ROOM: usize = 20690;

// The number in the line of a bad field.
pub(crate) const FIELD: u8 = 10;

// What was done: there is no whole field; or one, with how many bytes it took and how far the output is then put; or a bad one, which ends the reading.
#[derive(Clone, Copy)]
pub(crate) enum Field {
    Short,
    Listed { used: usize, put: usize },
    Bad { used: usize, put: usize },
}

// `ended`: a bad field ended the reading.
#[derive(Clone, Copy)]
pub(crate) struct Fed {
    pub(crate) used: usize,
    pub(crate) k: u64,
    pub(crate) ended: bool,
    pub(crate) put: usize,
}

// The field at the front of s, if it is all there: done, and its line put behind the first `put` bytes of out.
fn one_field(m: &mut [u8], s: &[u8], k: u64, out: &mut [u8], put: usize) -> Field
    requires { (well_formed m.old ≡ true) × (put + 50 ≤ length out.old) }
    ensures { Did m.old m.new s.now k out.old out.new put result }
{
    let Front::Whole { used, done } = take_field(m, s) else {
        return Field::Short;
    };
    let Done::Code(n) = done else {
        let p = put_field(out, put, k, FIELD);
        return Field::Bad { used, put: p };
    };
    let p = put_field(out, put, k, n);
    Field::Listed { used, put: p }
}

// All fields that are whole in buf, as long as out has room.
pub(crate) fn whole_fields(m: &mut [u8], buf: &[u8], k: u64, out: &mut [u8]) -> Fed
    requires { (well_formed m.old ≡ true) × (k + length buf.now < 2 ^ 64) × (20690 ≤ length out.old) }
    ensures { Feeds m.old m.new buf.now k out.old out.new result }
{
    let mut at = 0;
    let mut put = 0;
    let mut j = k;
    while ROOM <= out.len() - put {
        let did = one_field(m, &buf[at..], j, out, put);
        match did {
            Field::Short => {
                return Fed {
                    used: at,
                    k: j,
                    ended: false,
                    put,
                };
            }
            Field::Bad { used, put: p } => {
                return Fed {
                    used: at + used,
                    k: j + 1,
                    ended: true,
                    put: p,
                };
            }
            Field::Listed { used, put: p } => {
                at += used;
                put = p;
                j += 1;
            }
        }
    }
    Fed {
        used: at,
        k: j,
        ended: false,
        put,
    }
}
