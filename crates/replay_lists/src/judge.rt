// Our outcome of a call, beside the recorded one.
ghost use Rattle.replay_lists.specs.Judged.{outcome_of, due, Agrees};

use list_calls::Five;
use pool::Kid;

// What a record asks for: a list's call by its number.
#[derive(Clone, Copy)]
pub struct Question {
    pub call: u8,
    pub slot: usize,
    pub other: usize,
    pub i: usize,
    pub j: usize,
    pub kid: Kid,
}

// An answer, ours or a recorded one: five numbers, or the number of a refusal.
pub type Reply = Result<Five, u8>;

// Asks for our outcome, and whether it is the recorded one: the answer, and beside its numbers the memory afterwards.
pub(crate) fn judge(q: Question, m: &mut [u8], was: Reply, after: &[u8]) -> bool
    ensures { Agrees result (due q m.old) (outcome_of was after.now) }
{
    let reply = list_calls::ask_by(q.call, m, q.slot, q.other, q.i, q.j, q.kid).map_err(u8::from);
    reply == was && (reply.is_err() || &*m == after)
}
