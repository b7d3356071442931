// The records of a leaf's calls. A record is 8 bytes of head (21 and the call's number, the start and the end in two bytes each, a zero,
// the leaf's length in two bytes), the leaf, the length in two bytes of the piece or the right leaf, that, and the tail: the number of a
// refusal, the lengths in two bytes each of the two leaves afterwards, and these, which are empty beside a refusal. All regions have 512
// bytes, and of a leaf no more is in the record.
ghost use Rattle.std.specs.Prelude.{IfOk};
ghost use Rattle.plain.specs.Outcome.{Outcome.value};
ghost use Rattle.leaf_calls.specs.Asked.{asked_by};
ghost use Rattle.replay.specs.Leaves.{recorded, Agrees, LeavesJudged};
ghost use Rattle.replay.specs.Turns.{Known};

use crate::input::{BadRecord, Case};
use octets::two_at;
use std::io;
use std::io::Read;

// What a record asks for: a leaf's call by its number.
#[derive(Clone, Copy)]
struct Question {
    call: u8,
    len: usize,
    start: usize,
    end: usize,
    right_len: usize,
}

// Our answer, beside the recorded one.
fn judge(
    q: Question,
    left: &mut [u8],
    piece: &[u8],
    right: &mut [u8],
    refusal: u8,
    was_left: &[u8],
    was_right: &[u8],
) -> Result<Case, BadRecord>
    ensures { IfOk result (λ x. Known x × LeavesJudged (asked_by q.call left.old q.len q.start q.end piece.now right.old q.right_len) (recorded refusal was_left.now was_right.now) x) }
{
    if 10 < q.call {
        return Err(BadRecord);
    }
    let function = 21 + usize::from(q.call);
    let case = match leaf_calls::ask_by(
        q.call,
        left,
        q.len,
        q.start,
        q.end,
        piece,
        right,
        q.right_len,
    ) {
        Err(r) => {
            let n = u8::from(r);
            Case {
                function,
                given: Err(n),
                is_same: n == refusal,
            }
        }
        Ok((l, r)) => Case {
            function,
            given: Ok(l),
            is_same: same_leaves(&left[..l], &right[..r], refusal, was_left, was_right),
        },
    };
    Ok(case)
}

// Whether two leaves are the recorded ones.
fn same_leaves(left: &[u8], right: &[u8], refusal: u8, was_left: &[u8], was_right: &[u8]) -> bool
    ensures { Agrees result (value (left.now, right.now)) (recorded refusal was_left.now was_right.now) }
{
    refusal == 0 && left == was_left && right == was_right
}

// Reads a leaf into a region: as much of it as the region has.
fn read_leaf<R: Read>(input: &mut R, region: &mut [u8], len: usize) -> io::Result<()> {
    let n = len.min(region.len());
    input.read_exact(&mut region[..n])
}

// The tail of a record.
fn read_tail<R: Read>(
    input: &mut R,
    q: Question,
    left: &mut [u8],
    piece: &[u8],
    right: &mut [u8],
) -> Result<Case, BadRecord>
    ensures { IfOk result Known }
{
    let mut tail = [0u8; 5];
    input.read_exact(&mut tail)?;
    let l = two_at(&tail, 1) as usize;
    let r = two_at(&tail, 3) as usize;
    let mut was_left = [0u8; 512];
    let mut was_right = [0u8; 512];
    if was_left.len() < l || was_right.len() < r {
        return Err(BadRecord);
    }
    input.read_exact(&mut was_left[..l])?;
    input.read_exact(&mut was_right[..r])?;
    judge(
        q,
        left,
        piece,
        right,
        tail[0],
        &was_left[..l],
        &was_right[..r],
    )
}

// The record of the call with a number, from behind its head on.
pub(crate) fn read<R: Read>(input: &mut R, call: u8, head: &[u8; 8]) -> Result<Case, BadRecord>
    ensures { IfOk result Known }
{
    let len = two_at(head, 6) as usize;
    let mut left = [0u8; 512];
    read_leaf(input, &mut left, len)?;
    let mut size = [0u8; 2];
    input.read_exact(&mut size)?;
    let n = two_at(&size, 0) as usize;
    let (right_len, piece_len) = if call == 10 { (n, 0) } else { (0, n) };
    let mut right = [0u8; 512];
    read_leaf(input, &mut right, right_len)?;
    let mut piece = [0u8; 4096];
    if piece.len() < piece_len {
        return Err(BadRecord);
    }
    input.read_exact(&mut piece[..piece_len])?;
    let q = Question {
        call,
        len,
        start: two_at(head, 1) as usize,
        end: two_at(head, 3) as usize,
        right_len,
    };
    read_tail(input, q, &mut left, &piece[..piece_len], &mut right)
}
