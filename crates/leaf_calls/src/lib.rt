// Every call of a leaf by its number, with one form of question and answer: what the replayed sample and the programs in C and Rust ask
// through. A call on one leaf answers the right leaf's length as it lies.
#![tactic(auto)]

ghost use Rattle.std.specs.Prelude.{◌≡◌, length};
ghost use Rattle.plain.specs.Outcome.{mapped};
ghost use Rattle.answer.specs.Answers.{outcome};
ghost use Rattle.leaf_bytes.specs.Leaf.{leaf_of, Leaves};
ghost use Rattle.leaf_calls.specs.Asked.{asked, named, asked_by};

use answer::{Answer, Refusal};

#[derive(Clone, Copy)]
pub enum Call {
    FromStr,
    InsertStr,
    InsertStrSplit,
    PushStr,
    PushStrSplit,
    Truncate,
    TruncateFront,
    RemoveRange,
    SplitOff,
    FixSegmentSeam,
}

// The call with a number, from 1; a number that names none is refused by 10.
impl TryFrom<u8> for Call {
    type Error = Refusal;

    ghost try_from_gives = { λ k r. outcome r ≡ named k };

    #[tactic(auto, unfolding(crate::specs::Asked::named, crate::specs::Asked::calls))]
    fn try_from(number: u8) -> Answer<Call> {
        match number {
            1 => Ok(Call::FromStr),
            2 => Ok(Call::InsertStr),
            3 => Ok(Call::InsertStrSplit),
            4 => Ok(Call::PushStr),
            5 => Ok(Call::PushStrSplit),
            6 => Ok(Call::Truncate),
            7 => Ok(Call::TruncateFront),
            8 => Ok(Call::RemoveRange),
            9 => Ok(Call::SplitOff),
            10 => Ok(Call::FixSegmentSeam),
            _ => Err(Refusal::Field),
        }
    }
}

// The answer of a call on one leaf, beside the right leaf as it lies.
fn beside(n: Answer<usize>, right: &[u8], right_len: usize) -> Answer<(usize, usize)>
    ensures { outcome result ≡ mapped (λ k. (k, length (leaf_of right.now right_len))) (outcome n) }
{
    n.map(|k| (k, right_len.min(right.len())))
}

fn ask(
    call: Call,
    left: &mut [u8],
    len: usize,
    start: usize,
    end: usize,
    piece: &[u8],
    right: &mut [u8],
    right_len: usize,
) -> Answer<(usize, usize)>
    ensures { Leaves (asked call left.old len start end piece.now right.old right_len) left.old right.old result left.new right.new }
{
    match call {
        Call::FromStr => beside(leaf_edits::from_str(left, piece), right, right_len),
        Call::InsertStr => beside(
            leaf_edits::insert_str(left, len, start, piece),
            right,
            right_len,
        ),
        Call::InsertStrSplit => leaf_split::insert_str_split(left, len, start, piece, right),
        Call::PushStr => beside(leaf_edits::push_str(left, len, piece), right, right_len),
        Call::PushStrSplit => leaf_split::push_str_split(left, len, piece, right),
        Call::Truncate => beside(leaf_edits::truncate(left, len, start), right, right_len),
        Call::TruncateFront => beside(
            leaf_edits::truncate_front(left, len, start),
            right,
            right_len,
        ),
        Call::RemoveRange => beside(
            leaf_edits::remove_range(left, len, start, end),
            right,
            right_len,
        ),
        Call::SplitOff => leaf_split::split_off(left, len, start, right),
        Call::FixSegmentSeam => leaf_split::fix_segment_seam(left, len, right, right_len),
    }
}

// The answer of the call with a number; a number that names none is refused by 10.
pub fn ask_by(
    call: u8,
    left: &mut [u8],
    len: usize,
    start: usize,
    end: usize,
    piece: &[u8],
    right: &mut [u8],
    right_len: usize,
) -> Answer<(usize, usize)>
    ensures { Leaves (asked_by call left.old len start end piece.now right.old right_len) left.old right.old result left.new right.new }
{
    let call = Call::try_from(call)?;
    ask(call, left, len, start, end, piece, right, right_len)
}
