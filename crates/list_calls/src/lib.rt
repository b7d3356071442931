// Every call of a child list by its number, over lists that lie in slots of lent memory, with one form of question and answer: what the
// replayed sample and the programs in C and Rust ask through. A refused call changes no byte.
#![tactic(auto)]

mod deeps;
mod reads;
mod replies;
mod writes;

ghost use Rattle.std.specs.Prelude.{◌≡◌, ◌-◌, ◌<◌, ◌≤◌, get_or};
ghost use Rattle.list_calls.specs.Asked.{asked, calls, asked_by, Replied};

use crate::deeps::{Deep, deep_in};
use crate::reads::{Read, read_in};
use crate::replies::of_verdict;
use crate::writes::{Edit, Part, Take, distribute_in, edit_in, new_in, part_in, take_in};
use answer::{Answer, Refusal};
use pool::Kid;

// Five numbers: those that a call does not name are 0.
pub type Five = (usize, usize, usize, usize, usize);

// What a call is: one that reads a list, makes one of one, takes a child out of one, makes two of one, reaches into the nodes of its
// children, or one of the two others.
#[derive(Clone, Copy)]
enum Call {
    New,
    Reads(Read),
    Edits(Edit),
    Takes(Take),
    Parts(Part),
    Deeps(Deep),
    DistributeWith,
}

// The calls in the order of their numbers, from 1.
const CALLS: [Call; 22] = [
    Call::New,
    Call::Reads(Read::Len),
    Call::Reads(Read::IsFull),
    Call::Deeps(Deep::UpdateChildInfo),
    Call::Edits(Edit::Push),
    Call::Parts(Part::PushSplit),
    Call::Deeps(Deep::MergeDistribute),
    Call::DistributeWith,
    Call::Deeps(Deep::CompactLeaves),
    Call::Takes(Take::Pop),
    Call::Edits(Edit::Insert),
    Call::Parts(Part::InsertSplit),
    Call::Takes(Take::Remove),
    Call::Parts(Part::SplitOff),
    Call::Reads(Read::CombinedInfo),
    Call::Reads(Read::SearchByteIdx),
    Call::Reads(Read::SearchCharIdx),
    Call::Reads(Read::SearchUtf16CodeUnitIdx),
    Call::Reads(Read::SearchCharIdxOnly),
    Call::Reads(Read::SearchLineBreakIdx),
    Call::Reads(Read::SearchCharIdxRange),
    Call::Deeps(Deep::IsInfoAccurate),
];

// The one with a number that there is.
fn call_of(n: u8) -> Call
    requires { (0 < n) × (n ≤ 22) }
    ensures { result ≡ get_or calls (n - 1) Call.New }
{
    let calls = CALLS;
    let k = (n - 1) as usize;
    calls[k]
}

fn ask(
    call: Call,
    m: &mut [u8],
    slot: usize,
    other: usize,
    i: usize,
    j: usize,
    kid: Kid,
) -> Answer<Five>
    ensures { Replied (asked call m.old slot other i j kid) m.old result m.new }
{
    match call {
        Call::New => of_verdict(new_in(m, slot)),
        Call::Reads(what) => read_in(m, slot, what, i, j),
        Call::Edits(what) => of_verdict(edit_in(m, slot, what, i, kid)),
        Call::Takes(what) => take_in(m, slot, what, i),
        Call::Parts(what) => of_verdict(part_in(m, slot, other, what, i, kid)),
        Call::Deeps(what) => deep_in(m, slot, what, i, j),
        Call::DistributeWith => of_verdict(distribute_in(m, slot, other)),
    }
}

// The answer of the call with a number; a number that names none is refused by 10.
pub fn ask_by(
    call: u8,
    m: &mut [u8],
    slot: usize,
    other: usize,
    i: usize,
    j: usize,
    kid: Kid,
) -> Answer<Five>
    ensures { Replied (asked_by call m.old slot other i j kid) m.old result m.new }
{
    if call == 0 {
        return Err(Refusal::Field);
    }
    if 22 < call {
        return Err(Refusal::Field);
    }
    ask(call_of(call), m, slot, other, i, j, kid)
}
