// The calls that make a list of one, take a child out of one, or make two of one or two, in the slots where they lie.
ghost use Rattle.std.specs.Prelude.{◌≡◌, []};
ghost use Rattle.plain.specs.Outcome.{ruled, mapped};
ghost use Rattle.answer.specs.Answers.{outcome};
ghost use Rattle.pool.specs.Calls.{Wrote};
ghost use Rattle.node_children.specs.Kids.{list_of, Listing, Taking, Parting};
ghost use Rattle.nodes.specs.Calls.{stored};
ghost use Rattle.list_calls.specs.Asked.{entry, edit_by, take_by, part_by, editing, taking, parting, distributing, no_other, placed, both_rules, both_stored, Replied};

use crate::Five;
use crate::replies::of_verdict;
use answer::{Answer, Refusal};
use child_split::{distribute_with, insert_split, push_split};
use node_children::{Listed, MAX_LEN, NodeChildren, Taken, Two};
use nodes::{load, store};
use pool::{Kid, region_start};

// A list of one.
#[derive(Clone, Copy)]
pub(crate) enum Edit {
    Push,
    Insert,
}

// A child out of a list.
#[derive(Clone, Copy)]
pub(crate) enum Take {
    Pop,
    Remove,
}

// Two lists of one.
#[derive(Clone, Copy)]
pub(crate) enum Part {
    PushSplit,
    InsertSplit,
    SplitOff,
}

fn edit_by(list: NodeChildren, what: Edit, i: usize, kid: Kid) -> Listed
    ensures { Listing (edit_by what i kid list) list result }
{
    match what {
        Edit::Push => list.push(kid),
        Edit::Insert => list.insert(i, kid),
    }
}

fn take_by(list: NodeChildren, what: Take, i: usize) -> Taken
    ensures { Taking (take_by what i list) list result }
{
    match what {
        Take::Pop => list.pop(),
        Take::Remove => list.remove(i),
    }
}

fn part_by(list: NodeChildren, what: Part, i: usize, kid: Kid) -> Two
    ensures { Parting (part_by what i kid list) list (list_of []) result }
{
    match what {
        Part::PushSplit => push_split(list, kid),
        Part::InsertSplit => insert_split(list, i, kid),
        Part::SplitOff => list.split_off(i),
    }
}

// Makes a slot an empty list.
pub(crate) fn new_in(m: &mut [u8], slot: usize) -> Answer<()>
    ensures { Wrote (stored m.old slot (list_of [])) m.old result m.new }
{
    store(m, slot, NodeChildren::new())
}

// The list in a slot gives way to one made of it.
pub(crate) fn edit_in(m: &mut [u8], slot: usize, what: Edit, i: usize, kid: Kid) -> Answer<()>
    ensures { Wrote (editing what i kid m.old slot) m.old result m.new }
{
    let had = load(m, slot);
    had.verdict?;
    let got = edit_by(had.list, what, i, kid);
    got.verdict?;
    store(m, slot, got.list)
}

// The answer of a child taken out, where the list without it is written.
fn of_kid(kid: Kid, v: Answer<()>) -> Answer<Five>
    ensures { outcome result ≡ mapped (λ _. entry kid) (outcome v) }
{
    v?;
    Ok((
        kid.slot as usize,
        kid.info.bytes as usize,
        kid.info.chars as usize,
        kid.info.utf16_surrogates as usize,
        kid.info.line_breaks as usize,
    ))
}

// A child out of the list in a slot.
pub(crate) fn take_in(m: &mut [u8], slot: usize, what: Take, i: usize) -> Answer<Five>
    ensures { Replied (taking what i m.old slot) m.old result m.new }
{
    let had = load(m, slot);
    let v = had.verdict;
    let Ok(()) = v else {
        return of_verdict(v);
    };
    let got = take_by(had.list, what, i);
    let w = got.verdict;
    let Ok(()) = w else {
        return of_verdict(w);
    };
    of_kid(got.kid, store(m, slot, got.list))
}

// Whether a slot is none for a second list: the first one's own, or outside the memory.
fn no_other(m: &[u8], slot: usize, other: usize) -> bool
    ensures { result ≡ no_other m.now slot other }
{
    if slot == other {
        return true;
    }
    match region_start(m, other) {
        Ok(_) => false,
        Err(_) => true,
    }
}

// A call's verdict, where it may have no slot for its second list: 12 comes before that refusal.
fn ordered(v: Answer<()>, lost: bool) -> Answer<()>
    ensures { outcome result ≡ placed lost (outcome v) }
{
    if !lost {
        return v;
    }
    match v {
        Ok(()) => Err(Refusal::Memory),
        Err(r) => {
            if u8::from(r) == 12 {
                return v;
            }
            Err(Refusal::Memory)
        }
    }
}

// Whether two lists may be written.
fn fit_both(m: &[u8], slot: usize, other: usize, left: usize, right: usize) -> Answer<()>
    ensures { outcome result ≡ ruled (both_rules m.now slot other left right) tt }
{
    if no_other(m, slot, other) {
        return Err(Refusal::Memory);
    }
    let Ok(_) = region_start(m, slot) else {
        return Err(Refusal::Memory);
    };
    if MAX_LEN < left {
        return Err(Refusal::Size);
    }
    if MAX_LEN < right {
        return Err(Refusal::Size);
    }
    Ok(())
}

// Makes two slots these lists.
fn store_both(
    m: &mut [u8],
    slot: usize,
    other: usize,
    left: NodeChildren,
    right: NodeChildren,
) -> Answer<()>
    ensures { Wrote (both_stored m.old slot other left right) m.old result m.new }
{
    fit_both(m, slot, other, left.len, right.len)?;
    store(m, slot, left)?;
    store(m, other, right)
}

// The list in a slot parted: its left part stays, the right one becomes the list in another slot, whatever that held.
pub(crate) fn part_in(
    m: &mut [u8],
    slot: usize,
    other: usize,
    what: Part,
    i: usize,
    kid: Kid,
) -> Answer<()>
    ensures { Wrote (parting what i kid m.old slot other) m.old result m.new }
{
    let had = load(m, slot);
    had.verdict?;
    let got = part_by(had.list, what, i, kid);
    let u = got.verdict;
    let Ok(()) = u else {
        return ordered(u, no_other(m, slot, other));
    };
    store_both(m, slot, other, got.left, got.right)
}

// The children of the lists in two slots shared evenly.
pub(crate) fn distribute_in(m: &mut [u8], slot: usize, other: usize) -> Answer<()>
    ensures { Wrote (distributing m.old slot other) m.old result m.new }
{
    let left = load(m, slot);
    left.verdict?;
    let right = load(m, other);
    right.verdict?;
    let ours = left.list;
    let got = distribute_with(ours, right.list);
    got.verdict?;
    store_both(m, slot, other, got.left, got.right)
}
