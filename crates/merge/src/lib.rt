// Two children of a list in the lent memory merged, or what they hold distributed between them. A port of `merge_distribute` of ropey's
// `node_children.rs`. A refused call changes no byte.
#![tactic(auto)]

mod join;

ghost use Rattle.std.specs.Prelude.{◌≡◌, true, ◌<◌, ◌≤◌};
ghost use Rattle.plain.specs.Outcome.{Outcome.value};
ghost use Rattle.pool.specs.Calls.{Wrote};
ghost use Rattle.node_children.specs.Kids.{kids, list_of};
ghost use Rattle.nodes.specs.Node.{is_list, children_of};
ghost use Rattle.child_info.specs.Kin.{slot_in};
ghost use Rattle.child_info.specs.Leaves.{Mergeable};
ghost use Rattle.merge.specs.Join.{Joined};
ghost use Rattle.merge.specs.Merge.{settled_memory, Ready, merged, merging};

use answer::Answer;
use child_info::check_pair;
use child_update::update_child_info;
use join::{join, told_if};
use node_children::NodeChildren;
use nodes::{load, store};

// The list without the second of two children that were merged, and the first counted anew.
fn take_out(m: &mut [u8], slot: usize, list: NodeChildren, idx1: usize, idx2: usize) -> Answer<()>
    requires { (is_list m.old slot ≡ true) × (list ≡ list_of (children_of m.old slot)) × (idx1 < idx2) × (idx2 < list.len) × Ready m.old slot (slot_in (kids list) idx1) (slot_in (kids list) idx2) }
    ensures { Wrote (value (settled_memory slot (kids list) idx1 idx2 true m.old)) m.old result m.new }
{
    let rest = list.remove(idx2);
    rest.verdict?;
    store(m, slot, rest.list)?;
    update_child_info(m, slot, idx1)
}

// What the list says when two of its children were joined: the second one goes where it was merged, and what changed is counted anew.
fn settle(
    m: &mut [u8],
    slot: usize,
    list: NodeChildren,
    idx1: usize,
    idx2: usize,
    merged: bool,
) -> Answer<()>
    requires { (is_list m.old slot ≡ true) × (list ≡ list_of (children_of m.old slot)) × (idx1 < idx2) × (idx2 < list.len) × Ready m.old slot (slot_in (kids list) idx1) (slot_in (kids list) idx2) }
    ensures { Wrote (value (settled_memory slot (kids list) idx1 idx2 merged m.old)) m.old result m.new }
{
    if merged {
        return take_out(m, slot, list, idx1, idx2);
    }
    update_child_info(m, slot, idx1)?;
    update_child_info(m, slot, idx2)
}

// A slot's number as an index.
fn index_of(slot: u32) -> usize
    ensures { result ≡ slot }
{
    slot as usize
}

// The slot of the child at an index.
fn slot_of(list: NodeChildren, idx: usize) -> usize
    requires { (idx < list.len) × (list.len ≤ 16) }
    ensures { result ≡ slot_in (kids list) idx }
{
    index_of(list.arr[idx].slot)
}

// Merges two children of a list that may be merged, or distributes between them.
fn merge_pair(
    m: &mut [u8],
    slot: usize,
    list: NodeChildren,
    idx1: usize,
    idx2: usize,
) -> Answer<bool>
    requires { (is_list m.old slot ≡ true) × (list ≡ list_of (children_of m.old slot)) × (idx1 < idx2) × (idx2 < list.len) × Mergeable m.old slot (slot_in (kids list) idx1) (slot_in (kids list) idx2) × Ready m.old slot (slot_in (kids list) idx1) (slot_in (kids list) idx2) }
    ensures { Joined (merged m.old slot (kids list) idx1 idx2) m.old result m.new }
{
    let a = slot_of(list, idx1);
    let b = slot_of(list, idx2);
    let merged = join(m, a, b)?;
    told_if(settle(m, slot, list, idx1, idx2, merged), merged)
}

// Merges the second of two children into the first, if both together are no more than a node holds, and takes it out of the list; or
// distributes what they hold evenly. Answers whether it merged.
pub fn merge_distribute(m: &mut [u8], slot: usize, idx1: usize, idx2: usize) -> Answer<bool>
    ensures { Joined (merging m.old slot idx1 idx2) m.old result m.new }
{
    check_pair(m, slot, idx1, idx2)?;
    let found = load(m, slot);
    let may = found.verdict;
    may?;
    merge_pair(m, slot, found.list, idx1, idx2)
}
