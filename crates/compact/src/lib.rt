// The leaves of a list in the lent memory packed into as few slots as hold them. A port of `compact_leaves` of ropey's
// `node_children.rs`. A refused call changes no byte.
#![tactic(auto)]

mod pack;

ghost use Rattle.std.specs.Prelude.{◌≡◌, true, false, ◌<◌, ◌≤◌};
ghost use Rattle.plain.specs.Outcome.{Outcome.value};
ghost use Rattle.pool.specs.Calls.{outside, Wrote};
ghost use Rattle.node_children.specs.Kids.{kids, list_of};
ghost use Rattle.nodes.specs.Node.{is_list, children_of};
ghost use Rattle.child_info.specs.Kin.{slots_of, among};
ghost use Rattle.child_info.specs.Leaves.{AllLeaves};
ghost use Rattle.compact.specs.Pack.{relisted, compacted_kids, compacted};

use answer::{Answer, Refusal};
use child_info::check_all;
use child_update::update_child_info;
use node_children::NodeChildren;
use nodes::{load, store};
use pack::compact;
use pool::{Head, head_of};

// A child's slot as an index.
fn index_of(slot: u32) -> usize
    ensures { result ≡ slot }
{
    slot as usize
}

// Makes a slot a list of these leaves, and counts each of them.
fn relist(m: &mut [u8], slot: usize, list: NodeChildren) -> Answer<()>
    requires { (outside m.old slot ≡ false) × (list.len ≤ 16) × (list ≡ list_of (kids list)) × AllLeaves m.old (kids list) × (among slot (slots_of (kids list)) ≡ false) }
    ensures { Wrote (value (relisted slot (m.old, kids list))) m.old result m.new }
{
    store(m, slot, list)?;
    let mut i = 0;
    while i < list.len {
        update_child_info(m, slot, i)?;
        i += 1;
    }
    Ok(())
}

// Packs the leaves of a list that was read from its slot.
fn compact_in(m: &mut [u8], slot: usize, list: NodeChildren) -> Answer<()>
    requires { (is_list m.old slot ≡ true) × (list ≡ list_of (children_of m.old slot)) × (0 < list.len) × AllLeaves m.old (kids list) × (among slot (slots_of (kids list)) ≡ false) }
    ensures { Wrote (value (compacted_kids m.old slot (children_of m.old slot))) m.old result m.new }
{
    let rest = compact(m, list);
    rest.verdict?;
    relist(m, slot, rest.list)
}

// Packs the leaves of a list into as few slots as hold them. A list of lists, or of one child, stays as it is.
pub fn compact_leaves(m: &mut [u8], slot: usize) -> Answer<()>
    ensures { Wrote (compacted m.old slot) m.old result m.new }
{
    check_all(m, slot)?;
    let found = load(m, slot);
    found.verdict?;
    let list = found.list;
    if list.len < 2 {
        return Ok(());
    }
    match head_of(m, index_of(list.arr[0].slot))? {
        Head::Leaf(_) => compact_in(m, slot, list),
        Head::List(_) => Ok(()),
        Head::Free(_) => Err(Refusal::Memory),
    }
}
