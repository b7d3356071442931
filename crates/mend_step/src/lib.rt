// One step of an edit on its way up, where a child fell below its least size: it is merged with its neighbour, or gets a share of what that
// holds. The list keeps its slot; the slot of a child that was merged into the one before it is free then. A refused call changes no byte.
#![tactic(auto)]

ghost use Rattle.std.specs.Prelude.{◌≡◌, [], ◌+◌, ◌<◌, ◌≤◌, length, Ok};
ghost use Rattle.plain.specs.Outcome.{Outcome.value};
ghost use Rattle.pool.specs.Slot.{slot_start};
ghost use Rattle.node_children.specs.Kids.{kids, list_of, Listing};
ghost use Rattle.nodes.specs.Node.{children_of};
ghost use Rattle.child_info.specs.Kin.{slot_in};
ghost use Rattle.edit_steps.specs.Made.{edit, sized, Stepped};
ghost use Rattle.mend_step.specs.Mended.{paired, closed, joining, mended};

use answer::{Answer, Refusal};
use edit_steps::Edit;
use free_slots::give_slot;
use merge::merge_distribute;
use node_children::{Listed, NodeChildren};
use nodes::{MIN_LEN, load};
use text_info::TextInfo;

// The list in a slot: refused by 3 where it has no child behind the one at an index.
fn paired(m: &[u8], slot: usize, idx: usize) -> Listed
    ensures { Listing (paired m.now slot idx) (list_of []) result }
{
    let found = load(m, slot);
    let may = found.verdict;
    let Ok(()) = may else {
        return found;
    };
    let n = found.list.len;
    if n <= idx {
        return Listed {
            verdict: Err(Refusal::Place),
            list: NodeChildren::new(),
        };
    }
    if n <= idx + 1 {
        return Listed {
            verdict: Err(Refusal::Place),
            list: NodeChildren::new(),
        };
    }
    found
}

// The slot of the child at an index.
fn slot_of(list: NodeChildren, idx: usize) -> usize
    requires { (idx < list.len) × (list.len ≤ 16) }
    ensures { (result ≡ slot_in (kids list) idx) × (result < 4294967296) }
{
    list.arr[idx].slot as usize
}

// What became of a list that has n children now, and these counts.
fn became(n: usize, info: TextInfo) -> Edit
    ensures { edit (Ok result) ≡ value (sized 4 n info) }
{
    if n < MIN_LEN {
        Edit::Small(info)
    } else {
        Edit::Same(info)
    }
}

// Two of n children were joined, the second of which lies in a slot.
fn close(m: &mut [u8], merged: bool, second: usize, n: usize, info: TextInfo) -> Answer<Edit>
    requires { (1 ≤ n) × (second < 4294967296) × (slot_start second + 640 ≤ length m.old) }
    ensures { Stepped (value (closed m.old merged second n info)) m.old result m.new }
{
    if merged {
        give_slot(m, second)?;
        Ok(became(n - 1, info))
    } else {
        Ok(became(n, info))
    }
}

// The children at an index and behind it, of the list in a slot.
fn join(m: &mut [u8], slot: usize, list: NodeChildren, idx: usize, info: TextInfo) -> Answer<Edit>
    requires { (idx + 1 < list.len) × (list.len ≤ 16) × (list ≡ list_of (children_of m.old slot)) }
    ensures { Stepped (joining m.old slot list idx info) m.old result m.new }
{
    let second = slot_of(list, idx + 1);
    let n = list.len;
    let merged = merge_distribute(m, slot, idx, idx + 1)?;
    close(m, merged, second, n, info)
}

// The child at an index and the one behind it are joined, as one of them is below its least size. The list's counts are given: joining
// leaves its text as it is.
pub fn mend(m: &mut [u8], slot: usize, idx: usize, info: TextInfo) -> Answer<Edit>
    ensures { Stepped (mended m.old slot idx info) m.old result m.new }
{
    let found = paired(m, slot, idx);
    found.verdict?;
    join(m, slot, found.list, idx, info)
}
