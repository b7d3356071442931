// What became of the root is put into the memory's head: a root that was parted gets a list above it, and a root list of one child gives way to
// that child.
#![tactic(auto)]

ghost use Rattle.std.specs.Prelude.{◌≡◌, [], ◌∷◌, ◌<◌, Ok};
ghost use Rattle.plain.specs.Outcome.{Outcome.value};
ghost use Rattle.answer.specs.Answers.{outcome};
ghost use Rattle.node_children.specs.Kids.{kids, list_of, Listing};
ghost use Rattle.edit_steps.specs.Made.{edit};
ghost use Rattle.edit_steps.specs.Acts.{Did};
ghost use Rattle.root_step.specs.Root.{top_put, raised, grown, gave_way, shrunk, rooted_by};

use answer::{Answer, Refusal};
use edit_steps::Edit;
use free_slots::{LAST_SLOT, give_slot, take_slot};
use node_children::{Listed, NodeChildren};
use nodes::{list_info, load, store};
use note_head::{height, root, set_height, set_root};
use pool::Kid;
use text_info::TextInfo;

// The height that one byte tells at most.
const MAX_HEIGHT: u8 = 255;

// A node becomes the root, at a height.
fn put_top(m: &mut [u8], k: Kid, h: u8) -> Answer<()>
    ensures { Did outcome (top_put m.old k h) result m.new }
{
    set_root(m, k)?;
    set_height(m, h)
}

// A list of these two children, in the first free slot, becomes the root.
fn raise(m: &mut [u8], list: NodeChildren, h: u8) -> Answer<()>
    requires { (list.len < 16) × (list ≡ list_of (kids list)) × (h < 255) }
    ensures { Did outcome (raised m.old (kids list) h) result m.new }
{
    let info = list_info(list)?;
    let new = take_slot(m)?;
    store(m, new, list)?;
    let top = Kid {
        slot: new as u32,
        info: info,
    };
    put_top(m, top, h + 1)
}

// A list of two children.
fn pair(left: Kid, right: Kid) -> Listed
    ensures { Listing (value (list_of (left ∷ right ∷ []))) (list_of []) result }
{
    let one = NodeChildren::new().push(left);
    let may = one.verdict;
    let Ok(()) = may else {
        return one;
    };
    one.list.push(right)
}

// The root became two nodes, the second in a slot that was free.
fn grow(m: &mut [u8], left: Kid, right: usize, other: TextInfo) -> Answer<()>
    ensures { Did outcome (grown m.old left right other) result m.new }
{
    if LAST_SLOT < right {
        return Err(Refusal::Memory);
    }
    let h = height(m);
    if h == MAX_HEIGHT {
        return Err(Refusal::Memory);
    }
    let second = Kid {
        slot: right as u32,
        info: other,
    };
    let both = pair(left, second);
    both.verdict?;
    raise(m, both.list, h)
}

// The only child of the root takes its place, and the root's slot is free.
fn give_way(m: &mut [u8], slot: usize, child: Kid, h: u8) -> Answer<()>
    requires { 0 < h }
    ensures { Did outcome (gave_way m.old slot child h) result m.new }
{
    give_slot(m, slot)?;
    put_top(m, child, h - 1)
}

// The root is below a child's least size: a leaf may stay, and so may a list of two or three children.
fn shrink(m: &mut [u8], slot: u32, info: TextInfo) -> Answer<()>
    ensures { Did outcome (shrunk m.old slot info) result m.new }
{
    let h = height(m);
    let same = Kid {
        slot: slot,
        info: info,
    };
    if h == 0 {
        return put_top(m, same, h);
    }
    let list = load(m, slot as usize).list;
    if list.len != 1 {
        return put_top(m, same, h);
    }
    give_way(m, slot as usize, list.arr[0], h)
}

// The root became what an edit made of it; where it made nothing, or was refused, the head stays as it is.
pub fn put_root(m: &mut [u8], made: Answer<Edit>) -> Answer<()>
    ensures { Did outcome (rooted_by m.old (edit made)) result m.new }
{
    let kid = root(m);
    let slot = kid.slot;
    match made? {
        Edit::Same(info) => {
            let same = Kid {
                slot: slot,
                info: info,
            };
            put_top(m, same, height(m))
        }
        Edit::Small(info) => shrink(m, slot, info),
        Edit::Split(info, right, other) => {
            let left = Kid {
                slot: slot,
                info: info,
            };
            grow(m, left, right, other)
        }
        Edit::Apart => Ok(()),
    }
}
