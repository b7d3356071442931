// One step of an edit on its way up: a list of children takes in what became of one of them. The list keeps its slot; a full one that gets
// one child more is parted, and the right half lies in a slot that was free. A refused call changes no byte.
#![tactic(auto)]

ghost use Rattle.answer.specs.Answers.{outcome};
ghost use Rattle.std.specs.Prelude.{◌≡◌, true, false, [], ◌∷◌, ◌<◌, ◌≤◌};
ghost use Rattle.plain.specs.Outcome.{ruled};
ghost use Rattle.pool.specs.Slot.{len_of};
ghost use Rattle.pool.specs.Calls.{outside};
ghost use Rattle.node_children.specs.Kids.{kids, list_of, Listing};
ghost use Rattle.nodes.specs.Node.{is_list, children_of, too_wide, narrowed, total_of};
ghost use Rattle.edit_steps.specs.Made.{Stepped};
ghost use Rattle.list_step.specs.Steps.{recount, recounted, keeping, laying, parting, adding, one_put, two_put};

use answer::{Answer, Refusal};
use child_split::insert_split;
use edit_steps::Edit;
use free_slots::{LAST_SLOT, take_slot};
use node_children::{Listed, MAX_LEN, NodeChildren};
use nodes::{MIN_LEN, list_info, load, narrow, store};
use pool::{Head, Kid, head_of, info_of, set_info};
use text_info::{TextInfo, TextSum};

// The child at an index gets other counts.
fn recount(list: NodeChildren, idx: usize, info: TextInfo) -> NodeChildren
    requires { (idx < list.len) × (list.len ≤ 16) × (list ≡ list_of (kids list)) }
    ensures { result ≡ list_of (recount idx info (kids list)) }
{
    let kid = list.arr[idx];
    let mut new = list;
    new.arr[idx] = Kid {
        slot: kid.slot,
        info: info,
    };
    new
}

// The children of the list in a slot, the one at an index with other counts.
fn recounted(m: &[u8], slot: usize, idx: usize, info: TextInfo) -> Listed
    ensures { Listing (recounted m.now slot idx info) (list_of []) result }
{
    let found = load(m, slot);
    let may = found.verdict;
    let Ok(()) = may else {
        return found;
    };
    let list = found.list;
    if list.len <= idx {
        return Listed {
            verdict: Err(Refusal::Place),
            list: NodeChildren::new(),
        };
    }
    Listed {
        verdict: Ok(()),
        list: recount(list, idx, info),
    }
}

// These children become those of the list in a slot: refused by 2 where their counts have more than 32 bits.
fn keep(m: &mut [u8], slot: usize, list: NodeChildren) -> Answer<Edit>
    requires { (outside m.old slot ≡ false) × (list.len ≤ 16) }
    ensures { Stepped (keeping m.old slot list) m.old result m.new }
{
    let info = list_info(list)?;
    store(m, slot, list)?;
    if list.len < MIN_LEN {
        Ok(Edit::Small(info))
    } else {
        Ok(Edit::Same(info))
    }
}

// Two lists with these counts, one in a slot and one in the first free slot.
fn lay_two(
    m: &mut [u8],
    slot: usize,
    left: NodeChildren,
    info: TextInfo,
    right: NodeChildren,
    other: TextInfo,
) -> Answer<Edit>
    requires { (outside m.old slot ≡ false) × (left.len ≤ 16) × (right.len ≤ 16) }
    ensures { Stepped (laying m.old slot left info right other) m.old result m.new }
{
    let new = take_slot(m)?;
    store(m, slot, left)?;
    store(m, new, right)?;
    Ok(Edit::Split(info, new, other))
}

// The same where the counts of each have 32 bits, else refused by 2.
fn part(m: &mut [u8], slot: usize, left: NodeChildren, right: NodeChildren) -> Answer<Edit>
    requires { (outside m.old slot ≡ false) × (left.len ≤ 16) × (right.len ≤ 16) }
    ensures { Stepped (parting m.old slot left right) m.old result m.new }
{
    let info = list_info(left)?;
    let other = list_info(right)?;
    lay_two(m, slot, left, info, right, other)
}

// One child more, before the one at an index or behind the last.
fn add(m: &mut [u8], slot: usize, list: NodeChildren, at: usize, item: Kid) -> Answer<Edit>
    requires { (outside m.old slot ≡ false) × (at ≤ list.len) × (list.len ≤ 16) }
    ensures { Stepped (adding m.old slot at item list) m.old result m.new }
{
    let n = list.len;
    if n < MAX_LEN {
        let more = list.insert(at, item);
        more.verdict?;
        keep(m, slot, more.list)
    } else {
        let two = insert_split(list, at, item);
        two.verdict?;
        part(m, slot, two.left, two.right)
    }
}

// The counts of the n children of the list in a slot added up where they lie, the one at an index with these. All are added, and its own taken off
// again: a test in the loop takes longer. Refused by 2 where the sum has more than 32 bits.
fn total_with(m: &[u8], slot: usize, n: usize, idx: usize, new: TextInfo) -> Answer<TextInfo>
    requires { (is_list m.now slot ≡ true) × (len_of m.now slot ≡ n) × (idx < n) }
    ensures { outcome result ≡ ruled ((2, too_wide (total_of (recount idx new (children_of m.now slot)))) ∷ []) (narrowed (total_of (recount idx new (children_of m.now slot)))) }
{
    let mut all = TextSum::new();
    for i in 0..n {
        let counts = info_of(m, slot, i)?;
        all = all + counts;
    }
    let own = info_of(m, slot, idx)?;
    narrow(all - own + new)
}

// The child at an index of a list of n has these counts now.
fn put_in(m: &mut [u8], slot: usize, n: usize, idx: usize, info: TextInfo) -> Answer<Edit>
    requires { (is_list m.old slot ≡ true) × (len_of m.old slot ≡ n) }
    ensures { Stepped (one_put m.old slot idx info) m.old result m.new }
{
    if n <= idx {
        return Err(Refusal::Place);
    }
    let all = total_with(m, slot, n, idx, info)?;
    set_info(m, slot, idx, info)?;
    if n < MIN_LEN {
        Ok(Edit::Small(all))
    } else {
        Ok(Edit::Same(all))
    }
}

// The child at an index has these counts now.
pub fn put_one(m: &mut [u8], slot: usize, idx: usize, info: TextInfo) -> Answer<Edit>
    ensures { Stepped (one_put m.old slot idx info) m.old result m.new }
{
    let Head::List(n) = head_of(m, slot)? else {
        return Err(Refusal::Memory);
    };
    put_in(m, slot, n, idx, info)
}

// The child at an index became two: these are its counts now, and the slot and the counts of a new child behind it.
pub fn put_two(
    m: &mut [u8],
    slot: usize,
    idx: usize,
    info: TextInfo,
    right: usize,
    other: TextInfo,
) -> Answer<Edit>
    ensures { Stepped (two_put m.old slot idx info right other) m.old result m.new }
{
    if LAST_SLOT < right {
        return Err(Refusal::Memory);
    }
    let new = Kid {
        slot: right as u32,
        info: other,
    };
    let family = recounted(m, slot, idx, info);
    family.verdict?;
    add(m, slot, family.list, idx + 1, new)
}
