// Leaves packed into as few slots as hold them.
ghost use Rattle.std.specs.Prelude.{◌≡◌, cond, ◌+◌, ◌-◌, ◌<◌, ◌≤◌, length, drop};
ghost use Rattle.plain.specs.Outcome.{Outcome.value, mapped};
ghost use Rattle.answer.specs.Answers.{outcome};
ghost use Rattle.node_children.specs.Kids.{kids, list_of, Listing};
ghost use Rattle.node_children.specs.Calls.{without};
ghost use Rattle.nodes.specs.Node.{text_of};
ghost use Rattle.child_info.specs.Kin.{slot_in};
ghost use Rattle.child_info.specs.Leaves.{TwoLeaves, AllLeaves};
ghost use Rattle.compact.specs.Pack.{fits, moved, packed, packed_all};

use answer::{Answer, Refusal};
use crlf::prev_break;
use leaf_bytes::MAX_BYTES;
use leaf_nodes::{edit_leaf, text_of};
use node_children::{Listed, NodeChildren};
use pool::{Head, head_of};

// Whether all of a leaf went, where the last edit was accepted.
fn told_if(edit: Answer<usize>, all: bool) -> Answer<bool>
    ensures { outcome result ≡ mapped (λ _. all) (outcome edit) }
{
    edit?;
    Ok(all)
}

// The text of the leaf in slot r, up to the last break that has room, at the end of that in slot l, of a bytes. Answers how much is left.
fn fill(m: &mut [u8], l: usize, a: usize, text: &[u8], r: usize) -> Answer<usize>
    requires { TwoLeaves m.old l r × (a ≡ length (text_of m.old l)) × (text.now ≡ text_of m.old r) × (512 < a + length text.now) × (a < 512) }
    ensures { (outcome result ≡ value (length (drop (moved (text_of m.old l) (text_of m.old r)) (text_of m.old r)))) × (m.new ≡ packed m.old l r) }
{
    let k = prev_break(MAX_BYTES - a, text)?;
    edit_leaf(m, l, a, a, &text[..k])?;
    edit_leaf(m, r, 0, k, b"")
}

// The text of the leaf in slot r at the end of that in slot l, of a bytes: all of it, or up to the last break that has room.
fn pack_text(m: &mut [u8], l: usize, a: usize, text: &[u8], r: usize) -> Answer<bool>
    requires { TwoLeaves m.old l r × (a ≡ length (text_of m.old l)) × (text.now ≡ text_of m.old r) }
    ensures { (outcome result ≡ value (fits (text_of m.old l) (text_of m.old r))) × (m.new ≡ packed m.old l r) }
{
    if a + text.len() <= MAX_BYTES {
        return told_if(edit_leaf(m, l, a, a, text), true);
    }
    if a < MAX_BYTES {
        return told_if(fill(m, l, a, text, r), false);
    }
    Ok(false)
}

// The leaf in slot r, and that in slot l, of a bytes.
fn pack_behind(m: &mut [u8], l: usize, a: usize, r: usize) -> Answer<bool>
    requires { TwoLeaves m.old l r × (a ≡ length (text_of m.old l)) }
    ensures { (outcome result ≡ value (fits (text_of m.old l) (text_of m.old r))) × (m.new ≡ packed m.old l r) }
{
    let mut text = [0u8; 512];
    let k = text_of(m, r, &mut text)?;
    pack_text(m, l, a, &text[..k], r)
}

// Packs the leaf in slot r into that in slot l. Answers whether all of it went.
fn pack(m: &mut [u8], l: usize, r: usize) -> Answer<bool>
    requires { TwoLeaves m.old l r }
    ensures { (outcome result ≡ value (fits (text_of m.old l) (text_of m.old r))) × (m.new ≡ packed m.old l r) }
{
    match head_of(m, l)? {
        Head::Leaf(a) => pack_behind(m, l, a, r),
        Head::List(_) => Err(Refusal::Memory),
        Head::Free(_) => Err(Refusal::Memory),
    }
}

// The list without the leaf at an index, if all of it went.
fn rest(list: NodeChildren, i: usize, all: bool) -> Listed
    requires { (i < list.len) × (list.len ≤ 16) }
    ensures { Listing (value (cond all (list_of (without i (kids list))) list)) list result }
{
    if all {
        let less = list.remove(i);
        let may = less.verdict;
        let Ok(()) = may else {
            return Listed {
                verdict: may,
                list: list,
            };
        };
        let left = less.list;
        return Listed {
            verdict: Ok(()),
            list: left,
        };
    }
    Listed {
        verdict: Ok(()),
        list: list,
    }
}

// Packs the leaf at an index of a list into the one before it, and takes it out of the list if all of it went.
fn pack_at(m: &mut [u8], list: NodeChildren, i: usize) -> Listed
    requires { AllLeaves m.old (kids list) × (0 < i) × (i < list.len) × (list.len ≤ 16) × (list ≡ list_of (kids list)) }
    ensures { (m.new ≡ packed m.old (slot_in (kids list) (i - 1)) (slot_in (kids list) i)) × Listing (value (cond (fits (text_of m.old (slot_in (kids list) (i - 1))) (text_of m.old (slot_in (kids list) i))) (list_of (without i (kids list))) list)) list result }
{
    match pack(m, list.arr[i - 1].slot as usize, list.arr[i].slot as usize) {
        Err(q) => Listed {
            verdict: Err(q),
            list: list,
        },
        Ok(all) => rest(list, i, all),
    }
}

// Packs the leaves of a list, which must have one, and hands back the list of those that are left.
pub(crate) fn compact(m: &mut [u8], given: NodeChildren) -> Listed
    requires { AllLeaves m.old (kids given) × (0 < given.len) × (given.len ≤ 16) × (given ≡ list_of (kids given)) }
    ensures { (m.new ≡ (packed_all m.old (kids given)).0) × Listing (value (list_of (packed_all m.old (kids given)).1)) given result }
{
    let mut list = given;
    let mut i = 1;
    while i < list.len {
        let n = list.len;
        let next = pack_at(m, list, i);
        let may = next.verdict;
        let Ok(()) = may else {
            return next;
        };
        list = next.list;
        if n == list.len {
            i += 1;
        }
    }
    Listed {
        verdict: Ok(()),
        list: list,
    }
}
