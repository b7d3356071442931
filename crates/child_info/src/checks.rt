// What is asked of the children of a list before they are touched.
ghost use Rattle.std.specs.Prelude.{◌≡◌, ◌<◌, ◌≤◌, drop};
ghost use Rattle.plain.specs.Outcome.{ruled};
ghost use Rattle.answer.specs.Answers.{outcome};
ghost use Rattle.node_children.specs.Kids.{kids};
ghost use Rattle.nodes.specs.Node.{is_leaf, is_list};
ghost use Rattle.nodes.specs.Calls.{counted};
ghost use Rattle.child_info.specs.Kin.{refused_by, stale_in, asks_of, some_of, same_info, among, repeats, slots_of, mixed, broken, move_rules};

use answer::{Answer, Refusal};
use node_children::NodeChildren;
use nodes::text_info;
use pool::{Head, Kid, head_of};
use text_info::TextInfo;

// A child's node is a leaf; a list; none, or one whose counts cannot be; a leaf that is no text. Or the counts in the list are not the
// node's.
#[derive(Clone, Copy)]
pub(crate) enum Ask {
    Leaf,
    List,
    Lost,
    Ill,
    Stale,
}

fn same_info(a: TextInfo, b: TextInfo) -> bool
    ensures { result ≡ same_info a b }
{
    if a.bytes != b.bytes {
        return false;
    }
    if a.chars != b.chars {
        return false;
    }
    if a.utf16_surrogates != b.utf16_surrogates {
        return false;
    }
    a.line_breaks == b.line_breaks
}

// Whether the counting of a node is refused by a number.
fn refused_by(m: &[u8], slot: usize, number: u8) -> bool
    ensures { result ≡ refused_by number (counted m.now slot) }
{
    match text_info(m, slot) {
        Err(r) => u8::from(r) == number,
        Ok(_) => false,
    }
}

fn stale(m: &[u8], kid: Kid) -> bool
    ensures { result ≡ stale_in m.now kid }
{
    match text_info(m, kid.slot as usize) {
        Err(_) => true,
        Ok(info) => !same_info(kid.info, info),
    }
}

fn leaf(m: &[u8], slot: usize) -> bool
    ensures { result ≡ is_leaf m.now slot }
{
    let Ok(head) = head_of(m, slot) else {
        return false;
    };
    matches!(head, Head::Leaf(_))
}

fn list(m: &[u8], slot: usize) -> bool
    ensures { result ≡ is_list m.now slot }
{
    let Ok(head) = head_of(m, slot) else {
        return false;
    };
    matches!(head, Head::List(_))
}

fn asks(m: &[u8], kid: Kid, q: Ask) -> bool
    ensures { result ≡ asks_of q m.now kid }
{
    let slot = kid.slot as usize;
    match q {
        Ask::Leaf => leaf(m, slot),
        Ask::List => list(m, slot),
        Ask::Lost => refused_by(m, slot, 2),
        Ask::Ill => refused_by(m, slot, 5),
        Ask::Stale => stale(m, kid),
    }
}

// Whether it is so of some child.
pub(crate) fn some(m: &[u8], list: NodeChildren, q: Ask) -> bool
    requires { list.len ≤ 16 }
    ensures { result ≡ some_of q m.now (kids list) }
{
    let mut i = 0;
    while i < list.len {
        if asks(m, list.arr[i], q) {
            return true;
        }
        i += 1;
    }
    false
}

// A child's slot as an index.
fn place(kid: Kid) -> usize
    ensures { result ≡ kid.slot }
{
    kid.slot as usize
}

// Whether a slot is that of a child from an index on.
fn meets(list: NodeChildren, from: usize, slot: usize) -> bool
    requires { (list.len ≤ 16) × (from ≤ list.len) }
    ensures { result ≡ among slot (slots_of (drop from (kids list))) }
{
    let mut i = from;
    while i < list.len {
        if place(list.arr[i]) == slot {
            return true;
        }
        i += 1;
    }
    false
}

// Whether a slot occurs twice among the children.
fn twice(list: NodeChildren) -> bool
    requires { list.len ≤ 16 }
    ensures { result ≡ repeats (slots_of (kids list)) }
{
    let mut i = 0;
    while i < list.len {
        if meets(list, i + 1, place(list.arr[i])) {
            return true;
        }
        i += 1;
    }
    false
}

// Whether children are of different kinds.
fn mixes(m: &[u8], list: NodeChildren) -> bool
    requires { list.len ≤ 16 }
    ensures { result ≡ mixed m.now (kids list) }
{
    if some(m, list, Ask::Leaf) {
        return some(m, list, Ask::List);
    }
    false
}

// Whether one of the children of the list in a slot is no node, or a slot occurs twice.
fn breaks(m: &[u8], slot: usize, list: NodeChildren) -> bool
    requires { list.len ≤ 16 }
    ensures { result ≡ broken m.now slot (kids list) }
{
    if some(m, list, Ask::Lost) {
        return true;
    }
    if meets(list, 0, slot) {
        return true;
    }
    twice(list)
}

// Whether children of the list in a slot may be moved: refused by 12 where they are of different kinds, by 2 where one is no node or a
// slot occurs twice, by 5 where one is a leaf that is no text.
pub(crate) fn checked(m: &[u8], slot: usize, list: NodeChildren) -> Answer<()>
    requires { list.len ≤ 16 }
    ensures { outcome result ≡ ruled (move_rules m.now slot (kids list)) tt }
{
    if mixes(m, list) {
        return Err(Refusal::Side);
    }
    if breaks(m, slot, list) {
        return Err(Refusal::Memory);
    }
    if some(m, list, Ask::Ill) {
        return Err(Refusal::Text);
    }
    Ok(())
}
