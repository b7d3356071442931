// The children of a list in the lent memory: whether their counts are right, and whether they may be moved. A port of the part of ropey's
// `node_children.rs` that reaches through a child to its node and changes nothing; a list is named by its slot. Where the Rust panics, a
// call refuses.
#![tactic(auto)]

mod checks;

ghost use Rattle.std.specs.Prelude.{◌≡◌, true, [], ◌∷◌, ◌<◌, ◌≤◌};
ghost use Rattle.plain.specs.Outcome.{ruled};
ghost use Rattle.answer.specs.Answers.{outcome};
ghost use Rattle.node_children.specs.Kids.{kids, list_of};
ghost use Rattle.nodes.specs.Node.{is_list, children_of};
ghost use Rattle.child_info.specs.Kin.{pair_at};
ghost use Rattle.child_info.specs.Calls.{accurate, all_rules, pair_rules};

use answer::{Answer, Refusal};
use checks::{Ask, checked, some};
use node_children::NodeChildren;
use nodes::load;
use pool::Kid;

// Whether the children of a list that was read from its slot may be moved.
fn check_list(m: &[u8], slot: usize, list: NodeChildren) -> Answer<()>
    requires { (is_list m.now slot ≡ true) × (list ≡ list_of (children_of m.now slot)) }
    ensures { outcome result ≡ ruled (all_rules m.now slot) tt }
{
    if list.len == 0 {
        return Err(Refusal::Side);
    }
    checked(m, slot, list)
}

// Whether all children of a list may be moved.
pub fn check_all(m: &[u8], slot: usize) -> Answer<()>
    ensures { outcome result ≡ ruled (all_rules m.now slot) tt }
{
    let found = load(m, slot);
    found.verdict?;
    check_list(m, slot, found.list)
}

// A list of two children.
fn two(a: Kid, b: Kid) -> NodeChildren
    ensures { result ≡ list_of (a ∷ b ∷ []) }
{
    let mut list = NodeChildren::new();
    list.arr[0] = a;
    list.arr[1] = b;
    list.len = 2;
    list
}

// The two children at two indices, as a list.
fn pair_of(list: NodeChildren, idx1: usize, idx2: usize) -> NodeChildren
    requires { (idx1 < idx2) × (idx2 < list.len) × (list.len ≤ 16) }
    ensures { result ≡ list_of (pair_at idx1 idx2 (kids list)) }
{
    two(list.arr[idx1], list.arr[idx2])
}

// Whether two children of a list that was read from its slot may be moved.
fn check_two(m: &[u8], slot: usize, list: NodeChildren, idx1: usize, idx2: usize) -> Answer<()>
    requires { (is_list m.now slot ≡ true) × (list ≡ list_of (children_of m.now slot)) }
    ensures { outcome result ≡ ruled (pair_rules m.now slot idx1 idx2) tt }
{
    let n = list.len;
    if n == 0 {
        return Err(Refusal::Side);
    }
    if idx2 <= idx1 {
        return Err(Refusal::Place);
    }
    if n <= idx2 {
        return Err(Refusal::Place);
    }
    checked(m, slot, pair_of(list, idx1, idx2))
}

// Whether two children of a list may be merged, or distribute what they hold.
pub fn check_pair(m: &[u8], slot: usize, idx1: usize, idx2: usize) -> Answer<()>
    ensures { outcome result ≡ ruled (pair_rules m.now slot idx1 idx2) tt }
{
    let found = load(m, slot);
    found.verdict?;
    check_two(m, slot, found.list, idx1, idx2)
}

// Whether the counts of a list that was read from its slot are right.
fn accurate_in(m: &[u8], slot: usize, list: NodeChildren) -> Answer<bool>
    requires { (is_list m.now slot ≡ true) × (list ≡ list_of (children_of m.now slot)) }
    ensures { outcome result ≡ accurate m.now slot }
{
    if some(m, list, Ask::Lost) {
        return Err(Refusal::Memory);
    }
    if some(m, list, Ask::Ill) {
        return Err(Refusal::Text);
    }
    Ok(!some(m, list, Ask::Stale))
}

// Whether every child's counts are those of what lies below it.
pub fn is_info_accurate(m: &[u8], slot: usize) -> Answer<bool>
    ensures { outcome result ≡ accurate m.now slot }
{
    let found = load(m, slot);
    let may = found.verdict;
    may?;
    accurate_in(m, slot, found.list)
}
