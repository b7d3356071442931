// The check of a tree in the lent memory, whatever bytes this has. It walks node and child list in turn, one level down at each list, and
// marks the slots that it meets: a slot met twice ends it, so it is linear in the memory.
#![tactic(auto)]

mod texts;

ghost use Rattle.std.specs.Prelude.{◌≡◌, false, ◌≤◌};
ghost use Rattle.pool.specs.Calls.{outside};
ghost use Rattle.tree.specs.Tree.{least_at};
ghost use Rattle.tree_check.specs.Met.{ShapeIs, NodeMet, KidsMet, kids_to};

pub use crate::texts::tells;
use crate::texts::{begun, check_leaf, follows, plus};
use answer::Answer;
use nodes::{MIN_BYTES, MIN_LEN};
use pool::{Head, child_of, head_of, info_of};
use text_info::TextSum;

// What is told of a sound tree: the counts of its text, whether this begins with LF, and whether it ends in CR.
#[derive(Clone, Copy)]
pub struct Met {
    pub sum: TextSum,
    pub lf: bool,
    pub cr: bool,
}

// What a slot can be in the tree, with its length.
#[derive(Clone, Copy)]
enum Shape {
    Leaf(usize),
    List(usize),
}

fn least_of(level: u8) -> usize
    ensures { result ≡ least_at level }
{
    if level == 0 {
        return MIN_BYTES;
    }
    MIN_LEN
}

// What the slot of a node at this height is.
fn shape_of(m: &[u8], level: u8, slot: usize, least: usize) -> Option<Shape>
    ensures { ShapeIs m.now least level slot result }
{
    match head_of(m, slot) {
        Ok(Head::Leaf(n)) => {
            if level != 0 {
                return None;
            }
            if n < least {
                return None;
            }
            Some(Shape::Leaf(n))
        }
        Ok(Head::List(n)) => {
            if level == 0 {
                return None;
            }
            if n < least {
                return None;
            }
            Some(Shape::List(n))
        }
        Ok(Head::Free(_)) => None,
        Err(_) => None,
    }
}

// The tree of this height at a slot, of `least` bytes or children. `seen` has a byte for each slot, 0 where it was not met.
#[cycle(check_list_check_node)]
pub fn check_node(m: &[u8], seen: &mut [u8], level: u8, slot: usize, least: usize) -> Option<Met>
    ensures { NodeMet m.now seen.old seen.new least level slot result }
{
    if seen.len() <= slot {
        return None;
    }
    if seen[slot] != 0 {
        return None;
    }
    seen[slot] = 1;
    match shape_of(m, level, slot, least)? {
        Shape::Leaf(n) => check_leaf(m, slot, n),
        Shape::List(n) => check_list(m, seen, level - 1, slot, n),
    }
}

// The n children of a list, each of this height.
#[cycle(check_list_check_node)]
fn check_list(m: &[u8], seen: &mut [u8], level: u8, slot: usize, n: usize) -> Option<Met>
    requires { (outside m.now slot ≡ false) × (n ≤ 16) }
    ensures { KidsMet m.now seen.old seen.new level (kids_to m.now slot n) result }
{
    let least = least_of(level);
    let mut sum = TextSum::new();
    let mut lf = false;
    let mut cr = false;
    for i in 0..n {
        let Ok(child) = child_of(m, slot, i) else {
            return None;
        };
        let Ok(info) = info_of(m, slot, i) else {
            return None;
        };
        let met = check_node(m, seen, level, child, least)?;
        if !follows(info, met.sum, cr, met.lf) {
            return None;
        }
        sum = plus(sum, info);
        lf = begun(i, lf, met.lf);
        cr = met.cr;
    }
    Some(Met { sum, lf, cr })
}
