// Child lists split in two halves, and two that share their children. From `node_children.rs`, where these are methods of the list. A call
// that refuses hands back the lists that it was given.
#![tactic(auto)]

ghost use Rattle.std.specs.Prelude.{◌≡◌, [], ◌∷◌, ◌++◌, ◌+◌, ◌/◌, ◌<◌, ◌≤◌};
ghost use Rattle.plain.specs.Outcome.{Outcome.value, Outcome.refused};
ghost use Rattle.answer.specs.Answers.{refusal_number};
ghost use Rattle.node_children.specs.Kids.{kids, list_of, Parting};
ghost use Rattle.node_children.specs.Calls.{with_kid, halves, pushed_split, inserted_split, distributed};
ghost use Rattle.child_split.specs.Moves.{last_out, last_in, first_out, first_in};

use answer::{Answer, Refusal};
use node_children::{MAX_LEN, NodeChildren, Two, not_parted};
use pool::Kid;

// The children with one more behind them, in two halves: those of a full list too.
fn split_with(list: NodeChildren, item: Kid) -> Two
    requires { (0 < list.len) × (list.len ≤ 16) }
    ensures { Parting (value (halves (kids list ++ (item ∷ [])))) list (list_of []) result }
{
    let n = list.len;
    let r_count = (n + 1) / 2;
    let l_count = n + 1 - r_count;
    let two = list.split_off(l_count);
    let parted = two.verdict;
    let Ok(()) = parted else {
        return two;
    };
    let more = two.right.push(item);
    let may = more.verdict;
    match may {
        Err(r) => not_parted(list, r),
        Ok(()) => {
            let left = two.left;
            let right = more.list;
            Two {
                verdict: Ok(()),
                left: left,
                right: right,
            }
        }
    }
}

// A child behind the others, and then the right half split off. Works on a full list.
pub fn push_split(list: NodeChildren, new_child: Kid) -> Two
    ensures { Parting (pushed_split list new_child) list (list_of []) result }
{
    let n = list.len;
    if n == 0 {
        return not_parted(list, Refusal::Side);
    }
    if MAX_LEN < n {
        return not_parted(list, Refusal::Size);
    }
    split_with(list, new_child)
}

// A child put in before one of the others, and then the right half split off. The last child goes behind the others again.
fn split_before(list: NodeChildren, idx: usize, item: Kid) -> Two
    requires { (idx < list.len) × (list.len ≤ 16) }
    ensures { Parting (value (halves (with_kid idx item (kids list)))) list (list_of []) result }
{
    let last = list.pop();
    let popped = last.verdict;
    match popped {
        Err(r) => not_parted(list, r),
        Ok(()) => {
            let more = last.list.insert(idx, item);
            let may = more.verdict;
            match may {
                Err(r) => not_parted(list, r),
                Ok(()) => split_with(more.list, last.kid),
            }
        }
    }
}

// A child put in at an index, and then the right half split off. Works on a full list.
pub fn insert_split(list: NodeChildren, idx: usize, item: Kid) -> Two
    ensures { Parting (inserted_split list idx item) list (list_of []) result }
{
    let n = list.len;
    if n == 0 {
        return not_parted(list, Refusal::Side);
    }
    if n < idx {
        return not_parted(list, Refusal::Place);
    }
    if MAX_LEN < n {
        return not_parted(list, Refusal::Size);
    }
    if idx < n {
        return split_before(list, idx, item);
    }
    split_with(list, item)
}

// Two lists that do not share their children.
fn not_shared(list: NodeChildren, other: NodeChildren, r: Refusal) -> Two
    ensures { Parting (refused (refusal_number r)) list other result }
{
    Two {
        verdict: Err(r),
        left: list,
        right: other,
    }
}

// The last child of the left list goes to the front of the right one.
fn to_right(left: NodeChildren, right: NodeChildren) -> Two
    requires { (left ≡ list_of (kids left)) × (right ≡ list_of (kids right)) × (0 < left.len) × (left.len ≤ 16) × (right.len < 16) }
    ensures { Parting (value (last_out left, last_in left right)) left right result }
{
    let last = left.pop();
    let popped = last.verdict;
    match popped {
        Err(r) => not_shared(left, right, r),
        Ok(()) => {
            let more = right.insert(0, last.kid);
            let may = more.verdict;
            match may {
                Err(r) => not_shared(left, right, r),
                Ok(()) => {
                    let fewer = last.list;
                    let longer = more.list;
                    Two {
                        verdict: Ok(()),
                        left: fewer,
                        right: longer,
                    }
                }
            }
        }
    }
}

// The first child of the right list goes to the end of the left one.
fn to_left(left: NodeChildren, right: NodeChildren) -> Two
    requires { (left ≡ list_of (kids left)) × (right ≡ list_of (kids right)) × (0 < right.len) × (right.len ≤ 16) × (left.len < 16) }
    ensures { Parting (value (first_in left right, first_out right)) left right result }
{
    let first = right.remove(0);
    let removed = first.verdict;
    match removed {
        Err(r) => not_shared(left, right, r),
        Ok(()) => {
            let more = left.push(first.kid);
            let may = more.verdict;
            match may {
                Err(r) => not_shared(left, right, r),
                Ok(()) => {
                    let longer = more.list;
                    let fewer = first.list;
                    Two {
                        verdict: Ok(()),
                        left: longer,
                        right: fewer,
                    }
                }
            }
        }
    }
}

// Children go from one list to the other until the right one has so many.
fn level(list: NodeChildren, other: NodeChildren, r_target_len: usize) -> Two
    requires { (list ≡ list_of (kids list)) × (other ≡ list_of (kids other)) × (list.len ≤ 16) × (other.len ≤ 16) × (r_target_len ≡ (list.len + other.len) / 2) }
    ensures { Parting (value (halves (kids list ++ kids other))) list other result }
{
    let mut left = list;
    let mut right = other;
    while right.len < r_target_len {
        let two = to_right(left, right);
        let may = two.verdict;
        let Ok(()) = may else {
            return two;
        };
        left = two.left;
        right = two.right;
    }
    while r_target_len < right.len {
        let two = to_left(left, right);
        let may = two.verdict;
        let Ok(()) = may else {
            return two;
        };
        left = two.left;
        right = two.right;
    }
    Two {
        verdict: Ok(()),
        left: left,
        right: right,
    }
}

// Shares the children of two lists evenly, in their order.
pub fn distribute_with(list: NodeChildren, other: NodeChildren) -> Two
    ensures { Parting (distributed list other) list other result }
{
    let n = list.len;
    let m = other.len;
    if MAX_LEN < n {
        return not_shared(list, other, Refusal::Size);
    }
    if MAX_LEN < m {
        return not_shared(list, other, Refusal::Size);
    }
    let r_target_len = (n + m) / 2;
    let ours = list.split_off(n);
    let may = ours.verdict;
    match may {
        Err(r) => not_shared(list, other, r),
        Ok(()) => {
            let theirs = other.split_off(m);
            let too = theirs.verdict;
            match too {
                Err(r) => not_shared(list, other, r),
                Ok(()) => level(ours.left, theirs.left, r_target_len),
            }
        }
    }
}
