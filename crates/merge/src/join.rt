// Two neighbours joined, in their slots: merged where one node holds both, else shared out.
ghost use Rattle.std.specs.Prelude.{◌≡◌, Bool, true, false, ◌||◌, [], ◌∷◌, ◌++◌, ◌+◌, ◌≤◌, length};
ghost use Rattle.plain.specs.Outcome.{Outcome.value, ruled, mapped};
ghost use Rattle.answer.specs.Answers.{outcome};
ghost use Rattle.pool.specs.Calls.{outside, Wrote};
ghost use Rattle.node_children.specs.Kids.{kids, list_of, Listing};
ghost use Rattle.nodes.specs.Node.{is_list, text_of, children_of, too_wide, total_of, list_put, Fitting};
ghost use Rattle.child_info.specs.Leaves.{TwoLeaves, Alike};
ghost use Rattle.merge.specs.Join.{joined_text, joined_kids, joined, Joined, AllFit};

use answer::{Answer, Refusal};
use child_split::distribute_with;
use leaf_bytes::MAX_BYTES;
use leaf_nodes::{edit_leaf, halve_leaf, text_of};
use node_children::{Listed, NodeChildren};
use nodes::{list_info, load, store};
use pool::{Head, MAX_CHILDREN, head_of};

// Merged, where the leaf was edited.
fn merged_if(edit: Answer<usize>) -> Answer<bool>
    ensures { outcome result ≡ mapped (λ _. true) (outcome edit) }
{
    edit?;
    Ok(true)
}

// Distributed, where two leaves were made.
fn parted_if(two: Answer<(usize, usize)>) -> Answer<bool>
    ensures { outcome result ≡ mapped (λ _. false) (outcome two) }
{
    two?;
    Ok(false)
}

// A text at the end of the leaf of n bytes in slot a, or, where they have no room in one leaf, parted between a and b.
fn join_text(m: &mut [u8], a: usize, n: usize, text: &[u8], b: usize) -> Answer<bool>
    requires { TwoLeaves m.old a b × (n ≡ length (text_of m.old a)) × (text.now ≡ text_of m.old b) }
    ensures { Joined (joined_text m.old a b (text_of m.old a ++ text_of m.old b)) m.old result m.new }
{
    if n + text.len() <= MAX_BYTES {
        return merged_if(edit_leaf(m, a, n, n, text));
    }
    parted_if(halve_leaf(m, a, n, text, b))
}

// The leaf of n bytes in slot a, and the leaf in slot b.
fn join_leaves(m: &mut [u8], a: usize, n: usize, b: usize) -> Answer<bool>
    requires { TwoLeaves m.old a b × (n ≡ length (text_of m.old a)) }
    ensures { Joined (joined_text m.old a b (text_of m.old a ++ text_of m.old b)) m.old result m.new }
{
    let mut text = [0u8; 512];
    let k = text_of(m, b, &mut text)?;
    join_text(m, a, n, &text[..k], b)
}

// The children of two lists in one.
fn append(left: NodeChildren, right: NodeChildren) -> Listed
    requires { (left.len + right.len ≤ 16) × (left ≡ list_of (kids left)) }
    ensures { Listing (value (list_of (kids left ++ kids right))) left result }
{
    let n = right.len;
    let mut list = left;
    let mut i = 0;
    while i < n {
        let longer = list.push(right.arr[i]);
        let may = longer.verdict;
        let Ok(()) = may else {
            return longer;
        };
        list = longer.list;
        i += 1;
    }
    Listed {
        verdict: Ok(()),
        list: list,
    }
}

// Whether two nodes were merged, where what was written last was accepted.
pub(crate) fn told_if(v: Answer<()>, merged: bool) -> Answer<bool>
    ensures { outcome result ≡ mapped (λ _. merged) (outcome v) }
{
    v?;
    Ok(merged)
}

// Writes a list that may be written: refused by 2 where its counts cannot be.
fn put_one(m: &mut [u8], a: usize, list: NodeChildren) -> Answer<bool>
    requires { (outside m.old a ≡ false) × (list.len ≤ 16) }
    ensures { Joined (ruled ((2, too_wide (total_of (kids list))) ∷ []) (true, list_put m.old a list)) m.old result m.new × ((q : Bool) → outcome result ≡ value q → Fitting list.arr) }
{
    list_info(list)?;
    told_if(store(m, a, list), true)
}

// Writes two lists.
fn store_two(
    m: &mut [u8],
    a: usize,
    left: NodeChildren,
    b: usize,
    right: NodeChildren,
) -> Answer<()>
    requires { (outside m.old a ≡ false) × (outside m.old b ≡ false) × (left.len ≤ 16) × (right.len ≤ 16) }
    ensures { Wrote (value (list_put (list_put m.old a left) b right)) m.old result m.new × (Fitting left.arr × Fitting right.arr) }
{
    store(m, a, left)?;
    store(m, b, right)
}

fn put_two(
    m: &mut [u8],
    a: usize,
    left: NodeChildren,
    b: usize,
    right: NodeChildren,
) -> Answer<bool>
    requires { (outside m.old a ≡ false) × (outside m.old b ≡ false) × (left.len ≤ 16) × (right.len ≤ 16) }
    ensures { Joined (ruled ((2, too_wide (total_of (kids left)) || too_wide (total_of (kids right))) ∷ []) (false, list_put (list_put m.old a left) b right)) m.old result m.new × ((q : Bool) → outcome result ≡ value q → Fitting left.arr × Fitting right.arr) }
{
    list_info(left)?;
    list_info(right)?;
    told_if(store_two(m, a, left, b, right), false)
}

// Two lists that were read from their slots.
fn join_read(
    m: &mut [u8],
    a: usize,
    left: NodeChildren,
    b: usize,
    right: NodeChildren,
) -> Answer<bool>
    requires { (is_list m.old a ≡ true) × (is_list m.old b ≡ true) × (left ≡ list_of (children_of m.old a)) × (right ≡ list_of (children_of m.old b)) × (left.len ≤ 16) × (right.len ≤ 16) }
    ensures { Joined (joined_kids m.old a b (children_of m.old a ++ children_of m.old b)) m.old result m.new × ((q : Bool) → outcome result ≡ value q → AllFit (children_of m.old a ++ children_of m.old b)) }
{
    if left.len + right.len <= MAX_CHILDREN {
        let all = append(left, right);
        all.verdict?;
        return put_one(m, a, all.list);
    }
    let two = distribute_with(left, right);
    two.verdict?;
    put_two(m, a, two.left, b, two.right)
}

fn join_lists(m: &mut [u8], a: usize, b: usize) -> Answer<bool>
    requires { (is_list m.old a ≡ true) × (is_list m.old b ≡ true) }
    ensures { Joined (joined_kids m.old a b (children_of m.old a ++ children_of m.old b)) m.old result m.new × ((q : Bool) → outcome result ≡ value q → AllFit (children_of m.old a ++ children_of m.old b)) }
{
    let left = load(m, a);
    let may = left.verdict;
    may?;
    let right = load(m, b);
    let too = right.verdict;
    too?;
    join_read(m, a, left.list, b, right.list)
}

pub(crate) fn join(m: &mut [u8], a: usize, b: usize) -> Answer<bool>
    requires { Alike m.old a b }
    ensures { Joined (joined m.old a b) m.old result m.new × ((q : Bool) → outcome result ≡ value q → is_list m.old a ≡ true → AllFit (children_of m.old a ++ children_of m.old b)) }
{
    match head_of(m, a)? {
        Head::Leaf(n) => join_leaves(m, a, n, b),
        Head::List(_) => join_lists(m, a, b),
        Head::Free(_) => Err(Refusal::Memory),
    }
}
