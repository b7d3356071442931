// A leaf sought in the tree by an index, one level down at each step. Total on any bytes: where a slot on the way holds no list, refused
// by 2; where the index is past the end of what lies below one, by 3.
#![tactic(auto)]

ghost use Rattle.answer.specs.Answers.{outcome};
ghost use Rattle.std.specs.Prelude.{◌≡◌, ◌-◌};
ghost use Rattle.child_search.specs.Sought.{Within};
ghost use Rattle.tree.specs.Tree.{plus_sum};
ghost use Rattle.tree_search.specs.Search.{Bounded, Narrow, count_in, branch_at, leaf_at};

use answer::{Answer, Refusal};
use child_search::Measure;
use pool::child_of;
use text_info::TextSum;

fn less(at: usize, left: u64) -> usize
    ensures { result ≡ at - left }
{
    if (at as u64) < left {
        return 0;
    }
    at - left as usize
}

// The index without what lies on the left of it, by the count that the search goes by.
pub fn rest(by: Measure, at: usize, left: TextSum) -> usize
    ensures { result ≡ at - count_in by left }
{
    match by {
        Measure::Bytes => less(at, left.bytes),
        Measure::Chars => less(at, left.chars),
        Measure::Utf16 => less(less(at, left.chars), left.utf16_surrogates),
        Measure::Breaks => less(at, left.line_breaks),
        Measure::CharEnds => less(at, left.chars),
    }
}

// Two sums added up.
fn joined(a: TextSum, b: TextSum) -> TextSum
    requires { Within a 16 × Within b 4080 }
    ensures { result ≡ plus_sum a b }
{
    TextSum {
        bytes: a.bytes + b.bytes,
        chars: a.chars + b.chars,
        utf16_surrogates: a.utf16_surrogates + b.utf16_surrogates,
        line_breaks: a.line_breaks + b.line_breaks,
    }
}

// The child of a list that an index lies in.
pub fn child_at(m: &[u8], slot: usize, by: Measure, at: usize) -> Answer<(usize, (usize, TextSum))>
    ensures { (outcome result ≡ branch_at m.now slot by at) × Narrow result }
{
    let (i, left) = nodes::search(m, slot, by, at)?;
    let kid = child_of(m, slot, i)?;
    Ok((i, (kid, left)))
}

// The leaf that an index lies in, of the tree of a height at a slot.
pub fn leaf_at(m: &[u8], level: u8, slot: usize, by: Measure, at: usize) -> Answer<(usize, TextSum)>
    ensures { (outcome result ≡ leaf_at m.now level slot by at) × Bounded level result }
{
    if level == 0 {
        return Ok((slot, TextSum::new()));
    }
    let (_, (kid, left)) = child_at(m, slot, by, at)?;
    let (leaf, inner) = leaf_at(m, level - 1, kid, by, rest(by, at, left))?;
    Ok((leaf, joined(left, inner)))
}
