// Two leaves whose bytes change sides.
ghost use Rattle.std.specs.Prelude.{◌≡◌, false, [], ◌++◌, ◌+◌, ◌-◌, ◌≤◌, ◌<◌, length, take, drop};
ghost use Rattle.plain.specs.Outcome.{Outcome.value};
ghost use Rattle.answer.specs.Answers.{outcome};
ghost use Rattle.leaf_bytes.specs.Leaf.{leaf_of, laid, Leaves};
ghost use Rattle.leaf_bytes.specs.Raw.{cutting};

use answer::{Answer, Refusal};
use leaf_bytes::{replace, room};

// The seam moved to the left: bytes of the left leaf go to the right one. Answers how long the leaves are then.
fn shift_left(
    left: &[u8],
    len: usize,
    right: &mut [u8],
    right_len: usize,
    split: usize,
) -> Answer<(usize, usize)>
    requires { (len ≤ length left.now) × (right_len ≤ length right.old) × (split ≤ len) × (len + right_len - split ≤ length right.old) × (right_len ≤ 512) × (len + right_len - split ≤ 512) }
    ensures { (outcome result ≡ value (split, len + right_len - split)) × (right.new ≡ laid right.old (drop split (leaf_of left.now len ++ leaf_of right.old right_len))) }
{
    let rest = replace(right, right_len, 0, 0, &left[split..len])?;
    Ok((split, rest))
}

// The seam moved to the right: bytes of the right leaf go to the left one.
fn shift_right(
    left: &mut [u8],
    len: usize,
    right: &mut [u8],
    right_len: usize,
    split: usize,
) -> Answer<(usize, usize)>
    requires { (len ≤ length left.old) × (right_len ≤ length right.old) × (len ≤ split) × (split ≤ len + right_len) × (split ≤ length left.old) × (right_len ≤ 512) × (split ≤ 512) }
    ensures { (outcome result ≡ value (split, len + right_len - split)) × (left.new ≡ laid left.old (take split (leaf_of left.old len ++ leaf_of right.old right_len))) × (right.new ≡ laid right.old (drop split (leaf_of left.old len ++ leaf_of right.old right_len))) }
{
    let pos = split - len;
    let more = replace(left, len, len, len, &right[..pos])?;
    let rest = replace(right, right_len, 0, pos, b"")?;
    Ok((more, rest))
}

// The bytes between a seam and where it is moved to change sides.
fn shift_seam(
    left: &mut [u8],
    len: usize,
    right: &mut [u8],
    right_len: usize,
    split: usize,
) -> Answer<(usize, usize)>
    requires { (len ≤ length left.old) × (right_len ≤ length right.old) × (split ≤ len + right_len) × (split ≤ length left.old) × (len + right_len - split ≤ length right.old) × (right_len ≤ 512) × (split ≤ 512) × (len + right_len - split ≤ 512) }
    ensures { (outcome result ≡ value (split, len + right_len - split)) × (left.new ≡ laid left.old (take split (leaf_of left.old len ++ leaf_of right.old right_len))) × (right.new ≡ laid right.old (drop split (leaf_of left.old len ++ leaf_of right.old right_len))) }
{
    if split < len {
        return shift_left(left, len, right, right_len, split);
    }
    shift_right(left, len, right, right_len, split)
}

// The same, where both sides fit.
pub(crate) fn move_seam(
    left: &mut [u8],
    len: usize,
    right: &mut [u8],
    right_len: usize,
    split: usize,
) -> Answer<(usize, usize)>
    requires { (len ≤ length left.old) × (right_len ≤ length right.old) × (split ≤ len + right_len) × (right_len ≤ 512) × (len < 65536) }
    ensures { Leaves (cutting [] false left.old right.old (leaf_of left.old len ++ leaf_of right.old right_len) split) left.old right.old result left.new right.new }
{
    if room(left) < split {
        return Err(Refusal::Size);
    }
    let rest = len + right_len - split;
    if room(right) < rest {
        return Err(Refusal::Size);
    }
    shift_seam(left, len, right, right_len, split)
}
