// Two sides of a text laid into two regions.
ghost use Rattle.std.specs.Prelude.{◌≡◌, false, [], ◌++◌, ◌+◌, ◌-◌, ◌≤◌, ◌<◌, length, take, drop};
ghost use Rattle.plain.specs.Edit.{put_in};
ghost use Rattle.plain.specs.Outcome.{Outcome.value};
ghost use Rattle.answer.specs.Answers.{outcome};
ghost use Rattle.leaf_bytes.specs.Leaf.{leaf_of, laid, Leaves};
ghost use Rattle.octets.specs.Over.{overlaid};
ghost use Rattle.leaf_bytes.specs.Raw.{cutting};

use answer::{Answer, Refusal};
use leaf_bytes::{replace, room};

// A piece laid behind the first `at` bytes; answers how many there are then.
fn put(region: &mut [u8], at: usize, piece: &[u8]) -> Answer<usize>
    requires { (at + length piece.now ≤ length region.old) × (at + length piece.now ≤ 512) }
    ensures { (outcome result ≡ value (at + length piece.now)) × (region.new ≡ overlaid at piece.now region.old) }
{
    replace(region, at, at, at, piece)
}

// Three pieces laid into a region, one behind the other; answers how long they are.
fn lay(region: &mut [u8], x: &[u8], y: &[u8], z: &[u8]) -> Answer<usize>
    requires { (length x.now + length y.now + length z.now ≤ length region.old) × (length x.now + length y.now + length z.now ≤ 512) }
    ensures { (outcome result ≡ value (length x.now + length y.now + length z.now)) × (region.new ≡ laid region.old (x.now ++ (y.now ++ z.now))) }
{
    let i = put(&mut *region, 0, x)?;
    let j = put(&mut *region, i, y)?;
    put(region, j, z)
}

// The two sides of a leaf with a piece put in, split before the piece.
fn lay_before(
    region: &[u8],
    len: usize,
    a: usize,
    string: &[u8],
    split: usize,
    right: &mut [u8],
) -> Answer<(usize, usize)>
    requires { (a ≤ len) × (len ≤ length region.now) × (split ≤ a) × (len + length string.now - split ≤ length right.old) × (len + length string.now - split ≤ 512) }
    ensures { (outcome result ≡ value (split, len + length string.now - split)) × (right.new ≡ laid right.old (drop split (put_in a string.now (leaf_of region.now len)))) }
{
    let rest = lay(right, &region[split..a], string, &region[a..len])?;
    Ok((split, rest))
}

// Split inside the piece.
fn lay_within(
    region: &mut [u8],
    len: usize,
    a: usize,
    string: &[u8],
    split: usize,
    right: &mut [u8],
) -> Answer<(usize, usize)>
    requires { (a ≤ len) × (len ≤ length region.old) × (a ≤ split) × (split ≤ a + length string.now) × (split ≤ length region.old) × (len + length string.now - split ≤ length right.old) × (split ≤ 512) × (len + length string.now - split ≤ 512) }
    ensures { (outcome result ≡ value (split, len + length string.now - split)) × (region.new ≡ laid region.old (take split (put_in a string.now (leaf_of region.old len)))) × (right.new ≡ laid right.old (drop split (put_in a string.now (leaf_of region.old len)))) }
{
    let k = split - a;
    let rest = lay(right, &string[k..], &region[a..len], b"")?;
    let kept = put(region, a, &string[..k])?;
    Ok((kept, rest))
}

// Split behind the piece.
fn lay_behind(
    region: &mut [u8],
    len: usize,
    a: usize,
    string: &[u8],
    split: usize,
    right: &mut [u8],
) -> Answer<(usize, usize)>
    requires { (a ≤ len) × (len ≤ length region.old) × (a + length string.now ≤ split) × (split ≤ len + length string.now) × (split ≤ length region.old) × (len + length string.now - split ≤ length right.old) × (split ≤ 512) × (len + length string.now - split ≤ 512) }
    ensures { (outcome result ≡ value (split, len + length string.now - split)) × (region.new ≡ laid region.old (take split (put_in a string.now (leaf_of region.old len)))) × (right.new ≡ laid right.old (drop split (put_in a string.now (leaf_of region.old len)))) }
{
    let k = split - string.len();
    let rest = lay(right, &region[k..len], b"", b"")?;
    let kept = replace(region, k, a, a, string)?;
    Ok((kept, rest))
}

// Split anywhere; answers how long the sides are.
fn lay_split(
    region: &mut [u8],
    len: usize,
    a: usize,
    string: &[u8],
    split: usize,
    right: &mut [u8],
) -> Answer<(usize, usize)>
    requires { (a ≤ len) × (len ≤ length region.old) × (split ≤ len + length string.now) × (split ≤ length region.old) × (len + length string.now - split ≤ length right.old) × (split ≤ 512) × (len + length string.now - split ≤ 512) }
    ensures { (outcome result ≡ value (split, len + length string.now - split)) × (region.new ≡ laid region.old (take split (put_in a string.now (leaf_of region.old len)))) × (right.new ≡ laid right.old (drop split (put_in a string.now (leaf_of region.old len)))) }
{
    if split <= a {
        return lay_before(region, len, a, string, split, right);
    }
    if split - a <= string.len() {
        return lay_within(region, len, a, string, split, right);
    }
    lay_behind(region, len, a, string, split, right)
}

// The same, where both sides fit.
pub(crate) fn lay_halves(
    region: &mut [u8],
    len: usize,
    a: usize,
    string: &[u8],
    split: usize,
    right: &mut [u8],
) -> Answer<(usize, usize)>
    requires { (a ≤ len) × (len ≤ length region.old) × (split ≤ len + length string.now) × (len + length string.now < 65536) }
    ensures { Leaves (cutting [] false region.old right.old (put_in a string.now (leaf_of region.old len)) split) region.old right.old result region.new right.new }
{
    if room(region) < split {
        return Err(Refusal::Size);
    }
    let rest = len + string.len() - split;
    if room(right) < rest {
        return Err(Refusal::Size);
    }
    lay_split(region, len, a, string, split, right)
}
