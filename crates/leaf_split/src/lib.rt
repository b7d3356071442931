// The calls of a leaf that lay text into a second one. A port of ropey's `node_text.rs`, as `node_text`.
#![tactic(auto)]

ghost use Rattle.std.specs.Prelude.{◌≡◌, [], ◌∷◌, length};
ghost use Rattle.plain.specs.Outcome.{ruled};
ghost use Rattle.answer.specs.Answers.{outcome};
ghost use Rattle.leaf_bytes.specs.Leaf.{leaf_of, Leaves};
ghost use Rattle.leaf_bytes.specs.Raw.{no_side};
ghost use Rattle.node_text.specs.Texts.{no_text, split_off, inserted_split, seam_fixed};

use answer::{Answer, Refusal};
use node_text::{checked, held};

// Inserts a text at a byte index and splits the whole near its half. The right side is laid into another region.
pub fn insert_str_split(
    region: &mut [u8],
    len: usize,
    byte_idx: usize,
    string: &[u8],
    right: &mut [u8],
) -> Answer<(usize, usize)>
    ensures { Leaves (inserted_split region.old len byte_idx string.now right.old) region.old right.old result region.new right.new }
{
    let n = held(region, len);
    checked(&region[..n], byte_idx, byte_idx, string)?;
    leaf_halves::halve(region, len, byte_idx, string, right)
}

// Appends a text and splits the whole near its half.
pub fn push_str_split(
    region: &mut [u8],
    len: usize,
    string: &[u8],
    right: &mut [u8],
) -> Answer<(usize, usize)>
    ensures { Leaves (inserted_split region.old len (length (leaf_of region.old len)) string.now right.old) region.old right.old result region.new right.new }
{
    let n = held(region, len);
    insert_str_split(region, len, n, string, right)
}

// Splits the leaf at a byte index. The left part stays where it lies, the right part is laid into another region.
pub fn split_off(
    region: &[u8],
    len: usize,
    byte_idx: usize,
    right: &mut [u8],
) -> Answer<(usize, usize)>
    ensures { Leaves (split_off region.now len byte_idx right.old) region.now right.old result region.now right.new }
{
    let n = held(region, len);
    checked(&region[..n], byte_idx, byte_idx, b"")?;
    leaf_bytes::part(region, len, byte_idx, right)
}

// Whether both sides of a seam have bytes, and are text: refused by 12, and by 5.
fn checked_seam(l: &[u8], r: &[u8]) -> Answer<usize>
    ensures { outcome result ≡ ruled (no_side l.now r.now ∷ no_text l.now r.now ∷ []) (length l.now) }
{
    if l.len() == 0 {
        return Err(Refusal::Side);
    }
    if r.len() == 0 {
        return Err(Refusal::Side);
    }
    if !utf8::valid(l) {
        return Err(Refusal::Text);
    }
    if !utf8::valid(r) {
        return Err(Refusal::Text);
    }
    Ok(l.len())
}

// Moves the seam between two leaves to a break, if it is none, so that no CR is parted from its LF.
pub fn fix_segment_seam(
    l: &mut [u8],
    l_len: usize,
    r: &mut [u8],
    r_len: usize,
) -> Answer<(usize, usize)>
    ensures { Leaves (seam_fixed l.old l_len r.old r_len) l.old r.old result l.new r.new }
{
    let a = held(l, l_len);
    let b = held(r, r_len);
    checked_seam(&l[..a], &r[..b])?;
    leaf_seams::mend(l, l_len, r, r_len)
}
