// One leaf of the tree: text in a region of bytes that the caller lends, of which the first `len` are the leaf. A port of ropey's
// `node_text.rs`, of which the calls are in `leaf_edits` and `leaf_split`; here is the one edit that they are. It answers how long the leaf
// is then; what lies behind it stays as it is. Where the Rust asserts, a call refuses, and then it changes no byte.
#![tactic(auto)]

ghost use Rattle.std.specs.Prelude.{◌≡◌, [], ◌∷◌, length};
ghost use Rattle.plain.specs.Outcome.{ruled};
ghost use Rattle.answer.specs.Answers.{outcome};
ghost use Rattle.leaf_bytes.specs.Leaf.{leaf_of, Leaf};
ghost use Rattle.node_text.specs.Texts.{off_chars, no_text, edited};

use answer::{Answer, Refusal};

// How many bytes the leaf has: no more than its region.
pub fn held(region: &[u8], len: usize) -> usize
    ensures { result ≡ length (leaf_of region.now len) }
{
    if len < region.len() {
        return len;
    }
    region.len()
}

// Whether [start, end) of a leaf lies between chars: refused by 3, and by 5 where the leaf or the piece is no text.
pub fn checked(leaf: &[u8], start: usize, end: usize, piece: &[u8]) -> Answer<usize>
    ensures { outcome result ≡ ruled (off_chars leaf.now start end ∷ no_text leaf.now piece.now ∷ []) (length leaf.now) }
{
    if end < start {
        return Err(Refusal::Place);
    }
    if !str_indices::chars::is_boundary(leaf, start) {
        return Err(Refusal::Place);
    }
    if !str_indices::chars::is_boundary(leaf, end) {
        return Err(Refusal::Place);
    }
    if !utf8::valid(leaf) {
        return Err(Refusal::Text);
    }
    if !utf8::valid(piece) {
        return Err(Refusal::Text);
    }
    Ok(leaf.len())
}

// The bytes [start, end) of a leaf give way to a piece.
pub fn edit(region: &mut [u8], len: usize, start: usize, end: usize, piece: &[u8]) -> Answer<usize>
    ensures { Leaf (edited region.old len start end piece.now) region.old result region.new }
{
    let n = held(region, len);
    checked(&region[..n], start, end, piece)?;
    leaf_bytes::replace(region, len, start, end, piece)
}
