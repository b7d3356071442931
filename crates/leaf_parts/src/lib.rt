// Parts of the leaf that a search ends at: from a char or a byte of the note's text to the leaf's end, not copied; and the byte of a char index.
// Total on any memory: where the search finds no leaf the part is empty.
#![tactic(auto)]

ghost use Rattle.std.specs.Prelude.{◌≡◌, ◌-◌, ◌≤◌, ◌<◌, length, drop};
ghost use Rattle.answer.specs.Answers.{outcome};
ghost use Rattle.note_head.specs.Part.{PartOf};
ghost use Rattle.tree_search.specs.Search.{Bounded};
ghost use Rattle.leaf_parts.specs.Parts.{leaf_text, byte_in, spot_of, from_char, from_byte, byte_of};

use answer::Answer;
use child_search::Measure;
use note_head::{height, root};
use pool::{Head, head_of, region_start};
use text_info::TextSum;
use tree_search::leaf_at;

fn wide(x: u32) -> usize
    ensures { (result ≡ x) × (result < 4294967296) }
{
    x as usize
}

// The text of the leaf in a slot; empty where there is none.
pub fn text_at(m: &[u8], slot: usize) -> &[u8]
    ensures { (result.now ≡ leaf_text m.now slot) × (length result.now ≤ 512) × PartOf result m.entry }
{
    let Ok(head) = head_of(m, slot) else {
        return &m[..0];
    };
    let Head::Leaf(n) = head else {
        return &m[..0];
    };
    let Ok(at) = region_start(m, slot) else {
        return &m[..0];
    };
    &m[at..at + n]
}

// How much a is above b.
pub fn above(a: usize, b: usize) -> usize
    ensures { result ≡ a - b }
{
    if a < b {
        return 0;
    }
    a - b
}

// A text from a byte on; past its end, nothing.
pub fn behind(text: &[u8], at: usize) -> &[u8]
    ensures { (result.now ≡ drop at text.now) × PartOf result text.entry }
{
    if text.len() < at {
        return &text[..0];
    }
    &text[at..]
}

// Where in a text a char begins; past its end, the end.
pub fn byte_in(text: &[u8], i: usize) -> usize
    ensures { (result ≡ byte_in text.now i) × (result ≤ length text.now) }
{
    str_indices::chars::to_byte_idx(text, i)
}

// The leaf that an index of the note's text lies in.
pub fn spot_of(m: &[u8], by: Measure, at: usize) -> Answer<(usize, TextSum)>
    ensures { (outcome result ≡ spot_of m.now by at) × Bounded 255 result }
{
    let kid = root(m);
    leaf_at(m, height(m), wide(kid.slot), by, at)
}

// From a char of the note's text to the end of its leaf.
pub fn from_char(m: &[u8], at: usize) -> &[u8]
    ensures { (result.now ≡ from_char m.now at) × PartOf result m.entry }
{
    let Ok((leaf, left)) = spot_of(m, Measure::Chars, at) else {
        return &m[..0];
    };
    let text = text_at(m, leaf);
    let i = above(at, left.chars as usize);
    behind(text, byte_in(text, i))
}

// The same from a byte of it.
pub fn from_byte(m: &[u8], at: usize) -> &[u8]
    ensures { result.now ≡ from_byte m.now at }
{
    let Ok((leaf, left)) = spot_of(m, Measure::Bytes, at) else {
        return &m[..0];
    };
    behind(text_at(m, leaf), above(at, left.bytes as usize))
}

// The byte at which a char of the note's text begins.
pub fn byte_of(m: &[u8], at: usize) -> Answer<usize>
    ensures { outcome result ≡ byte_of m.now at }
{
    let (leaf, left) = spot_of(m, Measure::Chars, at)?;
    let text = text_at(m, leaf);
    let b = left.bytes as usize + byte_in(text, above(at, left.chars as usize));
    Ok(b)
}
