// The note's four counts: its lengths by each, and an index of one turned into another. Refused by 2 where the memory is not well formed;
// nothing beyond the note's need is looked at.
#![tactic(auto)]

mod leaf;

ghost use Rattle.std.specs.Prelude.{◌≡◌, true, false, map, ◌+◌, ◌*◌, ◌≤◌, ◌<◌, length, get_or, set};
ghost use Rattle.plain.specs.Utf8.{valid_utf8, decode};
ghost use Rattle.plain.specs.Outcome.{Outcome.value};
ghost use Rattle.answer.specs.Answers.{outcome};
ghost use Rattle.plain_note.specs.Note.{most_by, converted};
ghost use Rattle.child_search.specs.Sought.{Within};
ghost use Rattle.pool.specs.Calls.{Wrote};
ghost use Rattle.nodes.specs.Node.{is_leaf, text_of};
ghost use Rattle.tree_search.specs.Search.{count_in};
ghost use Rattle.memory.specs.Formed.{tree_right, note_in, of_note};
ghost use Rattle.note_counts.specs.Counts.{measure, by_of, most_in, turned_in, any_past, converted_all};

use answer::{Answer, Refusal};
use child_search::Measure;
use pool::{Head, head_of, region_start};
use text_info::{TextInfo, TextSum};
use tree_search::leaf_at;

// What an index counts.
#[derive(Clone, Copy)]
pub enum Count {
    Bytes,
    Chars,
    Units,
    Lines,
}

// ── counts that are stored ──

// A stored count as wide as an index.
fn wide(x: u32) -> usize
    ensures { (result ≡ x) × (result < 4294967296) }
{
    x as usize
}

// How a search for an index goes.
fn by_of(by: Count) -> Measure
    ensures { result ≡ by_of by }
{
    match by {
        Count::Bytes => Measure::Bytes,
        Count::Chars => Measure::Chars,
        Count::Units => Measure::Utf16,
        Count::Lines => Measure::Breaks,
    }
}

// The highest index of a text with these counts: for lines their number.
fn most_in(by: Count, info: TextInfo) -> usize
    ensures { result ≡ most_in by info }
{
    match by {
        Count::Bytes => wide(info.bytes),
        Count::Chars => wide(info.chars),
        Count::Units => wide(info.chars) + wide(info.utf16_surrogates),
        Count::Lines => wide(info.line_breaks) + 1,
    }
}

// The count of the text on the left.
fn count_in(by: Count, left: TextSum) -> usize
    requires { Within left 4080 }
    ensures { (result ≡ count_in (by_of by) left) × (result ≤ 8160 * 4294967295) }
{
    match by {
        Count::Bytes => left.bytes as usize,
        Count::Chars => left.chars as usize,
        Count::Units => (left.chars + left.utf16_surrogates) as usize,
        Count::Lines => left.line_breaks as usize,
    }
}

// ── the note's own memory ──

// The highest index.
fn most(m: &[u8], by: Count) -> usize
    requires { tree_right m.now ≡ true }
    ensures { result ≡ most_by (measure by) (note_in m.now).text }
{
    let root = note_head::root(m);
    let info = root.info;
    most_in(by, info)
}

// An index turned into another count, in the leaf of a slot.
fn in_leaf(m: &[u8], slot: usize, from: Count, to: Count, idx: usize) -> Answer<usize>
    requires { (is_leaf m.now slot ≡ true) × (valid_utf8 (text_of m.now slot) ≡ true) }
    ensures { (outcome result ≡ value (turned_in from to (decode (text_of m.now slot)) idx)) × (turned_in from to (decode (text_of m.now slot)) idx ≤ 1024) }
{
    let Head::Leaf(n) = head_of(m, slot)? else {
        return Err(Refusal::Memory);
    };
    let at = region_start(m, slot)?;
    Ok(leaf::turn(&m[at..at + n], from, to, idx))
}

// An index that is not past its end, turned into another count.
fn turned(m: &[u8], from: Count, to: Count, idx: usize) -> Answer<usize>
    requires { (tree_right m.now ≡ true) × (idx ≤ most_by (measure from) (note_in m.now).text) }
    ensures { outcome result ≡ value (turned_in from to (note_in m.now).text idx) }
{
    let root = note_head::root(m);
    let (slot, left) = leaf_at(m, note_head::height(m), wide(root.slot), by_of(from), idx)?;
    let n = in_leaf(m, slot, from, to, idx - count_in(from, left))?;
    Ok(count_in(to, left) + n)
}

// The same of any index: refused by 3 where it is past its end.
fn converted_in(m: &[u8], from: Count, to: Count, idx: usize) -> Answer<usize>
    requires { tree_right m.now ≡ true }
    ensures { outcome result ≡ converted (measure from) (measure to) (note_in m.now) idx }
{
    if most(m, from) < idx {
        return Err(Refusal::Place);
    }
    turned(m, from, to, idx)
}

// ── several indices ──

// Whether one of them is past the highest one.
fn any_past(indices: &[usize], highest: usize) -> bool
    ensures { result ≡ any_past highest indices.now }
{
    indices.iter().any(|i| highest < *i)
}

// The one at k turned.
fn turn_at(m: &[u8], from: Count, to: Count, indices: &mut [usize], k: usize) -> Answer<()>
    requires { (tree_right m.now ≡ true) × (k < length indices.old) × (get_or indices.old k 0 ≤ most_by (measure from) (note_in m.now).text) }
    ensures { (outcome result ≡ value tt) × (indices.new ≡ set indices.old k (turned_in from to (note_in m.now).text (get_or indices.old k 0))) }
{
    let n = turned(m, from, to, indices[k])?;
    indices[k] = n;
    Ok(())
}

// All of them turned, none of which is past its end.
fn turn_all(m: &[u8], from: Count, to: Count, indices: &mut [usize]) -> Answer<()>
    requires { (tree_right m.now ≡ true) × (any_past (most_by (measure from) (note_in m.now).text) indices.old ≡ false) }
    ensures { (outcome result ≡ value tt) × (indices.new ≡ map (turned_in from to (note_in m.now).text) indices.old) }
{
    for k in 0..indices.len() {
        turn_at(m, from, to, indices, k)?;
    }
    Ok(())
}

// The same of any indices: refused by 3 where one is past its end, and none is turned.
fn converted_all_in(m: &[u8], from: Count, to: Count, indices: &mut [usize]) -> Answer<()>
    requires { tree_right m.now ≡ true }
    ensures { Wrote (converted_all from to indices.old (note_in m.now)) indices.old result indices.new }
{
    if any_past(indices, most(m, from)) {
        return Err(Refusal::Place);
    }
    turn_all(m, from, to, indices)
}

// ── the lent memory ──

// An index of one count turned into another.
pub fn convert(m: &[u8], from: Count, to: Count, idx: usize) -> Answer<usize>
    ensures { outcome result ≡ of_note m.now (λ N. converted (measure from) (measure to) N idx) }
{
    if !memory::check(m) {
        return Err(Refusal::Memory);
    }
    converted_in(note_head::own_part(m), from, to, idx)
}

// Indices of one count turned into another, in their places, under one check of the memory. Where one is past its end, none is turned.
pub fn convert_all(m: &[u8], from: Count, to: Count, indices: &mut [usize]) -> Answer<()>
    ensures { Wrote (of_note m.now (converted_all from to indices.old)) indices.old result indices.new }
{
    if !memory::check(m) {
        return Err(Refusal::Memory);
    }
    converted_all_in(note_head::own_part(m), from, to, indices)
}

// A length of the note.
pub fn length_by(m: &[u8], by: Count) -> Answer<usize>
    ensures { outcome result ≡ of_note m.now (λ N. value (most_by (measure by) N.text)) }
{
    if !memory::check(m) {
        return Err(Refusal::Memory);
    }
    Ok(most(note_head::own_part(m), by))
}
