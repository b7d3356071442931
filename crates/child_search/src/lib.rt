// The counts of a list's children added up, and the searches by these sums.
#![tactic(auto)]

ghost use Rattle.answer.specs.Answers.{outcome};
ghost use Rattle.std.specs.Prelude.{◌≡◌, false, ◌<◌, ◌≤◌, min, take, drop};
ghost use Rattle.plain.specs.Outcome.{mapped};
ghost use Rattle.pool.specs.Slot.{region_of, entries};
ghost use Rattle.pool.specs.Calls.{outside};
ghost use Rattle.node_children.specs.Kids.{kids, list_of};
ghost use Rattle.child_search.specs.Sought.{total, combined, Within, Plus, Sought, Small, stops_at, most_of, search_from, searched, searched_in, chars_of, searched_range};

use answer::{Answer, Refusal};
use node_children::{MAX_LEN, NodeChildren};
use pool::{info_of, region_start};
use text_info::{TextInfo, TextSum};

// What a search counts. `CharEnds` is for the end of a range: a child that ends there is its last.
#[derive(Clone, Copy)]
pub enum Measure {
    Bytes,
    Chars,
    Utf16,
    Breaks,
    CharEnds,
}

// Where a search ended.
#[derive(Clone, Copy)]
struct Spot {
    idx: usize,
    left: TextSum,
}

// The counts of one child more.
fn plus(s: TextSum, info: TextInfo) -> TextSum
    requires { Within s 16 }
    ensures { Plus s info result }
{
    s + info
}

// Whether a search for `at` stops at a child with this end.
fn stops(m: Measure, at: u64, end: TextSum) -> bool
    requires { Within end 16 }
    ensures { result ≡ stops_at m at end }
{
    match m {
        Measure::Bytes => at < end.bytes,
        Measure::Chars => at < end.chars,
        Measure::Utf16 => at < end.chars + end.utf16_surrogates,
        Measure::Breaks => at <= end.line_breaks,
        Measure::CharEnds => at <= end.chars,
    }
}

// The highest index.
fn most(m: Measure, all: TextSum) -> u64
    requires { Within all 16 }
    ensures { result ≡ most_of m all }
{
    match m {
        Measure::Bytes => all.bytes,
        Measure::Chars => all.chars,
        Measure::Utf16 => all.chars + all.utf16_surrogates,
        Measure::Breaks => all.line_breaks + 1,
        Measure::CharEnds => all.chars,
    }
}

// How many entries are children.
fn held(len: usize) -> usize
    ensures { result ≡ min len 16 }
{
    if MAX_LEN < len {
        return MAX_LEN;
    }
    len
}

// The counts of all children: of a list that is too long, of its 16 entries. The promise adds how large they can be.
pub fn sum_of(list: NodeChildren) -> TextSum
    ensures { (result ≡ total list) × Within result 16 }
{
    let n = held(list.len);
    let mut acc = TextSum::new();
    let mut i = 0;
    while i < n {
        let kid = list.arr[i];
        acc = plus(acc, kid.info);
        i += 1;
    }
    acc
}

// A search from a child on, with the counts on its left.
fn seek(list: NodeChildren, m: Measure, at: u64, from: usize, acc: TextSum) -> Spot
    requires { (from < list.len) × (list.len ≤ 16) × Within acc from }
    ensures { Sought list result.idx result.left (search_from (stops_at m at) from acc (drop from (kids list))) }
{
    let last = list.len - 1;
    let mut left = acc;
    let mut i = from;
    while i < last {
        let kid = list.arr[i];
        let next = plus(left, kid.info);
        if stops(m, at, next) {
            return Spot { idx: i, left: left };
        }
        left = next;
        i += 1;
    }
    Spot { idx: i, left: left }
}

// A search among the first n entries of a slot. It reads none behind the child at which it stops: what it stops at is not past the end.
fn seek_in(m: &[u8], slot: usize, n: usize, by: Measure, at: u64) -> Answer<(usize, TextSum)>
    requires { (outside m.now slot ≡ false) × (0 < n) × (n ≤ 16) }
    ensures { (outcome result ≡ searched (list_of (take n (entries (region_of m.now slot)))) by at) × Small result }
{
    let last = n - 1;
    let mut left = TextSum::new();
    let mut idx = 0;
    while idx < last {
        let info = info_of(m, slot, idx)?;
        let next = plus(left, info);
        if stops(by, at, next) {
            return Ok((idx, left));
        }
        left = next;
        idx += 1;
    }
    let end = info_of(m, slot, idx)?;
    if most(by, plus(left, end)) < at {
        return Err(Refusal::Place);
    }
    Ok((idx, left))
}

// The counts of the children added up.
pub fn combined_info(list: NodeChildren) -> Answer<TextSum>
    ensures { outcome result ≡ combined list }
{
    if MAX_LEN < list.len {
        return Err(Refusal::Size);
    }
    Ok(sum_of(list))
}

// The first child that a search stops at, else the last. The promise adds how large the answer can be, for a caller that adds sums.
pub fn search_by(list: NodeChildren, m: Measure, at: usize) -> Answer<(usize, TextSum)>
    ensures { (outcome result ≡ searched list m at) × Small result }
{
    let n = list.len;
    if n == 0 {
        return Err(Refusal::Side);
    }
    if most(m, sum_of(list)) < at as u64 {
        return Err(Refusal::Place);
    }
    if MAX_LEN < n {
        return Err(Refusal::Size);
    }
    let spot = seek(list, m, at as u64, 0, TextSum::new());
    let left = spot.left;
    Ok((spot.idx, left))
}

// The same among the first n entries of a slot, where they lie. Above 16 an index past the end of the sixteen entries is refused first.
pub fn search_in(
    m: &[u8],
    slot: usize,
    n: usize,
    by: Measure,
    at: usize,
) -> Answer<(usize, TextSum)>
    ensures { (outcome result ≡ searched_in m.now slot n by at) × Small result }
{
    if n == 0 {
        return Err(Refusal::Side);
    }
    region_start(m, slot)?;
    let found = seek_in(m, slot, held(n), by, at as u64)?;
    if MAX_LEN < n {
        return Err(Refusal::Size);
    }
    Ok(found)
}

// The child with a byte. The end is in the last child.
pub fn search_byte_idx(list: NodeChildren, byte_idx: usize) -> Answer<(usize, TextSum)>
    ensures { outcome result ≡ searched list Measure.Bytes byte_idx }
{
    search_by(list, Measure::Bytes, byte_idx)
}

// The child with a char.
pub fn search_char_idx(list: NodeChildren, char_idx: usize) -> Answer<(usize, TextSum)>
    ensures { outcome result ≡ searched list Measure.Chars char_idx }
{
    search_by(list, Measure::Chars, char_idx)
}

// The child with a UTF-16 unit.
pub fn search_utf16_code_unit_idx(list: NodeChildren, utf16_idx: usize) -> Answer<(usize, TextSum)>
    ensures { outcome result ≡ searched list Measure.Utf16 utf16_idx }
{
    search_by(list, Measure::Utf16, utf16_idx)
}

// As `search_char_idx`, with the chars alone.
pub fn search_char_idx_only(list: NodeChildren, char_idx: usize) -> Answer<(usize, usize)>
    ensures { outcome result ≡ mapped chars_of (searched list Measure.Chars char_idx) }
{
    let (i, left) = search_by(list, Measure::Chars, char_idx)?;
    Ok((i, left.chars as usize))
}

// The child with a line break; 0 is the start of the text, and no break.
pub fn search_line_break_idx(list: NodeChildren, line_break_idx: usize) -> Answer<(usize, TextSum)>
    ensures { outcome result ≡ searched list Measure.Breaks line_break_idx }
{
    search_by(list, Measure::Breaks, line_break_idx)
}

// The children at the two ends of a range of chars.
pub fn search_char_idx_range(
    list: NodeChildren,
    start_idx: usize,
    end_idx: usize,
) -> Answer<((usize, usize), (usize, usize))>
    ensures { outcome result ≡ searched_range list start_idx end_idx }
{
    let n = list.len;
    if n == 0 {
        return Err(Refusal::Side);
    }
    if end_idx < start_idx {
        return Err(Refusal::Place);
    }
    if most(Measure::Chars, sum_of(list)) < end_idx as u64 {
        return Err(Refusal::Place);
    }
    if MAX_LEN < n {
        return Err(Refusal::Size);
    }
    let l = seek(list, Measure::Chars, start_idx as u64, 0, TextSum::new());
    let l_acc = l.left;
    let r = seek(list, Measure::CharEnds, end_idx as u64, l.idx, l_acc);
    let r_acc = r.left;
    Ok(((l.idx, l_acc.chars as usize), (r.idx, r_acc.chars as usize)))
}
