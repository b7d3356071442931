// The text of a leaf, and what joins the texts of children: their counts, and how a text begins and ends.
ghost use Rattle.std.specs.Prelude.{◌≡◌, true, false, ◌≤◌};
ghost use Rattle.plain.specs.Utf8.{valid_utf8};
ghost use Rattle.plain.specs.Place.{is_start, is_wide};
ghost use Rattle.plain.specs.Count.{count_if, breaks, lf_first, cr_last};
ghost use Rattle.leaf_bytes.specs.Leaf.{leaf_of};
ghost use Rattle.pool.specs.Slot.{region_of};
ghost use Rattle.pool.specs.Calls.{outside};
ghost use Rattle.child_search.specs.Sought.{Within, Plus};
ghost use Rattle.tree.specs.Tree as tree;
ghost use Rattle.tree_check.specs.Met as met;

use crate::Met;
use answer::Answer;
use lines_crlf::survey::of_text;
use pool::region_start;
use str_indices::{chars, utf16};
use text_info::{TextInfo, TextSum};

fn begins_lf(text: &[u8]) -> bool
    ensures { result ≡ lf_first text.now }
{
    if text.len() == 0 {
        return false;
    }
    text[0] == b'\n'
}

fn ends_cr(text: &[u8]) -> bool
    ensures { result ≡ cr_last text.now }
{
    let n = text.len();
    if n == 0 {
        return false;
    }
    text[n - 1] == b'\r'
}

// What is told of a text that is one, from the counts of its bytes.
fn fine(text: &[u8], starts: usize, pairs: usize, lines: usize) -> Option<Met>
    requires { (valid_utf8 text.now ≡ true) × (starts ≡ count_if is_start text.now) × (pairs ≡ count_if is_wide text.now) × (lines ≡ breaks text.now) }
    ensures { met.TextMet text.now result }
{
    let sum = TextSum {
        bytes: text.len() as u64,
        chars: starts as u64,
        utf16_surrogates: pairs as u64,
        line_breaks: lines as u64,
    };
    Some(Met {
        sum,
        lf: begins_lf(text),
        cr: ends_cr(text),
    })
}

// A text by itself, its form and its counts in as few passes as its highest byte allows: ASCII is text, with as many chars as bytes; below F0 no
// char has four bytes.
fn check_text(text: &[u8]) -> Option<Met>
    ensures { met.TextMet text.now result }
{
    let s = of_text(text);
    if s.high < 0x80 {
        return fine(text, text.len(), 0, s.count);
    }
    if s.high < 0xF0 {
        if !utf8::valid_bmp(text) {
            return None;
        }
        return fine(text, chars::count(text), 0, s.count);
    }
    if !utf8::valid(text) {
        return None;
    }
    fine(
        text,
        chars::count(text),
        utf16::count_surrogates(text),
        s.count,
    )
}

// The text in the first n bytes of a slot's region.
pub(crate) fn check_leaf(m: &[u8], slot: usize, n: usize) -> Option<Met>
    requires { (outside m.now slot ≡ false) × (n ≤ 512) }
    ensures { met.TextMet (leaf_of (region_of m.now slot) n) result }
{
    let Ok(at) = region_start(m, slot) else {
        return None;
    };
    check_text(&m[at..at + n])
}

// Whether stored counts are the counted ones.
pub fn tells(info: TextInfo, got: TextSum) -> bool
    ensures { result ≡ tree.tells info got }
{
    TextSum::from(info) == got
}

// Whether a child may follow: told right, and its text does not begin with the LF of a CR before it.
pub(crate) fn follows(info: TextInfo, got: TextSum, cr: bool, lf: bool) -> bool
    ensures { result ≡ met.follows info got cr lf }
{
    if !tells(info, got) {
        return false;
    }
    if cr {
        return !lf;
    }
    true
}

// The counts of one child more.
pub(crate) fn plus(sum: TextSum, info: TextInfo) -> TextSum
    requires { Within sum 16 }
    ensures { Plus sum info result }
{
    sum + info
}

// Whether a text of i children and one more begins with LF.
pub(crate) fn begun(i: usize, lf: bool, first: bool) -> bool
    ensures { result ≡ met.begun i lf first }
{
    if i == 0 {
        return first;
    }
    lf
}
