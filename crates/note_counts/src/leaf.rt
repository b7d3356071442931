// An index of one count turned into another, in the text of one leaf.
ghost use Rattle.std.specs.Prelude.{◌≡◌, true, ◌+◌, ◌≤◌, length};
ghost use Rattle.plain.specs.Utf8.{valid_utf8, decode};
ghost use Rattle.plain.specs.Count.{count_if};
ghost use Rattle.plain.specs.Place.{is_start, is_wide, count_at};
ghost use Rattle.plain_note.specs.Note.{place_by};
ghost use Rattle.note_counts.specs.Counts.{measure, byte_of, count_to};

use crate::Count;
use str_indices::{chars, utf16};

// The byte of the place that an index means: past the end, the end.
fn byte_of(text: &[u8], by: Count, idx: usize) -> usize
    ensures { (result ≡ byte_of by text.now idx) × (result ≤ length text.now) }
{
    match by {
        Count::Bytes => chars::floor(text, idx),
        Count::Chars => chars::to_byte_idx(text, idx),
        Count::Units => utf16::to_byte_idx(text, idx),
        Count::Lines => lines_crlf::to_byte_idx(text, idx),
    }
}

// How many UTF-16 units there are.
fn units(text: &[u8]) -> usize
    requires { length text.now ≤ 512 }
    ensures { result ≡ count_if is_start text.now + count_if is_wide text.now }
{
    chars::count(text) + utf16::count_surrogates(text)
}

// The count at a byte.
fn count_to(text: &[u8], by: Count, at: usize) -> usize
    requires { (at ≤ length text.now) × (length text.now ≤ 512) }
    ensures { (result ≡ count_to by text.now at) × (result ≤ 1024) }
{
    match by {
        Count::Bytes => at,
        Count::Chars => chars::count(&text[..at]),
        Count::Units => units(&text[..at]),
        Count::Lines => lines_crlf::from_byte_idx(text, at),
    }
}

// An index turned into another count; past the end it means the end.
pub(crate) fn turn(text: &[u8], from: Count, to: Count, idx: usize) -> usize
    requires { (valid_utf8 text.now ≡ true) × (length text.now ≤ 512) }
    ensures { (result ≡ count_at (measure to) (decode text.now) (place_by (measure from) (decode text.now) idx)) × (result ≤ 1024) }
{
    let at = byte_of(text, from, idx);
    count_to(text, to, at)
}
