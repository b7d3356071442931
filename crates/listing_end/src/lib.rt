// The end of a listing, read from the lent memory: the totals, and a line for each live mark by number. The memory is checked once, by the call that turns
// the marks' places into lines.
#![tactic(auto)]

ghost use Rattle.std.specs.Prelude.{◌≡◌, true, ◌+◌, ◌≤◌, ◌<◌, length};
ghost use Rattle.plain_calls.specs.Marks.{mark_of};
ghost use Rattle.note_counts.specs.Counts.{most_in};
ghost use Rattle.note_counts.specs.declared.Count.TheVariants.{Bytes, Chars, Units, Lines};
ghost use Rattle.memory.specs.Formed.{well_formed, note_of};
ghost use Rattle.plain_journal.specs.Listing.{totals_line, mark_row, mark_rows, ending};
ghost use Rattle.listing_lines.specs.Puts.{Laid};
ghost use Rattle.listing_end.specs.Ends.{Ends};
ghost use Rattle.listing_end.specs.MarkLines.{place_row, places, mark_lines, Lined, Due};

use answer::Answer;
use listing_lines::{has_room, put_mark, put_totals};
use marks::standing_at;
use note_counts::{Count, convert_all};
use text_info::TextInfo;

const MARKS: usize = 256;

// The totals take 110 bytes at most, and a mark 80.
const ENDING: usize = 20590;

// How far the output is filled, and how many rows of marks were put.
#[derive(Clone, Copy)]
struct Rows {
    end: usize,
    count: usize,
}

// ── the lines of the marks ──

// The place of mark k put behind the first n numbers, where it is live.
fn put_place(m: &[u8], k: usize, out: &mut [usize], n: usize) -> usize
    requires { n < length out.old }
    ensures { (result ≤ n + 1) × Laid n (place_row (mark_of (note_of m.now) k)) out.old result out.new }
{
    let Ok(p) = standing_at(m, k) else {
        return n;
    };
    out[n] = p;
    n + 1
}

// The places of all live marks, and how many they are.
fn put_places(m: &[u8], out: &mut [usize]) -> usize
    requires { 256 ≤ length out.old }
    ensures { (result ≤ 256) × Laid 0 (places (note_of m.now).marks) out.old result out.new }
{
    let mut n = 0;
    for mark in 0..MARKS {
        n = put_place(m, mark, out, n);
    }
    n
}

// Their lines, and how many they are: refused by 2 where the memory is not well formed.
fn put_lines(m: &[u8], out: &mut [usize]) -> Answer<usize>
    requires { 256 ≤ length out.old }
    ensures { Lined m.now result out.new }
{
    let n = put_places(m, out);
    convert_all(m, Count::Chars, Count::Lines, &mut out[..n])?;
    Ok(n)
}

// ── the output ──

// The totals of a note with these counts.
fn put_counts(info: TextInfo, out: &mut [u8], at: usize) -> usize
    requires { at + 110 ≤ length out.old }
    ensures { (result ≤ at + 110) × Laid at (totals_line (most_in Bytes info) (most_in Chars info) (most_in Units info) (most_in Lines info)) out.old result out.new }
{
    let bytes = u64::from(info.bytes);
    let chars = u64::from(info.chars);
    let units = chars + u64::from(info.utf16_surrogates);
    let lines = u64::from(info.line_breaks) + 1;
    put_totals(out, at, bytes, chars, units, lines)
}

// The row of mark k, where it is live, with the next of the lines.
fn put_row(m: &[u8], lines: &[usize], k: usize, out: &mut [u8], put: Rows) -> Rows
    requires { (k < 256) × Due (note_of m.now) k put.count lines.now × (put.end + 80 ≤ length out.old) }
    ensures { (result.end ≤ put.end + 80) × Due (note_of m.now) (k + 1) result.count lines.now × Laid put.end (mark_row (note_of m.now).text k (mark_of (note_of m.now) k)) out.old result.end out.new }
{
    let Ok(p) = standing_at(m, k) else {
        return put;
    };
    let j = put.count;
    let end = put_mark(out, put.end, k as u64, p as u64, lines[j] as u64);
    Rows { end, count: j + 1 }
}

fn put_rows(m: &[u8], lines: &[usize], out: &mut [u8], at: usize) -> usize
    requires { (lines.now ≡ mark_lines (note_of m.now)) × (at + 20480 ≤ length out.old) }
    ensures { (result ≤ at + 20480) × Laid at (mark_rows (note_of m.now).text 0 (note_of m.now).marks) out.old result out.new }
{
    let mut put = Rows { end: at, count: 0 };
    for k in 0..MARKS {
        put = put_row(m, lines, k, out, put);
    }
    put.end
}

// The totals, and the marks.
fn whole_ending(m: &[u8], lines: &[usize], out: &mut [u8], at: usize) -> usize
    requires { (well_formed m.now ≡ true) × (lines.now ≡ mark_lines (note_of m.now)) × (at + 20590 ≤ length out.old) }
    ensures { (result ≤ at + 20590) × Laid at (ending (note_of m.now)) out.old result out.new }
{
    let root = note_head::root(m);
    let info = root.info;
    let a = put_counts(info, out, at);
    put_rows(m, lines, out, a)
}

// The end of the listing of the note that the memory holds, put behind the first `at` bytes: nothing where the memory is not well formed, or the output has no
// room for the longest end.
pub fn put_ending(m: &[u8], out: &mut [u8], at: usize) -> usize
    ensures { Ends m.now at out.old result out.new }
{
    if !has_room(out, at, ENDING) {
        return at;
    }
    let mut lines = [0usize; 256];
    let Ok(n) = put_lines(m, &mut lines) else {
        return at;
    };
    whole_ending(m, &lines[..n], out, at)
}
