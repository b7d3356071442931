// The lines of a listing, put behind what an output already holds. Where it has no room for the longest line of its kind, nothing is put.
#![tactic(auto)]

ghost use Rattle.std.specs.Prelude.{◌≡◌, cond, ◌++◌, ◌+◌, ◌≤◌, eqb, leb, length};
ghost use Rattle.listing_lines.specs.Puts.{Laid, Puts};
ghost use Rattle.plain_journal.specs.Listing.{decimal, ok_text, refused_text, field_line, totals_line, mark_line};

// Puts piece behind the first `at` bytes of out.
fn put(out: &mut [u8], at: usize, piece: &[u8]) -> usize
    requires { at + length piece.now ≤ length out.old }
    ensures { Laid at piece.now out.old result out.new }
{
    let end = at + piece.len();
    out[at..end].copy_from_slice(piece);
    end
}

// Puts the decimal digits of n there.
fn put_decimal(out: &mut [u8], at: usize, n: u64) -> usize
    requires { at + 20 ≤ length out.old }
    ensures { (result ≤ at + 20) × Laid at (decimal n) out.old result out.new }
{
    let mut digits = [0u8; 20];
    let k = io::decimal(n, &mut digits);
    put(out, at, &digits[..k])
}

// Puts a word there, and a number behind it.
fn put_counted(out: &mut [u8], at: usize, word: &[u8], n: u64) -> usize
    requires { at + length word.now + 20 ≤ length out.old }
    ensures { (result ≤ at + length word.now + 20) × Laid at (word.now ++ decimal n) out.old result out.new }
{
    let a = put(out, at, word);
    put_decimal(out, a, n)
}

// Puts there how a field went: " ok" where its number is 0, else " refused NUMBER".
fn put_code(out: &mut [u8], at: usize, code: u8) -> usize
    requires { at + 29 ≤ length out.old }
    ensures { (result ≤ at + 29) × Laid at (cond (eqb code 0) ok_text (refused_text ++ decimal code)) out.old result out.new }
{
    if code == 0 {
        return put(out, at, b" ok");
    }
    put_counted(out, at, b" refused ", code as u64)
}

// The line of field k: "K ok" or "K refused NUMBER".
fn field_line(out: &mut [u8], at: usize, k: u64, code: u8) -> usize
    requires { at + 50 ≤ length out.old }
    ensures { (result ≤ at + 50) × Laid at (field_line k code) out.old result out.new }
{
    let a = put_decimal(out, at, k);
    let b = put_code(out, a, code);
    put(out, b, b"\n")
}

// The totals: "bytes B chars C utf16 U lines L".
fn totals_line(out: &mut [u8], at: usize, bytes: u64, chars: u64, utf16: u64, lines: u64) -> usize
    requires { at + 110 ≤ length out.old }
    ensures { (result ≤ at + 110) × Laid at (totals_line bytes chars utf16 lines) out.old result out.new }
{
    let a = put_counted(out, at, b"bytes ", bytes);
    let b = put_counted(out, a, b" chars ", chars);
    let c = put_counted(out, b, b" utf16 ", utf16);
    let d = put_counted(out, c, b" lines ", lines);
    put(out, d, b"\n")
}

// The line of mark k: "mark K place P line L".
fn mark_line(out: &mut [u8], at: usize, k: u64, place: u64, line: u64) -> usize
    requires { at + 80 ≤ length out.old }
    ensures { (result ≤ at + 80) × Laid at (mark_line k place line) out.old result out.new }
{
    let a = put_counted(out, at, b"mark ", k);
    let b = put_counted(out, a, b" place ", place);
    let c = put_counted(out, b, b" line ", line);
    put(out, c, b"\n")
}

// ── each put behind the first `at` bytes, where it has room ──

// Whether n bytes are free behind the first `at`.
pub fn has_room(out: &[u8], at: usize, n: usize) -> bool
    ensures { result ≡ leb (at + n) (length out.now) }
{
    if out.len() < n {
        return false;
    }
    at <= out.len() - n
}

pub fn put_field(out: &mut [u8], at: usize, k: u64, code: u8) -> usize
    ensures { Puts 50 at (field_line k code) out.old result out.new }
{
    if !has_room(out, at, 50) {
        return at;
    }
    field_line(out, at, k, code)
}

pub fn put_totals(
    out: &mut [u8],
    at: usize,
    bytes: u64,
    chars: u64,
    utf16: u64,
    lines: u64,
) -> usize
    ensures { Puts 110 at (totals_line bytes chars utf16 lines) out.old result out.new }
{
    if !has_room(out, at, 110) {
        return at;
    }
    totals_line(out, at, bytes, chars, utf16, lines)
}

pub fn put_mark(out: &mut [u8], at: usize, k: u64, place: u64, line: u64) -> usize
    ensures { Puts 80 at (mark_line k place line) out.old result out.new }
{
    if !has_room(out, at, 80) {
        return at;
    }
    mark_line(out, at, k, place, line)
}
