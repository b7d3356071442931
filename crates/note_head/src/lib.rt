// The head of the lent memory, read and written. Each reader is total on any bytes: a byte past the end counts as 0. Each writer is total too: memory
// shorter than its head is refused by 2, and then no byte changes.
#![tactic(auto)]

ghost use Rattle.std.specs.Prelude.{◌≡◌, ◌<◌, ◌+◌, ◌≤◌, length};
ghost use Rattle.plain_note.specs.Note.{head_size};
ghost use Rattle.note_head.specs.Head.{n_of, edit_of, root_of, height_of, free_of, live_at, place_at, own_of};
ghost use Rattle.note_head.specs.Part.{PartOf};
ghost use Rattle.octets.specs.Over.{overlaid};
ghost use Rattle.octets.specs.Big.{bytes_of4};
ghost use Rattle.pool.specs.Slot.{kid_bytes, Fits};
ghost use Rattle.pool.specs.Calls.{Wrote};
ghost use Rattle.note_head.specs.Writes.{number_set, root_set, height_set, live_set, place_set};
ghost use Rattle.plain_note.specs.Note as note;

use answer::{Answer, Refusal};
use octets::{byte_at, number_at};
use pool::{HEAD_BYTES, Kid, SLOT_BYTES};
use text_info::TextInfo;

// Where the numbers of the head lie.
pub const SLOTS_AT: usize = 0;

pub const EDIT_AT: usize = 4;

pub const ROOT_AT: usize = 8;

pub const HEIGHT_AT: usize = 28;

pub const FREE_AT: usize = 32;

// The marks, 16 bytes each: whether it is live, and from the fifth byte on its place.
pub const MARKS: usize = 256;

pub const MARKS_AT: usize = 2048;

pub const PLACES_AT: usize = 2052;

pub const MARK_BYTES: usize = 16;

// ── read ──

fn wide(x: u32) -> usize
    ensures { (result ≡ x) × (result < 4294967296) }
{
    x as usize
}

// How many slots the note was opened with.
pub fn slots(m: &[u8]) -> usize
    ensures { (result ≡ n_of m.now) × (result < 4294967296) }
{
    number_at(m, SLOTS_AT) as usize
}

// The bytes of memory that so many slots need.
pub fn need(m: &[u8]) -> usize
    ensures { result ≡ note.need (n_of m.now) }
{
    SLOT_BYTES * slots(m) + HEAD_BYTES
}

// The part of the memory that the note has.
pub fn own_part(m: &[u8]) -> &[u8]
    ensures { (result.now ≡ own_of m.now) × PartOf result m.entry }
{
    let end = need(m);
    if m.len() < end {
        return m;
    }
    &m[..end]
}

pub fn edit_number(m: &[u8]) -> u32
    ensures { result ≡ edit_of m.now }
{
    number_at(m, EDIT_AT)
}

// The root as a child: its slot, and the counts of the note.
pub fn root(m: &[u8]) -> Kid
    ensures { result ≡ root_of m.now }
{
    let slot = number_at(m, ROOT_AT);
    let info = TextInfo {
        bytes: number_at(m, ROOT_AT + 4),
        chars: number_at(m, ROOT_AT + 8),
        utf16_surrogates: number_at(m, ROOT_AT + 12),
        line_breaks: number_at(m, ROOT_AT + 16),
    };
    Kid { slot, info }
}

// How many bytes and chars the note has, as its head says.
pub fn bytes_of(m: &[u8]) -> usize
    ensures { (result ≡ (root_of m.now).info.bytes) × (result < 4294967296) }
{
    let kid = root(m);
    let info = kid.info;
    wide(info.bytes)
}

pub fn chars_of(m: &[u8]) -> usize
    ensures { (result ≡ (root_of m.now).info.chars) × (result < 4294967296) }
{
    let kid = root(m);
    let info = kid.info;
    wide(info.chars)
}

pub fn height(m: &[u8]) -> u8
    ensures { result ≡ height_of m.now }
{
    byte_at(m, HEIGHT_AT)
}

pub fn first_free(m: &[u8]) -> usize
    ensures { (result ≡ free_of m.now) × (result < 4294967296) }
{
    number_at(m, FREE_AT) as usize
}

// Whether mark k is live: 1, or 0.
pub fn mark_live(m: &[u8], k: usize) -> u8
    ensures { result ≡ live_at m.now k }
{
    if m.len() < MARKS_AT {
        return 0;
    }
    if (m.len() - MARKS_AT) / MARK_BYTES < k {
        return 0;
    }
    byte_at(m, MARKS_AT + MARK_BYTES * k)
}

pub fn mark_place(m: &[u8], k: usize) -> usize
    ensures { (result ≡ place_at m.now k) × (result < 4294967296) }
{
    if m.len() < PLACES_AT {
        return 0;
    }
    if (m.len() - PLACES_AT) / MARK_BYTES < k {
        return 0;
    }
    number_at(m, PLACES_AT + MARK_BYTES * k) as usize
}

// ── written ──

// A number of four bytes, the most significant first.
fn put_number(m: &mut [u8], at: usize, v: u32)
    requires { at + 4 ≤ length m.old }
    ensures { m.new ≡ overlaid at (bytes_of4 v) m.old }
{
    m[at] = (v / 65536 / 256 % 256) as u8;
    m[at + 1] = (v / 65536 % 256) as u8;
    m[at + 2] = (v % 65536 / 256 % 256) as u8;
    m[at + 3] = (v % 65536 % 256) as u8;
}

fn set_number(m: &mut [u8], at: usize, v: u32) -> Answer<()>
    requires { at + 4 ≤ head_size }
    ensures { Wrote (number_set m.old at v) m.old result m.new }
{
    if m.len() < HEAD_BYTES {
        return Err(Refusal::Memory);
    }
    put_number(m, at, v);
    Ok(())
}

// How many slots the note has.
pub fn set_slots(m: &mut [u8], n: u32) -> Answer<()>
    ensures { Wrote (number_set m.old 0 n) m.old result m.new }
{
    set_number(m, SLOTS_AT, n)
}

pub fn set_edit_number(m: &mut [u8], v: u32) -> Answer<()>
    ensures { Wrote (number_set m.old 4 v) m.old result m.new }
{
    set_number(m, EDIT_AT, v)
}

pub fn set_first_free(m: &mut [u8], slot: u32) -> Answer<()>
    ensures { Wrote (number_set m.old 32 slot) m.old result m.new }
{
    set_number(m, FREE_AT, slot)
}

// A child in the 20 bytes from `at` on.
fn put_kid(m: &mut [u8], at: usize, k: Kid)
    requires { at + 20 ≤ length m.old }
    ensures { m.new ≡ overlaid at (kid_bytes k) m.old }
{
    let info = k.info;
    put_number(m, at, k.slot);
    put_number(m, at + 4, info.bytes);
    put_number(m, at + 8, info.chars);
    put_number(m, at + 12, info.utf16_surrogates);
    put_number(m, at + 16, info.line_breaks);
}

// The root as a child: its slot, and the counts of the note. The promise adds that its numbers have 32 bits, for the law that it is read back.
pub fn set_root(m: &mut [u8], k: Kid) -> Answer<()>
    ensures { Wrote (root_set m.old k) m.old result m.new × Fits k }
{
    if m.len() < HEAD_BYTES {
        return Err(Refusal::Memory);
    }
    put_kid(m, ROOT_AT, k);
    Ok(())
}

pub fn set_height(m: &mut [u8], h: u8) -> Answer<()>
    ensures { Wrote (height_set m.old h) m.old result m.new }
{
    if m.len() < HEAD_BYTES {
        return Err(Refusal::Memory);
    }
    m[HEIGHT_AT] = h;
    Ok(())
}

// Mark k live, by 1, or free, by 0.
pub fn set_mark_live(m: &mut [u8], k: usize, live: u8) -> Answer<()>
    ensures { Wrote (live_set m.old k live) m.old result m.new }
{
    if m.len() < HEAD_BYTES {
        return Err(Refusal::Memory);
    }
    if MARKS <= k {
        return Err(Refusal::Mark);
    }
    m[MARKS_AT + MARK_BYTES * k] = live;
    Ok(())
}

pub fn set_mark_place(m: &mut [u8], k: usize, place: u32) -> Answer<()>
    ensures { Wrote (place_set m.old k place) m.old result m.new }
{
    if m.len() < HEAD_BYTES {
        return Err(Refusal::Memory);
    }
    if MARKS <= k {
        return Err(Refusal::Mark);
    }
    put_number(m, PLACES_AT + MARK_BYTES * k, place);
    Ok(())
}
