// The marks in the head of the lent memory: the lowest free one, where a live one stands, one set, and all of them moved by an edit, which raises the
// edit number too. Each function is total on any bytes, and every byte afterwards is given.
#![tactic(auto)]

ghost use Rattle.std.specs.Prelude.{◌≡◌, ◌+◌, ◌<◌, ◌≤◌, length};
ghost use Rattle.plain_note.specs.Note.{head_size};
ghost use Rattle.plain.specs.Outcome.{Outcome.value};
ghost use Rattle.answer.specs.Answers.{outcome};
ghost use Rattle.plain_calls.specs.Marks.{lowest, moved_to};
ghost use Rattle.pool.specs.Calls.{Wrote};
ghost use Rattle.note_head.specs.Head.{live_at, marks_from};
ghost use Rattle.marks.specs.MarkBytes.{standing_in, mark_set, mark_moved, live_bytes, run_moved, marks_moved, edited};

use answer::{Answer, Refusal};
use note_head::{
    MARK_BYTES, MARKS, MARKS_AT, edit_number, mark_live, mark_place, set_edit_number,
    set_mark_live, set_mark_place,
};
use pool::HEAD_BYTES;

// An edit looks at all marks, so many at once.
const RUN: usize = 8;

const RUNS: usize = 32;

// The lowest number of a mark that is not live; 256 where all are.
pub fn lowest_free(m: &[u8]) -> usize
    ensures { result ≡ lowest (marks_from m.now 0 256) }
{
    // A `for` was tried, and takes 2 times as long where all are live.
    let mut k = 0;
    while k < MARKS {
        if mark_live(m, k) != 1 {
            return k;
        }
        k += 1;
    }
    k
}

// Where mark k stands: 7 where it is not live.
pub fn standing_at(m: &[u8], k: usize) -> Answer<usize>
    ensures { outcome result ≡ standing_in m.now k }
{
    if MARKS <= k {
        return Err(Refusal::Mark);
    }
    if mark_live(m, k) != 1 {
        return Err(Refusal::Mark);
    }
    Ok(mark_place(m, k))
}

// Mark k live, at a place.
pub fn set_at(m: &mut [u8], k: usize, place: u32) -> Answer<()>
    ensures { Wrote (mark_set m.old k place) m.old result m.new }
{
    if m.len() < HEAD_BYTES {
        return Err(Refusal::Memory);
    }
    if MARKS <= k {
        return Err(Refusal::Mark);
    }
    set_mark_place(m, k, place)?;
    set_mark_live(m, k, 1)
}

// Where a place goes when the chars of [s, e) give way to so many new ones.
fn moved_to(s: usize, e: usize, new: u32, q: usize) -> usize
    requires { q < 4294967296 }
    ensures { result ≡ moved_to s e new q }
{
    if q < s {
        return q;
    }
    if q < e {
        return s;
    }
    if e < s {
        return q + new as usize;
    }
    q - (e - s) + new as usize
}

// Mark k moves if it is live.
fn move_mark(m: &mut [u8], k: usize, s: usize, e: usize, new: u32) -> Answer<()>
    requires { (head_size ≤ length m.old) × (k < 256) }
    ensures { (outcome result ≡ value tt) × (m.new ≡ mark_moved (moved_to s e new) m.old k) }
{
    if m[MARKS_AT + MARK_BYTES * k] != 1 {
        return Ok(());
    }
    let q = moved_to(s, e, new, mark_place(m, k));
    set_mark_place(m, k, (q % 4294967296) as u32)
}

// The byte of mark k that says whether it is live.
fn live_byte(m: &[u8], k: usize) -> u32
    requires { (head_size ≤ length m.now) × (k < 256) }
    ensures { (result ≡ live_at m.now k) × (result < 256) }
{
    u32::from(m[MARKS_AT + MARK_BYTES * k])
}

// Those bytes of the next RUN marks, added up: 0 where no byte is 1.
fn live_bytes(m: &[u8], k: usize) -> u32
    requires { (head_size ≤ length m.now) × (k + 8 ≤ 256) }
    ensures { result ≡ live_bytes m.now k 8 }
{
    let mut all: u32 = 0;
    for j in 0..RUN {
        all += live_byte(m, k + j);
    }
    all
}

// The next RUN marks, passed over at once where all of them are free, as most are.
fn move_run(m: &mut [u8], k: usize, s: usize, e: usize, new: u32) -> Answer<()>
    requires { (head_size ≤ length m.old) × (k + 8 ≤ 256) }
    ensures { (outcome result ≡ value tt) × (m.new ≡ run_moved (moved_to s e new) m.old k 8) }
{
    if live_bytes(m, k) == 0 {
        return Ok(());
    }
    for j in 0..RUN {
        move_mark(m, k + j, s, e, new)?;
    }
    Ok(())
}

fn move_marks(m: &mut [u8], s: usize, e: usize, new: u32) -> Answer<()>
    requires { head_size ≤ length m.old }
    ensures { (outcome result ≡ value tt) × (m.new ≡ marks_moved (moved_to s e new) m.old 256) }
{
    for i in 0..RUNS {
        move_run(m, RUN * i, s, e, new)?;
    }
    Ok(())
}

// What an edit that puts so many new chars in the place of [s, e) does beside the text: the marks move, and the edit number rises, which returns
// to 0 after 4,294,967,295.
pub fn follow(m: &mut [u8], s: usize, e: usize, new: u32) -> Answer<()>
    ensures { Wrote (edited m.old s e new) m.old result m.new }
{
    if m.len() < HEAD_BYTES {
        return Err(Refusal::Memory);
    }
    let edits = std::num::wrapping_add_u32(edit_number(m), 1);
    move_marks(m, s, e, new)?;
    set_edit_number(m, edits)
}
