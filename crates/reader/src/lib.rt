// A reader: a thin struct that holds the lent memory and a place, and hands out the note from there run by run. The memory is checked when the
// reader is made, and not again: it stays lent, so it cannot change. Each function over a reader takes it apart and calls one on memory and place.
#![tactic(auto)]

ghost use Rattle.std.specs.Prelude.{◌≡◌, ◌+◌, ◌<◌, ◌^◌, length};
ghost use Rattle.plain.specs.Outcome.{mapped};
ghost use Rattle.plain_note.specs.Note.{read_from};
ghost use Rattle.answer.specs.Answers.{outcome};
ghost use Rattle.memory.specs.Formed.{of_note};
ghost use Rattle.reader.specs.Handed.{pool_at, run_at, behind_of};

use answer::Answer;
use leaf_parts::from_char;
use note_head::{chars_of, own_part};
use runs::run_refusal;
use str_indices::chars;

#[derive(Clone, Copy)]
pub struct Reader<'a> {
    pool: &'a [u8],
    place: usize,
}

// ── on memory and place ──

// The memory that a reader made at a place holds: the lent one, or none where it is refused.
fn pool_at(m: &[u8], p: usize) -> &[u8]
    ensures { result.now ≡ pool_at m.now p }
{
    let Ok(()) = run_refusal(m, p) else {
        return &m[..0];
    };
    m
}

// From a place to the end of the leaf that holds the char there; empty from the note's end on.
fn run_at(m: &[u8], p: usize) -> &[u8]
    ensures { (result.now ≡ run_at m.now p) × (p + length result.now < 2 ^ 64) }
{
    if p < chars_of(m) {
        return from_char(own_part(m), p);
    }
    &m[..0]
}

// The place behind that run.
fn place_behind(m: &[u8], p: usize) -> usize
    ensures { result ≡ behind_of m.now p }
{
    p + chars::count(run_at(m, p))
}

// ── the reader ──

// The companion of `reader_at`: its refusal, or none.
pub fn reader_refusal(m: &[u8], p: usize) -> Answer<()>
    ensures { outcome result ≡ mapped (λ t. tt) (of_note m.now (λ N. read_from N p)) }
{
    run_refusal(m, p)
}

// A reader at a place of the note; where it is refused, one without runs.
pub fn reader_at<'a>(m: &'a [u8], p: usize) -> Reader<'a>
    ensures { (result.pool.now ≡ pool_at m.now p) × (result.place ≡ p) }
{
    let pool = pool_at(m, p);
    Reader { pool, place: p }
}

// The run at its place.
pub fn run_of<'a>(r: Reader<'a>) -> &'a [u8]
    ensures { result.now ≡ run_at r.entry.pool.now r.entry.place }
{
    run_at(r.pool, r.place)
}

// The reader behind that run.
pub fn behind<'a>(r: Reader<'a>) -> Reader<'a>
    ensures { (result.pool ≡ r.entry.pool) × (result.place ≡ behind_of r.entry.pool.now r.entry.place) }
{
    let at = place_behind(r.pool, r.place);
    Reader {
        pool: r.pool,
        place: at,
    }
}
