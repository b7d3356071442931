// What refuses an edit of the note, or that nothing does.
#![tactic(auto)]

ghost use Rattle.std.specs.Prelude.{◌≡◌, ◌≤◌};
ghost use Rattle.plain.specs.Outcome.{ruled};
ghost use Rattle.plain_note.specs.Note.{limit, insert_rules, piece_most};
ghost use Rattle.plain_note.specs.Edits.{remove_rules};
ghost use Rattle.answer.specs.Answers.{outcome};
ghost use Rattle.note_head.specs.Head.{n_of};
ghost use Rattle.memory.specs.Formed.{of_note};

use answer::{Answer, Refusal};
use note_head::{bytes_of, chars_of, slots};

const MAX_PIECE: usize = 256;

// The bytes that the note may have.
fn most_bytes(m: &[u8]) -> usize
    requires { 17 ≤ n_of m.now }
    ensures { result ≡ limit (n_of m.now) }
{
    64 * (slots(m) - 16)
}

// The insertion of a piece at a place.
pub fn insert_refusal(m: &[u8], piece: &[u8], p: usize) -> Answer<()>
    ensures { outcome result ≡ of_note m.now (λ N. ruled (insert_rules piece_most N p piece.now) tt) }
{
    if !memory::check(m) {
        return Err(Refusal::Memory);
    }
    if chars_of(m) < p {
        return Err(Refusal::Place);
    }
    if MAX_PIECE < piece.len() {
        return Err(Refusal::Piece);
    }
    if !utf8::valid(piece) {
        return Err(Refusal::Text);
    }
    if most_bytes(m) < bytes_of(m) + piece.len() {
        return Err(Refusal::Room);
    }
    Ok(())
}

// The removal of the chars [s, e).
pub fn remove_refusal(m: &[u8], s: usize, e: usize) -> Answer<()>
    ensures { outcome result ≡ of_note m.now (λ N. ruled (remove_rules N s e) tt) }
{
    if !memory::check(m) {
        return Err(Refusal::Memory);
    }
    if e < s {
        return Err(Refusal::Place);
    }
    if chars_of(m) < e {
        return Err(Refusal::Place);
    }
    Ok(())
}
