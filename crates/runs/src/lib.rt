// The note read without copying: runs of it, and the preview of an insertion. A run is a part of one leaf, a preview a part of a leaf or of the
// piece; a refused call hands out an empty part, and its companion says why.
#![tactic(auto)]

ghost use Rattle.std.specs.Prelude.{◌≡◌, ◌⊎◌, ◌+◌};
ghost use Rattle.plain.specs.Outcome.{mapped, past};
ghost use Rattle.plain_note.specs.Note.{read_from, previewed};
ghost use Rattle.answer.specs.Answers.{outcome};
ghost use Rattle.note_head.specs.Part.{PartOf};
ghost use Rattle.memory.specs.Formed.{of_note};
ghost use Rattle.runs.specs.Runs.{run_of, front_of, joined_from, preview_of};

use answer::{Answer, Refusal};
use edit_rules::insert_refusal;
use leaf_parts::{behind, byte_in, from_char};
use note_head::{chars_of, own_part};
use str_indices::chars;

// The companion of `run`: its refusal, or none.
pub fn run_refusal(m: &[u8], p: usize) -> Answer<()>
    ensures { outcome result ≡ mapped (λ t. tt) (of_note m.now (λ N. read_from N p)) }
{
    if !memory::check(m) {
        return Err(Refusal::Memory);
    }
    if chars_of(m) < p {
        return Err(Refusal::Place);
    }
    Ok(())
}

// The note from a place to the end of the leaf that holds the char there; empty at its end.
pub fn run(m: &[u8], p: usize) -> &[u8]
    ensures { (result.now ≡ run_of m.now p) × PartOf result m.entry }
{
    let Ok(()) = run_refusal(m, p) else {
        return &m[..0];
    };
    from_char(own_part(m), p)
}

// Whether a place is past the end of two texts joined, of so many chars.
fn past_both(first: usize, second: usize, q: usize) -> bool
    ensures { result ≡ past q (first + second) }
{
    if q < first {
        return false;
    }
    second < q - first
}

// The companion of `preview`: its refusal, or none. It refuses as the insertion would; only where that is accepted, 3 for a place past
// the end of the joined text.
pub fn preview_refusal(m: &[u8], piece: &[u8], p: usize, q: usize) -> Answer<()>
    ensures { outcome result ≡ mapped (λ t. tt) (of_note m.now (λ N. previewed N p piece.now q)) }
{
    insert_refusal(m, piece, p)?;
    if past_both(chars_of(m), chars::count(piece), q) {
        return Err(Refusal::Place);
    }
    Ok(())
}

// The first n chars of a text.
fn front(text: &[u8], n: usize) -> &[u8]
    ensures { (result.now ≡ front_of n text.now) × PartOf result text.entry }
{
    let k = byte_in(text, n);
    &text[..k]
}

// The joined text from a place to the end of the leaf or of the piece that holds the char there, or to the insertion place if that is
// behind it and nearer.
fn joined_from<'a>(m: &'a [u8], piece: &'a [u8], p: usize, q: usize) -> &'a [u8]
    ensures { (result.now ≡ joined_from m.now p piece.now q) × (PartOf result m.entry ⊎ PartOf result piece.entry) }
{
    if q < p {
        return front(from_char(m, q), p - q);
    }
    let k = chars::count(piece);
    let i = q - p;
    if i < k {
        return behind(piece, byte_in(piece, i));
    }
    from_char(m, q - k)
}

// The text that an insertion of the piece at p would give, from the place q of it on: a part of the piece or of a leaf.
pub fn preview<'a>(m: &'a [u8], piece: &'a [u8], p: usize, q: usize) -> &'a [u8]
    ensures { (result.now ≡ preview_of m.now p piece.now q) × (PartOf result m.entry ⊎ PartOf result piece.entry) }
{
    let Ok(()) = preview_refusal(m, piece, p, q) else {
        return &m[..0];
    };
    joined_from(own_part(m), piece, p, q)
}
