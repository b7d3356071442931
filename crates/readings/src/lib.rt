// The calls that read the note's numbers: its lengths, under the names of ropey's `rope.rs`, n and the edit number. Each is refused by 2 where the memory
// is not well formed, and looks at nothing beyond the note's need.
#![tactic(auto)]

ghost use Rattle.std.specs.Prelude.{◌≡◌, length};
ghost use Rattle.plain.specs.Place.{bytes, units};
ghost use Rattle.plain.specs.Count.{lines};
ghost use Rattle.plain.specs.Outcome.{Outcome.value};
ghost use Rattle.answer.specs.Answers.{outcome};
ghost use Rattle.memory.specs.Formed.{of_note};

use answer::{Answer, Refusal};
use note_counts::{Count, length_by};

// A number as wide as an index.
fn wide(x: u32) -> usize
    ensures { result ≡ x }
{
    x as usize
}

// How many bytes the note has.
pub fn len_bytes(m: &[u8]) -> Answer<usize>
    ensures { outcome result ≡ of_note m.now (λ N. value (bytes N.text)) }
{
    length_by(m, Count::Bytes)
}

pub fn len_chars(m: &[u8]) -> Answer<usize>
    ensures { outcome result ≡ of_note m.now (λ N. value (length N.text)) }
{
    length_by(m, Count::Chars)
}

pub fn len_utf16_cu(m: &[u8]) -> Answer<usize>
    ensures { outcome result ≡ of_note m.now (λ N. value (units N.text)) }
{
    length_by(m, Count::Units)
}

// How many lines: one more than its breaks.
pub fn len_lines(m: &[u8]) -> Answer<usize>
    ensures { outcome result ≡ of_note m.now (λ N. value (lines N.text)) }
{
    length_by(m, Count::Lines)
}

// How many slots the note was opened with.
pub fn slots(m: &[u8]) -> Answer<usize>
    ensures { outcome result ≡ of_note m.now (λ N. value N.n) }
{
    if !memory::check(m) {
        return Err(Refusal::Memory);
    }
    let n = note_head::slots(m);
    Ok(n)
}

// How many edits changed the text: 32 bits, which return to 0.
pub fn edit_number(m: &[u8]) -> Answer<usize>
    ensures { outcome result ≡ of_note m.now (λ N. value N.edit) }
{
    if !memory::check(m) {
        return Err(Refusal::Memory);
    }
    let edits = note_head::edit_number(m);
    Ok(wide(edits))
}
