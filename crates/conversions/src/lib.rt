// The calls that turn an index of one count into another, under the names of ropey's `rope.rs`. Each is refused by 2 where the memory is not well formed and by
// 3 where the index is past its end, and looks at nothing beyond the note's need.
#![tactic(auto)]

ghost use Rattle.std.specs.Prelude.{◌≡◌};
ghost use Rattle.plain.specs.Place.{Measure.byte, Measure.char, Measure.unit, Measure.line};
ghost use Rattle.answer.specs.Answers.{outcome};
ghost use Rattle.plain_note.specs.Note.{converted};
ghost use Rattle.memory.specs.Formed.{of_note};

use answer::Answer;
use note_counts::{Count, convert};

// The char of a byte: one inside a char means that char.
pub fn byte_to_char(m: &[u8], byte_idx: usize) -> Answer<usize>
    ensures { outcome result ≡ of_note m.now (λ N. converted byte char N byte_idx) }
{
    convert(m, Count::Bytes, Count::Chars, byte_idx)
}

pub fn char_to_byte(m: &[u8], char_idx: usize) -> Answer<usize>
    ensures { outcome result ≡ of_note m.now (λ N. converted char byte N char_idx) }
{
    convert(m, Count::Chars, Count::Bytes, char_idx)
}

pub fn byte_to_line(m: &[u8], byte_idx: usize) -> Answer<usize>
    ensures { outcome result ≡ of_note m.now (λ N. converted byte line N byte_idx) }
{
    convert(m, Count::Bytes, Count::Lines, byte_idx)
}

// Where a line begins: the number of lines means the end.
pub fn line_to_byte(m: &[u8], line_idx: usize) -> Answer<usize>
    ensures { outcome result ≡ of_note m.now (λ N. converted line byte N line_idx) }
{
    convert(m, Count::Lines, Count::Bytes, line_idx)
}

pub fn char_to_line(m: &[u8], char_idx: usize) -> Answer<usize>
    ensures { outcome result ≡ of_note m.now (λ N. converted char line N char_idx) }
{
    convert(m, Count::Chars, Count::Lines, char_idx)
}

pub fn line_to_char(m: &[u8], line_idx: usize) -> Answer<usize>
    ensures { outcome result ≡ of_note m.now (λ N. converted line char N line_idx) }
{
    convert(m, Count::Lines, Count::Chars, line_idx)
}

pub fn char_to_utf16_cu(m: &[u8], char_idx: usize) -> Answer<usize>
    ensures { outcome result ≡ of_note m.now (λ N. converted char unit N char_idx) }
{
    convert(m, Count::Chars, Count::Units, char_idx)
}

pub fn utf16_cu_to_char(m: &[u8], utf16_cu_idx: usize) -> Answer<usize>
    ensures { outcome result ≡ of_note m.now (λ N. converted unit char N utf16_cu_idx) }
{
    convert(m, Count::Units, Count::Chars, utf16_cu_idx)
}
