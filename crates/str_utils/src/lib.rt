// Helpers over a whole text, each equal to what the plain note counts. A port of ropey's `str_utils.rs`. A past-the-end index gives
// the last line or the end, as there; bytes that are no well-formed text are refused by 5, where the Rust's `&str` rules them out.
#![tactic(auto)]

ghost use Rattle.std.specs.Prelude.{◌≡◌, length, take};
ghost use Rattle.plain.specs.Count.{count_if, breaks, line_at, line_start};
ghost use Rattle.plain.specs.Place.{is_pair, bytes, byte_at, place_of_byte, place_of_unit};
ghost use Rattle.answer.specs.Answers.{outcome};
ghost use Rattle.str_utils.specs.Helpers.{of_text};

use answer::{Answer, Refusal};
use str_indices::{chars, utf16};

// The bytes of a well-formed text: what each helper asks first.
fn checked(text: &[u8]) -> Answer<usize>
    ensures { outcome result ≡ of_text text.now (λ cs. bytes cs) }
{
    if utf8::valid(text) {
        return Ok(text.len());
    }
    Err(Refusal::Text)
}

// How many chars the text has.
pub fn count_chars(text: &[u8]) -> Answer<usize>
    ensures { outcome result ≡ of_text text.now (λ cs. length cs) }
{
    checked(text)?;
    Ok(chars::count(text))
}

// The place of the char that holds a byte.
pub fn byte_to_char_idx(text: &[u8], byte_idx: usize) -> Answer<usize>
    ensures { outcome result ≡ of_text text.now (λ cs. place_of_byte cs byte_idx) }
{
    checked(text)?;
    Ok(chars::from_byte_idx(text, byte_idx))
}

// The byte of a place.
pub fn char_to_byte_idx(text: &[u8], char_idx: usize) -> Answer<usize>
    ensures { outcome result ≡ of_text text.now (λ cs. byte_at cs char_idx) }
{
    checked(text)?;
    Ok(chars::to_byte_idx(text, char_idx))
}

// How many chars have two UTF-16 units.
pub fn count_utf16_surrogates(text: &[u8]) -> Answer<usize>
    ensures { outcome result ≡ of_text text.now (λ cs. count_if is_pair cs) }
{
    checked(text)?;
    Ok(utf16::count_surrogates(text))
}

// How many line breaks the text has.
pub fn count_line_breaks(text: &[u8]) -> Answer<usize>
    ensures { outcome result ≡ of_text text.now (λ cs. breaks cs) }
{
    checked(text)?;
    Ok(lines_crlf::count_breaks(text))
}

// The line of a byte.
pub fn byte_to_line_idx(text: &[u8], byte_idx: usize) -> Answer<usize>
    ensures { outcome result ≡ of_text text.now (λ cs. line_at cs (place_of_byte cs byte_idx)) }
{
    checked(text)?;
    Ok(lines_crlf::from_byte_idx(text, byte_idx))
}

// The byte at which a line begins.
pub fn line_to_byte_idx(text: &[u8], line_idx: usize) -> Answer<usize>
    ensures { outcome result ≡ of_text text.now (λ cs. byte_at cs (line_start cs line_idx)) }
{
    checked(text)?;
    Ok(lines_crlf::to_byte_idx(text, line_idx))
}

// The line of a place.
pub fn char_to_line_idx(text: &[u8], char_idx: usize) -> Answer<usize>
    ensures { outcome result ≡ of_text text.now (λ cs. line_at cs char_idx) }
{
    checked(text)?;
    Ok(lines_crlf::from_byte_idx(text, chars::to_byte_idx(text, char_idx)))
}

// The place at which a line begins.
pub fn line_to_char_idx(text: &[u8], line_idx: usize) -> Answer<usize>
    ensures { outcome result ≡ of_text text.now (λ cs. line_start cs line_idx) }
{
    checked(text)?;
    Ok(chars::from_byte_idx(text, lines_crlf::to_byte_idx(text, line_idx)))
}

// How many chars of two UTF-16 units stand before the char that holds a byte.
pub fn byte_to_utf16_surrogate_idx(text: &[u8], byte_idx: usize) -> Answer<usize>
    ensures { outcome result ≡ of_text text.now (λ cs. count_if is_pair (take (place_of_byte cs byte_idx) cs)) }
{
    checked(text)?;
    let i = chars::floor(text, byte_idx);
    Ok(utf16::count_surrogates(&text[..i]))
}

// The place of the char that holds a UTF-16 unit.
pub fn utf16_code_unit_to_char_idx(text: &[u8], utf16_idx: usize) -> Answer<usize>
    ensures { outcome result ≡ of_text text.now (λ cs. place_of_unit cs utf16_idx) }
{
    checked(text)?;
    Ok(chars::from_byte_idx(text, utf16::to_byte_idx(text, utf16_idx)))
}
