// What ends a text: its last line, and the line break behind it. A port of ropey's `str_utils.rs`, as `str_utils`.
#![tactic(auto)]

ghost use Rattle.std.specs.Prelude.{◌≡◌, ◌≤◌, ltb, length};
ghost use Rattle.plain.specs.Chars.{encode};
ghost use Rattle.plain.specs.Outcome.{part};
ghost use Rattle.plain.specs.Count.{breaks, line_start, tail_break, trimmed};
ghost use Rattle.plain.specs.Place.{byte_at};
ghost use Rattle.answer.specs.Answers.{outcome};
ghost use Rattle.str_utils.specs.Helpers.{of_text};

use answer::{Answer, Refusal};

// Where the last line of any bytes begins.
fn last_line(text: &[u8]) -> usize
    ensures { result ≡ line_start text.now (breaks text.now) }
{
    for i in (0..text.len()).rev() {
        let b = text[i];
        if b == 0x0A {
            return i + 1;
        }
        if b == 0x0D {
            return i + 1;
        }
    }
    0
}

// The byte at which the last line begins.
pub fn last_line_start_byte_idx(text: &[u8]) -> Answer<usize>
    ensures { outcome result ≡ of_text text.now (λ cs. byte_at cs (line_start cs (breaks cs))) }
{
    if utf8::valid(text) {
        return Ok(last_line(text));
    }
    Err(Refusal::Text)
}

// How many bytes the break has that ends any bytes; 0 where none does.
fn tail_break(text: &[u8]) -> usize
    ensures { (result ≡ tail_break text.now) × (result ≤ length text.now) }
{
    let n = text.len();
    if n == 0 {
        return 0;
    }
    let tail = text[n - 1];
    if tail == 0x0D {
        return 1;
    }
    if tail != 0x0A {
        return 0;
    }
    if n == 1 {
        return 1;
    }
    if text[n - 2] == 0x0D { 2 } else { 1 }
}

// The text without the line break that ends it, if one does: a part of the bytes lent, and an empty one where they are refused.
pub fn trim_line_break(text: &[u8]) -> &[u8]
    ensures { result.now ≡ part (of_text text.now (λ cs. encode (trimmed cs))) }
{
    if !utf8::valid(text) {
        return &text[..0];
    }
    let k = text.len() - tail_break(text);
    &text[..k]
}

// The companion of `trim_line_break`: its refusal, or none.
pub fn trim_line_break_refusal(text: &[u8]) -> Answer<()>
    ensures { outcome result ≡ of_text text.now (λ cs. tt) }
{
    if !utf8::valid(text) {
        return Err(Refusal::Text);
    }
    Ok(())
}

// Whether a line break ends the text.
pub fn ends_with_line_break(text: &[u8]) -> Answer<bool>
    ensures { outcome result ≡ of_text text.now (λ cs. ltb 0 (tail_break cs)) }
{
    if utf8::valid(text) {
        return Ok(0 < tail_break(text));
    }
    Err(Refusal::Text)
}
