// Every call of the text layer by its number, with one form of question and answer: what the replayed sample and the programs in C
// and Rust ask through. A truth is told as 1 or 0, a part by its length.
#![tactic(auto)]

ghost use Rattle.std.specs.Prelude.{◌≡◌};
ghost use Rattle.plain.specs.Place.{bytes};
ghost use Rattle.plain.specs.Count.{trimmed};
ghost use Rattle.answer.specs.Answers.{outcome};
ghost use Rattle.str_utils.specs.Helpers.{of_text};
ghost use Rattle.text_calls.specs.Asked.{counted, seam_at, asked, named, asked_by};

use answer::{Answer, Refusal};

#[derive(Clone, Copy)]
pub enum Call {
    IsBreak,
    SeamIsBreak,
    PrevBreak,
    NextBreak,
    NearestInternalBreak,
    FindGoodSplit,
    CountChars,
    ByteToCharIdx,
    CharToByteIdx,
    CountUtf16Surrogates,
    CountLineBreaks,
    ByteToLineIdx,
    LineToByteIdx,
    CharToLineIdx,
    LineToCharIdx,
    ByteToUtf16SurrogateIdx,
    Utf16CodeUnitToCharIdx,
    LastLineStartByteIdx,
    TrimLineBreak,
    EndsWithLineBreak,
    Valid,
}

// The call with a number, from 1; a number that names none is refused by 10.
impl TryFrom<u8> for Call {
    type Error = Refusal;

    ghost try_from_gives = { λ k r. outcome r ≡ named k };

    #[tactic(auto, unfolding(crate::specs::Asked::named, crate::specs::Asked::calls))]
    fn try_from(number: u8) -> Answer<Call> {
        match number {
            1 => Ok(Call::IsBreak),
            2 => Ok(Call::SeamIsBreak),
            3 => Ok(Call::PrevBreak),
            4 => Ok(Call::NextBreak),
            5 => Ok(Call::NearestInternalBreak),
            6 => Ok(Call::FindGoodSplit),
            7 => Ok(Call::CountChars),
            8 => Ok(Call::ByteToCharIdx),
            9 => Ok(Call::CharToByteIdx),
            10 => Ok(Call::CountUtf16Surrogates),
            11 => Ok(Call::CountLineBreaks),
            12 => Ok(Call::ByteToLineIdx),
            13 => Ok(Call::LineToByteIdx),
            14 => Ok(Call::CharToLineIdx),
            15 => Ok(Call::LineToCharIdx),
            16 => Ok(Call::ByteToUtf16SurrogateIdx),
            17 => Ok(Call::Utf16CodeUnitToCharIdx),
            18 => Ok(Call::LastLineStartByteIdx),
            19 => Ok(Call::TrimLineBreak),
            20 => Ok(Call::EndsWithLineBreak),
            21 => Ok(Call::Valid),
            _ => Err(Refusal::Field),
        }
    }
}

// A truth as 1 or 0.
fn truth_as_number(a: Answer<bool>) -> Answer<usize>
    ensures { outcome result ≡ counted (outcome a) }
{
    a.map(usize::from)
}

// `seam_is_break` of a text cut at an index. Past the end the right side is empty.
fn seam_at(index: usize, text: &[u8]) -> Answer<usize>
    ensures { outcome result ≡ seam_at index text.now }
{
    let (left, right) = text.split_at_checked(index).ok_or(Refusal::Side)?;
    truth_as_number(crlf::seam_is_break(left, right))
}

// How many bytes `trim_line_break` hands out. They are the text's first ones.
fn trimmed_len(text: &[u8]) -> Answer<usize>
    ensures { outcome result ≡ of_text text.now (λ cs. bytes (trimmed cs)) }
{
    str_ends::trim_line_break_refusal(text)?;
    Ok(str_ends::trim_line_break(text).len())
}

fn ask(call: Call, index: usize, bias_left: bool, text: &[u8]) -> Answer<usize>
    ensures { outcome result ≡ asked call index bias_left text.now }
{
    match call {
        Call::IsBreak => truth_as_number(crlf::is_break(index, text)),
        Call::SeamIsBreak => seam_at(index, text),
        Call::PrevBreak => crlf::prev_break(index, text),
        Call::NextBreak => crlf::next_break(index, text),
        Call::NearestInternalBreak => crlf::nearest_internal_break(index, text),
        Call::FindGoodSplit => crlf::find_good_split(index, text, bias_left),
        Call::CountChars => str_utils::count_chars(text),
        Call::ByteToCharIdx => str_utils::byte_to_char_idx(text, index),
        Call::CharToByteIdx => str_utils::char_to_byte_idx(text, index),
        Call::CountUtf16Surrogates => str_utils::count_utf16_surrogates(text),
        Call::CountLineBreaks => str_utils::count_line_breaks(text),
        Call::ByteToLineIdx => str_utils::byte_to_line_idx(text, index),
        Call::LineToByteIdx => str_utils::line_to_byte_idx(text, index),
        Call::CharToLineIdx => str_utils::char_to_line_idx(text, index),
        Call::LineToCharIdx => str_utils::line_to_char_idx(text, index),
        Call::ByteToUtf16SurrogateIdx => str_utils::byte_to_utf16_surrogate_idx(text, index),
        Call::Utf16CodeUnitToCharIdx => str_utils::utf16_code_unit_to_char_idx(text, index),
        Call::LastLineStartByteIdx => str_ends::last_line_start_byte_idx(text),
        Call::TrimLineBreak => trimmed_len(text),
        Call::EndsWithLineBreak => truth_as_number(str_ends::ends_with_line_break(text)),
        Call::Valid => Ok(usize::from(utf8::valid(text))),
    }
}

// The answer of the call with a number; a number that names none is refused by 10.
pub fn ask_by(call: u8, index: usize, bias_left: bool, text: &[u8]) -> Answer<usize>
    ensures { outcome result ≡ asked_by call index bias_left text.now }
{
    ask(Call::try_from(call)?, index, bias_left, text)
}
