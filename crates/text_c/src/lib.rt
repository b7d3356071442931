// The text layer for C and Rust to link.
#![tactic(auto)]

ghost use Rattle.std.specs.Prelude.{◌≡◌};
ghost use Rattle.plain.specs.Count.{count_if, breaks};
ghost use Rattle.plain.specs.Place.{is_start, is_wide};
ghost use Rattle.plain.specs.Outcome.{kept};
ghost use Rattle.text_calls.specs.Asked.{asked_by};
ghost use Rattle.told.specs.Told.{code};

use told::tell;

// The call with a number, as `text_calls` has them. It returns 0 and writes the value through `out`, a truth as 1 or 0 and a part as
// its length; or it returns document 01's number of the refusal and writes nothing.
#[unsafe(no_mangle)]
pub extern "C" fn wol_ask(call: u8, index: usize, bias_left: bool, text: &[u8], out: &mut u64) -> u8
    ensures { (result ≡ code (asked_by call index bias_left text.now)) × (out.new ≡ kept out.old (asked_by call index bias_left text.now)) }
{
    tell(text_calls::ask_by(call, index, bias_left, text), out)
}

// The three counts over any bytes, with no test of what they are.
#[unsafe(no_mangle)]
pub extern "C" fn wol_raw_count_chars(text: &[u8]) -> usize
    ensures { result ≡ count_if is_start text.now }
{
    str_indices::chars::count(text)
}

#[unsafe(no_mangle)]
pub extern "C" fn wol_raw_count_surrogates(text: &[u8]) -> usize
    ensures { result ≡ count_if is_wide text.now }
{
    str_indices::utf16::count_surrogates(text)
}

#[unsafe(no_mangle)]
pub extern "C" fn wol_raw_count_breaks(text: &[u8]) -> usize
    ensures { result ≡ breaks text.now }
{
    lines_crlf::count_breaks(text)
}
