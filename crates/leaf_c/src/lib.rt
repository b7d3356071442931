// The leaf's calls and counts for C and Rust to link.
#![tactic(auto)]

ghost use Rattle.leaf_calls.specs.Asked.{asked_by};
ghost use Rattle.text_info.specs.Info.{leaf_info};
ghost use Rattle.leaf_c.specs.Told.{LeavesTold, InfoTold, SumTold};

use text_info::{TextInfo, TextSum};

// The call with a number, as `leaf_calls` has them. It returns 0 and writes the lengths of the two leaves; or it returns document 01's
// number of the refusal and writes nothing.
#[unsafe(no_mangle)]
pub extern "C" fn wol_leaf(
    call: u8,
    left: &mut [u8],
    len: usize,
    start: usize,
    end: usize,
    piece: &[u8],
    right: &mut [u8],
    right_len: usize,
    out_left: &mut u64,
    out_right: &mut u64,
) -> u8
    ensures { LeavesTold (asked_by call left.old len start end piece.now right.old right_len) left.old right.old out_left.old out_right.old result left.new right.new out_left.new out_right.new }
{
    match leaf_calls::ask_by(call, left, len, start, end, piece, right, right_len) {
        Ok((l, r)) => {
            *out_left = l as u64;
            *out_right = r as u64;
            0
        }
        Err(q) => u8::from(q),
    }
}

// The counts of a leaf's text. It returns 0 and writes them; or it returns the number of the refusal and writes nothing.
#[unsafe(no_mangle)]
pub extern "C" fn wol_text_info(
    text: &[u8],
    bytes: &mut u32,
    chars: &mut u32,
    utf16_surrogates: &mut u32,
    line_breaks: &mut u32,
) -> u8
    ensures { InfoTold (leaf_info text.now) bytes.old chars.old utf16_surrogates.old line_breaks.old result bytes.new chars.new utf16_surrogates.new line_breaks.new }
{
    match TextInfo::from_str(text) {
        Ok(i) => {
            *bytes = i.bytes;
            *chars = i.chars;
            *utf16_surrogates = i.utf16_surrogates;
            *line_breaks = i.line_breaks;
            0
        }
        Err(r) => u8::from(r),
    }
}

// A sum, of which each count stands behind a pointer, with the counts of one text added or taken away.
#[unsafe(no_mangle)]
pub extern "C" fn wol_text_sum(
    minus: bool,
    bytes: &mut u64,
    chars: &mut u64,
    utf16_surrogates: &mut u64,
    line_breaks: &mut u64,
    info_bytes: u32,
    info_chars: u32,
    info_utf16_surrogates: u32,
    info_line_breaks: u32,
)
    ensures { SumTold minus (record { bytes = bytes.old; chars = chars.old; utf16_surrogates = utf16_surrogates.old; line_breaks = line_breaks.old }) (record { bytes = info_bytes; chars = info_chars; utf16_surrogates = info_utf16_surrogates; line_breaks = info_line_breaks }) (record { bytes = bytes.new; chars = chars.new; utf16_surrogates = utf16_surrogates.new; line_breaks = line_breaks.new }) }
{
    let sum = TextSum {
        bytes: *bytes,
        chars: *chars,
        utf16_surrogates: *utf16_surrogates,
        line_breaks: *line_breaks,
    };
    let info = TextInfo {
        bytes: info_bytes,
        chars: info_chars,
        utf16_surrogates: info_utf16_surrogates,
        line_breaks: info_line_breaks,
    };
    let after = if minus { sum - info } else { sum + info };
    *bytes = after.bytes;
    *chars = after.chars;
    *utf16_surrogates = after.utf16_surrogates;
    *line_breaks = after.line_breaks;
}
