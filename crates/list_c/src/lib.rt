// The calls of a child list for C and Rust to link.
#![tactic(auto)]

ghost use Rattle.list_calls.specs.Asked.{asked_by};
ghost use Rattle.list_c.specs.Told.{ListTold};

use pool::Kid;
use text_info::TextInfo;

// The call with a number, as `list_calls` has them, with the child's slot and its four counts. It returns 0 and writes the five numbers;
// or it returns document 01's number of the refusal and writes nothing.
#[unsafe(no_mangle)]
pub extern "C" fn wol_list(
    call: u8,
    m: &mut [u8],
    slot: usize,
    other: usize,
    i: usize,
    j: usize,
    kid_slot: u32,
    kid_bytes: u32,
    kid_chars: u32,
    kid_surrogates: u32,
    kid_breaks: u32,
    a: &mut u64,
    b: &mut u64,
    c: &mut u64,
    d: &mut u64,
    e: &mut u64,
) -> u8
    ensures { ListTold (asked_by call m.old slot other i j (record { slot = kid_slot; info = record { bytes = kid_bytes; chars = kid_chars; utf16_surrogates = kid_surrogates; line_breaks = kid_breaks } })) m.old (a.old, b.old, c.old, d.old, e.old) result m.new (a.new, b.new, c.new, d.new, e.new) }
{
    let info = TextInfo {
        bytes: kid_bytes,
        chars: kid_chars,
        utf16_surrogates: kid_surrogates,
        line_breaks: kid_breaks,
    };
    let kid = Kid {
        slot: kid_slot,
        info: info,
    };
    match list_calls::ask_by(call, m, slot, other, i, j, kid) {
        Ok((first, second, third, fourth, fifth)) => {
            *a = first as u64;
            *b = second as u64;
            *c = third as u64;
            *d = fourth as u64;
            *e = fifth as u64;
            0
        }
        Err(q) => u8::from(q),
    }
}
