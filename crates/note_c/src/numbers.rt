// The calls of a note that answer a number, for C and Rust to link. The number is written through `out`; a refusal writes nothing and is returned.
ghost use Rattle.std.specs.Prelude.{length};
ghost use Rattle.plain.specs.Count.{lines};
ghost use Rattle.plain.specs.Outcome.{Outcome.value};
ghost use Rattle.plain.specs.Place.{Measure.byte, Measure.char, Measure.unit, Measure.line, bytes, units};
ghost use Rattle.plain_note.specs.Note.{converted};
ghost use Rattle.plain_calls.specs.Marks.{standing, line_beside};
ghost use Rattle.memory.specs.Formed.{of_note};
ghost use Rattle.told.specs.Told.{Told};

use told::tell;

// How many bytes the note has.
#[unsafe(no_mangle)]
pub extern "C" fn wol_note_len_bytes(m: &[u8], out: &mut u64) -> u8
    ensures { Told (of_note m.now (λ N. value (bytes N.text))) out.old result out.new }
{
    tell(note::len_bytes(m), out)
}

// How many chars.
#[unsafe(no_mangle)]
pub extern "C" fn wol_note_len_chars(m: &[u8], out: &mut u64) -> u8
    ensures { Told (of_note m.now (λ N. value (length N.text))) out.old result out.new }
{
    tell(note::len_chars(m), out)
}

// How many UTF-16 units.
#[unsafe(no_mangle)]
pub extern "C" fn wol_note_len_utf16_cu(m: &[u8], out: &mut u64) -> u8
    ensures { Told (of_note m.now (λ N. value (units N.text))) out.old result out.new }
{
    tell(note::len_utf16_cu(m), out)
}

// How many lines.
#[unsafe(no_mangle)]
pub extern "C" fn wol_note_len_lines(m: &[u8], out: &mut u64) -> u8
    ensures { Told (of_note m.now (λ N. value (lines N.text))) out.old result out.new }
{
    tell(note::len_lines(m), out)
}

// The number of slots that it was opened with.
#[unsafe(no_mangle)]
pub extern "C" fn wol_note_slots(m: &[u8], out: &mut u64) -> u8
    ensures { Told (of_note m.now (λ N. value N.n)) out.old result out.new }
{
    tell(note::slots(m), out)
}

// The edit number.
#[unsafe(no_mangle)]
pub extern "C" fn wol_note_edit_number(m: &[u8], out: &mut u64) -> u8
    ensures { Told (of_note m.now (λ N. value N.edit)) out.old result out.new }
{
    tell(note::edit_number(m), out)
}

// The place of the char that a byte lies in.
#[unsafe(no_mangle)]
pub extern "C" fn wol_note_byte_to_char(m: &[u8], i: usize, out: &mut u64) -> u8
    ensures { Told (of_note m.now (λ N. converted byte char N i)) out.old result out.new }
{
    tell(note::byte_to_char(m, i), out)
}

// The bytes before a place.
#[unsafe(no_mangle)]
pub extern "C" fn wol_note_char_to_byte(m: &[u8], i: usize, out: &mut u64) -> u8
    ensures { Told (of_note m.now (λ N. converted char byte N i)) out.old result out.new }
{
    tell(note::char_to_byte(m, i), out)
}

// The line of the char that a byte lies in.
#[unsafe(no_mangle)]
pub extern "C" fn wol_note_byte_to_line(m: &[u8], i: usize, out: &mut u64) -> u8
    ensures { Told (of_note m.now (λ N. converted byte line N i)) out.old result out.new }
{
    tell(note::byte_to_line(m, i), out)
}

// The bytes before a line.
#[unsafe(no_mangle)]
pub extern "C" fn wol_note_line_to_byte(m: &[u8], i: usize, out: &mut u64) -> u8
    ensures { Told (of_note m.now (λ N. converted line byte N i)) out.old result out.new }
{
    tell(note::line_to_byte(m, i), out)
}

// The line of a place.
#[unsafe(no_mangle)]
pub extern "C" fn wol_note_char_to_line(m: &[u8], i: usize, out: &mut u64) -> u8
    ensures { Told (of_note m.now (λ N. converted char line N i)) out.old result out.new }
{
    tell(note::char_to_line(m, i), out)
}

// The place that a line begins at.
#[unsafe(no_mangle)]
pub extern "C" fn wol_note_line_to_char(m: &[u8], i: usize, out: &mut u64) -> u8
    ensures { Told (of_note m.now (λ N. converted line char N i)) out.old result out.new }
{
    tell(note::line_to_char(m, i), out)
}

// The UTF-16 units before a place.
#[unsafe(no_mangle)]
pub extern "C" fn wol_note_char_to_utf16_cu(m: &[u8], i: usize, out: &mut u64) -> u8
    ensures { Told (of_note m.now (λ N. converted char unit N i)) out.old result out.new }
{
    tell(note::char_to_utf16_cu(m, i), out)
}

// The place of the char that a UTF-16 unit lies in.
#[unsafe(no_mangle)]
pub extern "C" fn wol_note_utf16_cu_to_char(m: &[u8], i: usize, out: &mut u64) -> u8
    ensures { Told (of_note m.now (λ N. converted unit char N i)) out.old result out.new }
{
    tell(note::utf16_cu_to_char(m, i), out)
}

// The place of a mark.
#[unsafe(no_mangle)]
pub extern "C" fn wol_note_mark_place(m: &[u8], k: usize, out: &mut u64) -> u8
    ensures { Told (of_note m.now (λ N. standing N k)) out.old result out.new }
{
    tell(note::mark_place(m, k), out)
}

// The line beside a mark.
#[unsafe(no_mangle)]
pub extern "C" fn wol_note_mark_line(m: &[u8], k: usize, out: &mut u64) -> u8
    ensures { Told (of_note m.now (λ N. line_beside N k)) out.old result out.new }
{
    tell(note::mark_line(m, k), out)
}
