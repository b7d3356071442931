// The items of the note, on the calls of crate note.
use crate::compare::{changes, is, is_refused, is_refused_change};
use answer::Answer;
use note::{
    char_to_byte, char_to_line, char_to_utf16_cu, insert, line_to_char, mark_line, mark_place,
    set_mark,
};

// An empty note of 17 slots in the memory.
fn opens(m: &mut [u8]) -> bool {
    match note::open(m, 17) {
        Ok(()) => true,
        Err(_) => false,
    }
}

// T in a new note, and marks 0, 1 and 2 at its places 1, 2 and 3.
fn makes_t(m: &mut [u8]) -> bool {
    opens(m)
        & changes(insert(m, 0, b"a\r\n\xC3\xA9\xF0\x9F\x98\x80b"), 1)
        & is(set_mark(m, 1), 0)
        & is(set_mark(m, 2), 1)
        & is(set_mark(m, 3), 2)
}

// T is made, and has 10 bytes, 6 chars, 7 units and 2 lines.
pub(crate) fn holds_t(m: &mut [u8]) -> bool {
    makes_t(m)
        & is(note::len_bytes(m), 10)
        & is(note::len_chars(m), 6)
        & is(note::len_utf16_cu(m), 7)
        & is(note::len_lines(m), 2)
}

pub(crate) fn place_2(m: &[u8]) -> bool {
    is(char_to_byte(m, 2), 2) & is(char_to_line(m, 2), 0)
}

pub(crate) fn place_3(m: &[u8]) -> bool {
    is(char_to_byte(m, 3), 3) & is(char_to_utf16_cu(m, 3), 3) & is(char_to_line(m, 3), 1)
}

pub(crate) fn place_5(m: &[u8]) -> bool {
    is(char_to_byte(m, 5), 9) & is(char_to_utf16_cu(m, 5), 6)
}

pub(crate) fn unit_5(m: &[u8]) -> bool {
    is(note::utf16_cu_to_char(m, 5), 4)
}

pub(crate) fn byte_7(m: &[u8]) -> bool {
    is(note::byte_to_char(m, 7), 4)
}

pub(crate) fn lines_2_and_3(m: &[u8]) -> bool {
    is(line_to_char(m, 2), 6) & is_refused(line_to_char(m, 3), 3)
}

// x at 2: the change, the lines, and the marks.
pub(crate) fn x_put_in(m: &mut [u8]) -> bool {
    changes(insert(m, 2, b"x"), 1)
        & is(note::len_lines(m), 3)
        & is(mark_place(m, 0), 1)
        & is(mark_place(m, 1), 3)
        & is(mark_line(m, 1), 1)
        & is(mark_place(m, 2), 4)
        & is(mark_line(m, 2), 2)
}

pub(crate) fn x_taken_out(m: &mut [u8]) -> bool {
    changes(note::remove(m, 2, 3), -1)
}

// In a new note of 17 slots 65 bytes are refused, and 64 are not.
pub(crate) fn full(m: &mut [u8]) -> bool {
    let letters = [b'a'; 65];
    opens(m)
        & is_refused_change(insert(m, 0, &letters), 6)
        & changes(insert(m, 0, &letters[..64]), 0)
}
