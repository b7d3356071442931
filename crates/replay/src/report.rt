// The lines of standard output. One that cannot be written is let go.
use crate::input::Case;

pub(crate) fn write(rt: &impl Print, text: &[u8]) {
    let _written = rt.write_all(text);
}

// A text, and a number behind it.
fn write_with(rt: &impl Print, text: &[u8], n: u64) {
    write(rt, text);
    let _written = rt.print(n);
}

// The names of functions 1 to 6.
fn write_crlf_name(rt: &impl Print, f: usize) {
    match f {
        1 => write(rt, b"is_break"),
        2 => write(rt, b"seam_is_break"),
        3 => write(rt, b"prev_break"),
        4 => write(rt, b"next_break"),
        5 => write(rt, b"nearest_internal_break"),
        _ => write(rt, b"find_good_split"),
    }
}

// The names of functions 7 to 18.
fn write_count_name(rt: &impl Print, f: usize) {
    match f {
        7 => write(rt, b"count_chars"),
        8 => write(rt, b"byte_to_char_idx"),
        9 => write(rt, b"char_to_byte_idx"),
        10 => write(rt, b"count_utf16_surrogates"),
        11 => write(rt, b"count_line_breaks"),
        12 => write(rt, b"byte_to_line_idx"),
        13 => write(rt, b"line_to_byte_idx"),
        14 => write(rt, b"char_to_line_idx"),
        15 => write(rt, b"line_to_char_idx"),
        16 => write(rt, b"byte_to_utf16_surrogate_idx"),
        17 => write(rt, b"utf16_code_unit_to_char_idx"),
        _ => write(rt, b"last_line_start_byte_idx"),
    }
}

// The names of functions 22 to 31.
fn write_leaf_name(rt: &impl Print, f: usize) {
    match f {
        22 => write(rt, b"from_str"),
        23 => write(rt, b"insert_str"),
        24 => write(rt, b"insert_str_split"),
        25 => write(rt, b"push_str"),
        26 => write(rt, b"push_str_split"),
        27 => write(rt, b"truncate"),
        28 => write(rt, b"truncate_front"),
        29 => write(rt, b"remove_range"),
        30 => write(rt, b"split_off"),
        _ => write(rt, b"fix_segment_seam"),
    }
}

// The name of function f, from 1 to 31.
fn write_name(rt: &impl Print, f: usize) {
    match f {
        1..=6 => write_crlf_name(rt, f),
        7..=18 => write_count_name(rt, f),
        19 => write(rt, b"trim_line_break"),
        20 => write(rt, b"ends_with_line_break"),
        21 => write(rt, b"valid"),
        _ => write_leaf_name(rt, f),
    }
}

// The rest of a line that begins with a name.
pub(crate) fn write_counts(rt: &impl Print, cases: u32, differ: u32) {
    write_with(rt, b" ", cases as u64);
    write_with(rt, b" cases, ", differ as u64);
    write(rt, b" differ\n");
}

// A line for each function that has cases.
pub(crate) fn write_functions(rt: &impl Print, cases: &[u32; 32], differ: &[u32; 32]) {
    for f in 1..32 {
        if 0 < cases[f] {
            write_name(rt, f);
            write_counts(rt, cases[f], differ[f]);
        }
    }
}

// The first record that differs: its place, from 1, its function and our answer.
pub(crate) fn write_first(rt: &impl Print, k: u32, case: Case) {
    write_with(rt, b"record ", k as u64);
    write_with(rt, b": ", case.function as u64);
    write_with(rt, b" refused ", case.given.err().unwrap_or(0) as u64);
    write_with(rt, b" value ", case.given.unwrap_or(0) as u64);
    write(rt, b"\n");
}

// The place, from 1, of what is no record.
pub(crate) fn write_bad(rt: &impl Print, k: u32) {
    write_with(rt, b"bad record ", k as u64);
    write(rt, b"\n");
}
