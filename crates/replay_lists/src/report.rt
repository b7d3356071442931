// The lines of standard output. One that cannot be written is let go.

fn write(rt: &impl Print, text: &[u8]) {
    let _written = rt.write_all(text);
}

// A text, and a number behind it.
fn write_with(rt: &impl Print, text: &[u8], n: u64) {
    write(rt, text);
    let _written = rt.print(n);
}

// The line for all records.
pub(crate) fn write_counts(rt: &impl Print, records: u32, differ: u32) {
    write_with(rt, b"replayed ", records as u64);
    write_with(rt, b" cases, ", differ as u64);
    write(rt, b" differ\n");
}

// The first record that differs: its place, from 1, and its call.
pub(crate) fn write_first(rt: &impl Print, k: u32, call: u8) {
    write_with(rt, b"record ", k as u64);
    write_with(rt, b": call ", call as u64);
    write(rt, b"\n");
}

// The place, from 1, of what is no record.
pub(crate) fn write_bad(rt: &impl Print, k: u32) {
    write_with(rt, b"bad record ", k as u64);
    write(rt, b"\n");
}
