// Runs document 01's fourteen on the calls as they are compiled. Writes a line for each item, and one numbered 0 for what it says of T itself: ok
// where every answer is the document's.
#![tactic(auto)]

mod bytes;
mod compare;
mod notes;

ghost use Rattle.std.specs.Prelude.{◌≡◌, length};

use std::io;

// What 17 slots need: 640 bytes each, and 6,144.
fn memory() -> [u8; 17024]
    ensures { 17024 ≡ length result }
{
    [0; 17024]
}

fn write_line(rt: &impl Print, item: u64, is_right: bool) -> io::Result<()> {
    if is_right {
        println!(rt; "{item} ok")
    } else {
        println!(rt; "{item} differs")
    }
}

fn main(rt: HostRuntime) -> io::Result<()> {
    let mut space = memory();
    let m: &mut [u8] = &mut space;
    write_line(&rt, 0, notes::holds_t(m))?;
    write_line(&rt, 1, notes::place_2(m))?;
    write_line(&rt, 2, notes::place_3(m))?;
    write_line(&rt, 3, notes::place_5(m))?;
    write_line(&rt, 4, notes::unit_5(m))?;
    write_line(&rt, 5, notes::byte_7(m))?;
    write_line(&rt, 6, notes::lines_2_and_3(m))?;
    write_line(&rt, 7, notes::x_put_in(m))?;
    write_line(&rt, 8, notes::x_taken_out(m))?;
    write_line(&rt, 9, bytes::nearest_break())?;
    write_line(&rt, 10, bytes::good_splits())?;
    write_line(&rt, 11, bytes::a_cr_with_lf())?;
    write_line(&rt, 12, bytes::cr_with_lf())?;
    write_line(&rt, 13, bytes::three_and_six())?;
    write_line(&rt, 14, notes::full(m))
}
