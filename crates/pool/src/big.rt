// Numbers of two and four bytes, the most significant first.
ghost use Rattle.std.specs.Prelude.{◌≡◌, ◌+◌, ◌≤◌, ◌<◌, length};
ghost use Rattle.octets.specs.Over.{overlaid};
ghost use Rattle.octets.specs.Big.{two_at, four_at, bytes_of2, bytes_of4};

fn wide(x: u8) -> u32
    ensures { (result ≡ x) × (result < 256) }
{
    x as u32
}

pub(crate) fn read_u16(m: &[u8], at: usize) -> u32
    requires { at + 2 ≤ length m.now }
    ensures { (result ≡ two_at m.now at) × (result < 65536) }
{
    wide(m[at]) * 256 + wide(m[at + 1])
}

pub(crate) fn read_u32(m: &[u8], at: usize) -> u32
    requires { at + 4 ≤ length m.now }
    ensures { result ≡ four_at m.now at }
{
    read_u16(m, at) * 65536 + read_u16(m, at + 2)
}

pub(crate) fn write_u16(m: &mut [u8], at: usize, v: u32)
    requires { at + 2 ≤ length m.old }
    ensures { m.new ≡ overlaid at (bytes_of2 v) m.old }
{
    m[at] = (v / 256 % 256) as u8;
    m[at + 1] = (v % 256) as u8;
}

pub(crate) fn write_u32(m: &mut [u8], at: usize, v: u32)
    requires { at + 4 ≤ length m.old }
    ensures { m.new ≡ overlaid at (bytes_of4 v) m.old }
{
    write_u16(m, at, v / 65536);
    write_u16(m, at + 2, v % 65536);
}
