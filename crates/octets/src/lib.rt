// Bytes and big-endian numbers read anywhere in bytes. Each function is total: a byte past the end counts as 0.
#![tactic(auto)]

ghost use Rattle.std.specs.Prelude.{◌≡◌, ◌<◌, get_or};
ghost use Rattle.octets.specs.Big.{two_at, four_at};

pub fn byte_at(m: &[u8], at: usize) -> u8
    ensures { result ≡ get_or m.now at 0 }
{
    if at < m.len() {
        return m[at];
    }
    0
}

// The number of two bytes, the most significant first, and of four.
pub fn two_at(m: &[u8], at: usize) -> u32
    ensures { (result ≡ two_at m.now at) × (result < 65536) }
{
    if m.len() <= at {
        return 0;
    }
    u32::from(byte_at(m, at)) * 256 + u32::from(byte_at(m, at + 1))
}

pub fn number_at(m: &[u8], at: usize) -> u32
    ensures { (result ≡ four_at m.now at) × (result < 4294967296) }
{
    if m.len() <= at {
        return 0;
    }
    let upper = two_at(m, at) * 65536;
    if m.len() - at <= 2 {
        return upper;
    }
    upper + two_at(m, at + 2)
}
