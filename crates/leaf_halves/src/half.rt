// A piece put into a leaf, and where the whole is split near its half: found without joining them.
ghost use Rattle.std.specs.Prelude.{◌≡◌, ◌+◌, ◌-◌, ◌≤◌, ◌<◌, length, get_or, take, drop};
ghost use Rattle.plain.specs.Edit.{put_in};
ghost use Rattle.plain.specs.Outcome.{Outcome.value};
ghost use Rattle.answer.specs.Answers.{outcome};
ghost use Rattle.leaf_bytes.specs.Split.{half_split};

use answer::Answer;
use leaf_bytes::least;

// The byte at an index of the whole.
fn byte_at(leaf: &[u8], a: usize, string: &[u8], i: usize) -> u8
    requires { (a ≤ length leaf.now) × (i < length leaf.now + length string.now) }
    ensures { result ≡ get_or (put_in a string.now leaf.now) i 0 }
{
    if i < a {
        return leaf[i];
    }
    if i - a < string.len() {
        return string[i - a];
    }
    leaf[i - string.len()]
}

// The bytes [start, end) of the whole, in the front of a buffer of eight.
fn window(leaf: &[u8], a: usize, string: &[u8], start: usize, end: usize) -> [u8; 8]
    requires { (a ≤ length leaf.now) × (start ≤ end) × (end ≤ start + 8) × (end ≤ length leaf.now + length string.now) }
    ensures { (length result ≡ 8) × (take (end - start) result ≡ take (end - start) (drop start (put_in a string.now leaf.now))) }
{
    let mut buf = [0u8; 8];
    for i in start..end {
        buf[i - start] = byte_at(leaf, a, string, i);
    }
    buf
}

// Where the whole is split near its half.
pub(crate) fn half_split(leaf: &[u8], a: usize, string: &[u8]) -> Answer<usize>
    requires { (a ≤ length leaf.now) × (length leaf.now ≤ 512) × (length string.now ≤ 1024) }
    ensures { outcome result ≡ value (half_split (put_in a string.now leaf.now)) }
{
    let tot_len = leaf.len() + string.len();
    let mid_idx = tot_len / 2;
    let start = mid_idx - least(4, mid_idx);
    let end = least(mid_idx + 4, tot_len);
    let buf = window(leaf, a, string, start, end);
    let n = end - start;
    let i = crlf::nearest_internal_break(mid_idx - start, &buf[..n])?;
    Ok(i + start)
}
