// A piece put into a leaf, and the whole split near its half. Beside `leaf_bytes`, and on any bytes as there.
#![tactic(auto)]

mod half;
mod sides;

ghost use Rattle.leaf_bytes.specs.Leaf.{Leaves};
ghost use Rattle.leaf_bytes.specs.Raw.{halving};

use answer::{Answer, Refusal};
use half::half_split;
use leaf_bytes::{MAX_BYTES, least, room};
use sides::lay_halves;

// The left side stays where it lies, the right one is laid into another region.
pub fn halve(
    region: &mut [u8],
    len: usize,
    at: usize,
    piece: &[u8],
    right: &mut [u8],
) -> Answer<(usize, usize)>
    ensures { Leaves (halving region.old len at piece.now right.old) region.old right.old result region.new right.new }
{
    let held = least(len, region.len());
    if held < at {
        return Err(Refusal::Place);
    }
    if room(region) < len {
        return Err(Refusal::Size);
    }
    if 2 * MAX_BYTES < piece.len() {
        return Err(Refusal::Size);
    }
    let split = half_split(&region[..len], at, piece)?;
    lay_halves(region, len, at, piece, split, right)
}
