// Two leaves whose seam is moved to a break, if it is none. Beside `leaf_bytes`, and on any bytes as there.
#![tactic(auto)]

mod seam;
mod shift;

ghost use Rattle.leaf_bytes.specs.Leaf.{Leaves};
ghost use Rattle.leaf_bytes.specs.Raw.{mending};

use answer::{Answer, Refusal};
use leaf_bytes::{least, room};
use seam::seam_split;
use shift::move_seam;

// Each leaf stays in its region, and bytes between the seam and where it is moved to change sides.
pub fn mend(
    left: &mut [u8],
    len: usize,
    right: &mut [u8],
    right_len: usize,
) -> Answer<(usize, usize)>
    ensures { Leaves (mending left.old len right.old right_len) left.old right.old result left.new right.new }
{
    if least(len, left.len()) == 0 {
        return Err(Refusal::Side);
    }
    if least(right_len, right.len()) == 0 {
        return Err(Refusal::Side);
    }
    if room(left) < len {
        return Err(Refusal::Size);
    }
    if room(right) < right_len {
        return Err(Refusal::Size);
    }
    let split = seam_split(&left[..len], &right[..right_len])?;
    move_seam(left, len, right, right_len, split)
}
