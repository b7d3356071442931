// The field at the front of some bytes: how long it is.
#![tactic(auto)]

ghost use Rattle.std.specs.Prelude.{◌≡◌, cond, ◌≤◌};
ghost use Rattle.framing.specs.Field.{field_bytes, is_whole};

use octets::two_at;

// How many bytes the field at the front takes: 0 where it is not all there.
pub fn field_bytes(s: &[u8]) -> usize
    ensures { (result ≡ cond (is_whole s.now) (field_bytes s.now) 0) × (field_bytes s.now ≤ 65538) }
{
    let n = 3 + two_at(s, 1) as usize;
    if s.len() < n {
        return 0;
    }
    n
}
