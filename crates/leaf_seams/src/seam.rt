// Where the seam of two leaves is moved to, so that it is a break.
ghost use Rattle.std.specs.Prelude.{◌≡◌, false, ◌++◌, ◌+◌, ◌≤◌, ◌<◌, length};
ghost use Rattle.plain.specs.Outcome.{Outcome.value};
ghost use Rattle.answer.specs.Answers.{outcome};
ghost use Rattle.crlf.specs.Break.{is_break};
ghost use Rattle.leaf_bytes.specs.Split.{seam_split, split_beside};

use answer::Answer;

// The left split where it is not 0 and either the right split is the total length or the left leaf is longer; else the right split.
fn beside(l_len: usize, r_len: usize, l_split: usize, r_split: usize) -> usize
    requires { l_len + r_len < 65536 }
    ensures { result ≡ split_beside l_len r_len l_split r_split }
{
    if l_split == 0 {
        return r_split;
    }
    if r_split == l_len + r_len {
        return l_split;
    }
    if r_len < l_len {
        return l_split;
    }
    r_split
}

// The split beside a seam that is no break.
fn split_beside(l: &[u8], r: &[u8]) -> Answer<usize>
    requires { (length l.now ≤ 512) × (length r.now ≤ 512) × (is_break (l.now ++ r.now) (length l.now) ≡ false) }
    ensures { outcome result ≡ value (seam_split l.now r.now) }
{
    let l_split = crlf::prev_break(l.len(), l)?;
    let next = crlf::next_break(0, r)?;
    Ok(beside(l.len(), r.len(), l_split, l.len() + next))
}

// Where the seam is moved to: nowhere, if it is a break.
pub(crate) fn seam_split(l: &[u8], r: &[u8]) -> Answer<usize>
    requires { (0 < length l.now) × (0 < length r.now) × (length l.now ≤ 512) × (length r.now ≤ 512) }
    ensures { outcome result ≡ value (seam_split l.now r.now) }
{
    let is_break = crlf::seam_is_break(l, r)?;
    if is_break {
        return Ok(l.len());
    }
    split_beside(l, r)
}
