// The one form of answer, of the answers that the calls give.
ghost use Rattle.std.specs.Prelude.{◌≡◌};
ghost use Rattle.plain.specs.Outcome.{mapped};
ghost use Rattle.answer.specs.Answers.{outcome};
ghost use Rattle.list_calls.specs.Asked.{none, told, sums, spot, spot_chars, spots};

use crate::Five;
use answer::Answer;
use text_info::TextSum;

// The answer of a call that has none but its verdict.
pub(crate) fn of_verdict(v: Answer<()>) -> Answer<Five>
    ensures { outcome result ≡ mapped (λ _. none) (outcome v) }
{
    v?;
    Ok((0, 0, 0, 0, 0))
}

// A yes is 1.
pub(crate) fn of_truth(t: Answer<bool>) -> Answer<Five>
    ensures { outcome result ≡ mapped told (outcome t) }
{
    let yes = t?;
    if yes {
        return Ok((1, 0, 0, 0, 0));
    }
    Ok((0, 0, 0, 0, 0))
}

pub(crate) fn of_sum(s: Answer<TextSum>) -> Answer<Five>
    ensures { outcome result ≡ mapped sums (outcome s) }
{
    let t = s?;
    Ok((
        0,
        t.bytes as usize,
        t.chars as usize,
        t.utf16_surrogates as usize,
        t.line_breaks as usize,
    ))
}

pub(crate) fn of_found(f: Answer<(usize, TextSum)>) -> Answer<Five>
    ensures { outcome result ≡ mapped spot (outcome f) }
{
    let (i, t) = f?;
    Ok((
        i,
        t.bytes as usize,
        t.chars as usize,
        t.utf16_surrogates as usize,
        t.line_breaks as usize,
    ))
}

pub(crate) fn of_chars(f: Answer<(usize, usize)>) -> Answer<Five>
    ensures { outcome result ≡ mapped spot_chars (outcome f) }
{
    let (i, n) = f?;
    Ok((i, n, 0, 0, 0))
}

pub(crate) fn of_range(f: Answer<((usize, usize), (usize, usize))>) -> Answer<Five>
    ensures { outcome result ≡ mapped spots (outcome f) }
{
    match f {
        Err(r) => Err(r),
        Ok(((i, n), (j, k))) => Ok((i, n, j, k, 0)),
    }
}
