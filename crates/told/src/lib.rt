// What C is told of an answer: 0, or document 01's number of the refusal, and a number through a pointer. Static libraries share it.
#![tactic(auto)]

ghost use Rattle.std.specs.Prelude.{◌≡◌};
ghost use Rattle.answer.specs.Answers.{outcome};
ghost use Rattle.told.specs.Told.{code, Told};

use answer::Answer;

// What C is told of a verdict: 0, or the number of the refusal.
pub fn code_of(v: Answer<()>) -> u8
    ensures { result ≡ code (outcome v) }
{
    v.err().map_or(0, u8::from)
}

// The same of a number, which is written through `out`; a refusal writes nothing.
pub fn tell(a: Answer<usize>, out: &mut u64) -> u8
    ensures { Told (outcome a) out.old result out.new }
{
    match a {
        Ok(n) => {
            *out = n as u64;
            0
        }
        Err(q) => u8::from(q),
    }
}
