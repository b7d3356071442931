// Whether an answer is the one that is due: true only where it is.
ghost use Rattle.std.specs.Prelude.{◌≡◌, true};
ghost use Rattle.plain.specs.Outcome.{Outcome.value, Outcome.refused};
ghost use Rattle.answer.specs.Answers.{outcome};

use answer::Answer;

pub(crate) fn is(a: Answer<usize>, due: usize) -> bool
    ensures { result ≡ true → outcome a ≡ value due }
{
    match a {
        Ok(n) => n == due,
        Err(_) => false,
    }
}

pub(crate) fn is_refused(a: Answer<usize>, due: u8) -> bool
    ensures { result ≡ true → outcome a ≡ refused due }
{
    match a {
        Ok(_) => false,
        Err(r) => u8::from(r) == due,
    }
}

pub(crate) fn changes(a: Answer<i64>, due: i64) -> bool
    ensures { result ≡ true → outcome a ≡ value due }
{
    match a {
        Ok(d) => d == due,
        Err(_) => false,
    }
}

pub(crate) fn is_refused_change(a: Answer<i64>, due: u8) -> bool
    ensures { result ≡ true → outcome a ≡ refused due }
{
    match a {
        Ok(_) => false,
        Err(r) => u8::from(r) == due,
    }
}
