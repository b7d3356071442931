// One field of a journal done on the lent memory: by its tag and body, or the one at the front of some bytes. Both are total.
#![tactic(auto)]

ghost use Rattle.std.specs.Prelude.{◌≡◌};
ghost use Rattle.answer.specs.Answers.{outcome};
ghost use Rattle.plain_journal.specs.Fields.{asked};
ghost use Rattle.plain_journal.specs.Replay.{code_of};
ghost use Rattle.journal_fields.specs.Applied.{Applied, Takes};

use answer::Answer;
use framing::field_bytes;
use octets::number_at;

// What became of a field: it is bad, or its number, 0 where it was accepted or that of its refusal.
#[derive(Clone, Copy)]
pub enum Done {
    Bad,
    Code(u8),
}

// What became of the field at the front of some bytes: it is not all there; or how many bytes it has, and what was done.
#[derive(Clone, Copy)]
pub enum Front {
    Short,
    Whole { used: usize, done: Done },
}

fn code_of<T: Drop>(answer: Answer<T>) -> u8
    ensures { result ≡ code_of (outcome answer) }
{
    match answer {
        Ok(_) => 0,
        Err(why) => u8::from(why),
    }
}

// Tag 1: a place, and the piece.
fn insert_field(m: &mut [u8], body: &[u8]) -> Done
    ensures { Applied (asked 1 body.now) m.old result m.new }
{
    if body.len() < 4 {
        return Done::Bad;
    }
    let place = number_at(body, 0) as usize;
    let answer = note::insert(m, place, &body[4..]);
    Done::Code(code_of(answer))
}

// Tag 2: start and end.
fn remove_field(m: &mut [u8], body: &[u8]) -> Done
    ensures { Applied (asked 2 body.now) m.old result m.new }
{
    if body.len() != 8 {
        return Done::Bad;
    }
    let start = number_at(body, 0) as usize;
    let end = number_at(body, 4) as usize;
    let answer = note::remove(m, start, end);
    Done::Code(code_of(answer))
}

// Tag 3: the place of a mark.
fn mark_field(m: &mut [u8], body: &[u8]) -> Done
    ensures { Applied (asked 3 body.now) m.old result m.new }
{
    if body.len() != 4 {
        return Done::Bad;
    }
    let place = number_at(body, 0) as usize;
    let answer = note::set_mark(m, place);
    Done::Code(code_of(answer))
}

// A field of any tag.
pub fn apply(m: &mut [u8], tag: u8, body: &[u8]) -> Done
    ensures { Applied (asked tag body.now) m.old result m.new }
{
    if tag == 1 {
        return insert_field(m, body);
    }
    if tag == 2 {
        return remove_field(m, body);
    }
    if tag == 3 {
        return mark_field(m, body);
    }
    Done::Bad
}

// The field at the front of s, if it is all there.
pub fn take_field(m: &mut [u8], s: &[u8]) -> Front
    ensures { Takes m.old m.new s.now result }
{
    let used = field_bytes(s);
    if used == 0 {
        return Front::Short;
    }
    let done = apply(m, s[0], &s[3..used]);
    Front::Whole { used, done }
}
