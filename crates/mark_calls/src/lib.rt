// The public calls on a note's marks: one set, one dropped, and where one stands. Each is refused by 2 where the memory is not well formed, and a refused call changes
// no byte.
#![tactic(auto)]

ghost use Rattle.std.specs.Prelude.{◌≡◌};
ghost use Rattle.answer.specs.Answers.{outcome};
ghost use Rattle.plain_calls.specs.Marks.{standing, line_beside};
ghost use Rattle.plain_calls.specs.Calls.{setting, dropping};
ghost use Rattle.note_head.specs.Writes.{live_put};
ghost use Rattle.memory.specs.Formed.{of_note};
ghost use Rattle.marks.specs.MarkBytes.{mark_put};
ghost use Rattle.note_promise.specs.Called.{MarkCalled};

use answer::{Answer, Refusal};
use marks::{lowest_free, set_at, standing_at};
use note_head::{MARKS, chars_of, set_mark_live};

// A mark at a place: it takes the lowest free number.
pub fn set_mark(m: &mut [u8], p: usize) -> Answer<usize>
    ensures { MarkCalled (λ N. setting N p) (λ k. mark_put m.old k p) m.old (outcome result) m.new }
{
    if !memory::check(m) {
        return Err(Refusal::Memory);
    }
    if chars_of(m) < p {
        return Err(Refusal::Place);
    }
    let k = lowest_free(m);
    if MARKS <= k {
        return Err(Refusal::Marks);
    }
    set_at(m, k, p as u32)?;
    Ok(k)
}

// Mark k is free again.
pub fn drop_mark(m: &mut [u8], k: usize) -> Answer<()>
    ensures { MarkCalled (λ N. dropping N k) (λ u. live_put m.old k 0) m.old (outcome result) m.new }
{
    if !memory::check(m) {
        return Err(Refusal::Memory);
    }
    standing_at(m, k)?;
    set_mark_live(m, k, 0)
}

// Where mark k stands.
pub fn mark_place(m: &[u8], k: usize) -> Answer<usize>
    ensures { outcome result ≡ of_note m.now (λ N. standing N k) }
{
    if !memory::check(m) {
        return Err(Refusal::Memory);
    }
    standing_at(m, k)
}

// The line beside mark k.
pub fn mark_line(m: &[u8], k: usize) -> Answer<usize>
    ensures { outcome result ≡ of_note m.now (λ N. line_beside N k) }
{
    let place = standing_at(m, k);
    let Ok(p) = place else {
        if !memory::check(m) {
            return Err(Refusal::Memory);
        }
        return place;
    };
    conversions::char_to_line(m, p)
}
