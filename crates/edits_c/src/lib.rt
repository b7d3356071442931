// The calls that change a note for C and Rust to link: its edits, and its marks. Each returns 0, or document 01's number of the refusal.
#![tactic(auto)]

ghost use Rattle.std.specs.Prelude.{◌≡◌, []};
ghost use Rattle.plain.specs.Outcome.{kept};
ghost use Rattle.plain_calls.specs.Calls.{inserting, removing, setting, dropping};
ghost use Rattle.answer.specs.Answers.{outcome};
ghost use Rattle.note_head.specs.Writes.{live_put};
ghost use Rattle.marks.specs.MarkBytes.{mark_put};
ghost use Rattle.memory.specs.Formed.{of_note};
ghost use Rattle.told.specs.Told.{code};
ghost use Rattle.edits_c.specs.Told.{Told, EditTold, MarkTold};

use answer::Answer;
use told::{code_of, tell};

// Writes the change through `out`; a refusal writes nothing.
fn tell_change(a: Answer<i64>, out: &mut i64) -> u8
    ensures { (result ≡ code (outcome a)) × (out.new ≡ kept out.old (outcome a)) }
{
    match a {
        Ok(n) => {
            *out = n;
            0
        }
        Err(q) => u8::from(q),
    }
}

// A piece put in at a place; through `change`, how many lines more the note has.
#[unsafe(no_mangle)]
pub extern "C" fn wol_note_insert(m: &mut [u8], p: usize, piece: &[u8], change: &mut i64) -> u8
    ensures { EditTold (λ N. inserting N p piece.now) p p piece.now m.old m.new × Told (λ N. inserting N p piece.now) m.old change.old result change.new }
{
    tell_change(note::insert(m, p, piece), change)
}

// The chars of [s, e) taken out.
#[unsafe(no_mangle)]
pub extern "C" fn wol_note_remove(m: &mut [u8], s: usize, e: usize, change: &mut i64) -> u8
    ensures { EditTold (λ N. removing N s e) s e [] m.old m.new × Told (λ N. removing N s e) m.old change.old result change.new }
{
    tell_change(note::remove(m, s, e), change)
}

// A mark set at a place; through `mark`, its number.
#[unsafe(no_mangle)]
pub extern "C" fn wol_note_set_mark(m: &mut [u8], p: usize, mark: &mut u64) -> u8
    ensures { MarkTold (λ N. setting N p) (λ k. mark_put m.old k p) m.old m.new × Told (λ N. setting N p) m.old mark.old result mark.new }
{
    tell(note::set_mark(m, p), mark)
}

// A mark freed.
#[unsafe(no_mangle)]
pub extern "C" fn wol_note_drop_mark(m: &mut [u8], mark: usize) -> u8
    ensures { MarkTold (λ N. dropping N mark) (λ u. live_put m.old mark 0) m.old m.new × (result ≡ code (of_note m.old (λ N. dropping N mark))) }
{
    code_of(note::drop_mark(m, mark))
}
