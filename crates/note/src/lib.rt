// The public calls of a note in memory that the caller lends. Each takes the memory as it lies and is total: but for opening it is refused by 2 where
// the memory is not well formed, and by the lowest number of document 01 that applies; a refused call changes no byte. What a call answers and leaves is
// said on the plain note that the memory means (crate plain_calls).
#![tactic(auto)]

ghost use Rattle.std.specs.Prelude.{[]};
ghost use Rattle.plain_calls.specs.Calls.{inserting, removing};
ghost use Rattle.answer.specs.Answers.{outcome};
ghost use Rattle.note_promise.specs.Called.{EditCalled};

use answer::Answer;
use marks::follow;
use str_indices::chars;

// ── opening, and whether memory is well formed ──

pub use memory::check;
pub use opening::open;

// ── what only reads: lengths, n, the edit number, conversions; copies, runs and previews ──

pub use conversions::{
    byte_to_char, byte_to_line, char_to_byte, char_to_line, char_to_utf16_cu, line_to_byte,
    line_to_char, utf16_cu_to_char,
};
pub use copy_out::copy_out;
pub use readings::{edit_number, len_bytes, len_chars, len_lines, len_utf16_cu, slots};
pub use runs::{preview, preview_refusal, run, run_refusal};

// ── a reader, which hands the note out run by run and checks the memory once ──

pub use reader::{Reader, behind, reader_at, reader_refusal, run_of};

// ── marks ──

pub use mark_calls::{drop_mark, mark_line, mark_place, set_mark};

// ── edits: how many lines more the note has ──

// A piece put in at a place. Marks at or behind it move on, and the edit number rises; an empty piece changes nothing at all.
pub fn insert(m: &mut [u8], p: usize, piece: &[u8]) -> Answer<i64>
    ensures { EditCalled (λ N. inserting N p piece.now) p p piece.now m.old (outcome result) m.new }
{
    let done = note_edits::insert(m, p, piece);
    let Ok(_) = done else {
        return done;
    };
    if piece.len() == 0 {
        return done;
    }
    follow(m, p, p, chars::count(piece) as u32)?;
    done
}

// The chars of [s, e) taken out. Marks among them go to s, those behind move back, and the edit number rises; an empty range changes nothing at all.
pub fn remove(m: &mut [u8], s: usize, e: usize) -> Answer<i64>
    ensures { EditCalled (λ N. removing N s e) s e [] m.old (outcome result) m.new }
{
    let done = note_edits::remove(m, s, e);
    let Ok(_) = done else {
        return done;
    };
    if s == e {
        return done;
    }
    follow(m, s, e, 0)?;
    done
}
