// The calls of a note for C and Rust to link: opening, the check, and what reads; those that answer a number are in `numbers`. Each but the check
// returns 0, or document 01's number of the refusal.
#![tactic(auto)]

mod numbers;

ghost use Rattle.std.specs.Prelude.{◌≡◌, length};
ghost use Rattle.plain.specs.Outcome.{kept};
ghost use Rattle.plain_note.specs.Note.{copied, read_from, previewed};
ghost use Rattle.memory.specs.Formed.{well_formed, of_note};
ghost use Rattle.opening.specs.Opened.{opens};
ghost use Rattle.runs.specs.Runs.{run_of, preview_of};
ghost use Rattle.told.specs.Told.{code};
ghost use Rattle.note_c.specs.Told.{Copied};

use told::{code_of, tell};

#[unsafe(no_mangle)]
pub extern "C" fn wol_note_open(m: &mut [u8], n: usize) -> u8
    ensures { (result ≡ code (opens m.old n)) × (m.new ≡ kept m.old (opens m.old n)) }
{
    code_of(note::open(m, n))
}

#[unsafe(no_mangle)]
pub extern "C" fn wol_note_check(m: &[u8]) -> bool
    ensures { result ≡ well_formed m.now }
{
    note::check(m)
}

// The chars of [s, e) at the front of `out`, and through `count` how many bytes they are.
#[unsafe(no_mangle)]
pub extern "C" fn wol_note_copy(m: &[u8], s: usize, e: usize, out: &mut [u8], count: &mut u64) -> u8
    ensures { Copied (of_note m.now (λ N. copied N s e (length out.old))) out.old count.old result out.new count.new }
{
    tell(note::copy_out(m, s, e, out), count)
}

// The run itself, not a copy, through `part`: an empty one where it is refused. One that is not empty shows that the call was accepted, so that its
// companion, which checks the memory again, is asked of an empty one alone.
#[unsafe(no_mangle)]
pub extern "C" fn wol_note_run<'a>(m: &'a [u8], p: usize, part: &mut &'a [u8]) -> u8
    ensures { (result ≡ code (of_note m.now (λ N. read_from N p))) × (part.new.now ≡ run_of m.now p) }
{
    let run = note::run(m, p);
    *part = run;
    if run.len() != 0 {
        return 0;
    }
    code_of(note::run_refusal(m, p))
}

// The same of a preview.
#[unsafe(no_mangle)]
pub extern "C" fn wol_note_preview<'a>(
    m: &'a [u8],
    piece: &'a [u8],
    p: usize,
    q: usize,
    part: &mut &'a [u8],
) -> u8
    ensures { (result ≡ code (of_note m.now (λ N. previewed N p piece.now q))) × (part.new.now ≡ preview_of m.now p piece.now q) }
{
    let shown = note::preview(m, piece, p, q);
    *part = shown;
    if shown.len() != 0 {
        return 0;
    }
    code_of(note::preview_refusal(m, piece, p, q))
}
