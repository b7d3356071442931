// Opening: lent memory, whatever it held, becomes an empty note of n slots without marks, its edit number 0.
#![tactic(auto)]

ghost use Rattle.std.specs.Prelude.{◌≡◌, ◌+◌, ◌-◌, ◌*◌, ◌≤◌, length};
ghost use Rattle.plain_note.specs.Note.{head_size};
ghost use Rattle.plain.specs.Outcome.{Outcome.value};
ghost use Rattle.answer.specs.Answers.{outcome};
ghost use Rattle.octets.specs.Over.{overlaid};
ghost use Rattle.pool.specs.Slot.{slot_start};
ghost use Rattle.pool.specs.Calls.{Wrote};
ghost use Rattle.opening.specs.Opened.{zero_bytes, new_head, frees_put, opens};

use answer::{Answer, Refusal};
use memory::{MAX_SLOTS, MIN_SLOTS};
use note_head::{EDIT_AT, FREE_AT, set_first_free, set_slots};
use pool::{HEAD_BYTES, SLOT_BYTES, set_free, set_leaf};

// Zeros from `start` up to `end`.
fn clear(m: &mut [u8], start: usize, end: usize)
    requires { (start ≤ end) × (end ≤ length m.old) }
    ensures { m.new ≡ overlaid start (zero_bytes (end - start)) m.old }
{
    m[start..end].fill(0);
}

// The memory's head.
fn put_head(m: &mut [u8], n: u32) -> Answer<()>
    requires { head_size ≤ length m.old }
    ensures { (outcome result ≡ value tt) × (m.new ≡ overlaid 0 (new_head n) m.old) }
{
    set_slots(m, n)?;
    clear(m, EDIT_AT, FREE_AT);
    set_first_free(m, 1)?;
    clear(m, FREE_AT + 4, HEAD_BYTES);
    Ok(())
}

// Makes the slots from 1 to n - 1 free, each naming the next, and the last n.
fn free_slots(m: &mut [u8], n: usize) -> Answer<()>
    requires { (1 ≤ n) × (n ≤ 4096) × (slot_start n ≤ length m.old) }
    ensures { (outcome result ≡ value tt) × (m.new ≡ frees_put m.old 1 (n - 1)) }
{
    for i in 1..n {
        set_free(m, i, (i + 1) as u32)?;
    }
    Ok(())
}

// Refused by 1 where n is not from 17 to 4,096, or the memory shorter than the need; what lies beyond the need stays as it was.
pub fn open(m: &mut [u8], n: usize) -> Answer<()>
    ensures { Wrote (opens m.old n) m.old result m.new }
{
    if n < MIN_SLOTS {
        return Err(Refusal::Opening);
    }
    if MAX_SLOTS < n {
        return Err(Refusal::Opening);
    }
    if m.len() < SLOT_BYTES * n + HEAD_BYTES {
        return Err(Refusal::Opening);
    }
    put_head(m, n as u32)?;
    set_leaf(m, 0, 0)?;
    free_slots(m, n)
}
