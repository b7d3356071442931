// The free slots of the lent memory, a chain: its first slot taken, and a slot given back as its first. Each function is total; a refused
// call changes no byte.
#![tactic(auto)]

ghost use Rattle.pool.specs.Calls.{Wrote};
ghost use Rattle.free_slots.specs.Slots.{taken, given, Took};

use answer::{Answer, Refusal};
use note_head::{first_free, set_first_free};
use pool::{Head, head_of, set_free};

// The last slot that 32 bits name.
pub const LAST_SLOT: usize = 4294967295;

// The first free slot, which leaves the chain: refused by 2 where it is none.
pub fn take_slot(m: &mut [u8]) -> Answer<usize>
    ensures { Took (taken m.old) m.old result m.new }
{
    let slot = first_free(m);
    let Head::Free(next) = head_of(m, slot)? else {
        return Err(Refusal::Memory);
    };
    set_first_free(m, next as u32)?;
    Ok(slot)
}

// Makes a slot free, and the first of the chain: refused by 2 where it does not lie in the memory, or 32 bits do not name it.
pub fn give_slot(m: &mut [u8], slot: usize) -> Answer<()>
    ensures { Wrote (given m.old slot) m.old result m.new }
{
    if LAST_SLOT < slot {
        return Err(Refusal::Memory);
    }
    let next = first_free(m) as u32;
    set_free(m, slot, next)?;
    set_first_free(m, slot as u32)
}
