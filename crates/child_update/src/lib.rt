// A child of a list in the lent memory, counted anew. From `node_children.rs`; a refused call changes no byte.
#![tactic(auto)]

ghost use Rattle.std.specs.Prelude.{◌≡◌, false, ◌<◌};
ghost use Rattle.pool.specs.Calls.{outside, Wrote};
ghost use Rattle.child_info.specs.Renewed.{slot_at, renewing};
ghost use Rattle.child_info.specs.Calls.{updated};

use answer::{Answer, Refusal};
use nodes::text_info;
use pool::{Head, Kid, head_of, kid_of, set_kid};

// Counts an entry anew that was read at an index.
fn recount(m: &mut [u8], slot: usize, idx: usize, kid: Kid) -> Answer<()>
    requires { (outside m.old slot ≡ false) × (idx < 16) × (kid.slot ≡ slot_at m.old slot idx) }
    ensures { Wrote (renewing m.old slot idx) m.old result m.new }
{
    let info = text_info(m, kid.slot as usize)?;
    set_kid(
        m,
        slot,
        idx,
        Kid {
            slot: kid.slot,
            info,
        },
    )
}

// Counts the entry at an index anew.
fn renew(m: &mut [u8], slot: usize, idx: usize) -> Answer<()>
    requires { (outside m.old slot ≡ false) × (idx < 16) }
    ensures { Wrote (renewing m.old slot idx) m.old result m.new }
{
    let kid = kid_of(m, slot, idx)?;
    recount(m, slot, idx, kid)
}

// Counts the child at an index of a list anew.
pub fn update_child_info(m: &mut [u8], slot: usize, idx: usize) -> Answer<()>
    ensures { Wrote (updated m.old slot idx) m.old result m.new }
{
    let Head::List(n) = head_of(m, slot)? else {
        return Err(Refusal::Memory);
    };
    if n == 0 {
        return Err(Refusal::Side);
    }
    if n <= idx {
        return Err(Refusal::Place);
    }
    renew(m, slot, idx)
}
