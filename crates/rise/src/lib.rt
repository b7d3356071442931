// One step of an edit on its way up: what became of a child is put into its list. A child below its least size is joined with the one before
// it, the first child with the one behind it.
#![tactic(auto)]

ghost use Rattle.edit_steps.specs.Made.{edit};
ghost use Rattle.edit_steps.specs.Acts.{Did};
ghost use Rattle.rise.specs.Rise.{small_put, risen_by};

use answer::Answer;
use edit_steps::Edit;
use list_step::{put_one, put_two};
use mend_step::mend;
use text_info::TextInfo;

// A child that is small is put into its list, and joined with the one before it, the first with the one behind it.
fn join_small(m: &mut [u8], slot: usize, idx: usize, info: TextInfo) -> Answer<Edit>
    ensures { Did edit (small_put m.old slot idx info) result m.new }
{
    match put_one(m, slot, idx, info)? {
        Edit::Same(all) | Edit::Small(all) => mend(m, slot, idx.saturating_sub(1), all),
        made => Ok(made),
    }
}

// The child at an index of the list in a slot became what an edit made of it. Where the edit was refused, so is this.
pub fn rise(m: &mut [u8], slot: usize, idx: usize, made: Answer<Edit>) -> Answer<Edit>
    ensures { Did edit (risen_by m.old slot idx (edit made)) result m.new }
{
    match made? {
        Edit::Same(info) => put_one(m, slot, idx, info),
        Edit::Split(info, right, other) => put_two(m, slot, idx, info, right, other),
        Edit::Small(info) => join_small(m, slot, idx, info),
        Edit::Apart => Ok(Edit::Apart),
    }
}
