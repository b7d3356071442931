// The calls that reach into the nodes of a list's children.
ghost use Rattle.list_calls.specs.Asked.{deep_by, Replied};

use crate::Five;
use crate::replies::{of_truth, of_verdict};
use answer::Answer;
use child_info::is_info_accurate;
use child_update::update_child_info;
use compact::compact_leaves;
use merge::merge_distribute;

#[derive(Clone, Copy)]
pub(crate) enum Deep {
    UpdateChildInfo,
    MergeDistribute,
    CompactLeaves,
    IsInfoAccurate,
}

pub(crate) fn deep_in(m: &mut [u8], slot: usize, what: Deep, i: usize, j: usize) -> Answer<Five>
    ensures { Replied (deep_by what i j m.old slot) m.old result m.new }
{
    match what {
        Deep::UpdateChildInfo => of_verdict(update_child_info(m, slot, i)),
        Deep::MergeDistribute => of_truth(merge_distribute(m, slot, i, j)),
        Deep::CompactLeaves => of_verdict(compact_leaves(m, slot)),
        Deep::IsInfoAccurate => of_truth(is_info_accurate(m, slot)),
    }
}
