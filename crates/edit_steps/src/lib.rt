// What an edit made of a node of the tree, as it is told up to the parent, one level at each step. Beside it, as definitions (specs/) and laws (proofs/)
// alone: what that makes of a part of the tree, how edits are put together, and what the memory holds between two steps.
#![tactic(auto)]

use text_info::TextInfo;

// One node still, with these counts; two, with the counts of the first, the slot of the second and its counts; one that is below its least size; or
// nothing, since what was to be edited does not lie inside one leaf: then no byte has changed.
#[derive(Clone, Copy)]
pub enum Edit {
    Same(TextInfo),
    Split(TextInfo, usize, TextInfo),
    Small(TextInfo),
    Apart,
}
