// The calls that read a child list.
ghost use Rattle.answer.specs.Answers.{outcome};
ghost use Rattle.std.specs.Prelude.{◌≡◌};
ghost use Rattle.list_calls.specs.Asked.{read_by, reading};

use crate::Five;
use crate::replies::{of_chars, of_found, of_range, of_sum, of_truth};
use answer::Answer;
use node_children::NodeChildren;

#[derive(Clone, Copy)]
pub(crate) enum Read {
    Len,
    IsFull,
    CombinedInfo,
    SearchByteIdx,
    SearchCharIdx,
    SearchUtf16CodeUnitIdx,
    SearchCharIdxOnly,
    SearchLineBreakIdx,
    SearchCharIdxRange,
}

// What is read of a list.
fn read_by(list: NodeChildren, what: Read, i: usize, j: usize) -> Answer<Five>
    ensures { outcome result ≡ read_by what i j list }
{
    match what {
        Read::Len => Ok((list.len(), 0, 0, 0, 0)),
        Read::IsFull => of_truth(Ok(list.is_full())),
        Read::CombinedInfo => of_sum(child_search::combined_info(list)),
        Read::SearchByteIdx => of_found(child_search::search_byte_idx(list, i)),
        Read::SearchCharIdx => of_found(child_search::search_char_idx(list, i)),
        Read::SearchUtf16CodeUnitIdx => of_found(child_search::search_utf16_code_unit_idx(list, i)),
        Read::SearchCharIdxOnly => of_chars(child_search::search_char_idx_only(list, i)),
        Read::SearchLineBreakIdx => of_found(child_search::search_line_break_idx(list, i)),
        Read::SearchCharIdxRange => of_range(child_search::search_char_idx_range(list, i, j)),
    }
}

// The same of the list in a slot.
pub(crate) fn read_in(m: &[u8], slot: usize, what: Read, i: usize, j: usize) -> Answer<Five>
    ensures { outcome result ≡ reading what i j m.now slot }
{
    let had = nodes::load(m, slot);
    let v = had.verdict;
    v?;
    read_by(had.list, what, i, j)
}
