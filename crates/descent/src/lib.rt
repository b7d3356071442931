// An edit of the leaf that a search finds, one level down at each step, and what became of it told up again.
#![tactic(auto)]

ghost use Rattle.edit_steps.specs.Made.{edit};
ghost use Rattle.edit_steps.specs.Acts.{Did};
ghost use Rattle.descent.specs.Descent.{inside_part, leaf_part, edited_at};

use answer::Answer;
use child_search::Measure;
use edit_steps::Edit;
use leaf_parts::{behind, byte_in, text_at};
use leaf_step::leaf_step;
use rise::rise;
use tree_search::{child_at, rest};

// Which part of a leaf's text gives way to the piece: bytes of it; or so many chars before the place that was sought, if chars of the leaf stay before
// them and behind them.
#[derive(Clone, Copy)]
pub enum Part {
    Bytes(usize, usize),
    Inside(usize),
}

// k chars inside a leaf give way to a piece; the last of them ends at its char `at`. Where they do not lie inside it, nothing is done.
fn edit_inside(m: &mut [u8], slot: usize, at: usize, k: usize, piece: &[u8]) -> Answer<Edit>
    ensures { Did edit (inside_part m.old slot at k piece.now) result m.new }
{
    if at <= k {
        return Ok(Edit::Apart);
    }
    let text = text_at(m, slot);
    let start = byte_in(text, at - k);
    let end = start + byte_in(behind(text, start), k);
    if text.len() <= end {
        return Ok(Edit::Apart);
    }
    leaf_step(m, slot, start, end, piece)
}

// A part of a leaf gives way to a piece.
fn edit_part(m: &mut [u8], slot: usize, at: usize, part: Part, piece: &[u8]) -> Answer<Edit>
    ensures { Did edit (leaf_part m.old slot at part piece.now) result m.new }
{
    match part {
        Part::Bytes(start, end) => leaf_step(m, slot, start, end, piece),
        Part::Inside(k) => edit_inside(m, slot, at, k, piece),
    }
}

// A part of the leaf that a search finds gives way to a piece.
pub fn edit_at(
    m: &mut [u8],
    level: u8,
    slot: usize,
    by: Measure,
    at: usize,
    part: Part,
    piece: &[u8],
) -> Answer<Edit>
    ensures { Did edit (edited_at m.old level slot by at part piece.now) result m.new }
{
    if level == 0 {
        return edit_part(m, slot, at, part, piece);
    }
    let (idx, (kid, left)) = child_at(m, slot, by, at)?;
    let made = edit_at(m, level - 1, kid, by, rest(by, at, left), part, piece)?;
    rise(m, slot, idx, Ok(made))
}
