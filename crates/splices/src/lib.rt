// One leaf of the note edited, from the root down and up again.
#![tactic(auto)]

ghost use Rattle.std.specs.Prelude.{◌≡◌, Ok};
ghost use Rattle.answer.specs.Answers.{outcome};
ghost use Rattle.edit_steps.specs.Made.{edit};
ghost use Rattle.edit_steps.specs.Acts.{Did};
ghost use Rattle.splices.specs.Splices.{descended, spliced, lay, inside_at, put_at, cut_at};

use answer::Answer;
use child_search::Measure;
use descent::{Part, edit_at};
use edit_steps::Edit;
use leaf_parts::{above, byte_in, spot_of, text_at};
use note_head::{height, root};
use root_step::put_root;

// What becomes of the root, where a part of the leaf that a search finds gives way to a piece.
fn descend(m: &mut [u8], by: Measure, at: usize, part: Part, piece: &[u8]) -> Answer<Edit>
    ensures { Did edit (descended m.old by at part piece.now) result m.new }
{
    let kid = root(m);
    let h = height(m);
    edit_at(m, h, kid.slot as usize, by, at, part, piece)
}

// The same, put into the memory's head.
fn splice(m: &mut [u8], by: Measure, at: usize, part: Part, piece: &[u8]) -> Answer<()>
    ensures { Did outcome (spliced m.old by at part piece.now) result m.new }
{
    let made = descend(m, by, at, part, piece)?;
    put_root(m, Ok(made))
}

// Whether what was to be edited lay inside one leaf.
fn lay_inside(made: Edit) -> bool
    ensures { result ≡ lay (edit (Ok made)) }
{
    !matches!(made, Edit::Apart)
}

// k chars before a place give way to a piece, if they lie inside one leaf: whether they do. Where they do not, nothing is done.
pub fn splice_inside(m: &mut [u8], at: usize, k: usize, piece: &[u8]) -> Answer<bool>
    ensures { Did outcome (inside_at m.old at k piece.now) result m.new }
{
    let made = descend(m, Measure::CharEnds, at, Part::Inside(k), piece)?;
    put_root(m, Ok(made))?;
    Ok(lay_inside(made))
}

// A piece put in at a place.
pub fn put_in(m: &mut [u8], by: Measure, at: usize, piece: &[u8]) -> Answer<()>
    ensures { Did outcome (put_at m.old by at piece.now) result m.new }
{
    let (leaf, left) = spot_of(m, by, at)?;
    let i = byte_in(text_at(m, leaf), above(at, left.chars as usize));
    splice(m, by, at, Part::Bytes(i, i), piece)
}

// At most k chars before a place taken out of the leaf that holds the last of them: how many they were.
pub fn take_out(m: &mut [u8], at: usize, k: usize) -> Answer<usize>
    ensures { Did outcome (cut_at m.old at k) result m.new }
{
    let (leaf, left) = spot_of(m, Measure::CharEnds, at)?;
    let inner = above(at, left.chars as usize);
    let c = k.min(inner);
    let text = text_at(m, leaf);
    let start = byte_in(text, inner - c);
    let end = byte_in(text, inner);
    let empty: [u8; 1] = [0; 1];
    splice(
        m,
        Measure::CharEnds,
        at,
        Part::Bytes(start, end),
        &empty[..0],
    )?;
    Ok(c)
}
