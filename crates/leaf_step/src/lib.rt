// One step of an edit, in a leaf: some bytes of its text give way to a piece. A leaf that becomes too long is parted in two, the second of
// them in a slot that was free. Each function is total; a refused call changes no byte. Where there is room the leaf is not asked whether it
// is text: its bytes are moved and counted as they are, and in a memory that was checked they are text before and after.
#![tactic(auto)]

ghost use Rattle.answer.specs.Answers.{outcome};
ghost use Rattle.std.specs.Prelude.{◌≡◌, true, ◌<◌};
ghost use Rattle.plain.specs.Outcome.{Outcome.value};
ghost use Rattle.text_info.specs.Info.{raw_info};
ghost use Rattle.nodes.specs.Node.{is_leaf, text_of};
ghost use Rattle.note_head.specs.Writes.{number_put};
ghost use Rattle.edit_steps.specs.Made.{Made.split, edit, sized, Stepped};
ghost use Rattle.leaf_step.specs.Steps.{leaf_fit, leaf_halves, leaf_split, leaf_stepped};

use answer::{Answer, Refusal};
use edit_steps::Edit;
use leaf_bytes::MAX_BYTES;
use leaf_nodes::{halve_leaf, replace_leaf};
use leaf_parts::text_at;
use nodes::MIN_BYTES;
use note_head::{first_free, set_first_free};
use pool::{Head, head_of};
use text_info::TextInfo;

// The counts of a leaf's bytes.
fn info_of(m: &[u8], slot: usize) -> Answer<TextInfo>
    requires { is_leaf m.now slot ≡ true }
    ensures { outcome result ≡ value (raw_info (text_of m.now slot)) }
{
    TextInfo::from_bytes(text_at(m, slot))
}

// What a leaf of so many bytes is told as.
fn one_leaf(m: &[u8], slot: usize, len: usize) -> Answer<Edit>
    requires { is_leaf m.now slot ≡ true }
    ensures { edit result ≡ value (sized 128 len (raw_info (text_of m.now slot))) }
{
    let info = info_of(m, slot)?;
    if len < MIN_BYTES {
        return Ok(Edit::Small(info));
    }
    Ok(Edit::Same(info))
}

// An edit that fits in the leaf.
fn fit(m: &mut [u8], slot: usize, start: usize, end: usize, piece: &[u8]) -> Answer<Edit>
    ensures { Stepped (leaf_fit m.old slot start end piece.now) m.old result m.new }
{
    let len = replace_leaf(m, slot, start, end, piece)?;
    one_leaf(m, slot, len)
}

// What two leaves are told as, the second in the first free slot. It leaves the chain, which goes on at `next`.
fn two_leaves(m: &mut [u8], slot: usize, right: usize, next: usize) -> Answer<Edit>
    requires { (is_leaf m.old slot ≡ true) × (is_leaf m.old right ≡ true) × (next < 4294967296) }
    ensures { (edit result ≡ value (split (raw_info (text_of m.old slot)) right (raw_info (text_of m.old right)))) × (m.new ≡ number_put m.old 32 next) }
{
    let info = info_of(m, slot)?;
    let other = info_of(m, right)?;
    set_first_free(m, next as u32)?;
    Ok(Edit::Split(info, right, other))
}

// An insertion that parts the leaf, its right side in the first free slot, behind which the chain goes on at `next`. The slot leaves the
// chain last, when nothing is left to be refused.
fn halve(
    m: &mut [u8],
    slot: usize,
    at: usize,
    piece: &[u8],
    right: usize,
    next: usize,
) -> Answer<Edit>
    requires { next < 4294967296 }
    ensures { Stepped (leaf_halves m.old slot at piece.now right next) m.old result m.new }
{
    halve_leaf(m, slot, at, piece, right)?;
    two_leaves(m, slot, right, next)
}

// The same with the first free slot looked up: refused by 2 where there is none.
fn split(m: &mut [u8], slot: usize, at: usize, piece: &[u8]) -> Answer<Edit>
    ensures { Stepped (leaf_split m.old slot at piece.now) m.old result m.new }
{
    let right = first_free(m);
    let Head::Free(next) = head_of(m, right)? else {
        return Err(Refusal::Memory);
    };
    halve(m, slot, at, piece, right, next)
}

// The bytes [start, end) of a leaf's text give way to a piece. Only an insertion may part the leaf.
pub fn leaf_step(m: &mut [u8], slot: usize, start: usize, end: usize, piece: &[u8]) -> Answer<Edit>
    ensures { Stepped (leaf_stepped m.old slot start end piece.now) m.old result m.new }
{
    let Head::Leaf(len) = head_of(m, slot)? else {
        return Err(Refusal::Memory);
    };
    if start == end && MAX_BYTES - len < piece.len() {
        return split(m, slot, start, piece);
    }
    fit(m, slot, start, end, piece)
}
