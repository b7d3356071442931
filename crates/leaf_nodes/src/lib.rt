// A leaf in its slot of the lent memory: its text copied out, edited where it lies, and parted in two. A slot that holds no leaf is refused
// by 2; a refused call changes no byte.
#![tactic(auto)]

ghost use Rattle.std.specs.Prelude.{◌≡◌, false, not, [], ◌∷◌, ◌≤◌, length};
ghost use Rattle.plain.specs.Outcome.{Outcome.value, ruled, past};
ghost use Rattle.answer.specs.Answers.{outcome};
ghost use Rattle.leaf_bytes.specs.Leaf.{leaf_of, Leaf};
ghost use Rattle.leaf_bytes.specs.Raw.{replacing};
ghost use Rattle.node_text.specs.Texts.{off_chars, no_text, inserted_split};
ghost use Rattle.pool.specs.Slot.{len_of, region_of, head_put};
ghost use Rattle.pool.specs.Calls.{outside};
ghost use Rattle.nodes.specs.Node.{is_leaf, leaf_put};
ghost use Rattle.nodes.specs.Calls.{text_read, leaf_replaced, leaf_edited, leaf_halved, LeafWrote, LeavesWrote};

use answer::{Answer, Refusal};
use leaf_bytes::MAX_BYTES;
use pool::{Head, head_of, region_start, set_leaf};

// How many bytes the leaf in a slot has.
fn leaf_of(m: &[u8], slot: usize) -> Answer<usize>
    ensures { outcome result ≡ ruled ((2, not (is_leaf m.now slot)) ∷ []) (len_of m.now slot) }
{
    let Head::Leaf(n) = head_of(m, slot)? else {
        return Err(Refusal::Memory);
    };
    Ok(n)
}

// Copies a leaf's text to the front of a region.
pub fn text_of(m: &[u8], slot: usize, out: &mut [u8]) -> Answer<usize>
    ensures { Leaf (text_read m.now slot (length out.old)) out.old result out.new }
{
    let n = leaf_of(m, slot)?;
    copy_text(m, slot, n, out)
}

// The first n bytes of a slot's region: refused by 9 where the output is shorter.
fn copy_text(m: &[u8], slot: usize, n: usize, out: &mut [u8]) -> Answer<usize>
    requires { (outside m.now slot ≡ false) × (n ≤ 512) }
    ensures { Leaf (ruled ((9, past n (length out.old)) ∷ []) (leaf_of (region_of m.now slot) n)) out.old result out.new }
{
    let at = region_start(m, slot)?;
    if out.len() < n {
        return Err(Refusal::Output);
    }
    leaf_bytes::replace(out, 0, 0, 0, &m[at..at + n])
}

// The bytes [start, end) of the leaf of n bytes in a slot give way to a piece.
fn replace_at(
    m: &mut [u8],
    slot: usize,
    n: usize,
    start: usize,
    end: usize,
    piece: &[u8],
) -> Answer<usize>
    requires { outside m.old slot ≡ false }
    ensures { LeafWrote (replacing (region_of m.old slot) n start end piece.now) m.old slot result m.new }
{
    let at = region_start(m, slot)?;
    let len = leaf_bytes::replace(&mut m[at..at + MAX_BYTES], n, start, end, piece)?;
    set_leaf(m, slot, len)?;
    Ok(len)
}

// The bytes [start, end) of a leaf give way to a piece, where they lie: that they are text, and lie between chars, is not asked.
pub fn replace_leaf(
    m: &mut [u8],
    slot: usize,
    start: usize,
    end: usize,
    piece: &[u8],
) -> Answer<usize>
    ensures { LeafWrote (leaf_replaced m.old slot start end piece.now) m.old slot result m.new }
{
    let n = leaf_of(m, slot)?;
    replace_at(m, slot, n, start, end, piece)
}

// Whether that is so of the leaf of n bytes in a slot and a piece.
fn checked_at(
    m: &[u8],
    slot: usize,
    n: usize,
    start: usize,
    end: usize,
    piece: &[u8],
) -> Answer<usize>
    requires { (outside m.now slot ≡ false) × (n ≤ 512) }
    ensures { outcome result ≡ ruled (off_chars (leaf_of (region_of m.now slot) n) start end ∷ no_text (leaf_of (region_of m.now slot) n) piece.now ∷ []) (length (leaf_of (region_of m.now slot) n)) }
{
    let at = region_start(m, slot)?;
    node_text::checked(&m[at..at + n], start, end, piece)
}

// The same edit of text, as the leaf's own: refused where it would leave none.
pub fn edit_leaf(m: &mut [u8], slot: usize, start: usize, end: usize, piece: &[u8]) -> Answer<usize>
    ensures { LeafWrote (leaf_edited m.old slot start end piece.now) m.old slot result m.new }
{
    let n = leaf_of(m, slot)?;
    checked_at(m, slot, n, start, end, piece)?;
    replace_at(m, slot, n, start, end, piece)
}

// Makes a slot a leaf with these bytes.
fn lay(m: &mut [u8], slot: usize, text: &[u8]) -> Answer<()>
    requires { (outside m.old slot ≡ false) × (length text.now ≤ 512) }
    ensures { (outcome result ≡ value tt) × (m.new ≡ leaf_put m.old slot text.now) }
{
    let at = region_start(m, slot)?;
    let end = at + MAX_BYTES;
    let n = leaf_bytes::replace(&mut m[at..end], 0, 0, 0, text)?;
    set_leaf(m, slot, n)
}

// Makes a slot the leaf of its first l bytes, and another slot a leaf with these bytes.
fn make_two(
    m: &mut [u8],
    slot: usize,
    l: usize,
    right: usize,
    text: &[u8],
) -> Answer<(usize, usize)>
    requires { (outside m.old slot ≡ false) × (outside m.old right ≡ false) × (l ≤ 512) × (length text.now ≤ 512) }
    ensures { (outcome result ≡ value (l, length text.now)) × (m.new ≡ leaf_put (head_put m.old slot 1 l 0) right text.now) }
{
    set_leaf(m, slot, l)?;
    lay(m, right, text)?;
    Ok((l, text.len()))
}

// Puts a piece into the leaf of n bytes in a slot and parts the whole; the right side becomes the leaf in another slot, by way of the
// 512 bytes lent.
fn halve_by(
    m: &mut [u8],
    slot: usize,
    n: usize,
    at: usize,
    piece: &[u8],
    right: usize,
    side: &mut [u8],
) -> Answer<(usize, usize)>
    requires { (outside m.old slot ≡ false) × (outside m.old right ≡ false) × (length side.old ≡ 512) }
    ensures { LeavesWrote (inserted_split (region_of m.old slot) n at piece.now (region_of m.old right)) m.old slot right result m.new }
{
    let start = region_start(m, slot)?;
    let end = start + MAX_BYTES;
    let (l, r) = leaf_split::insert_str_split(&mut m[start..end], n, at, piece, side)?;
    make_two(m, slot, l, right, &side[..r])
}

// The same, with bytes of its own on the way.
fn halve_at(
    m: &mut [u8],
    slot: usize,
    n: usize,
    at: usize,
    piece: &[u8],
    right: usize,
) -> Answer<(usize, usize)>
    requires { (outside m.old slot ≡ false) × (outside m.old right ≡ false) }
    ensures { LeavesWrote (inserted_split (region_of m.old slot) n at piece.now (region_of m.old right)) m.old slot right result m.new }
{
    let mut side = [0u8; 512];
    halve_by(m, slot, n, at, piece, right, &mut side)
}

// Puts a piece into a leaf and parts the whole near its half: the left side stays, the right side becomes the leaf in another slot,
// whatever that held.
pub fn halve_leaf(
    m: &mut [u8],
    slot: usize,
    at: usize,
    piece: &[u8],
    right: usize,
) -> Answer<(usize, usize)>
    ensures { LeavesWrote (leaf_halved m.old slot at piece.now right) m.old slot right result m.new }
{
    if slot == right {
        return Err(Refusal::Memory);
    }
    region_start(m, right)?;
    let n = leaf_of(m, slot)?;
    halve_at(m, slot, n, at, piece, right)
}
