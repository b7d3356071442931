// Slots of the lent memory, one node of the tree in each: 640 bytes, behind the 6,144 of the memory's head. A slot has a head of its own
// (its kind, a length, the next free slot) and a region of 512 bytes, which is a leaf's text or the sixteen entries of a child list. A
// slot that does not lie wholly in the memory is refused by 2; a refused call changes no byte.
#![tactic(auto)]

mod big;

ghost use Rattle.std.specs.Prelude.{◌≡◌, [], ◌∷◌, ◌+◌, ◌≤◌, length, get_or};
ghost use Rattle.plain.specs.Outcome.{ruled};
ghost use Rattle.answer.specs.Answers.{outcome};
ghost use Rattle.octets.specs.Over.{overlaid};
ghost use Rattle.octets.specs.Big.{two_at, four_at};
ghost use Rattle.pool.specs.Slot.{slot_start, kid_start, head_bytes, kid_at, kid_bytes, Fits};
ghost use Rattle.pool.specs.Calls.{no_slot, no_entry, held, held_by, wrong_head, head_of, kid_of, child_of, info_of, region_start, head_set, free_set, leaf_set, list_set, kid_set, info_set, Wrote};

use crate::big::{read_u16, read_u32, write_u16, write_u32};
use answer::{Answer, Refusal};
use leaf_bytes::MAX_BYTES;
use text_info::TextInfo;

pub const MAX_CHILDREN: usize = 16;

// How long the memory's head is, behind which the slots begin, and how long a slot is.
pub const HEAD_BYTES: usize = 6144;

pub const SLOT_BYTES: usize = 640;

// Where in a slot its region begins, and how long an entry is.
pub const REGION_AT: usize = 128;

const KID_BYTES: usize = 20;

// A slot's kinds.
const FREE: u8 = 0;

const LEAF: u8 = 1;

const LIST: u8 = 2;

// A child of a list: its slot, and the counts of the text below it.
#[derive(Clone, Copy)]
pub struct Kid {
    pub slot: u32,
    pub info: TextInfo,
}

// What a slot holds: it is free, and the next free slot; a leaf, or a child list, and its length.
#[derive(Clone, Copy)]
pub enum Head {
    Free(usize),
    Leaf(usize),
    List(usize),
}

// Where a slot begins.
fn slot_start(m: &[u8], slot: usize) -> Answer<usize>
    ensures { outcome result ≡ ruled (no_slot m.now slot ∷ []) (slot_start slot) }
{
    if m.len() < HEAD_BYTES {
        return Err(Refusal::Memory);
    }
    if (m.len() - HEAD_BYTES) / SLOT_BYTES <= slot {
        return Err(Refusal::Memory);
    }
    Ok(HEAD_BYTES + SLOT_BYTES * slot)
}

// Where a slot's region begins, for a caller that lends it.
pub fn region_start(m: &[u8], slot: usize) -> Answer<usize>
    ensures { outcome result ≡ region_start m.now slot }
{
    let at = slot_start(m, slot)?;
    Ok(at + REGION_AT)
}

// The head of the slot that begins at `at`: refused by 2 where it is none.
fn head_at(m: &[u8], at: usize) -> Answer<Head>
    requires { at + 640 ≤ length m.now }
    ensures { held result ≡ ruled ((2, wrong_head (get_or m.now at 0) (two_at m.now (at + 2))) ∷ []) (held_by (get_or m.now at 0) (two_at m.now (at + 2)) (four_at m.now (at + 4))) }
{
    let kind = m[at];
    if kind == FREE {
        return Ok(Head::Free(read_u32(m, at + 4) as usize));
    }
    let len = read_u16(m, at + 2) as usize;
    if kind == LEAF {
        if len <= MAX_BYTES {
            return Ok(Head::Leaf(len));
        }
        return Err(Refusal::Memory);
    }
    if kind == LIST {
        if len <= MAX_CHILDREN {
            return Ok(Head::List(len));
        }
    }
    Err(Refusal::Memory)
}

// What a slot holds: refused by 2 also where its kind is none of the three, or its length above the most.
pub fn head_of(m: &[u8], slot: usize) -> Answer<Head>
    ensures { held result ≡ head_of m.now slot }
{
    let at = slot_start(m, slot)?;
    head_at(m, at)
}

// Writes the head of the slot that begins at `at`.
fn put_head(m: &mut [u8], at: usize, kind: u8, len: u32, next: u32)
    requires { at + 640 ≤ length m.old }
    ensures { m.new ≡ overlaid at (head_bytes kind len next) m.old }
{
    m[at] = kind;
    m[at + 1] = 0;
    write_u16(m, at + 2, len);
    write_u32(m, at + 4, next);
}

// Writes a slot's head: refused by 11 where the length is above `most`.
fn set_head(m: &mut [u8], slot: usize, kind: u8, len: usize, most: usize, next: u32) -> Answer<()>
    requires { most ≤ 512 }
    ensures { Wrote (head_set m.old slot kind len most next) m.old result m.new }
{
    let at = slot_start(m, slot)?;
    if most < len {
        return Err(Refusal::Size);
    }
    put_head(m, at, kind, len as u32, next);
    Ok(())
}

// Makes a slot free, with the next free one.
pub fn set_free(m: &mut [u8], slot: usize, next: u32) -> Answer<()>
    ensures { Wrote (free_set m.old slot next) m.old result m.new }
{
    set_head(m, slot, FREE, 0, 0, next)
}

// Makes a slot a leaf of a length: its text is what lies in the region.
pub fn set_leaf(m: &mut [u8], slot: usize, len: usize) -> Answer<()>
    ensures { Wrote (leaf_set m.old slot len) m.old result m.new }
{
    set_head(m, slot, LEAF, len, MAX_BYTES, 0)
}

// Makes a slot a list of so many children: they are what lies in the region.
pub fn set_list(m: &mut [u8], slot: usize, len: usize) -> Answer<()>
    ensures { Wrote (list_set m.old slot len) m.old result m.new }
{
    set_head(m, slot, LIST, len, MAX_CHILDREN, 0)
}

// Where an entry of a slot's child list begins: refused by 3 where there is none of that number.
fn kid_start(m: &[u8], slot: usize, i: usize) -> Answer<usize>
    ensures { outcome result ≡ ruled (no_slot m.now slot ∷ no_entry i ∷ []) (kid_start slot i) }
{
    let at = slot_start(m, slot)?;
    if MAX_CHILDREN <= i {
        return Err(Refusal::Place);
    }
    let j = REGION_AT + KID_BYTES * i;
    Ok(at + j)
}

// The counts of the child in the 20 bytes from `at` on.
fn info_at(m: &[u8], at: usize) -> TextInfo
    requires { at + 20 ≤ length m.now }
    ensures { result ≡ (kid_at m.now at).info }
{
    TextInfo {
        bytes: read_u32(m, at + 4),
        chars: read_u32(m, at + 8),
        utf16_surrogates: read_u32(m, at + 12),
        line_breaks: read_u32(m, at + 16),
    }
}

// That child.
fn kid_at(m: &[u8], at: usize) -> Kid
    requires { at + 20 ≤ length m.now }
    ensures { result ≡ kid_at m.now at }
{
    let slot = read_u32(m, at);
    let info = info_at(m, at);
    Kid { slot, info }
}

// An entry of a slot's child list, whatever the slot's head says. A list is read by it entry by entry: where it was called and not inlined, a call that
// reads a list took 1.5 to 1.7 times the instructions.
#[inline(always)]
pub fn kid_of(m: &[u8], slot: usize, i: usize) -> Answer<Kid>
    ensures { outcome result ≡ kid_of m.now slot i }
{
    let at = kid_start(m, slot, i)?;
    Ok(kid_at(m, at))
}

// The slot of an entry's child alone, and its counts alone: a search and a sum read many entries, and no more of each than they need.
pub fn child_of(m: &[u8], slot: usize, i: usize) -> Answer<usize>
    ensures { outcome result ≡ child_of m.now slot i }
{
    let at = kid_start(m, slot, i)?;
    Ok(read_u32(m, at) as usize)
}

pub fn info_of(m: &[u8], slot: usize, i: usize) -> Answer<TextInfo>
    ensures { outcome result ≡ info_of m.now slot i }
{
    let at = kid_start(m, slot, i)?;
    Ok(info_at(m, at))
}

// Writes a child into the 20 bytes from `at` on.
fn put_kid(m: &mut [u8], at: usize, k: Kid)
    requires { at + 20 ≤ length m.old }
    ensures { m.new ≡ overlaid at (kid_bytes k) m.old }
{
    let info = k.info;
    write_u32(m, at, k.slot);
    write_u32(m, at + 4, info.bytes);
    write_u32(m, at + 8, info.chars);
    write_u32(m, at + 12, info.utf16_surrogates);
    write_u32(m, at + 16, info.line_breaks);
}

// Writes an entry of a slot's child list. The promise adds that a child's numbers have 32 bits, for the laws of `entries`.
pub fn set_kid(m: &mut [u8], slot: usize, i: usize, k: Kid) -> Answer<()>
    ensures { Wrote (kid_set m.old slot i k) m.old result m.new × Fits k }
{
    let at = kid_start(m, slot, i)?;
    put_kid(m, at, k);
    Ok(())
}

// Writes other counts into an entry of a slot's child list.
pub fn set_info(m: &mut [u8], slot: usize, i: usize, new: TextInfo) -> Answer<()>
    ensures { Wrote (info_set m.old slot i new) m.old result m.new }
{
    let at = kid_start(m, slot, i)?;
    let child = read_u32(m, at);
    put_kid(
        m,
        at,
        Kid {
            slot: child,
            info: new,
        },
    );
    Ok(())
}
