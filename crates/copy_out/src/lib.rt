// Chars of the note copied out, leaf by leaf, to the front of an output that the caller lends.
#![tactic(auto)]

ghost use Rattle.std.specs.Prelude.{◌≡◌, true, [], ◌∷◌, ◌+◌, ◌-◌, ◌≤◌, length, take, drop};
ghost use Rattle.plain.specs.Chars.{encode};
ghost use Rattle.plain.specs.Place.{bytes, byte_at};
ghost use Rattle.plain.specs.Outcome.{Outcome.value, ruled, past};
ghost use Rattle.plain_note.specs.Note.{between, copied};
ghost use Rattle.answer.specs.Answers.{outcome};
ghost use Rattle.leaf_bytes.specs.Leaf.{laid, Leaf};
ghost use Rattle.octets.specs.Over.{overlaid};
ghost use Rattle.note_head.specs.Head.{own_of};
ghost use Rattle.memory.specs.Formed.{well_formed, note_of, of_note};
ghost use Rattle.leaf_parts.specs.Parts.{from_byte};

use answer::{Answer, Refusal};
use leaf_parts::{byte_of, from_byte};
use note_head::{chars_of, own_part};

// Lays a piece over the bytes from `at` on. std's `copy_from_slice` was tried: C would have to bring `memmove`.
fn put(out: &mut [u8], at: usize, piece: &[u8])
    requires { at + length piece.now ≤ length out.old }
    ensures { out.new ≡ overlaid at piece.now out.old }
{
    for i in 0..piece.len() {
        out[at + i] = piece[i];
    }
}

// The part of a leaf from the byte i of the note on, no further than to the byte b.
fn upto(m: &[u8], i: usize, b: usize) -> &[u8]
    requires { i ≤ b }
    ensures { result.now ≡ take (b - i) (from_byte (own_of m.now) i) }
{
    let part = from_byte(own_part(m), i);
    let n = b - i;
    if part.len() <= n {
        return part;
    }
    &part[..n]
}

// The bytes [a, b) of the note, part by part.
fn copy_bytes(m: &[u8], a: usize, b: usize, out: &mut [u8])
    requires { (well_formed m.now ≡ true) × (a ≤ b) × (b ≤ bytes (note_of m.now).text) × (b - a ≤ length out.old) }
    ensures { out.new ≡ laid out.old (take (b - a) (drop a (encode (note_of m.now).text))) }
{
    let mut i = a;
    while i < b {
        let part = upto(m, i, b);
        put(out, i - a, part);
        i += part.len();
    }
}

// The byte of a place, which is there.
fn byte_at(m: &[u8], p: usize) -> Answer<usize>
    requires { (well_formed m.now ≡ true) × (p ≤ length (note_of m.now).text) }
    ensures { outcome result ≡ value (byte_at (note_of m.now).text p) }
{
    byte_of(own_part(m), p)
}

// The chars of [s, e), which are there.
fn copy_chars(m: &[u8], s: usize, e: usize, out: &mut [u8]) -> Answer<usize>
    requires { (well_formed m.now ≡ true) × (s ≤ e) × (e ≤ length (note_of m.now).text) }
    ensures { Leaf (ruled ((9, past (bytes (between s e (note_of m.now).text)) (length out.old)) ∷ []) (encode (between s e (note_of m.now).text))) out.old result out.new }
{
    let a = byte_at(m, s)?;
    let b = byte_at(m, e)?;
    let n = b - a;
    if out.len() < n {
        return Err(Refusal::Output);
    }
    copy_bytes(m, a, b, out);
    Ok(n)
}

// Writes the bytes of the chars [s, e) at the front of the output, changes no more of it, and answers how many they are.
pub fn copy_out(m: &[u8], s: usize, e: usize, out: &mut [u8]) -> Answer<usize>
    ensures { Leaf (of_note m.now (λ N. copied N s e (length out.old))) out.old result out.new }
{
    if !memory::check(m) {
        return Err(Refusal::Memory);
    }
    if e < s {
        return Err(Refusal::Place);
    }
    if chars_of(m) < e {
        return Err(Refusal::Place);
    }
    copy_chars(m, s, e, out)
}
