// The note edited: a piece put in, and a part taken out. Marks and edit number stay as they are. The steps inside ask for a memory that holds a note, and
// are then accepted; what they answer is passed up all the same.
#![tactic(auto)]

ghost use Rattle.std.specs.Prelude.{◌≡◌, [], ◌⊎◌, ◌-◌, ◌≤◌, ◌<◌, length, take, drop};
ghost use Rattle.plain.specs.Utf8.{decode};
ghost use Rattle.plain.specs.Count.{cr_last, lf_first};
ghost use Rattle.plain.specs.Edit.{replaced, put_in, cut_out};
ghost use Rattle.plain.specs.Outcome.{Outcome.value};
ghost use Rattle.plain_note.specs.Edits.{inserted, removed};
ghost use Rattle.answer.specs.Answers.{outcome};
ghost use Rattle.note_head.specs.Head.{root_of};
ghost use Rattle.edit_steps.specs.Held.{Holds};
ghost use Rattle.edit_promise.specs.Edited.{Edited};
ghost use Rattle.edit_promise.specs.Turned.{text_in, Turned, Puts, Cuts, Removes};
ghost use Rattle.note_edits.specs.Side.{side_of};
ghost use Rattle.note_edits.specs.Tried.{Tried};

use answer::{Answer, difference};
use child_search::Measure;
use edit_rules::{insert_refusal, remove_refusal};
use leaf_parts::from_char;
use note_head::{need, root};
use splices::{put_in, splice_inside, take_out};

// The breaks that the head says.
fn breaks_of(m: &[u8]) -> u32
    ensures { result ≡ (root_of m.now).info.line_breaks }
{
    root(m).info.line_breaks
}

// Whether the char before a place is CR.
fn behind_cr(m: &[u8], p: usize) -> bool
    requires { Holds m.now × (p ≤ length (text_in m.now)) }
    ensures { result ≡ cr_last (take p (text_in m.now)) }
{
    if p == 0 {
        return false;
    }
    let t = from_char(m, p - 1);
    if t.len() == 0 {
        return false;
    }
    t[0] == 13
}

// Whether the char at a place is LF.
fn at_lf(m: &[u8], p: usize) -> bool
    requires { Holds m.now × (p ≤ length (text_in m.now)) }
    ensures { result ≡ lf_first (drop p (text_in m.now)) }
{
    let t = from_char(m, p);
    if t.len() == 0 {
        return false;
    }
    t[0] == 10
}

// The leaf that an insertion goes to: the one with the CR before the place, if there is one, else the one with the char at it.
fn side(m: &[u8], p: usize) -> Measure
    requires { Holds m.now × (p ≤ length (text_in m.now)) }
    ensures { result ≡ side_of (text_in m.now) p }
{
    if behind_cr(m, p) {
        Measure::CharEnds
    } else {
        Measure::Chars
    }
}

// k chars before a place give way to a piece at once, if they lie inside one leaf: whether they did.
fn inside(m: &mut [u8], p: usize, k: usize, piece: &[u8]) -> Answer<bool>
    requires { Puts m.old p piece.now × ((piece.now ≡ []) ⊎ (k ≡ 0)) }
    ensures { Tried m.old (replaced (p - k) p (decode piece.now) (text_in m.old)) result m.new }
{
    splice_inside(m, p, k, piece)
}

// A piece put in where CR and LF around the place decide on the leaf.
fn insert_beside(m: &mut [u8], p: usize, piece: &[u8]) -> Answer<()>
    requires { Puts m.old p piece.now }
    ensures { (outcome result ≡ value tt) × Turned m.old (put_in p (decode piece.now) (text_in m.old)) m.new }
{
    let by = side(m, p);
    put_in(m, by, p, piece)
}

// A piece put into the note's part of the memory.
fn insert_own(m: &mut [u8], p: usize, piece: &[u8]) -> Answer<()>
    requires { Puts m.old p piece.now }
    ensures { (outcome result ≡ value tt) × Turned m.old (put_in p (decode piece.now) (text_in m.old)) m.new × (piece.now ≡ [] → m.new ≡ m.old) }
{
    if piece.len() == 0 {
        return Ok(());
    }
    let done = inside(m, p, 0, piece)?;
    if done {
        return Ok(());
    }
    insert_beside(m, p, piece)
}

// A piece put in at a place: how many lines more the note has.
pub fn insert(m: &mut [u8], p: usize, piece: &[u8]) -> Answer<i64>
    ensures { Edited (λ N. inserted N p piece.now) (piece.now ≡ []) m.old result m.new }
{
    insert_refusal(m, piece, p)?;
    let before = breaks_of(m);
    let end = need(m);
    insert_own(&mut m[..end], p, piece)?;
    Ok(difference(before, breaks_of(m)))
}

// [s, e) taken out leaf by leaf, from the back.
fn cut(m: &mut [u8], s: usize, e: usize) -> Answer<()>
    requires { Cuts m.old s e }
    ensures { (outcome result ≡ value tt) × Turned m.old (cut_out s e (text_in m.old)) m.new }
{
    let mut end = e;
    while s < end {
        end -= take_out(m, end, end - s)?;
    }
    Ok(())
}

// [s, e) taken out leaf by leaf. Where an LF follows, a CR stands before that meanwhile; it stays where a CR lies before s, in the place of that one.
fn remove_over(m: &mut [u8], s: usize, e: usize) -> Answer<()>
    requires { Removes m.old s e × (s < e) }
    ensures { (outcome result ≡ value tt) × Turned m.old (cut_out s e (text_in m.old)) m.new }
{
    if !at_lf(m, e) {
        return cut(m, s, e);
    }
    let guard: [u8; 1] = [13; 1];
    insert_own(m, e, &guard)?;
    if behind_cr(m, s) {
        return cut(m, s - 1, e);
    }
    cut(m, s, e)?;
    cut(m, s, s + 1)
}

// [s, e) taken out of the note's part of the memory.
fn remove_own(m: &mut [u8], s: usize, e: usize) -> Answer<()>
    requires { Removes m.old s e }
    ensures { (outcome result ≡ value tt) × Turned m.old (cut_out s e (text_in m.old)) m.new × (s ≡ e → m.new ≡ m.old) }
{
    if s == e {
        return Ok(());
    }
    let empty: [u8; 1] = [0; 1];
    let done = inside(m, e, e - s, &empty[..0])?;
    if done {
        return Ok(());
    }
    remove_over(m, s, e)
}

// The chars of [s, e) taken out.
pub fn remove(m: &mut [u8], s: usize, e: usize) -> Answer<i64>
    ensures { Edited (λ N. removed N s e) (s ≡ e) m.old result m.new }
{
    remove_refusal(m, s, e)?;
    let before = breaks_of(m);
    let end = need(m);
    remove_own(&mut m[..end], s, e)?;
    Ok(difference(before, breaks_of(m)))
}
