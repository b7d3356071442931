// One node in its slot of the lent memory: a child list read into a value and written back, a child sought where the children lie, and
// the counts of what lies below a node; a leaf's text is edited in `leaf_nodes`. A slot that holds no node of the kind that a call needs
// is refused by 2; a refused call changes no byte.
#![tactic(auto)]

ghost use Rattle.std.specs.Prelude.{◌≡◌, false, [], ◌∷◌, ◌≤◌, take};
ghost use Rattle.plain.specs.Outcome.{Outcome.value, Outcome.refused, ruled};
ghost use Rattle.answer.specs.Answers.{refusal_number, outcome};
ghost use Rattle.leaf_bytes.specs.Leaf.{leaf_of};
ghost use Rattle.text_info.specs.Info.{leaf_info};
ghost use Rattle.pool.specs.Slot.{region_of, entries};
ghost use Rattle.pool.specs.Calls.{outside, Wrote};
ghost use Rattle.node_children.specs.Kids.{list_of, Listing};
ghost use Rattle.child_search.specs.Sought.{Small};
ghost use Rattle.nodes.specs.Node.{kids_put, too_wide, narrowed, Fitting};
ghost use Rattle.nodes.specs.Calls.{loaded, list_searched, stored, Fitted, list_counted, counted};

use answer::{Answer, Refusal};
use child_search::{Measure, search_in, sum_of};
use node_children::{Listed, NodeChildren};
use pool::{Head, MAX_CHILDREN, head_of, kid_of, region_start, set_kid, set_list};
use text_info::{TextInfo, TextSum};

// The least size of a node that is not the root: a leaf's bytes, a list's children.
pub const MIN_BYTES: usize = 128;

pub const MIN_LEN: usize = 4;

// A refused reading of a list: one without children.
fn no_list(r: Refusal) -> Listed
    ensures { Listing (refused (refusal_number r)) (list_of []) result }
{
    Listed {
        verdict: Err(r),
        list: NodeChildren::new(),
    }
}

// The first n entries of a slot's region.
fn read_list(m: &[u8], slot: usize, n: usize) -> Listed
    requires { (outside m.now slot ≡ false) × (n ≤ 16) }
    ensures { Listing (value (list_of (take n (entries (region_of m.now slot))))) (list_of []) result }
{
    let mut list = NodeChildren::new();
    let mut i = 0;
    while i < n {
        match kid_of(m, slot, i) {
            Err(r) => {
                return no_list(r);
            }
            Ok(kid) => {
                list.arr[i] = kid;
                i += 1;
                list.len = i;
            }
        }
    }
    Listed {
        verdict: Ok(()),
        list: list,
    }
}

// The child list in a slot.
pub fn load(m: &[u8], slot: usize) -> Listed
    ensures { Listing (loaded m.now slot) (list_of []) result }
{
    match head_of(m, slot) {
        Ok(Head::List(n)) => read_list(m, slot, n),
        Ok(Head::Leaf(_)) => no_list(Refusal::Memory),
        Ok(Head::Free(_)) => no_list(Refusal::Memory),
        Err(r) => no_list(r),
    }
}

// The child of the list in a slot that an index lies in, sought where the children lie. The promise adds how large the answer can be.
pub fn search(m: &[u8], slot: usize, by: Measure, at: usize) -> Answer<(usize, TextSum)>
    ensures { (outcome result ≡ list_searched m.now slot by at) × Small result }
{
    let Head::List(n) = head_of(m, slot)? else {
        return Err(Refusal::Memory);
    };
    search_in(m, slot, n, by, at)
}

// Writes the sixteen entries of a list.
fn write_entries(m: &mut [u8], slot: usize, list: NodeChildren) -> Answer<()>
    requires { outside m.old slot ≡ false }
    ensures { (outcome result ≡ value tt) × (m.new ≡ kids_put m.old slot 0 list.arr) × Fitting list.arr }
{
    let mut i = 0;
    while i < MAX_CHILDREN {
        set_kid(m, slot, i, list.arr[i])?;
        i += 1;
    }
    Ok(())
}

// Makes a slot this child list. The promise adds that the numbers of the entries written have 32 bits, for the law that what was stored is loaded.
pub fn store(m: &mut [u8], slot: usize, list: NodeChildren) -> Answer<()>
    ensures { Wrote (stored m.old slot list) m.old result m.new × Fitted result list.arr }
{
    let n = list.len;
    set_list(m, slot, n)?;
    write_entries(m, slot, list)
}

// A sum in the 32 bits of a child's counts: refused by 2 where it does not fit.
pub fn narrow(s: TextSum) -> Answer<TextInfo>
    ensures { outcome result ≡ ruled ((2, too_wide s) ∷ []) (narrowed s) }
{
    if 4294967295 < s.bytes {
        return Err(Refusal::Memory);
    }
    if 4294967295 < s.chars {
        return Err(Refusal::Memory);
    }
    if 4294967295 < s.utf16_surrogates {
        return Err(Refusal::Memory);
    }
    if 4294967295 < s.line_breaks {
        return Err(Refusal::Memory);
    }
    Ok(TextInfo {
        bytes: s.bytes as u32,
        chars: s.chars as u32,
        utf16_surrogates: s.utf16_surrogates as u32,
        line_breaks: s.line_breaks as u32,
    })
}

// The counts of all children of a list, as its parent stores them.
pub fn list_info(list: NodeChildren) -> Answer<TextInfo>
    ensures { outcome result ≡ list_counted list }
{
    let all = narrow(sum_of(list));
    let Ok(_) = all else {
        return all;
    };
    if MAX_CHILDREN < list.len {
        return Err(Refusal::Size);
    }
    all
}

// The counts of the text in the first n bytes of a slot's region.
fn leaf_info(m: &[u8], slot: usize, n: usize) -> Answer<TextInfo>
    requires { (outside m.now slot ≡ false) × (n ≤ 512) }
    ensures { outcome result ≡ leaf_info (leaf_of (region_of m.now slot) n) }
{
    let at = region_start(m, slot)?;
    TextInfo::from_str(&m[at..at + n])
}

// The counts of the first n entries of a slot's region, added up.
fn entries_info(m: &[u8], slot: usize, n: usize) -> Answer<TextInfo>
    requires { (outside m.now slot ≡ false) × (n ≤ 16) }
    ensures { outcome result ≡ list_counted (list_of (take n (entries (region_of m.now slot)))) }
{
    let had = read_list(m, slot, n);
    let may = had.verdict;
    may?;
    list_info(had.list)
}

// The counts of the text below a node: of a leaf counted, of a list added up.
pub fn text_info(m: &[u8], slot: usize) -> Answer<TextInfo>
    ensures { outcome result ≡ counted m.now slot }
{
    match head_of(m, slot)? {
        Head::Leaf(n) => leaf_info(m, slot, n),
        Head::List(n) => entries_info(m, slot, n),
        Head::Free(_) => Err(Refusal::Memory),
    }
}
