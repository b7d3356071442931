// The lent memory as a whole: whether it is well formed, which every call asks first. The check looks at each slot of the note once, and at
// nothing beyond the note's need.
#![tactic(auto)]

ghost use Rattle.std.specs.Prelude.{◌≡◌, true, ◌&&◌, ℕ, ◌+◌, ◌-◌, ◌≤◌, ◌<◌, length, set};
ghost use Rattle.plain_note.specs.Note.{need};
ghost use Rattle.tree.specs.Tree.{least_root, tells};
ghost use Rattle.note_head.specs.Head.{n_of, live_at};
ghost use Rattle.memory.specs.Formed.{all_below, well_formed};
ghost use Rattle.memory.specs.Checks.{own_right, head_right, mark_right, met, Took, Stepped, Row, Walked, Sorted, RootMet, Ready};

use note_head::{MARKS, first_free, mark_live, mark_place, need, slots};
use pool::{Head, head_of};
use text_info::TextSum;
use tree_check::{Met, check_node, tells};

// The least and the most slots of a note.
pub const MIN_SLOTS: usize = 17;

pub const MAX_SLOTS: usize = 4096;

// Each slot but these adds to the bytes that the note may have.
const SLOTS_HELD_BACK: usize = 16;

const BYTES_PER_SLOT: usize = 64;

// No tree of a note within its size is higher.
const MAX_HEIGHT: u8 = 5;

// The least children of a root that is a list.
const MIN_ROOT_CHILDREN: usize = 2;

// ── marks ──

// Whether mark k is free, or live at a place of a note of so many chars.
fn mark_right(m: &[u8], k: usize, chars: u64) -> bool
    ensures { result ≡ mark_right m.now chars k }
{
    let live = mark_live(m, k);
    if live == 0 {
        return true;
    }
    if live != 1 {
        return false;
    }
    mark_place(m, k) as u64 <= chars
}

// How many marks are looked at in one go, and how often.
const RUN: usize = 8;

const RUNS: usize = MARKS / RUN;

// Whether the RUN marks from k on are free, as most marks are: a pass without a branch.
fn run_free(m: &[u8], k: usize) -> bool
    requires { k + 8 ≤ 256 }
    ensures { result ≡ true → (j : ℕ) → k ≤ j → j < k + 8 → live_at m.now j ≡ 0 }
{
    let mut free = true;
    for j in k..k + RUN {
        free = free & (mark_live(m, j) == 0);
    }
    free
}

// Whether the RUN marks from k on are right.
fn run_right(m: &[u8], k: usize, chars: u64) -> bool
    requires { k + 8 ≤ 256 }
    ensures { (result && all_below k (mark_right m.now chars)) ≡ all_below (k + 8) (mark_right m.now chars) }
{
    if run_free(m, k) {
        return true;
    }
    for j in k..k + RUN {
        if !mark_right(m, j, chars) {
            return false;
        }
    }
    true
}

fn marks_right(m: &[u8], chars: u64) -> bool
    ensures { result ≡ all_below 256 (mark_right m.now chars) }
{
    for i in 0..RUNS {
        if !run_right(m, RUN * i, chars) {
            return false;
        }
    }
    true
}

// ── slots ──

// A step along the free slots: the next one, or none where the slot is not free or was met before.
fn take_free(m: &[u8], seen: &mut [u8], slot: usize) -> Option<usize>
    requires { length m.now ≡ need (length seen.old) }
    ensures { Stepped m.now seen.old seen.new slot result }
{
    let Ok(held) = head_of(m, slot) else {
        return None;
    };
    let Head::Free(next) = held else {
        return None;
    };
    if seen[slot] != 0 {
        return None;
    }
    seen[slot] = 1;
    Some(next)
}

// Whether a slot is free, was not met, and names the one behind it as the next.
fn in_row(m: &[u8], seen: &[u8], at: usize) -> bool
    requires { length m.now ≡ need (length seen.now) }
    ensures { result ≡ true → Took m.now seen.now (set seen.now at 1) at (at + 1) }
{
    let Ok(head) = head_of(m, at) else {
        return false;
    };
    let Head::Free(next) = head else {
        return false;
    };
    if seen[at] != 0 {
        return false;
    }
    next == at + 1
}

// Marks free slots that lie in a row from the first on, at most so many, and says how many. Which slot is read hangs on no number that was
// read before, so that the processor need not wait for one to read the next.
fn take_row(m: &[u8], seen: &mut [u8], first: usize, most: usize) -> usize
    requires { (length m.now ≡ need (length seen.old)) × (most ≤ length seen.old - first) }
    ensures { (result ≤ most) × Row m.now seen.old seen.new first result }
{
    for k in 0..most {
        if !in_row(m, seen, first + k) {
            return k;
        }
        seen[first + k] = 1;
    }
    most
}

// How long a row is at most: to the last of n slots, and no longer than there are steps left.
fn row_most(first: usize, left: usize, n: usize) -> usize
    ensures { (result ≤ left) × (result ≤ n - first) }
{
    n.saturating_sub(first).min(left)
}

// Marks the free slots, from the first one on. Each of them is met once at most, so there are no more steps than slots.
fn walk(m: &[u8], seen: &mut [u8], first: usize) -> bool
    requires { length m.now ≡ need (length seen.old) }
    ensures { Walked m.now (length seen.old) first seen.old seen.new result }
{
    let n = seen.len();
    let mut at = first;
    let mut left = n;
    while 0 < left {
        if at == n {
            return true;
        }
        let Some(next) = take_free(m, seen, at) else {
            return false;
        };
        left -= 1;
        let k = take_row(m, seen, next, row_most(next, left, n));
        at = next + k;
        left -= k;
    }
    at == n
}

// Without a branch in the loop, so that it vectorises.
fn all_met(seen: &[u8]) -> bool
    ensures { result ≡ all_below (length seen.now) (met seen.now) }
{
    let mut all = true;
    for x in seen {
        all = all & (*x != 0);
    }
    all
}

// Whether each slot that was not met is free, and no other.
fn slots_right(m: &[u8], seen: &mut [u8]) -> bool
    requires { (length m.now ≡ need (length seen.old)) × (length seen.old ≡ n_of m.now) }
    ensures { Sorted m.now seen.old result }
{
    if !walk(m, seen, first_free(m)) {
        return false;
    }
    all_met(seen)
}

// ── the tree ──

fn least_root(height: u8) -> usize
    ensures { result ≡ least_root height }
{
    if height == 0 {
        return 0;
    }
    MIN_ROOT_CHILDREN
}

// The tree from the root on.
fn check_root(m: &[u8], seen: &mut [u8]) -> Option<Met>
    ensures { RootMet m.now seen.old seen.new result }
{
    let root = note_head::root(m);
    let height = note_head::height(m);
    check_node(m, seen, height, root.slot as usize, least_root(height))
}

// ── the memory ──

// Whether the head is right for a note of these counts: the stored counts, the size of n slots, and the marks.
fn head_right(m: &[u8], n: usize, sum: TextSum) -> bool
    requires { (17 ≤ n) × (n ≤ 4096) }
    ensures { result ≡ head_right m.now n sum }
{
    let root = note_head::root(m);
    if !tells(root.info, sum) {
        return false;
    }
    let most = (BYTES_PER_SLOT * (n - SLOTS_HELD_BACK)) as u64;
    if most < sum.bytes {
        return false;
    }
    marks_right(m, sum.chars)
}

// The note's own memory, with a mark for each of its slots.
fn check_with(m: &[u8], seen: &mut [u8]) -> bool
    requires { Ready m.now seen.old }
    ensures { result ≡ own_right m.now }
{
    let Some(met) = check_root(m, seen) else {
        return false;
    };
    if !head_right(m, seen.len(), met.sum) {
        return false;
    }
    slots_right(m, seen)
}

// A higher tree has more text than fits, so that the walk goes no deeper, whatever the memory holds.
fn check_own(m: &[u8], n: usize) -> bool
    requires { (n ≡ n_of m.now) × (17 ≤ n) × (n ≤ 4096) × (length m.now ≡ need n) }
    ensures { result ≡ own_right m.now }
{
    if MAX_HEIGHT < note_head::height(m) {
        return false;
    }
    let mut seen = [0u8; 4096];
    check_with(m, &mut seen[..n])
}

// Whether the memory is well formed.
pub fn check(m: &[u8]) -> bool
    ensures { result ≡ well_formed m.now }
{
    let n = slots(m);
    if n < MIN_SLOTS {
        return false;
    }
    if MAX_SLOTS < n {
        return false;
    }
    let end = need(m);
    if m.len() < end {
        return false;
    }
    check_own(&m[..end], n)
}
