// The breaks of a text and its highest byte, in one pass over it.
ghost use Rattle.std.specs.Prelude.{◌≡◌, ◌+◌, ◌-◌, ◌≤◌, ◌<◌, length, drop};
ghost use Rattle.plain.specs.Count.{breaks};
ghost use Rattle.utf8.specs.Bmp.{highest};
ghost use Rattle.lines_crlf.specs.Surveyed.{Tops, Higher};

use crate::{ended, ends_last};
use str_indices::parts::stop;

// The highest byte, 0 where there is none, and how many breaks there are.
#[derive(Clone, Copy)]
pub struct Survey {
    pub high: u8,
    pub count: usize,
}

// The same of a part.
#[derive(Clone, Copy)]
struct Part {
    high: u8,
    count: u8,
}

fn higher(a: u8, b: u8) -> u8
    ensures { Higher a b result }
{
    if a < b { b } else { a }
}

// Of a part that stops short of the end.
fn of_part(text: &[u8], a: usize, e: usize) -> Part
    requires { (a ≤ e) × (e < length text.now) × (e ≤ a + 224) }
    ensures { Tops text.now a e result.high × (result.count + breaks (drop e text.now) ≡ breaks (drop a text.now)) × (result.count ≤ e - a) }
{
    let mut high: u8 = 0;
    let mut n: u8 = 0;
    for i in a..e {
        high = higher(high, text[i]);
        n += ended(text, i);
    }
    Part { high, count: n }
}

// Of the bytes before one of them, in parts.
fn of_parts(text: &[u8], end: usize) -> Survey
    requires { end < length text.now }
    ensures { Tops text.now 0 end result.high × (result.count + breaks (drop end text.now) ≡ breaks text.now) × (result.count ≤ end) }
{
    let mut high: u8 = 0;
    let mut n = 0;
    let mut i = 0;
    while i < end {
        let e = stop(i, end);
        let p = of_part(text, i, e);
        high = higher(high, p.high);
        n += usize::from(p.count);
        i = e;
    }
    Survey { high, count: n }
}

// x from the number s on.
fn from_on(k: u8, s: u8, x: u8) -> u8
    ensures { (k < s → result ≡ 0) × (s ≤ k → result ≡ x) × (result ≤ x) }
{
    if k < s { 0 } else { x }
}

// Of 32 bytes, the first s of them not counted. That k is a byte, and no part of an index, lets the loop test sixteen of them at a time.
fn of_rest(text: &[u8], base: usize, s: u8) -> Part
    requires { (base + 32 < length text.now) × (s ≤ 32) }
    ensures { Tops text.now base (base + 32) result.high × (result.count + breaks (drop (base + 32) text.now) ≡ breaks (drop (base + s) text.now)) × (result.count ≤ 32 - s) }
{
    let mut high: u8 = 0;
    let mut n: u8 = 0;
    let mut k: u8 = 0;
    for i in base..base + 32 {
        high = higher(high, text[i]);
        n += from_on(k, s, ended(text, i));
        k += 1;
    }
    Part { high, count: n }
}

// Of the bytes before the last: 32 at a time, and of those left the 32 that end with them, so that no loop has a rest to do byte by byte.
fn of_most(text: &[u8], last: usize) -> Survey
    requires { last < length text.now }
    ensures { Tops text.now 0 last result.high × (result.count + breaks (drop last text.now) ≡ breaks text.now) × (result.count ≤ last) }
{
    if last < 32 {
        return of_parts(text, last);
    }
    let left = last % 32;
    let s = of_parts(text, last - left);
    let t = of_rest(text, last - 32, (32 - left) as u8);
    Survey {
        high: higher(s.high, t.high),
        count: s.count + usize::from(t.count),
    }
}

// Of a text.
pub fn of_text(text: &[u8]) -> Survey
    ensures { (result.high ≡ highest text.now) × (result.count ≡ breaks text.now) }
{
    if text.len() == 0 {
        return Survey { high: 0, count: 0 };
    }
    let last = text.len() - 1;
    let s = of_most(text, last);
    Survey {
        high: higher(s.high, text[last]),
        count: s.count + ends_last(text[last]),
    }
}
