// Well-formed UTF-8 by windows: what is wrong of a byte shows in it and the three before it. No window hangs on another and none has a branch,
// so that a loop over them takes sixteen at a time. `far`: chars of four bytes are allowed; where they are not, three bytes tell. A loop asks it
// of every window, and the compiler makes two loops of it.
ghost use Rattle.std.specs.Prelude.{◌≡◌, ◌||◌, ◌-◌, ◌≤◌, ◌<◌, length, get_or, drop};
ghost use Rattle.utf8.specs.Window.{owed, is_later, out_of, bad_at, scan, wrong_at, Parted};

// How many windows a part has: the text's last part begins so that it ends with the text, and no loop is left with a rest.
const PART: usize = 32;

// Whether a later byte of a char must stand behind these three.
fn owes(far: bool, x: u8, y: u8, z: u8) -> bool
    ensures { result ≡ owed far x y z }
{
    if far {
        return (z >= 0xC0) | (y >= 0xE0) | (x >= 0xF0);
    }
    (z >= 0xC0) | (y >= 0xE0)
}

fn later(b: u8) -> bool
    ensures { result ≡ is_later b }
{
    (b >= 0x80) & (b < 0xC0)
}

// Whether z begins no char, or b is out of the range that it leaves to the second byte.
fn outside(far: bool, z: u8, b: u8) -> bool
    ensures { result ≡ out_of far z b }
{
    if far {
        return ((z == 0xE0) & (b < 0xA0))
            | ((z == 0xED) & (b >= 0xA0))
            | ((z == 0xF0) & (b < 0x90))
            | ((z == 0xF4) & (b >= 0x90))
            | ((z >= 0xC0) & (z < 0xC2))
            | (z >= 0xF5);
    }
    ((z == 0xE0) & (b < 0xA0))
        | ((z == 0xED) & (b >= 0xA0))
        | ((z >= 0xC0) & (z < 0xC2))
        | (z >= 0xF0)
}

fn bad(far: bool, x: u8, y: u8, z: u8, b: u8) -> bool
    ensures { result ≡ bad_at far x y z b }
{
    (owes(far, x, y, z) ^ later(b)) | outside(far, z, b)
}

// Whether the byte at i cannot stand behind the three before it.
fn window(far: bool, text: &[u8], i: usize) -> bool
    requires { (3 ≤ i) × (i < length text.now) }
    ensures { result ≡ wrong_at far text.now i }
{
    bad(far, text[i - 3], text[i - 2], text[i - 1], text[i])
}

// The windows that begin before the text.
fn head(far: bool, text: &[u8]) -> bool
    requires { 3 ≤ length text.now }
    ensures { (result || scan far (get_or text.now 0 0) (get_or text.now 1 0) (get_or text.now 2 0) (drop 3 text.now)) ≡ scan far 0 0 0 text.now }
{
    let a = text[0];
    let b = text[1];
    let c = text[2];
    bad(far, 0, 0, 0, a) | bad(far, 0, 0, a, b) | bad(far, 0, a, b, c)
}

fn unfinished(far: bool, text: &[u8]) -> bool
    requires { 3 ≤ length text.now }
    ensures { result ≡ owed far (get_or text.now (length text.now - 3) 0) (get_or text.now (length text.now - 2) 0) (get_or text.now (length text.now - 1) 0) }
{
    let n = text.len();
    owes(far, text[n - 3], text[n - 2], text[n - 1])
}

// Whether a window that ends at a byte from a up to, not including, e is wrong.
fn part(far: bool, text: &[u8], a: usize, e: usize) -> bool
    requires { (3 ≤ a) × (a ≤ e) × (e ≤ length text.now) }
    ensures { Parted far text.now a e result }
{
    let mut w = false;
    for i in a..e {
        w = w | window(far, text, i);
    }
    w
}

// Whether a window of the text is wrong, or its last char unfinished.
pub(crate) fn wrong(text: &[u8], far: bool) -> bool
    requires { 35 ≤ length text.now }
    ensures { result ≡ scan far 0 0 0 text.now }
{
    let n = text.len();
    let e = n - (n - 3) % PART;
    head(far, text) | part(far, text, 3, e) | part(far, text, n - PART, n) | unfinished(far, text)
}
