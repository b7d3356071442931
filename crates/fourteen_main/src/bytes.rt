// The items of break rules, leaves and child lists.
ghost use Rattle.std.specs.Prelude.{◌≡◌, true};
ghost use Rattle.leaf_bytes.specs.Leaf.{leaf_of};

use crate::compare::is;
use answer::Answer;
use check::same;
use crlf::find_good_split;
use leaf_split::fix_segment_seam;
use node_children::NodeChildren;
use pool::Kid;
use text_info::TextInfo;

pub(crate) fn nearest_break() -> bool {
    is(crlf::nearest_internal_break(1, b"\r\n"), 2)
}

pub(crate) fn good_splits() -> bool {
    is(find_good_split(1, b"\r\n", true), 2) & is(find_good_split(1, b"\r\n", false), 0)
}

// Whether the leaf of n bytes in a region is this text: true only where it is.
fn holds(region: &[u8], n: usize, text: &[u8]) -> bool
    ensures { result ≡ true → leaf_of region.now n ≡ text.now }
{
    if region.len() < n {
        return false;
    }
    same(&region[..n], text)
}

// Whether two leaves are these texts once their seam is moved.
fn seam_gives(
    l: &mut [u8],
    l_len: usize,
    r: &mut [u8],
    r_len: usize,
    left: &[u8],
    right: &[u8],
) -> bool {
    match fix_segment_seam(l, l_len, r, r_len) {
        Ok((a, b)) => holds(l, a, left) & holds(r, b, right),
        Err(_) => false,
    }
}

pub(crate) fn a_cr_with_lf() -> bool {
    let mut l = [b'a', b'\r', 0, 0];
    let mut r = [b'\n', 0, 0, 0];
    seam_gives(&mut l, 2, &mut r, 1, b"a", b"\r\n")
}

pub(crate) fn cr_with_lf() -> bool {
    let mut l = [b'\r', 0, 0, 0];
    let mut r = [b'\n', 0, 0, 0];
    seam_gives(&mut l, 1, &mut r, 1, b"\r\n", b"")
}

// A list of so many children.
fn list_of(n: usize) -> NodeChildren {
    let info = TextInfo {
        bytes: 0,
        chars: 0,
        utf16_surrogates: 0,
        line_breaks: 0,
    };
    let k = Kid {
        slot: 0,
        info: info,
    };
    NodeChildren {
        len: n,
        arr: [k; 16],
    }
}

// A refused call hands the two back as they were.
pub(crate) fn three_and_six() -> bool {
    let two = child_split::distribute_with(list_of(3), list_of(6));
    (two.left.len == 5) & (two.right.len == 4)
}
