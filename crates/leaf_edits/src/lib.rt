// The calls of `node_text.rs` that edit one leaf. Each is one edit of `node_text`, with the range and the piece that it names.
#![tactic(auto)]

ghost use Rattle.std.specs.Prelude.{[], length};
ghost use Rattle.leaf_bytes.specs.Leaf.{leaf_of, Leaf};
ghost use Rattle.node_text.specs.Texts.{edited};

use answer::Answer;
use node_text::{edit, held};

// A leaf with this text.
pub fn from_str(region: &mut [u8], string: &[u8]) -> Answer<usize>
    ensures { Leaf (edited region.old 0 0 0 string.now) region.old result region.new }
{
    edit(region, 0, 0, 0, string)
}

// Inserts a text at a byte index.
pub fn insert_str(region: &mut [u8], len: usize, byte_idx: usize, string: &[u8]) -> Answer<usize>
    ensures { Leaf (edited region.old len byte_idx byte_idx string.now) region.old result region.new }
{
    edit(region, len, byte_idx, byte_idx, string)
}

// Appends a text.
pub fn push_str(region: &mut [u8], len: usize, string: &[u8]) -> Answer<usize>
    ensures { Leaf (edited region.old len (length (leaf_of region.old len)) (length (leaf_of region.old len)) string.now) region.old result region.new }
{
    let n = held(region, len);
    edit(region, len, n, n, string)
}

// Drops the text after a byte index.
pub fn truncate(region: &mut [u8], len: usize, byte_idx: usize) -> Answer<usize>
    ensures { Leaf (edited region.old len byte_idx (length (leaf_of region.old len)) []) region.old result region.new }
{
    let n = held(region, len);
    edit(region, len, byte_idx, n, b"")
}

// Drops the text before a byte index.
pub fn truncate_front(region: &mut [u8], len: usize, byte_idx: usize) -> Answer<usize>
    ensures { Leaf (edited region.old len 0 byte_idx []) region.old result region.new }
{
    edit(region, len, 0, byte_idx, b"")
}

// Removes the text from one byte index to another.
pub fn remove_range(
    region: &mut [u8],
    len: usize,
    byte_start: usize,
    byte_end: usize,
) -> Answer<usize>
    ensures { Leaf (edited region.old len byte_start byte_end []) region.old result region.new }
{
    edit(region, len, byte_start, byte_end, b"")
}
