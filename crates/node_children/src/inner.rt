// The moves of children from list to list, on which the calls rest once their tests are passed. What a move answers has `no_kid()` in
// every entry behind its children, whatever the lists given have there. The Rust has a module `inner` for its `push`, `pop`, `insert`
// and `remove`, over memory that is not set.
ghost use Rattle.std.specs.Prelude.{◌≡◌, [], ◌∷◌, ◌++◌, ◌+◌, ◌-◌, ◌<◌, ◌≤◌, take, drop, get_or};
ghost use Rattle.pool.specs.Slot.{no_kid};
ghost use Rattle.node_children.specs.Kids.{kids, list_of, Holds};
ghost use Rattle.node_children.specs.Calls.{with_kid, without};

use crate::NodeChildren;
use pool::Kid;
use text_info::TextInfo;

// What stands in an entry that is no child.
pub(crate) fn no_kid() -> Kid
    ensures { result ≡ no_kid }
{
    let info = TextInfo {
        bytes: 0,
        chars: 0,
        utf16_surrogates: 0,
        line_breaks: 0,
    };
    Kid {
        slot: 0,
        info: info,
    }
}

// A list without children.
pub(crate) fn empty() -> NodeChildren
    ensures { Holds result 0 [] }
{
    let k = no_kid();
    NodeChildren {
        len: 0,
        arr: [k; 16],
    }
}

// The child at an index.
pub(crate) fn child(list: NodeChildren, at: usize) -> Kid
    requires { (at < list.len) × (list.len ≤ 16) }
    ensures { result ≡ get_or (kids list) at no_kid }
{
    list.arr[at]
}

// One child more at the end. The list must have `no_kid()` behind its children.
pub(crate) fn put(list: NodeChildren, item: Kid) -> NodeChildren
    requires { (list.len < 16) × (list ≡ list_of (kids list)) }
    ensures { Holds result (list.len + 1) (kids list ++ (item ∷ [])) }
{
    let n = list.len;
    let mut longer = list;
    longer.arr[n] = item;
    longer.len = n + 1;
    longer
}

// The children of `into`, of which the same holds, and behind them those of `from` between two indices.
pub(crate) fn append(
    into: NodeChildren,
    from: NodeChildren,
    start: usize,
    end: usize,
) -> NodeChildren
    requires { (start ≤ end) × (end ≤ from.len) × (from.len ≤ 16) × (into.len + (end - start) ≤ 16) × (into ≡ list_of (kids into)) }
    ensures { Holds result (into.len + (end - start)) (kids into ++ drop start (take end (kids from))) }
{
    let mut list = into;
    let mut i = start;
    while i < end {
        list = put(list, from.arr[i]);
        i += 1;
    }
    list
}

// The children before an index.
pub(crate) fn front(list: NodeChildren, end: usize) -> NodeChildren
    requires { (end ≤ list.len) × (list.len ≤ 16) }
    ensures { Holds result end (take end (kids list)) }
{
    append(empty(), list, 0, end)
}

// The children from an index on.
pub(crate) fn rest(list: NodeChildren, start: usize) -> NodeChildren
    requires { (start ≤ list.len) × (list.len ≤ 16) }
    ensures { Holds result (list.len - start) (drop start (kids list)) }
{
    let n = list.len;
    append(empty(), list, start, n)
}

// One child more, before the one at an index.
pub(crate) fn insert_at(list: NodeChildren, at: usize, item: Kid) -> NodeChildren
    requires { (at ≤ list.len) × (list.len < 16) }
    ensures { Holds result (list.len + 1) (with_kid at item (kids list)) }
{
    let n = list.len;
    let before = put(front(list, at), item);
    append(before, list, at, n)
}

// The children but the one at an index.
pub(crate) fn remove_at(list: NodeChildren, at: usize) -> NodeChildren
    requires { (at < list.len) × (list.len ≤ 16) }
    ensures { Holds result (list.len - 1) (without at (kids list)) }
{
    let n = list.len;
    append(front(list, at), list, at + 1, n)
}
