// The child list of a tree's node, by value. A port of ropey's `node_children.rs`; what splits and shares lists is in `child_split`. A list may be given with any length and anything in
// its entries: one that is too long is refused. Where the Rust panics or asserts, a call refuses, and then it hands back the lists that
// it was given. What is answered has zeros in every entry behind its children.
#![tactic(auto)]

mod inner;

ghost use Rattle.std.specs.Prelude.{◌≡◌, [], eqb};
ghost use Rattle.plain.specs.Outcome.{Outcome.refused};
ghost use Rattle.answer.specs.Answers.{refusal_number};
ghost use Rattle.node_children.specs.Kids.{list_of, Listing, Taking, Parting};
ghost use Rattle.node_children.specs.Calls.{pushed, popped, inserted, removed, split_off};

use answer::{Answer, Refusal};
use inner::{child, empty, front, insert_at, no_kid, put, remove_at, rest};
use pool::{Kid, MAX_CHILDREN};

// The children that a list has at most.
pub const MAX_LEN: usize = MAX_CHILDREN;

#[derive(Clone, Copy)]
pub struct NodeChildren {
    pub len: usize,
    pub arr: [Kid; MAX_LEN],
}

// A list: of a refused call the one that was given.
#[derive(Clone, Copy)]
pub struct Listed {
    pub verdict: Answer<()>,
    pub list: NodeChildren,
}

// A child taken out, and the list without it: of a refused call zeros, and the list that was given.
#[derive(Clone, Copy)]
pub struct Taken {
    pub verdict: Answer<()>,
    pub kid: Kid,
    pub list: NodeChildren,
}

// Two lists. A refused call hands back the list that was given and one without children; `distribute_with` the two that were given.
#[derive(Clone, Copy)]
pub struct Two {
    pub verdict: Answer<()>,
    pub left: NodeChildren,
    pub right: NodeChildren,
}

// A refused call that would have given a child.
fn none_taken(list: NodeChildren, r: Refusal) -> Taken
    ensures { Taking (refused (refusal_number r)) list result }
{
    Taken {
        verdict: Err(r),
        kid: no_kid(),
        list: list,
    }
}

// A refused call that would have made two lists of one.
pub fn not_parted(list: NodeChildren, r: Refusal) -> Two
    ensures { Parting (refused (refusal_number r)) list (list_of []) result }
{
    Two {
        verdict: Err(r),
        left: list,
        right: empty(),
    }
}

impl NodeChildren {
    pub fn new() -> NodeChildren
        ensures { result ≡ list_of [] }
    {
        empty()
    }

    pub fn len(self) -> usize
        ensures { result ≡ self.len }
    {
        self.len
    }

    pub fn is_full(self) -> bool
        ensures { result ≡ eqb self.len 16 }
    {
        let n = self.len;
        n == MAX_LEN
    }

    // A child behind the others.
    pub fn push(self, item: Kid) -> Listed
        ensures { Listing (pushed self item) self result }
    {
        let n = self.len;
        if MAX_LEN <= n {
            return Listed {
                verdict: Err(Refusal::Size),
                list: self,
            };
        }
        Listed {
            verdict: Ok(()),
            list: put(front(self, n), item),
        }
    }

    // The last child taken off.
    pub fn pop(self) -> Taken
        ensures { Taking (popped self) self result }
    {
        let n = self.len;
        if n == 0 {
            return none_taken(self, Refusal::Side);
        }
        if MAX_LEN < n {
            return none_taken(self, Refusal::Size);
        }
        Taken {
            verdict: Ok(()),
            kid: child(self, n - 1),
            list: front(self, n - 1),
        }
    }

    // A child put in before the one at an index, or behind the last.
    pub fn insert(self, idx: usize, item: Kid) -> Listed
        ensures { Listing (inserted self idx item) self result }
    {
        let n = self.len;
        if n < idx {
            return Listed {
                verdict: Err(Refusal::Place),
                list: self,
            };
        }
        if MAX_LEN <= n {
            return Listed {
                verdict: Err(Refusal::Size),
                list: self,
            };
        }
        Listed {
            verdict: Ok(()),
            list: insert_at(self, idx, item),
        }
    }

    // The child at an index taken out.
    pub fn remove(self, idx: usize) -> Taken
        ensures { Taking (removed self idx) self result }
    {
        let n = self.len;
        if n == 0 {
            return none_taken(self, Refusal::Side);
        }
        if n <= idx {
            return none_taken(self, Refusal::Place);
        }
        if MAX_LEN < n {
            return none_taken(self, Refusal::Size);
        }
        Taken {
            verdict: Ok(()),
            kid: child(self, idx),
            list: remove_at(self, idx),
        }
    }

    // The list cut in two at an index.
    pub fn split_off(self, idx: usize) -> Two
        ensures { Parting (split_off self idx) self (list_of []) result }
    {
        let n = self.len;
        if n < idx {
            return not_parted(self, Refusal::Place);
        }
        if MAX_LEN < n {
            return not_parted(self, Refusal::Size);
        }
        Two {
            verdict: Ok(()),
            left: front(self, idx),
            right: rest(self, idx),
        }
    }
}
