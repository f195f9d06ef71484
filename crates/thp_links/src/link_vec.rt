//! A table that has nothing but its links.
ghost use Rattle.std.specs.Prelude.{◌≡◌, ◌<◌, ⊤, length, slice_get, All, IfOk, IfSome};
ghost use Rattle.thp_links.specs.LinkVecs.{IsAlone};

use crate::access_count::AccessCount;
use crate::link::{Link, NIL};
use crate::reserved_vec::ReservedVec;
use crate::table::LinkTable;
use std::alloc::{AllocError, Global};
use std::marker::Model;

/// Link pairs for the numbers below a length, and nothing else.
#[derive(Drop)]
pub struct LinkVec {
    pairs: ReservedVec<Link>,
    // has no bytes
    accesses: AccessCount,
}

impl Model for LinkVec {
    ghost use Rattle.thp_links.specs.LinkVecs.{LinkVecState};

    ghost Value = { LinkVecState };

    ghost view = { λ t. record { pairs = t.pairs; accesses = t.accesses } };
}

impl LinkVec {
    /// Creates a table of so many indices, none of which is linked. Fails if memory for them can't be reserved; it is taken up to the
    /// greatest index that was linked.
    pub fn new(alloc: Global, len: u32) -> Result<LinkVec, AllocError>
        ensures length { IfOk result (λ t. length t.pairs ≡ len) }
        ensures alone { IfOk result (λ t. All IsAlone t.pairs) }
    {
        let alone = Link {
            prev: NIL,
            next: NIL,
        };
        Ok(LinkVec {
            pairs: ReservedVec::new(alloc, len, alone)?,
            accesses: AccessCount::new(),
        })
    }

    /// Returns the index after this one, or `NIL`, without counting an access: for lists that belong to no node.
    pub fn peek_next(&self, index: u32) -> u32
        requires { index < length self.now.pairs }
        ensures { IfSome (slice_get self.now.pairs index) (λ l. result ≡ l.next) }
    {
        self.pairs.at(index).next
    }
}

impl LinkTable for LinkVec {
    ghost links = { λ t. t.pairs };

    ghost accesses = { λ t. t.accesses };

    ghost same_rest = { λ _ _. ⊤ };

    fn len(&self) -> u32 {
        self.pairs.len()
    }

    fn link(&mut self, i: u32) -> Link {
        self.accesses.step();
        self.pairs.at(i)
    }

    fn set_link(&mut self, i: u32, link: Link) {
        self.accesses.step();
        self.pairs.set(i, link);
    }

    ghost same_rest_refl = { λ t. tt };

    ghost same_rest_trans = { λ a b c p q. tt };
}
