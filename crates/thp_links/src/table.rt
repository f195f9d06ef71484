//! Tables of link pairs.
ghost use Rattle.std.specs.Prelude.{◌≡◌, ℕ, ◌+◌, ◌<◌, ◌≤◌, List, length, slice_get, slice_set, Some};
ghost use Rattle.thp_links.specs.declared.link.Link.{Link};
ghost use Rattle.thp_links.specs.Neighbours.{with_next, with_prev};

use crate::link::{Link, NIL};

/// A table with a link pair for each of its indices, which are the numbers below `len`.
///
/// Each read or write of a pair is one access. Contracts count the accesses; the table itself does not have to at run time.
pub trait LinkTable {
    // The pair of each index.
    ghost links: { Self → List Link };

    // The number of accesses so far.
    ghost accesses: { Self → ℕ };

    // The later table differs from the earlier one in pairs and accesses only.
    ghost same_rest: { Self → Self → Type 0 };

    /// Returns the number of indices.
    fn len(&self) -> u32
        ensures { result ≡ length (links self.now) };

    /// Returns the pair of index `i`.
    fn link(&mut self, i: u32) -> Link
        requires inside { i < length (links self.old) }
        ensures value { slice_get (links self.old) i ≡ Some result }
        ensures links { links self.new ≡ links self.old }
        ensures accesses { accesses self.new ≡ accesses self.old + 1 }
        ensures rest { same_rest self.old self.new };

    /// Sets the pair of index `i` to `link`.
    fn set_link(&mut self, i: u32, link: Link)
        requires inside { i < length (links self.old) }
        ensures links { links self.new ≡ slice_set (links self.old) i link }
        ensures accesses { accesses self.new ≡ accesses self.old + 1 }
        ensures rest { same_rest self.old self.new };

    ghost same_rest_refl: { (t : Self) → same_rest t t };

    ghost same_rest_trans: { (a b c : Self) → same_rest a b → same_rest b c → same_rest a c };
}

// Sets the successor of `at`; does nothing if `at` is `NIL`. One equation covers both, so removal needs no case analysis.
pub(crate) fn set_next<T: LinkTable>(table: &mut T, at: u32, next: u32)
    requires small { length (T.links table.old) ≤ NIL }
    requires inside { (at ≡ NIL → ⊥) → at < length (T.links table.old) }
    ensures links { T.links table.new ≡ with_next (T.links table.old) at next }
    ensures accesses { T.accesses table.new ≤ T.accesses table.old + 2 }
    ensures rest { T.same_rest table.old table.new }
{
    if at != NIL {
        let prev = table.link(at).prev;
        table.set_link(at, Link { prev, next });
    }
}

// Sets the predecessor of `at`; does nothing if `at` is `NIL`.
pub(crate) fn set_prev<T: LinkTable>(table: &mut T, at: u32, prev: u32)
    requires small { length (T.links table.old) ≤ NIL }
    requires inside { (at ≡ NIL → ⊥) → at < length (T.links table.old) }
    ensures links { T.links table.new ≡ with_prev (T.links table.old) at prev }
    ensures accesses { T.accesses table.new ≤ T.accesses table.old + 2 }
    ensures rest { T.same_rest table.old table.new }
{
    if at != NIL {
        let next = table.link(at).next;
        table.set_link(at, Link { prev, next });
    }
}
