//! The list of indices that a queue or a chain represents, which is visible to contracts only.
use std::marker::Model;
use std::snapshot::Snapshot;

// One change of a list.
#[derive(Clone, Copy)]
pub(crate) enum Edit {
    Append(u32),
    Prepend(u32),
    Remove(u32),
    RemoveFirst,
}

// A list, represented by its edits, the newest outside.
#[derive(Drop)]
enum Edits {
    Empty,
    Then(Edit, Snapshot<Edits>),
}

// A list that is visible to contracts only: it has no bytes, and its calls do nothing at run time.
#[derive(Drop)]
pub(crate) struct IndexList {
    edits: Snapshot<Edits>,
}

impl Model for IndexList {
    ghost use Rattle.std.specs.Prelude.{ℕ, List};

    ghost Value = { List ℕ };

    ghost use Rattle.thp_links.specs.Edits.{edited};

    ghost view = { λ s. edited s.edits.value };
}

impl IndexList {
    ghost use Rattle.std.specs.Prelude.{◌≡◌, []};
    ghost use Rattle.thp_links.specs.Edits.{edited_by};

    pub(crate) fn new() -> IndexList
        ensures { result ≡ [] }
    {
        IndexList {
            edits: Snapshot::of(&Edits::Empty),
        }
    }

    pub(crate) fn apply(&mut self, edit: Edit)
        ensures { self.new ≡ edited_by edit self.old }
    {
        let empty = Snapshot::of(&Edits::Empty);
        let edits = std::mem::replace(&mut self.edits, empty);
        self.edits = Snapshot::of(&Edits::Then(edit, edits));
    }
}
