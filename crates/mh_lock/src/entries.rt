//! What a value in a lock shows of itself, and what a call does with it. These traits are what a caller of the lock
//! brings. Of the value no call changes the origin, so at the close it is what the lock was opened with.
ghost use Rattle.std.specs.Prelude.{◌≡◌, [], ◌∷◌, ◌++◌, ℕ, List, Result, IfOk, OnErr};

use mh_model::history::Entry;

/// An entry, which one seat owns.
pub trait Owned {
    ghost owner: { Self → ℕ };
}

impl Owned for Entry {
    ghost use Rattle.mh_model.specs.History.{owner_of};

    ghost owner = { λ entry. owner_of entry.event };
}

/// A value that shows itself as its list of entries and an origin.
pub trait Entries<E> {
    /// What of the value no call changes.
    type Origin: Copy;

    ghost entries: { Self → List E };

    ghost origin: { Self → Self.Origin };

    fn origin(&self) -> Self::Origin
        ensures { result ≡ origin self.now };
}

/// What one call does with the value: it adds an entry and replies, or leaves the entries as they are and refuses. The origin
/// stays.
pub trait Work<T: Entries<E>, E> {
    type Reply;

    type Refusal;

    // The entry that a reply belongs to.
    ghost entry: { Self → Self.Reply → E };

    // What it does: the value before it, its answer, and the value after it.
    ghost does: { Self → T → Result Self.Reply Self.Refusal → T → Type 0 };

    fn run(self, value: &mut T) -> Result<Self::Reply, Self::Refusal>
        ensures does { does self value.old result value.new }
        ensures ok { IfOk result (λ reply. T.entries value.new ≡ T.entries value.old ++ entry self reply ∷ []) }
        ensures err { OnErr result (T.entries value.new ≡ T.entries value.old) }
        ensures origin { T.origin value.new ≡ T.origin value.old };
}
