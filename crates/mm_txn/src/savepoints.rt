//! Savepoints of the open transaction.
ghost use Rattle.std.specs.Prelude.{◌≡◌, ◌<◌, ℕ, false, true, All, None, IfSome, get_or, length};
ghost use Rattle.mm_schema.specs.Name.{same_name};
ghost use Rattle.mm_txn.specs.declared.savepoints.Mark.{Mark as AnyMark};

use mm_schema::Name;

/// The most savepoints in a transaction at a time.
pub(crate) const MAX_SAVEPOINTS: usize = 64;

/// A savepoint: its name, and the lengths of the logs when it was set.
#[derive(Drop)]
pub(crate) struct Mark {
    pub(crate) name: Name,
    /// The length of the store's log.
    pub(crate) commands: usize,
    /// The length of the log of the lists.
    pub(crate) changes: usize,
}

impl Mark {
    /// Returns the lengths of the logs of the store and of the lists.
    pub(crate) fn lengths(&self) -> (usize, usize)
        ensures { result ≡ (self.now.commands, self.now.changes) }
    {
        (self.commands, self.changes)
    }
}

/// Returns the place of the latest savepoint with a name, counted from 0; the savepoints are ordered oldest first.
pub(crate) fn latest(marks: &[Mark], name: &Name) -> Option<usize>
    ensures within { IfSome result (λ place. place < length marks.now) }
    ensures named { IfSome result (λ place. (d : AnyMark) → same_name name.now (get_or marks.now place d).name ≡ true) }
    ensures latest { IfSome result (λ place. (k : ℕ) (d : AnyMark) → place < k → k < length marks.now → same_name name.now (get_or marks.now k d).name ≡ false) }
    ensures none { result ≡ None → All (λ mark. same_name name.now mark.name ≡ false) marks.now }
{
    marks.iter().rposition(|mark| *name == mark.name)
}
