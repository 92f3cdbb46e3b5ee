//! The contents of a database: a catalog, the rows of its tables, and the lists of its standing queries.
ghost use Rattle.std.specs.Prelude.{◌≡◌, ℕ, ◌≤◌, true, false, List, [], length, take};
ghost use Rattle.mm_standing.specs.State.{count_at};
ghost use Rattle.mm_indexed.specs.Index.{EachTurns};
ghost use Rattle.mm_store.specs.Marks.{IsMark, KeepsMarks, mark_of, rows_at_mark};
ghost use Rattle.mm_store.specs.Tables.{SameForm};
ghost use Rattle.mm_value.specs.declared.values.Value.{Value};
ghost use Rattle.mm_txn.specs.Contents.{IsAtRest};
ghost use Rattle.mm_plan.specs.Kept.{instance_of};
ghost use Rattle.mm_txn.specs.Saved.{GoesBack, IsSettled};

use mm_schema::Catalog;
use mm_standing::Standing;
use mm_store::Store;
use std::alloc::Global;
use std::marker::Model;

/// A catalog, the rows of its tables and the lists of its standing queries, which agree with each other.
#[derive(Drop)]
pub(crate) struct Contents {
    pub(crate) catalog: Catalog,
    pub(crate) store: Store,
    /// The standing queries with their lists, and the log of what the open transaction has changed in these.
    pub(crate) standing: Standing,
}

impl Model for Contents {
    ghost use Rattle.mm_txn.specs.Contents.{Holdings};
    ghost use Rattle.mm_txn.specs.Rest.{AreAtRest};

    ghost Value = { Holdings };

    ghost view = { λ c. record { schema = c.catalog; store = c.store; lists = c.standing } };

    ghost invariant = { λ c. AreAtRest c.catalog c.store c.standing };
}

impl Contents {
    /// Returns contents with no table and no standing query. Allocates nothing.
    pub(crate) fn new(alloc: Global) -> Contents
        ensures schema { result.schema ≡ record { tables = []; standing = [] } }
        ensures tables { result.store.tables ≡ [] }
        ensures links { result.store.links ≡ [] }
        ensures log { result.store.stored.log ≡ [] }
        ensures lists { result.lists ≡ record { queries = []; bags = []; prepared = []; log = []; reads = 0 } }
    {
        Contents {
            catalog: Catalog::new(alloc),
            store: Store::new(alloc),
            standing: Standing::new(alloc),
        }
    }

    /// Lemma: catalog, store and lists agree, and the current contents can be restored later. The call does nothing.
    pub(crate) fn is_at_rest(&self)
        ensures rest { IsAtRest self.now }
        ensures back { GoesBack self.now.store self.now.lists (mark_of self.now.store) (length self.now.lists.log) }
        ensures rows { rows_at_mark (mark_of self.now.store) self.now.store ≡ instance_of self.now.store.tables }
    {
        let _mark = self.store.mark();
    }

    /// Returns the lengths of the logs of the store and of the lists.
    pub(crate) fn lengths(&self) -> (usize, usize)
        ensures { result ≡ (mark_of self.now.store, length self.now.lists.log) }
    {
        (self.store.mark(), self.standing.mark())
    }

    /// Undoes the changes of the rows and of the lists since their logs had these lengths. Allocates nothing.
    pub(crate) fn revert(&mut self, commands: usize, changes: usize)
        requires back { GoesBack self.old.store self.old.lists commands changes }
        requires changes { changes ≤ length self.old.lists.log }
        ensures schema { self.new.schema ≡ self.old.schema }
        ensures rows { instance_of self.new.store.tables ≡ rows_at_mark commands self.old.store }
        ensures mark { mark_of self.new.store ≡ commands }
        ensures marks { (earlier : ℕ) → earlier ≤ commands → KeepsMarks self.old.store self.new.store earlier }
        ensures queries { self.new.lists.queries ≡ self.old.lists.queries }
        ensures counts { (earlier : ℕ) → earlier ≤ changes → (list : ℕ) (row : List Value)
            → count_at earlier list row self.new.lists ≡ count_at earlier list row self.old.lists }
        ensures log { self.new.lists.log ≡ take changes self.old.lists.log }
    {
        self.store.revert(commands);
        self.standing.revert(changes);
    }

    /// Undoes the log of the store down to a length since which rows were only staged. Allocates nothing.
    pub(crate) fn unstage(&mut self, mark: usize)
        requires mark { IsMark self.old.store mark }
        requires rows { rows_at_mark mark self.old.store ≡ instance_of self.old.store.tables }
        ensures schema { self.new.schema ≡ self.old.schema }
        ensures rows { instance_of self.new.store.tables ≡ rows_at_mark mark self.old.store }
        ensures mark { mark_of self.new.store ≡ mark }
        ensures marks { (earlier : ℕ) → earlier ≤ mark → KeepsMarks self.old.store self.new.store earlier }
        ensures links { self.new.store.links ≡ self.old.store.links }
        ensures form { EachTurns SameForm self.old.store.tables self.new.store.tables }
        ensures lists { self.new.lists ≡ self.old.lists }
    {
        self.store.revert(mark);
    }

    /// Commits the changes, unless a transaction is open.
    pub(crate) fn settle_outside(&mut self, is_open: bool)
        ensures schema { self.new.schema ≡ self.old.schema }
        ensures rows { instance_of self.new.store.tables ≡ instance_of self.old.store.tables }
        ensures queries { self.new.lists.queries ≡ self.old.lists.queries }
        ensures open { is_open ≡ true → self.new ≡ self.old }
        ensures settled { is_open ≡ false → IsSettled self.new.store self.new.lists }
    {
        if !is_open {
            self.store.settle();
            self.standing.settle();
        }
    }
}
