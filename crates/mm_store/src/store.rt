//! The rows of all tables, with their savepoints.
ghost use Rattle.std.specs.Prelude.{◌≡◌, ℕ, ◌<◌, ◌≤◌, [], ◌↔◌, length, map, All, Contains, IsTrue};
ghost use Rattle.mm_base.specs.Columns.{IsReference};
ghost use Rattle.mm_indexed.specs.Kept.{StoredRows};
ghost use Rattle.mm_indexed.specs.RowLists.{rows_of};
ghost use Rattle.mm_link.specs.Links.{RefersTo};
ghost use Rattle.mm_partition.specs.Places.{IsLive, slot_at};
ghost use Rattle.mm_row_order.specs.Refs.{row_at};
ghost use Rattle.mm_schema.specs.Rows.{most_rows};
ghost use Rattle.mm_store.specs.Joined.{IsTable};
ghost use Rattle.mm_store.specs.Marks.{IsMark, mark_of, rows_at_mark};
ghost use Rattle.mm_store.specs.Tables.{IsAt};

mod changing;
mod staging;

use mm_base::BaseTables;
use mm_indexed::IndexedRows;
use mm_value::RowRef;
use std::alloc::Global;
use std::marker::Model;

/// The rows of all tables, with one log of the edits of the open transaction. A table is identified by its position in the order of
/// creation, and a savepoint by the length of the log.
#[derive(Drop)]
pub struct Store {
    pub(crate) base: BaseTables,
}

impl Model for Store {
    ghost use Rattle.mm_store.specs.Tables.{Tables, tables_of};

    ghost Value = { Tables };

    ghost view = { λ s. tables_of s.base };
}

impl Store {
    /// Returns a store without tables, with an empty log. Allocates nothing.
    pub fn new(alloc: Global) -> Store
        ensures tables { result.tables ≡ [] }
        ensures links { result.links ≡ [] }
        ensures log { result.stored.log ≡ [] }
    {
        Store {
            base: BaseTables::new(alloc),
        }
    }

    /// Returns the number of tables.
    pub fn len(&self) -> usize
        ensures { result ≡ length self.now.tables }
    {
        self.base.len()
    }

    /// Lemma: the invariant of each table. The call does nothing.
    pub fn keeps_tables(&self)
        ensures { All IsTable self.now.tables }
    {
        self.base.are_lawful();
        self.base.are_whole();
    }

    /// Returns the rows of a table with their indexes: at most 1,048,576 rows.
    pub(crate) fn table(&self, table: usize) -> &IndexedRows
        requires { table < length self.now.tables }
        ensures at { IsAt self.now table result.now }
        ensures few { length result.now.refs ≤ most_rows }
        ensures whole { IsTable result.now }
    {
        self.base.are_lawful();
        self.base.table(table)
    }

    /// Returns whether a column of a table refers to another table, and to no other one.
    pub(crate) fn refers_only_to(&self, table: usize, column: usize, to: usize) -> bool
        ensures { IsTrue result ↔ IsReference self.now.links table column to }
    {
        self.base.refers_only_to(table, column, to)
    }

    /// Returns the row that a row refers to by a column, without a search.
    pub(crate) fn follow(&self, table: usize, column: usize, at: RowRef) -> RowRef
        requires there { table < length self.now.tables }
        requires refers { (to : ℕ) × Contains self.now.links (record { from = table; column = column; to = to }) }
        requires live { (stored : StoredRows) → IsAt self.now table stored → IsLive stored.places at }
        ensures { (stored : StoredRows) → IsAt self.now table stored
            → (target : StoredRows) × (to : ℕ) × Contains self.now.links (record { from = table; column = column; to = to })
            × IsAt self.now to target × RefersTo column target.key (slot_at target.places) (row_at (slot_at stored.places) at) result }
    {
        self.base.follow(table, column, at)
    }

    /// Returns the length of the log: a savepoint, at which the rows of all tables are the current ones.
    pub fn mark(&self) -> usize
        ensures mark { result ≡ mark_of self.now }
        ensures is { IsMark self.now result }
        ensures rows { rows_at_mark result self.now ≡ map rows_of self.now.tables }
    {
        self.base.are_lawful();
        self.base.are_whole();
        self.base.mark()
    }
}
