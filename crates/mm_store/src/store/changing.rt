//! Changes of a store: of its tables, their indexes and their rows.
ghost use Rattle.std.specs.Prelude.{◌≡◌, ◌≢◌, ℕ, ◌<◌, ◌≤◌, ◌^◌, ◌++◌, [], ◌∷◌, length, map, All, OnOk, OnErr};
ghost use Rattle.std.specs.List.{remove};
ghost use Rattle.mm_base.specs.Bases.{references_without, rows_now};
ghost use Rattle.mm_base.specs.Columns.{IsFrom};
ghost use Rattle.mm_indexed.specs.Index.{AddsIndex, EachTurns};
ghost use Rattle.mm_indexed.specs.Kept.{StoredRows};
ghost use Rattle.mm_indexed.specs.RowLists.{rows_of};
ghost use Rattle.mm_store.specs.Marks.{IsMark, KeepsMarks, mark_of, rows_at_mark};
ghost use Rattle.mm_store.specs.Spares.{HasFewSparesAt};
ghost use Rattle.mm_store.specs.Tables.{IsAt, SameForm, Turns, tables_of};
ghost use Rattle.mm_schema.specs.declared.reference.Reference.{Reference as Ref};
ghost use Rattle.mm_tables.specs.declared.log_record.LogRecord.{LogRecord};

use super::Store;
use mm_base::BaseTables;
use mm_schema::{IndexKind, Reference};
use mm_value::ColType;
use std::alloc::{AllocError, Global};

impl Store {
    /// Appends a table without rows, with columns of these types, one of them as the key, and these references, each of a column of the
    /// new table to an older one. Fails with `AllocError` if an allocation fails; then nothing changes.
    pub fn add_table(
        &mut self,
        alloc: Global,
        types: &[ColType],
        key: usize,
        references: &[Reference],
    ) -> Result<(), AllocError>
        requires key { key < length types.now }
        requires references { All (IsFrom (length self.old.tables) (length types.now)) references.now }
        requires log { self.old.stored.log ≡ [] }
        requires few { length self.old.tables < 2 ^ 16 }
        ensures ok { OnOk result ((new : StoredRows) × (self.new.tables ≡ self.old.tables ++ new ∷ [])
            × (rows_of new ≡ []) × (new.places.types ≡ types.now) × (new.key ≡ key) × (new.indexes ≡ [])) }
        ensures links { OnOk result (self.new.links ≡ self.old.links ++ references.now) }
        ensures log { self.new.stored.log ≡ [] }
        ensures err { OnErr result (self.new ≡ self.old) }
    {
        self.base.add_table(alloc, types, key, references)?;
        rows_are_listed(&self.base);
        Ok(())
    }

    /// Drops a table to which no table refers, with its rows and its references. The tables after it move forward by one place.
    pub fn drop_table(&mut self, table: usize)
        requires there { table < length self.old.tables }
        requires log { self.old.stored.log ≡ [] }
        requires unused { All (λ (reference : Ref). reference.to ≢ table) self.old.links }
        ensures tables { self.new.tables ≡ remove self.old.tables table }
        ensures links { self.new.links ≡ references_without table self.old.links }
        ensures log { self.new.stored.log ≡ [] }
    {
        self.base.drop_table(table);
    }

    /// Appends an index on a column of a table over the rows in use; also allowed inside a transaction. Fails with `AllocError` if an
    /// allocation fails; then nothing changes.
    pub fn add_index(
        &mut self,
        alloc: Global,
        table: usize,
        column: usize,
        kind: IndexKind,
    ) -> Result<(), AllocError>
        requires there { table < length self.old.tables }
        requires column { (stored : StoredRows) → IsAt self.old table stored → column < length stored.places.types }
        ensures ok { OnOk result ((stored : StoredRows) → IsAt self.old table stored
            → (new : StoredRows) × Turns self.old table new self.new × (new ≡ record stored { indexes = new.indexes })
            × AddsIndex column kind stored.indexes new.indexes) }
        ensures links { self.new.links ≡ self.old.links }
        ensures log { self.new.stored.log ≡ self.old.stored.log }
        ensures marks { (mark : ℕ) → KeepsMarks self.old self.new mark }
        ensures err { OnErr result (self.new ≡ self.old) }
    {
        self.base.add_index(alloc, table, column, kind)
    }

    /// Drops the index of a table at a place, counted from 0. The places of later indexes decrease by one.
    pub fn drop_index(&mut self, table: usize, index: usize)
        requires there { table < length self.old.tables }
        requires index { (stored : StoredRows) → IsAt self.old table stored → index < length stored.indexes }
        ensures tables { (stored : StoredRows) → IsAt self.old table stored
            → Turns self.old table (record stored { indexes = remove stored.indexes index }) self.new }
        ensures links { self.new.links ≡ self.old.links }
        ensures log { self.new.stored.log ≡ self.old.stored.log }
        ensures marks { (mark : ℕ) → KeepsMarks self.old self.new mark }
    {
        self.base.drop_index(table, index);
    }

    /// Undoes all edits of the log after a mark, newest first. Allocates nothing and cannot fail.
    pub fn revert(&mut self, mark: usize)
        requires mark { IsMark self.old mark }
        ensures rows { map rows_of self.new.tables ≡ rows_at_mark mark self.old }
        ensures log { mark_of self.new ≡ mark }
        ensures marks { (earlier : ℕ) → earlier ≤ mark → KeepsMarks self.old self.new earlier }
        ensures links { self.new.links ≡ self.old.links }
        ensures form { EachTurns SameForm self.old.tables self.new.tables }
    {
        self.base.revert(mark);
        rows_are_listed(&self.base);
    }

    /// Ends the transaction: the rows in use stay, and the log is empty. Each tree of a table that the log named keeps at most 64 spare
    /// nodes. Allocates nothing and cannot fail.
    pub fn settle(&mut self)
        ensures rows { map rows_of self.new.tables ≡ map rows_of self.old.tables }
        ensures log { self.new.stored.log ≡ [] }
        ensures links { self.new.links ≡ self.old.links }
        ensures form { EachTurns SameForm self.old.tables self.new.tables }
        ensures spares { All (λ (r : LogRecord). HasFewSparesAt 64 self.new r.table) self.old.stored.log }
    {
        rows_are_listed(&self.base);
        self.base.settle();
        rows_are_listed(&self.base);
    }
}

/// Lemma: the rows of each table are those of its slots, in the order of its key. The call visits the tables and does nothing else.
pub(super) fn rows_are_listed(base: &BaseTables)
    ensures { map rows_of (tables_of base.now).tables ≡ rows_now base.now.stored }
{
    base.are_lawful();
    base.are_whole();
}
