//! The rows of all tables. Edits that leave two rows with one key, a row without its target, or too many rows, are refused.
ghost use Rattle.std.specs.Prelude.{◌≡◌, ◌≢◌, ◌↔◌, ◌+◌, ◌<◌, ◌≤◌, ◌^◌, ℕ, false, [], ◌∷◌, ◌++◌, All, Contains, List, None, length, map, take, remove};
ghost use Rattle.std.specs.Prelude.{slice_index_or, slice_set, IsTrue, OnOk, OnErr};
ghost use Rattle.std.specs.Result.{result_err};
ghost use Rattle.mm_value.specs.declared.row_ref.RowRef.{RowRef};
ghost use Rattle.mm_value.specs.Storable.{AreStorable};
ghost use Rattle.mm_schema.specs.Refused.{first_refusal};
ghost use Rattle.mm_schema.specs.Rows.{has_duplicate_keys, most_rows};
ghost use Rattle.mm_partition.specs.Places.{Free, Hidden, slot_at};
ghost use Rattle.mm_partition.specs.Types.{HasTypes};
ghost use Rattle.mm_row_order.specs.Refs.{HasRow, row_at};
ghost use Rattle.mm_indexed.specs.RowLists.{rows_of};
ghost use Rattle.mm_link.specs.Links.{RefersTo};
ghost use Rattle.mm_tables.specs.Edits.{put, came_by};
ghost use Rattle.mm_tables.specs.Commands.{after, IsCommand};
ghost use Rattle.mm_tables.specs.Tables.{AddsTable, IndexAdded, without_index, shape_of, state_of, slots_in, keys_of, key_in, at_mark, logged};
ghost use Rattle.mm_tables.specs.Tables.{HasCapacity, HasFewSpares, HasRoom, HasRoomFor, HoldsAt, KeepsOthers};
ghost use Rattle.mm_tables.specs.declared.edit.Edit.{Edit as EditOf};
ghost use Rattle.mm_tables.specs.declared.logged_table.LoggedTable.{LoggedTable};
ghost use Rattle.mm_tables.specs.declared.edit.Edit.TheVariants as made;
ghost use Rattle.mm_base.specs.RowLists.{rows_in};
ghost use Rattle.mm_base.specs.Bases.{AreLawful, IsWhole, KeepsEntries, rows_now, rows_at_mark, rows_made, edit_conditions};
ghost use Rattle.mm_base.specs.Bases.{references_of, references_without};
ghost use Rattle.mm_base.specs.Columns.{IsFrom, IsReference};
ghost use Rattle.mm_base.specs.Joined.{HaveEntriesFor};

mod targets;

use crate::commands::{Orphans, change, undo};
use crate::links::{
    drop_links, follow, has_other_target, has_reference, new_links, reserve_all, retie_all,
};
use crate::orphans::{bring_orphans, leave_orphans};
use crate::whole::{are_few, is_whole, lawful_rows, slots_with};
use mm_indexed::IndexedRows;
use mm_link::Link;
use mm_schema::{IndexKind, Reference};
use mm_tables::{Edit, Tables};
use mm_value::{ColType, Refusal, RowRef, Value};
use std::alloc::{AllocError, Global};
use std::marker::Model;

/// The rows of all tables, and one log of the edits since the transaction began. A table is identified by its position in the order of
/// creation, and a savepoint by the length of the log.
#[derive(Drop)]
pub struct BaseTables {
    tables: Tables,
    /// The foreign keys of all tables, in the order of creation.
    links: Vec<Link>,
}

impl Model for BaseTables {
    ghost use Rattle.mm_base.specs.Bases.{Base, IsSound};

    ghost Value = { Base };

    ghost view = { λ s. record { stored = s.tables; links = s.links.items } };

    ghost invariant = { λ s. IsSound s.tables s.links.items };
}

impl BaseTables {
    /// Returns base tables without tables, with an empty log. Allocates nothing.
    pub fn new(alloc: Global) -> BaseTables
        ensures tables { result.stored.tables ≡ [] }
        ensures log { result.stored.log ≡ [] }
        ensures links { result.links ≡ [] }
    {
        BaseTables {
            tables: Tables::new(alloc),
            links: Vec::new(alloc),
        }
    }

    /// Lemma: in each table no two rows have one key, and there are at most 1,048,576 rows. The call does nothing.
    pub fn are_lawful(&self)
        ensures { AreLawful (keys_of self.now.stored.tables) (state_of self.now.stored.tables) }
    {
        let _tables = &self.tables;
    }

    /// Lemma: the rows of each table have the types of its columns and values that a program can have, and its indexes contain exactly
    /// their references. The call visits the tables and does nothing else.
    pub fn are_whole(&self)
        ensures { All (λ x. IsWhole x.rows) self.now.stored.tables }
    {
        for table in 0..self.tables.len() {
            is_whole(self.tables.table(table));
        }
    }

    /// Lemma: edits that only delete rows leave no two rows with one key, and not too many. The call does nothing.
    pub fn deletions_are_made(&self, table: usize)
        requires { table < length self.now.stored.tables }
        ensures apart { (edits : List EditOf)
            → IsCommand (key_in self.now.stored.tables table) edits (slots_in self.now.stored.tables table)
            → All (λ e. came_by e ≡ None) edits
            → has_duplicate_keys (key_in self.now.stored.tables table) (rows_made self.now.stored table edits) ≡ false }
        ensures few { (edits : List EditOf)
            → IsCommand (key_in self.now.stored.tables table) edits (slots_in self.now.stored.tables table)
            → All (λ e. came_by e ≡ None) edits → length (rows_made self.now.stored table edits) ≤ most_rows }
    {
        let _tables = &self.tables;
    }

    /// Returns the number of tables.
    pub fn len(&self) -> usize
        ensures { result ≡ length self.now.stored.tables }
    {
        self.tables.len()
    }

    /// Returns the length of the log: a savepoint, at which the state is the current one.
    pub fn mark(&self) -> usize
        ensures mark { result ≡ length self.now.stored.log }
        ensures state { at_mark self.now.stored result ≡ state_of self.now.stored.tables }
        ensures rows { rows_at_mark self.now.stored result ≡ rows_now self.now.stored }
        ensures lawful { AreLawful (keys_of self.now.stored.tables) (at_mark self.now.stored result) }
    {
        self.tables.mark()
    }

    /// Returns the rows of a table with their indexes.
    pub fn table(&self, table: usize) -> &IndexedRows
        requires { table < length self.now.stored.tables }
        ensures table { HoldsAt (λ x. result.now ≡ x.rows) self.now.stored.tables table }
        ensures whole { IsWhole result.now }
        ensures few { length result.now.refs ≤ most_rows }
        ensures slots { slot_at result.now.places ≡ slots_in self.now.stored.tables table }
        ensures key { result.now.key ≡ key_in self.now.stored.tables table }
        ensures rows { rows_of result.now ≡ rows_in (key_in self.now.stored.tables table) (slots_in self.now.stored.tables table) }
    {
        lawful_rows(&self.tables, table)
    }

    /// Returns whether a column of a table refers to another table, and to no other one.
    pub fn refers_only_to(&self, table: usize, column: usize, to: usize) -> bool
        ensures { IsTrue result ↔ IsReference (references_of self.now.links) table column to }
    {
        let reference = Reference {
            from: table,
            column,
            to,
        };
        let links = self.links.as_slice();
        has_reference(links, reference) && !has_other_target(links, reference)
    }

    /// Returns the row that a row in use refers to by a column, without a search.
    pub fn follow(&self, table: usize, column: usize, at: RowRef) -> RowRef
        requires refers { (to : ℕ) × Contains (references_of self.now.links) (record { from = table; column = column; to = to }) }
        requires live { HasRow (slots_in self.now.stored.tables table) at }
        ensures { (to : ℕ) × Contains (references_of self.now.links) (record { from = table; column = column; to = to })
            × RefersTo column (key_in self.now.stored.tables to) (slots_in self.now.stored.tables to)
            (row_at (slots_in self.now.stored.tables table) at) result }
    {
        follow(self.links.as_slice(), &self.tables, table, column, at)
    }

    /// Appends a table without rows, with columns of these types, one of them as the key, and these foreign keys. Fails with `AllocError`
    /// if an allocation fails; then nothing changes.
    pub fn add_table(
        &mut self,
        alloc: Global,
        types: &[ColType],
        key: usize,
        references: &[Reference],
    ) -> Result<(), AllocError>
        requires key { key < length types.now }
        requires references { All (IsFrom (length self.old.stored.tables) (length types.now)) references.now }
        requires log { self.old.stored.log ≡ [] }
        requires few { length self.old.stored.tables < 2 ^ 16 }
        ensures added { OnOk result (AddsTable key types.now self.old.stored.tables self.new.stored.tables) }
        ensures rows { OnOk result (rows_now self.new.stored ≡ rows_now self.old.stored ++ [] ∷ []) }
        ensures links { OnOk result (references_of self.new.links ≡ references_of self.old.links ++ references.now) }
        ensures log { self.new.stored.log ≡ [] }
        ensures err { OnErr result (self.new ≡ self.old) }
    {
        let mut links = new_links(alloc, &self.tables, references)?;
        let before = self.links.len();
        self.links.append(&mut links)?;
        if let Err(error) = self.tables.add_table(alloc, types, key) {
            self.links.truncate(before);
            return Err(error);
        }
        Ok(())
    }

    /// Drops a table to which no table refers, with its foreign keys. The tables after it move forward by one place.
    pub fn drop_table(&mut self, table: usize)
        requires within { table < length self.old.stored.tables }
        requires log { self.old.stored.log ≡ [] }
        requires unused { All (λ link. link.reference.to ≢ table) self.old.links }
        ensures tables { self.new.stored.tables ≡ remove self.old.stored.tables table }
        ensures rows { rows_now self.new.stored ≡ remove (rows_now self.old.stored) table }
        ensures links { references_of self.new.links ≡ references_without table (references_of self.old.links) }
        ensures log { self.new.stored.log ≡ [] }
    {
        self.tables.drop_table(table);
        drop_links(&mut self.links, table);
    }

    /// Appends an index on a column of a table over the rows in use, with capacity for the undo of the log. Fails with `AllocError` if an
    /// allocation fails; then nothing changes.
    pub fn add_index(
        &mut self,
        alloc: Global,
        table: usize,
        column: usize,
        kind: IndexKind,
    ) -> Result<(), AllocError>
        requires within { table < length self.old.stored.tables }
        requires column { HoldsAt (λ x. column < length x.rows.places.types) self.old.stored.tables table }
        ensures added { OnOk result ((d : LoggedTable)
            → IndexAdded column kind (slice_index_or self.old.stored.tables table d) (slice_index_or self.new.stored.tables table d)) }
        ensures rest { self.new.stored ≡ record self.old.stored { tables = self.new.stored.tables } }
        ensures others { KeepsOthers table self.old.stored.tables self.new.stored.tables }
        ensures state { state_of self.new.stored.tables ≡ state_of self.old.stored.tables }
        ensures rows { rows_now self.new.stored ≡ rows_now self.old.stored }
        ensures marks { (mark : ℕ) → at_mark self.new.stored mark ≡ at_mark self.old.stored mark }
        ensures saved { (mark : ℕ) → rows_at_mark self.new.stored mark ≡ rows_at_mark self.old.stored mark }
        ensures keys { keys_of self.new.stored.tables ≡ keys_of self.old.stored.tables }
        ensures links { self.new.links ≡ self.old.links }
        ensures entries { KeepsEntries self.old self.new }
        ensures err { OnErr result (self.new ≡ self.old) }
    {
        are_few(&self.tables, table);
        self.tables.add_index(alloc, table, column, kind)
    }

    /// Drops the index of a table at a place, counted from 0. The places of later indexes decrease by one.
    pub fn drop_index(&mut self, table: usize, index: usize)
        requires within { table < length self.old.stored.tables }
        requires index { HoldsAt (λ x. index < length x.rows.indexes) self.old.stored.tables table }
        ensures dropped { (d : LoggedTable) → slice_index_or self.new.stored.tables table d
            ≡ without_index index (slice_index_or self.old.stored.tables table d) }
        ensures rest { self.new.stored ≡ record self.old.stored { tables = self.new.stored.tables } }
        ensures others { KeepsOthers table self.old.stored.tables self.new.stored.tables }
        ensures state { state_of self.new.stored.tables ≡ state_of self.old.stored.tables }
        ensures rows { rows_now self.new.stored ≡ rows_now self.old.stored }
        ensures marks { (mark : ℕ) → at_mark self.new.stored mark ≡ at_mark self.old.stored mark }
        ensures saved { (mark : ℕ) → rows_at_mark self.new.stored mark ≡ rows_at_mark self.old.stored mark }
        ensures keys { keys_of self.new.stored.tables ≡ keys_of self.old.stored.tables }
        ensures links { self.new.links ≡ self.old.links }
        ensures entries { KeepsEntries self.old self.new }
    {
        self.tables.drop_index(table, index);
    }

    /// Reserves capacity for a command with `rows` new rows and `edits` edits of a table, in the table and in the log, and for its undo.
    /// Fails with `AllocError` if an allocation fails; then there may be more capacity, and all else is as before.
    pub fn reserve(
        &mut self,
        alloc: Global,
        table: usize,
        rows: usize,
        edits: usize,
    ) -> Result<(), AllocError>
        requires within { table < length self.old.stored.tables }
        requires few { edits < 2 ^ 32 }
        ensures capacity { OnOk result (HoldsAt (HasCapacity rows edits) self.new.stored.tables table) }
        ensures log_room { OnOk result (rows + edits ≤ self.new.stored.log_room) }
        ensures kept { (n m : ℕ) → HoldsAt (HasCapacity n m) self.old.stored.tables table → HoldsAt (HasCapacity n m) self.new.stored.tables table }
        ensures others { KeepsOthers table self.old.stored.tables self.new.stored.tables }
        ensures room { self.old.stored.log_room ≤ self.new.stored.log_room }
        ensures state { state_of self.new.stored.tables ≡ state_of self.old.stored.tables }
        ensures log { self.new.stored.log ≡ self.old.stored.log }
        ensures shapes { map shape_of self.new.stored.tables ≡ map shape_of self.old.stored.tables }
        ensures links { references_of self.new.links ≡ references_of self.old.links }
        ensures entries { OnOk result (HaveEntriesFor rows table self.new.stored.tables self.new.links) }
        ensures entries_kept { KeepsEntries self.old self.new }
    {
        let records = rows.checked_add(edits).ok_or(AllocError)?;
        let slots = slots_with(&self.tables, table, rows)?;
        reserve_all(alloc, &mut self.links, table, slots)?;
        self.tables.reserve(alloc, table, rows, edits)?;
        self.tables.reserve_log(records)
    }

    /// Reserves capacity for these edits of a table, in the table and in the log, and for their undo: an `Update` needs none in the index
    /// on the key. Fails with `AllocError` if an allocation fails; then there may be more capacity, and all else is as before.
    pub fn reserve_for(
        &mut self,
        alloc: Global,
        table: usize,
        edits: &[Edit],
    ) -> Result<(), AllocError>
        requires { table < length self.old.stored.tables }
        ensures capacity { OnOk result (HoldsAt (HasRoomFor edits.now) self.new.stored.tables table) }
        ensures log_room { OnOk result (length edits.now ≤ self.new.stored.log_room) }
        ensures kept { (n k m : ℕ) → HoldsAt (HasRoom n k m) self.old.stored.tables table → HoldsAt (HasRoom n k m) self.new.stored.tables table }
        ensures others { KeepsOthers table self.old.stored.tables self.new.stored.tables }
        ensures room { self.old.stored.log_room ≤ self.new.stored.log_room }
        ensures state { state_of self.new.stored.tables ≡ state_of self.old.stored.tables }
        ensures rest { self.new.stored ≡ record self.old.stored { tables = self.new.stored.tables; log_room = self.new.stored.log_room } }
        ensures shapes { map shape_of self.new.stored.tables ≡ map shape_of self.old.stored.tables }
        ensures links { self.new.links ≡ self.old.links }
        ensures entries { KeepsEntries self.old self.new }
    {
        self.tables.reserve_for(alloc, table, edits)?;
        self.tables.reserve_log(edits.len())
    }

    /// Moves the values of a new row of a table into a free slot, which becomes hidden, logs this, and returns the slot's reference. The
    /// rows in use stay the same.
    pub fn stage(&mut self, table: usize, values: &mut [Value]) -> RowRef
        requires within { table < length self.old.stored.tables }
        requires capacity { HoldsAt (HasCapacity 1 0) self.old.stored.tables table }
        requires log_room { 1 ≤ self.old.stored.log_room }
        requires entries { HaveEntriesFor 1 table self.old.stored.tables self.old.links }
        requires storable { AreStorable values.old }
        requires typed { HoldsAt (λ x. HasTypes x.rows.places.types values.old) self.old.stored.tables table }
        ensures fresh { slots_in self.old.stored.tables table result ≡ Free }
        ensures staged { state_of self.new.stored.tables
            ≡ slice_set (state_of self.old.stored.tables) table (put result (Hidden values.old) (slots_in self.old.stored.tables table)) }
        ensures rows { rows_now self.new.stored ≡ rows_now self.old.stored }
        ensures log { self.new.stored.log ≡ self.old.stored.log ++ logged table (made.Stage result) ∷ [] }
        ensures marks { (mark : ℕ) → mark ≤ length self.old.stored.log → at_mark self.new.stored mark ≡ at_mark self.old.stored mark }
        ensures saved { (mark : ℕ) → mark ≤ length self.old.stored.log
            → rows_at_mark self.new.stored mark ≡ rows_at_mark self.old.stored mark }
        ensures capacity { (n m : ℕ) → HoldsAt (HasCapacity (n + 1) m) self.old.stored.tables table → HoldsAt (HasCapacity n m) self.new.stored.tables table }
        ensures log_room { self.old.stored.log_room ≤ self.new.stored.log_room + 1 }
        ensures others { KeepsOthers table self.old.stored.tables self.new.stored.tables }
        ensures shapes { map shape_of self.new.stored.tables ≡ map shape_of self.old.stored.tables }
        ensures links { self.new.links ≡ self.old.links }
        ensures entries { (n : ℕ) → HaveEntriesFor (n + 1) table self.old.stored.tables self.old.links
            → HaveEntriesFor n table self.new.stored.tables self.new.links }
        ensures other_entries { (t n : ℕ) → t ≢ table → HaveEntriesFor n t self.old.stored.tables self.old.links
            → HaveEntriesFor n t self.new.stored.tables self.new.links }
    {
        self.tables.stage(table, values)
    }

    /// Makes the edits of a command in a table. Fails with the first refusal that is due: `DuplicateKey` if two rows would have one key,
    /// `NoTargetRow` if a row would refer to no row, `RowIsReferenced` if a row to which another one refers would be deleted or get another
    /// key, or `TableFull` if there would be more than 1,048,576 rows. Then all tables and the log are as they were at a mark, also without
    /// the rows that were staged since. Does not fail if an allocation fails.
    pub fn make(&mut self, mark: usize, table: usize, edits: &[Edit]) -> Result<(), Refusal>
        requires mark { mark ≤ length self.old.stored.log }
        requires lawful { AreLawful (keys_of self.old.stored.tables) (at_mark self.old.stored mark) }
        requires within { table < length self.old.stored.tables }
        requires command { IsCommand (key_in self.old.stored.tables table) edits.now (slots_in self.old.stored.tables table) }
        requires capacity { HoldsAt (HasRoomFor edits.now) self.old.stored.tables table }
        requires log_room { length edits.now ≤ self.old.stored.log_room }
        ensures due { result_err result ≡ first_refusal (edit_conditions self.old table edits.now) }
        ensures rows { OnOk result (rows_now self.new.stored
            ≡ slice_set (rows_now self.old.stored) table (rows_made self.old.stored table edits.now)) }
        ensures made { OnOk result (state_of self.new.stored.tables
            ≡ slice_set (state_of self.old.stored.tables) table (after edits.now (slots_in self.old.stored.tables table))) }
        ensures log { OnOk result (self.new.stored.log ≡ self.old.stored.log ++ map (logged table) edits.now) }
        ensures others { OnOk result (KeepsOthers table self.old.stored.tables self.new.stored.tables) }
        ensures log_room { OnOk result (self.old.stored.log_room ≤ self.new.stored.log_room + length edits.now) }
        ensures refused { OnErr result (state_of self.new.stored.tables ≡ at_mark self.old.stored mark) }
        ensures old_rows { OnErr result (rows_now self.new.stored ≡ rows_at_mark self.old.stored mark) }
        ensures old_log { OnErr result (self.new.stored.log ≡ take mark self.old.stored.log) }
        ensures marks { (earlier : ℕ) → earlier ≤ mark → at_mark self.new.stored earlier ≡ at_mark self.old.stored earlier }
        ensures saved { (earlier : ℕ) → earlier ≤ mark → rows_at_mark self.new.stored earlier ≡ rows_at_mark self.old.stored earlier }
        ensures shapes { map shape_of self.new.stored.tables ≡ map shape_of self.old.stored.tables }
        ensures links { references_of self.new.links ≡ references_of self.old.links }
        ensures entries { KeepsEntries self.old self.new }
    {
        let links = self.links.as_slice();
        let orphans = Orphans {
            lacks: bring_orphans(links, &self.tables, table, edits),
            leaves: leave_orphans(links, &self.tables, table, edits),
        };
        if let Err(refusal) = change(&mut self.tables, table, edits, orphans) {
            undo(&mut self.tables, &mut self.links, mark);
            return Err(refusal);
        }
        retie_all(&mut self.links, &self.tables, table, edits);
        Ok(())
    }

    /// Undoes all edits of the log after a mark, newest first. Allocates nothing and cannot fail.
    pub fn revert(&mut self, mark: usize)
        requires mark { mark ≤ length self.old.stored.log }
        requires lawful { AreLawful (keys_of self.old.stored.tables) (at_mark self.old.stored mark) }
        ensures rows { rows_now self.new.stored ≡ rows_at_mark self.old.stored mark }
        ensures state { state_of self.new.stored.tables ≡ at_mark self.old.stored mark }
        ensures log { self.new.stored.log ≡ take mark self.old.stored.log }
        ensures marks { (earlier : ℕ) → earlier ≤ mark → at_mark self.new.stored earlier ≡ at_mark self.old.stored earlier }
        ensures saved { (earlier : ℕ) → earlier ≤ mark → rows_at_mark self.new.stored earlier ≡ rows_at_mark self.old.stored earlier }
        ensures shapes { map shape_of self.new.stored.tables ≡ map shape_of self.old.stored.tables }
        ensures links { references_of self.new.links ≡ references_of self.old.links }
        ensures entries { KeepsEntries self.old self.new }
    {
        undo(&mut self.tables, &mut self.links, mark);
    }

    /// Ends the transaction: the rows in use stay, every other slot becomes free, and the log is empty. Each table that the log names may
    /// release free slots, and each of its trees keeps at most 64 spare nodes. Allocates nothing and cannot fail.
    pub fn settle(&mut self)
        ensures rows { rows_now self.new.stored ≡ rows_now self.old.stored }
        ensures log { self.new.stored.log ≡ [] }
        ensures live { (t : ℕ) (at : RowRef) → HasRow (slots_in self.old.stored.tables t) at
            → slots_in self.new.stored.tables t at ≡ slots_in self.old.stored.tables t at }
        ensures rest { (t : ℕ) (at : RowRef) → (HasRow (slots_in self.old.stored.tables t) at → ⊥)
            → slots_in self.new.stored.tables t at ≡ Free }
        ensures spares { All (λ r. HoldsAt (HasFewSpares 64) self.new.stored.tables r.table) self.old.stored.log }
        ensures shapes { map shape_of self.new.stored.tables ≡ map shape_of self.old.stored.tables }
        ensures links { self.new.links ≡ self.old.links }
        ensures entries { KeepsEntries self.old self.new }
    {
        self.tables.settle();
    }
}
