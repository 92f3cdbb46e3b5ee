//! All tables, and one log of the edits since the transaction began.
ghost use Rattle.std.specs.Prelude.{◌≡◌, ◌≢◌, ◌+◌, ◌<◌, ◌≤◌, ◌^◌, ℕ, [], ◌∷◌, ◌++◌, All, List, length, map, drop, take, remove, slice_set};
ghost use Rattle.std.specs.Prelude.{slice_index_or, OnOk, OnErr};
ghost use Rattle.std.specs.Bool.{OnTrue, OnFalse};
ghost use Rattle.mm_value.specs.declared.row_ref.RowRef.{RowRef};
ghost use Rattle.mm_value.specs.Storable.{AreStorable};
ghost use Rattle.mm_partition.specs.Places.{Free, Hidden};
ghost use Rattle.mm_partition.specs.Types.{HasTypes};
ghost use Rattle.mm_row_order.specs.Refs.{HasRow};
ghost use Rattle.mm_indexed.specs.Twins.{AreApart};
ghost use Rattle.mm_schema.specs.Rows.{most_rows};
ghost use Rattle.mm_tables.specs.Edits.{put, step, Fits, key_places, places};
ghost use Rattle.mm_tables.specs.Commands.{after, IsCommand, Suits};
ghost use Rattle.mm_tables.specs.Tables.{AddsTable, IndexAdded, without_index, extent_in, extents_of, shape_of, state_of, slots_in, key_in, at_mark, logged};
ghost use Rattle.mm_tables.specs.Tables.{HasCapacity, HasRoom, HasRoomFor, HasFewSpares, HoldsAt, KeepsOthers, IsLogged, IsUndone};
ghost use Rattle.mm_tables.specs.declared.edit.Edit.TheVariants as made;

use crate::bulk::{Bulk, bulk_of, log_all};
use crate::edit::{Edit, room_for};
use crate::index_room::IndexRoom;
use crate::log_record::LogRecord;
use crate::logged_table::LoggedTable;
use crate::trims::{forget_all, trim_all};
use crate::twins::{bring_twins, brings_key, lone_insert};
use mm_indexed::IndexedRows;
use mm_schema::IndexKind;
use mm_value::{ColType, RowRef, Value};
use std::alloc::{AllocError, Global};
use std::marker::Model;

/// The most records for which an empty log keeps capacity.
const MAX_KEPT: usize = 128;

/// The rows of all tables, and one log of the edits since the transaction began. A savepoint is a number, the length of the log.
#[derive(Drop)]
pub struct Tables {
    tables: Vec<LoggedTable>,
    /// The records of the edits, the oldest first.
    log: Vec<LogRecord>,
}

impl Model for Tables {
    ghost use Rattle.std.specs.Prelude.{◌-◌};
    ghost use Rattle.std.specs.Vec.{vec_len, vec_capacity};
    ghost use Rattle.mm_tables.specs.Tables.{Stored, IsLogged};

    ghost Value = { Stored };

    ghost view = { λ s. record {
      tables = s.tables.items;
      log = s.log.items;
      log_room = vec_capacity s.log - vec_len s.log;
    } };

    ghost invariant = { λ s. IsLogged s.tables.items s.log.items };
}

impl Tables {
    /// Returns no tables, with an empty log. Allocates nothing.
    pub fn new(alloc: Global) -> Tables
        ensures tables { result.tables ≡ [] }
        ensures log { result.log ≡ [] }
    {
        Tables {
            tables: Vec::new(alloc),
            log: Vec::new(alloc),
        }
    }

    /// Lemma: the log can be undone, which leads to slots without hidden rows, and there is capacity for it. The call does nothing.
    pub fn is_logged(&self)
        ensures { IsLogged self.now.tables self.now.log }
    {
        let _log = &self.log;
    }

    /// Returns the number of tables.
    pub fn len(&self) -> usize
        ensures { result ≡ length self.now.tables }
    {
        self.tables.len()
    }

    /// Appends a table with no rows, of columns of these types, with one of them as the key. `AllocError` if an allocation fails; then
    /// nothing changes.
    pub fn add_table(
        &mut self,
        alloc: Global,
        types: &[ColType],
        key: usize,
    ) -> Result<(), AllocError>
        requires key { key < length types.now }
        requires log { self.old.log ≡ [] }
        requires few { length self.old.tables < 2 ^ 16 }
        ensures added { OnOk result (AddsTable key types.now self.old.tables self.new.tables) }
        ensures log { self.new.log ≡ [] }
        ensures err { OnErr result (self.new ≡ self.old) }
    {
        self.tables.reserve(1)?;
        let rows = IndexedRows::new(alloc, types, key)?;
        let owed = IndexRoom { key: 0, indexes: 0 };
        self.tables.push_reserved(LoggedTable { rows, owed });
        Ok(())
    }

    /// Drops a table. The places of later tables decrease by one.
    pub fn drop_table(&mut self, table: usize)
        requires within { table < length self.old.tables }
        requires log { self.old.log ≡ [] }
        ensures tables { self.new.tables ≡ remove self.old.tables table }
        ensures log { self.new.log ≡ [] }
    {
        self.tables.remove(table);
    }

    /// Appends an index on a column of a table over the rows in use, of which there are at most 1,048,576, with capacity for the undo
    /// of the log. `AllocError` if an allocation fails; then nothing changes.
    pub fn add_index(
        &mut self,
        alloc: Global,
        table: usize,
        column: usize,
        kind: IndexKind,
    ) -> Result<(), AllocError>
        requires within { table < length self.old.tables }
        requires column { HoldsAt (λ x. column < length x.rows.places.types) self.old.tables table }
        requires few { HoldsAt (λ x. length x.rows.refs ≤ most_rows) self.old.tables table }
        ensures added { OnOk result ((d : LoggedTable)
            → IndexAdded column kind (slice_index_or self.old.tables table d) (slice_index_or self.new.tables table d)) }
        ensures rest { self.new ≡ record self.old { tables = self.new.tables } }
        ensures others { KeepsOthers table self.old.tables self.new.tables }
        ensures state { state_of self.new.tables ≡ state_of self.old.tables }
        ensures marks { (mark : ℕ) → at_mark self.new mark ≡ at_mark self.old mark }
        ensures err { OnErr result (self.new ≡ self.old) }
    {
        self.tables[table].add_index(alloc, column, kind)
    }

    /// Drops the index of a table at a place, counted from 0. The places of later indexes decrease by one.
    pub fn drop_index(&mut self, table: usize, index: usize)
        requires within { table < length self.old.tables }
        requires index { HoldsAt (λ x. index < length x.rows.indexes) self.old.tables table }
        ensures dropped { (d : LoggedTable) → slice_index_or self.new.tables table d ≡ without_index index (slice_index_or self.old.tables table d) }
        ensures rest { self.new ≡ record self.old { tables = self.new.tables } }
        ensures others { KeepsOthers table self.old.tables self.new.tables }
        ensures state { state_of self.new.tables ≡ state_of self.old.tables }
        ensures marks { (mark : ℕ) → at_mark self.new mark ≡ at_mark self.old mark }
    {
        self.tables[table].drop_index(index);
    }

    /// Returns the rows of a table with their indexes.
    pub fn table(&self, table: usize) -> &IndexedRows
        requires { table < length self.now.tables }
        ensures { HoldsAt (λ x. result.now ≡ x.rows) self.now.tables table }
    {
        &self.tables[table].rows
    }

    /// Returns the records of the log, the oldest first.
    pub fn records(&self) -> &[LogRecord]
        ensures { result.now ≡ self.now.log }
    {
        self.log.as_slice()
    }

    /// Returns the length of the log: a savepoint.
    pub fn mark(&self) -> usize
        ensures { result ≡ length self.now.log }
    {
        self.log.len()
    }

    /// Reserves capacity for `rows` new rows of a table and `edits` edits, and for their undo. `AllocError` if an allocation fails; then
    /// there may be more capacity, and all else is as before.
    pub fn reserve(
        &mut self,
        alloc: Global,
        table: usize,
        rows: usize,
        edits: usize,
    ) -> Result<(), AllocError>
        requires within { table < length self.old.tables }
        requires few { edits < 2 ^ 32 }
        ensures capacity { OnOk result (HoldsAt (HasCapacity rows edits) self.new.tables table) }
        ensures kept { (n m : ℕ) → HoldsAt (HasCapacity n m) self.old.tables table → HoldsAt (HasCapacity n m) self.new.tables table }
        ensures others { KeepsOthers table self.old.tables self.new.tables }
        ensures state { state_of self.new.tables ≡ state_of self.old.tables }
        ensures log { self.new.log ≡ self.old.log }
        ensures log_room { self.new.log_room ≡ self.old.log_room }
        ensures extents { extents_of self.new.tables ≡ extents_of self.old.tables }
        ensures shapes { map shape_of self.new.tables ≡ map shape_of self.old.tables }
    {
        let entries = 2 * edits;
        let more = IndexRoom {
            key: entries,
            indexes: entries,
        };
        self.reserve_room(alloc, table, rows, more)
    }

    /// Reserves capacity for these edits of a table, and for their undo: an `Update` needs none in the index on the key. `AllocError` if an
    /// allocation fails; then there may be more capacity, and all else is as before.
    pub fn reserve_for(
        &mut self,
        alloc: Global,
        table: usize,
        edits: &[Edit],
    ) -> Result<(), AllocError>
        requires { table < length self.old.tables }
        ensures capacity { OnOk result (HoldsAt (HasRoomFor edits.now) self.new.tables table) }
        ensures kept { (n k m : ℕ) → HoldsAt (HasRoom n k m) self.old.tables table → HoldsAt (HasRoom n k m) self.new.tables table }
        ensures others { KeepsOthers table self.old.tables self.new.tables }
        ensures state { state_of self.new.tables ≡ state_of self.old.tables }
        ensures rest { self.new ≡ record self.old { tables = self.new.tables } }
        ensures extents { extents_of self.new.tables ≡ extents_of self.old.tables }
        ensures shapes { map shape_of self.new.tables ≡ map shape_of self.old.tables }
    {
        self.reserve_room(alloc, table, 0, room_for(edits))
    }

    /// Reserves capacity for `rows` new rows of a table, and for `more` entries of its indexes. `AllocError` if an allocation fails; then
    /// there may be more capacity, and all else is as before.
    pub fn reserve_room(
        &mut self,
        alloc: Global,
        table: usize,
        rows: usize,
        more: IndexRoom,
    ) -> Result<(), AllocError>
        requires { table < length self.old.tables }
        ensures room { OnOk result (HoldsAt (HasRoom rows more.key more.indexes) self.new.tables table) }
        ensures kept { (n k m : ℕ) → HoldsAt (HasRoom n k m) self.old.tables table → HoldsAt (HasRoom n k m) self.new.tables table }
        ensures others { KeepsOthers table self.old.tables self.new.tables }
        ensures state { state_of self.new.tables ≡ state_of self.old.tables }
        ensures rest { self.new ≡ record self.old { tables = self.new.tables } }
        ensures extents { extents_of self.new.tables ≡ extents_of self.old.tables }
        ensures shapes { map shape_of self.new.tables ≡ map shape_of self.old.tables }
    {
        self.tables[table].reserve(alloc, rows, more)
    }

    /// Reserves capacity for `records` records of the log. `AllocError` if the allocation fails; then nothing changes.
    pub fn reserve_log(&mut self, records: usize) -> Result<(), AllocError>
        ensures ok { OnOk result (records ≤ self.new.log_room) }
        ensures room { self.old.log_room ≤ self.new.log_room }
        ensures rest { self.new ≡ record self.old { log_room = self.new.log_room } }
    {
        self.log.reserve(records)
    }

    /// Moves the values of a new row into a free slot that is hidden, logs that, and returns its reference.
    pub fn stage(&mut self, table: usize, values: &mut [Value]) -> RowRef
        requires within { table < length self.old.tables }
        requires capacity { HoldsAt (HasCapacity 1 0) self.old.tables table }
        requires log_room { 1 ≤ self.old.log_room }
        requires storable { AreStorable values.old }
        requires typed { HoldsAt (λ x. HasTypes x.rows.places.types values.old) self.old.tables table }
        ensures fresh { slots_in self.old.tables table result ≡ Free }
        ensures staged { state_of self.new.tables
            ≡ slice_set (state_of self.old.tables) table (put result (Hidden values.old) (slots_in self.old.tables table)) }
        ensures log { self.new.log ≡ self.old.log ++ logged table (made.Stage result) ∷ [] }
        ensures marks { (mark : ℕ) → mark ≤ length self.old.log → at_mark self.new mark ≡ at_mark self.old mark }
        ensures capacity { (n m : ℕ) → HoldsAt (HasCapacity (n + 1) m) self.old.tables table → HoldsAt (HasCapacity n m) self.new.tables table }
        ensures room { (n k m : ℕ) → HoldsAt (HasRoom (n + 1) k m) self.old.tables table → HoldsAt (HasRoom n k m) self.new.tables table }
        ensures log_room { self.old.log_room ≤ self.new.log_room + 1 }
        ensures others { KeepsOthers table self.old.tables self.new.tables }
        ensures extent { extent_in self.new.tables table ≤ extent_in self.old.tables table + 1 }
        ensures extents { (t : ℕ) → t ≢ table → extent_in self.new.tables t ≡ extent_in self.old.tables t }
        ensures shapes { map shape_of self.new.tables ≡ map shape_of self.old.tables }
    {
        let at = self.tables[table].stage(values);
        self.log.push_reserved(LogRecord {
            table: table as u16,
            edit: Edit::Stage(at),
        });
        at
    }

    /// Makes an edit of a table, and logs it.
    pub fn change(&mut self, table: usize, edit: Edit)
        requires within { table < length self.old.tables }
        requires fits { Fits (key_in self.old.tables table) (slots_in self.old.tables table) edit }
        requires capacity { HoldsAt (HasRoom 0 (key_places edit) (places edit)) self.old.tables table }
        requires log_room { 1 ≤ self.old.log_room }
        ensures state { state_of self.new.tables
            ≡ slice_set (state_of self.old.tables) table (step edit (slots_in self.old.tables table)) }
        ensures log { self.new.log ≡ self.old.log ++ logged table edit ∷ [] }
        ensures marks { (mark : ℕ) → mark ≤ length self.old.log → at_mark self.new mark ≡ at_mark self.old mark }
        ensures capacity { (n m : ℕ) → HoldsAt (HasCapacity n (m + 1)) self.old.tables table → HoldsAt (HasCapacity n m) self.new.tables table }
        ensures room { (n k m : ℕ) → HoldsAt (HasRoom n (k + key_places edit) (m + places edit)) self.old.tables table
            → HoldsAt (HasRoom n k m) self.new.tables table }
        ensures log_room { self.old.log_room ≤ self.new.log_room + 1 }
        ensures others { KeepsOthers table self.old.tables self.new.tables }
        ensures extents { extents_of self.new.tables ≡ extents_of self.old.tables }
        ensures shapes { map shape_of self.new.tables ≡ map shape_of self.old.tables }
    {
        self.tables[table].change(edit);
        self.log.push_reserved(LogRecord {
            table: table as u16,
            edit,
        });
    }

    /// Undoes the newest change, and returns its record. Allocates nothing and cannot fail.
    pub fn undo_last(&mut self) -> LogRecord
        requires { 0 < length self.old.log }
        ensures undone { IsUndone result self.old self.new }
        ensures extents { extents_of self.new.tables ≡ extents_of self.old.tables }
        ensures shapes { map shape_of self.new.tables ≡ map shape_of self.old.tables }
    {
        let Some(newest) = self.log.pop() else {
            unreachable!();
        };
        self.tables[newest.table as usize].undo(newest.edit);
        newest
    }

    /// Undoes all changes that the log has beyond a savepoint, the newest first. Allocates nothing and cannot fail.
    pub fn revert(&mut self, mark: usize)
        requires { mark ≤ length self.old.log }
        ensures state { state_of self.new.tables ≡ at_mark self.old mark }
        ensures log { self.new.log ≡ take mark self.old.log }
        ensures marks { (earlier : ℕ) → earlier ≤ mark → at_mark self.new earlier ≡ at_mark self.old earlier }
        ensures extents { extents_of self.new.tables ≡ extents_of self.old.tables }
        ensures shapes { map shape_of self.new.tables ≡ map shape_of self.old.tables }
    {
        while self.log.len() > mark {
            self.undo_last();
        }
    }

    /// Makes the edits of a command in a table at once.
    fn change_bulk(&mut self, alloc: Global, table: usize, edits: &[Edit], bulk: &Bulk)
        requires within { table < length self.old.tables }
        requires suits { HoldsAt (λ x. Suits edits.now x.rows bulk.now) self.old.tables table }
        requires command { IsCommand (key_in self.old.tables table) edits.now (slots_in self.old.tables table) }
        requires capacity { HoldsAt (HasRoomFor edits.now) self.old.tables table }
        requires log_room { length edits.now ≤ self.old.log_room }
        ensures state { state_of self.new.tables
            ≡ slice_set (state_of self.old.tables) table (after edits.now (slots_in self.old.tables table)) }
        ensures log { self.new.log ≡ self.old.log ++ map (logged table) edits.now }
        ensures marks { (mark : ℕ) → mark ≤ length self.old.log → at_mark self.new mark ≡ at_mark self.old mark }
        ensures log_room { self.old.log_room ≤ self.new.log_room + length edits.now }
        ensures others { KeepsOthers table self.old.tables self.new.tables }
        ensures extents { extents_of self.new.tables ≡ extents_of self.old.tables }
        ensures shapes { map shape_of self.new.tables ≡ map shape_of self.old.tables }
    {
        self.tables[table].change_bulk(alloc, edits, bulk);
        log_all(&mut self.log, table as u16, edits);
    }

    /// Makes the edits of a command in a table, one after the other, unless they can be made at once.
    fn change_all(&mut self, table: usize, edits: &[Edit])
        requires within { table < length self.old.tables }
        requires command { IsCommand (key_in self.old.tables table) edits.now (slots_in self.old.tables table) }
        requires capacity { HoldsAt (HasRoomFor edits.now) self.old.tables table }
        requires log_room { length edits.now ≤ self.old.log_room }
        ensures state { state_of self.new.tables
            ≡ slice_set (state_of self.old.tables) table (after edits.now (slots_in self.old.tables table)) }
        ensures log { self.new.log ≡ self.old.log ++ map (logged table) edits.now }
        ensures marks { (mark : ℕ) → mark ≤ length self.old.log → at_mark self.new mark ≡ at_mark self.old mark }
        ensures log_room { self.old.log_room ≤ self.new.log_room + length edits.now }
        ensures others { KeepsOthers table self.old.tables self.new.tables }
        ensures extents { extents_of self.new.tables ≡ extents_of self.old.tables }
        ensures shapes { map shape_of self.new.tables ≡ map shape_of self.old.tables }
    {
        let alloc = *self.log.allocator();
        if let Some(bulk) = bulk_of(alloc, &self.tables[table].rows, edits) {
            self.change_bulk(alloc, table, edits, &bulk);
            return;
        }
        for edit in edits {
            self.change(table, *edit);
        }
    }

    /// Makes the edits of a command in a table and returns `true`, unless they leave two rows with one key. In that case, rolls all tables
    /// and the log back to a savepoint, including the rows staged since, and returns `false`. Does not fail if an allocation fails.
    pub fn make(&mut self, mark: usize, table: usize, edits: &[Edit]) -> bool
        requires mark { mark ≤ length self.old.log }
        requires within { table < length self.old.tables }
        requires command { IsCommand (key_in self.old.tables table) edits.now (slots_in self.old.tables table) }
        requires apart { AreApart (key_in self.old.tables table) (slots_in self.old.tables table) }
        requires capacity { HoldsAt (HasRoomFor edits.now) self.old.tables table }
        requires log_room { length edits.now ≤ self.old.log_room }
        ensures made { OnTrue result (state_of self.new.tables
            ≡ slice_set (state_of self.old.tables) table (after edits.now (slots_in self.old.tables table))) }
        ensures log { OnTrue result (self.new.log ≡ self.old.log ++ map (logged table) edits.now) }
        ensures apart { OnTrue result (AreApart (key_in self.old.tables table) (slots_in self.new.tables table)) }
        ensures others { OnTrue result (KeepsOthers table self.old.tables self.new.tables) }
        ensures log_room { OnTrue result (self.old.log_room ≤ self.new.log_room + length edits.now) }
        ensures refused { OnFalse result (state_of self.new.tables ≡ at_mark self.old mark) }
        ensures old_log { OnFalse result (self.new.log ≡ take mark self.old.log) }
        ensures twins { OnFalse result (AreApart (key_in self.old.tables table) (after edits.now (slots_in self.old.tables table)) → ⊥) }
        ensures marks { (earlier : ℕ) → earlier ≤ mark → at_mark self.new earlier ≡ at_mark self.old earlier }
        ensures extents { extents_of self.new.tables ≡ extents_of self.old.tables }
        ensures shapes { map shape_of self.new.tables ≡ map shape_of self.old.tables }
    {
        if let Some(at) = lone_insert(edits) {
            if brings_key(&self.tables[table].rows, at) {
                self.revert(mark);
                return false;
            }
            self.change_all(table, edits);
            return true;
        }
        self.change_all(table, edits);
        if bring_twins(&self.tables[table].rows, edits) {
            self.revert(mark);
            return false;
        }
        true
    }

    /// Ends the transaction: rows in use stay, every other slot becomes free, and the log is empty. Each table that the log names
    /// drops its highest free slots, and each of its trees keeps at most 64 spare nodes. Allocates nothing and cannot fail.
    pub fn settle(&mut self)
        ensures log { self.new.log ≡ [] }
        ensures live { (t : ℕ) (at : RowRef) → HasRow (slots_in self.old.tables t) at
            → slots_in self.new.tables t at ≡ slots_in self.old.tables t at }
        ensures rest { (t : ℕ) (at : RowRef) → (HasRow (slots_in self.old.tables t) at → ⊥) → slots_in self.new.tables t at ≡ Free }
        ensures extents { (t : ℕ) → extent_in self.new.tables t ≤ extent_in self.old.tables t }
        ensures shapes { map shape_of self.new.tables ≡ map shape_of self.old.tables }
        ensures spares { All (λ r. HoldsAt (HasFewSpares 64) self.new.tables r.table) self.old.log }
    {
        let records = self.log.as_slice();
        forget_all(&mut self.tables, records);
        trim_all(&mut self.tables, records);
        self.log.clear();
        self.log.shrink_to(MAX_KEPT);
    }
}
