//! A table, and the capacity that the undo of its edits needs.
ghost use Rattle.std.specs.Prelude.{◌≡◌, ◌+◌, ◌≤◌, ◌<◌, ◌^◌, ℕ, All, length, map, OnOk, OnErr};
ghost use Rattle.mm_value.specs.Storable.{AreStorable};
ghost use Rattle.mm_schema.specs.Rows.{most_rows};
ghost use Rattle.mm_partition.specs.Places.{Free, Hidden};
ghost use Rattle.mm_partition.specs.Types.{HasTypes};
ghost use Rattle.mm_tables.specs.Commands.{after, update, DeletesAll, FitsForth, IsCommand, OwesAll, Suits};
ghost use Rattle.mm_tables.specs.Edits.{put, step, step_back, Fits, Stands, key_places, places, key_places_back, places_back, Owes};
ghost use Rattle.mm_tables.specs.Edits.{IsCleared, DropsHidden};
ghost use Rattle.mm_tables.specs.Tables.{extent_of_table, slots_of, shape_of, HasSpare, HasRoom, HasRoomFor, HasFewSpares, IndexAdded, without_index};

use crate::bulk::Bulk;
use crate::edit::Edit;
use crate::index_room::IndexRoom;
use crate::steps::{perform, release_hidden, take_back};
use mm_indexed::{Exchange, IndexedRows};
use mm_schema::IndexKind;
use mm_value::{RowRef, Value};
use std::alloc::{AllocError, Global};

/// The number of slots that trimming may visit per record.
const SLOTS_TO_A_RECORD: usize = 16;

/// The rows of a table, and the most entries that the undo of all logged edits inserts into its indexes.
#[derive(Drop)]
pub struct LoggedTable {
    pub(crate) rows: IndexedRows,
    pub(crate) owed: IndexRoom,
}

impl LoggedTable {
    /// Reserves capacity for `rows` new rows, and for more entries. `AllocError` if an allocation fails; then there may be more capacity.
    pub(crate) fn reserve(
        &mut self,
        alloc: Global,
        rows: usize,
        more: IndexRoom,
    ) -> Result<(), AllocError>
        ensures ok { OnOk result (HasRoom rows more.key more.indexes self.new) }
        ensures slots { slots_of self.new ≡ slots_of self.old }
        ensures owed { self.new.owed ≡ self.old.owed }
        ensures spare { (n m : ℕ) → HasSpare n m self.old.rows → HasSpare n m self.new.rows }
        ensures room { self.old.rows.places.room ≤ self.new.rows.places.room }
        ensures extent { extent_of_table self.new ≡ extent_of_table self.old }
        ensures shape { shape_of self.new ≡ shape_of self.old }
    {
        let key = self.owed.key.checked_add(more.key).ok_or(AllocError)?;
        let indexes = self
            .owed
            .indexes
            .checked_add(more.indexes)
            .ok_or(AllocError)?;
        self.rows.reserve(alloc, rows, key, indexes)
    }

    /// Moves the values of a new row into a free slot that is hidden.
    pub(crate) fn stage(&mut self, values: &mut [Value]) -> RowRef
        requires room { 1 ≤ self.old.rows.places.room }
        requires storable { AreStorable values.old }
        requires typed { HasTypes self.old.rows.places.types values.old }
        ensures fresh { slots_of self.old result ≡ Free }
        ensures slots { slots_of self.new ≡ put result (Hidden values.old) (slots_of self.old) }
        ensures back { put result Free (slots_of self.new) ≡ slots_of self.old }
        ensures hidden { slots_of self.new result ≡ Hidden values.old }
        ensures owed { self.new.owed ≡ self.old.owed }
        ensures spare { (n m : ℕ) → HasSpare n m self.old.rows → HasSpare n m self.new.rows }
        ensures room { self.new.rows.places.room + 1 ≡ self.old.rows.places.room }
        ensures extent { extent_of_table self.new ≤ extent_of_table self.old + 1 }
        ensures shape { shape_of self.new ≡ shape_of self.old }
    {
        self.rows.stage(values)
    }

    /// Makes an edit.
    pub(crate) fn change(&mut self, edit: Edit)
        requires fits { Fits self.old.rows.key (slots_of self.old) edit }
        requires room { HasRoom 0 (key_places edit) (places edit) self.old }
        requires few_keys { self.old.owed.key + 1 < 2 ^ 64 }
        requires few { self.old.owed.indexes + 1 < 2 ^ 64 }
        ensures slots { slots_of self.new ≡ step edit (slots_of self.old) }
        ensures back { step_back edit (slots_of self.new) ≡ slots_of self.old }
        ensures stands { Stands self.old.rows.key (slots_of self.new) edit }
        ensures owed { Owes edit self.old.owed self.new.owed }
        ensures spare { HasSpare self.new.owed.key self.new.owed.indexes self.new.rows }
        ensures room { (n k m : ℕ) → HasRoom n (k + key_places edit) (m + places edit) self.old → HasRoom n k m self.new }
        ensures extent { extent_of_table self.new ≡ extent_of_table self.old }
        ensures shape { shape_of self.new ≡ shape_of self.old }
    {
        perform(&mut self.rows, edit);
        let owed = edit.owed();
        self.owed.key += owed.key;
        self.owed.indexes += owed.indexes;
    }

    /// Makes edits that delete all rows in use, without a search for each of them.
    fn delete_all(&mut self, edits: &[Edit])
        requires deletes { DeletesAll edits.now self.old.rows }
        requires fits { FitsForth self.old.rows.key edits.now (slots_of self.old) }
        requires room { HasRoomFor edits.now self.old }
        requires few_keys { self.old.owed.key + length edits.now < 2 ^ 64 }
        requires few { self.old.owed.indexes + length edits.now < 2 ^ 64 }
        ensures slots { slots_of self.new ≡ after edits.now (slots_of self.old) }
        ensures owed { OwesAll edits.now self.old.owed self.new.owed }
        ensures spare { HasSpare self.new.owed.key self.new.owed.indexes self.new.rows }
        ensures extent { extent_of_table self.new ≡ extent_of_table self.old }
        ensures shape { shape_of self.new ≡ shape_of self.old }
    {
        self.rows.is_kept();
        self.rows.hide_all();
        self.owed.key += edits.len();
        self.owed.indexes += edits.len();
    }

    /// Makes the updates of many pairs, and rebuilds the changed indexes.
    fn update_all(&mut self, alloc: Global, pairs: &[Exchange])
        requires command { IsCommand self.old.rows.key (map update pairs.now) (slots_of self.old) }
        requires room { HasRoomFor (map update pairs.now) self.old }
        requires few { self.old.owed.indexes + length pairs.now < 2 ^ 64 }
        ensures slots { slots_of self.new ≡ after (map update pairs.now) (slots_of self.old) }
        ensures owed { OwesAll (map update pairs.now) self.old.owed self.new.owed }
        ensures spare { HasSpare self.new.owed.key self.new.owed.indexes self.new.rows }
        ensures extent { extent_of_table self.new ≡ extent_of_table self.old }
        ensures shape { shape_of self.new ≡ shape_of self.old }
    {
        self.rows.exchange_all_kept(alloc, pairs);
        self.owed.indexes += pairs.len();
    }

    /// Makes the edits of a command at once.
    pub(crate) fn change_bulk(&mut self, alloc: Global, edits: &[Edit], bulk: &Bulk)
        requires suits { Suits edits.now self.old.rows bulk.now }
        requires command { IsCommand self.old.rows.key edits.now (slots_of self.old) }
        requires room { HasRoomFor edits.now self.old }
        requires few_keys { self.old.owed.key + length edits.now < 2 ^ 64 }
        requires few { self.old.owed.indexes + length edits.now < 2 ^ 64 }
        ensures slots { slots_of self.new ≡ after edits.now (slots_of self.old) }
        ensures owed { OwesAll edits.now self.old.owed self.new.owed }
        ensures spare { HasSpare self.new.owed.key self.new.owed.indexes self.new.rows }
        ensures extent { extent_of_table self.new ≡ extent_of_table self.old }
        ensures shape { shape_of self.new ≡ shape_of self.old }
    {
        match bulk {
            Bulk::Deletions => self.delete_all(edits),
            Bulk::Updates(pairs) => self.update_all(alloc, pairs.as_slice()),
        }
    }

    /// Undoes an edit.
    pub(crate) fn undo(&mut self, edit: Edit)
        requires stands { Stands self.old.rows.key (slots_of self.old) edit }
        requires spare { HasSpare self.old.owed.key self.old.owed.indexes self.old.rows }
        requires owed_keys { key_places_back edit ≤ self.old.owed.key }
        requires owed { places_back edit ≤ self.old.owed.indexes }
        ensures slots { slots_of self.new ≡ step_back edit (slots_of self.old) }
        ensures owed { Owes edit self.new.owed self.old.owed }
        ensures spare { HasSpare self.new.owed.key self.new.owed.indexes self.new.rows }
        ensures extent { extent_of_table self.new ≡ extent_of_table self.old }
        ensures shape { shape_of self.new ≡ shape_of self.old }
    {
        take_back(&mut self.rows, edit);
        self.owe_less(edit);
    }

    /// Drops the row that an edit has hidden, if the row is still hidden, and no longer keeps capacity for the undo of the edit.
    pub(crate) fn forget(&mut self, edit: Edit)
        requires spare { HasSpare self.old.owed.key self.old.owed.indexes self.old.rows }
        requires owed_keys { key_places_back edit ≤ self.old.owed.key }
        requires owed { places_back edit ≤ self.old.owed.indexes }
        ensures cleared { IsCleared (slots_of self.new) edit }
        ensures others { DropsHidden (slots_of self.old) (slots_of self.new) }
        ensures owed { Owes edit self.new.owed self.old.owed }
        ensures spare { HasSpare self.new.owed.key self.new.owed.indexes self.new.rows }
        ensures extent { extent_of_table self.new ≡ extent_of_table self.old }
        ensures shape { shape_of self.new ≡ shape_of self.old }
    {
        release_hidden(&mut self.rows, edit);
        self.owe_less(edit);
    }

    /// No longer keeps capacity for the undo of the edit.
    fn owe_less(&mut self, edit: Edit)
        requires owed_keys { key_places_back edit ≤ self.old.owed.key }
        requires owed { places_back edit ≤ self.old.owed.indexes }
        ensures owed { Owes edit self.new.owed self.old.owed }
        ensures rows { self.new.rows ≡ self.old.rows }
    {
        let owed = edit.owed();
        self.owed.key -= owed.key;
        self.owed.indexes -= owed.indexes;
    }

    /// Appends an index on a column over the rows in use, with capacity for the undo of the log. `AllocError` if an allocation fails;
    /// then nothing changes.
    pub(crate) fn add_index(
        &mut self,
        alloc: Global,
        column: usize,
        kind: IndexKind,
    ) -> Result<(), AllocError>
        requires column { column < length self.old.rows.places.types }
        requires few { length self.old.rows.refs ≤ most_rows }
        ensures added { OnOk result (IndexAdded column kind self.old self.new) }
        ensures slots { slots_of self.new ≡ slots_of self.old }
        ensures key { self.new.rows.key ≡ self.old.rows.key }
        ensures owed { self.new.owed ≡ self.old.owed }
        ensures spare { HasSpare self.old.owed.key self.old.owed.indexes self.old.rows
            → HasSpare self.new.owed.key self.new.owed.indexes self.new.rows }
        ensures err { OnErr result (self.new ≡ self.old) }
    {
        self.rows.add_index(alloc, column, kind, self.owed.indexes)
    }

    /// Drops the index at a place, counted from 0.
    pub(crate) fn drop_index(&mut self, index: usize)
        requires { index < length self.old.rows.indexes }
        ensures dropped { self.new ≡ without_index index self.old }
        ensures spare { (n m : ℕ) → HasSpare n m self.old.rows → HasSpare n m self.new.rows }
    {
        self.rows.drop_index(index);
    }

    /// Drops the highest free slots, unless there were few records for the slots of the table: the cost of this grows with the slots.
    fn trim_slots(&mut self, records: usize)
        ensures slots { slots_of self.new ≡ slots_of self.old }
        ensures owed { self.new.owed ≡ self.old.owed }
        ensures extent { extent_of_table self.new ≤ extent_of_table self.old }
        ensures shape { shape_of self.new ≡ shape_of self.old }
    {
        if records >= self.rows.extent() / SLOTS_TO_A_RECORD {
            self.rows.trim_slots();
        }
    }

    /// Drops the highest free slots after that many records, and frees spare nodes of each tree until it has at most `n`. Requires that no
    /// capacity is owed for an undo.
    pub(crate) fn trim(&mut self, n: usize, records: usize)
        requires key { self.old.owed.key ≡ 0 }
        requires indexes { self.old.owed.indexes ≡ 0 }
        ensures few { HasFewSpares n self.new }
        ensures slots { slots_of self.new ≡ slots_of self.old }
        ensures owed { self.new.owed ≡ self.old.owed }
        ensures extent { extent_of_table self.new ≤ extent_of_table self.old }
        ensures shape { shape_of self.new ≡ shape_of self.old }
    {
        self.trim_slots(records);
        self.rows.trim_spares(n);
    }
}
