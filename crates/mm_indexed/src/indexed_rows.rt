//! Rows with the index on their key and any further indexes.
ghost use Rattle.std.specs.Prelude.{◌≡◌, ◌+◌, ◌<◌, ◌≤◌, ◌↔◌, [], ◌∷◌, List, Some, length, max, slice_get, All, IfOk, OnOk, IsTrue};
ghost use Rattle.std.specs.declared.cmp.Ordering.TheVariants.{Equal};
ghost use Rattle.mm_value.specs.declared.row_ref.RowRef.{RowRef};
ghost use Rattle.mm_value.specs.declared.values.Value.{Value};
ghost use Rattle.mm_value.specs.Storable.{AreStorable};
ghost use Rattle.mm_schema.specs.Rows.{most_rows, same_in_column};
ghost use Rattle.mm_partition.specs.Places.{Free, Live, Hidden, slot_at, extent_of, IsLive, IsHidden, IsUnchanged, ChangesOnly, ChangesTwo};
ghost use Rattle.mm_partition.specs.Types.{HasTypes};
ghost use Rattle.mm_row_order.specs.Refs.{row_at};
ghost use Rattle.mm_partition.specs.Views.{viewed};
ghost use Rattle.mm_indexed.specs.Index.{spare_of};
ghost use Rattle.mm_indexed.specs.Kept.{SameTable};
ghost use Rattle.mm_indexed.specs.Twins.{HasTwin, keys_by};

mod exchanging;
mod hiding;
mod indexing;
mod laws;
mod look_up;
mod prefix;
mod reads;
mod served;
mod spares;

use crate::indexes::index::Index;
use crate::indexes::tree_entries::{insert, remove};
use crate::indexes::{insert_into_all, remove_from_all, reserve_all};
use crate::moves::have_one_value;
use crate::twins::has_twin_in;
use mm_order::OrderedRefs;
use mm_partition::{Partitions, RowView};
use mm_value::{ColType, RowRef, Value};
use std::alloc::{AllocError, Global};
use std::marker::Model;
use ttree::{Iter, TTree};

/// The rows of a table, with a T-tree over their key and any further indexes. A change of one slot keeps each index. Two rows may have one
/// key while a command runs, and `has_twin` finds such rows.
#[derive(Drop)]
pub struct IndexedRows {
    key: usize,
    rows: Partitions,
    by_key: TTree,
    indexes: Vec<Index>,
}

impl Model for IndexedRows {
    ghost use Rattle.mm_partition.specs.Places.{slot_at};
    ghost use Rattle.mm_indexed.specs.Kept.{StoredRows, IsKept};

    ghost Value = { StoredRows };

    ghost view = { λ t. record {
      key = t.key;
      places = t.rows;
      refs = t.by_key.refs;
      spare = t.by_key.spare;
      indexes = t.indexes.items;
    } };

    ghost invariant = { λ t. IsKept t.rows.types t.key (slot_at t.rows) t.by_key.refs t.indexes.items };
}

impl IndexedRows {
    /// Returns a table without rows and further indexes, of columns of these types, with one of them as the key. Prefixes of the key are
    /// kept if it is a text. `AllocError` if an allocation fails.
    pub fn new(alloc: Global, types: &[ColType], key: usize) -> Result<IndexedRows, AllocError>
        requires { key < length types.now }
        ensures places { IfOk result (λ table. (at : RowRef) → slot_at table.places at ≡ Free) }
        ensures types { IfOk result (λ table. table.places.types ≡ types.now) }
        ensures key { IfOk result (λ table. table.key ≡ key) }
        ensures extent { IfOk result (λ table. extent_of table.places ≡ 0) }
        ensures room { IfOk result (λ table. table.places.room ≡ 0) }
        ensures refs { IfOk result (λ table. table.refs ≡ []) }
        ensures spare { IfOk result (λ table. table.spare ≡ 0) }
        ensures indexes { IfOk result (λ table. table.indexes ≡ []) }
    {
        let mut rows = Partitions::new(alloc, types)?;
        rows.track(alloc, key)?;
        Ok(IndexedRows {
            key,
            rows,
            by_key: TTree::new(alloc),
            indexes: Vec::new(alloc),
        })
    }

    /// Returns the number of rows in use.
    pub fn len(&self) -> usize
        ensures { result ≡ length self.now.refs }
    {
        self.by_key.len()
    }

    /// Returns the place of the key column, counted from 0.
    pub fn key(&self) -> usize
        ensures { result ≡ self.now.key }
    {
        self.key
    }

    /// Returns the type of a column.
    pub fn column_type(&self, column: usize) -> ColType
        requires { column < length self.now.places.types }
        ensures { slice_get self.now.places.types column ≡ Some result }
    {
        self.rows.column_type(column)
    }

    /// Returns the number of slots used so far: the slot of each reference to a row, in use or hidden, is below it.
    pub fn extent(&self) -> usize
        ensures { result ≡ extent_of self.now.places }
    {
        self.rows.extent()
    }

    /// Returns the row of a reference in use, without a copy.
    pub fn row(&self, at: RowRef) -> RowView<'_>
        requires { IsLive self.now.places at }
        ensures { slot_at self.now.places at ≡ Live (viewed result) }
    {
        self.rows.get(at)
    }

    /// Returns the hidden row of a reference, without a copy.
    pub fn hidden_row(&self, at: RowRef) -> RowView<'_>
        requires { IsHidden self.now.places at }
        ensures { slot_at self.now.places at ≡ Hidden (viewed result) }
    {
        self.rows.get_hidden(at)
    }

    /// Iterates over the references of the rows in use, in the order of the key. Requires at most 1,048,576 rows.
    pub fn by_key(&self) -> Iter<'_>
        requires { length self.now.refs ≤ most_rows }
        ensures refs { result ≡ self.now.refs }
        ensures live { All (IsLive self.now.places) result }
    {
        self.by_key.iter()
    }

    /// Returns the further indexes, without that on the key.
    pub fn indexes(&self) -> &[Index]
        ensures { result.now ≡ self.now.indexes }
    {
        self.indexes.as_slice()
    }

    /// Reserves capacity for `n` more rows, for `key` more entries in the index on the key, and for `m` more in each further index.
    /// `AllocError` if an allocation fails; then there may be more capacity, and all else is as before.
    pub fn reserve(
        &mut self,
        alloc: Global,
        n: usize,
        key: usize,
        m: usize,
    ) -> Result<(), AllocError>
        ensures rows { OnOk result (n ≤ self.new.places.room) }
        ensures refs { OnOk result (key ≤ self.new.spare) }
        ensures entries { OnOk result (All (λ x. m ≤ spare_of x) self.new.indexes) }
        ensures slots { IsUnchanged self.old.places self.new.places }
        ensures room { self.old.places.room ≤ self.new.places.room }
        ensures extent { extent_of self.new.places ≡ extent_of self.old.places }
        ensures table { SameTable 0 0 self.old self.new }
    {
        self.rows.reserve(alloc, n)?;
        self.by_key.reserve(alloc, key)?;
        reserve_all(alloc, &mut self.indexes, m)
    }

    /// Moves the values of a new row into a free slot that is hidden, and returns its reference.
    pub fn stage(&mut self, values: &mut [Value]) -> RowRef
        requires room { 1 ≤ self.old.places.room }
        requires storable { AreStorable values.old }
        requires typed { HasTypes self.old.places.types values.old }
        ensures fresh { slot_at self.old.places result ≡ Free }
        ensures within { result.slot ≤ extent_of self.old.places }
        ensures staged { ChangesOnly self.old.places self.new.places result (Hidden values.old) }
        ensures room { self.new.places.room + 1 ≡ self.old.places.room }
        ensures extent { extent_of self.new.places ≡ max (extent_of self.old.places) (result.slot + 1) }
        ensures table { SameTable 0 0 self.old self.new }
    {
        let at = self.rows.stage(values);
        self.rows.have_types();
        at
    }

    /// Drops a hidden row and frees its slot.
    pub fn release(&mut self, at: RowRef)
        requires { IsHidden self.old.places at }
        ensures freed { ChangesOnly self.old.places self.new.places at Free }
        ensures room { self.new.places.room ≡ self.old.places.room + 1 }
        ensures extent { extent_of self.new.places ≡ extent_of self.old.places }
        ensures table { SameTable 0 0 self.old self.new }
    {
        self.rows.release(at);
        self.rows.have_types();
    }

    /// Returns whether a slot has a hidden row.
    pub fn is_hidden(&self, at: RowRef) -> bool
        ensures { IsTrue result ↔ IsHidden self.now.places at }
    {
        self.rows.is_hidden(at)
    }

    /// Uses a hidden row: its slot becomes one in use.
    pub fn show(&mut self, at: RowRef)
        requires hidden { IsHidden self.old.places at }
        requires spare { 1 ≤ self.old.spare }
        requires spares { All (λ x. 1 ≤ spare_of x) self.old.indexes }
        ensures shown { (row : List Value) → slot_at self.old.places at ≡ Hidden row
            → ChangesOnly self.old.places self.new.places at (Live row) }
        ensures room { self.new.places.room ≡ self.old.places.room }
        ensures extent { extent_of self.new.places ≡ extent_of self.old.places }
        ensures table { SameTable 1 1 self.old self.new }
    {
        self.rows.unhide(at);
        self.rows.have_types();
        insert(&self.rows, self.key, self.key, &mut self.by_key, at);
        insert_into_all(&self.rows, self.key, &mut self.indexes, at, None);
    }

    /// Hides a row in use. It keeps its slot.
    pub fn hide(&mut self, at: RowRef)
        requires { IsLive self.old.places at }
        ensures hidden { (row : List Value) → slot_at self.old.places at ≡ Live row
            → ChangesOnly self.old.places self.new.places at (Hidden row) }
        ensures room { self.new.places.room ≡ self.old.places.room }
        ensures extent { extent_of self.new.places ≡ extent_of self.old.places }
        ensures table { SameTable 0 0 self.old self.new }
    {
        remove(&self.rows, self.key, self.key, &mut self.by_key, at);
        remove_from_all(&self.rows, self.key, &mut self.indexes, at, None);
        self.rows.hide(at);
        self.rows.have_types();
    }

    /// Exchanges a row in use and a hidden row with the same key. The index on the key does not change, and a further one only if the rows
    /// differ in its column.
    pub fn exchange_kept(&mut self, at: RowRef, other: RowRef)
        requires live { IsLive self.old.places at }
        requires hidden { IsHidden self.old.places other }
        requires key { keys_by self.old.key (slot_at self.old.places) at other ≡ Equal }
        requires spares { All (λ x. 1 ≤ spare_of x) self.old.indexes }
        ensures exchanged { (row hidden : List Value) → slot_at self.old.places at ≡ Live row
            → slot_at self.old.places other ≡ Hidden hidden
            → ChangesTwo self.old.places self.new.places at other (Live hidden) (Hidden row) }
        ensures room { self.new.places.room ≡ self.old.places.room }
        ensures extent { extent_of self.new.places ≡ extent_of self.old.places }
        ensures table { SameTable 0 1 self.old self.new }
    {
        remove_from_all(&self.rows, self.key, &mut self.indexes, at, Some(other));
        self.rows.exchange(at, other);
        self.rows.have_types();
        insert_into_all(&self.rows, self.key, &mut self.indexes, at, Some(other));
    }

    /// Exchanges a row in use and a hidden row. The reference moves in the index on the key, and in each further TREE index if the
    /// rows differ in its column or in the key.
    pub fn exchange_moved(&mut self, at: RowRef, other: RowRef)
        requires live { IsLive self.old.places at }
        requires hidden { IsHidden self.old.places other }
        requires spare { 1 ≤ self.old.spare }
        requires spares { All (λ x. 1 ≤ spare_of x) self.old.indexes }
        ensures exchanged { (row hidden : List Value) → slot_at self.old.places at ≡ Live row
            → slot_at self.old.places other ≡ Hidden hidden
            → ChangesTwo self.old.places self.new.places at other (Live hidden) (Hidden row) }
        ensures room { self.new.places.room ≡ self.old.places.room }
        ensures extent { extent_of self.new.places ≡ extent_of self.old.places }
        ensures table { SameTable 1 1 self.old self.new }
    {
        remove(&self.rows, self.key, self.key, &mut self.by_key, at);
        remove_from_all(&self.rows, self.key, &mut self.indexes, at, Some(other));
        self.rows.exchange(at, other);
        self.rows.have_types();
        insert(&self.rows, self.key, self.key, &mut self.by_key, at);
        insert_into_all(&self.rows, self.key, &mut self.indexes, at, Some(other));
    }

    /// Returns whether a row in use and a hidden row have the same key.
    pub fn keeps_key(&self, at: RowRef, other: RowRef) -> bool
        requires live { IsLive self.now.places at }
        requires hidden { IsHidden self.now.places other }
        ensures { result ≡ same_in_column self.now.key (row_at (slot_at self.now.places) at) (row_at (slot_at self.now.places) other) }
    {
        have_one_value(&self.rows, self.key, at, other)
    }

    /// Returns whether another row in use has the key of a row.
    pub fn has_twin(&self, at: RowRef) -> bool
        requires { IsLive self.now.places at }
        ensures { IsTrue result ↔ HasTwin self.now.key (slot_at self.now.places) at }
    {
        has_twin_in(&self.rows, self.key, &self.by_key, at)
    }
}
