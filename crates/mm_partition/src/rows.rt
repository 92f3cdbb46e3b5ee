//! The rows of a table, by reference.
ghost use Rattle.std.specs.Prelude.{◌≡◌, ◌+◌, ◌<◌, ◌≤◌, ◌↔◌, max, List, length, Some, slice_get, IfOk, IsTrue, OnOk, count_by};
ghost use Rattle.mm_value.specs.Views.{value_of};
ghost use Rattle.mm_value.specs.declared.values.Value.{Value};
ghost use Rattle.mm_partition.specs.Keys.{AreKeys};
ghost use Rattle.mm_partition.specs.Places.{Free, Live, Hidden, extent_of, slot_at, content_at, row_in, holds_row, IsTaken, IsLive, IsHidden};
ghost use Rattle.mm_partition.specs.Places.{IsUnchanged, ChangesOnly, ChangesTwo, AreRowsStorable, AreReferencesSmall};
ghost use Rattle.mm_value.specs.Storable.{AreStorable};
ghost use Rattle.mm_partition.specs.Types.{HasTypes};
ghost use Rattle.mm_partition.specs.Views.{viewed};

use crate::columns::Column;
use crate::keys::ColumnKeys;
use crate::slots::{SLOTS, State, index_of, reference_to};
use crate::sweeps::{clear_each, exchange_each, push_each, reserve_each, swap_each, truncate_each};
use crate::trimming::{drop_highest, give_back};
use crate::view::RowView;
use mm_value::{ColType, Row, RowRef, Value, ValueRef};
use std::alloc::{AllocError, Global};
use std::marker::Model;

/// The maximum number of slots: the index of each has 32 bits.
const MAX_SLOTS: usize = 4_294_967_295;

/// The rows of one table, in partitions of 64 slots, stored by column. Partitions and tuple pointers are those of Lehman and Carey (SIGMOD
/// 1986), and storage by column is that of Copeland and Khoshafian (SIGMOD 1985). A row is found by its reference, which stays the same
/// while the row lives. Only `new`, `reserve` and `track` allocate. The time to place, hide or release a row does not depend on the number
/// of rows.
///
/// A reference is the index of a slot among all slots. The *extent* is the number of slots that have been used and not been given back, and
/// the slot of each row is below it. A caller that keeps a vector with an entry for each slot needs one of this length. Only `place` and
/// `stage` increase the extent, by at most 1, and only `trim` reduces it.
///
/// The values of a row are in the cells of its slot, one in the vector of each column. The freed slots are on a stack, and the last one
/// freed is reused first. `reserve` gives the stack capacity for every slot, so that `release` does not allocate. Slots that have never
/// been used are unwritten capacity after the last slot.
///
/// A column of texts can be tracked. Then the prefixes of its texts are stored too, in a vector with an entry for each slot, and most rows
/// can be ordered without reading their texts. Tracking does not change the rows.
#[derive(Drop)]
pub struct Partitions {
    states: Vec<State>,
    columns: Vec<Column>,
    /// The freed slots. The last one is reused next.
    free: Vec<u32>,
    /// The number of further slots for which `states`, `free` and each column have capacity.
    spare: usize,
}

impl Model for Partitions {
    ghost use Rattle.std.specs.Prelude.{◌+◌};
    ghost use Rattle.std.specs.Vec.{vec_len, vec_capacity};
    ghost use Rattle.mm_partition.specs.Places.{Places};

    ghost Value = { Places };

    ghost use Rattle.mm_partition.specs.Cells.{types_of};
    ghost use Rattle.mm_partition.specs.Stored.{contents_from, IsStored};

    ghost view = { λ p. record {
      slots = contents_from 0 p.columns.items p.states.items;
      room = vec_len p.free + p.spare;
      types = types_of p.columns.items;
    } };

    ghost invariant = { λ p. IsStored p.states.items p.free.items (vec_capacity p.states) (vec_capacity p.free) p.spare p.columns.items };
}

impl Partitions {
    /// Returns an empty table with columns of these types, and an extent of 0. Fails with `AllocError` if the allocation of the list of
    /// columns fails.
    pub fn new(alloc: Global, types: &[ColType]) -> Result<Self, AllocError>
        ensures empty { IfOk result (λ rows. (at : RowRef) → slot_at rows at ≡ Free) }
        ensures room { IfOk result (λ rows. rows.room ≡ 0) }
        ensures extent { IfOk result (λ rows. extent_of rows ≡ 0) }
        ensures types { IfOk result (λ rows. rows.types ≡ types.now) }
    {
        let mut columns = Vec::with_capacity(alloc, types.len())?;
        for col_type in types {
            columns.push_reserved(Column::new(alloc, *col_type));
        }
        Ok(Partitions {
            states: Vec::new(alloc),
            columns,
            free: Vec::new(alloc),
            spare: 0,
        })
    }

    /// Returns the extent: the number of slots that have been used and not been given back.
    pub fn extent(&self) -> usize
        ensures { result ≡ extent_of self.now }
    {
        self.states.as_slice().len()
    }

    /// Returns the number of free slots below the extent.
    pub fn free_slots(&self) -> usize
        ensures { result + count_by holds_row self.now.slots ≡ extent_of self.now }
    {
        self.free.len()
    }

    /// Returns the number of columns.
    #[inline(always)]
    pub fn width(&self) -> usize
        ensures { result ≡ length self.now.types }
    {
        self.columns.as_slice().len()
    }

    /// Returns the type of a column.
    pub fn column_type(&self, column: usize) -> ColType
        requires { column < length self.now.types }
        ensures { slice_get self.now.types column ≡ Some result }
    {
        self.columns[column].col_type()
    }

    /// Law: integers in stored rows have 64 bits, and texts have at most 64 bytes and no line feed. The call does nothing.
    pub fn are_storable(&self)
        ensures { AreRowsStorable self.now }
    {
        let _columns = &self.columns;
    }

    /// Law: the slot of each live reference has an index below 2^32 - 1. The call does nothing.
    pub fn are_references_small(&self)
        ensures { AreReferencesSmall self.now }
    {
        let _states = &self.states;
    }

    /// Law: each live row has the types of the columns. The call does nothing.
    pub fn have_types(&self)
        ensures { (at : RowRef) (row : List Value) → slot_at self.now at ≡ Live row → HasTypes self.now.types row }
    {
        let _columns = &self.columns;
    }

    /// Returns the row of a live reference, in place.
    #[inline(always)]
    pub fn get(&self, at: RowRef) -> RowView<'_>
        requires { IsLive self.now at }
        ensures { slot_at self.now at ≡ Live (viewed result) }
    {
        let _states = &self.states;
        RowView {
            rows: self,
            index: index_of(at),
        }
    }

    /// Returns the row of a hidden reference, in place.
    pub fn get_hidden(&self, at: RowRef) -> RowView<'_>
        requires { IsHidden self.now at }
        ensures { slot_at self.now at ≡ Hidden (viewed result) }
    {
        let _states = &self.states;
        RowView {
            rows: self,
            index: index_of(at),
        }
    }

    /// Returns the value of a live row in a column.
    #[inline(always)]
    pub fn value(&self, at: RowRef, column: usize) -> ValueRef<'_>
        requires live { IsLive self.now at }
        requires column { column < length self.now.types }
        ensures { (row : List Value) → slot_at self.now at ≡ Live row → slice_get row column ≡ Some (value_of result) }
    {
        self.columns[column].value(index_of(at))
    }

    /// Returns the value of a hidden row in a column.
    pub fn hidden_value(&self, at: RowRef, column: usize) -> ValueRef<'_>
        requires hidden { IsHidden self.now at }
        requires column { column < length self.now.types }
        ensures { (row : List Value) → slot_at self.now at ≡ Hidden row → slice_get row column ≡ Some (value_of result) }
    {
        self.columns[column].value(index_of(at))
    }

    /// Returns the value of the row in a slot in a column.
    #[inline(always)]
    pub(crate) fn cell(&self, index: usize, column: usize) -> ValueRef<'_>
        requires taken { IsTaken (content_at self.now index) }
        requires column { column < length self.now.types }
        ensures { slice_get (row_in (content_at self.now index)) column ≡ Some (value_of result) }
    {
        self.columns[column].value(index)
    }

    /// Returns the search keys of a column, one for each slot: its numbers, or the prefixes of its texts if they are stored. Returns `None`
    /// keys for untracked texts, and for a column past the last one.
    pub fn keys(&self, column: usize) -> ColumnKeys<'_>
        ensures { AreKeys column self.now result }
    {
        if column >= self.columns.len() {
            return ColumnKeys::None;
        }
        match &self.columns[column] {
            Column::Numbers(numbers) => ColumnKeys::Numbers(numbers.as_slice()),
            Column::Texts(texts) => match texts.prefixes() {
                Some(prefixes) => ColumnKeys::Prefixes(prefixes),
                None => ColumnKeys::None,
            },
        }
    }

    /// Stores the prefixes of a column of texts from now on. Visits all slots if they are not stored yet. Does nothing for other columns.
    /// Fails with `AllocError` if an allocation fails; then nothing changes.
    pub fn track(&mut self, alloc: Global, column: usize) -> Result<(), AllocError>
        ensures { self.new ≡ self.old }
    {
        if column >= self.columns.len() {
            return Ok(());
        }
        self.columns[column].track(alloc)
    }

    /// Drops the prefixes of a column, if they are stored.
    pub fn untrack(&mut self, column: usize)
        ensures { self.new ≡ self.old }
    {
        if column < self.columns.len() {
            self.columns[column].untrack();
        }
    }

    /// Reserves capacity for at least `n` more rows, in whole partitions. Fails with `AllocError` if an allocation fails, or if there would
    /// be 2^32 slots or more. In any case the rows and the extent are unchanged, and no capacity is lost.
    pub fn reserve(&mut self, _alloc: Global, n: usize) -> Result<(), AllocError>
        ensures ok { OnOk result (n ≤ self.new.room) }
        ensures rows { IsUnchanged self.old self.new }
        ensures room { self.old.room ≤ self.new.room }
        ensures extent { extent_of self.new ≡ extent_of self.old }
        ensures types { self.new.types ≡ self.old.types }
    {
        let room = self.free.len() + self.spare;
        if n <= room {
            return Ok(());
        }
        let partitions = (n - room).div_ceil(SLOTS);
        let more = partitions.checked_mul(SLOTS).ok_or(AllocError)?;
        let spare = self.spare.checked_add(more).ok_or(AllocError)?;
        if self.states.len().saturating_add(spare) > MAX_SLOTS {
            return Err(AllocError);
        }
        self.states.reserve(spare)?;
        self.free
            .reserve(self.states.len() - self.free.len() + spare)?;
        reserve_each(&mut self.columns, spare)?;
        self.spare = spare;
        Ok(())
    }

    /// Moves the values of a new row into a free slot, and returns its reference. The index of the slot is at most the previous extent, and
    /// the new extent is greater than it.
    pub fn place(&mut self, values: &mut [Value]) -> RowRef
        requires room { 1 ≤ self.old.room }
        requires storable { AreStorable values.old }
        requires typed { HasTypes self.old.types values.old }
        ensures fresh { slot_at self.old result ≡ Free }
        ensures placed { ChangesOnly self.old self.new result (Live values.old) }
        ensures room { self.new.room + 1 ≡ self.old.room }
        ensures within { result.slot ≤ extent_of self.old }
        ensures extent { extent_of self.new ≡ max (extent_of self.old) (result.slot + 1) }
        ensures types { self.new.types ≡ self.old.types }
    {
        match self.free.pop() {
            None => {
                let index = self.states.len();
                push_each(&mut self.columns, index, values);
                self.states.push_reserved(State::Live);
                self.spare -= 1;
                reference_to(index)
            }
            Some(index) => {
                let index = index as usize;
                swap_each(&mut self.columns, index, values);
                self.states[index] = State::Live;
                reference_to(index)
            }
        }
    }

    /// Moves the values of a new row into a free slot, hides it, and returns its reference.
    pub fn stage(&mut self, values: &mut [Value]) -> RowRef
        requires room { 1 ≤ self.old.room }
        requires storable { AreStorable values.old }
        requires typed { HasTypes self.old.types values.old }
        ensures fresh { slot_at self.old result ≡ Free }
        ensures staged { ChangesOnly self.old self.new result (Hidden values.old) }
        ensures room { self.new.room + 1 ≡ self.old.room }
        ensures within { result.slot ≤ extent_of self.old }
        ensures extent { extent_of self.new ≡ max (extent_of self.old) (result.slot + 1) }
        ensures types { self.new.types ≡ self.old.types }
    {
        let at = self.place(values);
        self.hide(at);
        at
    }

    /// Exchanges the values of a live row and a hidden row. Both references keep their states.
    pub fn exchange(&mut self, at: RowRef, other: RowRef)
        requires live { IsLive self.old at }
        requires hidden { IsHidden self.old other }
        ensures exchanged { (row hidden : List Value) → slot_at self.old at ≡ Live row → slot_at self.old other ≡ Hidden hidden
            → ChangesTwo self.old self.new at other (Live hidden) (Hidden row) }
        ensures room { self.new.room ≡ self.old.room }
        ensures extent { extent_of self.new ≡ extent_of self.old }
        ensures types { self.new.types ≡ self.old.types }
    {
        exchange_each(&mut self.columns, index_of(at), index_of(other));
    }

    /// Returns whether a slot has a hidden row.
    pub fn is_hidden(&self, at: RowRef) -> bool
        ensures { IsTrue result ↔ IsHidden self.now at }
    {
        let index = index_of(at);
        if index >= self.states.len() {
            return false;
        }
        match self.states[index] {
            State::Hidden => true,
            State::Free | State::Live => false,
        }
    }

    /// Replaces the row of a live reference, and returns the old row. The reference stays valid.
    pub fn replace(&mut self, at: RowRef, row: Row) -> Row
        requires live { IsLive self.old at }
        requires typed { HasTypes self.old.types row }
        ensures was { slot_at self.old at ≡ Live result }
        ensures replaced { ChangesOnly self.old self.new at (Live row) }
        ensures room { self.new.room ≡ self.old.room }
        ensures extent { extent_of self.new ≡ extent_of self.old }
        ensures types { self.new.types ≡ self.old.types }
    {
        row.is_storable();
        let mut values = row.into_values();
        swap_each(&mut self.columns, index_of(at), values.as_mut_slice());
        Row::new(values)
    }

    /// Hides a live row: the row becomes a tombstone, which keeps its slot so that the deletion can be undone.
    pub fn hide(&mut self, at: RowRef)
        requires { IsLive self.old at }
        ensures hidden { (row : List Value) → slot_at self.old at ≡ Live row
            → ChangesOnly self.old self.new at (Hidden row) }
        ensures room { self.new.room ≡ self.old.room }
        ensures extent { extent_of self.new ≡ extent_of self.old }
        ensures types { self.new.types ≡ self.old.types }
    {
        self.states[index_of(at)] = State::Hidden;
    }

    /// Makes a hidden row live again.
    pub fn unhide(&mut self, at: RowRef)
        requires { IsHidden self.old at }
        ensures back { (row : List Value) → slot_at self.old at ≡ Hidden row
            → ChangesOnly self.old self.new at (Live row) }
        ensures room { self.new.room ≡ self.old.room }
        ensures extent { extent_of self.new ≡ extent_of self.old }
        ensures types { self.new.types ≡ self.old.types }
    {
        self.states[index_of(at)] = State::Live;
    }

    /// Drops a hidden row, and frees its slot.
    pub fn release(&mut self, at: RowRef)
        requires { IsHidden self.old at }
        ensures freed { ChangesOnly self.old self.new at Free }
        ensures room { self.new.room ≡ self.old.room + 1 }
        ensures extent { extent_of self.new ≡ extent_of self.old }
        ensures types { self.new.types ≡ self.old.types }
    {
        let states = &mut self.states;
        let index = index_of(at);
        states[index] = State::Free;
        clear_each(&mut self.columns, index);
        self.free.push_reserved(index as u32);
    }

    /// Gives back the highest free slots: afterwards the slot below the extent has a row, or the extent is 0. Frees excess capacity,
    /// including the capacity for further rows. Cannot fail: if the allocation of a smaller block fails, a vector keeps its block.
    pub fn trim(&mut self)
        ensures slots { IsUnchanged self.old self.new }
        ensures extent { extent_of self.new ≤ extent_of self.old }
        ensures highest { (at : RowRef) → at.slot + 1 ≡ extent_of self.new → IsTaken (slot_at self.new at) }
        ensures types { self.new.types ≡ self.old.types }
    {
        drop_highest(&mut self.states, &mut self.free);
        let extent = self.states.len();
        truncate_each(&mut self.columns, extent);
        self.spare = 0;
        give_back(&mut self.states, extent);
        give_back(&mut self.free, extent);
    }
}
