//! Multisets of rows with typed columns.
ghost use Rattle.std.specs.Prelude.{◌≡◌, ◌+◌, ◌-◌, ◌≤◌, ◌<◌, ◌^◌, ◌⊎◌, pos, ◌+ℤ◌, ◌≤ℤ◌, ◌<ℤ◌, true, []};
ghost use Rattle.std.specs.Prelude.{None, if◌then◌else◌, false, filter, length, not, List, IfOk, IsPermutation, OnOk, OnErr};
ghost use Rattle.mm_multiset.specs.Counts.{Adds, IsEntry, IsOnce, IsThere, MayFree, count_in, has_entry, has_rows, row_at, total_of};
ghost use Rattle.mm_multiset.specs.declared.entry_ref.EntryRef.{EntryRef as AnyEntry};
ghost use Rattle.mm_partition.specs.Types.{HasTypes};
ghost use Rattle.mm_value.specs.Equality.{same_row};
ghost use Rattle.mm_value.specs.declared.values.Value.{Value as Val};

mod entries;
mod finding;
mod following;
mod slots;
mod taken;
mod typed;

use crate::entry_ref::EntryRef;
pub use entries::BagEntries;
use finding::{find, hash_of};
use mlhash::HashRefs;
use mm_partition::{Partitions, index_of};
use mm_value::{ColType, Row, RowRef};
use slot_counts::{SlotCounts, changed};
use slots::{put, take};
use std::alloc::{AllocError, Global};
use std::marker::Model;
pub use taken::Taken;

/// The maximum total.
const MAX_TOTAL: u32 = u32::MAX - 1;

/// A multiset of rows, stored as counts: each row that it contains, or has contained, has one entry with its count. The total of the counts
/// is at most 2^32 - 2.
///
/// The rows are in the slots of partitions, like those of a table, and are found by the hash of their values.
#[derive(Drop)]
pub struct Bag {
    rows: Partitions,
    /// The counts of the rows, by slot. The count of a free slot is 0.
    counts: SlotCounts,
    by_hash: HashRefs,
    total: u32,
    /// The slot of the change that was told last.
    last_told: Option<RowRef>,
}

impl Model for Bag {
    ghost use Rattle.std.specs.Prelude.{◌≡◌, map, min};
    ghost use Rattle.mm_multiset.specs.Counts.{Counts, total_of};
    ghost use Rattle.mm_multiset.specs.Slots.{IsFed, IsKept, entries_of, feed_of, in_use};

    ghost Value = { Counts };

    ghost view = { λ b. record {
      slots = map in_use b.rows.slots;
      held = b.rows.slots;
      entries = entries_of b.rows.slots b.counts.counts;
      feed = feed_of b.rows.slots b.counts.feed;
      room = min b.rows.room (min b.by_hash.spare b.counts.room);
      types = b.rows.types;
    } };

    ghost invariant = { λ b. IsKept b.rows.slots b.counts.counts b.by_hash.entries
        × (b.total ≡ total_of (entries_of b.rows.slots b.counts.counts)) × IsFed b.rows.slots b.counts.feed };
}

impl Bag {
    /// Returns an empty bag whose columns have these types. Fails with `AllocError` if the allocation of the list of columns fails.
    pub fn new(alloc: Global, types: &[ColType]) -> Result<Bag, AllocError>
        ensures entries { IfOk result (λ bag. bag.entries ≡ []) }
        ensures feed { IfOk result (λ bag. bag.feed ≡ None) }
        ensures types { IfOk result (λ bag. bag.types ≡ types.now) }
    {
        Ok(Bag {
            rows: Partitions::new(alloc, types)?,
            counts: SlotCounts::new(alloc),
            by_hash: HashRefs::new(alloc),
            total: 0,
            last_told: None,
        })
    }

    /// Reserves capacity for `n` new entries. Fails with `AllocError` if an allocation fails, or if there would be more than 2^32 - 1
    /// entries.
    pub fn reserve(&mut self, n: usize) -> Result<(), AllocError>
        ensures room { OnOk result (n ≤ self.new.room) }
        ensures entries { self.new.entries ≡ self.old.entries }
        ensures kept { self.old.room ≤ self.new.room }
        ensures slots { self.new.slots ≡ self.old.slots }
        ensures feed { self.new.feed ≡ self.old.feed }
        ensures types { self.new.types ≡ self.old.types }
    {
        let alloc = self.counts.allocator();
        self.rows.reserve(alloc, n)?;
        self.counts.reserve(n)?;
        self.by_hash.reserve(alloc, n)
    }

    /// Returns the number of entries.
    pub fn len(&self) -> usize
        ensures entries { result ≡ length self.now.entries }
        ensures once { IsOnce self.now.entries }
    {
        self.by_hash.len()
    }

    /// Returns the count of a row: 0 if it has no entry.
    pub fn count(&self, row: &Row) -> usize
        ensures { result ≡ count_in row.now self.now.entries }
    {
        match find(&self.rows, &self.by_hash, hash_of(row), row) {
            Some(at) => self.counts.count(index_of(at)) as usize,
            None => 0,
        }
    }

    /// Returns whether a row has an entry.
    pub fn has_entry(&self, row: &Row) -> bool
        ensures { result ≡ has_entry row.now self.now.entries }
    {
        find(&self.rows, &self.by_hash, hash_of(row), row).is_some()
    }

    /// Returns the sum of all counts.
    pub fn total(&self) -> usize
        ensures { result ≡ total_of self.now.entries }
    {
        self.total as usize
    }

    /// Returns the number of entries whose count is not 0, without visiting them.
    pub fn distinct(&self) -> usize
        ensures { result ≡ length (filter has_rows self.now.entries) }
    {
        let shown = self.counts.counted();
        shown.len()
    }

    /// Iterates over the entries whose count is not 0, in no particular order, with their rows in place. The iteration takes as many steps
    /// as there are such entries, and allocates nothing.
    pub fn entries(&self) -> BagEntries<'_>
        ensures entries { IsPermutation result (filter has_rows self.now.entries) }
        ensures once { IsOnce self.now.entries }
    {
        let shown = self.counts.counted();
        BagEntries::new(&self.rows, &self.counts, shown)
    }

    /// Returns a reference to the entry of a row of the types of the columns, and whether the row had none. If it had none, an entry with
    /// the count 0 is inserted. Fails with `AllocError` if an allocation fails; then the entries are unchanged.
    pub fn entry_or_insert(&mut self, row: Row) -> Result<(EntryRef, bool), AllocError>
        requires typed { HasTypes self.old.types row }
        ensures entry { IfOk result (λ found. IsEntry self.new.slots found.0 row) }
        ensures is_new { IfOk result (λ found. found.1 ≡ not (has_entry row self.old.entries)) }
        ensures entries { OnOk result ((other : List Val) → has_entry other self.new.entries ≡ (if same_row row other then true else has_entry other self.old.entries)) }
        ensures counts { (other : List Val) → count_in other self.new.entries ≡ count_in other self.old.entries }
        ensures total { total_of self.new.entries ≡ total_of self.old.entries }
        ensures kept { (entry : AnyEntry) (other : List Val) → IsEntry self.old.slots entry other → IsEntry self.new.slots entry other }
        ensures unchanged { OnErr result (self.new.entries ≡ self.old.entries) }
        ensures same { OnErr result (self.new.slots ≡ self.old.slots) }
        ensures feed { self.new.feed ≡ self.old.feed }
        ensures types { self.new.types ≡ self.old.types }
    {
        let hash = hash_of(&row);
        if let Some(slot) = find(&self.rows, &self.by_hash, hash, &row) {
            return Ok((EntryRef { slot, hash }, false));
        }
        self.reserve(1)?;
        let slot = put(
            &mut self.rows,
            &mut self.counts,
            &mut self.by_hash,
            hash,
            row,
        );
        Ok((EntryRef { slot, hash }, true))
    }

    /// Adds to the count of an entry. Requires that the count stays at 0 or above, and the total below 2^32 - 1. Allocates and hashes
    /// nothing. The entry stays if its count falls to 0.
    pub fn add_at(&mut self, entry: EntryRef, by: i64)
        requires entry { IsThere self.old.slots entry }
        requires count { pos 0 ≤ℤ (pos (count_in (row_at self.old.slots entry) self.old.entries) +ℤ by) }
        requires total { (pos (total_of self.old.entries) +ℤ by) <ℤ pos (2 ^ 32 - 1) }
        ensures added { Adds (record { row = row_at self.old.slots entry; count = by }) self.old.entries self.new.entries }
        ensures entries { (row : List Val) → has_entry row self.new.entries ≡ has_entry row self.old.entries }
        ensures total { pos (total_of self.new.entries) ≡ pos (total_of self.old.entries) +ℤ by }
        ensures slots { self.new.slots ≡ self.old.slots }
        ensures feed { self.new.feed ≡ self.old.feed }
        ensures types { self.new.types ≡ self.old.types }
    {
        self.total = changed(self.total, by as i128);
        self.counts.add(index_of(entry.slot), by as i128);
    }

    /// Removes an entry if its count is 0, and does nothing if the entry was removed before. No count changes. Hashes nothing. With a feed, the
    /// row stays in its slot until its removal was told.
    pub fn remove_if_zero(&mut self, entry: EntryRef)
        requires within { entry.slot.slot < length self.old.slots }
        ensures gone { IsThere self.old.slots entry → count_in (row_at self.old.slots entry) self.old.entries ≡ 0
            → has_entry (row_at self.old.slots entry) self.new.entries ≡ false }
        ensures counts { (other : List Val) → count_in other self.new.entries ≡ count_in other self.old.entries }
        ensures total { total_of self.new.entries ≡ total_of self.old.entries }
        ensures others { (other : List Val) → has_entry other self.new.entries ≡ true → has_entry other self.old.entries ≡ true }
        ensures beside { (other : List Val) → same_row (row_at self.old.slots entry) other ≡ false
            → has_entry other self.new.entries ≡ has_entry other self.old.entries }
        ensures slots { MayFree entry self.old self.new }
        ensures feed { self.new.feed ≡ self.old.feed }
        ensures types { self.new.types ≡ self.old.types }
    {
        let slot = index_of(entry.slot);
        if self.counts.count(slot) == 0 {
            let is_owed = self.counts.told(slot) != 0;
            take(
                &mut self.rows,
                &self.counts,
                &mut self.by_hash,
                entry,
                is_owed,
            );
        }
    }

    /// Adds 1 to the count of a row of the types of the columns, and reserves capacity for its entry if necessary. Fails with `AllocError`
    /// if an allocation fails, or if the total would be 2^32 - 1; then the entries are unchanged.
    pub fn count_up(&mut self, row: Row) -> Result<(), AllocError>
        requires typed { HasTypes self.old.types row }
        ensures counted { OnOk result (Adds (record { row = row; count = pos 1 }) self.old.entries self.new.entries) }
        ensures unchanged { OnErr result (self.new.entries ≡ self.old.entries) }
        ensures feed { self.new.feed ≡ self.old.feed }
        ensures types { self.new.types ≡ self.old.types }
    {
        if self.total >= MAX_TOTAL {
            return Err(AllocError);
        }
        let (entry, _) = self.entry_or_insert(row)?;
        self.add_at(entry, 1);
        Ok(())
    }
}
