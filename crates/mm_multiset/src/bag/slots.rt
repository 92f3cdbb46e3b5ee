//! Rows in slots, with their counts and their pairs in the hash table.
ghost use Rattle.std.specs.Bool.{OnFalse, OnTrue};
ghost use Rattle.std.specs.Prelude.{◌≡◌, ◌≤◌, ◌∷◌, ◌↔◌, false, map, slice_index_or, slice_set, List, IsPermutation, IsTrue};
ghost use Rattle.mm_multiset.specs.Counts.{IsThere, has_entry, row_at};
ghost use Rattle.mm_multiset.specs.RowHash.{row_hash};
ghost use Rattle.mm_multiset.specs.Slots.{IsFed, IsKept, entries_of, feed_of, in_use, left_by};
ghost use Rattle.mm_partition.specs.Places.{ChangesOnly, Free, IsLive, Live, extent_of, slot_at};
ghost use Rattle.mm_value.specs.declared.values.Value.{Value as Val};
ghost use Rattle.mm_partition.specs.Types.{HasTypes};
ghost use Rattle.slot_counts.specs.Numbers.{told_at};

use crate::entry_ref::EntryRef;
use mlhash::HashRefs;
use mm_partition::{Partitions, index_of};
use mm_value::{Row, RowRef};
use slot_counts::SlotCounts;

/// Inserts a row without an entry, with the count 0. Requires capacity, and allocates nothing.
pub(crate) fn put(
    rows: &mut Partitions,
    counts: &mut SlotCounts,
    by_hash: &mut HashRefs,
    hash: u64,
    row: Row,
) -> RowRef
    requires kept { IsKept rows.old.slots counts.old.counts by_hash.old.entries }
    requires fed { IsFed rows.old.slots counts.old.feed }
    requires hash { hash ≡ row_hash row }
    requires new { has_entry row (entries_of rows.old.slots counts.old.counts) ≡ false }
    requires typed { HasTypes rows.old.types row }
    requires room { 1 ≤ rows.old.room }
    requires spare { 1 ≤ by_hash.old.spare }
    requires slots { 1 ≤ counts.old.room }
    ensures kept { IsKept rows.new.slots counts.new.counts by_hash.new.entries }
    ensures put { IsPermutation (entries_of rows.new.slots counts.new.counts) ((row, 0) ∷ entries_of rows.old.slots counts.old.counts) }
    ensures fresh { slot_at rows.old result ≡ Free }
    ensures placed { ChangesOnly rows.old rows.new result (Live row) }
    ensures feed { feed_of rows.new.slots counts.new.feed ≡ feed_of rows.old.slots counts.old.feed }
    ensures fed { IsFed rows.new.slots counts.new.feed }
    ensures types { rows.new.types ≡ rows.old.types }
{
    let at = {
        row.is_storable();
        let mut values = row.into_values();
        rows.place(values.as_mut_slice())
    };
    rows.are_references_small();
    counts.set(index_of(at), 0);
    by_hash.insert(hash, at);
    at
}

/// Removes an entry whose count is 0, with its pair in the hash table. If a change is owed for its row, the row stays in the slot, hidden.
/// Returns `false` if there is no such entry.
pub(crate) fn take(
    rows: &mut Partitions,
    counts: &SlotCounts,
    by_hash: &mut HashRefs,
    entry: EntryRef,
    is_owed: bool,
) -> bool
    requires kept { IsKept rows.old.slots counts.now.counts by_hash.old.entries }
    requires fed { IsFed rows.old.slots counts.now.feed }
    requires zero { slice_index_or counts.now.counts entry.slot.slot 0 ≡ 0 }
    requires told { is_owed ≡ false → told_at counts.now.feed entry.slot.slot ≡ 0 }
    ensures kept { IsKept rows.new.slots counts.now.counts by_hash.new.entries }
    ensures found { IsTrue result ↔ IsThere (map in_use rows.old.slots) entry }
    ensures taken { OnTrue result (IsPermutation (entries_of rows.old.slots counts.now.counts)
        ((row_at (map in_use rows.old.slots) entry, 0) ∷ entries_of rows.new.slots counts.now.counts)) }
    ensures freed { OnTrue result (rows.new.slots ≡ slice_set rows.old.slots entry.slot.slot (left_by is_owed (row_at (map in_use rows.old.slots) entry))) }
    ensures same { OnFalse result (rows.new ≡ rows.old) }
    ensures feed { feed_of rows.new.slots counts.now.feed ≡ feed_of rows.old.slots counts.now.feed }
    ensures is_fed { IsFed rows.new.slots counts.now.feed }
    ensures types { rows.new.types ≡ rows.old.types }
{
    if !by_hash.remove(entry.hash, entry.slot) {
        return false;
    }
    vacate(rows, entry.slot, is_owed);
    true
}

// Hides the row of a live reference, and frees its slot unless a change is owed for it.
fn vacate(rows: &mut Partitions, at: RowRef, is_owed: bool)
    requires { IsLive rows.old at }
    ensures left { (row : List Val) → slot_at rows.old at ≡ Live row → ChangesOnly rows.old rows.new at (left_by is_owed row) }
    ensures extent { extent_of rows.new ≡ extent_of rows.old }
    ensures types { rows.new.types ≡ rows.old.types }
{
    rows.hide(at);
    if !is_owed {
        rows.release(at);
    }
}
