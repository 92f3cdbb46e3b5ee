//! The pair of one row in a HASH index.
ghost use Rattle.std.specs.Prelude.{◌≡◌, ◌+◌, ◌<◌, ◌≤◌, ◌∷◌, List, length, map, slice_get, Contains, IsPermutation, IfSome};
ghost use Rattle.mm_value.specs.declared.row_ref.RowRef.{RowRef};
ghost use Rattle.mm_partition.specs.Places.{slot_at, IsLive, IsHidden};
ghost use Rattle.mm_row_order.specs.Refs.{row_at};
ghost use Rattle.mm_indexed.specs.HashedPairs.{hash_of, hashed_pair};
ghost use Rattle.mm_indexed.specs.Stays.{agrees, beside};

use crate::moves::agree;
use mlhash::HashRefs;
use mm_partition::Partitions;
use mm_value::{RowRef, hash64};

/// Returns the hash of a row's value in a column.
fn hash_at(rows: &Partitions, column: usize, at: RowRef) -> u64
    requires column { column < length rows.now.types }
    requires live { IsLive rows.now at }
    ensures { result ≡ hash_of (slice_get (row_at (slot_at rows.now) at) column) }
{
    hash64(&rows.value(at, column))
}

/// Removes the pair of a row, which the index contains.
fn take_pair(rows: &Partitions, column: usize, pairs: &mut HashRefs, at: RowRef)
    requires column { column < length rows.now.types }
    requires live { IsLive rows.now at }
    requires held { Contains pairs.old.entries (hashed_pair column (slot_at rows.now) at) }
    ensures taken { IsPermutation pairs.old.entries (hashed_pair column (slot_at rows.now) at ∷ pairs.new.entries) }
    ensures spare { pairs.old.spare ≤ pairs.new.spare }
{
    let hash = hash_at(rows, column, at);
    pairs.remove(hash, at);
}

/// Inserts the pair of a row.
fn put_pair(rows: &Partitions, column: usize, pairs: &mut HashRefs, at: RowRef)
    requires column { column < length rows.now.types }
    requires live { IsLive rows.now at }
    requires spare { 1 ≤ pairs.old.spare }
    ensures put { IsPermutation pairs.new.entries (hashed_pair column (slot_at rows.now) at ∷ pairs.old.entries) }
    ensures spare { pairs.old.spare ≤ pairs.new.spare + 1 }
{
    let hash = hash_at(rows, column, at);
    rows.are_references_small();
    pairs.insert(hash, at);
}

/// Removes the pair of a row, unless it stays the same when the row and a hidden one change places.
pub fn remove_pair(
    rows: &Partitions,
    column: usize,
    pairs: &mut HashRefs,
    at: RowRef,
    other: Option<RowRef>,
)
    requires column { column < length rows.now.types }
    requires live { IsLive rows.now at }
    requires hidden { IfSome other (IsHidden rows.now) }
    requires held { Contains pairs.old.entries (hashed_pair column (slot_at rows.now) at) }
    ensures pairs { (held : List RowRef) → IsPermutation pairs.old.entries (map (hashed_pair column (slot_at rows.now)) (at ∷ held))
        → IsPermutation pairs.new.entries (map (hashed_pair column (slot_at rows.now))
        (beside (agrees column column (slot_at rows.now) at other) at held)) }
    ensures spare { pairs.old.spare ≤ pairs.new.spare }
{
    if agree(rows, column, column, at, other) {
        return;
    }
    take_pair(rows, column, pairs, at);
}

/// Inserts the pair of a row, unless it stayed the same when the row and a hidden one changed places.
pub fn insert_pair(
    rows: &Partitions,
    column: usize,
    pairs: &mut HashRefs,
    at: RowRef,
    other: Option<RowRef>,
)
    requires column { column < length rows.now.types }
    requires live { IsLive rows.now at }
    requires hidden { IfSome other (IsHidden rows.now) }
    requires spare { 1 ≤ pairs.old.spare }
    ensures pairs { (held : List RowRef) → IsPermutation pairs.old.entries (map (hashed_pair column (slot_at rows.now))
        (beside (agrees column column (slot_at rows.now) at other) at held))
        → IsPermutation pairs.new.entries (map (hashed_pair column (slot_at rows.now)) (at ∷ held)) }
    ensures spare { pairs.old.spare ≤ pairs.new.spare + 1 }
{
    if agree(rows, column, column, at, other) {
        return;
    }
    put_pair(rows, column, pairs, at);
}
