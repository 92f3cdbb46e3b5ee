//! All further indexes of a table.
ghost use Rattle.std.specs.Prelude.{◌≡◌, ◌≢◌, ◌<◌, ◌≤◌, ◌∷◌, List, length, All, OnOk, IfSome};
ghost use Rattle.mm_value.specs.declared.row_ref.RowRef.{RowRef};
ghost use Rattle.mm_partition.specs.Places.{slot_at, IsLive, IsHidden};
ghost use Rattle.mm_indexed.specs.Index.{Keeps, EachTurns, Emptied, Grown, GrownTo, Trimmed, column_of, spare_of};
ghost use Rattle.mm_indexed.specs.Stays.{Removes, Inserts, beside, stays};

pub(crate) mod hash_entries;
pub(crate) mod hash_reads;
pub(crate) mod index;
pub(crate) mod rebuilding;
pub(crate) mod tree_entries;

use crate::indexes::index::Index;
use mm_partition::Partitions;
use mm_value::RowRef;
use std::alloc::{AllocError, Global};

/// Removes the entry of a row from each index, unless it keeps its place there when the row and a hidden one change places.
pub fn remove_from_all(
    rows: &Partitions,
    key: usize,
    indexes: &mut Vec<Index>,
    at: RowRef,
    other: Option<RowRef>,
)
    requires key { key < length rows.now.types }
    requires columns { All (λ x. column_of x < length rows.now.types) indexes.old.items }
    requires live { IsLive rows.now at }
    requires hidden { IfSome other (IsHidden rows.now) }
    requires keep { (held : List RowRef) × All (Keeps key (slot_at rows.now) (at ∷ held)) indexes.old.items }
    ensures { EachTurns (Removes key (slot_at rows.now) at other) indexes.old.items indexes.new.items }
{
    for index in indexes.iter_mut() {
        index.remove(rows, key, at, other);
    }
}

/// Inserts the entry of a row into each index, unless it kept its place there when the row and a hidden one changed places.
pub fn insert_into_all(
    rows: &Partitions,
    key: usize,
    indexes: &mut Vec<Index>,
    at: RowRef,
    other: Option<RowRef>,
)
    requires key { key < length rows.now.types }
    requires columns { All (λ x. column_of x < length rows.now.types) indexes.old.items }
    requires live { IsLive rows.now at }
    requires hidden { IfSome other (IsHidden rows.now) }
    requires keep { (held : List RowRef) × All (λ a. a ≢ at) held
        × All (λ x. Keeps key (slot_at rows.now) (beside (stays key (slot_at rows.now) at other x) at held) x) indexes.old.items }
    requires spare { All (λ x. 1 ≤ spare_of x) indexes.old.items }
    ensures { EachTurns (Inserts key (slot_at rows.now) at other) indexes.old.items indexes.new.items }
{
    for index in indexes.iter_mut() {
        index.insert(rows, key, at, other);
    }
}

/// Reserves capacity for at least `n` more entries in each index. `AllocError` if an allocation fails; then some may have more capacity.
pub fn reserve_all(alloc: Global, indexes: &mut Vec<Index>, n: usize) -> Result<(), AllocError>
    ensures grown { EachTurns Grown indexes.old.items indexes.new.items }
    ensures room { OnOk result (EachTurns (GrownTo n) indexes.old.items indexes.new.items) }
{
    for index in indexes.iter_mut() {
        index.reserve(alloc, n)?;
    }
    Ok(())
}

/// Removes all entries of each index.
pub fn clear_all(indexes: &mut Vec<Index>)
    ensures { EachTurns Emptied indexes.old.items indexes.new.items }
{
    for index in indexes.iter_mut() {
        index.clear();
    }
}

/// Frees spare nodes of each TREE index until it has at most `n`.
pub fn trim_all(indexes: &mut Vec<Index>, n: usize)
    ensures { EachTurns (Trimmed n) indexes.old.items indexes.new.items }
{
    for index in indexes.iter_mut() {
        index.trim_spares(n);
    }
}
