//! Reads by hash.
ghost use Rattle.std.specs.Prelude.{◌≡◌, ◌≤◌, ◌++◌, List, length, map, take, drop, filter, All, IfOk, IsOk, IsPermutation, OnOk, OnErr};
ghost use Rattle.mm_value.specs.Views.{value_of};
ghost use Rattle.mm_value.specs.declared.row_ref.RowRef.{RowRef};
ghost use Rattle.mm_partition.specs.Places.{slot_at};
ghost use Rattle.mm_indexed.specs.HashedPairs.{hashed_pair};
ghost use Rattle.mm_row_order.specs.InOrder.{HasColumn};
ghost use Rattle.mm_indexed.specs.Reads.{has_value, AreMatches, Appends};

use crate::found_refs::FoundRefs;
use mlhash::HashRefs;
use mm_partition::Partitions;
use mm_value::{RowRef, ValueRef, compare, hash64};
use std::alloc::{AllocError, Global};

/// Returns whether a row has this value in a column.
fn is_match(rows: &Partitions, column: usize, value: ValueRef<'_>, at: RowRef) -> bool
    requires { HasColumn column (slot_at rows.now) at }
    ensures { result ≡ has_value column (slot_at rows.now) (value_of value.entry) at }
{
    compare(&rows.get(at).value(column), &value).is_eq()
}

/// Keeps, of the references from a place on, those whose rows have this value, in their order.
fn keep_matches(
    rows: &Partitions,
    column: usize,
    value: ValueRef<'_>,
    out: &mut Vec<RowRef>,
    from: usize,
)
    requires from { from ≤ length out.old.items }
    requires wide { All (HasColumn column (slot_at rows.now)) (drop from out.old.items) }
    ensures { out.new.items ≡ take from out.old.items
        ++ filter (has_value column (slot_at rows.now) (value_of value.entry)) (drop from out.old.items) }
{
    let mut kept = from;
    for i in from..out.len() {
        let at = out[i];
        if is_match(rows, column, value, at) {
            out[kept] = at;
            kept += 1;
        }
    }
    out.truncate(kept);
}

/// Appends the references of the rows that have this value, in no particular order. Omits rows whose values have only the same hash.
/// `AllocError` if an allocation fails; then nothing is appended.
pub fn copy_matches(
    alloc: Global,
    rows: &Partitions,
    column: usize,
    pairs: &HashRefs,
    value: ValueRef<'_>,
    out: &mut Vec<RowRef>,
) -> Result<(), AllocError>
    requires { (refs : List RowRef) × (All (HasColumn column (slot_at rows.now)) refs)
        × IsPermutation pairs.now.entries (map (hashed_pair column (slot_at rows.now)) refs) }
    ensures ok { OnOk result ((refs : List RowRef)
        → IsPermutation pairs.now.entries (map (hashed_pair column (slot_at rows.now)) refs)
        → Appends (AreMatches column (slot_at rows.now) (value_of value.entry) refs) out.old.items out.new.items) }
    ensures err { OnErr result (out.new.items ≡ out.old.items) }
{
    let before = out.len();
    pairs.matches(alloc, hash64(&value), out)?;
    keep_matches(rows, column, value, out, before);
    Ok(())
}

/// Returns the references of the rows that have this value, in no particular order. Omits rows whose values have only the same hash. Up to
/// four are returned without an allocation. `AllocError` if an allocation fails.
pub fn find_matches(
    alloc: Global,
    rows: &Partitions,
    column: usize,
    pairs: &HashRefs,
    value: ValueRef<'_>,
) -> Result<FoundRefs, AllocError>
    requires { (refs : List RowRef) × (All (HasColumn column (slot_at rows.now)) refs)
        × IsPermutation pairs.now.entries (map (hashed_pair column (slot_at rows.now)) refs) }
    ensures found { IfOk result (λ found. (refs : List RowRef)
        → IsPermutation pairs.now.entries (map (hashed_pair column (slot_at rows.now)) refs)
        → AreMatches column (slot_at rows.now) (value_of value.entry) refs found.items) }
    ensures few { (refs : List RowRef)
        → IsPermutation pairs.now.entries (map (hashed_pair column (slot_at rows.now)) refs)
        → length (filter (has_value column (slot_at rows.now) (value_of value.entry)) refs) ≤ 4 → IsOk result }
{
    let mut found = FoundRefs::new(alloc);
    for at in pairs.matching(hash64(&value)) {
        if is_match(rows, column, value, at) {
            found.push(at)?;
        }
    }
    Ok(found)
}
