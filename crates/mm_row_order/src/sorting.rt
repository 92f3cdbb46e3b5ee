//! Sorting the references of rows by a column.
ghost use Rattle.std.specs.Prelude.{◌≡◌, ◌≢◌, ℕ, length, map, All, AllPairs, IsPermutation, IfOk, IfSome};
ghost use Rattle.mm_partition.specs.Places.{slot_at};
ghost use Rattle.mm_row_order.specs.Refs.{Slots, IsWide};
ghost use Rattle.mm_row_order.specs.InOrder.{InOrder};
ghost use Rattle.mm_row_order.specs.Sorting.{IsOf, ref_of, sortable_cmp, values_cmp, value_of_number, value_of_prefixed, AreSorted};

use crate::by_numbers::{NumberKeys, number_keys};
use crate::sort_value::{Prefixed, SortValue};
use mm_partition::{Partitions, index_of};
use mm_value::{AsValue, RowRef, ValueRef};
use std::alloc::{AllocError, Global};
use std::cmp::Ordering;

/// A row to be sorted: its value in the column, its key, and its reference.
#[derive(Clone, Copy, Drop)]
struct Sortable<V> {
    value: V,
    key: V,
    at: RowRef,
}

/// A whole number, as a value.
#[derive(Clone, Copy, Drop)]
struct Number {
    number: i64,
}

impl AsValue for Number {
    ghost value = { value_of_number };

    #[inline(always)]
    fn as_value(&self) -> ValueRef<'_> {
        ValueRef::Int(self.number)
    }
}

impl SortValue for Number {
    #[inline(always)]
    fn compare_to(&self, other: &Self) -> Ordering {
        self.number.cmp(&other.number)
    }
}

/// Compares two rows by their values in the column, and then by their keys.
#[inline(always)]
fn compare_values<V: SortValue>(a: &Sortable<V>, b: &Sortable<V>) -> Ordering
    ensures { result ≡ values_cmp V.AsValue.value a.now b.now }
{
    let first = a.value.compare_to(&b.value);
    if first.is_eq() {
        a.key.compare_to(&b.key)
    } else {
        first
    }
}

/// Compares two rows by their values in the column, then by their keys, then by their slots.
fn compare_rows<V: SortValue>(a: &Sortable<V>, b: &Sortable<V>) -> Ordering
    ensures { result ≡ sortable_cmp V.AsValue.value a.now b.now }
{
    compare_values(a, b).then(a.at.slot.cmp(&b.at.slot))
}

/// Returns the row of a reference, to be sorted by a column and the key.
fn sortable_at(rows: &Partitions, column: usize, key: usize, at: RowRef) -> Sortable<Prefixed<'_>>
    requires { IsWide column key (slot_at rows.now) at }
    ensures of { IsOf value_of_prefixed column key (slot_at rows.now) result }
    ensures reference { result.at ≡ at }
{
    let row = rows.get(at);
    Sortable {
        value: Prefixed::new(row.value(column)),
        key: Prefixed::new(row.value(key)),
        at,
    }
}

/// Returns the rows of these references, to be sorted by a column and the key, each value beside its prefix. `AllocError` if an allocation
/// fails.
fn sortables<'a>(
    alloc: Global,
    rows: &'a Partitions,
    column: usize,
    key: usize,
    refs: &[RowRef],
) -> Result<Vec<Sortable<Prefixed<'a>>>, AllocError>
    requires { All (IsWide column key (slot_at rows.now)) refs.now }
    ensures of { IfOk result (λ list. All (IsOf value_of_prefixed column key (slot_at rows.now)) list.items) }
    ensures refs { IfOk result (λ list. map ref_of list.items ≡ refs.now) }
{
    let mut list = Vec::with_capacity(alloc, refs.len())?;
    for at in refs {
        list.push(sortable_at(rows, column, key, *at))?;
    }
    Ok(list)
}

/// Returns the rows of these references, to be sorted by numbers in the column and in the key, without a read of a row. `None` if one of
/// the two has texts. `AllocError` if an allocation fails.
fn numbered(
    alloc: Global,
    rows: &Partitions,
    column: usize,
    key: usize,
    refs: &[RowRef],
) -> Result<Option<Vec<Sortable<Number>>>, AllocError>
    requires { All (IsWide column key (slot_at rows.now)) refs.now }
    ensures of { IfOk result (λ found. IfSome found
        (λ list. All (IsOf value_of_number column key (slot_at rows.now)) list.items)) }
    ensures refs { IfOk result (λ found. IfSome found (λ list. map ref_of list.items ≡ refs.now)) }
{
    let Some(NumberKeys { values, ties }) = number_keys(rows, column, key) else {
        return Ok(None);
    };
    let mut list = Vec::with_capacity(alloc, refs.len())?;
    for at in refs {
        let slot = index_of(*at);
        list.push(Sortable {
            value: Number {
                number: values[slot],
            },
            key: Number { number: ties[slot] },
            at: *at,
        })?;
    }
    Ok(Some(list))
}

/// Sorts rows, with O(n log n) comparisons for n rows and no allocation.
fn sort<V: SortValue>(list: &mut Vec<Sortable<V>>)
    ensures permutation { IsPermutation list.old.items list.new.items }
    ensures sorted { AreSorted V.AsValue.value list.new.items }
{
    list.sort_unstable_by(compare_rows);
}

/// Returns the references of rows. `AllocError` if an allocation fails.
fn refs_of<V>(alloc: Global, list: &[Sortable<V>]) -> Result<Vec<RowRef>, AllocError>
    ensures { IfOk result (λ refs. refs.items ≡ map ref_of list.now) }
{
    list.iter().map(|row| row.at).collect(alloc)
}

/// Returns the references of rows, sorted by their values, then by their keys, then by their slots. `AllocError` if an allocation fails.
fn in_order<V: SortValue>(
    alloc: Global,
    list: &mut Vec<Sortable<V>>,
) -> Result<Vec<RowRef>, AllocError>
    ensures ordered { IfOk result (λ refs. (column key : ℕ) (now : Slots) → All (IsOf V.AsValue.value column key now) list.old.items
        → AllPairs (λ a b. a ≢ b) (map ref_of list.old.items) → InOrder column key now refs.items) }
    ensures same { IfOk result (λ refs. IsPermutation refs.items (map ref_of list.old.items)) }
{
    sort(list);
    refs_of(alloc, list.as_slice())
}

/// Returns the references sorted by a column, then by the key, then by the slot. Requires that no two references are equal. `AllocError` if
/// an allocation fails.
pub fn sorted_refs(
    alloc: Global,
    rows: &Partitions,
    column: usize,
    key: usize,
    refs: &[RowRef],
) -> Result<Vec<RowRef>, AllocError>
    requires wide { All (IsWide column key (slot_at rows.now)) refs.now }
    requires apart { AllPairs (λ a b. a ≢ b) refs.now }
    ensures ordered { IfOk result (λ sorted. InOrder column key (slot_at rows.now) sorted.items) }
    ensures same { IfOk result (λ sorted. IsPermutation sorted.items refs.now) }
{
    match numbered(alloc, rows, column, key, refs)? {
        Some(mut list) => in_order(alloc, &mut list),
        None => {
            let mut list = sortables(alloc, rows, column, key, refs)?;
            in_order(alloc, &mut list)
        }
    }
}
