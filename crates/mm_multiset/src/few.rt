//! Changes of few rows, found by comparing one after another.
ghost use Rattle.std.specs.Prelude.{◌≡◌, ◌≢◌, ◌<◌, ◌-ℤ◌, ◌+ℤ◌, ℕ, false, true, filter, length, map, slice_index_or, slice_set, List, All, IfNone, IfOk, IfSome, OnErr, OnOk};
ghost use Rattle.mm_value.specs.Equality.{same_row};
ghost use Rattle.mm_value.specs.declared.values.Value.{Value as Val};
ghost use Rattle.mm_multiset.specs.Counts.{IsNet, signed_count};
ghost use Rattle.mm_multiset.specs.Tally.{AreOnce, IsSmall, is_some_change, opposite, with_change};
ghost use Rattle.mm_multiset.specs.declared.signed.Signed.{Signed as Change};

use crate::signed::Signed;
use mm_value::Row;
use std::alloc::AllocError;

/// Returns each row whose counts differ, once, with its count in `comes` minus its count in `goes`. Consumes both lists and copies no row.
/// Fails with `AllocError` if an allocation fails, or if a difference is not between -2^64 and 2^64.
pub(crate) fn few_changes(
    comes: Vec<Signed>,
    mut goes: Vec<Signed>,
) -> Result<Vec<Signed>, AllocError>
    requires comes { AreOnce comes.items }
    requires goes { AreOnce goes.items }
    ensures change { IfOk result (λ found. (row : List Val) → signed_count row found.items ≡ signed_count row comes.items -ℤ signed_count row goes.items) }
    ensures net { IfOk result (λ found. IsNet found.items) }
{
    turn(&mut goes);
    if goes.is_empty() {
        merged(comes, goes)
    } else {
        merged(goes, comes)
    }
}

/// Negates each change.
pub(crate) fn turn(changes: &mut Vec<Signed>)
    requires { All (λ change. IsSmall change.count) changes.old.items }
    ensures { changes.new.items ≡ map opposite changes.old.items }
{
    for change in changes.iter_mut() {
        change.count = -change.count;
    }
}

// Returns the changes of two lists as one, without those that cancel out.
fn merged(first: Vec<Signed>, more: Vec<Signed>) -> Result<Vec<Signed>, AllocError>
    requires first { AreOnce first.items }
    requires more { All (λ change. IsSmall change.count) more.items }
    ensures change { IfOk result (λ found. (row : List Val) → signed_count row found.items ≡ signed_count row first.items +ℤ signed_count row more.items) }
    ensures net { IfOk result (λ found. IsNet found.items) }
{
    let mut found = first;
    for change in more {
        add_change(&mut found, change)?;
    }
    drop_nothings(&mut found);
    Ok(found)
}

// Removes the changes by 0.
fn drop_nothings(changes: &mut Vec<Signed>)
    ensures { changes.new.items ≡ filter (λ (change : Change). is_some_change change.count) changes.old.items }
{
    changes.retain(|change| is_some_change(change.count));
}

// Returns whether a number is not 0.
fn is_some_change(count: i128) -> bool
    ensures { result ≡ is_some_change count }
{
    count != 0
}

/// Adds a change to that of its row, or appends it if the row has none. Fails with `AllocError` if an allocation fails, or if the sum is
/// not between -2^64 and 2^64; then the changes are unchanged.
pub(crate) fn add_change(changes: &mut Vec<Signed>, change: Signed) -> Result<(), AllocError>
    requires known { All (λ known. IsSmall known.count) changes.old.items }
    requires change { IsSmall change.count }
    ensures added { OnOk result (changes.new.items ≡ with_change change changes.old.items) }
    ensures small { OnOk result (All (λ known. IsSmall known.count) changes.new.items) }
    ensures unchanged { OnErr result (changes.new.items ≡ changes.old.items) }
{
    match place_of(changes, &change.row) {
        Some(i) => add_at(changes, i, change.count),
        None => Ok(changes.push(change)?),
    }
}

// Adds to the number of a change.
fn add_at(changes: &mut Vec<Signed>, i: usize, count: i128) -> Result<(), AllocError>
    requires place { i < length changes.old.items }
    requires known { All (λ known. IsSmall known.count) changes.old.items }
    requires small { IsSmall count }
    ensures added { OnOk result ((other : Change) → changes.new.items ≡ slice_set changes.old.items i
        (record { row = (slice_index_or changes.old.items i other).row; count = (slice_index_or changes.old.items i other).count +ℤ count })) }
    ensures small { OnOk result (All (λ known. IsSmall known.count) changes.new.items) }
    ensures unchanged { OnErr result (changes.new.items ≡ changes.old.items) }
{
    let sum = changes[i].count + count;
    if !is_small(sum) {
        return Err(AllocError);
    }
    changes[i].count = sum;
    Ok(())
}

// Returns `true` only if a number is between -2^64 and 2^64.
fn is_small(count: i128) -> bool
    ensures { result ≡ true → IsSmall count }
{
    const PAST: i128 = 1 << 64;
    -PAST < count && count < PAST
}

// Returns the position of the first change of a row, if there is one.
fn place_of(changes: &[Signed], row: &Row) -> Option<usize>
    ensures within { IfSome result (λ i. i < length changes.now) }
    ensures found { IfSome result (λ i. (other : Change) → same_row row.now (slice_index_or changes.now i other).row ≡ true) }
    ensures first { IfSome result (λ i. (k : ℕ) (other : Change) → k < i → same_row row.now (slice_index_or changes.now k other).row ≡ false) }
    ensures none { IfNone result ((k : ℕ) (other : Change) → k < length changes.now → same_row row.now (slice_index_or changes.now k other).row ≡ false) }
{
    for i in 0..changes.len() {
        if *row == changes[i].row {
            return Some(i);
        }
    }
    None
}
