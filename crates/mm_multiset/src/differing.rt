//! Differences of multisets.
ghost use Rattle.std.specs.Prelude.{◌≡◌, ◌≢◌, ◌^◌, pos, neg_ℤ, ◌-ℤ◌, ◌<ℤ◌, List, All, map, if◌then◌else◌, IfOk, OnOk};
ghost use Rattle.std.specs.List.{IsDistinct};
ghost use Rattle.mm_value.specs.Equality.{same_row};
ghost use Rattle.mm_value.specs.declared.values.Value.{Value as Val};
ghost use Rattle.mm_multiset.specs.Counts.{IsNet, count_in, has_entry, signed_count};

use crate::counted::Counted;
use crate::signed::Signed;
use std::alloc::{AllocError, Global};

/// Returns each row whose counts differ, once, with its count in `comes` minus its count in `goes`, a number between -2^64 and 2^64. A row
/// without an entry has the count 0. Fails with `AllocError` if an allocation fails.
pub(crate) fn difference(
    alloc: Global,
    comes: &Counted,
    goes: Counted,
) -> Result<Vec<Signed>, AllocError>
    ensures change { IfOk result (λ found. (row : List Val) → signed_count row found.items ≡ pos (count_in row comes.now.entries) -ℤ pos (count_in row goes.entries)) }
    ensures once { IfOk result (λ found. IsDistinct same_row (map (λ change. change.row) found.items)) }
    ensures nonzero { IfOk result (λ found. All (λ change. change.count ≢ pos 0) found.items) }
    ensures small { IfOk result (λ found. All (λ change. (neg_ℤ (pos (2 ^ 64)) <ℤ change.count) × (change.count <ℤ pos (2 ^ 64))) found.items) }
{
    let mut found = changes_of_entries(alloc, comes, &goes)?;
    push_gone(&mut found, comes, goes)?;
    Ok(found)
}

// Returns the changes of the rows with an entry in `comes`.
fn changes_of_entries(
    alloc: Global,
    comes: &Counted,
    goes: &Counted,
) -> Result<Vec<Signed>, AllocError>
    ensures counts { IfOk result (λ found. (row : List Val) → signed_count row found.items ≡ (if has_entry row comes.now.entries then pos (count_in row comes.now.entries) -ℤ pos (count_in row goes.now.entries) else pos 0)) }
    ensures net { IfOk result (λ found. IsNet found.items) }
{
    let mut found = Vec::new(alloc);
    for (row, count) in comes.entries() {
        let change = net(*count, goes.count(row));
        if change != 0 {
            found.push(Signed {
                row: row.copy(alloc)?,
                count: change,
            })?;
        }
    }
    Ok(found)
}

// Appends the changes of the rows without an entry in `comes` to those of the rows with one.
fn push_gone(found: &mut Vec<Signed>, comes: &Counted, goes: Counted) -> Result<(), AllocError>
    requires counts { (row : List Val) → signed_count row found.old.items ≡ (if has_entry row comes.now.entries then pos (count_in row comes.now.entries) -ℤ pos (count_in row goes.entries) else pos 0) }
    requires net { IsNet found.old.items }
    ensures counts { OnOk result ((row : List Val) → signed_count row found.new.items ≡ pos (count_in row comes.now.entries) -ℤ pos (count_in row goes.entries)) }
    ensures net { OnOk result (IsNet found.new.items) }
{
    for (row, count) in goes.into_entries() {
        if count != 0 && !comes.has_entry(&row) {
            found.push(Signed {
                row,
                count: net(0, count),
            })?;
        }
    }
    Ok(())
}

// Returns the first count minus the second.
fn net(comes: usize, goes: usize) -> i128
    ensures value { result ≡ pos comes -ℤ pos goes }
    ensures above { neg_ℤ (pos (2 ^ 64)) <ℤ result }
    ensures below { result <ℤ pos (2 ^ 64) }
{
    comes as i128 - goes as i128
}
