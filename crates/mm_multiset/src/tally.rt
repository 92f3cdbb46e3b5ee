//! Multisets of usually few rows.
ghost use Rattle.std.specs.Prelude.{◌≡◌, ◌≢◌, ◌+◌, ◌++◌, ◌⊎◌, ◌^◌, pos, neg_ℤ, ◌-ℤ◌, ◌+ℤ◌, ◌≤ℤ◌, ◌<ℤ◌, [], ◌∷◌, List, All, map, IfOk, OnOk};
ghost use Rattle.std.specs.List.{IsDistinct};
ghost use Rattle.mm_value.specs.Equality.{same_row};
ghost use Rattle.mm_value.specs.declared.values.Value.{Value as Val};
ghost use Rattle.mm_multiset.specs.Counts.{Adds, IsNet, count_in, count_of, signed_count};
ghost use Rattle.mm_multiset.specs.Tally.{AreListed, IsSmall};
ghost use Rattle.mm_multiset.specs.declared.signed.Signed.{Signed as Change};

use crate::counted::Counted;
use crate::differing::difference;
use crate::few::{add_change, few_changes, turn};
use crate::signed::Signed;
use mm_value::Row;
use std::alloc::{AllocError, Global};
use std::marker::Model;
use std::mem;

/// Up to this many different rows are compared faster than hashed.
const FEW: usize = 8;

/// A multiset of rows, stored as counts: few rows are in a list, and more are found by hash.
#[derive(Drop)]
pub struct Tally {
    few: Vec<Signed>,
    many: Counted,
}

impl Model for Tally {
    ghost use Rattle.std.specs.Prelude.{◌≡◌, ◌++◌, ◌⊎◌, []};
    ghost use Rattle.mm_multiset.specs.Tally.{AreListed, Tallied, listed};

    ghost Value = { Tallied };

    ghost view = { λ t. record { entries = listed t.few.items ++ t.many.entries } };

    ghost invariant = { λ t. AreListed t.few.items × ((t.few.items ≡ []) ⊎ (t.many.entries ≡ [])) };
}

impl Tally {
    /// Returns an empty multiset. Allocates nothing.
    pub fn new(alloc: Global) -> Tally
        ensures { result.entries ≡ [] }
    {
        Tally {
            few: Vec::new(alloc),
            many: Counted::new(alloc),
        }
    }

    /// Adds 1 to the count of a row. Fails with `AllocError` if an allocation fails, and may fail if the total would be 2^64 or more.
    pub fn count_up(&mut self, row: Row) -> Result<(), AllocError>
        ensures { OnOk result ((other : List Val) → count_in other self.new.entries ≡ count_in other self.old.entries + count_of other (row ∷ [])) }
    {
        if self.many.len() == 0 && self.few.len() < FEW {
            return add_change(&mut self.few, Signed { row, count: 1 });
        }
        let nothing = Vec::new(*self.few.allocator());
        let few = mem::replace(&mut self.few, nothing);
        add_all(&mut self.many, few)?;
        self.many.count_up(row)
    }
}

/// Returns each row whose counts differ, once, with its count in `comes` minus its count in `goes`, a number between -2^64 and 2^64. A row
/// without an entry has the count 0. If both have few rows, no row is copied or hashed. Fails with `AllocError` if an allocation fails.
pub fn net_changes(alloc: Global, comes: Tally, goes: Tally) -> Result<Vec<Signed>, AllocError>
    ensures change { IfOk result (λ found. (row : List Val) → signed_count row found.items ≡ pos (count_in row comes.entries) -ℤ pos (count_in row goes.entries)) }
    ensures once { IfOk result (λ found. IsDistinct same_row (map (λ change. change.row) found.items)) }
    ensures nonzero { IfOk result (λ found. All (λ change. change.count ≢ pos 0) found.items) }
    ensures small { IfOk result (λ found. All (λ change. (neg_ℤ (pos (2 ^ 64)) <ℤ change.count) × (change.count <ℤ pos (2 ^ 64))) found.items) }
{
    if comes.many.len() == 0 && goes.many.len() == 0 {
        return few_changes(comes.few, goes.few);
    }
    many_changes(alloc, into_counted(comes)?, into_counted(goes)?)
}

// Returns the same multiset, by hash.
fn into_counted(tally: Tally) -> Result<Counted, AllocError>
    ensures { IfOk result (λ counted. (row : List Val) → count_in row counted.entries ≡ count_in row tally.entries) }
{
    let Tally { few, mut many } = tally;
    add_all(&mut many, few)?;
    Ok(many)
}

// Returns the changes between two multisets by hash. Copies only rows of the one with fewer entries.
fn many_changes(alloc: Global, comes: Counted, goes: Counted) -> Result<Vec<Signed>, AllocError>
    ensures change { IfOk result (λ found. (row : List Val) → signed_count row found.items ≡ pos (count_in row comes.entries) -ℤ pos (count_in row goes.entries)) }
    ensures net { IfOk result (λ found. IsNet found.items) }
{
    if comes.len() <= goes.len() {
        return difference(alloc, &comes, goes);
    }
    let mut found = difference(alloc, &goes, comes)?;
    turn(&mut found);
    Ok(found)
}

// Adds counts to a multiset.
fn add_all(many: &mut Counted, few: Vec<Signed>) -> Result<(), AllocError>
    requires { AreListed few.items }
    ensures { OnOk result ((row : List Val) → pos (count_in row many.new.entries) ≡ pos (count_in row many.old.entries) +ℤ signed_count row few.items) }
{
    for change in few {
        add_counts(many, change)?;
    }
    Ok(())
}

// Adds to the count of a row, and reserves capacity for its entry if necessary.
fn add_counts(many: &mut Counted, change: Signed) -> Result<(), AllocError>
    requires least { pos 0 ≤ℤ change.count }
    requires small { IsSmall change.count }
    ensures { OnOk result (Adds change many.old.entries many.new.entries) }
{
    if many.total() as i128 + change.count > usize::MAX as i128 {
        return Err(AllocError);
    }
    many.reserve(1)?;
    many.add(change);
    Ok(())
}
