//! The change of a query's bag when tables are edited.
ghost use Rattle.std.specs.Prelude.{◌≡◌, ◌≢◌, ℕ, ◌+◌, ◌<◌, ◌≤◌, ◌^◌, ◌<ℤ◌, neg_ℤ, pos, Bool, List, length, map, All, IfOk};
ghost use Rattle.std.specs.List.{IsDistinct, range_with_len, sum_by};
ghost use Rattle.mm_value.specs.Equality.{same_row};
ghost use Rattle.mm_value.specs.declared.values.Value.{Value as AnyValue};
ghost use Rattle.mm_delta.specs.Change.{change_between};
ghost use Rattle.mm_multiset.specs.Counts.{signed_count};
ghost use Rattle.mm_multiset.specs.declared.signed.Signed.{Signed as Change};
ghost use Rattle.mm_delta.specs.Edited.{after_at, before_at};
ghost use Rattle.mm_delta.specs.Skipping.{IsOfCyclicRows, IsTypeTested};
ghost use Rattle.mm_delta.specs.Steps.{EachFit, term_reads};

use crate::edited::TableChange;
use crate::indexed_changes::IndexedChanges;
use crate::walk::Walk;
use mm_multiset::{Signed, Tally, net_changes};
use mm_query::BoundQuery;
use mm_store::View;
use std::alloc::{AllocError, Global};

/// Returns the change of the count of each row in a query's bag when tables are edited: one entry for each row whose count changes, and
/// none for any other. From each table only deleted rows are read, and rows that may combine with an edited row. If a cycle shows that no
/// combination with an edited row matches, none is read for it. Reading a staged row is not counted.
///
/// `tables` are the store's places of the tables of FROM, at most 4, in their order. Requires that the edits of each table may be made
/// together and are not made yet, with the new rows staged. No atom may add a number to a text. Fails with `AllocError` if an allocation
/// fails; then only the count of reads has changed.
pub fn delta<'c, 'a: 'c>(
    alloc: Global,
    view: &mut View<'a>,
    query: &'c BoundQuery,
    tables: &'c [usize],
    changes: &'c [TableChange<'c>],
) -> Result<Vec<Signed>, AllocError>
    requires few { length tables.now ≤ 4 }
    requires there { All (λ table. table < length view.old.store.tables) tables.now }
    requires fit { EachFit view.old.store changes.now }
    requires typed { IsTypeTested query.now view.old.store changes.now tables.now }
    ensures change { IfOk result (λ found. (row : List AnyValue) → signed_count row found.items
        ≡ change_between query.now (map (before_at view.old.store) tables.now) (map (after_at view.old.store changes.now) tables.now) row) }
    ensures once { IfOk result (λ found. IsDistinct same_row (map (λ (change : Change). change.row) found.items)) }
    ensures nonzero { IfOk result (λ found. All (λ (change : Change). change.count ≢ pos 0) found.items) }
    ensures small { IfOk result (λ found. All (λ (change : Change). (neg_ℤ (pos (2 ^ 64)) <ℤ change.count) × (change.count <ℤ pos (2 ^ 64))) found.items) }
    ensures reads { (skipped : ℕ → List AnyValue → Bool) → IsOfCyclicRows query.now skipped → view.new.reads ≤ view.old.reads
        + sum_by (term_reads query.now view.old.store changes.now tables.now skipped) (range_with_len 0 (length tables.now)) }
    ensures same { view.new.store ≡ view.old.store }
{
    let indexed = IndexedChanges::new(alloc, view, query, tables, changes)?;
    let mut comes = Tally::new(alloc);
    let mut goes = Tally::new(alloc);
    for place in 0..tables.len() {
        let walk = Walk {
            query,
            tables,
            changes: &indexed,
            place,
        };
        walk.add_term(alloc, view, &mut comes, &mut goes)?;
    }
    net_changes(alloc, comes, goes)
}
