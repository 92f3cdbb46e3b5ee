//! Changes of rows, and of the lists of standing queries with them.
ghost use Rattle.std.specs.Prelude.{◌≡◌, ℕ, ◌<◌, ◌≤◌, ◌∷◌, All, List, [], map, IfOk, OnOk, OnErr};
ghost use Rattle.mm_indexed.specs.Index.{EachTurns};
ghost use Rattle.mm_indexed.specs.Kept.{StoredRows};
ghost use Rattle.mm_schema.specs.Refused.{AnswersDue, first_refusal};
ghost use Rattle.mm_multiset.specs.Counts.{count_in};
ghost use Rattle.mm_standing.specs.Bags.{entries_at};
ghost use Rattle.mm_standing.specs.Queries.{change_conditions as list_conditions};
ghost use Rattle.mm_standing.specs.State.{AreServed, FitPrepared};
ghost use Rattle.mm_store.specs.Marks.{KeepsMarks, mark_of};
ghost use Rattle.mm_store.specs.Tables.{IsAt, SameForm};
ghost use Rattle.mm_txn.specs.Contents.{IsDue, Makes, MayMake};
ghost use Rattle.mm_plan.specs.Kept.{instance_of};
ghost use Rattle.mm_txn.specs.PlacedEdits.{AreEdits, FitsAt, HaveRows, edits_conditions, placed, placed_change, rows_edited};
ghost use Rattle.mm_txn.specs.Listed.{AreListed, IsTested, rows_by_place};
ghost use Rattle.mm_txn.specs.Reads.{ReadsForLists};
ghost use Rattle.mm_value.specs.declared.values.Value.{Value};

use crate::contents::Contents;
use crate::edits::{ChangeEdits, RelationEdits};
use mm_delta::TableChange;
use mm_standing::Standing;
use mm_store::Store;
use mm_value::{Few, Refusal};
use std::alloc::{AllocError, Global};

impl Contents {
    /// Makes and logs all edits of a change, or none if the rows or the standing queries refuse it. Each list is updated to match its
    /// query. Fails as [`Store::make`] does for the table that the change names, and then as [`Standing::prepare`] does. `RowIsReferenced`
    /// is also due if a row that stays refers to a deleted row of another table. Sets `reads` to the number of rows read for the lists.
    pub(crate) fn make_edits(
        &mut self,
        alloc: Global,
        edits: ChangeEdits,
        reads: &mut u64,
    ) -> Result<(), Refusal>
        requires { MayMake self.old.store self.old.lists (placed edits.own ∷ map placed edits.cascaded.items) }
        ensures due { IsDue self.old.store self.old.lists (placed edits.own) (map placed edits.cascaded.items) result }
        ensures made { Makes (rows_edited self.old.store (placed edits.own ∷ map placed edits.cascaded.items)) self.old.store self.new.store
            self.old.lists self.new.lists result }
        ensures schema { self.new.schema ≡ self.old.schema }
        ensures reads { ReadsForLists self.old.store (placed edits.own ∷ map placed edits.cascaded.items) self.old.lists.queries reads.new }
    {
        edit_tables(alloc, &mut self.store, &mut self.standing, edits, reads)
    }
}

/// Makes the edits of tables, as [`Contents::make_edits`] does. The changes of the lists are prepared first, because they read the rows
/// before the edits.
fn edit_tables(
    alloc: Global,
    store: &mut Store,
    standing: &mut Standing,
    edits: ChangeEdits,
    reads: &mut u64,
) -> Result<(), Refusal>
    requires { MayMake store.old standing.old (placed edits.own ∷ map placed edits.cascaded.items) }
    ensures due { IsDue store.old standing.old (placed edits.own) (map placed edits.cascaded.items) result }
    ensures made { Makes (rows_edited store.old (placed edits.own ∷ map placed edits.cascaded.items)) store.old store.new standing.old standing.new result }
    ensures reads { ReadsForLists store.old (placed edits.own ∷ map placed edits.cascaded.items) standing.old.queries reads.new }
{
    let ChangeEdits { own, cascaded } = edits;
    let prepared = prepare_lists(alloc, store, standing, &own, cascaded.as_slice(), reads);
    if let Err(Refusal::Memory) = prepared {
        return Err(Refusal::Memory);
    }
    let mark = store.mark();
    if let Err(refusal) = apply_each(alloc, store, own, cascaded).and(prepared) {
        store.revert(mark);
        standing.discard();
        return Err(refusal);
    }
    standing.apply_prepared();
    Ok(())
}

/// Makes the edits of tables, from the last table to the first. A column refers to an older table, so all rows that refer to a deleted row
/// are deleted before it, unless they stay. Fails as [`Contents::make_edits`] does because of rows. Then some of the edits may be made, and
/// the log records which.
fn apply_each(
    alloc: Global,
    store: &mut Store,
    own: RelationEdits,
    mut cascaded: Vec<RelationEdits>,
) -> Result<(), Refusal>
    requires are { AreEdits store.old (placed own ∷ map placed cascaded.items) }
    requires back { All (λ reference. reference.to < reference.from) store.old.links }
    ensures due { (stored : StoredRows) → IsAt store.old own.table stored
        → AnswersDue (first_refusal (edits_conditions store.old stored (placed own) (map placed cascaded.items))) result }
    ensures ok { OnOk result (HaveRows (rows_edited store.old (placed own ∷ map placed cascaded.items)) store.old store.new) }
    ensures form { EachTurns SameForm store.old.tables store.new.tables }
    ensures links { store.new.links ≡ store.old.links }
    ensures longer { mark_of store.old ≤ mark_of store.new }
    ensures marks { (mark : ℕ) → mark ≤ mark_of store.old → KeepsMarks store.old store.new mark }
{
    store.deletions_may_be_made(own.table);
    while let Some(removals) = cascaded.pop() {
        store.deletions_may_be_made(removals.table);
        store.make(alloc, removals.table, removals.edits.as_slice())?;
    }
    store.make(alloc, own.table, own.edits.as_slice())
}

/// Prepares the changes of the lists for edits of tables. Fails with `StandingListTooLarge` if a list would have more than 1,048,576 rows,
/// and with `Memory` if an allocation fails; then nothing is prepared. Sets `reads` to the number of rows read for the lists.
fn prepare_lists(
    alloc: Global,
    store: &Store,
    standing: &mut Standing,
    own: &RelationEdits,
    cascaded: &[RelationEdits],
    reads: &mut u64,
) -> Result<(), Refusal>
    requires fit { All (FitsAt store.now) (placed own.now ∷ map placed cascaded.now) }
    requires served { AreServed store.now standing.old.queries }
    requires listed { AreListed (instance_of store.now.tables) standing.old }
    requires typed { All (IsTested (rows_by_place (instance_of store.now.tables)) (rows_edited store.now (placed own.now ∷ map placed cascaded.now)))
        standing.old.queries }
    ensures due { AnswersDue (first_refusal (list_conditions (rows_edited store.now (placed own.now ∷ map placed cascaded.now)) standing.old.queries)) result }
    ensures ok { OnOk result (FitPrepared (rows_edited store.now (placed own.now ∷ map placed cascaded.now)) standing.new) }
    ensures err { OnErr result (standing.new.prepared ≡ []) }
    ensures counts { (list : ℕ) (row : List Value)
        → count_in row (entries_at standing.new.bags list) ≡ count_in row (entries_at standing.old.bags list) }
    ensures queries { standing.new.queries ≡ standing.old.queries }
    ensures log { standing.new.log ≡ standing.old.log }
    ensures reads { ReadsForLists store.now (placed own.now ∷ map placed cascaded.now) standing.old.queries reads.new }
{
    *reads = 0;
    let changes = as_changes(alloc, own, cascaded)?;
    let mut view = store.view();
    let outcome = standing.prepare(alloc, &mut view, changes.as_slice());
    *reads = view.reads();
    outcome
}

/// Returns the edits of tables for the lists of standing queries. Fails with `AllocError` if an allocation fails; a single table needs
/// none.
fn as_changes<'e>(
    alloc: Global,
    own: &'e RelationEdits,
    cascaded: &'e [RelationEdits],
) -> Result<Few<TableChange<'e>>, AllocError>
    ensures { IfOk result (λ changes. map placed_change changes ≡ placed own.now ∷ map placed cascaded.now) }
{
    let mut changes = Few::with_capacity(alloc, cascaded.len().saturating_add(1))?;
    changes.push(alloc, own.as_change())?;
    for removals in cascaded {
        changes.push(alloc, removals.as_change())?;
    }
    Ok(changes)
}
