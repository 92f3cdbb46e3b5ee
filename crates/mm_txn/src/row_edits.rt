//! The edits of one table for a change of its rows. Each new row is staged as soon as it is computed, so at most one exists outside the
//! table at a time.
ghost use Rattle.std.specs.Prelude.{◌≡◌, ◌≢◌, ℕ, ◌+◌, ◌<◌, All, AllPairs, IfOk, None, Some, filter, length, map};
ghost use Rattle.std.specs.List.{flat_map};
ghost use Rattle.mm_indexed.specs.Kept.{StoredRows};
ghost use Rattle.mm_indexed.specs.RowLists.{rows_of};
ghost use Rattle.mm_partition.specs.Places.{IsLive, slot_at};
ghost use Rattle.mm_partition.specs.Types.{HasTypes};
ghost use Rattle.mm_plan.specs.Finding.{among, meets};
ghost use Rattle.mm_query.specs.Atoms.{range_conditions, updated_row};
ghost use Rattle.mm_query.specs.Binding.{AssignmentsWithin};
ghost use Rattle.mm_query.specs.Edits.{new_values, removals_of};
ghost use Rattle.mm_row_order.specs.Refs.{row_at};
ghost use Rattle.mm_schema.specs.Refused.{AnswersDue, first_refusal};
ghost use Rattle.mm_schema.specs.Rows.{additions};
ghost use Rattle.mm_store.specs.Edits.{AreFit, pairs_of};
ghost use Rattle.mm_store.specs.Staging.{CanStage, HasStaged};
ghost use Rattle.mm_store.specs.Tables.{IsAt};
ghost use Rattle.mm_tables.specs.declared.edit.Edit.TheVariants.{Delete};
ghost use Rattle.mm_txn.specs.RowEdits.{BringNone, Brings, Stages, updated_at, updates_of};

use mm_plan::{find_rows, in_key_order};
use mm_query::{Assignment, Atom, FieldPlace, updated_row};
use mm_store::{Store, View};
use mm_tables::Edit;
use mm_value::{Few, Refusal, Row, RowRef, Tuple};
use smallvec::SmallVec;
use std::alloc::{AllocError, Global};

/// Stages rows of a table, and returns the edits that insert them, in their order. Fails with `AllocError` if an allocation fails; then
/// some of the rows may be staged.
pub(crate) fn additions(
    alloc: Global,
    store: &mut Store,
    table: usize,
    rows: Few<Tuple>,
) -> Result<Few<Edit>, AllocError>
    requires there { table < length store.old.tables }
    requires typed { (stored : StoredRows) → IsAt store.old table stored → All (HasTypes stored.places.types) rows }
    ensures made { IfOk result (λ edits. Stages table store.old store.new edits (additions rows)) }
    ensures kept { HasStaged table store.old store.new }
{
    let count = rows.as_slice().len();
    let mut edits = Few::with_capacity(alloc, count)?;
    store.reserve_rows(alloc, table, count)?;
    for row in rows {
        let edit = addition(store, table, row);
        edits.push(alloc, edit)?;
    }
    Ok(edits)
}

/// Stages a row of a table, for which there is capacity, and returns the edit that inserts it. Allocates nothing.
fn addition(store: &mut Store, table: usize, row: Tuple) -> Edit
    requires there { table < length store.old.tables }
    requires room { CanStage 1 table store.old }
    requires typed { (stored : StoredRows) → IsAt store.old table stored → HasTypes stored.places.types row }
    ensures added { (stored now : StoredRows) → IsAt store.old table stored → IsAt store.new table now → Brings stored now None row result }
    ensures kept { HasStaged table store.old store.new }
    ensures room { (n : ℕ) → CanStage (n + 1) table store.old → CanStage n table store.new }
{
    row.is_storable();
    let mut values = row.into_values();
    Edit::Insert(store.stage(table, values.as_mut_slice()))
}

/// Stages the updated row for each row that satisfies all atoms, and returns the edits that replace the rows by these. The rows are found
/// as for a query of this table alone. Fails with `ArithmeticOutOfRange` if a new value exceeds 64 bits, and with `Memory` if an allocation
/// fails; then some of the rows may be staged.
pub(crate) fn updates(
    alloc: Global,
    store: &mut Store,
    table: usize,
    assignments: &[Assignment<usize>],
    atoms: &[Atom<FieldPlace>],
) -> Result<Few<Edit>, Refusal>
    requires there { table < length store.old.tables }
    requires assignments { (stored : StoredRows) → IsAt store.old table stored → AssignmentsWithin (length stored.places.types) assignments.now }
    requires typed { (stored : StoredRows) → IsAt store.old table stored
        → All (HasTypes stored.places.types) (map (updated_row assignments.now) (filter (meets atoms.now) (rows_of stored))) }
    ensures due { (stored : StoredRows) → IsAt store.old table stored
        → AnswersDue (first_refusal (range_conditions (new_values (updates_of assignments.now (filter (meets atoms.now) (rows_of stored)))))) result }
    ensures made { IfOk result (λ edits. (stored : StoredRows) → IsAt store.old table stored
        → Stages table store.old store.new edits (updates_of assignments.now (filter (meets atoms.now) (rows_of stored)))) }
    ensures kept { HasStaged table store.old store.new }
{
    let mut view = store.view();
    let found = find_rows(alloc, &mut view, table, atoms)?;
    swaps(alloc, store, table, found.as_slice(), assignments)
}

/// Stages the updated row for each of these references, which are distinct, and returns the edits that replace the rows by these. Fails as
/// `updates` does.
fn swaps(
    alloc: Global,
    store: &mut Store,
    table: usize,
    refs: &[RowRef],
    assignments: &[Assignment<usize>],
) -> Result<Few<Edit>, Refusal>
    requires there { table < length store.old.tables }
    requires live { (stored : StoredRows) → IsAt store.old table stored → All (IsLive stored.places) refs.now }
    requires apart { AllPairs (λ a b. a ≢ b) refs.now }
    requires assignments { (stored : StoredRows) → IsAt store.old table stored → AssignmentsWithin (length stored.places.types) assignments.now }
    requires typed { (stored : StoredRows) → IsAt store.old table stored
        → All (HasTypes stored.places.types) (map (updated_at (slot_at stored.places) assignments.now) refs.now) }
    ensures due { (stored : StoredRows) → IsAt store.old table stored → AnswersDue (first_refusal (range_conditions
        (flat_map (updated_at (slot_at stored.places) assignments.now) refs.now))) result }
    ensures made { IfOk result (λ edits. (stored : StoredRows) → IsAt store.old table stored
        → Stages table store.old store.new edits (updates_of assignments.now (map (row_at (slot_at stored.places)) refs.now))) }
    ensures kept { HasStaged table store.old store.new }
{
    let mut edits = Few::with_capacity(alloc, refs.len())?;
    store.reserve_rows(alloc, table, refs.len())?;
    for at in refs {
        let row = row_for(alloc, store, table, *at, assignments)?;
        let edit = swap(store, table, *at, row);
        edits.push(alloc, edit)?;
    }
    Ok(edits)
}

/// Returns the updated row of a row of a table. Fails as `updates` does.
fn row_for(
    alloc: Global,
    store: &Store,
    table: usize,
    at: RowRef,
    assignments: &[Assignment<usize>],
) -> Result<Row, Refusal>
    requires there { table < length store.now.tables }
    requires live { (stored : StoredRows) → IsAt store.now table stored → IsLive stored.places at }
    requires assignments { (stored : StoredRows) → IsAt store.now table stored → AssignmentsWithin (length stored.places.types) assignments.now }
    ensures due { (stored : StoredRows) → IsAt store.now table stored
        → AnswersDue (first_refusal (range_conditions (updated_at (slot_at stored.places) assignments.now at))) result }
    ensures ok { IfOk result (λ row. (stored : StoredRows) → IsAt store.now table stored → row ≡ updated_at (slot_at stored.places) assignments.now at) }
{
    let mut view = store.view();
    let row = view.row(table, at);
    updated_row(alloc, &row, assignments)
}

/// Stages a row of a table, for which there is capacity, and returns the edit that replaces a row in use by it. Allocates nothing.
fn swap(store: &mut Store, table: usize, at: RowRef, row: Row) -> Edit
    requires there { table < length store.old.tables }
    requires live { (stored : StoredRows) → IsAt store.old table stored → IsLive stored.places at }
    requires room { CanStage 1 table store.old }
    requires typed { (stored : StoredRows) → IsAt store.old table stored → HasTypes stored.places.types row }
    ensures swapped { (stored now : StoredRows) → IsAt store.old table stored → IsAt store.new table now → Brings stored now (Some at) row result }
    ensures kept { HasStaged table store.old store.new }
    ensures room { (n : ℕ) → CanStage (n + 1) table store.old → CanStage n table store.new }
{
    row.is_storable();
    let mut values = row.into_values();
    let other = store.stage(table, values.as_mut_slice());
    // A row that keeps its key needs no change of the index on the key.
    if store.keeps_key(table, at, other) {
        Edit::Update(at, other)
    } else {
        Edit::Move(at, other)
    }
}

/// Returns edits that delete each row that satisfies all atoms. The rows are found as for a query of this table alone. Fails with
/// `AllocError` if an allocation fails.
pub(crate) fn removals(
    alloc: Global,
    view: &mut View<'_>,
    table: usize,
    atoms: &[Atom<FieldPlace>],
) -> Result<Few<Edit>, AllocError>
    requires { table < length view.old.store.tables }
    ensures pairs { IfOk result (λ edits. (stored : StoredRows) → IsAt view.old.store table stored
        → pairs_of (slot_at stored.places) edits ≡ removals_of (filter (meets atoms.now) (rows_of stored))) }
    ensures fit { IfOk result (λ edits. (stored : StoredRows) → IsAt view.old.store table stored → AreFit stored edits) }
{
    let found = find_rows(alloc, view, table, atoms)?;
    gone_each(alloc, found.as_slice())
}

/// Returns edits that delete the rows of these references, each once and in key order, whatever the order of the references. Fails with
/// `AllocError` if an allocation fails.
pub(crate) fn removals_at(
    alloc: Global,
    view: &mut View<'_>,
    table: usize,
    refs: Vec<RowRef>,
) -> Result<Few<Edit>, AllocError>
    requires there { table < length view.old.store.tables }
    requires live { (stored : StoredRows) → IsAt view.old.store table stored → All (IsLive stored.places) refs.items }
    ensures items { IfOk result (λ edits. (stored : StoredRows) → IsAt view.old.store table stored → edits ≡ map Delete (among refs.items stored)) }
    ensures fit { IfOk result (λ edits. (stored : StoredRows) → IsAt view.old.store table stored → AreFit stored edits) }
    ensures none_comes { IfOk result (λ edits. BringNone edits) }
{
    let gone = in_key_order(alloc, view, table, SmallVec::from_vec(refs))?;
    gone_each(alloc, gone.as_slice())
}

/// Returns edits that delete the rows of these references, in their order. Fails with `AllocError` if an allocation fails.
fn gone_each(alloc: Global, refs: &[RowRef]) -> Result<Few<Edit>, AllocError>
    ensures { IfOk result (λ edits. edits ≡ map Delete refs.now) }
{
    let mut edits = Few::with_capacity(alloc, refs.len())?;
    for at in refs {
        edits.push(alloc, Edit::Delete(*at))?;
    }
    Ok(edits)
}
