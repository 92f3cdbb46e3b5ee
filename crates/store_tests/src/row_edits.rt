//! Rows of tables whose two columns are integers, a key and a value: staged rows and their edits.
ghost use Rattle.std.specs.Prelude.{◌≡◌, ℕ, ◌+◌, ◌<◌, ◌∷◌, [], IfOk, None, Some, length};
ghost use Rattle.mm_indexed.specs.Kept.{StoredRows};
ghost use Rattle.mm_store.specs.Edits.{old_slot};
ghost use Rattle.mm_store.specs.Staging.{CanStage, HasStaged, IsStaged};
ghost use Rattle.mm_store.specs.Tables.{IsAt};
ghost use Rattle.mm_value.specs.declared.values.Value.TheVariants.{Int};
ghost use Rattle.store_tests.specs.RowEdits.{AreReadyAt, Brings, IsLiveAt};
ghost use Rattle.store_tests.specs.SampleStore.{ArePlain};

use mm_store::Store;
use mm_tables::Edit;
use mm_value::{RowRef, Value};
use std::alloc::{AllocError, Global};

/// Stages a row of a table for each key and value, and returns the edits that insert these rows. Fails with `AllocError` if an allocation
/// fails; then some of the rows may be staged.
pub fn insertions(
    store: &mut Store,
    alloc: Global,
    table: usize,
    rows: &[(i64, i64)],
) -> Result<Vec<Edit>, AllocError>
    requires there { table < length store.old.tables }
    requires plain { ArePlain store.old }
    ensures staged { HasStaged table store.old store.new }
    ensures ready { IfOk result (λ edits. AreReadyAt store.new table edits.items) }
{
    store.reserve_rows(alloc, table, rows.len())?;
    let mut edits = Vec::with_capacity(alloc, rows.len())?;
    for row in rows {
        edits.push(insertion(store, table, row.0, row.1))?;
    }
    Ok(edits)
}

/// Stages a row of a key and a value, for which there is capacity, and returns the edit that inserts it. Allocates nothing.
fn insertion(store: &mut Store, table: usize, key: i64, value: i64) -> Edit
    requires there { table < length store.old.tables }
    requires plain { ArePlain store.old }
    requires room { CanStage 1 table store.old }
    ensures brings { Brings table result store.old store.new }
    ensures replaces { old_slot result ≡ None }
{
    Edit::Insert(stage(store, table, key, value))
}

/// Stages a row of a key and a value, for which there is capacity, and returns the edit that replaces a row in use by it.
/// Allocates nothing.
pub fn replacement(store: &mut Store, table: usize, at: RowRef, key: i64, value: i64) -> Edit
    requires there { table < length store.old.tables }
    requires plain { ArePlain store.old }
    requires live { IsLiveAt store.old table at }
    requires room { CanStage 1 table store.old }
    ensures brings { Brings table result store.old store.new }
    ensures replaces { old_slot result ≡ Some at }
{
    let other = stage(store, table, key, value);
    if store.keeps_key(table, at, other) {
        Edit::Update(at, other)
    } else {
        Edit::Move(at, other)
    }
}

/// Stages a row of a key and a value, for which there is capacity, and returns its reference. Allocates nothing.
fn stage(store: &mut Store, table: usize, key: i64, value: i64) -> RowRef
    requires there { table < length store.old.tables }
    requires plain { ArePlain store.old }
    requires room { CanStage 1 table store.old }
    ensures staged { (stored now : StoredRows) → IsAt store.old table stored → IsAt store.new table now
        → IsStaged result (Int key ∷ Int value ∷ []) stored now }
    ensures kept { HasStaged table store.old store.new }
    ensures room { (rows : ℕ) → CanStage (rows + 1) table store.old → CanStage rows table store.new }
{
    let mut values = [Value::Int(key), Value::Int(value)];
    store.stage(table, &mut values)
}
