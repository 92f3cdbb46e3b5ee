//! A table of two numbers, and changes of it. Each call reserves the capacity that it needs.
ghost use Rattle.std.specs.Prelude.{◌≡◌, ◌∷◌, [], IfOk};
ghost use Rattle.std.specs.Bool.{OnTrue};
ghost use Rattle.mm_value.specs.declared.col_type.ColType.TheVariants.{Int};
ghost use Rattle.mm_partition.specs.Places.{IsLive};
ghost use Rattle.mm_partition.specs.Types.{HasTypes};

use crate::assertions::assert_that;
use mm_indexed::IndexedRows;
use mm_schema::{IndexKind, MAX_ROWS};
use mm_value::{ColType, Row, RowRef, Value};
use std::alloc::{AllocError, Global};
use std::process::Abort;

/// Returns a table of a key and a digit without rows, with a TREE index on the digit.
pub fn table_of(alloc: Global) -> Result<IndexedRows, AllocError>
    ensures { IfOk result (λ table. table.places.types ≡ Int ∷ Int ∷ []) }
{
    let mut table = IndexedRows::new(alloc, &[ColType::Int, ColType::Int], 0)?;
    add_index(&mut table, alloc, IndexKind::Tree)?;
    Ok(table)
}

/// Appends an index on the digit.
pub fn add_index(table: &mut IndexedRows, alloc: Global, kind: IndexKind) -> Result<(), AllocError>
    requires { table.old.places.types ≡ Int ∷ Int ∷ [] }
    ensures { table.new.places.types ≡ Int ∷ Int ∷ [] }
{
    if table.len() > MAX_ROWS {
        return Ok(());
    }
    table.add_index(alloc, 1, kind, 0)
}

/// Returns the row of a key and a digit.
fn row_of(alloc: Global, key: i64, digit: i64) -> Result<Row, AllocError>
    ensures { IfOk result (HasTypes (Int ∷ Int ∷ [])) }
{
    Ok(Row::new(vec![in alloc; Value::Int(key), Value::Int(digit)]?))
}

/// Stages the row of a key and a digit.
pub fn stage(
    table: &mut IndexedRows,
    alloc: Global,
    key: i64,
    digit: i64,
) -> Result<RowRef, AllocError>
    requires { table.old.places.types ≡ Int ∷ Int ∷ [] }
    ensures { table.new.places.types ≡ Int ∷ Int ∷ [] }
{
    let row = row_of(alloc, key, digit)?;
    row.is_storable();
    table.reserve(alloc, 1, 0, 0)?;
    Ok(table.stage(row.into_values().as_mut_slice()))
}

/// Returns whether a row in use has this reference.
pub fn is_in_use(table: &IndexedRows, at: RowRef) -> bool
    ensures { OnTrue result (IsLive table.now.places at) }
{
    if table.len() > MAX_ROWS {
        return false;
    }
    for found in table.by_key() {
        if found.slot == at.slot {
            return true;
        }
    }
    false
}

/// Uses a hidden row.
pub fn show(
    rt: &(impl Abort + AllocGlobal),
    table: &mut IndexedRows,
    at: RowRef,
) -> Result<(), AllocError>
    ensures { table.new.places.types ≡ table.old.places.types }
{
    table.reserve(rt.alloc(), 0, 1, 1)?;
    assert_that(rt, table.is_hidden(at));
    table.show(at);
    assert_that(rt, is_in_use(table, at));
    Ok(())
}

/// Hides a row in use.
pub fn hide(rt: &impl Abort, table: &mut IndexedRows, at: RowRef)
    ensures { table.new.places.types ≡ table.old.places.types }
{
    assert_that(rt, is_in_use(table, at));
    table.hide(at);
    assert_that(rt, table.is_hidden(at));
}

/// Hides all rows.
pub fn hide_all(rt: &impl Abort, table: &mut IndexedRows) {
    assert_that(rt, table.len() <= MAX_ROWS);
    table.hide_all();
    assert_that(rt, table.len() == 0);
}

/// Drops a hidden row.
pub fn release(rt: &impl Abort, table: &mut IndexedRows, at: RowRef)
    ensures { table.new.places.types ≡ table.old.places.types }
{
    assert_that(rt, table.is_hidden(at));
    table.release(at);
    assert_that(rt, !table.is_hidden(at));
}

/// Exchanges a row in use and a hidden row, with the call for rows of one key if they have one.
pub fn exchange(
    rt: &(impl Abort + AllocGlobal),
    table: &mut IndexedRows,
    at: RowRef,
    other: RowRef,
) -> Result<(), AllocError>
    ensures { table.new.places.types ≡ table.old.places.types }
{
    table.reserve(rt.alloc(), 0, 1, 1)?;
    assert_that(rt, is_in_use(table, at));
    assert_that(rt, table.is_hidden(other));
    if table.keeps_key(at, other) {
        table.exchange_kept(at, other);
    } else {
        table.exchange_moved(at, other);
    }
    Ok(())
}

/// Returns whether another row in use has the key of a row.
pub fn has_twin(rt: &impl Abort, table: &IndexedRows, at: RowRef) -> bool {
    assert_that(rt, is_in_use(table, at));
    table.has_twin(at)
}
