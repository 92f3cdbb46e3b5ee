//! Changes of rows and their undo, and the contents of the indexes after each.
ghost use Rattle.std.specs.Prelude.{◌≡◌, ◌∷◌, []};
ghost use Rattle.mm_value.specs.declared.col_type.ColType.TheVariants.{Int};

use crate::assertions::assert_that;
use crate::samples::{
    add_index, exchange, has_twin, hide, hide_all, release, show, stage, table_of,
};
use crate::shows::{assert_hashed, assert_keys};
use mm_indexed::IndexedRows;
use mm_schema::IndexKind;
use mm_value::RowRef;
use std::alloc::AllocError;
use std::process::Abort;
use std::test::Fail;

/// Two rows, in use or hidden.
#[derive(Clone, Copy)]
struct Pair {
    one: RowRef,
    other: RowRef,
}

/// Stages two rows with these keys and the digits 9 and 8.
fn stage_two(
    rt: &impl AllocGlobal,
    table: &mut IndexedRows,
    one: i64,
    other: i64,
) -> Result<Pair, AllocError>
    requires { table.old.places.types ≡ Int ∷ Int ∷ [] }
    ensures { table.new.places.types ≡ Int ∷ Int ∷ [] }
{
    let one = stage(table, rt.alloc(), one, 9)?;
    let other = stage(table, rt.alloc(), other, 8)?;
    Ok(Pair { one, other })
}

/// Uses two hidden rows, the second first.
fn show_two(
    rt: &(impl Abort + AllocGlobal),
    table: &mut IndexedRows,
    rows: Pair,
) -> Result<(), AllocError>
    ensures { table.new.places.types ≡ table.old.places.types }
{
    assert_keys(rt, table, &[], &[])?;
    show(rt, table, rows.other)?;
    show(rt, table, rows.one)?;
    assert_keys(rt, table, &[Some(1), Some(2)], &[Some(2), Some(1)])
}

/// Asserts for each of two rows whether another row has its key.
fn assert_twins(rt: &impl Abort, table: &IndexedRows, rows: Pair, twins: bool) {
    assert_that(rt, has_twin(rt, table, rows.one) == twins);
    assert_that(rt, has_twin(rt, table, rows.other) == twins);
}

/// Increases the keys of two rows by one, the lower key first. In between, both keys are 2.
fn raise_keys(
    rt: &(impl Abort + AllocGlobal),
    table: &mut IndexedRows,
    rows: Pair,
    raised: Pair,
) -> Result<(), AllocError>
    ensures { table.new.places.types ≡ table.old.places.types }
{
    exchange(rt, table, rows.one, raised.one)?;
    assert_keys(rt, table, &[Some(2), Some(2)], &[Some(2), Some(2)])?;
    assert_twins(rt, table, rows, true);
    exchange(rt, table, rows.other, raised.other)?;
    assert_keys(rt, table, &[Some(2), Some(3)], &[Some(3), Some(2)])?;
    assert_twins(rt, table, rows, false);
    Ok(())
}

/// Decreases the keys again, in the same order of the rows, and drops the rows that had the higher keys.
fn lower_keys(
    rt: &(impl Abort + AllocGlobal),
    table: &mut IndexedRows,
    rows: Pair,
    raised: Pair,
) -> Result<(), AllocError> {
    exchange(rt, table, rows.one, raised.one)?;
    exchange(rt, table, rows.other, raised.other)?;
    assert_twins(rt, table, rows, false);
    release(rt, table, raised.one);
    release(rt, table, raised.other);
    assert_keys(rt, table, &[Some(1), Some(2)], &[Some(2), Some(1)])
}

/// Increases the keys 1 and 2, and decreases them again.
fn raise_and_lower(
    rt: &(impl Abort + AllocGlobal),
    table: &mut IndexedRows,
) -> Result<(), AllocError>
    requires { table.old.places.types ≡ Int ∷ Int ∷ [] }
{
    let rows = stage_two(rt, table, 1, 2)?;
    show_two(rt, table, rows)?;
    assert_twins(rt, table, rows, false);
    let raised = stage_two(rt, table, 2, 3)?;
    raise_keys(rt, table, rows, raised)?;
    lower_keys(rt, table, rows, raised)
}

#[test]
fn exchanges_keys_through_twins(rt: HostRuntime) -> Result<(), Fail> {
    let mut table = table_of(rt.alloc())?;
    raise_and_lower(&rt, &mut table)?;
    Ok(())
}

/// Hides a row of key 1 and digit 9, uses another row of key 1, and undoes both.
fn hide_and_show(
    rt: &(impl Abort + AllocGlobal),
    table: &mut IndexedRows,
    rows: Pair,
    new: RowRef,
) -> Result<(), AllocError> {
    hide(rt, table, rows.one);
    assert_hashed(rt, table, 9, &[])?;
    show(rt, table, new)?;
    assert_hashed(rt, table, 7, &[Some(1)])?;
    hide(rt, table, new);
    release(rt, table, new);
    show(rt, table, rows.one)?;
    assert_hashed(rt, table, 9, &[Some(1)])?;
    assert_hashed(rt, table, 7, &[])
}

/// Exchanges a row of key 1 and digit 9 and another row of key 1, and exchanges them again.
fn exchange_and_back(
    rt: &(impl Abort + AllocGlobal),
    table: &mut IndexedRows,
    rows: Pair,
    new: RowRef,
) -> Result<(), AllocError> {
    exchange(rt, table, rows.one, new)?;
    assert_keys(rt, table, &[Some(1), Some(2)], &[Some(1), Some(2)])?;
    assert_hashed(rt, table, 9, &[])?;
    assert_hashed(rt, table, 7, &[Some(1)])?;
    exchange(rt, table, rows.one, new)?;
    assert_keys(rt, table, &[Some(1), Some(2)], &[Some(2), Some(1)])?;
    assert_hashed(rt, table, 9, &[Some(1)])
}

/// Changes the row of key 1 of a table with a HASH index.
fn change_hashed(rt: &(impl Abort + AllocGlobal), table: &mut IndexedRows) -> Result<(), AllocError>
    requires { table.old.places.types ≡ Int ∷ Int ∷ [] }
{
    add_index(table, rt.alloc(), IndexKind::Hash)?;
    let rows = stage_two(rt, table, 1, 2)?;
    show_two(rt, table, rows)?;
    let new = stage(table, rt.alloc(), 1, 7)?;
    exchange_and_back(rt, table, rows, new)?;
    hide_and_show(rt, table, rows, new)
}

#[test]
fn changes_hashed_rows(rt: HostRuntime) -> Result<(), Fail> {
    let mut table = table_of(rt.alloc())?;
    change_hashed(&rt, &mut table)?;
    Ok(())
}

/// Hides all rows of a table at once, and uses one of them again.
fn hide_all_and_show(
    rt: &(impl Abort + AllocGlobal),
    table: &mut IndexedRows,
    rows: Pair,
) -> Result<(), AllocError> {
    hide_all(rt, table);
    assert_that(rt, table.is_hidden(rows.one));
    assert_that(rt, table.is_hidden(rows.other));
    assert_keys(rt, table, &[], &[])?;
    assert_hashed(rt, table, 9, &[])?;
    show(rt, table, rows.one)?;
    assert_keys(rt, table, &[Some(1)], &[Some(1)])?;
    assert_hashed(rt, table, 9, &[Some(1)])?;
    assert_hashed(rt, table, 8, &[])
}

/// Hides the two rows of a table with a HASH index.
fn hide_hashed(rt: &(impl Abort + AllocGlobal), table: &mut IndexedRows) -> Result<(), AllocError>
    requires { table.old.places.types ≡ Int ∷ Int ∷ [] }
{
    add_index(table, rt.alloc(), IndexKind::Hash)?;
    let rows = stage_two(rt, table, 1, 2)?;
    show_two(rt, table, rows)?;
    hide_all_and_show(rt, table, rows)
}

#[test]
fn hides_all_rows(rt: HostRuntime) -> Result<(), Fail> {
    let mut table = table_of(rt.alloc())?;
    hide_hashed(&rt, &mut table)?;
    Ok(())
}
