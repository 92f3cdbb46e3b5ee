//! Calls whose allocations fail, as `tests/refused_growths.py` lets them: in each run of a test one allocation, or all from one to the line
//! that reports a failed call. Then the table is unchanged, and the call is repeated.
//!
//! Any other allocation that fails before that line ends the test, as passed.
ghost use Rattle.std.specs.Prelude.{◌≡◌, ◌∷◌, [], IfOk};
ghost use Rattle.mm_value.specs.declared.col_type.ColType.TheVariants.{Int};

use crate::assertions::assert_same;
use crate::samples::{add_index, show, stage, table_of};
use crate::shows::{assert_hashed, assert_keys};
use mm_indexed::IndexedRows;
use mm_order::OrderedRefs;
use mm_schema::{IndexKind, MAX_ROWS};
use std::alloc::AllocError;
use std::io;
use std::process::Abort;
use std::test::Fail;

/// Writes to standard output that a tested call failed. All later allocations of the run succeed.
fn asked_again(rt: &impl Print) -> io::Result<()> {
    rt.println("refused")
}

/// Appends a HASH index, and inserts a row of key 1.
fn fill(rt: &(impl Abort + AllocGlobal), table: &mut IndexedRows) -> Result<(), AllocError>
    requires { table.old.places.types ≡ Int ∷ Int ∷ [] }
    ensures { table.new.places.types ≡ Int ∷ Int ∷ [] }
{
    add_index(table, rt.alloc(), IndexKind::Hash)?;
    let one = stage(table, rt.alloc(), 1, 5)?;
    show(rt, table, one)
}

/// Returns a table with the row of key 1 in use, and a HASH index at place 1.
fn one_row(rt: &(impl Abort + AllocGlobal)) -> Result<IndexedRows, AllocError>
    ensures { IfOk result (λ table. table.places.types ≡ Int ∷ Int ∷ []) }
{
    let mut table = table_of(rt.alloc())?;
    fill(rt, &mut table)?;
    Ok(table)
}

/// Asserts that the table has the row of key 1, by each index.
fn assert_one(rt: &(impl Abort + AllocGlobal), table: &IndexedRows) -> Result<(), AllocError> {
    assert_keys(rt, table, &[Some(1)], &[Some(1)])?;
    assert_hashed(rt, table, 5, &[Some(1)])
}

/// Reserves capacity for 200 more rows, again if an allocation fails.
fn reserve_again(
    rt: &(impl Abort + AllocGlobal + Print),
    table: &mut IndexedRows,
) -> Result<(), Fail> {
    if table.reserve(rt.alloc(), 200, 200, 200).is_err() {
        asked_again(rt)?;
        assert_one(rt, table)?;
        table.reserve(rt.alloc(), 200, 200, 200)?;
    }
    Ok(())
}

#[test]
fn reserve_growths(rt: HostRuntime) -> Result<(), Fail> {
    let Ok(mut table) = one_row(&rt) else {
        return Ok(());
    };
    reserve_again(&rt, &mut table)?;
    // An allocation of the assertion may fail in a run whose call succeeded.
    let _is_shown = assert_one(&rt, &table).is_ok();
    Ok(())
}

/// Appends a further TREE index, again if an allocation fails: then the table has the same indexes as before.
fn add_index_again(
    rt: &(impl Abort + AllocGlobal + Print),
    table: &mut IndexedRows,
) -> Result<(), Fail>
    requires { table.old.places.types ≡ Int ∷ Int ∷ [] }
{
    if add_index(table, rt.alloc(), IndexKind::Tree).is_err() {
        asked_again(rt)?;
        assert_same(rt, table.indexes().len(), 2);
        assert_one(rt, table)?;
        add_index(table, rt.alloc(), IndexKind::Tree)?;
    }
    assert_same(rt, table.indexes().len(), 3);
    Ok(())
}

#[test]
fn add_index_growths(rt: HostRuntime) -> Result<(), Fail> {
    let Ok(mut table) = one_row(&rt) else {
        return Ok(());
    };
    add_index_again(&rt, &mut table)?;
    let _is_shown = assert_one(&rt, &table).is_ok();
    Ok(())
}

/// Appends the references of the rows between two keys, again if an allocation fails: then nothing was appended.
fn key_range_again(
    rt: &(impl Abort + AllocGlobal + Print),
    table: &IndexedRows,
) -> Result<(), Fail> {
    let mut found = Vec::new(rt.alloc());
    if table.key_range(rt.alloc(), None, None, &mut found).is_err() {
        asked_again(rt)?;
        assert_same(rt, found.len(), 0);
        table.key_range(rt.alloc(), None, None, &mut found)?;
    }
    assert_same(rt, found.len(), 1);
    Ok(())
}

#[test]
fn key_range_growths(rt: HostRuntime) -> Result<(), Fail> {
    let Ok(table) = one_row(&rt) else {
        return Ok(());
    };
    key_range_again(&rt, &table)
}

/// Orders the rows by their digits, again if an allocation fails.
fn ordered_by_again(
    rt: &(impl Abort + AllocGlobal + Print),
    table: &IndexedRows,
) -> Result<(), Fail>
    requires { table.now.places.types ≡ Int ∷ Int ∷ [] }
{
    if table.len() > MAX_ROWS {
        return Ok(());
    }
    let ordered = match table.ordered_by(rt.alloc(), 1) {
        Ok(ordered) => ordered,
        Err(_) => {
            asked_again(rt)?;
            table.ordered_by(rt.alloc(), 1)?
        }
    };
    assert_same(rt, ordered.len(), 1);
    Ok(())
}

#[test]
fn ordered_by_growths(rt: HostRuntime) -> Result<(), Fail> {
    let Ok(table) = one_row(&rt) else {
        return Ok(());
    };
    ordered_by_again(&rt, &table)
}
