//! Reads along each index, and their results in a state with two rows of one key.
ghost use Rattle.std.specs.Prelude.{◌≡◌, ◌∷◌, [], IfOk};
ghost use Rattle.mm_value.specs.declared.col_type.ColType.TheVariants.{Int};

use crate::assertions::{assert_same, assert_that};
use crate::samples::{add_index, hide, show, stage, table_of};
use crate::shows::{keys_of_refs, number_at};
use mm_indexed::IndexedRows;
use mm_order::OrderedRefs;
use mm_schema::{IndexKind, MAX_ROWS};
use mm_value::{RowRef, ValueRef};
use std::alloc::{AllocError, Global};
use std::process::Abort;
use std::test::Fail;

/// Stages and uses the row of a key and a digit.
fn add(
    rt: &(impl Abort + AllocGlobal),
    table: &mut IndexedRows,
    key: i64,
    digit: i64,
) -> Result<RowRef, AllocError>
    requires { table.old.places.types ≡ Int ∷ Int ∷ [] }
    ensures { table.new.places.types ≡ Int ∷ Int ∷ [] }
{
    let at = stage(table, rt.alloc(), key, digit)?;
    show(rt, table, at)?;
    Ok(at)
}

/// Inserts rows with the keys 3, 1 and 2. The digit of 1 and 3 is 7, and that of 2 is 5.
fn add_three(rt: &(impl Abort + AllocGlobal), table: &mut IndexedRows) -> Result<(), AllocError>
    requires { table.old.places.types ≡ Int ∷ Int ∷ [] }
    ensures { table.new.places.types ≡ Int ∷ Int ∷ [] }
{
    add(rt, table, 3, 7)?;
    add(rt, table, 1, 7)?;
    add(rt, table, 2, 5)?;
    Ok(())
}

/// Returns a table of these rows, with a TREE index and a HASH index on the digit.
fn three_rows(rt: &(impl Abort + AllocGlobal)) -> Result<IndexedRows, AllocError>
    ensures { IfOk result (λ table. table.places.types ≡ Int ∷ Int ∷ []) }
{
    let mut table = table_of(rt.alloc())?;
    add_index(&mut table, rt.alloc(), IndexKind::Hash)?;
    add_three(rt, &mut table)?;
    Ok(table)
}

/// Returns the value of an end of a range.
fn value_of(end: Option<i64>) -> Option<ValueRef<'static>> {
    match end {
        Some(number) => Some(ValueRef::Int(number)),
        None => None,
    }
}

/// Returns the keys of the rows between two keys.
fn between_keys(
    table: &IndexedRows,
    alloc: Global,
    low: Option<i64>,
    high: Option<i64>,
) -> Result<Vec<Option<i64>>, AllocError> {
    let mut found = Vec::new(alloc);
    table.key_range(alloc, value_of(low), value_of(high), &mut found)?;
    keys_of_refs(table, alloc, found.as_slice())
}

/// Returns the keys of the rows between two digits, by the TREE index.
fn between_digits(
    table: &IndexedRows,
    alloc: Global,
    low: Option<i64>,
    high: Option<i64>,
) -> Result<Vec<Option<i64>>, AllocError> {
    let Some(index) = table.index_of(1, IndexKind::Tree) else {
        return Err(AllocError);
    };
    let mut found = Vec::new(alloc);
    table.tree_range(alloc, index, value_of(low), value_of(high), &mut found)?;
    keys_of_refs(table, alloc, found.as_slice())
}

/// Returns the number of rows with a digit, by both reads of the HASH index.
fn count_of(table: &IndexedRows, alloc: Global, digit: i64) -> Result<(usize, usize), AllocError> {
    let Some(index) = table.index_of(1, IndexKind::Hash) else {
        return Err(AllocError);
    };
    let mut found = Vec::new(alloc);
    table.hash_matches(alloc, index, ValueRef::Int(digit), &mut found)?;
    let inline = table.find_by_hash(alloc, index, ValueRef::Int(digit))?;
    Ok((found.len(), inline.len()))
}

/// Returns the digit of the row that `find` returns for a key.
fn digit_of(table: &IndexedRows, key: i64) -> Option<i64> {
    match table.find(ValueRef::Int(key)) {
        Some(at) => number_at(table, at, 1),
        None => None,
    }
}

#[test]
fn finds_rows_by_key(rt: HostRuntime) -> Result<(), Fail> {
    let table = three_rows(&rt)?;
    assert_same(&rt, digit_of(&table, 1), Some(7));
    assert_same(&rt, digit_of(&table, 2), Some(5));
    assert_same(&rt, digit_of(&table, 4), None);
    assert_same(&rt, (table.key(), table.extent(), table.len()), (0, 3, 3));
    Ok(())
}

#[test]
fn reads_ranges(rt: HostRuntime) -> Result<(), Fail> {
    let table = three_rows(&rt)?;
    let alloc = rt.alloc();
    let upper = between_keys(&table, alloc, Some(2), None)?;
    assert_same(&rt, upper.as_slice(), &[Some(2), Some(3)]);
    let one = between_keys(&table, alloc, Some(2), Some(2))?;
    assert_same(&rt, one.as_slice(), &[Some(2)]);
    let lower = between_digits(&table, alloc, None, Some(6))?;
    assert_same(&rt, lower.as_slice(), &[Some(2)]);
    let all = between_digits(&table, alloc, Some(5), Some(7))?;
    assert_same(&rt, all.as_slice(), &[Some(2), Some(1), Some(3)]);
    Ok(())
}

#[test]
fn reads_by_hash(rt: HostRuntime) -> Result<(), Fail> {
    let table = three_rows(&rt)?;
    assert_same(&rt, count_of(&table, rt.alloc(), 7)?, (2, 2));
    assert_same(&rt, count_of(&table, rt.alloc(), 5)?, (1, 1));
    assert_same(&rt, count_of(&table, rt.alloc(), 6)?, (0, 0));
    Ok(())
}

/// Asserts that `find` returns one of two rows of the key 1, and the other one after the first is hidden.
fn find_twins(rt: &(impl Abort + AllocGlobal), table: &mut IndexedRows) -> Result<(), AllocError>
    requires { table.old.places.types ≡ Int ∷ Int ∷ [] }
{
    let twin = add(rt, table, 1, 4)?;
    assert_that(rt, digit_of(table, 1).is_some());
    let all = between_keys(table, rt.alloc(), None, Some(1))?;
    assert_same(rt, all.as_slice(), &[Some(1), Some(1)]);
    hide(rt, table, twin);
    assert_same(rt, digit_of(table, 1), Some(7));
    Ok(())
}

#[test]
fn finds_one_of_two_rows_of_a_key(rt: HostRuntime) -> Result<(), Fail> {
    let mut table = three_rows(&rt)?;
    find_twins(&rt, &mut table)?;
    Ok(())
}

/// Asserts the number of entries of a new tree by the digit, and the keys of all rows along the TREE index.
fn assert_orders(
    rt: &(impl Abort + AllocGlobal),
    table: &IndexedRows,
    want: &[Option<i64>],
) -> Result<(), AllocError>
    requires { table.now.places.types ≡ Int ∷ Int ∷ [] }
{
    let Some(index) = table.index_of(1, IndexKind::Tree) else {
        return Err(AllocError);
    };
    if table.len() > MAX_ROWS {
        return Err(AllocError);
    }
    let ordered = table.ordered_by(rt.alloc(), 1)?;
    assert_same(rt, ordered.len(), want.len());
    let mut walked = Vec::new(rt.alloc());
    for at in table.tree_walk(index) {
        walked.push(at)?;
    }
    let keys = keys_of_refs(table, rt.alloc(), walked.as_slice())?;
    assert_same(rt, keys.as_slice(), want);
    Ok(())
}

/// Drops the TREE index, and asserts that the HASH index is found at its place.
fn drop_tree(rt: &impl Abort, table: &mut IndexedRows) {
    if let Some(index) = table.index_of(1, IndexKind::Tree) {
        table.drop_index(index);
    }
    table.trim_spares(0);
    assert_same(rt, table.index_of(1, IndexKind::Tree), None);
    assert_same(rt, table.index_of(1, IndexKind::Hash), Some(0));
}

#[test]
fn orders_rows_by_an_index(rt: HostRuntime) -> Result<(), Fail> {
    let mut table = three_rows(&rt)?;
    assert_orders(&rt, &table, &[Some(2), Some(1), Some(3)])?;
    drop_tree(&rt, &mut table);
    Ok(())
}
