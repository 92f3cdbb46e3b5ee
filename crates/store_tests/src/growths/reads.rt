//! Rows in order, and along indexes.
ghost use Rattle.std.specs.Prelude.{◌<◌, length};
ghost use Rattle.store_tests.specs.SampleStore.{ArePlain};

use super::asked_again;
use crate::assertions::{assert_same, assert_that};
use crate::stores::{Case, number_of};
use mm_schema::IndexKind;
use mm_store::{IndexRef, Store, TableRows};
use mm_value::{RowRef, ValueRef};
use std::alloc::{AllocError, Global};
use std::process::Abort;
use std::test::Fail;

/// A call that appends references of rows of the second table.
#[derive(Clone, Copy)]
enum Search {
    /// Rows with keys between two.
    Keys(i64, i64),
    /// Rows with values between two, along the tree on the values that was created first.
    Range(i64, i64),
    /// Rows with a value, by the HASH index.
    Hash(i64),
    /// Rows with a value, by the index on the values that was created first.
    First(i64),
}

impl Case {
    /// Returns three targets, and rows that refer to them.
    fn with_rows(alloc: Global) -> Result<Case, AllocError> {
        Case::new(alloc, &[1, 2, 3], &[13, 21, 32, 41, 51])
    }
}

/// Appends the references that a search finds.
fn append_found(
    store: &Store,
    alloc: Global,
    sought: Search,
    found: &mut Vec<RowRef>,
) -> Result<(), AllocError>
    requires { 1 < length store.now.tables }
{
    match sought {
        Search::Keys(low, high) => keys_between(store, alloc, low, high, found),
        Search::Range(low, high) => along_tree(store, alloc, low, high, found),
        Search::Hash(value) => by_hash(store, alloc, value, found),
        Search::First(value) => by_first(store, alloc, value, found),
    }
}

fn keys_between(
    store: &Store,
    alloc: Global,
    low: i64,
    high: i64,
    found: &mut Vec<RowRef>,
) -> Result<(), AllocError>
    requires { 1 < length store.now.tables }
{
    let view = store.view();
    let (low, high) = (ValueRef::Int(low), ValueRef::Int(high));
    view.range(alloc, 1, IndexRef::Key, Some(low), Some(high), found)
}

fn along_tree(
    store: &Store,
    alloc: Global,
    low: i64,
    high: i64,
    found: &mut Vec<RowRef>,
) -> Result<(), AllocError>
    requires { 1 < length store.now.tables }
{
    let view = store.view();
    let Some(index) = view.tree_on(1, 1) else {
        return Ok(());
    };
    let (low, high) = (ValueRef::Int(low), ValueRef::Int(high));
    view.range(alloc, 1, index, Some(low), Some(high), found)
}

fn by_hash(
    store: &Store,
    alloc: Global,
    value: i64,
    found: &mut Vec<RowRef>,
) -> Result<(), AllocError>
    requires { 1 < length store.now.tables }
{
    let view = store.view();
    let Some(index) = view.hash_on(1, 1) else {
        return Ok(());
    };
    view.matches(alloc, 1, index, ValueRef::Int(value), found)
}

fn by_first(
    store: &Store,
    alloc: Global,
    value: i64,
    found: &mut Vec<RowRef>,
) -> Result<(), AllocError>
    requires { 1 < length store.now.tables }
{
    let view = store.view();
    let Some(index) = view.index_on(1, 1) else {
        return Ok(());
    };
    view.matches(alloc, 1, index, ValueRef::Int(value), found)
}

/// Appends the references that a search finds to a list of one, and asserts that the rows have these keys.
fn appends_to(
    rt: &(impl Abort + Print),
    alloc: Global,
    case: &Case,
    sought: Search,
    at: RowRef,
    found: &mut Vec<RowRef>,
    keys: &[i64],
) -> Result<(), Fail> {
    if append_found(&case.store, alloc, sought, found).is_err() {
        asked_again(rt)?;
        assert_same(rt, found.as_slice(), [at].as_slice());
        append_found(&case.store, alloc, sought, found)?;
    }
    assert_that(rt, case.are_of(found.as_slice(), keys));
    Ok(())
}

/// Appends the references that a search finds to that of the row with key 41, and asserts that the rows have these keys.
fn appends_behind(
    rt: &(impl Abort + Print),
    alloc: Global,
    case: &Case,
    sought: Search,
    keys: &[i64],
) -> Result<(), Fail> {
    let at = case.second(41).ok_or("no row")?;
    let Ok(mut found) = vec![in alloc; at] else {
        return Ok(());
    };
    appends_to(rt, alloc, case, sought, at, &mut found, keys)
}

/// Appends the references that a search finds in a new case, and asserts that the rows have these keys.
fn appends(
    rt: &(impl Abort + Print),
    alloc: Global,
    sought: Search,
    keys: &[i64],
) -> Result<(), Fail> {
    let Ok(case) = Case::with_rows(alloc) else {
        return Ok(());
    };
    appends_behind(rt, alloc, &case, sought, keys)
}

#[test]
fn key_range_growths(rt: HostRuntime) -> Result<(), Fail> {
    appends(&rt, rt.alloc(), Search::Keys(20, 41), &[41, 21, 32, 41])
}

#[test]
fn range_growths(rt: HostRuntime) -> Result<(), Fail> {
    appends(&rt, rt.alloc(), Search::Range(1, 2), &[41, 21, 41, 51, 32])
}

#[test]
fn hash_matches_growths(rt: HostRuntime) -> Result<(), Fail> {
    appends(&rt, rt.alloc(), Search::Hash(3), &[41, 13])
}

#[test]
fn matches_growths(rt: HostRuntime) -> Result<(), Fail> {
    appends(&rt, rt.alloc(), Search::First(1), &[41, 21, 41, 51])
}

/// Returns the rows of the second table by their values, which have a HASH index, so that references are sorted for it. Returns `None` if
/// they have no such index.
fn by_value(store: &Store, alloc: Global) -> Result<Option<TableRows<'_>>, AllocError>
    requires there { 1 < length store.now.tables }
    requires plain { ArePlain store.now }
{
    let view = store.view();
    let Some(IndexRef::Hash(place)) = view.hash_on(1, 1) else {
        return Ok(None);
    };
    let rows = store.rows_by_index(alloc, 1, place, 1, IndexKind::Hash)?;
    Ok(Some(rows))
}

/// Returns whether rows are those with these keys, in this order.
fn have_keys(rows: &TableRows, keys: &[i64]) -> bool {
    let mut reader = rows.reader();
    for key in keys {
        let Some(row) = reader.next() else {
            return false;
        };
        if number_of(row, 0) != Some(*key) {
            return false;
        }
    }
    reader.next().is_none()
}

/// Sorts the rows of the second table by their values.
fn orders_values(rt: &(impl Abort + Print), alloc: Global, case: &Case) -> Result<(), Fail> {
    let rows = match by_value(&case.store, alloc) {
        Ok(rows) => rows,
        Err(_) => {
            asked_again(rt)?;
            by_value(&case.store, alloc)?
        }
    };
    let rows = rows.ok_or("no index")?;
    assert_that(rt, have_keys(&rows, &[21, 41, 51, 32, 13]));
    Ok(())
}

#[test]
fn ordered_by_growths(rt: HostRuntime) -> Result<(), Fail> {
    let alloc = rt.alloc();
    let Ok(case) = Case::with_rows(alloc) else {
        return Ok(());
    };
    orders_values(&rt, alloc, &case)
}
