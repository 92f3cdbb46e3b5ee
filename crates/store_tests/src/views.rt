//! The results of a view of a table: its key and its indexes, the prefixes of its columns, and walks and ranges along its trees.
ghost use Rattle.std.specs.Prelude.{◌<◌, length};

use crate::assertions::{assert_same, assert_that};
use crate::stores::{Case, at_key};
use mm_store::{IndexRef, Store};
use mm_value::{RowRef, Value, ValueRef, order_prefix};
use std::alloc::{AllocError, Global};
use std::process::Abort;
use std::test::Fail;

/// Returns a case with targets, and rows that refer to them: with the keys 12, 13, 22 and 31 and the values 2, 3, 2 and 1.
fn case(alloc: Global) -> Result<Case, AllocError> {
    Case::new(alloc, &[1, 2, 3], &[12, 13, 22, 31])
}

/// Asserts the key of the second table, and the indexes on its columns and on one that it does not have.
fn has_its_indexes(rt: &impl Abort, store: &Store)
    requires { 1 < length store.now.tables }
{
    let view = store.view();
    assert_same(rt, view.key_of(1), 0);
    assert_same(rt, view.tree_on(1, 0), Some(IndexRef::Key));
    assert_same(rt, view.tree_on(1, 1), Some(IndexRef::Tree(0)));
    assert_same(rt, view.tree_on(1, 2), None);
    assert_same(rt, view.hash_on(1, 0), None);
    assert_same(rt, view.hash_on(1, 1), Some(IndexRef::Hash(1)));
    assert_same(rt, view.hash_on(1, 2), None);
}

#[test]
fn tells_the_indexes_of_columns(rt: HostRuntime) -> Result<(), Fail> {
    let case = case(rt.alloc())?;
    has_its_indexes(&rt, &case.store);
    Ok(())
}

/// Returns the prefixes of the row with a key of the second table in its first three columns, `None` for each that the view does not
/// return, and the number of reads counted for them.
fn prefixes_at(store: &Store, key: i64) -> Option<([Option<u64>; 3], u64)>
    requires { 1 < length store.now.tables }
{
    let at = at_key(store, 1, key)?;
    let mut view = store.view();
    let prefixes = [
        view.prefix_of(1, 0, at),
        view.prefix_of(1, 1, at),
        view.prefix_of(1, 2, at),
    ];
    Some((prefixes, view.reads()))
}

/// Returns the prefix of an integer.
fn prefix(number: i64) -> Option<u64> {
    Some(order_prefix(&Value::Int(number)))
}

/// Asserts the prefixes of a row: the view returns those of both columns, since these have numbers, and counts two reads. There is no third
/// column.
fn has_prefixes(rt: &impl Abort, store: &Store)
    requires { 1 < length store.now.tables }
{
    let kept = [prefix(22), prefix(2), None];
    assert_same(rt, prefixes_at(store, 22), Some((kept, 2)));
    assert_same(rt, prefixes_at(store, 23), None);
}

#[test]
fn counts_the_prefixes_that_it_gives(rt: HostRuntime) -> Result<(), Fail> {
    let case = case(rt.alloc())?;
    has_prefixes(&rt, &case.store);
    Ok(())
}

/// Returns the references of the rows of the second table along the tree on a column; none if it has no tree.
fn along(store: &Store, alloc: Global, column: usize) -> Result<Vec<RowRef>, AllocError>
    requires { 1 < length store.now.tables }
{
    let view = store.view();
    match view.tree_on(1, column) {
        Some(index) => view.walk(1, index).collect(alloc),
        None => Ok(Vec::new(alloc)),
    }
}

/// Asserts the walks along the trees of the second table.
fn goes_along_trees(rt: &(impl Abort + AllocGlobal), case: &Case) -> Result<(), Fail> {
    let by_key = along(&case.store, rt.alloc(), 0)?;
    assert_that(rt, case.are_of(by_key.as_slice(), &[12, 13, 22, 31]));
    let by_value = along(&case.store, rt.alloc(), 1)?;
    assert_that(rt, case.are_of(by_value.as_slice(), &[31, 12, 22, 13]));
    Ok(())
}

#[test]
fn walks_along_trees(rt: HostRuntime) -> Result<(), Fail> {
    let case = case(rt.alloc())?;
    goes_along_trees(&rt, &case)
}

/// Returns the end of a range at a number, if there is one.
fn end_at<'v>(number: Option<i64>) -> Option<ValueRef<'v>> {
    match number {
        Some(number) => Some(ValueRef::Int(number)),
        None => None,
    }
}

/// Returns the references of the rows of the second table between two ends along the tree on a column; none if it has no tree.
fn between(
    store: &Store,
    alloc: Global,
    column: usize,
    low: Option<i64>,
    high: Option<i64>,
) -> Result<Vec<RowRef>, AllocError>
    requires { 1 < length store.now.tables }
{
    let view = store.view();
    let (low, high) = (end_at(low), end_at(high));
    let mut found = Vec::new(alloc);
    if let Some(index) = view.tree_on(1, column) {
        view.range(alloc, 1, index, low, high, &mut found)?;
    }
    Ok(found)
}

/// The column of a tree, two ends of a range along it, and the keys of the rows between them.
type Range<'a> = (usize, Option<i64>, Option<i64>, &'a [i64]);

/// The ends are included, and a missing one leaves its side open.
const RANGES: [Range; 5] = [
    (0, Some(13), Some(22), &[13, 22]),
    (0, Some(23), None, &[31]),
    (1, Some(2), Some(3), &[12, 22, 13]),
    (1, None, Some(2), &[31, 12, 22]),
    (1, Some(4), None, &[]),
];

/// Finds the rows of ranges of the second table.
fn finds_ranges(rt: &(impl Abort + AllocGlobal), case: &Case) -> Result<(), Fail> {
    for (column, low, high, keys) in &RANGES {
        let found = between(&case.store, rt.alloc(), *column, *low, *high)?;
        assert_that(rt, case.are_of(found.as_slice(), keys));
    }
    Ok(())
}

#[test]
fn finds_ranges_along_trees(rt: HostRuntime) -> Result<(), Fail> {
    let case = case(rt.alloc())?;
    finds_ranges(&rt, &case)
}

/// Returns the number of rows counted before and after reading the row with a key of the second table.
fn counted_at(store: &Store, key: i64) -> Option<[u64; 2]>
    requires { 1 < length store.now.tables }
{
    let at = at_key(store, 1, key)?;
    let mut view = store.view();
    let before = view.reads();
    view.row(1, at);
    Some([before, view.reads()])
}

/// Reads a row, and asserts that it is counted.
fn counts_a_row(rt: &impl Abort, store: &Store)
    requires { 1 < length store.now.tables }
{
    assert_same(rt, counted_at(store, 12), Some([0, 1]));
}

#[test]
fn counts_rows_that_are_looked_at(rt: HostRuntime) -> Result<(), Fail> {
    let case = case(rt.alloc())?;
    counts_a_row(&rt, &case.store);
    Ok(())
}
