//! The contents of a table: its rows by their keys, along a TREE index, and by their hashes.
use crate::assertions::assert_same;
use crate::samples::is_in_use;
use mm_indexed::{Index, IndexedRows};
use mm_order::OrderedRefs;
use mm_schema::MAX_ROWS;
use mm_value::{RowRef, ValueRef, hash64};
use std::alloc::{AllocError, Global};
use std::process::Abort;
use ttree::Iter;

/// Returns the number of a row in a column, or `None` if the row is not in use.
pub fn number_at(table: &IndexedRows, at: RowRef, column: usize) -> Option<i64> {
    if !is_in_use(table, at) {
        return None;
    }
    match table.row(at).get(column) {
        Some(ValueRef::Int(number)) => Some(number),
        _ => None,
    }
}

/// Returns the keys of rows, in this order.
fn keys_of(
    table: &IndexedRows,
    alloc: Global,
    walk: Iter<'_>,
) -> Result<Vec<Option<i64>>, AllocError> {
    let mut keys = Vec::new(alloc);
    for at in walk {
        keys.push(number_at(table, at, 0))?;
    }
    Ok(keys)
}

/// Returns the keys of the rows of references, in this order.
pub fn keys_of_refs(
    table: &IndexedRows,
    alloc: Global,
    refs: &[RowRef],
) -> Result<Vec<Option<i64>>, AllocError> {
    let mut keys = Vec::new(alloc);
    for at in refs {
        keys.push(number_at(table, *at, 0))?;
    }
    Ok(keys)
}

/// Returns the keys of all rows, in their order.
fn keys(table: &IndexedRows, alloc: Global) -> Result<Vec<Option<i64>>, AllocError> {
    if table.len() > MAX_ROWS {
        return Err(AllocError);
    }
    keys_of(table, alloc, table.by_key())
}

/// Returns the keys along the index at a place, which is a TREE index.
fn keys_along(
    table: &IndexedRows,
    alloc: Global,
    index: usize,
) -> Result<Vec<Option<i64>>, AllocError> {
    match table.indexes().get(index) {
        Some(Index::Tree { refs, .. }) if refs.len() <= MAX_ROWS => {
            keys_of(table, alloc, refs.iter())
        }
        _ => Err(AllocError),
    }
}

/// Returns the keys of the rows that have a digit, by the index at a place, which is a HASH index.
fn keys_hashed(
    table: &IndexedRows,
    alloc: Global,
    index: usize,
    digit: i64,
) -> Result<Vec<Option<i64>>, AllocError> {
    let Some(Index::Hash { pairs, .. }) = table.indexes().get(index) else {
        return Err(AllocError);
    };
    let mut keys = Vec::new(alloc);
    for at in pairs.matching(hash64(&ValueRef::Int(digit))) {
        keys.push(number_at(table, at, 0))?;
    }
    Ok(keys)
}

/// Asserts that a table has these keys in their order, and along the TREE index at place 0.
pub fn assert_keys(
    rt: &(impl Abort + AllocGlobal),
    table: &IndexedRows,
    by_key: &[Option<i64>],
    by_digit: &[Option<i64>],
) -> Result<(), AllocError> {
    assert_same(rt, keys(table, rt.alloc())?.as_slice(), by_key);
    assert_same(rt, keys_along(table, rt.alloc(), 0)?.as_slice(), by_digit);
    Ok(())
}

/// Asserts that the rows of a digit have these keys, by the HASH index at place 1. At most one row has the digit.
pub fn assert_hashed(
    rt: &(impl Abort + AllocGlobal),
    table: &IndexedRows,
    digit: i64,
    of_digit: &[Option<i64>],
) -> Result<(), AllocError> {
    assert_same(
        rt,
        keys_hashed(table, rt.alloc(), 1, digit)?.as_slice(),
        of_digit,
    );
    Ok(())
}
