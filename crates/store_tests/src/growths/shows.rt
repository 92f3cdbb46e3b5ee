//! The contents of a table as its readers see them.
ghost use Rattle.std.specs.Prelude.{◌<◌, length};

use crate::stores::{at_key, value_at};
use mm_store::{IndexRef, Store};
use mm_value::ValueRef;
use std::alloc::{AllocError, Global};
use ttree::Iter;

/// The expected contents of a table of integers.
#[derive(Clone, Copy)]
pub struct Shows<'a> {
    /// The keys of all rows in order, each with its value.
    pub rows: &'a [(i64, i64)],
    /// The keys in the order of the TREE index on the values; empty if there is no such index.
    pub along_tree: &'a [i64],
    /// Values, each with the number of rows that the HASH index finds; empty if there is no such index.
    pub by_hash: &'a [(i64, usize)],
}

/// Returns whether a table shows these contents.
pub fn table_shows(
    store: &Store,
    table: usize,
    alloc: Global,
    all: Shows,
) -> Result<bool, AllocError>
    requires { table < length store.now.tables }
{
    if !has_rows(store, table, alloc, all.rows)? || !has_walk(store, table, all.along_tree) {
        return Ok(false);
    }
    has_matches(store, table, alloc, all.by_hash)
}

/// Returns whether the rows of a table are these, in the order of the keys, and each is found by its key.
fn has_rows(
    store: &Store,
    table: usize,
    alloc: Global,
    rows: &[(i64, i64)],
) -> Result<bool, AllocError>
    requires { table < length store.now.tables }
{
    let view = store.view();
    let mut walk = view.walk(table, IndexRef::Key);
    let mut found = Vec::new(alloc);
    for (key, value) in rows {
        let Some(at) = walk.next() else {
            return Ok(false);
        };
        found.clear();
        view.matches(alloc, table, IndexRef::Key, ValueRef::Int(*key), &mut found)?;
        if found.as_slice() != [at].as_slice() || value_at(store, table, *key) != Some(*value) {
            return Ok(false);
        }
    }
    Ok(walk.next().is_none())
}

/// Returns whether rows of a table are those with these keys, in this order.
fn goes_along(store: &Store, table: usize, walk: Iter, keys: &[i64]) -> bool
    requires { table < length store.now.tables }
{
    let mut walk = walk;
    for key in keys {
        let at = at_key(store, table, *key);
        if at.is_none() || walk.next() != at {
            return false;
        }
    }
    walk.next().is_none()
}

/// Returns whether the rows along the TREE index are those with these keys.
fn has_walk(store: &Store, table: usize, keys: &[i64]) -> bool
    requires { table < length store.now.tables }
{
    let view = store.view();
    let Some(index) = view.tree_on(table, 1) else {
        return keys.is_empty();
    };
    goes_along(store, table, view.walk(table, index), keys)
}

/// Returns whether the HASH index finds these numbers of rows for these values.
fn has_matches(
    store: &Store,
    table: usize,
    alloc: Global,
    counts: &[(i64, usize)],
) -> Result<bool, AllocError>
    requires { table < length store.now.tables }
{
    let view = store.view();
    let Some(index) = view.hash_on(table, 1) else {
        return Ok(counts.is_empty());
    };
    for (value, count) in counts {
        let mut found = Vec::new(alloc);
        view.matches(alloc, table, index, ValueRef::Int(*value), &mut found)?;
        if found.len() != *count {
            return Ok(false);
        }
    }
    Ok(true)
}
