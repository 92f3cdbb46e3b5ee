//! New tables and indexes.
ghost use Rattle.std.specs.Prelude.{◌≡◌, ◌<◌, [], length, IfOk, OnOk};
ghost use Rattle.store_tests.specs.SampleStore.{ArePlain};

use super::asked_again;
use super::shows::{Shows, table_shows};
use crate::assertions::{assert_same, assert_that};
use crate::stores::{TYPES, add_index, put};
use mm_schema::{IndexKind, Reference};
use mm_store::Store;
use std::alloc::{AllocError, Global};
use std::process::Abort;
use std::test::Fail;

/// Appends four tables of two columns each to none, and inserts rows into the first.
fn add_four(store: &mut Store, alloc: Global) -> Result<(), AllocError>
    requires none { store.old.tables ≡ [] }
    requires log { store.old.stored.log ≡ [] }
    ensures four { OnOk result (length store.new.tables ≡ 4) }
    ensures plain { OnOk result (ArePlain store.new) }
    ensures log { OnOk result (store.new.stored.log ≡ []) }
{
    store.add_table(alloc, TYPES, 0, &[])?;
    store.add_table(alloc, TYPES, 0, &[])?;
    store.add_table(alloc, TYPES, 0, &[])?;
    store.add_table(alloc, TYPES, 0, &[])?;
    put(store, alloc, 0, &KEYS)?;
    Ok(())
}

/// Returns four tables of two columns each, with no indexes but those on the keys. The first has rows.
fn four_tables(alloc: Global) -> Result<Store, AllocError>
    ensures four { IfOk result (λ store. length store.tables ≡ 4) }
    ensures plain { IfOk result ArePlain }
    ensures log { IfOk result (λ store. store.stored.log ≡ []) }
{
    let mut store = Store::new(alloc);
    add_four(&mut store, alloc)?;
    Ok(store)
}

/// The keys of the rows, each of which has its last digit as its value. A tree of this size has two nodes.
const KEYS: [i64; 18] = [
    18, 1, 17, 2, 16, 3, 15, 4, 14, 5, 13, 6, 12, 7, 11, 8, 10, 9,
];

/// The rows, with no index but that on the key.
const BARE: Shows = Shows {
    rows: &[
        (1, 1),
        (2, 2),
        (3, 3),
        (4, 4),
        (5, 5),
        (6, 6),
        (7, 7),
        (8, 8),
        (9, 9),
        (10, 0),
        (11, 1),
        (12, 2),
        (13, 3),
        (14, 4),
        (15, 5),
        (16, 6),
        (17, 7),
        (18, 8),
    ],
    along_tree: &[],
    by_hash: &[],
};

/// The second column of a fifth table refers to the first table.
const TO_FIRST: Reference = Reference {
    from: 4,
    column: 1,
    to: 0,
};

/// Appends the table again after an allocation failed, and asserts that nothing changed before.
fn adds_table_again(rt: &(impl Abort + Print), alloc: Global, store: &mut Store) -> Result<(), Fail>
    requires four { length store.old.tables ≡ 4 }
    requires log { store.old.stored.log ≡ [] }
{
    asked_again(rt)?;
    assert_same(rt, store.len(), 4);
    assert_that(rt, !store.view().refers_only_to(4, 1, 0));
    store.add_table(alloc, TYPES, 0, &[TO_FIRST])?;
    Ok(())
}

/// Appends a table to four, which refers to the first of them.
fn adds_table(rt: &(impl Abort + Print), alloc: Global, store: &mut Store) -> Result<(), Fail>
    requires four { length store.old.tables ≡ 4 }
    requires log { store.old.stored.log ≡ [] }
{
    if store.add_table(alloc, TYPES, 0, &[TO_FIRST]).is_err() {
        adds_table_again(rt, alloc, store)?;
    }
    assert_same(rt, store.len(), 5);
    let view = store.view();
    assert_that(rt, view.refers_only_to(4, 1, 0));
    assert_same(rt, view.len_of(4), 0);
    let Ok(is_kept) = table_shows(store, 0, alloc, BARE) else {
        return Ok(());
    };
    assert_that(rt, is_kept);
    Ok(())
}

#[test]
fn add_table_growths(rt: HostRuntime) -> Result<(), Fail> {
    let alloc = rt.alloc();
    let Ok(mut store) = four_tables(alloc) else {
        return Ok(());
    };
    adds_table(&rt, alloc, &mut store)
}

/// Returns whether the first table has an index of a kind on its second column.
fn has_index(store: &Store, kind: IndexKind) -> bool
    requires { 0 < length store.now.tables }
{
    let view = store.view();
    match kind {
        IndexKind::Tree => view.tree_on(0, 1).is_some(),
        IndexKind::Hash => view.hash_on(0, 1).is_some(),
    }
}

/// Appends the index again after an allocation failed, and asserts that nothing changed before.
fn adds_index_again(
    rt: &(impl Abort + Print),
    alloc: Global,
    store: &mut Store,
    kind: IndexKind,
) -> Result<(), Fail>
    requires four { length store.old.tables ≡ 4 }
    requires plain { ArePlain store.old }
{
    asked_again(rt)?;
    assert_that(rt, !has_index(store, kind));
    assert_that(rt, table_shows(store, 0, alloc, BARE)?);
    add_index(store, alloc, 0, kind)?;
    Ok(())
}

/// Appends an index of a kind to the first of four tables, which then must show these contents.
fn adds_index(
    rt: &(impl Abort + Print),
    alloc: Global,
    store: &mut Store,
    kind: IndexKind,
    after: Shows,
) -> Result<(), Fail>
    requires four { length store.old.tables ≡ 4 }
    requires plain { ArePlain store.old }
{
    if add_index(store, alloc, 0, kind).is_err() {
        adds_index_again(rt, alloc, store, kind)?;
    }
    assert_same(rt, store.len(), 4);
    let Ok(is_made) = table_shows(store, 0, alloc, after) else {
        return Ok(());
    };
    assert_that(rt, is_made);
    Ok(())
}

/// Appends an index of a kind to the first of four new tables, which then must show these contents.
fn indexes(
    rt: &(impl Abort + Print),
    alloc: Global,
    kind: IndexKind,
    after: Shows,
) -> Result<(), Fail> {
    let Ok(mut store) = four_tables(alloc) else {
        return Ok(());
    };
    adds_index(rt, alloc, &mut store, kind, after)
}

#[test]
fn add_tree_index_growths(rt: HostRuntime) -> Result<(), Fail> {
    let after = Shows {
        along_tree: &[
            10, 1, 11, 2, 12, 3, 13, 4, 14, 5, 15, 6, 16, 7, 17, 8, 18, 9,
        ],
        ..BARE
    };
    indexes(&rt, rt.alloc(), IndexKind::Tree, after)
}

#[test]
fn add_hash_index_growths(rt: HostRuntime) -> Result<(), Fail> {
    let after = Shows {
        by_hash: &[(0, 1), (1, 2), (5, 2), (8, 2), (9, 1), (10, 0)],
        ..BARE
    };
    indexes(&rt, rt.alloc(), IndexKind::Hash, after)
}
