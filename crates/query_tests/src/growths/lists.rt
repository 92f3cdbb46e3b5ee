//! Temporary lists and the rows of results.
ghost use Rattle.std.specs.Prelude.{◌≡◌, length, All, IfOk};
ghost use Rattle.mm_templist.specs.Combos.{AreLive};

use super::{are_pairs, asked_again, is_number};
use crate::assertions::{assert_same, assert_that};
use crate::atoms::{OUTER_KEY, OUTER_VALUE};
use crate::samples::{Values, sample};
use mm_query::FieldPlace;
use mm_schema::IndexKind;
use mm_select::{Access, select};
use mm_store::Store;
use mm_templist::{Descriptor, ShownRows, TempList};
use mm_value::{Row, RowRef};
use std::alloc::{AllocError, Global};
use std::process::Abort;
use std::test::Fail;

/// Returns the reference to a slot.
fn at(slot: u32) -> RowRef {
    RowRef { slot }
}

/// Appends the combination of a slot and slot 9 to a list, again if an allocation fails; then the list still has its length.
fn adds(rt: &(impl Abort + Print), list: &mut TempList, slot: u32) -> Result<(), Fail>
    requires { length list.old.tables ≡ 2 }
    ensures { length list.new.tables ≡ 2 }
{
    let len = list.len();
    if list.push(&[at(slot)], at(9)).is_ok() {
        return Ok(());
    }
    asked_again(rt)?;
    assert_same(rt, list.len(), len);
    list.push(&[at(slot)], at(9))?;
    Ok(())
}

/// Asserts the three combinations of a list.
fn are_three(rt: &impl Abort, list: &TempList) {
    assert_same(rt, list.len(), 3);
    assert_same(rt, list.combo(0), [at(1), at(9)].as_slice());
    assert_same(rt, list.combo(1), [at(2), at(9)].as_slice());
    assert_same(rt, list.combo(2), [at(3), at(9)].as_slice());
}

/// Appends three combinations to a list, and asserts that they are all.
fn adds_three(rt: &(impl Abort + Print), list: &mut TempList) -> Result<(), Fail>
    requires { length list.old.tables ≡ 2 }
{
    adds(rt, list, 1)?;
    adds(rt, list, 2)?;
    adds(rt, list, 3)?;
    are_three(rt, list);
    Ok(())
}

#[test]
fn push_growths(rt: HostRuntime) -> Result<(), Fail> {
    let descriptor = Descriptor {
        tables: &[0, 1],
        fields: &[],
    };
    let mut list = TempList::new(rt.alloc(), descriptor);
    adds_three(&rt, &mut list)
}

/// The key and the value.
const FIELDS: [FieldPlace; 2] = [OUTER_KEY, OUTER_VALUE];

/// Returns the rows of the first table.
fn all_rows(alloc: Global, store: &Store) -> Result<TempList<'_>, AllocError>
    requires { length store.now.tables ≡ 2 }
    ensures { IfOk result (λ list. All (AreLive store.now list.tables) list.combos) }
{
    let descriptor = Descriptor {
        tables: &[0],
        fields: &FIELDS,
    };
    let mut view = store.view();
    select(alloc, &mut view, descriptor, &[], Access::Scan)
}

/// Returns copies of the rows of a list in the order of the second field, made again if an allocation fails.
fn project_again(
    rt: &(impl Abort + Print),
    alloc: Global,
    list: &TempList,
    store: &Store,
) -> Result<Vec<Row>, Fail>
    requires { All (AreLive store.now list.now.tables) list.now.combos }
{
    let mut view = store.view();
    match list.project_sorted(alloc, &mut view, true, &[1]) {
        Ok(rows) => Ok(rows),
        Err(AllocError) => {
            asked_again(rt)?;
            Ok(list.project_sorted(alloc, &mut view, true, &[1])?)
        }
    }
}

/// Copies the rows of the first table in the order of their values.
fn projects(rt: &(impl Abort + Print), alloc: Global, store: &Store) -> Result<(), Fail>
    requires { length store.now.tables ≡ 2 }
{
    let Ok(list) = all_rows(alloc, store) else {
        return Ok(());
    };
    let rows = project_again(rt, alloc, &list, store)?;
    assert_that(rt, are_pairs(rows.as_slice(), &[(3, 1), (2, 2), (1, 3)]));
    Ok(())
}

#[test]
fn project_sorted_growths(rt: HostRuntime) -> Result<(), Fail> {
    let alloc = rt.alloc();
    match sample(alloc, IndexKind::Hash, [3, 0], Values::Falling) {
        Ok(store) => projects(&rt, alloc, &store),
        Err(_) => Ok(()),
    }
}

/// Returns whether the shown rows are these pairs of integers, in this order.
fn are_shown(rows: &ShownRows, pairs: &[(i64, i64)]) -> bool {
    if rows.len() != pairs.len() {
        return false;
    }
    for (i, (first, second)) in pairs.iter().enumerate() {
        let row = rows.row(i);
        if row.len() != 2 || !is_number(&row[0], *first) || !is_number(&row[1], *second) {
            return false;
        }
    }
    true
}

/// Returns the rows of a list in the order of the second field, again if an allocation fails.
fn show_again<'s>(
    rt: &(impl Abort + Print),
    alloc: Global,
    list: &TempList,
    store: &'s Store,
) -> Result<ShownRows<'s>, Fail>
    requires live { All (AreLive store.now list.now.tables) list.now.combos }
{
    let mut view = store.view();
    match list.shown(alloc, &mut view, false, &[1]) {
        Ok(rows) => Ok(rows),
        Err(_) => {
            asked_again(rt)?;
            let rows = list.shown(alloc, &mut view, false, &[1])?;
            Ok(rows)
        }
    }
}

/// Shows the rows of the first table in the order of their values.
fn shows(rt: &(impl Abort + Print), alloc: Global, store: &Store) -> Result<(), Fail>
    requires { length store.now.tables ≡ 2 }
{
    let Ok(list) = all_rows(alloc, store) else {
        return Ok(());
    };
    let rows = show_again(rt, alloc, &list, store)?;
    assert_that(rt, are_shown(&rows, &[(3, 1), (2, 2), (1, 3)]));
    Ok(())
}

#[test]
fn shown_growths(rt: HostRuntime) -> Result<(), Fail> {
    let alloc = rt.alloc();
    match sample(alloc, IndexKind::Hash, [3, 0], Values::Falling) {
        Ok(store) => shows(&rt, alloc, &store),
        Err(_) => Ok(()),
    }
}
