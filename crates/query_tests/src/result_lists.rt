//! Temporary lists and the rows of results.
ghost use Rattle.std.specs.Prelude.{◌≡◌, ◌+◌, ◌++◌, ◌∷◌, [], length, All, IfOk, OnErr, OnOk};
ghost use Rattle.mm_templist.specs.Combos.{AreLive};
ghost use Rattle.mm_templist.specs.Results.{result_rows};
ghost use Rattle.query_tests.specs.Sample.{IsSample};

use crate::assertions::{assert_same, assert_that};
use crate::atoms::OUTER_VALUE;
use crate::samples::{Values, sample};
use mm_query::FieldPlace;
use mm_schema::IndexKind;
use mm_select::{Access, select};
use mm_store::{Store, View};
use mm_templist::{Descriptor, ShownRows, TempList};
use mm_value::{Refusal, RowRef, Value, compare};
use std::alloc::{AllocError, Global};
use std::process::Abort;
use std::test::Fail;

/// Appends a combination. Tries again once if an allocation fails.
fn push(list: &mut TempList, front: &[RowRef], at: RowRef) -> Result<(), AllocError>
    requires { length front.now + 1 ≡ length list.old.tables }
    ensures ok { OnOk result (list.new ≡ record list.old { combos = list.old.combos ++ (front.now ++ at ∷ []) ∷ [] }) }
    ensures err { OnErr result (list.new ≡ list.old) }
{
    match list.push(front, at) {
        Ok(()) => Ok(()),
        Err(_) => list.push(front, at),
    }
}

/// Returns the rows of a result in the order of the first column. Tries again once if an allocation fails.
fn show<'s>(
    list: &TempList,
    alloc: Global,
    view: &mut View<'s>,
    distinct: bool,
) -> Result<ShownRows<'s>, AllocError>
    requires live { All (AreLive view.old.store list.now.tables) list.now.combos }
    ensures ok { IfOk result (λ rows. rows ≡ result_rows view.old.store list.now distinct (0 ∷ [])) }
    ensures same { view.new.store ≡ view.old.store }
{
    match list.shown(alloc, view, distinct, &[0]) {
        Ok(shown) => Ok(shown),
        Err(_) => list.shown(alloc, view, distinct, &[0]),
    }
}

/// Returns the reference to a slot.
fn at(slot: u32) -> RowRef
    ensures { result ≡ record { slot = slot } }
{
    RowRef { slot }
}

/// Asserts both combinations of a list, its tables and its fields.
fn are_both(rt: &impl Abort, list: &TempList) {
    assert_same(rt, list.len(), 2);
    assert_same(rt, list.combo(0), [at(1), at(2)].as_slice());
    assert_same(rt, list.combo(1), [at(3), at(4)].as_slice());
    assert_same(rt, list.descriptor().tables, [0, 1].as_slice());
    assert_same(rt, list.descriptor().fields.len(), 1);
}

/// Appends two combinations to an empty list, and asserts both.
fn keeps_both(rt: &impl Abort, list: &mut TempList) -> Result<(), Fail>
    requires { length list.old.tables ≡ 2 }
{
    assert_same(rt, list.len(), 0);
    push(list, &[at(1)], at(2))?;
    push(list, &[at(3)], at(4))?;
    are_both(rt, list);
    Ok(())
}

#[test]
fn keeps_combinations_in_their_order(rt: HostRuntime) -> Result<(), Fail> {
    let descriptor = Descriptor {
        tables: &[0, 1],
        fields: &[FieldPlace {
            place: 1,
            column: 2,
        }],
    };
    let mut list = TempList::new(rt.alloc(), descriptor);
    keeps_both(&rt, &mut list)
}

/// Returns the number of copied rows of the result. Tries again once if an allocation fails.
fn copied(list: &TempList, alloc: Global, view: &mut View<'_>) -> Result<usize, Refusal>
    requires live { All (AreLive view.old.store list.now.tables) list.now.combos }
    ensures same { view.new.store ≡ view.old.store }
{
    let rows = match list.project_sorted(alloc, view, true, &[0]) {
        Ok(rows) => rows,
        Err(_) => list.project_sorted(alloc, view, true, &[0])?,
    };
    Ok(rows.len())
}

/// Copies and shows the rows of a list without combinations, for which no row is read.
fn shows_none(rt: &impl Abort, list: &TempList, alloc: Global, store: &Store) -> Result<(), Fail>
    requires { All (AreLive store.now list.now.tables) list.now.combos }
{
    let mut view = store.view();
    assert_same(rt, copied(list, alloc, &mut view)?, 0);
    let shown = show(list, alloc, &mut view, true)?;
    assert_same(rt, shown.len(), 0);
    assert_same(rt, view.reads(), 0);
    Ok(())
}

#[test]
fn shows_no_rows_of_no_combinations(rt: HostRuntime) -> Result<(), Fail> {
    let alloc = rt.alloc();
    let store = Store::new(alloc);
    let descriptor = Descriptor {
        tables: &[0],
        fields: &[],
    };
    let list = TempList::new(alloc, descriptor);
    shows_none(&rt, &list, alloc, &store)
}

/// Shows the only row of a list, whose only value is 0.
fn shows_0(rt: &impl Abort, list: &TempList, alloc: Global, store: &Store) -> Result<(), Fail>
    requires { All (AreLive store.now list.now.tables) list.now.combos }
{
    let mut view = store.view();
    let shown = show(list, alloc, &mut view, false)?;
    assert_same(rt, shown.len(), 1);
    let row = shown.row(0);
    assert_same(rt, row.len(), 1);
    assert_that(rt, compare(&row[0], &Value::Int(0)).is_eq());
    assert_same(rt, view.reads(), 0);
    Ok(())
}

#[test]
fn shows_0_where_no_row_is_there(rt: HostRuntime) -> Result<(), Fail> {
    let alloc = rt.alloc();
    let store = Store::new(alloc);
    let fields = [FieldPlace {
        place: 0,
        column: 0,
    }];
    let list = TempList::unit(alloc, &fields);
    shows_0(&rt, &list, alloc, &store)
}

/// Returns the rows of the first table. Tries again once if an allocation fails.
fn all_rows(alloc: Global, store: &Store) -> Result<TempList<'_>, AllocError>
    requires { IsSample store.now }
    ensures { IfOk result (λ list. All (AreLive store.now list.tables) list.combos) }
{
    let mut view = store.view();
    let descriptor = Descriptor {
        tables: &[0],
        fields: &[OUTER_VALUE],
    };
    match select(alloc, &mut view, descriptor, &[], Access::Scan) {
        Ok(list) => Ok(list),
        Err(_) => select(alloc, &mut view, descriptor, &[], Access::Scan),
    }
}

/// Returns the numbers of rows that a list shows and that are read for them.
fn try_count(list: &TempList, alloc: Global, store: &Store) -> Result<(usize, u64), AllocError>
    requires { All (AreLive store.now list.now.tables) list.now.combos }
{
    let mut view = store.view();
    let shown = list.shown(alloc, &mut view, false, &[0])?;
    Ok((shown.len(), view.reads()))
}

/// Returns the numbers of rows that a list shows and that are read for them. Tries again once if an allocation fails.
fn count_shown(list: &TempList, alloc: Global, store: &Store) -> Result<(usize, u64), AllocError>
    requires { All (AreLive store.now list.now.tables) list.now.combos }
{
    match try_count(list, alloc, store) {
        Ok(counts) => Ok(counts),
        Err(_) => try_count(list, alloc, store),
    }
}

/// Shows the three rows of the first table.
fn shows_three(rt: &impl Abort, alloc: Global, store: &Store) -> Result<(), Fail>
    requires { IsSample store.now }
{
    let list = all_rows(alloc, store)?;
    assert_same(rt, count_shown(&list, alloc, store)?, (3, 3));
    Ok(())
}

#[test]
fn reads_a_row_for_each_reference(rt: HostRuntime) -> Result<(), Fail> {
    let alloc = rt.alloc();
    let store = sample(alloc, IndexKind::Tree, [3, 3], Values::Falling)?;
    shows_three(&rt, alloc, &store)
}
