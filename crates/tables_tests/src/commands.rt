//! Commands of several edits: made, or refused because two rows would have one key.
ghost use Rattle.std.specs.Bool.{OnTrue};
ghost use Rattle.mm_partition.specs.Places.{slot_at};
ghost use Rattle.mm_indexed.specs.Twins.{AreApart};
ghost use Rattle.tables_tests.specs.Samples.{AreSample};

use crate::assertions::{assert_same, assert_that};
use crate::plain::{PlainRow, assert_records, assert_rows};
use crate::ready::{all_apart, all_fit};
use crate::samples::{add_index, change, revert, stage, two_tables};
use mm_indexed::IndexedRows;
use mm_schema::{IndexKind, MAX_ROWS};
use mm_tables::{Edit, Tables};
use mm_value::RowRef;
use std::alloc::AllocError;
use std::process::Abort;
use std::test::Fail;

/// Returns whether no two rows have one key.
fn keys_are_apart(rows: &IndexedRows) -> bool
    ensures { OnTrue result (AreApart rows.now.key (slot_at rows.now.places)) }
{
    if rows.len() > MAX_ROWS {
        return false;
    }
    for at in rows.by_key() {
        if rows.has_twin(at) {
            return false;
        }
    }
    rows.is_kept();
    true
}

/// Makes the edits of a command in the first table, and returns whether they were made. A refusal undoes all changes beyond the savepoint.
fn make(
    rt: &(impl Abort + AllocGlobal),
    tables: &mut Tables,
    mark: usize,
    edits: &[Edit],
) -> Result<bool, AllocError>
    requires { AreSample tables.old }
    ensures { AreSample tables.new }
{
    tables.reserve_for(rt.alloc(), 0, edits)?;
    tables.reserve_log(edits.len())?;
    assert_that(rt, mark <= tables.mark());
    assert_that(rt, all_fit(tables.table(0), edits));
    assert_that(rt, all_apart(edits));
    assert_that(rt, keys_are_apart(tables.table(0)));
    Ok(tables.make(mark, 0, edits))
}

/// Inserts a row into the first table.
fn add(
    rt: &(impl Abort + AllocGlobal),
    tables: &mut Tables,
    key: i64,
    digit: i64,
) -> Result<PlainRow, AllocError>
    requires { AreSample tables.old }
    ensures { AreSample tables.new }
{
    let at = stage(tables, rt.alloc(), 0, key, digit)?;
    change(rt, tables, 0, Edit::Insert(at))?;
    Ok(PlainRow {
        second: false,
        at,
        key,
        digit,
    })
}

/// Changes the keys of two rows to `one` and `two` in one command, and returns whether it was made.
fn change_keys(
    rt: &(impl Abort + AllocGlobal),
    tables: &mut Tables,
    rows: [RowRef; 2],
    one: i64,
    two: i64,
) -> Result<bool, AllocError>
    requires { AreSample tables.old }
    ensures { AreSample tables.new }
{
    let mark = tables.mark();
    let first = stage(tables, rt.alloc(), 0, one, 8)?;
    let second = stage(tables, rt.alloc(), 0, two, 9)?;
    let edits = [Edit::Move(rows[0], first), Edit::Move(rows[1], second)];
    make(rt, tables, mark, &edits)
}

/// Asserts that a command increases the keys 1 and 2 by one.
fn raise(
    rt: &(impl Abort + AllocGlobal),
    tables: &mut Tables,
    one: PlainRow,
    two: PlainRow,
) -> Result<(), AllocError>
    requires { AreSample tables.old }
{
    let made = change_keys(rt, tables, [one.at, two.at], 2, 3)?;
    assert_that(rt, made);
    let one = PlainRow {
        key: 2,
        digit: 8,
        ..one
    };
    let two = PlainRow {
        key: 3,
        digit: 9,
        ..two
    };
    assert_rows(rt, tables, &[one, two]);
    assert_records(rt, tables, 8);
    Ok(())
}

#[test]
fn raises_keys(rt: HostRuntime) -> Result<(), Fail> {
    let mut tables = two_tables(rt.alloc())?;
    let one = add(&rt, &mut tables, 1, 5)?;
    let two = add(&rt, &mut tables, 2, 6)?;
    raise(&rt, &mut tables, one, two)?;
    Ok(())
}

/// Asserts that no command changes the keys of two rows to 3, and what the refusal undoes.
fn refuse(
    rt: &(impl Abort + AllocGlobal),
    tables: &mut Tables,
    one: PlainRow,
    two: PlainRow,
) -> Result<(), AllocError>
    requires { AreSample tables.old }
{
    let made = change_keys(rt, tables, [one.at, two.at], 3, 3)?;
    assert_that(rt, !made);
    assert_rows(rt, tables, &[one, two]);
    assert_records(rt, tables, 4);
    Ok(())
}

#[test]
fn refuses_one_key(rt: HostRuntime) -> Result<(), Fail> {
    let mut tables = two_tables(rt.alloc())?;
    let one = add(&rt, &mut tables, 1, 5)?;
    let two = add(&rt, &mut tables, 2, 6)?;
    refuse(&rt, &mut tables, one, two)?;
    Ok(())
}

/// Deletes all rows of the first table, which has two, and inserts another one.
fn replace_all(
    rt: &(impl Abort + AllocGlobal),
    tables: &mut Tables,
    one: PlainRow,
    two: PlainRow,
) -> Result<(), AllocError>
    requires { AreSample tables.old }
    ensures { AreSample tables.new }
{
    let edits = [Edit::Delete(one.at), Edit::Delete(two.at)];
    let mark = tables.mark();
    let made = make(rt, tables, mark, &edits)?;
    assert_that(rt, made);
    assert_rows(rt, tables, &[]);
    assert_records(rt, tables, 6);
    let third = add(rt, tables, 1, 7)?;
    assert_rows(rt, tables, &[third]);
    Ok(())
}

/// Deletes all rows of the first table, reverts that, and deletes them again.
fn delete_all(
    rt: &(impl Abort + AllocGlobal),
    tables: &mut Tables,
    one: PlainRow,
    two: PlainRow,
) -> Result<(), AllocError>
    requires { AreSample tables.old }
{
    let mark = tables.mark();
    replace_all(rt, tables, one, two)?;
    revert(rt, tables, mark);
    assert_rows(rt, tables, &[one, two]);
    replace_all(rt, tables, one, two)?;
    tables.settle();
    assert_same(rt, tables.table(0).len(), 1);
    Ok(())
}

#[test]
fn deletes_all_rows(rt: HostRuntime) -> Result<(), Fail> {
    let mut tables = two_tables(rt.alloc())?;
    add_index(&mut tables, rt.alloc(), 0, IndexKind::Tree)?;
    add_index(&mut tables, rt.alloc(), 0, IndexKind::Hash)?;
    let one = add(&rt, &mut tables, 1, 5)?;
    let two = add(&rt, &mut tables, 2, 6)?;
    delete_all(&rt, &mut tables, one, two)?;
    Ok(())
}

/// Sets the digit of each row of the first table to 7 in one command. Returns the rows afterwards.
fn update_all(
    rt: &(impl Abort + AllocGlobal),
    tables: &mut Tables,
    rows: &[PlainRow],
) -> Result<Vec<PlainRow>, AllocError>
    requires { AreSample tables.old }
    ensures { AreSample tables.new }
{
    let mark = tables.mark();
    let mut edits = Vec::new(rt.alloc());
    let mut changed = Vec::new(rt.alloc());
    for row in rows {
        let other = stage(tables, rt.alloc(), 0, row.key, 7)?;
        edits.push(Edit::Update(row.at, other))?;
        changed.push(PlainRow { digit: 7, ..*row })?;
    }
    let made = make(rt, tables, mark, edits.as_slice())?;
    assert_that(rt, made);
    Ok(changed)
}

#[test]
fn updates_many_rows(rt: HostRuntime) -> Result<(), Fail> {
    let mut tables = two_tables(rt.alloc())?;
    add_index(&mut tables, rt.alloc(), 0, IndexKind::Tree)?;
    add_index(&mut tables, rt.alloc(), 0, IndexKind::Hash)?;
    let mut rows = Vec::new(rt.alloc());
    for key in 0..40 {
        rows.push(add(&rt, &mut tables, key, key % 8)?)?;
    }
    let mark = tables.mark();
    let changed = update_all(&rt, &mut tables, rows.as_slice())?;
    assert_rows(&rt, &tables, changed.as_slice());
    assert_records(&rt, &tables, 160);
    revert(&rt, &mut tables, mark);
    assert_rows(&rt, &tables, rows.as_slice());
    Ok(())
}
