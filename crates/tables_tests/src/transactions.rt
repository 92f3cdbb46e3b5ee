//! Transactions of pseudorandom edits, compared with a plain list of rows.
ghost use Rattle.std.specs.Prelude.{◌<◌};
ghost use Rattle.tables_tests.specs.Samples.{AreSample};

use crate::assertions::assert_that;
use crate::plain::{PlainRow, assert_rows, table_of};
use crate::samples::{add_index, change, revert, stage, two_tables};
use mm_schema::IndexKind;
use mm_tables::{Edit, Tables};
use std::alloc::AllocError;
use std::process::Abort;
use std::test::Fail;

/// Pseudorandom numbers.
#[derive(Drop)]
struct Dice {
    state: u64,
}

impl Dice {
    /// Returns a number below 32.
    fn roll(&mut self) -> u64
        ensures { result < 32 }
    {
        self.state = self
            .state
            .wrapping_mul(6_364_136_223_846_793_005)
            .wrapping_add(1_442_695_040_888_963_407);
        (self.state >> 33) % 32
    }

    /// Returns whether the next number is even.
    fn flip(&mut self) -> bool {
        self.roll() % 2 == 0
    }

    /// Returns a number below 32, as a value.
    fn number(&mut self) -> i64 {
        self.roll() as i64
    }
}

/// Inserts a row.
fn insert(
    rt: &(impl Abort + AllocGlobal),
    tables: &mut Tables,
    rows: &mut Vec<PlainRow>,
    dice: &mut Dice,
) -> Result<(), AllocError>
    requires { AreSample tables.old }
    ensures { AreSample tables.new }
{
    let second = dice.flip();
    let key = dice.number();
    let digit = dice.number();
    let at = stage(tables, rt.alloc(), table_of(second), key, digit)?;
    change(rt, tables, table_of(second), Edit::Insert(at))?;
    rows.push(PlainRow {
        second,
        at,
        key,
        digit,
    })?;
    Ok(())
}

/// Changes the digit of a row, and often its key.
fn update(
    rt: &(impl Abort + AllocGlobal),
    tables: &mut Tables,
    row: PlainRow,
    dice: &mut Dice,
) -> Result<PlainRow, AllocError>
    requires { AreSample tables.old }
    ensures { AreSample tables.new }
{
    let key = if dice.flip() { row.key } else { dice.number() };
    let digit = dice.number();
    let other = stage(tables, rt.alloc(), row.table(), key, digit)?;
    let edit = if key == row.key {
        Edit::Update(row.at, other)
    } else {
        Edit::Move(row.at, other)
    };
    change(rt, tables, row.table(), edit)?;
    Ok(PlainRow { key, digit, ..row })
}

/// Updates or deletes a row at a place, if there is one.
fn change_at(
    rt: &(impl Abort + AllocGlobal),
    tables: &mut Tables,
    rows: &mut Vec<PlainRow>,
    place: usize,
    dice: &mut Dice,
) -> Result<(), AllocError>
    requires { AreSample tables.old }
    ensures { AreSample tables.new }
{
    if place >= rows.len() {
        return Ok(());
    }
    let row = rows[place];
    if dice.flip() {
        rows[place] = update(rt, tables, row, dice)?;
        return Ok(());
    }
    change(rt, tables, row.table(), Edit::Delete(row.at))?;
    rows.swap_remove(place);
    Ok(())
}

/// Makes 60 changes of rows.
fn change_rows(
    rt: &(impl Abort + AllocGlobal),
    tables: &mut Tables,
    rows: &mut Vec<PlainRow>,
    dice: &mut Dice,
) -> Result<(), AllocError>
    requires { AreSample tables.old }
    ensures { AreSample tables.new }
{
    for _ in 0..30 {
        insert(rt, tables, rows, dice)?;
        let place = dice.roll() as usize;
        change_at(rt, tables, rows, place, dice)?;
    }
    assert_rows(rt, tables, rows.as_slice());
    Ok(())
}

/// Makes changes and undoes them.
fn change_and_revert(
    rt: &(impl Abort + AllocGlobal),
    tables: &mut Tables,
    rows: &[PlainRow],
    dice: &mut Dice,
) -> Result<(), AllocError>
    requires { AreSample tables.old }
    ensures { AreSample tables.new }
{
    let mark = tables.mark();
    let mut changed = rows.to_vec(rt.alloc())?;
    change_rows(rt, tables, &mut changed, dice)?;
    revert(rt, tables, mark);
    assert_that(rt, tables.mark() == mark);
    assert_rows(rt, tables, rows);
    Ok(())
}

/// Runs a transaction: changes that stay, and changes that are undone.
fn run(
    rt: &(impl Abort + AllocGlobal),
    tables: &mut Tables,
    rows: &mut Vec<PlainRow>,
    dice: &mut Dice,
) -> Result<(), AllocError>
    requires { AreSample tables.old }
    ensures { AreSample tables.new }
{
    change_and_revert(rt, tables, rows.as_slice(), dice)?;
    change_rows(rt, tables, rows, dice)?;
    add_index(tables, rt.alloc(), 1, IndexKind::Hash)?;
    change_and_revert(rt, tables, rows.as_slice(), dice)?;
    tables.settle();
    assert_that(rt, tables.mark() == 0);
    assert_rows(rt, tables, rows.as_slice());
    Ok(())
}

#[test]
fn reverts_and_settles(rt: HostRuntime) -> Result<(), Fail> {
    let mut tables = two_tables(rt.alloc())?;
    add_index(&mut tables, rt.alloc(), 0, IndexKind::Tree)?;
    let mut rows = Vec::new(rt.alloc());
    let mut dice = Dice { state: 1 };
    for _ in 0..4 {
        run(&rt, &mut tables, &mut rows, &mut dice)?;
    }
    Ok(())
}
