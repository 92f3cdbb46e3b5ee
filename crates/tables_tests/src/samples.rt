//! Two tables of two numbers, and changes of them. Each call reserves the capacity that it needs.
ghost use Rattle.std.specs.Prelude.{◌<◌, ◌≡◌, ◌∷◌, [], IfOk};
ghost use Rattle.std.specs.Bool.{OnTrue};
ghost use Rattle.mm_value.specs.declared.col_type.ColType.TheVariants.{Int};
ghost use Rattle.mm_partition.specs.Places.{IsLive, IsHidden, slot_at};
ghost use Rattle.mm_partition.specs.Types.{HasTypes};
ghost use Rattle.mm_tables.specs.Edits.{Fits};
ghost use Rattle.tables_tests.specs.Samples.{AreSample};

use crate::assertions::assert_that;
use mm_indexed::IndexedRows;
use mm_schema::{IndexKind, MAX_ROWS};
use mm_tables::{Edit, Tables};
use mm_value::{ColType, Row, RowRef, Value};
use std::alloc::{AllocError, Global};
use std::process::Abort;

/// Returns two tables without rows, each of a key and a digit.
pub fn two_tables(alloc: Global) -> Result<Tables, AllocError>
    ensures { IfOk result AreSample }
{
    let mut tables = Tables::new(alloc);
    tables.add_table(alloc, &[ColType::Int, ColType::Int], 0)?;
    tables.add_table(alloc, &[ColType::Int, ColType::Int], 0)?;
    Ok(tables)
}

/// Appends an index on the digit of a table.
pub fn add_index(
    tables: &mut Tables,
    alloc: Global,
    table: usize,
    kind: IndexKind,
) -> Result<(), AllocError>
    requires sample { AreSample tables.old }
    requires within { table < 2 }
    ensures { AreSample tables.new }
{
    if tables.table(table).len() > MAX_ROWS {
        return Ok(());
    }
    tables.add_index(alloc, table, 1, kind)
}

/// Returns the row of a key and a digit.
fn row_of(alloc: Global, key: i64, digit: i64) -> Result<Row, AllocError>
    ensures { IfOk result (HasTypes (Int ∷ Int ∷ [])) }
{
    Ok(Row::new(vec![in alloc; Value::Int(key), Value::Int(digit)]?))
}

/// Stages the row of a key and a digit.
pub fn stage(
    tables: &mut Tables,
    alloc: Global,
    table: usize,
    key: i64,
    digit: i64,
) -> Result<RowRef, AllocError>
    requires sample { AreSample tables.old }
    requires within { table < 2 }
    ensures { AreSample tables.new }
{
    let row = row_of(alloc, key, digit)?;
    row.is_storable();
    tables.reserve(alloc, table, 1, 0)?;
    tables.reserve_log(1)?;
    Ok(tables.stage(table, row.into_values().as_mut_slice()))
}

/// Returns whether a row in use has this reference.
pub fn is_in_use(rows: &IndexedRows, at: RowRef) -> bool
    ensures { OnTrue result (IsLive rows.now.places at) }
{
    if rows.len() > MAX_ROWS {
        return false;
    }
    for found in rows.by_key() {
        if found.slot == at.slot {
            return true;
        }
    }
    false
}

/// Returns whether a row in use and a hidden row have these references.
fn can_exchange(rows: &IndexedRows, at: RowRef, other: RowRef) -> bool
    ensures live { OnTrue result (IsLive rows.now.places at) }
    ensures hidden { OnTrue result (IsHidden rows.now.places other) }
{
    is_in_use(rows, at) && rows.is_hidden(other)
}

/// Returns whether an edit fits the rows of a table.
pub fn fits(rows: &IndexedRows, edit: Edit) -> bool
    ensures { OnTrue result (Fits rows.now.key (slot_at rows.now.places) edit) }
{
    match edit {
        Edit::Stage(_) => false,
        Edit::Insert(at) => rows.is_hidden(at),
        Edit::Delete(at) => is_in_use(rows, at),
        Edit::Move(at, other) => can_exchange(rows, at, other),
        Edit::Update(at, other) => can_exchange(rows, at, other) && rows.keeps_key(at, other),
    }
}

/// Makes an edit.
pub fn change(
    rt: &(impl Abort + AllocGlobal),
    tables: &mut Tables,
    table: usize,
    edit: Edit,
) -> Result<(), AllocError>
    requires sample { AreSample tables.old }
    requires within { table < 2 }
    ensures { AreSample tables.new }
{
    tables.reserve_for(rt.alloc(), table, &[edit])?;
    tables.reserve_log(1)?;
    assert_that(rt, fits(tables.table(table), edit));
    tables.change(table, edit);
    Ok(())
}

/// Undoes all changes beyond a savepoint.
pub fn revert(rt: &impl Abort, tables: &mut Tables, mark: usize)
    requires { AreSample tables.old }
    ensures { AreSample tables.new }
{
    assert_that(rt, mark <= tables.mark());
    tables.revert(mark);
}
