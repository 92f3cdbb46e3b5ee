//! A plain list of the rows of two tables, with which the tables must agree.
ghost use Rattle.std.specs.Prelude.{◌<◌};
ghost use Rattle.tables_tests.specs.Samples.{AreSample};

use crate::assertions::{assert_same, assert_that};
use crate::samples::is_in_use;
use mm_indexed::IndexedRows;
use mm_tables::Tables;
use mm_value::{RowRef, ValueRef};
use std::process::Abort;

/// A row in use.
#[derive(Clone, Copy)]
pub struct PlainRow {
    pub second: bool,
    pub at: RowRef,
    pub key: i64,
    pub digit: i64,
}

impl PlainRow {
    /// Returns the table of the row.
    pub fn table(self) -> usize
        ensures { result < 2 }
    {
        table_of(self.second)
    }
}

/// Returns the first or the second table.
pub fn table_of(second: bool) -> usize
    ensures { result < 2 }
{
    if second { 1 } else { 0 }
}

/// Returns the number of a row in a column, or `None` if the row is not in use.
fn number_at(rows: &IndexedRows, at: RowRef, column: usize) -> Option<i64> {
    if !is_in_use(rows, at) {
        return None;
    }
    match rows.row(at).get(column) {
        Some(ValueRef::Int(number)) => Some(number),
        _ => None,
    }
}

/// Asserts that a table has a row.
fn assert_row(rt: &impl Abort, rows: &IndexedRows, row: PlainRow) {
    assert_same(rt, number_at(rows, row.at, 0), Some(row.key));
    assert_same(rt, number_at(rows, row.at, 1), Some(row.digit));
}

/// Returns the number of rows of a table.
fn count(rows: &[PlainRow], second: bool) -> usize {
    rows.iter().filter(|row| row.second == second).count()
}

/// Asserts that the tables have these rows and no others.
pub fn assert_rows(rt: &impl Abort, tables: &Tables, rows: &[PlainRow])
    requires { AreSample tables.now }
{
    assert_same(rt, tables.table(0).len(), count(rows, false));
    assert_same(rt, tables.table(1).len(), count(rows, true));
    for row in rows {
        assert_row(rt, tables.table(row.table()), *row);
    }
}

/// Asserts the number of records of the log.
pub fn assert_records(rt: &impl Abort, tables: &Tables, count: usize) {
    assert_same(rt, tables.records().len(), count);
    assert_that(rt, tables.mark() == count);
}
