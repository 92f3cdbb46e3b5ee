//! Orders of rows whose values are read where they are stored.
ghost use Rattle.std.specs.Prelude.{◌≡◌};
ghost use Rattle.mm_value.specs.Order.{row_cmp, value_cmp};
ghost use Rattle.mm_value.specs.Views.{value_of};
ghost use Rattle.mm_query.specs.Atoms.{value_in};
ghost use Rattle.mm_query.specs.Queries.{rows_by_columns, sort_key};
ghost use Rattle.mm_templist.specs.Runs.{leading_prefix, referred};

use mm_value::{ValueRef, compare, order_prefix};
use std::cmp::Ordering;

/// Compares two whole rows: by their first values that differ, and otherwise the shorter row is less.
pub(crate) fn compare_values(a: &[ValueRef<'_>], b: &[ValueRef<'_>]) -> Ordering
    ensures { result ≡ row_cmp (referred a.now) (referred b.now) }
{
    for (i, left) in a.iter().enumerate() {
        let Some(right) = b.get(i) else {
            return Ordering::Greater;
        };
        match compare(left, right) {
            Ordering::Equal => {}
            ordering => return ordering,
        }
    }
    a.len().cmp(&b.len())
}

/// Returns the value of a row in a column, and 0 past the end of the row.
fn value_in<'a>(row: &[ValueRef<'a>], column: usize) -> ValueRef<'a>
    ensures { value_of result ≡ value_in column (referred row.now) }
{
    match row.get(column) {
        Some(value) => *value,
        None => ValueRef::Int(0),
    }
}

/// Compares two rows by their values in a column. A row counts as 0 past its end.
fn compare_column(column: usize, a: &[ValueRef<'_>], b: &[ValueRef<'_>]) -> Ordering
    ensures { result ≡ value_cmp (value_in column (referred a.now)) (value_in column (referred b.now)) }
{
    compare(&value_in(a, column), &value_in(b, column))
}

/// Compares two rows by their values in these columns, from left to right, and then as whole rows. A row counts as 0 past its end.
pub(crate) fn compare_by_columns(
    columns: &[usize],
    a: &[ValueRef<'_>],
    b: &[ValueRef<'_>],
) -> Ordering
    ensures { result ≡ rows_by_columns columns.now (referred a.now) (referred b.now) }
{
    for column in columns {
        match compare_column(*column, a, b) {
            Ordering::Equal => {}
            ordering => return ordering,
        }
    }
    compare_values(a, b)
}

/// Returns the prefix of the value by which a row is sorted first. This is the value in the first of the columns, or the row's first value
/// if there are no columns. Returns 0 if there is no such value.
pub(crate) fn leading_prefix(columns: &[usize], row: &[ValueRef<'_>]) -> u64
    ensures { result ≡ leading_prefix (sort_key columns.now (referred row.now)) }
{
    match (columns.first(), row.first()) {
        (Some(column), _) => order_prefix(&value_in(row, *column)),
        (None, Some(value)) => order_prefix(value),
        (None, None) => 0,
    }
}
