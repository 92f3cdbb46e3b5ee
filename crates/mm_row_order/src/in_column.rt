//! Comparing rows by one column: by its numbers, or by the prefixes of its texts if they are kept. Most comparisons read no row.
ghost use Rattle.std.specs.Prelude.{◌≡◌};
ghost use Rattle.mm_value.specs.Prefix.{order_prefix};
ghost use Rattle.mm_value.specs.Views.{value_of};
ghost use Rattle.mm_partition.specs.Keys.{AreKeys};
ghost use Rattle.mm_partition.specs.Places.{slot_at};
ghost use Rattle.mm_schema.specs.Rows.{column_cmp};
ghost use Rattle.mm_row_order.specs.Refs.{place_by, row_at};
ghost use Rattle.mm_row_order.specs.InOrder.{HasColumn};

use mm_partition::{ColumnKeys, Partitions, index_of};
use mm_value::{RowRef, ValueRef, compare};
use std::cmp::Ordering;

/// Compares two rows by their values in a column, with a read of both rows.
fn compare_values(rows: &Partitions, column: usize, a: RowRef, b: RowRef) -> Ordering
    requires a { HasColumn column (slot_at rows.now) a }
    requires b { HasColumn column (slot_at rows.now) b }
    ensures { result ≡ column_cmp column (row_at (slot_at rows.now) a) (row_at (slot_at rows.now) b) }
{
    compare(&rows.get(a).value(column), &rows.get(b).value(column))
}

/// Compares two rows by a column.
#[inline(always)]
pub fn compare_in(
    rows: &Partitions,
    column: usize,
    keys: ColumnKeys<'_>,
    a: RowRef,
    b: RowRef,
) -> Ordering
    requires keys { AreKeys column rows.now keys }
    requires a { HasColumn column (slot_at rows.now) a }
    requires b { HasColumn column (slot_at rows.now) b }
    ensures { result ≡ column_cmp column (row_at (slot_at rows.now) a) (row_at (slot_at rows.now) b) }
{
    match keys {
        ColumnKeys::Numbers(numbers) => numbers[index_of(a)].cmp(&numbers[index_of(b)]),
        ColumnKeys::Prefixes(prefixes) => {
            let one = prefixes[index_of(a)];
            let other = prefixes[index_of(b)];
            if one < other {
                Ordering::Less
            } else if other < one {
                Ordering::Greater
            } else {
                compare_values(rows, column, a, b)
            }
        }
        ColumnKeys::None => compare_values(rows, column, a, b),
    }
}

/// Compares a row with a value in a column, with a read of the row.
fn place_value(rows: &Partitions, column: usize, at: RowRef, sought: ValueRef<'_>) -> Ordering
    requires { HasColumn column (slot_at rows.now) at }
    ensures { result ≡ place_by column (slot_at rows.now) (value_of sought.entry) at }
{
    compare(&rows.get(at).value(column), &sought)
}

/// Compares a row with a value in a column, given the value's prefix.
#[inline(always)]
pub fn place_in(
    rows: &Partitions,
    column: usize,
    keys: ColumnKeys<'_>,
    at: RowRef,
    sought: ValueRef<'_>,
    prefix: u64,
) -> Ordering
    requires keys { AreKeys column rows.now keys }
    requires at { HasColumn column (slot_at rows.now) at }
    requires prefix { prefix ≡ order_prefix (value_of sought) }
    ensures { result ≡ place_by column (slot_at rows.now) (value_of sought.entry) at }
{
    match keys {
        ColumnKeys::Numbers(numbers) => match sought {
            ValueRef::Int(number) => numbers[index_of(at)].cmp(&number),
            ValueRef::Text(_) => Ordering::Less,
        },
        ColumnKeys::Prefixes(prefixes) => {
            let kept = prefixes[index_of(at)];
            if kept < prefix {
                Ordering::Less
            } else if prefix < kept {
                Ordering::Greater
            } else {
                place_value(rows, column, at, sought)
            }
        }
        ColumnKeys::None => place_value(rows, column, at, sought),
    }
}
