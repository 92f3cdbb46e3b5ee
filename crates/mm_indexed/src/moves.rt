//! Whether the entry of a row keeps its place in an index when the row and a hidden one change places.
ghost use Rattle.std.specs.Prelude.{◌≡◌, ◌<◌, ◌&&◌, length, IfSome};
ghost use Rattle.mm_partition.specs.Places.{slot_at, IsLive, IsHidden};
ghost use Rattle.mm_schema.specs.Rows.{same_in_column};
ghost use Rattle.mm_row_order.specs.Refs.{row_at};
ghost use Rattle.mm_indexed.specs.Stays.{agrees};

use mm_partition::Partitions;
use mm_value::{RowRef, compare};

/// Returns whether a row in use and a hidden one have the same value in a column.
pub fn have_one_value(rows: &Partitions, column: usize, at: RowRef, other: RowRef) -> bool
    requires column { column < length rows.now.types }
    requires live { IsLive rows.now at }
    requires hidden { IsHidden rows.now other }
    ensures { result ≡ same_in_column column (row_at (slot_at rows.now) at) (row_at (slot_at rows.now) other) }
{
    compare(&rows.value(at, column), &rows.hidden_value(other, column)).is_eq()
}

/// Returns whether a row in use and a hidden one, if there is one, have the same values in two columns.
pub fn agree(
    rows: &Partitions,
    column: usize,
    tie: usize,
    at: RowRef,
    other: Option<RowRef>,
) -> bool
    requires column { column < length rows.now.types }
    requires tie { tie < length rows.now.types }
    requires live { IsLive rows.now at }
    requires hidden { IfSome other (IsHidden rows.now) }
    ensures { result ≡ agrees column tie (slot_at rows.now) at other }
{
    match other {
        None => false,
        Some(other) => {
            have_one_value(rows, column, at, other) && have_one_value(rows, tie, at, other)
        }
    }
}
