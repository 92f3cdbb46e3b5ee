//! Prefixes of values, without a read of the row.
ghost use Rattle.std.specs.Prelude.{◌≡◌, IfSome, Some, slice_get};
ghost use Rattle.std.specs.Option.{option_map};
ghost use Rattle.mm_partition.specs.Places.{IsLive, slot_at};
ghost use Rattle.mm_row_order.specs.Refs.{row_at};
ghost use Rattle.mm_value.specs.Prefix.{order_prefix};

use super::IndexedRows;
use mm_partition::{ColumnKeys, index_of};
use mm_value::{RowRef, ValueRef, order_prefix};

impl IndexedRows {
    /// Returns the `order_prefix` of the value that a row in use has in a column, without a read of the row, or `None` if neither
    /// numbers nor prefixes of the column are kept. Numbers always are, and prefixes of texts for the key and the columns of TREE
    /// indexes.
    pub fn prefix_of(&self, column: usize, at: RowRef) -> Option<u64>
        requires { IsLive self.now.places at }
        ensures { IfSome result (λ prefix. option_map order_prefix (slice_get (row_at (slot_at self.now.places) at) column) ≡ Some prefix) }
    {
        if column >= self.rows.width() {
            return None;
        }
        match self.rows.keys(column) {
            ColumnKeys::Numbers(numbers) => {
                Some(order_prefix(&ValueRef::Int(numbers[index_of(at)])))
            }
            ColumnKeys::Prefixes(prefixes) => Some(prefixes[index_of(at)]),
            ColumnKeys::None => None,
        }
    }
}
