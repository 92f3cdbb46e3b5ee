//! The value of a row in a column.
ghost use Rattle.std.specs.Prelude.{◌≡◌, ◌+◌, ◌<◌, ◌≤◌, length};
ghost use Rattle.mm_partition.specs.Views.{viewed};
ghost use Rattle.mm_partition.specs.Places.{IsLive, slot_at};
ghost use Rattle.mm_query.specs.Atoms.{value_in};
ghost use Rattle.mm_indexed.specs.Kept.{StoredRows};
ghost use Rattle.mm_row_order.specs.Refs.{row_at};
ghost use Rattle.mm_store.specs.Tables.{IsAt};
ghost use Rattle.mm_value.specs.Hash.{value_hash};
ghost use Rattle.mm_value.specs.Prefix.{order_prefix};
ghost use Rattle.mm_value.specs.Views.{value_of};

use mm_partition::RowView;
use mm_store::View;
use mm_value::{RowRef, ValueRef, hash64, order_prefix};

/// Returns the value of a row in a column, and 0 past the end of the row.
pub(crate) fn value_in<'v>(row: RowView<'v>, column: usize) -> ValueRef<'v>
    ensures { value_of result ≡ value_in column (viewed row.entry) }
{
    row.get(column).unwrap_or(ValueRef::Int(0))
}

/// Returns the prefix of a row's value in a column. A row without that column counts as having 0 there.
fn prefix_in(row: RowView<'_>, column: usize) -> u64
    ensures { result ≡ order_prefix (value_in column (viewed row.entry)) }
{
    order_prefix(&value_in(row, column))
}

/// Returns the hash of a row's value in a column. A row without that column counts as having 0 there.
pub(crate) fn hash_in(row: RowView<'_>, column: usize) -> u64
    ensures { result ≡ value_hash (value_in column (viewed row.entry)) }
{
    hash64(&value_in(row, column))
}

/// Returns the prefix of the value in a column of the row with a reference. Reads the row only if its prefix is not stored; either way it
/// counts as one read.
pub(crate) fn prefix_there(view: &mut View<'_>, table: usize, column: usize, at: RowRef) -> u64
    requires there { table < length view.old.store.tables }
    requires live { (stored : StoredRows) → IsAt view.old.store table stored → IsLive stored.places at }
    ensures prefix { (stored : StoredRows) → IsAt view.old.store table stored
        → result ≡ order_prefix (value_in column (row_at (slot_at stored.places) at)) }
    ensures reads { view.new.reads ≤ view.old.reads + 1 }
    ensures same { view.new.store ≡ view.old.store }
{
    match view.prefix_of(table, column, at) {
        Some(prefix) => prefix,
        None => prefix_in(view.row(table, at), column),
    }
}
