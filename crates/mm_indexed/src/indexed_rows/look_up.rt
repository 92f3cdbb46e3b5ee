//! Searches along the key.
ghost use Rattle.std.specs.Prelude.{◌≡◌, ◌≢◌, Contains, All, IfSome, IfNone, Some, slice_get};
ghost use Rattle.mm_value.specs.Views.{value_of};
ghost use Rattle.mm_partition.specs.Places.{slot_at};
ghost use Rattle.mm_indexed.specs.Reads.{IsOnly};
ghost use Rattle.mm_row_order.specs.Refs.{row_at};
ghost use Rattle.mm_indexed.specs.Twins.{AreApart};

use super::IndexedRows;
use mm_partition::ColumnKeys;
use mm_row_order::{AtNumber, AtValue, ByColumn, ByNumbers, find_along};
use mm_value::{RowRef, ValueRef, order_prefix};

impl IndexedRows {
    /// Returns the reference of a row in use with this key, or `None` if no row in use has it. If two rows have the key, the result is
    /// either of them. Makes one search of the T-tree on the key (Lehman and Carey, VLDB 1986).
    pub fn find(&self, key: ValueRef<'_>) -> Option<RowRef>
        ensures held { IfSome result (Contains self.now.refs) }
        ensures fits { IfSome result (λ at. slice_get (row_at (slot_at self.now.places) at) self.now.key ≡ Some (value_of key.entry)) }
        ensures none { IfNone result
            (All (λ at. slice_get (row_at (slot_at self.now.places) at) self.now.key ≢ Some (value_of key.entry)) self.now.refs) }
        ensures only { AreApart self.now.key (slot_at self.now.places)
            → IfSome result (IsOnly self.now.key (slot_at self.now.places) (value_of key.entry)) }
    {
        self.is_kept();
        self.find_key(key)
    }

    /// Returns the reference of a row in use with this key, or `None` if no row in use has it.
    fn find_key(&self, key: ValueRef<'_>) -> Option<RowRef>
        ensures held { IfSome result (Contains self.now.refs) }
        ensures fits { IfSome result (λ at. slice_get (row_at (slot_at self.now.places) at) self.now.key ≡ Some (value_of key.entry)) }
        ensures none { IfNone result
            (All (λ at. slice_get (row_at (slot_at self.now.places) at) self.now.key ≢ Some (value_of key.entry)) self.now.refs) }
    {
        let values = self.rows.keys(self.key);
        if let (ColumnKeys::Numbers(numbers), ValueRef::Int(sought)) = (values, key) {
            let order = ByNumbers {
                rows: &self.rows,
                column: self.key,
                key: self.key,
                values: numbers,
                ties: numbers,
            };
            let probe = AtNumber {
                rows: &self.rows,
                column: self.key,
                key: self.key,
                sought,
                values: numbers,
            };
            return find_along(&self.by_key, &order, &probe);
        }
        let order = ByColumn {
            rows: &self.rows,
            column: self.key,
            key: self.key,
            values,
            ties: values,
        };
        let probe = AtValue {
            rows: &self.rows,
            column: self.key,
            key: self.key,
            sought: key,
            prefix: order_prefix(&key),
            values,
        };
        find_along(&self.by_key, &order, &probe)
    }
}
