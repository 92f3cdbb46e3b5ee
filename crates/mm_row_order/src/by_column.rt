//! The order of an index: by the value in a column, then by the key, then by the slot.
ghost use Rattle.std.specs.Prelude.{◌≡◌};
ghost use Rattle.mm_schema.specs.Rows.{rows_by};
ghost use Rattle.mm_row_order.specs.Refs.{IsWide, refs_by, row_at};
ghost use Rattle.mm_row_order.specs.Orders.{refs_by_total};
ghost use Rattle.mm_order.specs.Order.{IsTotalOrderOn-from_total};
ghost use Rattle.mm_partition.specs.Keys.{AreKeys};
ghost use Rattle.mm_row_order.specs.Keys.{AreKeys-prop};
ghost use Rattle.mm_partition.specs.Places.{slot_at};

use crate::in_column::compare_in;
use mm_order::RefOrder;
use mm_partition::{ColumnKeys, Partitions};
use mm_value::RowRef;
use std::cmp::Ordering;

/// References by the values of their rows in a column, then by their keys, then by their slots. So no two references compare equal.
/// Most comparisons read only the numbers or prefixes of the two columns.
#[derive(Drop)]
pub struct ByColumn<'a> {
    pub rows: &'a Partitions,
    pub column: usize,
    pub key: usize,
    /// The numbers or prefixes of the column, if they are kept.
    pub values: ColumnKeys<'a>,
    /// The numbers or prefixes of the key, if they are kept.
    pub ties: ColumnKeys<'a>,
    ghost values_agree: { AreKeys column rows.now values } by { AreKeys-prop column rows.now values },
    ghost ties_agree: { AreKeys key rows.now ties } by { AreKeys-prop key rows.now ties },
}

impl<'a> ByColumn<'a> {
    /// Compares two rows by the column, and then by the key.
    #[inline(always)]
    fn compare_rows(&self, a: RowRef, b: RowRef) -> Ordering
        requires a { IsWide self.now.column self.now.key (slot_at self.now.rows.now) a }
        requires b { IsWide self.now.column self.now.key (slot_at self.now.rows.now) b }
        ensures { result ≡ rows_by self.now.column self.now.key (row_at (slot_at self.now.rows.now) a) (row_at (slot_at self.now.rows.now) b) }
    {
        let first = compare_in(self.rows, self.column, self.values, a, b);
        if first.is_eq() {
            compare_in(self.rows, self.key, self.ties, a, b)
        } else {
            first
        }
    }
}

impl<'a> RefOrder for ByColumn<'a> {
    ghost covers = { λ o. IsWide o.column o.key (slot_at o.rows.now) };

    ghost cmp = { λ o. refs_by o.column o.key (slot_at o.rows.now) };

    ghost total = { λ o. IsTotalOrderOn-from_total _ _ (refs_by_total o.column o.key (slot_at o.rows.now)) };

    // A search calls this once for each level, and LLVM does not inline it by itself.
    #[inline(always)]
    fn compare(&self, a: RowRef, b: RowRef) -> Ordering {
        self.compare_rows(a, b).then(a.slot.cmp(&b.slot))
    }
}
