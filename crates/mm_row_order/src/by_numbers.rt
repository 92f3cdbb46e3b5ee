//! The order of an index whose column and key both have numbers.
ghost use Rattle.std.specs.Prelude.{◌≡◌, IfSome};
ghost use Rattle.mm_schema.specs.Rows.{rows_by};
ghost use Rattle.mm_row_order.specs.Refs.{IsWide, refs_by, row_at};
ghost use Rattle.mm_row_order.specs.Orders.{refs_by_total};
ghost use Rattle.mm_order.specs.Order.{IsTotalOrderOn-from_total};
ghost use Rattle.mm_partition.specs.Keys.{AreNumbers};
ghost use Rattle.mm_partition.specs.Places.{slot_at};

use mm_order::RefOrder;
use mm_partition::{ColumnKeys, Partitions, index_of};
use mm_value::RowRef;
use std::cmp::Ordering;

/// References by the numbers of their rows in a column, then by the numbers of their keys, then by their slots. Its contract is that of
/// [`ByColumn`](crate::by_column::ByColumn), but it reads no row.
#[derive(Drop)]
pub struct ByNumbers<'a> {
    pub rows: &'a Partitions,
    pub column: usize,
    pub key: usize,
    /// The numbers of the column, one for each slot.
    pub values: &'a [i64],
    /// The numbers of the key, one for each slot.
    pub ties: &'a [i64],
    ghost values_agree: { AreNumbers column rows.now values.now },
    ghost ties_agree: { AreNumbers key rows.now ties.now },
}

/// The numbers of a column and those of the key.
#[derive(Drop)]
pub struct NumberKeys<'a> {
    /// The numbers of the column, one for each slot.
    pub values: &'a [i64],
    /// The numbers of the key, one for each slot.
    pub ties: &'a [i64],
}

/// Returns the numbers of a column and of the key, or `None` if one of the two has texts.
pub fn number_keys<'a>(rows: &'a Partitions, column: usize, key: usize) -> Option<NumberKeys<'a>>
    ensures values { IfSome result (λ keys. AreNumbers column rows.now keys.values.now) }
    ensures ties { IfSome result (λ keys. AreNumbers key rows.now keys.ties.now) }
{
    match (rows.keys(column), rows.keys(key)) {
        (ColumnKeys::Numbers(values), ColumnKeys::Numbers(ties)) => {
            Some(NumberKeys { values, ties })
        }
        _ => None,
    }
}

impl<'a> ByNumbers<'a> {
    /// Compares two rows by the column, and then by the key.
    #[inline(always)]
    fn compare_rows(&self, a: RowRef, b: RowRef) -> Ordering
        requires a { IsWide self.now.column self.now.key (slot_at self.now.rows.now) a }
        requires b { IsWide self.now.column self.now.key (slot_at self.now.rows.now) b }
        ensures { result ≡ rows_by self.now.column self.now.key (row_at (slot_at self.now.rows.now) a) (row_at (slot_at self.now.rows.now) b) }
    {
        let one = index_of(a);
        let other = index_of(b);
        let first = self.values[one].cmp(&self.values[other]);
        if first.is_eq() {
            self.ties[one].cmp(&self.ties[other])
        } else {
            first
        }
    }
}

impl<'a> RefOrder for ByNumbers<'a> {
    ghost covers = { λ o. IsWide o.column o.key (slot_at o.rows.now) };

    ghost cmp = { λ o. refs_by o.column o.key (slot_at o.rows.now) };

    ghost total = { λ o. IsTotalOrderOn-from_total _ _ (refs_by_total o.column o.key (slot_at o.rows.now)) };

    // A search calls this once for each level, and LLVM does not inline it by itself.
    #[inline(always)]
    fn compare(&self, a: RowRef, b: RowRef) -> Ordering {
        self.compare_rows(a, b).then(a.slot.cmp(&b.slot))
    }
}
