//! The position of a value in the order of an index.
ghost use Rattle.std.specs.Prelude.{◌≡◌};
ghost use Rattle.mm_value.specs.Prefix.{order_prefix};
ghost use Rattle.mm_value.specs.Views.{value_of};
ghost use Rattle.mm_row_order.specs.Refs.{IsWide, place_by};
ghost use Rattle.mm_partition.specs.Keys.{AreKeys};
ghost use Rattle.mm_row_order.specs.Keys.{AreKeys-prop};
ghost use Rattle.mm_partition.specs.Places.{slot_at};

use crate::in_column::place_in;
use mm_order::Probe;
use mm_partition::{ColumnKeys, Partitions};
use mm_value::{RowRef, ValueRef};
use std::cmp::Ordering;

/// The position of a value in the order by its column. Most comparisons need only the numbers or prefixes of the column.
#[derive(Drop)]
pub struct AtValue<'a> {
    pub rows: &'a Partitions,
    pub column: usize,
    pub key: usize,
    pub sought: ValueRef<'a>,
    pub prefix: u64,
    pub values: ColumnKeys<'a>,
    ghost same: { prefix ≡ order_prefix (value_of sought) },
    ghost values_agree: { AreKeys column rows.now values } by { AreKeys-prop column rows.now values },
}

impl<'a> Probe for AtValue<'a> {
    ghost covers = { λ p. IsWide p.column p.key (slot_at p.rows.now) };

    ghost place_of = { λ p. place_by p.column (slot_at p.rows.now) (value_of p.sought) };

    #[inline(always)]
    fn place(&self, at: RowRef) -> Ordering {
        place_in(
            self.rows,
            self.column,
            self.values,
            at,
            self.sought,
            self.prefix,
        )
    }
}
