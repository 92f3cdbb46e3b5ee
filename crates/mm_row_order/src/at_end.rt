//! The ends of a range in the order of an index.
ghost use Rattle.std.specs.Prelude.{◌≡◌};
ghost use Rattle.std.specs.Option.{ForSome, option_map};
ghost use Rattle.mm_value.specs.Prefix.{order_prefix};
ghost use Rattle.mm_value.specs.Views.{value_of};
ghost use Rattle.mm_row_order.specs.Refs.{IsWide};
ghost use Rattle.mm_row_order.specs.Ends.{end_place};
ghost use Rattle.mm_partition.specs.Keys.{AreKeys};
ghost use Rattle.mm_row_order.specs.Keys.{AreKeys-prop};
ghost use Rattle.mm_partition.specs.Places.{slot_at};

use crate::in_column::place_in;
use mm_order::Probe;
use mm_partition::{ColumnKeys, Partitions};
use mm_value::{RowRef, ValueRef, order_prefix};
use std::cmp::Ordering;

/// An end of a range of values. Without an end, every row compares equal.
#[derive(Drop)]
pub struct AtEnd<'a> {
    pub rows: &'a Partitions,
    pub column: usize,
    pub key: usize,
    pub end: Option<ValueRef<'a>>,
    pub prefix: u64,
    pub values: ColumnKeys<'a>,
    ghost same: { ForSome end (λ value. prefix ≡ order_prefix (value_of value)) },
    ghost values_agree: { AreKeys column rows.now values } by { AreKeys-prop column rows.now values },
}

/// Returns the prefix of an end, or 0 if there is none.
pub fn prefix_of_end(end: Option<ValueRef<'_>>) -> u64
    ensures { ForSome end.entry (λ value. result ≡ order_prefix (value_of value)) }
{
    match end {
        Some(value) => order_prefix(&value),
        None => 0,
    }
}

impl<'a> Probe for AtEnd<'a> {
    ghost covers = { λ p. IsWide p.column p.key (slot_at p.rows.now) };

    ghost place_of = { λ p. end_place p.column (slot_at p.rows.now) (option_map value_of p.end) };

    #[inline(always)]
    fn place(&self, at: RowRef) -> Ordering {
        let rows = self.rows;
        let values = self.values;
        match self.end {
            None => Ordering::Equal,
            Some(end) => place_in(rows, self.column, values, at, end, self.prefix),
        }
    }
}
