//! The position of a number in the order of an index of numbers.
ghost use Rattle.mm_value.specs.declared.values.Value.TheVariants.{Int};
ghost use Rattle.mm_row_order.specs.Refs.{IsWide, place_by};
ghost use Rattle.mm_partition.specs.Keys.{AreNumbers};
ghost use Rattle.mm_partition.specs.Places.{slot_at};

use mm_order::Probe;
use mm_partition::{Partitions, index_of};
use mm_value::RowRef;
use std::cmp::Ordering;

/// The position of a number in the order by a column of numbers. Its contract is that of [`AtValue`](crate::at_value::AtValue), but it
/// reads no row.
#[derive(Drop)]
pub struct AtNumber<'a> {
    pub rows: &'a Partitions,
    pub column: usize,
    pub key: usize,
    pub sought: i64,
    /// The numbers of the column, one for each slot.
    pub values: &'a [i64],
    ghost values_agree: { AreNumbers column rows.now values.now },
}

impl<'a> Probe for AtNumber<'a> {
    ghost covers = { λ p. IsWide p.column p.key (slot_at p.rows.now) };

    ghost place_of = { λ p. place_by p.column (slot_at p.rows.now) (Int p.sought) };

    #[inline(always)]
    fn place(&self, at: RowRef) -> Ordering {
        self.values[index_of(at)].cmp(&self.sought)
    }
}
