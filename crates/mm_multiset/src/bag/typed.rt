//! Types of rows.
ghost use Rattle.std.specs.Bool.{Decides};
ghost use Rattle.mm_partition.specs.Types.{HasTypes};

use crate::bag::Bag;
use mm_value::Row;

impl Bag {
    /// Returns whether a row has the types of the columns.
    pub fn takes(&self, row: &Row) -> bool
        ensures { Decides result (HasTypes self.now.types row.now) }
    {
        let width = row.len();
        if self.rows.width() != width {
            return false;
        }
        for i in 0..width {
            if row.value(i).col_type() != self.rows.column_type(i) {
                return false;
            }
        }
        true
    }
}
