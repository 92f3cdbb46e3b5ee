//! A foreign key with its ties.
ghost use Rattle.std.specs.Prelude.{◌≡◌, ◌≤◌, None, IfOk, OnOk};
ghost use Rattle.mm_foreign_key.specs.Ties.{target_at};
ghost use Rattle.mm_value.specs.declared.row_ref.RowRef.{RowRef as Ref};
ghost use Rattle.mm_link.specs.Grown.{HasGrown, HasGrownTo, HasMovedUp};

mod checks;
mod edited;
mod laws;

use mm_foreign_key::ForeignKey;
use mm_schema::Reference;
use std::alloc::{AllocError, Global};

/// A foreign key, and for each row in use of its table the row of the target table that has its value as key. Callers pass the rows of both
/// tables to each call.
#[derive(Drop)]
pub struct Link {
    /// The foreign key: the two tables and the column.
    pub reference: Reference,
    pub(crate) ties: ForeignKey,
}

impl Link {
    /// Returns a link without ties, with a count for each of `targets` slots of the target table. `AllocError` if an allocation fails.
    pub fn new(alloc: Global, reference: Reference, targets: usize) -> Result<Link, AllocError>
        ensures reference { IfOk result (λ link. link.reference ≡ reference) }
        ensures untied { IfOk result (λ link. (at : Ref) → target_at link.ties at ≡ None) }
        ensures targets { IfOk result (λ link. targets ≤ link.ties.extent) }
    {
        let mut ties = ForeignKey::new(alloc);
        ties.reserve(alloc, 0, targets)?;
        Ok(Link { reference, ties })
    }

    /// Decreases the place of each of the two tables by one if it is greater than that of a dropped table.
    pub fn move_up(&mut self, gone: usize)
        ensures { HasMovedUp gone self.old self.new }
    {
        if self.reference.from > gone {
            self.reference.from -= 1;
        }
        if self.reference.to > gone {
            self.reference.to -= 1;
        }
    }

    /// Reserves entries and counts for `extent` slots of a table, on the sides of the link that are this table. `AllocError` if an
    /// allocation fails, or if the number is above 2^32 - 1 and there are fewer. Each slot is tied as before.
    pub fn reserve(&mut self, alloc: Global, table: usize, extent: usize) -> Result<(), AllocError>
        ensures ok { OnOk result (HasGrownTo table extent self.new) }
        ensures grown { HasGrown self.old self.new }
    {
        let referrers = if self.reference.from == table {
            extent
        } else {
            0
        };
        let targets = if self.reference.to == table {
            extent
        } else {
            0
        };
        self.ties.reserve(alloc, referrers, targets)
    }
}
