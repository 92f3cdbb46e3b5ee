//! Freeing spare capacity.
ghost use Rattle.std.specs.Prelude.{◌≡◌, ◌≤◌};
ghost use Rattle.mm_partition.specs.Places.{extent_of, IsUnchanged};
ghost use Rattle.mm_indexed.specs.Index.{EachTurns, HasTrimmedRoom, Trimmed};
ghost use Rattle.mm_indexed.specs.Kept.{SameTable};

use super::IndexedRows;
use crate::indexes::trim_all;

/// This many free slots are kept in any table, so that a small one does not allocate at each change.
const FEW_SLOTS: usize = 64;

impl IndexedRows {
    /// Frees spare nodes of the tree on the key and of each TREE index until each has capacity for at most `n` more entries, or for up to
    /// four fewer. Frees capacity of a HASH index that is much larger than needed. Rows and entries stay.
    pub fn trim_spares(&mut self, n: usize)
        ensures rest { self.new ≡ record self.old { spare = self.new.spare; indexes = self.new.indexes } }
        ensures spare { HasTrimmedRoom n self.old.spare self.new.spare }
        ensures indexes { EachTurns (Trimmed n) self.old.indexes self.new.indexes }
    {
        self.by_key.trim_spares(n);
        trim_all(&mut self.indexes, n);
    }

    /// Drops the highest free slots, and frees capacity of the columns, if more than an eighth of the slots and 64 more are free. Fewer are
    /// not worth a pass over the columns. Rows and entries stay, but the capacity for rows may decrease.
    pub fn trim_slots(&mut self)
        ensures slots { IsUnchanged self.old.places self.new.places }
        ensures extent { extent_of self.new.places ≤ extent_of self.old.places }
        ensures table { SameTable 0 0 self.old self.new }
    {
        if self.rows.free_slots() > self.rows.extent() / 8 + FEW_SLOTS {
            self.rows.trim();
        }
    }
}
