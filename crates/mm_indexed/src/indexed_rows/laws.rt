//! Properties of every table.
ghost use Rattle.mm_partition.specs.Places.{AreReferencesSmall, AreRowsStorable, slot_at};
ghost use Rattle.mm_indexed.specs.Kept.{IsKept};

use super::IndexedRows;

impl IndexedRows {
    /// Lemma: each row in use has the types of the columns, the references are those of the rows in use, in the order of the key, and
    /// each index contains exactly these references. The call does nothing.
    pub fn is_kept(&self)
        ensures { IsKept self.now.places.types self.now.key (slot_at self.now.places) self.now.refs self.now.indexes }
    {
        let _rows = &self.rows;
    }

    /// Lemma: the whole numbers in the rows have 64 bits, and the texts at most 64 bytes without a line feed. The call does nothing.
    pub fn are_storable(&self)
        ensures { AreRowsStorable self.now.places }
    {
        self.rows.are_storable();
    }

    /// Lemma: the slot of each reference to a row, in use or hidden, is below 2^32 - 1. The call does nothing.
    pub fn are_references_small(&self)
        ensures { AreReferencesSmall self.now.places }
    {
        self.rows.are_references_small();
    }
}
