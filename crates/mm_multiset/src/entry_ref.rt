//! References to the entries of bags.

use mm_value::RowRef;

/// A reference to an entry of a bag: the slot of its row, and the row's hash. It stays valid until the entry is removed.
#[derive(Clone, Copy, Debug)]
pub struct EntryRef {
    /// The slot of the row.
    pub slot: RowRef,
    /// The row's hash.
    pub hash: u64,
}
