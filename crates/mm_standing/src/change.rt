//! Changes of the rows of lists.

use mm_delta::Signed;
use mm_multiset::EntryRef;

/// The change of a row's count in one list, as it is computed.
#[derive(Debug, Drop)]
pub struct RowChange {
    /// The place of the list.
    pub list: usize,
    /// The row and the change of its count.
    pub change: Signed,
}

/// The change of the count of an entry of one list, as it is prepared and then logged.
#[derive(Clone, Copy, Debug)]
pub struct ListChange {
    /// The place of the list.
    pub list: usize,
    /// The entry of the row.
    pub entry: EntryRef,
    /// The change of its count.
    pub by: i64,
    /// Whether the entry was inserted for this change.
    pub is_new: bool,
}
