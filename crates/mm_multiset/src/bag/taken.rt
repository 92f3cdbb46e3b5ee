//! Changes that are told.

use mm_value::RowRef;

/// The change of the number of one row since it was last told.
#[derive(Clone, Copy, Debug)]
pub struct Taken {
    /// The slot of the row.
    pub at: RowRef,
    /// The number now minus the one that was last told. It is not 0.
    pub by: i64,
}
