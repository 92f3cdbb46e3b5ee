//! Changes of counts.

use mm_value::Row;

/// A row, and by how much its count changes.
#[derive(Debug, Drop)]
pub struct Signed {
    pub row: Row,
    /// The change of its count.
    pub count: i128,
}
