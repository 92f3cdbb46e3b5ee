//! Foreign keys by position.

/// A foreign key: a column of one table whose values are keys of another. Tables are identified by their positions in the order of
/// creation, counted from 0.
#[derive(Clone, Copy, Debug, PartialEq, Eq)]
pub struct Reference {
    /// The position of the referring table.
    pub from: usize,
    /// The position of its column, counted from 0.
    pub column: usize,
    /// The position of the referenced table.
    pub to: usize,
}
