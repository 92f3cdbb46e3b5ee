//! Positions of indexes.
use mm_schema::IndexKind;

/// The position of an index in the catalog.
#[derive(Clone, Copy)]
pub(crate) struct IndexPlace {
    /// The place of its table in the catalog, counted from 0.
    pub(crate) table: usize,
    /// The place of the index among those of the table.
    pub(crate) place: usize,
    /// The place of its column in the table.
    pub(crate) column: usize,
    /// The kind of the index.
    pub(crate) kind: IndexKind,
}
