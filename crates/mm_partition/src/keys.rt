//! Search keys of a column.

/// The search keys of a column: numbers that order most rows without reading them, one for each slot, by its index.
#[derive(Clone, Copy)]
pub enum ColumnKeys<'a> {
    /// The numbers of the column.
    Numbers(&'a [i64]),
    /// The prefixes of the column's texts: the `order_prefix` of each.
    Prefixes(&'a [u64]),
    /// No keys: the rows must be read.
    None,
}
