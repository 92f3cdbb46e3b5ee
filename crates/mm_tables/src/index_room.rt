//! Capacity of the indexes of a table.

/// Capacity for entries in the index on the key, and in each further index.
#[derive(Clone, Copy)]
pub struct IndexRoom {
    pub key: usize,
    pub indexes: usize,
}
