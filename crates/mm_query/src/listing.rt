//! Listings of a catalog.
use crate::item_list::ItemList;
use mm_schema::{Name, Table};

/// A table and its number of rows.
#[derive(Debug, Drop)]
pub struct ListedTable {
    /// The table: its definition, and its indexes in order of creation.
    pub table: Table,
    /// The number of its rows.
    pub rows: usize,
}

/// The name of a standing query, and its number of rows.
#[derive(Debug, Drop)]
pub struct ListedQuery {
    /// The name.
    pub name: Name,
    /// The number of its rows. With DISTINCT, equal rows count once.
    pub rows: usize,
}

/// All tables and all standing queries, each in order of creation.
#[derive(Debug, Drop)]
pub struct Listing {
    /// The tables.
    pub tables: ItemList<ListedTable>,
    /// The standing queries.
    pub standing: ItemList<ListedQuery>,
}
