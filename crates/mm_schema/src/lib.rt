//! The catalog: names, columns, tables and indexes; and the definition of a change of a table's rows.
#![tactic(auto)]

mod catalog;
mod column;
mod index;
mod laws;
mod name;
mod reference;
mod standing;
mod table;

pub use catalog::{Catalog, MAX_COLUMNS, MAX_INDEXES, MAX_ROWS, MAX_STANDING, MAX_TABLES};
pub use column::{Column, Columns, OnDelete, Role};
pub use index::{IndexDef, IndexId, IndexKind, Indexes};
pub use laws::{
    changes_are_exact, in_order_sorts, references_have_targets, standing_queries_read_tables,
    tables_refer_to_others,
};
pub use name::{Name, NameRef};
pub use reference::Reference;
pub use standing::{StandingDef, TableNames};
pub use table::{Table, TableDef};
