//! The rows of all tables: read by references, in the order of their keys and along further indexes, and changed by edits of references to
//! staged rows.
//!
//! A call that may allocate receives the allocator; no other call allocates.
#![tactic(auto)]

mod index_ref;
mod store;
mod table_rows;
mod view;

pub use index_ref::IndexRef;
pub use store::Store;
pub use table_rows::{StoredRows, TableRows};
pub use view::View;
