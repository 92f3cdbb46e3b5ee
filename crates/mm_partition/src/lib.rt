//! Rows stored by column, with references that stay valid as long as the rows live.
//!
//! Every public function that may allocate has a parameter for the allocator.
#![tactic(auto)]

mod columns;
mod keys;
mod rows;
mod slots;
mod sweeps;
mod text_column;
mod trimming;
mod view;

pub use keys::ColumnKeys;
pub use rows::Partitions;
pub use slots::index_of;
pub use view::RowView;
