//! The tuple pointers of one foreign key: the row that each row refers to, and whether some row refers to a row.
//!
//! Every public function that may allocate has a parameter for the allocator.
#![tactic(auto)]

mod foreign_key;
mod slots;

pub use foreign_key::ForeignKey;
