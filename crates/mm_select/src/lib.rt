//! Selections: the rows of a table that satisfy atoms, as references or as a temporary list.
#![tactic(auto)]

mod access;
mod row_test;
mod selecting;

pub use access::Access;
pub use selecting::{select, select_refs};
