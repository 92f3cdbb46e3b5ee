//! The rows of one table in slots, with the index on their key and any further indexes, changed one slot at a time.
#![tactic(auto)]

mod exchange;
mod found_refs;
mod indexed_rows;
mod indexes;
mod moves;
mod twins;

pub use exchange::Exchange;
pub use found_refs::FoundRefs;
pub use indexed_rows::IndexedRows;
pub use indexes::index::Index;
