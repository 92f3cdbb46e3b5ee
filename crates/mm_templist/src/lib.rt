//! Temporary lists: combinations of references to rows. No row is copied before the result (Lehman and Carey, SIGMOD 1986).
//!
//! Every public function that may allocate has a parameter for the allocator, except `TempList::push`, which uses that of the list.
#![tactic(auto)]

mod results;
mod row_order;
mod shown;
mod temp_list;

pub use mm_indexed::FoundRefs;
pub use shown::ShownRows;
pub use temp_list::{Descriptor, TempList};
