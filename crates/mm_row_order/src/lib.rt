//! References to the rows of one table in the order of a column: comparisons, searches, ranges and sorting.
#![tactic(auto)]

mod at_end;
mod at_number;
mod at_value;
mod by_column;
mod by_numbers;
mod in_column;
mod sort_value;
mod sorting;
mod tree_reads;

pub use at_number::AtNumber;
pub use at_value::AtValue;
pub use by_column::ByColumn;
pub use by_numbers::{ByNumbers, NumberKeys, number_keys};
pub use in_column::compare_in;
pub use sorting::sorted_refs;
pub use tree_reads::{Ends, copy_range, copy_refs, find_along};
