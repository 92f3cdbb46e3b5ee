//! Ordered lists of row references, under any total order.
//!
//! Every public function that may allocate has a parameter for the allocator.
#![tactic(auto)]

mod ordered_refs;
mod probes;
mod ref_order;
mod search;
mod seeks;
mod sorted_refs;

pub use ordered_refs::OrderedRefs;
pub use probes::{AtReference, Probe};
pub use ref_order::RefOrder;
pub use seeks::Seek;
pub use sorted_refs::SortedRefs;
