//! Counts by slot, the dense set of the slots whose count is not 0, and the changes that a reader of the counts was not told.
#![tactic(auto)]

mod feed;
mod slot_change;
mod slot_counts;
mod slot_set;

pub use slot_change::SlotChange;
pub use slot_counts::{SlotCounts, changed};
pub use slot_set::SlotSet;
