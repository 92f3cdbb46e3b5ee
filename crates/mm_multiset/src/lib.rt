//! Multisets of rows, stored as counts (the multiplicity counters of Blakeley, Larson and Tompa, SIGMOD 1986), and changes of counts.
#![tactic(auto)]

mod bag;
mod counted;
mod differing;
mod entry_ref;
mod feed_law;
mod few;
mod opposites;
mod signed;
mod tally;

pub use bag::{Bag, BagEntries, Taken};
pub use entry_ref::EntryRef;
pub use feed_law::told_changes_add_up;
pub use opposites::counts_are_undone;
pub use signed::Signed;
pub use tally::{Tally, net_changes};
