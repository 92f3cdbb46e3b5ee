//! The nodes of a T-tree, each in an allocation of its own, and a pool of free nodes.
#![tactic(auto)]

mod entries;
mod nodes;
mod owned;
mod paths;
mod pool;
mod slides;
mod turns;

pub use entries::{Entries, EntryIter};
pub use nodes::{Node, Subtree};
pub use pool::Spares;
pub use slides::Side;
