//! T-trees: ordered references in a balanced tree of nodes of up to 16.
#![tactic(auto)]

mod balance;
mod builds;
mod in_place;
mod inserts;
mod iters;
mod look_up;
mod ranges;
mod removes;
mod search;
mod tree;

pub use iters::Iter;
pub use tree::TTree;
