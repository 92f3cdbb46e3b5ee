//! References by hash: a multiset of pairs of a hash and a reference, in a table of modified linear hashing.
//!
//! The table grows and shrinks by one bucket at a time (linear hashing, Litwin, VLDB 1980), and each chain node holds one entry (modified
//! linear hashing, Lehman and Carey, VLDB 1986).
//!
//! Any call that may allocate has a parameter for the allocator. No other call allocates.
#![tactic(auto)]

mod chains;
mod directory;
mod hash_refs;
mod heads;
mod matching;
mod node;
mod place;

pub use hash_refs::HashRefs;
pub use matching::Matching;
