//! Joins: each combination of a temporary list, with the rows of a further table that fit it.
#![tactic(auto)]

mod access_methods;
mod built;
mod column;
mod cursor;
mod entries;
mod inner;
mod join;
mod key;
mod laws;
mod look_up;

pub use join::Join;
pub use key::{JoinKey, Shift, join_key};
pub use laws::join_step;
