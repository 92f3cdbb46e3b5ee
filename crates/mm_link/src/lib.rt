//! One foreign key: each row in use of a table is tied to the row of another table whose key is its value.
#![tactic(auto)]

mod link;

pub use link::Link;
