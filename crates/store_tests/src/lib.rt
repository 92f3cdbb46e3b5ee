//! Tests of the store, for what no contract states.
//!
//! The tests have a crate of their own, since a crate with tests is proved twice. Tests of the crates above stage rows by the same calls.
#![tactic(auto)]

#[cfg(test)]
mod assertions;
#[cfg(test)]
mod growths;
pub mod row_edits;
#[cfg(test)]
mod stores;
#[cfg(test)]
mod views;
