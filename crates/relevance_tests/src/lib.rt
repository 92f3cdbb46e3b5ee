//! Tests of irrelevant rows and of the cycles that prove them irrelevant, on worked examples.
//!
//! The tests have a crate of their own, since a crate with tests is proved twice.
#![tactic(auto)]

#[cfg(test)]
mod assertions;
#[cfg(test)]
mod cycles;
#[cfg(test)]
mod growths;
#[cfg(test)]
mod samples;
