//! Tests of result lists, selections, joins and plans for what no contract states, such as the number of rows read.
//!
//! The tests have a crate of their own, since a crate with tests is proved twice.
#![tactic(auto)]

#[cfg(test)]
mod assertions;
#[cfg(test)]
mod atoms;
#[cfg(test)]
mod growths;
#[cfg(test)]
mod joins;
#[cfg(test)]
mod plan_runs;
#[cfg(test)]
mod result_lists;
#[cfg(test)]
mod samples;
#[cfg(test)]
mod selections;
