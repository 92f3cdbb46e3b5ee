//! Tests of the language and its meaning, from names to whole runs, for what no contract states.
//!
//! The tests have a crate of their own, since a crate with tests is proved twice.
#![tactic(auto)]

#[cfg(test)]
mod assertions;
#[cfg(test)]
mod places;
#[cfg(test)]
mod plain_results;
#[cfg(test)]
mod put_again;
#[cfg(test)]
mod readings;
#[cfg(test)]
mod replies;
#[cfg(test)]
mod runs;
#[cfg(test)]
mod samples;
#[cfg(test)]
mod templates;
