//! Tests of the database, and of the calls that parse and bind its commands, with failed allocations: everything that a failed call could
//! have changed is as before, and the call succeeds when it is repeated.
//!
//! The tests have a crate of their own, since a crate with tests is proved twice.
#![tactic(auto)]

#[cfg(test)]
mod assertions;
#[cfg(test)]
mod cascades;
#[cfg(test)]
mod growths;
#[cfg(test)]
mod reads;
#[cfg(test)]
mod samples;
#[cfg(test)]
mod savepoints;
#[cfg(test)]
mod steps;
