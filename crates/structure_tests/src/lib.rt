//! Tests of values, orders, partitions, foreign keys, T-trees and hash tables, for what no contract states.
//!
//! The tests have a crate of their own, since a crate with tests is proved twice.
#![tactic(auto)]

#[cfg(test)]
mod assertions;
#[cfg(test)]
mod devices;
#[cfg(test)]
mod foreign_keys;
#[cfg(test)]
mod growths;
#[cfg(test)]
mod hash_tables;
#[cfg(test)]
mod literals;
#[cfg(test)]
mod orders;
#[cfg(test)]
mod partitions;
#[cfg(test)]
mod printed_rows;
#[cfg(test)]
mod references;
#[cfg(test)]
mod samples;
#[cfg(test)]
mod tree_nodes;
#[cfg(test)]
mod trees;
#[cfg(test)]
mod values;
