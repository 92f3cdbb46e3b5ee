//! Base tables: the rows of all tables as lists in key order, with one log of the edits of a transaction.
#![tactic(auto)]

mod base_tables;
mod commands;
mod links;
mod orphans;
mod whole;

pub use base_tables::BaseTables;
