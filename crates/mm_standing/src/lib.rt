//! The lists of standing queries: the rows of each query, stored as counts, and an undo log.
#![tactic(auto)]

mod bags;
mod change;
mod feeds;
mod listing;
mod prepare;
mod read_laws;
mod standing;
mod watched;
mod watching;

pub use read_laws::{
    irrelevant_rows_read_1_and_others_2, pairs_of_equal_numbers_read_6_or_8,
    triples_of_equal_numbers_read_27, unedited_tables_are_not_read,
};
pub use standing::Standing;
