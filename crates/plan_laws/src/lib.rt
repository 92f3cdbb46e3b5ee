//! Laws of what plans read.
#![tactic(auto)]

mod prefixes;
mod reads;

pub use prefixes::prefixes_keep_first_bytes;
pub use reads::{
    foreign_keys_of_three_tables_read_30, joins_of_three_tables_read_23_to_46,
    texts_read_along_their_step,
};
