//! The command language: parsing a line, and the text of a reply.
#![tactic(auto)]

mod grammar;
mod read;
mod write;

pub use grammar::{grammar_is_exact, literals_are_in_written_order};
pub use mm_query::{Command, Reply};
pub use read::keyword::Keyword;
pub use read::places::{PlacedName, names_in, place_of_limit, place_of_syntax_error};
pub use read::reading::{MAX_LINE_BYTES, parse};
pub use read::template::{Template, holes_are_in_no_definition, prepare, templates_read_as_lines};
pub use read::token::{Symbol, Token, begins_word, blank_len, split_token, word_len};
pub use write::buffered_rows::write_buffered_rows;
pub use write::listing_text::{write_index, write_table_definition};
pub use write::query_text::write_query;
pub use write::reply_text::{
    definitions_are_listed_as_written, refusals_are_recognized, write_reply,
};
pub use write::row_line::{RowLines, write_row};
