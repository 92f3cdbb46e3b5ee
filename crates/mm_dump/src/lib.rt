//! A dump: a script that restores a database.
#![tactic(auto)]

mod definition_lines;
mod insert_lines;
mod laws;
mod open_line;
mod parts;
mod pieces;
mod place;
mod row_lines;

pub use definition_lines::{write_index, write_table, write_watch};
pub use insert_lines::InsertLines;
pub use laws::{
    dumped_lines_restore, dumped_scripts_restore, dumps_restore, entries_fit_lines,
    entries_read_as_commands, lines_read_as_writable_commands, pieces_are_the_dump, pieces_restore,
    printable_states_have_printable_dumps, rows_are_put_in_lines, watch_lines_are_shortest,
    writable_commands_lead_to_writable_states, written_bytes_are_a_dump, written_dumps_restore,
};
pub use pieces::{DumpSource, add_piece};
pub use place::DumpPlace;
pub use row_lines::{RowReader, add_row_lines};
