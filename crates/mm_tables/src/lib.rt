//! The rows of all tables, with one log of the edits of a transaction.
#![tactic(auto)]

mod bulk;
mod edit;
mod index_room;
mod log_record;
mod logged_table;
mod steps;
mod tables;
mod trims;
mod twins;

pub use edit::Edit;
pub use index_room::IndexRoom;
pub use log_record::LogRecord;
pub use tables::Tables;
