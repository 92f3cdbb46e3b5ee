//! The database behind the command language: the catalog, and the rows of its tables. Each change and each question is one step of the
//! machine of row lists, by its names or by its bound form.
//!
//! A call that may allocate receives the allocator; no other call allocates.
#![tactic(auto)]

mod answer;
mod bound;
mod cascades;
mod changes;
mod contents;
mod database;
mod definitions;
mod edits;
mod explain;
mod index_place;
mod listing;
mod question;
mod release_laws;
mod row_edits;
mod rows;
mod savepoints;
mod scanning;
mod select;
mod watching;

pub use answer::Answer;
pub use bound::ChangeToRun;
pub use database::Db;
pub use mm_store::StoredRows;
pub use mm_templist::ShownRows;
pub use question::is_question;
pub use release_laws::{
    a_released_name_means_the_earlier_savepoint, released_savepoints_leave_no_trace,
    releases_keep_types_and_standing_queries, releases_lead_to_no_other_states,
    rollbacks_after_a_release_restore_the_same_rows,
};
pub use rows::{RowReader, Rows};
