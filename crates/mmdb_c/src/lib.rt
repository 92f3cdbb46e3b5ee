//! The library for C: the functions that include/mmdb.h declares.
#![tactic(auto)]

mod block;
mod calls_laws;
mod cell;
mod column;
mod copying;
mod dumping;
mod handle;
mod kind;
mod laws;
mod library;
mod lines;
mod opening;
mod reading;
mod replies;
mod statements;
mod status;
mod version;

pub use calls_laws::{
    calls_of_c_are_calls_on_a_session, rows_of_cells_are_run_in_order, whole_rows_are_read,
};
pub use laws::{
    cells_are_those_of_the_header, columns_are_those_of_the_header, kinds_are_those_of_the_header,
    statuses_are_those_of_the_header, values_have_cells,
};
