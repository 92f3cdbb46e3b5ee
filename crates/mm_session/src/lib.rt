//! Sessions: a database in a program's own process, with lines of the language and prepared statements. Each call is a step of the machine
//! of row lists.
//!
//! Any call that may allocate has a parameter for the allocator. No other call allocates.
#![tactic(auto)]

mod appending;
mod bound_form;
mod calls_law;
mod column_array;
mod columns;
mod columns_law;
mod definition;
mod dumping;
mod early_form;
mod lines;
mod loading;
mod misuse;
mod reading;
mod refilling;
mod refused_place;
mod replies;
mod running;
mod script;
mod session;
mod slots;
mod statement;
mod statement_kind;
mod template_hash;
mod template_set;
mod template_slots;
mod templates;

pub use calls_law::{
    appends_answer_as_their_lines, calls_lead_to_states_of_commands, loads_execute_lines,
    parameters_are_the_holes_of_a_line, rows_of_calls_have_the_types_of_columns,
    statements_answer_as_their_lines,
};
pub use column_array::{ColumnArray, NotColumns};
pub use columns_law::{
    columns_have_the_names_of_fields, rows_have_the_types_of_columns,
    scans_have_the_columns_of_their_table, standing_queries_keep_their_columns,
};
pub use definition::DefinitionKind;
pub use loading::LoadError;
pub use misuse::{ColumnsError, Misuse};
pub use mm_dump::DumpPlace;
pub use replies::LastReply;
pub use session::Session;
pub use statement_kind::StatementKind;
