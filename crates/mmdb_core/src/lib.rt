//! Runs of the command language: a script is read line by line, and each line gets its reply.
#![tactic(auto)]

mod input;
mod laws;
mod limits;
mod run_error;
mod run_script;
mod window;

pub use laws::{
    answers_follow_the_choice, commands_take_memory, rollback_is_never_refused,
    runs_answer_the_whole_input, runs_take_within_their_limit,
};
pub use limits::{Limits, MAX_MAX_INPUT, Totals};
pub use run_error::{RunError, exit_status};
pub use run_script::run;
