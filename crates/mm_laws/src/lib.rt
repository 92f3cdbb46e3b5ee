//! Laws of the machine of row lists: what holds in every state that commands lead to, and what commands do together. They show that the
//! definitions have the intended meaning. No code calls them; proofs of the crates above use some of their lemmas.
#![tactic(auto)]

mod cascade_laws;
mod command_laws;
mod laws;
mod plan_laws;
mod query_laws;
mod refusal_laws;
mod standing_laws;
mod typing_laws;

pub use cascade_laws::{cascades_leave_none_behind, cascades_take_no_others};
pub use command_laws::{
    changes_and_questions_are_done_alike, changes_and_questions_leave_a_savepoint,
    four_commands_are_done_without_memory, three_commands_control_transactions,
    transactions_are_begun_divided_and_ended, transactions_are_open_from_begin_to_end,
    two_definitions_are_of_indexes,
};
pub use laws::{
    commit_keeps_the_rows, conditions_ascend, rollback_restores_the_rows_at_begin,
    rollback_to_restores_the_rows_at_its_savepoint, rows_keep_their_targets,
    rows_stay_in_key_order, transactions_do_what_commands_do, transactions_stand_alone,
};
pub use plan_laws::plans_go_along_from;
pub use query_laws::{
    combinations_are_counted, distinct_keeps_one_of_each, query_conditions_ascend,
    shown_rows_are_sorted,
};
pub use refusal_laws::{first_refusals_are_answered, ranks_ascend_along_the_one_order};
pub use standing_laws::{
    standing_queries_are_shown, standing_queries_stay_bound, standing_queries_stay_within_limit,
};
pub use typing_laws::{bound_queries_add_to_numbers, types_are_kept};
