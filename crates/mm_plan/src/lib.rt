//! Query plans: a step for each table of a query, chosen by fixed rules (Lehman and Carey, SIGMOD 1986). The crate also executes the steps,
//! and names them for EXPLAIN.
//!
//! Every public function that may allocate has a parameter for the allocator.
#![tactic(auto)]

mod beginning;
mod caps;
mod choosing;
mod ends;
mod explaining;
mod finding;
mod keys;
mod laws;
mod naming;
mod next_table;
mod read_laws;
mod run;
mod step;

pub use choosing::plan_steps;
pub use explaining::{explain, have_one_key};
pub use finding::{find_rows, in_key_order};
pub use laws::{
    join_equalities_ask_for_earlier_values, nested_loops_are_for_no_join_equality,
    steps_by_names_are_the_plan,
};
pub use read_laws::{
    foreign_keys_of_four_rows_read_12, joins_of_three_rows_and_four_read_10_to_18,
    queries_of_one_table_read_along_their_step, selections_of_four_rows_read_0_to_4,
};
pub use run::{run_plan, run_query};
pub use step::Step;
