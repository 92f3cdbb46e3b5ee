//! Rows that cannot affect the result of a query, and the cycles of inequalities that prove it.
#![tactic(auto)]

mod check;
mod cycle;
mod edge;
mod law;
mod relaxation;
mod relevance;
mod search;
mod term;
mod texts;

pub use check::check_cycle;
pub use cycle::{Cycle, CycleEdge};
pub use law::{cyclic_is_irrelevant, cyclic_rows_add_nothing, edges_say_what_atoms_say};
pub use relevance::irrelevant;
