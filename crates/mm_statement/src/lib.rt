//! Commands with values in place of their holes, before and after binding.
#![tactic(auto)]

mod filler;
mod filling;
mod holes;
mod laws;
mod parts;
mod refiller;
mod refilling;
mod text_law;

pub use filling::fill;
pub use holes::Holes;
pub use laws::{
    alike_changes_bind_alike, alike_changes_have_the_same_refusals, alike_queries_are_placed_alike,
    alike_queries_have_the_same_refusals, commands_are_filled_in_one_way, placing_keeps_literals,
    refilled_changes_are_bound, refilled_queries_are_bound, values_come_in_written_order,
};
pub use refilling::{refill_delete, refill_query, refill_update, refilled_rows};
pub use text_law::{
    filled_lines_read_as_fillings, texts_read_as_values, texts_stand_in_written_order,
};
