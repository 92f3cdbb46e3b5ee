//! The change of a standing query's rows when the rows of its tables change.
#![tactic(auto)]

mod asked_columns;
mod bag_change;
mod chosen;
mod coming_index;
mod counting;
mod edit_index;
mod edited;
mod indexed_changes;
mod known;
mod law;
mod look_up;
mod overlay;
mod read_laws;
mod rows;
mod skipped;
mod term;
mod unseen;
mod walk;
mod wanted;

pub use bag_change::delta;
pub use edit_index::references_of_gone;
pub use edited::{TableChange, row_gone};
pub use law::change_is_the_sum_of_its_terms;
pub use mm_multiset::Signed;
pub use read_laws::{
    each_edited_row_is_read_once, left_out_rows_are_not_combined, no_row_has_a_number_past_64_bits,
    rows_that_fail_have_no_candidates, rows_with_what_is_required_meet_the_atom,
    the_first_atom_that_requires_decides,
};
