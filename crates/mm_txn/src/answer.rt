//! Answers to questions.
use crate::rows::Rows;
use mm_query::{ItemList, Listing, PlanLine};
use mm_value::Refusal;

/// The answer to a question. Rows are borrowed from the database.
#[derive(Drop)]
pub enum Answer<'a> {
    /// These rows, in this order.
    Rows(Rows<'a>),
    /// These lines of a plan, in this order.
    Steps(ItemList<PlanLine>),
    /// The tables with their indexes, and the standing queries.
    Listing(Listing),
    /// The refusal of the question.
    Refused(Refusal),
}
