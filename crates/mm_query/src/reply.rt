//! Replies.
use crate::item_list::ItemList;
use crate::listing::Listing;
use crate::plan_line::PlanLine;
use crate::row_list::RowList;
use mm_value::Refusal;

/// The reply to a command.
#[derive(Debug, Drop)]
pub enum Reply {
    /// The command succeeded.
    Done,
    /// The command succeeded, and inserted, updated or deleted this many rows.
    Count(usize),
    /// Rows, in order.
    Rows(RowList),
    /// The lines of a plan, in order.
    Steps(ItemList<PlanLine>),
    /// The tables with their indexes, and the standing queries.
    Listing(Listing),
    /// The command was refused, and changed nothing.
    Refused(Refusal),
}
