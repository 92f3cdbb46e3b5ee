//! The text of a reply.

pub(crate) mod buffered_rows;
pub(crate) mod listing_text;
pub(crate) mod query_text;
pub(crate) mod reply_text;
pub(crate) mod row_line;
pub(crate) mod value_row;
