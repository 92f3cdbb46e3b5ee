//! The records of the log.
use crate::edit::Edit;

/// An edit of one table.
#[derive(Clone, Copy)]
pub struct LogRecord {
    pub table: u16,
    pub edit: Edit,
}
