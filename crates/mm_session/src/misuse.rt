//! The errors of calls that take a statement's number.
use thiserror::Error;

/// Why a call that takes a statement's number did nothing. The session is unchanged.
#[derive(Clone, Copy, Debug, Drop, Error, PartialEq, Eq)]
pub enum Misuse {
    /// No statement has the number.
    #[error("no statement has this number")]
    NoSuchStatement,
    /// The statement has more or fewer holes than values were passed.
    #[error("the statement takes another number of values")]
    WrongNumberOfValues,
    /// The statement is neither a SELECT nor an EXPLAIN.
    #[error("the statement has no query")]
    NoPlan,
}

/// Why the columns of a statement were not returned.
#[derive(Clone, Copy, Debug, Drop, Error, PartialEq, Eq)]
pub enum ColumnsError {
    /// No statement has the number.
    #[error("no statement has this number")]
    NoSuchStatement,
    /// An allocation failed.
    #[error("an allocation failed")]
    Memory,
}
