//! Errors that end a run.
ghost use Rattle.std.specs.Prelude.{◌≡◌};
ghost use Rattle.mmdb_core.specs.Status.{status_of};

use crate::limits::Totals;
use thiserror::Error;

/// The reason why a run ended before the end of its input.
#[derive(Clone, Copy, Debug, Error)]
pub enum RunError {
    /// The reader failed.
    #[error("the reader failed")]
    Read,
    /// The writer failed, or accepted 0 of some bytes.
    #[error("the writer failed")]
    Write,
    /// The input is longer than the limit of the run.
    #[error("the input is too long")]
    TooLong,
}

/// Returns the exit status of a program for the result of its run: 0 at the end of its input, 2 if the reader or the writer failed, 3 if
/// the input was too long.
pub fn exit_status(ended: &Result<Totals, RunError>) -> u8
    ensures { result ≡ status_of ended.now }
{
    match ended {
        Ok(_) => 0,
        Err(RunError::Read | RunError::Write) => 2,
        Err(RunError::TooLong) => 3,
    }
}
