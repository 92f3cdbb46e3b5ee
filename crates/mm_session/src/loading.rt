//! Executing scripts.
ghost use Rattle.std.specs.Prelude.{◌≡◌};
ghost use Rattle.mm_session.specs.Loading.{refusal_in};
ghost use Rattle.mm_session.specs.Replies.{reply_lent};

use crate::replies::LastReply;
use mm_query::Reply;
use mm_value::Refusal;
use thiserror::Error;

/// A line of a script was refused. The lines before it stay executed.
#[derive(Clone, Copy, Debug, Drop, Error)]
#[error("a line of a script was refused")]
pub struct LoadError {
    /// The number of lines before the refused one.
    pub lines: usize,
    /// The refusal.
    pub refusal: Refusal,
}

/// Returns the refusal in a reply, if the reply is one.
pub(crate) fn refusal_in(reply: &LastReply<'_>) -> Option<Refusal>
    ensures { result ≡ refusal_in (reply_lent reply.now) }
{
    match reply {
        LastReply::Other(Reply::Refused(refusal)) => Some(*refusal),
        _ => None,
    }
}
