//! The status that a call returns, as a byte.
ghost use Rattle.std.specs.Prelude.{◌≡◌, IfNone, IfSome};
ghost use Rattle.mm_session.specs.Replies.{reply_lent};
ghost use Rattle.mm_value.specs.Refusals.{refusal_number};
ghost use Rattle.mmdb_c.specs.Statuses.{status_of};
ghost use Rattle.mmdb_c.specs.Words.{AreWordsOf, IsNoRefusal, TellsWords};

use crate::copying::copy_front;
use mm_query::Reply;
use mm_session::LastReply;
use mm_value::Refusal;

/// The line is empty or a comment: there is no reply.
pub(crate) const NOTHING: u8 = 0;
/// The call succeeded, and its reply, if any, is "ok".
pub(crate) const DONE: u8 = 1;
/// The reply is a count of changed rows.
pub(crate) const COUNT: u8 = 2;
/// The reply has rows.
pub(crate) const ROWS: u8 = 3;
/// The reply is a text.
pub(crate) const TEXT: u8 = 4;
/// The least number of a refusal.
pub(crate) const FIRST_REFUSAL: u8 = 10;
/// The call was a misuse, and nothing changed.
pub(crate) const MISUSE: u8 = 100;

/// Returns the status of a reply: the number of its refusal, or one of the statuses above.
pub(crate) fn status_of(reply: &LastReply<'_>) -> u8
    ensures { result ≡ status_of (reply_lent reply.now) }
{
    match reply {
        LastReply::Nothing => NOTHING,
        LastReply::Rows(_) => ROWS,
        LastReply::Other(reply) => match reply {
            Reply::Done => DONE,
            Reply::Count(_) => COUNT,
            Reply::Rows(_) => ROWS,
            Reply::Steps(_) | Reply::Listing(_) => TEXT,
            Reply::Refused(refusal) => refusal.number(),
        },
    }
}

/// Returns the refusal with a number, or `None` if no refusal has it.
pub(crate) fn refusal_of(number: u8) -> Option<Refusal>
    ensures some { IfSome result (λ refusal. refusal_number refusal ≡ number) }
    ensures none { IfNone result (IsNoRefusal number) }
{
    let refusal = match number {
        10 => Refusal::LineTooLong,
        11 => Refusal::Syntax,
        12 => Refusal::NumberOutOfRange,
        13 => Refusal::TextTooLong,
        20 => Refusal::NoSuchTable,
        21 => Refusal::NoSuchColumn,
        22 => Refusal::NoSuchIndex,
        23 => Refusal::NoSuchStandingQuery,
        24 => Refusal::NameTaken,
        25 => Refusal::AliasTaken,
        26 => Refusal::NoSuchAlias,
        30 => Refusal::TypeMismatch,
        31 => Refusal::WrongNumberOfValues,
        32 => Refusal::ArithmeticOutOfRange,
        40 => Refusal::DuplicateKey,
        41 => Refusal::NoTargetRow,
        42 => Refusal::RowIsReferenced,
        43 => Refusal::InUse,
        45 => Refusal::TableFull,
        46 => Refusal::ResultTooLarge,
        47 => Refusal::StandingListTooLarge,
        48 => Refusal::TooMany,
        50 => Refusal::TransactionOpen,
        51 => Refusal::NoTransaction,
        52 => Refusal::NotInTransaction,
        53 => Refusal::NoSuchSavepoint,
        90 => Refusal::Memory,
        _ => return None,
    };
    Some(refusal)
}

/// Returns the words of a status: the text of the refusal with this number, "misuse", or no bytes.
fn words_of(status: u8) -> &'static [u8]
    ensures { AreWordsOf status result.now }
{
    match refusal_of(status) {
        Some(refusal) => refusal.text().as_bytes(),
        None if status == MISUSE => b"misuse",
        None => &[],
    }
}

/// Copies the words of a status, as many bytes as fit, and returns their full length: 0 if the status is neither a refusal nor misuse.
#[unsafe(no_mangle)]
pub extern "C" fn mmdb_words(status: u8, bytes: &mut [u8]) -> usize
    ensures { TellsWords status bytes.old bytes.new result }
{
    let words = words_of(status);
    copy_front(words, bytes);
    words.len()
}
