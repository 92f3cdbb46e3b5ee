//! A run of the database over an input.
ghost use Rattle.std.specs.Prelude.{◌≡◌, ◌↔◌, false, true, IfOk, IfErr, IsErrOf};
ghost use Rattle.mm_lang.specs.Lines.{without_return};
ghost use Rattle.mm_value.specs.Watched.{inner_of, has_failed};
ghost use Rattle.mmdb_core.specs.steps.Respond.{GoesOn, goes_on_of};
ghost use Rattle.mmdb_core.specs.Run.{BrokeOff, ReachedEnd, TakesWithin};

use crate::input::{Input, Next};
use crate::limits::{Limits, Totals};
use crate::run_error::RunError;
use mm_query::Reply;
use mm_reply::ReplySink;
use mm_session::Session;
use mm_value::{Refusal, Watched, WriteError};
use std::alloc::Global;
use std::io::{Read, Write};

/// Reads commands from the reader, one per line, and writes their replies, each flushed as soon as it is written.
///
/// Returns `Ok` at the end of the input. The bytes written are then the replies of the machine of row lists to the lines of an input, in
/// order, and nothing else. A line that may allocate may instead get the reply `error 90 memory`, and then changes nothing. `ROLLBACK`
/// allocates nothing, so in a transaction it is never refused. The totals count the lines of this input and the `error` replies. The input
/// has no more bytes than the limit. If the remaining bytes of the reader are known, the input is all of them. For a reader that does not
/// reveal its bytes, such as standard input, the contract does not say that this input came from it. At most one byte more than the limit
/// is read.
///
/// Fails with `Read` if the reader fails, with `Write` if the writer fails or accepts 0 of some bytes, and with `TooLong` if the reader
/// returns more bytes than the limit. Before `Read` and `TooLong`, exactly the replies to the lines within the limit that end with a line
/// feed are written. Before `Write`, a prefix of the replies to the lines that the reader returned is written. An interrupted call of a
/// device is repeated up to 16 times in a row.
pub fn run<R: Read, W: Write>(
    alloc: Global,
    reader: &mut Watched<R>,
    writer: &mut Watched<W>,
    limits: Limits,
) -> Result<Totals, RunError>
    requires reader { has_failed reader.old ≡ false }
    requires writer { has_failed writer.old ≡ false }

    // The row-list theorem.
    ensures answers { IfOk result (ReachedEnd R.remaining reader.old reader.new limits
        (W.contents (inner_of writer.old)) (W.contents (inner_of writer.new))) }

    // How much was read, and when the input was too long.
    ensures taken { TakesWithin R.remaining reader.old reader.new limits
        (IsErrOf result RunError.TooLong) (has_failed writer.new ≡ false) }

    ensures read { IsErrOf result RunError.Read → has_failed reader.new ≡ true }
    ensures write { IsErrOf result RunError.Write ↔ (has_failed writer.new ≡ true) }

    // What was written if the run ended early.
    ensures broke_off { IfErr result (BrokeOff R.remaining reader.old reader.new limits
        (W.contents (inner_of writer.old)) (W.contents (inner_of writer.new))) }
{
    let mut session = Session::new(alloc);
    let mut input = Input::new(limits);
    let mut totals = Totals {
        lines: 0,
        refused: 0,
    };
    while let Some(is_refused) = answer_next(alloc, &mut input, reader, &mut session, writer)? {
        totals.lines += 1;
        totals.refused += u64::from(is_refused);
    }
    Ok(totals)
}

/// Executes the next line and writes its reply. Returns whether the reply is an `error`, or `None` at the end of the input.
fn answer_next<R: Read, W: Write>(
    alloc: Global,
    input: &mut Input,
    reader: &mut Watched<R>,
    session: &mut Session,
    writer: &mut Watched<W>,
) -> Result<Option<bool>, RunError>
    requires { has_failed writer.old ≡ false }
    ensures { GoesOn R.remaining W.contents reader.old reader.new input.old input.new session.old.state session.new.state
        writer.old writer.new result }
{
    match input.next(reader)? {
        Next::End => Ok(None),
        Next::Long => going_on(writer.take(Some(Reply::Refused(Refusal::LineTooLong)))),
        Next::Line { len, step } => {
            let line = without_return(&input.taken()[..len]);
            let answered = session.execute_to(alloc, line, writer);
            input.skip(step);
            going_on(answered)
        }
    }
}

/// Returns how a run continues after the reply to a line.
fn going_on(answered: Result<bool, WriteError>) -> Result<Option<bool>, RunError>
    ensures { result ≡ goes_on_of answered }
{
    match answered {
        Ok(is_refused) => Ok(Some(is_refused)),
        Err(_) => Err(RunError::Write),
    }
}

/// Returns a line without the carriage return at its end.
fn without_return(line: &[u8]) -> &[u8]
    ensures { result.now ≡ without_return line.now }
{
    let Some((last, front)) = line.split_last() else {
        return line;
    };
    if *last == b'\r' { front } else { line }
}
