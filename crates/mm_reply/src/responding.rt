//! Commands that are executed by their readings.
ghost use Rattle.std.specs.Prelude.{◌≡◌, ◌⊎◌, Ok, Some, false};
ghost use Rattle.mm_lang.specs.Answering.{MayLeadTo};
ghost use Rattle.mm_query.specs.declared.reply.Reply.TheVariants.{Refused};
ghost use Rattle.mm_reply.specs.Sinks.{Delivers, defines};
ghost use Rattle.mm_txn.specs.Answers.{reply_of};
ghost use Rattle.mm_value.specs.declared.refusal.Refusal.TheVariants.{Memory};

use crate::sink::ReplySink;
use mm_query::{Command, Reply};
use mm_txn::{Answer, Db, is_question};
use mm_value::Refusal;
use std::alloc::Global;

/// Executes a command, if there is one, and passes the reply or the refusal to a sink. Only a definition changes the catalog.
pub fn respond<S: ReplySink>(
    alloc: Global,
    database: &mut Db,
    read: Result<Command<'_>, Refusal>,
    sink: &mut S,
) -> S::Taken
    requires { S.can_take sink.old }
    ensures delivers { Delivers S.takes sink.old sink.new result database.new (MayLeadTo read.entry database.old) }
    ensures schema { defines read.entry ≡ false → database.new.schema ≡ database.old.schema }
{
    match read {
        Ok(command) => execute(alloc, database, command, sink),
        Err(refusal) => sink.take(Some(Reply::Refused(refusal))),
    }
}

/// Executes a command, and passes its reply, if it has one, to a sink.
fn execute<S: ReplySink>(
    alloc: Global,
    database: &mut Db,
    command: Command<'_>,
    sink: &mut S,
) -> S::Taken
    requires { S.can_take sink.old }
    ensures { Delivers S.takes sink.old sink.new result database.new (MayLeadTo (Ok command.entry) database.old) }
{
    let mut reads = 0;
    if is_question(&command) {
        return take_answer(alloc, database.ask(alloc, command, &mut reads), sink);
    }
    sink.take(database.execute(alloc, command, &mut reads))
}

/// Passes the answer of a question to a sink. The reply is `Memory` if an allocation for its rows fails.
fn take_answer<S: ReplySink>(alloc: Global, answer: Answer<'_>, sink: &mut S) -> S::Taken
    requires { S.can_take sink.old }
    ensures { S.takes sink.old sink.new (Some (reply_of answer.entry)) result ⊎ S.takes sink.old sink.new (Some (Refused Memory)) result }
{
    match answer {
        Answer::Rows(rows) => sink.take_rows(alloc, &rows),
        Answer::Steps(lines) => sink.take(Some(Reply::Steps(lines))),
        Answer::Listing(listing) => sink.take(Some(Reply::Listing(listing))),
        Answer::Refused(refusal) => sink.take(Some(Reply::Refused(refusal))),
    }
}
