//! Executing lines.
ghost use Rattle.std.specs.List.{All};
ghost use Rattle.std.specs.Prelude.{◌≡◌, map};
ghost use Rattle.mm_reply.specs.Sinks.{Delivers, IsAnswerTo, defines};
ghost use Rattle.mm_session.specs.steps.Forms.{IsReady};
ghost use Rattle.mm_session.specs.steps.Places.{line_in};
ghost use Rattle.mm_session.specs.steps.Templates.{AreReady};

use crate::slots::forget_bound_forms;
use crate::statement::Statement;
use crate::templates::Templates;
use mm_lang::parse;
use mm_query::Command;
use mm_reply::{ReplySink, respond};
use mm_txn::Db;
use mm_value::Refusal;
use std::alloc::Global;

/// Executes a line, and passes the reply to a sink. If the line's template is kept, runs its bound form; reads any other line. Drops all
/// bound forms if the catalog may have changed.
pub(crate) fn execute_line<S: ReplySink>(
    alloc: Global,
    database: &mut Db,
    statements: &mut Vec<Option<Statement>>,
    templates: &mut Templates,
    line: &[u8],
    sink: &mut S,
) -> S::Taken
    requires can { S.can_take sink.old }
    requires statements { All (IsReady database.old.schema) statements.old.items }
    requires templates { AreReady database.old.schema templates.old }
    ensures delivers { Delivers S.takes sink.old sink.new result database.new (IsAnswerTo line.now database.old) }
    ensures statements { All (IsReady database.new.schema) statements.new.items }
    ensures templates { AreReady database.new.schema templates.new }
    ensures lines { map line_in statements.new.items ≡ map line_in statements.old.items }
{
    if let Some(number) = templates.find(alloc, database, line) {
        return templates.run(alloc, database, number, sink);
    }
    let read = parse(alloc, line);
    let is_definition = is_definition(&read);
    let taken = respond(alloc, database, read, sink);
    if is_definition {
        forget_bound_forms(statements);
        templates.forget();
    }
    taken
}

/// Returns whether a definition was read, which changes the catalog.
fn is_definition(read: &Result<Command<'_>, Refusal>) -> bool
    ensures { result ≡ defines read.now }
{
    matches!(read, Ok(Command::Define(_)))
}
