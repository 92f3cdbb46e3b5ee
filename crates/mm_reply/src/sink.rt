//! Destinations of replies.
ghost use Rattle.std.specs.Prelude.{◌⊎◌, Ok, Option, Some};
ghost use Rattle.mm_lang.specs.Answering.{MayLeadTo};
ghost use Rattle.mm_query.specs.declared.command.Command.TheVariants.{Select};
ghost use Rattle.mm_query.specs.declared.query.Query.{Query as AnyQuery};
ghost use Rattle.mm_query.specs.declared.reply.Reply.{Reply as AnyReply};
ghost use Rattle.mm_query.specs.declared.reply.Reply.TheVariants.{Refused, Rows as RowReply};
ghost use Rattle.mm_reply.specs.Sinks.{Delivers};
ghost use Rattle.mm_txn.specs.Bound.{IsBoundQuery};
ghost use Rattle.mm_value.specs.declared.refusal.Refusal.TheVariants.{Memory};

use mm_query::{Bound, Reply};
use mm_txn::{Db, Rows};
use std::alloc::Global;

/// A destination of replies.
pub trait ReplySink {
    /// The result of taking a reply.
    type Taken;

    /// The condition under which the sink can take a reply.
    ghost can_take: { Self → Type 0 };

    /// The sink, before and after the call, took the reply of a command, if the command has one.
    ghost takes: { Self → Self → Option AnyReply → Self.Taken → Type 0 };

    /// Takes the reply of a command, `None` if the command has none.
    fn take(&mut self, reply: Option<Reply>) -> Self::Taken
        requires { can_take self.old }
        ensures { takes self.old self.new reply result };

    /// Takes stored rows without a copy. Takes the refusal `Memory` instead if an allocation fails.
    fn take_rows(&mut self, alloc: Global, rows: &Rows<'_>) -> Self::Taken
        requires { can_take self.old }
        ensures { takes self.old self.new (Some (RowReply rows.now)) result ⊎ takes self.old self.new (Some (Refused Memory)) result };

    /// Runs a bound query, and takes its rows or its refusal.
    fn take_selected(&mut self, alloc: Global, database: &Db, bound: &Bound) -> Self::Taken
        requires can { can_take self.old }
        requires bound { (query : AnyQuery) × IsBoundQuery database.now.schema query bound.now }
        ensures { (query : AnyQuery) → IsBoundQuery database.now.schema query bound.now
            → Delivers takes self.old self.new result database.now (MayLeadTo (Ok (Select query)) database.now) };
}
