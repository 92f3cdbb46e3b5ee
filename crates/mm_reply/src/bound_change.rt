//! Changes of rows that run from their bound forms.
ghost use Rattle.std.specs.Prelude.{◌≡◌, Ok};
ghost use Rattle.mm_lang.specs.Answering.{MayLeadTo};
ghost use Rattle.mm_query.specs.declared.command.Command.TheVariants.{Change as ChangeCommand};
ghost use Rattle.mm_query.specs.declared.command.Mutation.{Mutation as AnyMutation};
ghost use Rattle.mm_reply.specs.Sinks.{Delivers};
ghost use Rattle.mm_txn.specs.Bound.{IsBoundChange, bound_of};

use crate::sink::ReplySink;
use mm_txn::{ChangeToRun, Db};
use std::alloc::Global;

/// Makes a change of rows by its bound form, and passes its reply to a sink. The catalog is unchanged.
pub fn run_bound_change<S: ReplySink>(
    alloc: Global,
    database: &mut Db,
    change: ChangeToRun<'_>,
    sink: &mut S,
) -> S::Taken
    requires can { S.can_take sink.old }
    requires bound { (mutation : AnyMutation) × IsBoundChange database.old.schema mutation (bound_of change) }
    ensures delivers { (mutation : AnyMutation) → IsBoundChange database.old.schema mutation (bound_of change.entry)
        → Delivers S.takes sink.old sink.new result database.new (MayLeadTo (Ok (ChangeCommand mutation)) database.old) }
    ensures schema { database.new.schema ≡ database.old.schema }
{
    let mut reads = 0;
    sink.take(Some(database.change_bound(alloc, change, &mut reads)))
}
