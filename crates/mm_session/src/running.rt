//! Running bound forms.
ghost use Rattle.std.specs.Prelude.{◌≡◌, Ok, Some};
ghost use Rattle.mm_lang.specs.Answering.{MayLeadTo};
ghost use Rattle.mm_query.specs.declared.bind.BoundChange.{BoundChange as AnyChange};
ghost use Rattle.mm_query.specs.declared.command.Command.{Command as AnyCommand};
ghost use Rattle.mm_query.specs.declared.command.Command.TheVariants.{Change as ChangeCommand};
ghost use Rattle.mm_query.specs.declared.command.Mutation.{Mutation as AnyMutation};
ghost use Rattle.mm_reply.specs.Sinks.{Delivers};
ghost use Rattle.mm_session.specs.steps.Filled.{RunsAs, change_to_run};
ghost use Rattle.mm_txn.specs.Bound.{IsBoundChange};

use crate::bound_form::BoundForm;
use mm_query::{BoundChange, RowList};
use mm_reply::{ReplySink, run_bound_change};
use mm_txn::{ChangeToRun, Db};
use std::alloc::Global;

/// Runs a bound form that was filled, and passes the reply to a sink. An INSERT consumes the rows that were built for it. The catalog is
/// unchanged.
pub(crate) fn run_form<S: ReplySink>(
    alloc: Global,
    database: &mut Db,
    form: &BoundForm,
    rows: &mut Option<RowList>,
    sink: &mut S,
) -> S::Taken
    requires can { S.can_take sink.old }
    requires runs { (command : AnyCommand) × RunsAs database.old.schema command form.now rows.old }
    ensures delivers { (command : AnyCommand) → RunsAs database.old.schema command form.now rows.old
        → Delivers S.takes sink.old sink.new result database.new (MayLeadTo (Ok command) database.old) }
    ensures schema { database.new.schema ≡ database.old.schema }
{
    match form {
        BoundForm::Query(bound) => sink.take_selected(alloc, database, bound),
        BoundForm::Change(bound) => run_change(alloc, database, bound, rows, sink),
    }
}

/// Makes a change of rows as [`run_form`] does. A separate function, so that no query moves rows.
#[inline(never)]
fn run_change<S: ReplySink>(
    alloc: Global,
    database: &mut Db,
    bound: &BoundChange,
    rows: &mut Option<RowList>,
    sink: &mut S,
) -> S::Taken
    requires can { S.can_take sink.old }
    requires bound { (mutation : AnyMutation) × (ran : AnyChange) × (change_to_run bound.now rows.old ≡ Some ran)
        × IsBoundChange database.old.schema mutation ran }
    ensures delivers { (mutation : AnyMutation) (ran : AnyChange) → change_to_run bound.now rows.old ≡ Some ran
        → IsBoundChange database.old.schema mutation ran
        → Delivers S.takes sink.old sink.new result database.new (MayLeadTo (Ok (ChangeCommand mutation)) database.old) }
    ensures schema { database.new.schema ≡ database.old.schema }
{
    match bound {
        BoundChange::Insert { table, .. } => match rows.take() {
            Some(tuples) => {
                let change = ChangeToRun::Insert {
                    table: *table,
                    tuples,
                };
                run_bound_change(alloc, database, change, sink)
            }
            None => unreachable!(),
        },
        BoundChange::Update {
            table,
            assignments,
            tests,
        } => {
            let change = ChangeToRun::Update {
                table: *table,
                assignments: assignments.as_slice(),
                tests: tests.as_slice(),
            };
            run_bound_change(alloc, database, change, sink)
        }
        BoundChange::Delete { table, tests } => {
            let change = ChangeToRun::Delete {
                table: *table,
                tests: tests.as_slice(),
            };
            run_bound_change(alloc, database, change, sink)
        }
    }
}
