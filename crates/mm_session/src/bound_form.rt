//! Bound forms: commands that run without looking up a name.
ghost use Rattle.std.specs.Prelude.{Ok, IfErr, IfOk, IfSome};
ghost use Rattle.mm_lang.specs.Answering.{MayLeadTo};
ghost use Rattle.mm_query.specs.Machine.{refused_outcome};
ghost use Rattle.mm_query.specs.declared.command.Command.TheVariants.{Change as ChangeCommand, Select as SelectCommand};
ghost use Rattle.mm_session.specs.steps.Forms.{IsBoundForm};

use mm_query::{Bound, BoundChange, Command, Mutation, Query};
use mm_txn::Db;
use mm_value::Refusal;
use std::alloc::Global;

/// The bound form of a command: places instead of names.
#[derive(Drop)]
pub(crate) enum BoundForm {
    /// The bound form of a SELECT.
    Query(Bound),
    /// The bound form of a change of rows.
    Change(BoundChange),
}

/// Returns the bound form of a SELECT or of a change of rows, and `None` for any other command. Fails as [`Db::bind_query`] and
/// [`Db::bind_change`] do.
pub(crate) fn bind(
    alloc: Global,
    database: &Db,
    command: Command<'_>,
) -> Result<Option<BoundForm>, Refusal>
    ensures form { IfOk result (λ bound. IfSome bound (IsBoundForm database.now.schema command.entry)) }
    ensures refused { IfErr result (λ refusal. MayLeadTo (Ok command.entry) database.now (refused_outcome refusal database.now)) }
{
    match command {
        Command::Select(query) => bind_query(alloc, database, query),
        Command::Change(mutation) => bind_change(alloc, database, mutation),
        _ => Ok(None),
    }
}

/// Returns the bound form of a SELECT.
fn bind_query(alloc: Global, database: &Db, query: Query<'_>) -> Result<Option<BoundForm>, Refusal>
    ensures form { IfOk result (λ bound. IfSome bound (IsBoundForm database.now.schema (SelectCommand query.entry))) }
    ensures refused { IfErr result (λ refusal. MayLeadTo (Ok (SelectCommand query.entry)) database.now (refused_outcome refusal database.now)) }
{
    match database.bind_query(alloc, query) {
        Ok(bound) => Ok(Some(BoundForm::Query(bound))),
        Err(refusal) => Err(refusal),
    }
}

/// Returns the bound form of a change of rows.
fn bind_change(
    alloc: Global,
    database: &Db,
    mutation: Mutation<'_>,
) -> Result<Option<BoundForm>, Refusal>
    ensures form { IfOk result (λ bound. IfSome bound (IsBoundForm database.now.schema (ChangeCommand mutation.entry))) }
    ensures refused { IfErr result (λ refusal. MayLeadTo (Ok (ChangeCommand mutation.entry)) database.now (refused_outcome refusal database.now)) }
{
    match database.bind_change(alloc, mutation) {
        Ok(bound) => Ok(Some(BoundForm::Change(bound))),
        Err(refusal) => Err(refusal),
    }
}

/// Stores the bound form of a SELECT or of a change of rows, and no form for any other command. Fails as [`bind`] does, and stores none
/// then.
pub(crate) fn bind_into(
    alloc: Global,
    database: &Db,
    command: Command<'_>,
    form: &mut Option<BoundForm>,
) -> Result<(), Refusal>
    ensures form { IfSome form.new (IsBoundForm database.now.schema command.entry) }
    ensures refused { IfErr result (λ refusal. MayLeadTo (Ok command.entry) database.now (refused_outcome refusal database.now)) }
{
    *form = None;
    match bind(alloc, database, command) {
        Ok(bound) => {
            *form = bound;
            Ok(())
        }
        Err(refusal) => Err(refusal),
    }
}
