//! Writing new values into a bound form.
ghost use Rattle.std.specs.Prelude.{◌≡◌, ℕ, length, true};
ghost use Rattle.mm_query.specs.declared.bind.BoundChange.TheVariants.{Insert};
ghost use Rattle.mm_query.specs.declared.command.Command.{Command as AnyCommand};
ghost use Rattle.mm_schema.specs.Schema.{Schema};
ghost use Rattle.mm_statement.specs.Holes.{hole_count};
ghost use Rattle.mm_session.specs.steps.Filled.{IsToRun, RefillsToRun};
ghost use Rattle.mm_session.specs.steps.Forms.{HasForm, IsFormOf};

use crate::bound_form::BoundForm;
use mm_query::{BoundChange, RowList};
use mm_statement::{Holes, refill_delete, refill_query, refill_update, refilled_rows};
use mm_value::Value;
use std::alloc::Global;

/// Writes new values into the holes of a bound form, and returns whether it did. The new rows of an INSERT are separate: the run consumes
/// them, and the form keeps its own. No other form writes rows. Returns `false` if a value does not fit or an allocation for it fails; the
/// form may then have some of the values.
pub(crate) fn refill(
    alloc: Global,
    holes: &Holes,
    values: &[Value],
    form: &mut BoundForm,
    rows: &mut Option<RowList>,
) -> bool
    requires { length values.now ≡ hole_count holes.now.are_holes }
    ensures kept { result ≡ true → (schema : Schema) (command : AnyCommand) → HasForm schema holes.now command form.old
        → IsFormOf schema holes.now.are_holes command form.new }
    ensures filled { result ≡ true → (schema : Schema) (command : AnyCommand) → HasForm schema holes.now command form.old
        → IsToRun schema holes.now.are_holes values.now command form.new rows.new }
{
    match form {
        BoundForm::Query(bound) => {
            refill_query(alloc, holes, values, &mut bound.query).unwrap_or(false)
        }
        BoundForm::Change(bound) => refill_change(alloc, holes, values, bound, rows),
    }
}

/// Writes new values into the holes of the bound form of a change of rows as [`refill`] does. A separate function, so that no query moves
/// rows.
#[inline(never)]
fn refill_change(
    alloc: Global,
    holes: &Holes,
    values: &[Value],
    change: &mut BoundChange,
    rows: &mut Option<RowList>,
) -> bool
    ensures { result ≡ true → RefillsToRun holes.now values.now change.old change.new rows.new }
{
    match change {
        BoundChange::Insert { tuples, .. } => refill_rows(alloc, holes, values, tuples, rows),
        BoundChange::Update {
            assignments,
            tests,
            ..
        } => refill_update(alloc, holes, values, assignments, tests).unwrap_or(false),
        BoundChange::Delete { tests, .. } => {
            refill_delete(alloc, holes, values, tests).unwrap_or(false)
        }
    }
}

/// Builds the rows of a bound INSERT with new values, and returns whether it did. A separate function, so that no other line moves rows.
fn refill_rows(
    alloc: Global,
    holes: &Holes,
    values: &[Value],
    tuples: &RowList,
    rows: &mut Option<RowList>,
) -> bool
    ensures { result ≡ true → (table : ℕ) → RefillsToRun holes.now values.now (Insert table tuples.now) (Insert table tuples.now) rows.new }
{
    match refilled_rows(alloc, holes, values, tuples) {
        Ok(Some(filled)) => {
            *rows = Some(filled);
            true
        }
        _ => false,
    }
}
