//! The slots of the table of templates.
ghost use Rattle.std.specs.Prelude.{◌≡◌, ◌<◌, ℕ, IfOk, IfSome, List, Some, length, map, true};
ghost use Rattle.std.specs.List.{All};
ghost use Rattle.mm_lang.specs.Templates.{holes_of};
ghost use Rattle.mm_schema.specs.Schema.{Schema};
ghost use Rattle.mm_session.specs.Statements.{line_at};
ghost use Rattle.mm_session.specs.steps.Filled.{IsFilledAt, IsFilledIn};
ghost use Rattle.mm_session.specs.steps.Forms.{IsReady, IsReadyStatement};
ghost use Rattle.mm_session.specs.steps.Places.{line_in};
ghost use Rattle.mm_statement.specs.Holes.{hole_count};

use crate::slots::statement_at;
use crate::statement::Statement;
use crate::template_set::SETS;
use mm_txn::Db;
use mm_value::Value;
use std::alloc::{AllocError, Global};

/// Returns the number of the slot that has a template, one of the two of the set at a place.
pub(crate) fn place_of(slots: &[Option<Statement>], place: usize, template: &[u8]) -> Option<usize>
    requires { place < 32 }
    ensures { IfSome result (λ number. line_at number (map line_in slots.now) ≡ Some template.now) }
{
    let first = 2 * place;
    if has_template(slots, first, template) {
        Some(first)
    } else if has_template(slots, first + 1, template) {
        Some(first + 1)
    } else {
        None
    }
}

/// Returns whether a slot has a template.
fn has_template(slots: &[Option<Statement>], number: usize, template: &[u8]) -> bool
    ensures { result ≡ true → line_at number (map line_in slots.now) ≡ Some template.now }
{
    match statement_at(slots, number) {
        Some(statement) => statement.line.as_slice() == template,
        None => false,
    }
}

/// Fills the bound form of the statement with a number, and returns whether it did. Binds the statement if it has no form. Returns `false`,
/// and drops the form, if the values do not fit it, if the catalog refuses the command, or if an allocation fails.
pub(crate) fn fill_at(
    alloc: Global,
    database: &Db,
    slots: &mut Vec<Option<Statement>>,
    number: usize,
    values: &[Value],
) -> bool
    requires ready { All (IsReady database.now.schema) slots.old.items }
    requires count { (template : List ℕ) → line_at number (map line_in slots.old.items) ≡ Some template
        → length values.now ≡ hole_count (holes_of template) }
    ensures ready { All (IsReady database.now.schema) slots.new.items }
    ensures filled { result ≡ true → (template : List ℕ) → line_at number (map line_in slots.old.items) ≡ Some template
        → IsFilledAt database.now.schema template values.now number slots.new.items }
{
    if number >= slots.len() {
        return false;
    }
    fill_slot(alloc, database, &mut slots[number], values)
}

/// Fills the bound form of a slot's statement as [`fill_at`] does.
fn fill_slot(alloc: Global, database: &Db, slot: &mut Option<Statement>, values: &[Value]) -> bool
    requires ready { IsReady database.now.schema slot.old }
    requires count { (template : List ℕ) → line_in slot.old ≡ Some template → length values.now ≡ hole_count (holes_of template) }
    ensures ready { IsReady database.now.schema slot.new }
    ensures filled { result ≡ true → (template : List ℕ) → line_in slot.old ≡ Some template
        → IsFilledIn database.now.schema template values.now slot.new }
{
    match slot {
        Some(statement) => statement.fill(alloc, database, values).unwrap_or(false),
        None => false,
    }
}

/// Stores a statement in the slot with a number, and returns the number. Allocates the slots if there are none. Returns `None` if an
/// allocation fails.
pub(crate) fn put(
    alloc: Global,
    slots: &mut Vec<Option<Statement>>,
    number: usize,
    statement: Statement,
) -> Option<usize>
    ensures ready { (schema : Schema) → All (IsReady schema) slots.old.items → IsReadyStatement schema statement
        → All (IsReady schema) slots.new.items }
    ensures there { IfSome result (λ place. line_at place (map line_in slots.new.items) ≡ Some statement.line.items) }
{
    make_slots(alloc, slots).ok()?;
    if number >= slots.len() {
        return None;
    }
    slots[number] = Some(statement);
    Some(number)
}

/// Allocates all slots, without statements, if there are none.
fn make_slots(alloc: Global, slots: &mut Vec<Option<Statement>>) -> Result<(), AllocError>
    ensures { (schema : Schema) → All (IsReady schema) slots.old.items → All (IsReady schema) slots.new.items }
{
    if slots.is_empty() {
        *slots = empty_slots(alloc)?;
    }
    Ok(())
}

/// Returns all slots, with no statements.
fn empty_slots(alloc: Global) -> Result<Vec<Option<Statement>>, AllocError>
    ensures { IfOk result (λ slots. (schema : Schema) → All (IsReady schema) slots.items) }
{
    let mut slots = Vec::with_capacity(alloc, 2 * SETS)?;
    for _ in 0..2 * SETS {
        slots.push(None)?;
    }
    Ok(slots)
}
