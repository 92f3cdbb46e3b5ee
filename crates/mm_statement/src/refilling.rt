//! Writing new values into the holes of a bound command.
ghost use Rattle.std.specs.Prelude.{◌≡◌, ◌∷◌, [], ℕ, List, IfOk, IfSome, IsOk, OnOk, map, true};
ghost use Rattle.std.specs.List.{flat_map};
ghost use Rattle.std.specs.Option.{unwrap_or};
ghost use Rattle.mm_query.specs.declared.bind.BoundChange.TheVariants as bound;
ghost use Rattle.mm_lang.specs.Reading.{operand_literals, test_literals};
ghost use Rattle.mm_statement.specs.Filling.{blank_assignment, blank_atom, blank_operand, blank_value};
ghost use Rattle.mm_statement.specs.Refilling.{Refills, RefillsChange, RefillsQuery};
ghost use Rattle.mm_statement.specs.steps.Refills.{Puts, RefillsPart, source_literals};
ghost use Rattle.mm_value.specs.declared.values.Value.{Value as Val};
ghost use Rattle.mm_value.specs.declared.values.Value.TheVariants.{Int};

use crate::holes::Holes;
use crate::refiller::{Refiller, Stop};
use mm_query::{Assignment, Atom, BoundQuery, FieldPlace, Operand, RowList, ShortList};
use mm_value::{Few, Tuple, Value};
use std::alloc::{AllocError, Global};

/// Writes new values into the holes of a bound query, in written order, and returns `true`. Changes nothing else, and allocates only for a
/// text of more than 16 bytes. Returns `false` if there are more or fewer values than holes, or if a value and the literal in its hole
/// differ in type. Returns `false` also if -2^63 is given for a hole after a minus. After `false` or `AllocError`, the query may contain
/// some of the values.
pub fn refill_query(
    alloc: Global,
    holes: &Holes,
    values: &[Value],
    query: &mut BoundQuery,
) -> Result<bool, AllocError>
    ensures { IfOk result (λ is_done. is_done ≡ true → RefillsQuery holes.now values.now query.old query.new) }
{
    are_fitting(refill_atoms(alloc, holes, values, &mut query.atoms))
}

/// Writes new values into the holes of a bound UPDATE, as [`refill_query`] does for a query.
pub fn refill_update(
    alloc: Global,
    holes: &Holes,
    values: &[Value],
    assignments: &mut ShortList<Assignment<usize>, 2>,
    tests: &mut ShortList<Atom<FieldPlace>, 2>,
) -> Result<bool, AllocError>
    ensures { IfOk result (λ is_done. is_done ≡ true → (table : ℕ)
        → RefillsChange holes.now values.now (bound.Update table assignments.old tests.old) (bound.Update table assignments.new tests.new)) }
{
    are_fitting(refill_assignments_and_atoms(alloc, holes, values, assignments, tests))
}

/// Writes new values into the holes of a bound DELETE, as [`refill_query`] does for a query.
pub fn refill_delete(
    alloc: Global,
    holes: &Holes,
    values: &[Value],
    tests: &mut ShortList<Atom<FieldPlace>, 2>,
) -> Result<bool, AllocError>
    ensures { IfOk result (λ is_done. is_done ≡ true → (table : ℕ)
        → RefillsChange holes.now values.now (bound.Delete table tests.old) (bound.Delete table tests.new)) }
{
    are_fitting(refill_atoms(alloc, holes, values, tests))
}

/// Returns the rows of a bound INSERT with new values in their holes and copies of the other values. Returns `None` if [`refill_query`]
/// would return `false`. Fails with `AllocError` if an allocation fails, for a list of several rows, a row of more than 4 values, or a text
/// of more than 16 bytes.
pub fn refilled_rows(
    alloc: Global,
    holes: &Holes,
    values: &[Value],
    rows: &RowList,
) -> Result<Option<RowList>, AllocError>
    ensures { IfOk result (λ filled. IfSome filled (λ new. (table : ℕ)
        → RefillsChange holes.now values.now (bound.Insert table rows.now) (bound.Insert table new))) }
{
    match filled_rows(alloc, holes, values, rows) {
        Ok(rows) => Ok(Some(rows)),
        Err(Stop::Misfit) => Ok(None),
        Err(Stop::Memory) => Err(AllocError),
    }
}

/// Returns whether all values fit. Fails with `AllocError` if an allocation failed.
fn are_fitting(outcome: Result<(), Stop>) -> Result<bool, AllocError>
    ensures { IfOk result (λ is_done. is_done ≡ true → IsOk outcome) }
{
    match outcome {
        Ok(()) => Ok(true),
        Err(Stop::Misfit) => Ok(false),
        Err(Stop::Memory) => Err(AllocError),
    }
}

/// Writes new values into the holes of atoms.
fn refill_atoms(
    alloc: Global,
    holes: &Holes,
    values: &[Value],
    atoms: &mut ShortList<Atom<FieldPlace>, 2>,
) -> Result<(), Stop>
    ensures { OnOk result (Refills (map blank_atom) (flat_map test_literals) holes.now values.now atoms.old atoms.new) }
{
    let mut refiller = Refiller::new(holes, values);
    put_into_atoms(alloc, &mut refiller, atoms)?;
    refiller.finish()
}

/// Writes new values into the holes of assignments, and then of atoms.
fn refill_assignments_and_atoms(
    alloc: Global,
    holes: &Holes,
    values: &[Value],
    assignments: &mut ShortList<Assignment<usize>, 2>,
    atoms: &mut ShortList<Atom<FieldPlace>, 2>,
) -> Result<(), Stop>
    ensures { OnOk result ((table : ℕ)
        → RefillsChange holes.now values.now (bound.Update table assignments.old atoms.old) (bound.Update table assignments.new atoms.new)) }
{
    let mut refiller = Refiller::new(holes, values);
    put_into_assignments(alloc, &mut refiller, assignments)?;
    put_into_atoms(alloc, &mut refiller, atoms)?;
    refiller.finish()
}

/// Writes the next values into the holes of atoms, in place.
fn put_into_atoms(
    alloc: Global,
    refiller: &mut Refiller<'_>,
    atoms: &mut ShortList<Atom<FieldPlace>, 2>,
) -> Result<(), Stop>
    ensures { OnOk result (RefillsPart (map blank_atom) (flat_map test_literals) refiller.old refiller.new atoms.old atoms.new) }
{
    for place in 0..atoms.as_slice().len() {
        let atom = &atoms.as_slice()[place];
        if let Some(right) = refilled_operand(alloc, refiller, &atom.right)? {
            let filled = Atom {
                left: atom.left,
                comparison: atom.comparison,
                right,
            };
            atoms.set(place, filled);
        }
    }
    Ok(())
}

/// Writes the next values into the holes of assignments, in place.
fn put_into_assignments(
    alloc: Global,
    refiller: &mut Refiller<'_>,
    assignments: &mut ShortList<Assignment<usize>, 2>,
) -> Result<(), Stop>
    ensures { OnOk result (RefillsPart (map blank_assignment) (flat_map source_literals) refiller.old refiller.new assignments.old assignments.new) }
{
    for place in 0..assignments.as_slice().len() {
        let assignment = &assignments.as_slice()[place];
        if let Some(source) = refilled_operand(alloc, refiller, &assignment.source)? {
            let filled = Assignment {
                column: assignment.column,
                source,
            };
            assignments.set(place, filled);
        }
    }
    Ok(())
}

/// Returns an operand with the next value in its hole, or `None` if it has no hole.
fn refilled_operand<C: Copy + Drop>(
    alloc: Global,
    refiller: &mut Refiller<'_>,
    operand: &Operand<C>,
) -> Result<Option<Operand<C>>, Stop>
    ensures { IfOk result (λ filled. RefillsPart blank_operand operand_literals refiller.old refiller.new operand.now (unwrap_or filled operand.now)) }
{
    match operand {
        Operand::Literal(literal) => match refiller.next(alloc, literal)? {
            Some(value) => Ok(Some(Operand::Literal(value))),
            None => Ok(None),
        },
        Operand::Column(_) => Ok(None),
        Operand::Shifted(column, by) => match refilled_number(alloc, refiller, *by)? {
            Some(by) => Ok(Some(Operand::Shifted(*column, by))),
            None => Ok(None),
        },
    }
}

/// Returns the next value for the number of a shift, or `None` if that is not a hole.
fn refilled_number(
    alloc: Global,
    refiller: &mut Refiller<'_>,
    number: i64,
) -> Result<Option<i64>, Stop>
    ensures { IfOk result (λ filled. Puts refiller.old refiller.new (Int number ∷ []) (Int (unwrap_or filled number) ∷ [])) }
{
    match refiller.next(alloc, &Value::Int(number))? {
        Some(Value::Int(filled)) => Ok(Some(filled)),
        Some(Value::Text(_)) => Err(Stop::Misfit),
        None => Ok(None),
    }
}

/// Returns rows with new values in their holes and copies of the other values.
fn filled_rows(
    alloc: Global,
    holes: &Holes,
    values: &[Value],
    rows: &RowList,
) -> Result<RowList, Stop>
    ensures { IfOk result (Refills (map (map blank_value)) (flat_map (λ (row : List Val). row)) holes.now values.now rows.now) }
{
    let mut refiller = Refiller::new(holes, values);
    let mut filled = Few::with_capacity(alloc, rows.as_slice().len())?;
    for row in rows.as_slice() {
        let row = filled_row(alloc, &mut refiller, row)?;
        filled.push(alloc, row)?;
    }
    refiller.finish()?;
    Ok(RowList::new(filled))
}

/// Returns a row with the next values in its holes and copies of its other values.
fn filled_row(alloc: Global, refiller: &mut Refiller<'_>, row: &Tuple) -> Result<Tuple, Stop>
    ensures { IfOk result (RefillsPart (map blank_value) (λ (row : List Val). row) refiller.old refiller.new row.now) }
{
    let mut filled = Tuple::with_capacity(alloc, row.len())?;
    for literal in row.values() {
        let value = filled_value(alloc, refiller, literal)?;
        filled.push(value)?;
    }
    Ok(filled)
}

/// Returns the next value if a literal is a hole, and otherwise a copy of the literal.
fn filled_value(alloc: Global, refiller: &mut Refiller<'_>, literal: &Value) -> Result<Value, Stop>
    ensures { IfOk result (λ filled. Puts refiller.old refiller.new (literal.now ∷ []) (filled ∷ [])) }
{
    match refiller.next(alloc, literal)? {
        Some(value) => Ok(value),
        None => Ok(literal.copy(alloc)?),
    }
}
