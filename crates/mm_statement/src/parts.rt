//! The parts of a command that contain literals.
ghost use Rattle.std.specs.Prelude.{◌≡◌, List, map};
ghost use Rattle.std.specs.List.{flat_map};
ghost use Rattle.std.specs.Mem.{FitsInMemory};
ghost use Rattle.mm_lang.specs.Reading.{assignment_literals, operand_literals, test_literals};
ghost use Rattle.mm_statement.specs.Filling.{blank_assignment, blank_atom, blank_operand, blank_value};
ghost use Rattle.mm_statement.specs.steps.Fills.{FillsPart, FillsWithMemory, blank_number, number_of, only_number, only_value};
ghost use Rattle.mm_statement.specs.steps.Counts.{IsCounted, assignments_counted, tests_counted};
ghost use Rattle.mm_value.specs.declared.values.Value.{Value as Val};

use crate::filler::Filler;
use mm_query::{Assignment, Atom, Operand, RowList};
use mm_schema::NameRef;
use mm_value::{Few, Refusal, Tuple, Value};
use std::alloc::{AllocError, Global};

/// A part of a command that contains literals.
pub(crate) trait Fill: Sized + Drop {
    ghost blank: { Self → Self };

    ghost literals: { Self → List Val };

    /// Fills the part with the next values. Fails with `Syntax` if a value does not fit its hole.
    fn fill(self, filler: &mut Filler<'_>) -> Result<Self, Refusal>
        ensures { FillsPart blank literals filler.old filler.new self result };

    ghost counted: { IsCounted blank literals };
}

impl<C: Drop> Fill for Atom<C> {
    ghost blank = { blank_atom };

    ghost literals = { test_literals };

    fn fill(self, filler: &mut Filler<'_>) -> Result<Atom<C>, Refusal> {
        let Atom {
            left,
            comparison,
            right,
        } = self;
        let filled = fill_operand(filler, right)?;
        Ok(Atom {
            left,
            comparison,
            right: filled,
        })
    }

    ghost counted = { tests_counted };
}

impl<'l> Fill for Assignment<NameRef<'l>> {
    ghost blank = { blank_assignment };

    ghost literals = { assignment_literals };

    fn fill(self, filler: &mut Filler<'_>) -> Result<Assignment<NameRef<'l>>, Refusal> {
        let Assignment { column, source } = self;
        let filled = fill_operand(filler, source)?;
        Ok(Assignment {
            column,
            source: filled,
        })
    }

    ghost counted = { assignments_counted };
}

/// Fills an operand with the next value, if it has a hole. Fails with `Syntax` if a text is given for the number of a shift.
fn fill_operand<C: Drop>(
    filler: &mut Filler<'_>,
    operand: Operand<C>,
) -> Result<Operand<C>, Refusal>
    ensures { FillsPart blank_operand operand_literals filler.old filler.new operand result }
{
    match operand {
        Operand::Literal(literal) => {
            let value = filler.next(&literal);
            Ok(Operand::Literal(value.unwrap_or(literal)))
        }
        Operand::Column(column) => Ok(Operand::Column(column)),
        Operand::Shifted(column, by) => {
            let number = fill_number(filler, by)?;
            Ok(Operand::Shifted(column, number))
        }
    }
}

/// Returns the number of a shift, or the next value if it is a hole. Fails with `Syntax` if that is a text.
fn fill_number(filler: &mut Filler<'_>, number: i64) -> Result<i64, Refusal>
    ensures { FillsPart blank_number only_number filler.old filler.new number result }
{
    let literal = Value::Int(number);
    let value = filler.next(&literal).unwrap_or(literal);
    let Some(given) = number_of(&value) else {
        return Err(Refusal::Syntax);
    };
    Ok(given)
}

/// Returns the number of a value, or `None` for a text.
fn number_of(value: &Value) -> Option<i64>
    ensures { result ≡ number_of value.now }
{
    match value {
        Value::Int(number) => Some(*number),
        Value::Text(_) => None,
    }
}

/// Fills parts with the next values. Fails with `Syntax` if a value does not fit its hole, and with `Memory` if an allocation for more than
/// one part fails.
pub(crate) fn fill_few<T: Fill>(
    alloc: Global,
    filler: &mut Filler<'_>,
    parts: Few<T>,
) -> Result<Few<T>, Refusal>
    requires { FitsInMemory T.row }
    ensures { FillsPart (map T.blank) (flat_map T.literals) filler.old filler.new parts result }
{
    let count = parts.as_slice().len();
    let mut parts = parts.into_iter();
    if count == 1
        && let Some(part) = parts.next()
    {
        let filled = part.fill(filler)?;
        return Ok(Few::one(filled));
    }
    let mut filled = Vec::with_capacity(alloc, count)?;
    for part in parts {
        let next = part.fill(filler)?;
        filled.push(next)?;
    }
    Ok(Few::from_vec(filled))
}

/// Returns tuples with the next values in their holes and copies of their other literals. Fails with `AllocError` if an allocation fails.
pub(crate) fn fill_tuples(
    alloc: Global,
    filler: &mut Filler<'_>,
    tuples: RowList,
) -> Result<RowList, AllocError>
    ensures { FillsWithMemory (map (map blank_value)) (flat_map (λ tuple. tuple)) filler.old filler.new tuples result }
{
    let mut filled = Few::with_capacity(alloc, tuples.as_slice().len())?;
    for tuple in tuples.as_slice() {
        let row = fill_tuple(alloc, filler, tuple)?;
        filled.push(alloc, row)?;
    }
    Ok(RowList::new(filled))
}

/// Returns a tuple with the next values in its holes and copies of its other literals. Fails with `AllocError` if an allocation fails.
fn fill_tuple(alloc: Global, filler: &mut Filler<'_>, tuple: &Tuple) -> Result<Tuple, AllocError>
    ensures { FillsWithMemory (map blank_value) (λ tuple. tuple) filler.old filler.new tuple.now result }
{
    let mut filled = Tuple::with_capacity(alloc, tuple.len())?;
    for literal in tuple.values() {
        let value = fill_literal(alloc, filler, literal)?;
        filled.push(value)?;
    }
    Ok(filled)
}

/// Returns the next value if a literal is a hole, and otherwise a copy of the literal. Fails with `AllocError` if an allocation for a text
/// fails.
fn fill_literal(
    alloc: Global,
    filler: &mut Filler<'_>,
    literal: &Value,
) -> Result<Value, AllocError>
    ensures { FillsWithMemory blank_value only_value filler.old filler.new literal.now result }
{
    match filler.next(literal) {
        Some(value) => Ok(value),
        None => literal.copy(alloc),
    }
}
