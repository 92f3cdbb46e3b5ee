//! Computation of the new row of an UPDATE.
ghost use Rattle.std.specs.Prelude.{◌≡◌, ◌==◌, ◌+ℤ◌, ◌∷◌, ℕ, [], find, length, map, All, IfOk};
ghost use Rattle.std.specs.Option.{option_copied};
ghost use Rattle.mm_schema.specs.Refused.{AnswersDue, first_refusal};
ghost use Rattle.mm_value.specs.Views.{value_of};
ghost use Rattle.mm_value.specs.declared.values.Value.TheVariants.{Int};
ghost use Rattle.mm_query.specs.Atoms.{IsWithin, range_conditions, updated_row, updated_value, value_for};
ghost use Rattle.mm_query.specs.declared.atom.Assignment.{Assignment as Assigned};

use crate::atom::{Assignment, Operand};
use mm_value::{AsRow, Refusal, Row, Value, ValueRef};
use std::alloc::Global;

/// Returns the sum of two numbers. Fails with `ArithmeticOutOfRange` if the sum does not fit into 64 bits.
fn sum_in_range(number: i64, shift: i64) -> Result<i64, Refusal>
    ensures due { AnswersDue (first_refusal (range_conditions (Int (number +ℤ shift) ∷ []))) result }
    ensures ok { IfOk result (λ sum. sum ≡ number +ℤ shift) }
{
    number
        .checked_add(shift)
        .ok_or(Refusal::ArithmeticOutOfRange)
}

impl Operand<usize> {
    /// Returns a copy of the operand's value for a row. Fails with `ArithmeticOutOfRange` if the value does not fit into 64 bits, and with
    /// `Memory` if an allocation fails.
    fn value_for<R: AsRow>(&self, alloc: Global, row: &R) -> Result<Value, Refusal>
        requires { IsWithin (length (R.AsRow.row row.now)) self.now }
        ensures due { AnswersDue (first_refusal (range_conditions (value_for (R.AsRow.row row.now) self.now ∷ []))) result }
        ensures ok { IfOk result (λ value. value ≡ value_for (R.AsRow.row row.now) self.now) }
    {
        match self {
            Operand::Literal(value) => Ok(value.copy(alloc)?),
            Operand::Column(column) => Ok(row.value(*column).copy(alloc)?),
            Operand::Shifted(column, shift) => match row.value(*column) {
                ValueRef::Int(number) => Ok(Value::Int(sum_in_range(number, *shift)?)),
                text => Ok(text.copy(alloc)?),
            },
        }
    }
}

/// Returns the first assignment to a column.
fn assignment_to(assignments: &[Assignment<usize>], column: usize) -> Option<&Assignment<usize>>
    ensures { option_copied result ≡ find (λ (a : Assigned ℕ). a.column == column) assignments.now }
{
    assignments
        .iter()
        .find(|assignment| assignment.column == column)
}

/// Returns the new value of a column whose value was `old`. Fails as [`updated_row`] does.
fn updated_value<R: AsRow>(
    alloc: Global,
    row: &R,
    assignments: &[Assignment<usize>],
    column: usize,
    old: ValueRef<'_>,
) -> Result<Value, Refusal>
    requires { All (λ (a : Assigned ℕ). IsWithin (length (R.AsRow.row row.now)) a.source) assignments.now }
    ensures due { AnswersDue (first_refusal (range_conditions (updated_value assignments.now (R.AsRow.row row.now) column (value_of old.entry) ∷ []))) result }
    ensures ok { IfOk result (λ value. value ≡ updated_value assignments.now (R.AsRow.row row.now) column (value_of old.entry)) }
{
    match assignment_to(assignments, column) {
        Some(assignment) => assignment.source.value_for(alloc, row),
        None => Ok(old.copy(alloc)?),
    }
}

/// Returns the row that results from assignments to a row. Each value is computed from the old row alone. Fails with `ArithmeticOutOfRange`
/// if a value does not fit into 64 bits, and with `Memory` if an allocation fails.
pub fn updated_row<R: AsRow>(
    alloc: Global,
    row: &R,
    assignments: &[Assignment<usize>],
) -> Result<Row, Refusal>
    requires { All (λ (a : Assigned ℕ). IsWithin (length (R.AsRow.row row.now)) a.source) assignments.now }
    ensures due { AnswersDue (first_refusal (range_conditions (updated_row assignments.now (R.AsRow.row row.now)))) result }
    ensures ok { IfOk result (λ new. new ≡ updated_row assignments.now (R.AsRow.row row.now)) }
{
    let mut values = Vec::with_capacity(alloc, row.len())?;
    for column in 0..row.len() {
        let old = row.value(column);
        values.push(updated_value(alloc, row, assignments, column, old)?)?;
    }
    Ok(Row::new(values))
}
