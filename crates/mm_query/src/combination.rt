//! Combinations of rows, some of which may be missing.
ghost use Rattle.std.specs.Prelude.{◌≡◌, None, get_or, pos, IfOk};
ghost use Rattle.std.specs.Option.{option_copied, option_map, unwrap_or};
ghost use Rattle.mm_value.specs.Order.{value_cmp};
ghost use Rattle.mm_value.specs.Views.{value_of};
ghost use Rattle.mm_value.specs.declared.values.Value.TheVariants.{Int};
ghost use Rattle.mm_query.specs.Atoms.{holds, operand_of, value_in};
ghost use Rattle.mm_query.specs.Queries.{none_fails, rows_read, value_at, values_of};

use crate::atom::{Atom, Operand, compare_shifted};
use crate::bound_query::FieldPlace;
use mm_value::{AsRow, Row, Value, ValueRef, compare};
use std::alloc::{AllocError, Global};
use std::cmp::Ordering;

/// Returns the value of a column of a row, or 0 if the row has no such column.
fn value_in<R: AsRow>(row: &R, column: usize) -> ValueRef<'_>
    ensures { value_of result ≡ value_in column (R.AsRow.row row.now) }
{
    match row.get(column) {
        Some(value) => value,
        None => ValueRef::Int(0),
    }
}

/// Returns the row at a position of FROM, or `None` if the row is missing.
fn row_at<R: AsRow>(rows: &[Option<R>], place: usize) -> Option<&R>
    ensures { option_map R.AsRow.row (option_copied result) ≡ get_or (rows_read R.AsRow.row rows.now) place None }
{
    match rows.get(place) {
        Some(Some(row)) => Some(row),
        _ => None,
    }
}

/// Compares a value with an operand. Returns `None` if the operand's row is missing.
fn compare_with<R: AsRow>(
    left: ValueRef<'_>,
    right: &Operand<FieldPlace>,
    rows: &[Option<R>],
) -> Option<Ordering>
    ensures { result ≡ option_map (value_cmp (value_of left.entry)) (operand_of (value_at (rows_read R.AsRow.row rows.now)) right.now) }
{
    match right {
        Operand::Literal(value) => Some(compare(&left, value)),
        Operand::Column(field) => {
            let row = row_at(rows, field.place)?;
            Some(compare(&left, &value_in(row, field.column)))
        }
        Operand::Shifted(field, shift) => {
            let row = row_at(rows, field.place)?;
            let right = value_in(row, field.column);
            Some(compare_shifted(left, right, *shift))
        }
    }
}

impl Atom<FieldPlace> {
    /// Returns whether the atom is not false of the given rows: one for each position of FROM, or `None` if it is missing. An atom that
    /// reads a missing row is not false.
    pub fn admits<R: AsRow>(&self, rows: &[Option<R>]) -> bool
        ensures { result ≡ holds (value_at (rows_read R.AsRow.row rows.now)) self.now }
    {
        let Some(row) = row_at(rows, self.left.place) else {
            return true;
        };
        let left = value_in(row, self.left.column);
        match compare_with(left, &self.right, rows) {
            Some(ordering) => self.comparison.accepts(ordering),
            None => true,
        }
    }
}

/// Returns whether none of the atoms is false of the given rows.
pub fn none_fails<R: AsRow>(atoms: &[Atom<FieldPlace>], rows: &[Option<R>]) -> bool
    ensures { result ≡ none_fails atoms.now (rows_read R.AsRow.row rows.now) }
{
    atoms.iter().all(|atom| atom.admits(rows))
}

/// Returns a copy of the value of a field, or 0 if its row is missing. Fails with `AllocError` if an allocation fails.
fn copy_value<R: AsRow>(
    alloc: Global,
    field: FieldPlace,
    rows: &[Option<R>],
) -> Result<Value, AllocError>
    ensures ok { IfOk result (λ value. value ≡ unwrap_or (value_at (rows_read R.AsRow.row rows.now) field) (Int (pos 0))) }
{
    match row_at(rows, field.place) {
        Some(row) => value_in(row, field.column).copy(alloc),
        None => Ok(Value::Int(0)),
    }
}

/// Returns the row of the values of fields, with 0 for each field whose row is missing. Fails with `AllocError` if an allocation fails.
pub fn values_of<R: AsRow>(
    alloc: Global,
    fields: &[FieldPlace],
    rows: &[Option<R>],
) -> Result<Row, AllocError>
    ensures ok { IfOk result (λ row. row ≡ values_of fields.now (rows_read R.AsRow.row rows.now)) }
{
    let mut values = Vec::with_capacity(alloc, fields.len())?;
    for field in fields {
        values.push(copy_value(alloc, *field, rows)?)?;
    }
    Ok(Row::new(values))
}
