//! Known values of the chosen rows.
ghost use Rattle.std.specs.Prelude.{◌≡◌, ◌-ℤ◌, pos, map, IfOk};
ghost use Rattle.std.specs.Option.{option_map};
ghost use Rattle.mm_value.specs.Views.{value_of};
ghost use Rattle.mm_partition.specs.Views.{viewed};
ghost use Rattle.mm_value.specs.declared.values.Value.TheVariants.{Int};
ghost use Rattle.mm_query.specs.Atoms.{operand_of, shifted, value_in};
ghost use Rattle.mm_query.specs.Queries.{rows_read, value_at};
ghost use Rattle.mm_delta.specs.Wanted.{value_wanted};

use crate::wanted::Wanted;
use mm_partition::RowView;
use mm_query::{FieldPlace, Operand};
use mm_value::{Value, ValueRef};
use std::alloc::{AllocError, Global};

/// Returns the value of a row in a column, or 0 if the row has no such column.
pub(crate) fn value_in<'v>(row: RowView<'v>, column: usize) -> ValueRef<'v>
    ensures { value_of result ≡ value_in column (viewed row.entry) }
{
    match row.get(column) {
        Some(value) => value,
        None => ValueRef::Int(0),
    }
}

/// Returns the value of a field if its place has a row, with 0 for a column that the row does not have.
pub(crate) fn field_value<'v>(
    rows: &[Option<RowView<'v>>],
    field: FieldPlace,
) -> Option<ValueRef<'v>>
    ensures { option_map value_of result ≡ value_at (rows_read viewed rows.now) field }
{
    match rows.get(field.place) {
        Some(Some(row)) => Some(value_in(*row, field.column)),
        _ => None,
    }
}

/// Returns a copy of a value, if there is one. Fails with `AllocError` if an allocation fails.
pub(crate) fn copied(
    alloc: Global,
    value: Option<ValueRef<'_>>,
) -> Result<Option<Wanted>, AllocError>
    ensures { IfOk result (λ copy. option_map value_wanted copy ≡ option_map value_of value.entry) }
{
    match value {
        Some(value) => Ok(Some(Wanted::Value(value.copy(alloc)?))),
        None => Ok(None),
    }
}

/// Returns a value plus a number, without bound, if there is a value. A text is unchanged. Fails with `AllocError` if an allocation fails.
pub(crate) fn raised(
    alloc: Global,
    value: Option<ValueRef<'_>>,
    by: i64,
) -> Result<Option<Wanted>, AllocError>
    ensures { IfOk result (λ raised. option_map value_wanted raised ≡ option_map (shifted by) (option_map value_of value.entry)) }
{
    match value {
        Some(ValueRef::Int(number)) => Ok(Some(Wanted::Sum(i128::from(number) + i128::from(by)))),
        Some(ValueRef::Text(text)) => Ok(Some(Wanted::Value(Value::Text(text.copy(alloc)?)))),
        None => Ok(None),
    }
}

/// Returns a value minus a number, without bound, if there is a value. A text is unchanged. Fails with `AllocError` if an allocation fails.
pub(crate) fn lowered(
    alloc: Global,
    value: Option<ValueRef<'_>>,
    by: i64,
) -> Result<Option<Wanted>, AllocError>
    ensures { IfOk result (λ lowered. option_map value_wanted lowered ≡ option_map (shifted (pos 0 -ℤ by)) (option_map value_of value.entry)) }
{
    match value {
        Some(ValueRef::Int(number)) => Ok(Some(Wanted::Sum(i128::from(number) - i128::from(by)))),
        Some(ValueRef::Text(text)) => Ok(Some(Wanted::Value(Value::Text(text.copy(alloc)?)))),
        None => Ok(None),
    }
}

/// Returns the value of an operand, if it is known. Fails with `AllocError` if an allocation fails.
pub(crate) fn known_operand(
    alloc: Global,
    operand: &Operand<FieldPlace>,
    rows: &[Option<RowView<'_>>],
) -> Result<Option<Wanted>, AllocError>
    ensures { IfOk result (λ value. option_map value_wanted value ≡ operand_of (value_at (rows_read viewed rows.now)) operand.now) }
{
    match operand {
        Operand::Literal(value) => Ok(Some(Wanted::Value(value.copy(alloc)?))),
        Operand::Column(field) => copied(alloc, field_value(rows, *field)),
        Operand::Shifted(field, by) => raised(alloc, field_value(rows, *field), *by),
    }
}
