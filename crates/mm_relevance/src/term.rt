//! Points, and the sides of atoms as a point plus a number.
ghost use Rattle.std.specs.Prelude.{◌≡◌, ◌^◌};
ghost use Rattle.std.specs.Option.{option_map};
ghost use Rattle.mm_query.specs.Atoms.{value_in};
ghost use Rattle.mm_value.specs.Views.{value_of};
ghost use Rattle.mm_relevance.specs.Relevance.{field_term, moved, number_term, operand_term};
ghost use Rattle.mm_relevance.specs.Walks.{IsNearTerm, point_eq};

use mm_query::{BoundQuery, FieldPlace, Operand};
use mm_value::{AsRow, ValueRef};

/// A quantity in an inequality.
#[derive(Clone, Copy)]
pub(crate) enum Point {
    /// The number zero.
    Zero,
    /// A column of another row, whose value is unknown.
    Column(FieldPlace),
}

/// A point plus a number.
#[derive(Clone, Copy)]
pub(crate) struct Term {
    pub(crate) point: Point,
    /// The number that is added to the point.
    pub(crate) offset: i128,
}

/// Returns whether two points are equal.
pub(crate) fn same_point(a: Point, b: Point) -> bool
    ensures { result ≡ point_eq a b }
{
    match (a, b) {
        (Point::Zero, Point::Zero) => true,
        (Point::Column(f), Point::Column(g)) => f.place == g.place && f.column == g.column,
        _ => false,
    }
}

/// Returns the term of a number. A text has none.
fn number_term(value: ValueRef<'_>) -> Option<Term>
    ensures value { result ≡ number_term (value_of value.entry) }
    ensures near { IsNearTerm (2 ^ 63) result }
{
    match value {
        ValueRef::Int(number) => Some(Term {
            point: Point::Zero,
            offset: i128::from(number),
        }),
        ValueRef::Text(_) => None,
    }
}

/// Returns the term of a column of this row, which counts as 0 past the end of the row.
fn column_term<R: AsRow>(row: &R, column: usize) -> Option<Term>
    ensures value { result ≡ number_term (value_in column (R.AsRow.row row.now)) }
    ensures near { IsNearTerm (2 ^ 63) result }
{
    match row.get(column) {
        Some(value) => number_term(value),
        None => Some(Term {
            point: Point::Zero,
            offset: 0,
        }),
    }
}

/// Returns the term of a field: a number of the row at the position, or a column of another row of FROM.
pub(crate) fn field_term<R: AsRow>(
    query: &BoundQuery,
    place: usize,
    row: &R,
    field: FieldPlace,
) -> Option<Term>
    ensures value { result ≡ field_term query.now place (R.AsRow.row row.now) field }
    ensures near { IsNearTerm (2 ^ 63) result }
{
    if field.place == place {
        column_term(row, field.column)
    } else if field.place < query.from.as_slice().len() {
        Some(Term {
            point: Point::Column(field),
            offset: 0,
        })
    } else {
        None
    }
}

/// Returns a term plus a number.
fn moved(term: Option<Term>, by: i64) -> Option<Term>
    requires { IsNearTerm (2 ^ 63) term }
    ensures value { result ≡ option_map (moved by) term }
    ensures near { IsNearTerm (2 ^ 64) result }
{
    match term {
        Some(term) => Some(Term {
            point: term.point,
            offset: term.offset + i128::from(by),
        }),
        None => None,
    }
}

/// Returns the term of the right side of an atom.
pub(crate) fn operand_term<R: AsRow>(
    query: &BoundQuery,
    place: usize,
    row: &R,
    operand: &Operand<FieldPlace>,
) -> Option<Term>
    ensures value { result ≡ operand_term query.now place (R.AsRow.row row.now) operand.now }
    ensures near { IsNearTerm (2 ^ 64) result }
{
    match operand {
        Operand::Literal(value) => number_term(value.as_ref()),
        Operand::Column(field) => field_term(query, place, row, *field),
        Operand::Shifted(field, by) => moved(field_term(query, place, row, *field), *by),
    }
}
