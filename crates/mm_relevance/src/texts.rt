//! Atoms on known texts.
ghost use Rattle.std.specs.Prelude.{◌≡◌, position};
ghost use Rattle.std.specs.Option.{option_copied};
ghost use Rattle.mm_query.specs.Atoms.{operand_of};
ghost use Rattle.mm_relevance.specs.Relevance.{fails_on_texts, known};
ghost use Rattle.mm_relevance.specs.Walks.{text_of};

use mm_query::{Atom, BoundQuery, FieldPlace, Operand};
use mm_value::{AsRow, Text, Value, ValueRef};

/// Returns the text of a field, if it is a text of the row at the position.
fn known_text<'v, R: AsRow>(place: usize, row: &'v R, field: FieldPlace) -> Option<&'v Text>
    ensures { option_copied result ≡ text_of (known place (R.AsRow.row row.now) field) }
{
    if field.place != place {
        return None;
    }
    match row.get(field.column) {
        Some(ValueRef::Text(text)) => Some(text),
        Some(ValueRef::Int(_)) => None,
        None => None,
    }
}

/// Returns the text of an operand, if it is known. Adding a number to a text leaves it unchanged.
fn operand_text<'v, R: AsRow>(
    place: usize,
    row: &'v R,
    operand: &'v Operand<FieldPlace>,
) -> Option<&'v Text>
    ensures { option_copied result ≡ text_of (operand_of (known place (R.AsRow.row row.now)) operand.now) }
{
    match operand {
        Operand::Literal(Value::Text(text)) => Some(text),
        Operand::Literal(Value::Int(_)) => None,
        Operand::Column(field) => known_text(place, row, *field),
        Operand::Shifted(field, _) => known_text(place, row, *field),
    }
}

/// Returns whether both sides of an atom are known texts for which the atom is false.
pub(crate) fn fails_on_texts<R: AsRow>(place: usize, row: &R, atom: &Atom<FieldPlace>) -> bool
    ensures { result ≡ fails_on_texts place (R.AsRow.row row.now) atom.now }
{
    match (
        known_text(place, row, atom.left),
        operand_text(place, row, &atom.right),
    ) {
        (Some(a), Some(b)) => !atom.comparison.accepts(a.bytes().cmp(b.bytes())),
        _ => false,
    }
}

/// Returns the position of the first atom that is false for known texts.
pub(crate) fn false_text<R: AsRow>(query: &BoundQuery, place: usize, row: &R) -> Option<usize>
    ensures { result ≡ position (fails_on_texts place (R.AsRow.row row.now)) query.now.atoms }
{
    query
        .atoms
        .as_slice()
        .iter()
        .position(|atom| fails_on_texts(place, row, atom))
}
