//! The bounds of a range of rows of the first table.
ghost use Rattle.std.specs.Prelude.{◌≡◌};
ghost use Rattle.std.specs.Option.{option_copied};
ghost use Rattle.mm_plan.specs.Steps.{end_of, high_end, low_end};
ghost use Rattle.mm_query.specs.Choosing.{first_given};

use mm_query::{Atom, FieldPlace, Operand};
use mm_value::Value;
use std::cmp::Ordering;

/// Returns the literal with which an atom compares a column of the first table, if the atom is false for every value on the side `beyond`
/// of it.
fn end_of<'q>(beyond: Ordering, column: usize, atom: &'q Atom<FieldPlace>) -> Option<&'q Value>
    ensures { option_copied result ≡ end_of beyond column atom.now }
{
    let left = atom.left;
    if left.place != 0 || left.column != column || atom.comparison.accepts(beyond) {
        return None;
    }
    match &atom.right {
        Operand::Literal(value) => Some(value),
        _ => None,
    }
}

/// Returns the first bound that the atoms set on one side for a column of the first table.
fn first_end<'q>(
    beyond: Ordering,
    atoms: &'q [Atom<FieldPlace>],
    column: usize,
) -> Option<&'q Value>
    ensures { option_copied result ≡ first_given (end_of beyond column) atoms.now }
{
    for atom in atoms {
        if let Some(value) = end_of(beyond, column, atom) {
            return Some(value);
        }
    }
    None
}

/// Returns the first lower bound that the atoms set for a column of the first table.
pub(crate) fn low_end(atoms: &[Atom<FieldPlace>], column: usize) -> Option<&Value>
    ensures { option_copied result ≡ low_end atoms.now column }
{
    first_end(Ordering::Less, atoms, column)
}

/// Returns the first upper bound that the atoms set for a column of the first table.
pub(crate) fn high_end(atoms: &[Atom<FieldPlace>], column: usize) -> Option<&Value>
    ensures { option_copied result ≡ high_end atoms.now column }
{
    first_end(Ordering::Greater, atoms, column)
}
