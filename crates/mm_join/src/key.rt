//! Join equalities of a further table.
ghost use Rattle.std.specs.Prelude.{◌≡◌, ◌⊎◌, ◌↔◌, ℕ, ◌<◌, List, length, pos, Contains, IfNone, IfSome, IsTrue};
ghost use Rattle.mm_join.specs.Equated.{IsJoin, IsJoinEquality, added};
ghost use Rattle.mm_join.specs.Keys.{key_between, key_of};
ghost use Rattle.mm_join.specs.declared.key.Shift.TheVariants as shift;
ghost use Rattle.mm_query.specs.declared.atom.Atom.{Atom as AnyAtom};

use mm_query::{Atom, Comparison, FieldPlace, Operand};

/// The number that a join equality adds to an integer. A text is unchanged.
#[derive(Clone, Copy, Debug, PartialEq, Eq)]
pub enum Shift {
    /// The number.
    Plus(i64),
    /// The negated number.
    Minus(i64),
}

impl Shift {
    /// Returns whether the shift is by 0.
    pub(crate) fn adds_nothing(self) -> bool
        ensures { IsTrue result ↔ added self ≡ pos 0 }
    {
        match self {
            Shift::Plus(by) => by == 0,
            Shift::Minus(by) => by == 0,
        }
    }
}

/// A join equality of a further table: one of its columns must equal a field of the outer list, plus a shift.
#[derive(Clone, Copy, Debug, PartialEq, Eq)]
pub struct JoinKey {
    /// The column of the further table, from 0.
    pub column: usize,
    /// The field of the outer list.
    pub field: FieldPlace,
    /// The shift that is added to the field's value.
    pub shift: Shift,
}

/// Returns the key of an atom for the table at a position of FROM, from 0, or `None` if the atom is not a join equality of that table. A
/// join equality is `=` between a column of the table and a column of an earlier table, in either order, with or without a shift.
pub fn join_key(atom: &Atom<FieldPlace>, place: usize) -> Option<JoinKey>
    ensures is { result ≡ key_of place atom.now }
    ensures key { IfSome result (λ key. (atoms : List (AnyAtom FieldPlace)) (outers : List ℕ) → Contains atoms atom.now → length outers ≡ place
        → IsJoin atoms outers key) }
    ensures earlier { IfSome result (λ key. key.field.place < place) }
    ensures none { IfNone result (IsJoinEquality place atom.now → ⊥) }
{
    let Comparison::Equal = atom.comparison else {
        return None;
    };
    match &atom.right {
        Operand::Literal(_) => None,
        Operand::Column(right) => key_between(atom.left, *right, 0, place),
        Operand::Shifted(right, by) => key_between(atom.left, *right, *by, place),
    }
}

/// Returns the key of the equality `left = right + by` for the table at a position. Returns `None` unless one field belongs to that table
/// and the other to an earlier one.
fn key_between(left: FieldPlace, right: FieldPlace, by: i64, place: usize) -> Option<JoinKey>
    ensures is { result ≡ key_between place left right by }
    ensures key { IfSome result (λ key.
        ((left.place ≡ place) × (right.place < place) × (key ≡ record { column = left.column; field = right; shift = shift.Plus by }))
        ⊎ ((right.place ≡ place) × (left.place < place) × (key ≡ record { column = right.column; field = left; shift = shift.Minus by }))) }
    ensures earlier { IfSome result (λ key. key.field.place < place) }
    ensures none { IfNone result (((left.place ≡ place) × (right.place < place)) ⊎ ((right.place ≡ place) × (left.place < place)) → ⊥) }
{
    if left.place == place && right.place < place {
        let column = left.column;
        let shift = Shift::Plus(by);
        Some(JoinKey {
            column,
            field: right,
            shift,
        })
    } else if right.place == place && left.place < place {
        let column = right.column;
        let shift = Shift::Minus(by);
        Some(JoinKey {
            column,
            field: left,
            shift,
        })
    } else {
        None
    }
}
