//! Atoms: the conditions of WHERE, and the assignments of SET.
ghost use Rattle.std.specs.Prelude.{◌≡◌, ◌<◌, ◌+ℤ◌, ℕ, Some, length};
ghost use Rattle.std.specs.Option.{option_copied};
ghost use Rattle.std.specs.Ordering.{int_cmp};
ghost use Rattle.mm_value.specs.Order.{value_cmp};
ghost use Rattle.mm_value.specs.Views.{value_of};
ghost use Rattle.mm_query.specs.Atoms.{ReadsWithin, holds, operand_of, shifted, stands, value_in};
ghost use Rattle.mm_query.specs.Resolving.{column_of};

use mm_value::{AsRow, Value, ValueRef, compare};
use std::cmp::Ordering;

/// A comparison operator of an atom.
#[derive(Clone, Copy, Debug, PartialEq, Eq)]
pub enum Comparison {
    /// `=`
    Equal,
    /// `<`
    Less,
    /// `<=`
    LessOrEqual,
    /// `>`
    Greater,
    /// `>=`
    GreaterOrEqual,
}

/// The right side of an atom or an assignment. `F` identifies a column, by its name as written or by its position.
#[derive(Debug, Drop)]
pub enum Operand<F> {
    /// A value.
    Literal(Value),
    /// The value of a column.
    Column(F),
    /// The sum of a column's value and a number, which may be 0.
    Shifted(F, i64),
}

/// A condition on rows: a comparison of a column's value with another value.
#[derive(Debug, Drop)]
pub struct Atom<F> {
    /// The column on the left side.
    pub left: F,
    /// The comparison operator.
    pub comparison: Comparison,
    /// The right side.
    pub right: Operand<F>,
}

/// A new value for a column.
#[derive(Debug, Default, Drop)]
pub struct Assignment<F> {
    /// The column that is assigned.
    pub column: F,
    /// The new value, computed from the old row alone.
    pub source: Operand<F>,
}

impl<F> Default for Operand<F> {
    fn default() -> Operand<F> {
        Operand::Literal(Value::Int(0))
    }
}

impl<F: Default> Default for Atom<F> {
    fn default() -> Atom<F> {
        Atom {
            left: F::default(),
            comparison: Comparison::Equal,
            right: Operand::default(),
        }
    }
}

impl<F> Operand<F> {
    /// Returns the column of the operand, or `None` for a literal.
    pub fn column(&self) -> Option<&F>
        ensures { option_copied result ≡ column_of self.now }
    {
        match self {
            Operand::Literal(_) => None,
            Operand::Column(column) => Some(column),
            Operand::Shifted(column, _) => Some(column),
        }
    }
}

impl Comparison {
    /// Returns whether the comparison holds for two values that compare as `ordering`.
    pub fn accepts(self, ordering: Ordering) -> bool
        ensures { result ≡ stands self ordering }
    {
        match self {
            Comparison::Equal => ordering.is_eq(),
            Comparison::Less => ordering.is_lt(),
            Comparison::LessOrEqual => ordering.is_le(),
            Comparison::Greater => ordering.is_gt(),
            Comparison::GreaterOrEqual => ordering.is_ge(),
        }
    }
}

/// Returns the sum of two numbers, which may exceed 64 bits.
fn sum(a: i64, b: i64) -> i128
    ensures { result ≡ a +ℤ b }
{
    i128::from(a) + i128::from(b)
}

/// Compares a number with a sum that may exceed 64 bits.
fn compare_with_sum(a: i64, sum: i128) -> Ordering
    ensures { result ≡ int_cmp a sum }
{
    i128::from(a).cmp(&sum)
}

/// Compares a value with the sum of another value and a number. The sum is unbounded.
pub(crate) fn compare_shifted(a: ValueRef<'_>, b: ValueRef<'_>, shift: i64) -> Ordering
    ensures { result ≡ value_cmp (value_of a.entry) (shifted shift (value_of b.entry)) }
{
    match (a, b) {
        (ValueRef::Int(a), ValueRef::Int(b)) => compare_with_sum(a, sum(b, shift)),
        _ => compare(&a, &b),
    }
}

impl Atom<usize> {
    /// Returns whether the atom is true of a row. Sums are unbounded, so `k < k + 1` is true of every row.
    pub fn holds<R: AsRow>(&self, row: &R) -> bool
        requires { ReadsWithin (length (R.AsRow.row row.now)) self.now.left self.now.right }
        ensures { result ≡ holds (λ (column : ℕ). Some (value_in column (R.AsRow.row row.now))) self.now }
    {
        let left = row.value(self.left);
        let ordering = match &self.right {
            Operand::Literal(value) => compare(&left, value),
            Operand::Column(column) => compare(&left, &row.value(*column)),
            Operand::Shifted(column, shift) => compare_shifted(left, row.value(*column), *shift),
        };
        self.comparison.accepts(ordering)
    }
}
