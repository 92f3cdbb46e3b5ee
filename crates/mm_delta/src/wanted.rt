//! The value that a row must have in a column.
ghost use Rattle.std.specs.Prelude.{◌≡◌, MatchOption, FitsSigned};
ghost use Rattle.std.specs.Int.{w64};
ghost use Rattle.std.specs.Ordering.{is_eq};
ghost use Rattle.mm_value.specs.Views.{value_of};
ghost use Rattle.mm_value.specs.Order.{value_cmp};
ghost use Rattle.mm_value.specs.declared.values.Value.TheVariants.{Int};
ghost use Rattle.mm_delta.specs.Wanted.{value_wanted};

use mm_value::{Value, ValueRef, compare};

/// The value that a row must have in a column.
#[derive(Drop)]
pub(crate) enum Wanted {
    /// A value of a row or of the query.
    Value(Value),
    /// An integer plus a shift. No row has it if it exceeds 64 bits.
    Sum(i128),
}

impl Wanted {
    /// Returns whether a value is the wanted one.
    pub(crate) fn is(&self, value: ValueRef<'_>) -> bool
        ensures { result ≡ is_eq (value_cmp (value_of value.entry) (value_wanted self.now)) }
    {
        match self {
            Wanted::Value(wanted) => compare(&value, wanted).is_eq(),
            Wanted::Sum(sum) => match value {
                ValueRef::Int(number) => i128::from(number).cmp(sum).is_eq(),
                ValueRef::Text(_) => false,
            },
        }
    }
}

/// Returns an integer as a value if it fits 64 bits.
pub(crate) fn number_value(number: i128) -> Option<Value>
    ensures { MatchOption result (¬ FitsSigned w64 number) (λ value. value ≡ Int number) }
{
    match i64::try_from(number) {
        Ok(number) => Some(Value::Int(number)),
        Err(_) => None,
    }
}
