//! The remaining values for the holes of a command.
ghost use Rattle.std.specs.Prelude.{◌≡◌, ◌↔◌, ◌∷◌, [], IsTrue, length, negsuc, pos};
ghost use Rattle.std.specs.Vec.Iter.{into_iter_items, into_iter_len};
ghost use Rattle.mm_value.specs.declared.values.Value.TheVariants.{Int};

use crate::holes::is_minus_one;
use mm_value::Value;
use std::vec;

/// For each remaining literal whether it is a hole, and the remaining values.
#[derive(Drop)]
pub(crate) struct Filler<'a> {
    pub(crate) holes: &'a [bool],
    pub(crate) values: vec::IntoIter<Value>,
    /// Whether any number after a minus is out of range.
    pub(crate) is_out_of_range: bool,
    ghost counted: { length (into_iter_items values) ≡ into_iter_len values },
}

impl Filler<'_> {
    ghost use Rattle.mm_value.specs.Storable.{IsStorable};
    ghost use Rattle.mm_statement.specs.Filling.{given};
    ghost use Rattle.mm_statement.specs.steps.Fills.{KeepsPositions, Notes, Replaces, Takes};

    /// Returns the value for the next literal, or `None` if that is not a hole.
    fn take(&mut self) -> Option<Value>
        ensures taken { Takes self.old self.new result }
        ensures fault { self.new.is_out_of_range ≡ self.old.is_out_of_range }
    {
        let (is_hole, holes) = self.holes.split_first()?;
        self.holes = holes;
        if *is_hole { self.values.next() } else { None }
    }

    /// Returns the value for the next literal, or `None` if that is not a hole. Negates a number after a minus, and records one that is
    /// then out of range.
    pub(crate) fn next(&mut self, literal: &Value) -> Option<Value>
        ensures { Replaces self.old self.new literal.now result }
    {
        literal.is_storable();
        let Some(value) = self.take() else {
            return None;
        };
        value.is_storable();
        if is_minus_one(literal) {
            Some(self.negated(value))
        } else {
            Some(value)
        }
    }

    /// Returns the value for a hole after a minus: a number is negated. Records a number that is then out of range, and returns it
    /// unchanged.
    fn negated(&mut self, value: Value) -> Value
        requires { IsStorable value }
        ensures { Notes self.old self.new (given (Int (negsuc 0)) value) result }
    {
        match value {
            Value::Int(number) => {
                let Some(negated) = number.checked_neg() else {
                    self.is_out_of_range = true;
                    return Value::Int(number);
                };
                Value::Int(negated)
            }
            Value::Text(text) => Value::Text(text),
        }
    }

    /// Skips a position of ORDER, which no value changes. Returns `false` if a value is given for it that is not the position itself.
    fn keeps_position(&mut self, position: usize) -> bool
        ensures { KeepsPositions self.old self.new (position ∷ []) result }
    {
        let Some(value) = self.take() else {
            return true;
        };
        is_position(&value, position)
    }

    /// Skips the positions of ORDER, which no value changes. Returns `false` if a value is given for one that is not the position itself.
    pub(crate) fn keeps_positions(&mut self, positions: &[usize]) -> bool
        ensures { KeepsPositions self.old self.new positions.now result }
    {
        for position in positions {
            if !self.keeps_position(*position) {
                return false;
            }
        }
        true
    }
}

/// Returns whether a value is the number of a position.
fn is_position(value: &Value, position: usize) -> bool
    ensures { IsTrue result ↔ (value.now ≡ Int (pos position)) }
{
    match value {
        Value::Int(number) => usize::try_from(*number) == Ok(position),
        Value::Text(_) => false,
    }
}
