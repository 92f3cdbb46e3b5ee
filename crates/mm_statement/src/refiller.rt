//! The remaining values for the holes of a bound command.
ghost use Rattle.std.specs.Prelude.{◌≡◌, ◌∷◌, [], IfOk, IfSome, OnOk};
ghost use Rattle.std.specs.Option.{unwrap_or};
ghost use Rattle.mm_value.specs.declared.values.Value.TheVariants.{Int};
ghost use Rattle.mm_statement.specs.Refilling.{signed};
ghost use Rattle.mm_statement.specs.steps.Refills.{Puts, Suits};

use crate::holes::Holes;
use mm_value::Value;
use std::alloc::{AllocError, AllocFailed, Global};

/// Why a bound command does not receive its values.
#[derive(Debug, Drop)]
pub(crate) enum Stop {
    /// There are more or fewer values than holes, or a value does not fit its hole.
    Misfit,
    /// An allocation failed.
    Memory,
}

impl From<AllocError> for Stop {
    fn from(_error: AllocError) -> Stop {
        Stop::Memory
    }
}

impl<T: Drop> From<AllocFailed<T>> for Stop {
    fn from(_error: AllocFailed<T>) -> Stop {
        Stop::Memory
    }
}

/// For each remaining literal whether it is a hole and whether it reads as -1, and the remaining values.
#[derive(Drop)]
pub(crate) struct Refiller<'a> {
    pub(crate) holes: &'a [bool],
    pub(crate) minus_ones: &'a [bool],
    pub(crate) values: &'a [Value],
}

impl<'a> Refiller<'a> {
    /// Returns a refiller for all literals of a command and all values.
    pub(crate) fn new(holes: &'a Holes, values: &'a [Value]) -> Refiller<'a>
        ensures holes { result.holes.now ≡ holes.now.are_holes }
        ensures minus_ones { result.minus_ones.now ≡ holes.now.are_minus_one }
        ensures values { result.values.now ≡ values.now }
    {
        Refiller {
            holes: holes.as_slice(),
            minus_ones: holes.minus_ones(),
            values,
        }
    }

    /// Returns the value for the next literal, or `None` if that is not a hole. Fails with `Misfit` if no value remains or the next one
    /// does not fit, and with `Memory` if an allocation fails.
    pub(crate) fn next(&mut self, alloc: Global, literal: &Value) -> Result<Option<Value>, Stop>
        ensures { IfOk result (λ value. Puts self.old self.new (literal.now ∷ []) (unwrap_or value literal.now ∷ [])) }
    {
        let Some((is_hole, holes)) = self.holes.split_first() else {
            return Ok(None);
        };
        let (is_minus_one, minus_ones) = self.minus_ones.split_first().ok_or(Stop::Misfit)?;
        self.holes = holes;
        self.minus_ones = minus_ones;
        if !*is_hole {
            return Ok(None);
        }
        let (value, values) = self.values.split_first().ok_or(Stop::Misfit)?;
        self.values = values;
        let filled = suited(alloc, *is_minus_one, value, literal)?;
        Ok(Some(filled))
    }

    /// Checks that no value remains. Fails with `Misfit` if one does.
    pub(crate) fn finish(&self) -> Result<(), Stop>
        ensures { OnOk result (self.now.values.now ≡ []) }
    {
        if self.values.is_empty() {
            Ok(())
        } else {
            Err(Stop::Misfit)
        }
    }
}

/// Returns the value for the hole of a literal, negated if the hole reads as -1. Fails with `Misfit` if its type differs from the literal's
/// or the negated number is out of range, and with `Memory` if an allocation fails.
fn suited(alloc: Global, is_minus_one: bool, value: &Value, literal: &Value) -> Result<Value, Stop>
    ensures { IfOk result (Suits is_minus_one value.now literal.now) }
{
    value.is_storable();
    match (value, literal) {
        (Value::Int(number), Value::Int(_)) => {
            let signed = signed_number(*number, is_minus_one).ok_or(Stop::Misfit)?;
            Ok(Value::Int(signed))
        }
        (Value::Text(text), Value::Text(_)) => Ok(Value::Text(text.copy(alloc)?)),
        _ => Err(Stop::Misfit),
    }
}

/// Returns a number or its negation, or `None` if that is out of range.
fn signed_number(number: i64, is_negated: bool) -> Option<i64>
    ensures { IfSome result (λ filled. Int filled ≡ signed is_negated (Int number)) }
{
    if is_negated {
        number.checked_neg()
    } else {
        Some(number)
    }
}
