//! A common trait for values and references to them.
ghost use Rattle.std.specs.Prelude.{◌≡◌};
ghost use Rattle.mm_value.specs.Views.{value_of};
ghost use Rattle.mm_value.specs.declared.values.Value.{Value as AnyValue};

use crate::value_ref::ValueRef;
use crate::values::Value;

/// A source of a value.
pub trait AsValue {
    ghost value: { Self → AnyValue };

    /// Returns a reference to the value.
    fn as_value(&self) -> ValueRef<'_>
        ensures { value_of result ≡ value self.now };
}

impl AsValue for Value {
    ghost value = { λ v. v };

    #[inline(always)]
    fn as_value(&self) -> ValueRef<'_> {
        self.as_ref()
    }
}

impl<'v> AsValue for &'v Value {
    ghost value = { λ v. v.now };

    #[inline(always)]
    fn as_value(&self) -> ValueRef<'_> {
        let value: &Value = *self;
        value.as_ref()
    }
}

impl<'v> AsValue for ValueRef<'v> {
    ghost value = { value_of };

    #[inline(always)]
    fn as_value(&self) -> ValueRef<'_> {
        *self
    }
}
