//! References to values.
ghost use Rattle.std.specs.Prelude.{◌≡◌, IfOk, IsOk};
ghost use Rattle.mm_value.specs.Storable.{LiesInline};
ghost use Rattle.mm_value.specs.Views.{value_of};

use crate::short_text::Text;
use crate::values::Value;
use std::alloc::{AllocError, Global};

/// A value in place: a number itself, or a reference to a text.
#[derive(Clone, Copy, Debug)]
pub enum ValueRef<'a> {
    /// A whole number.
    Int(i64),
    /// A text.
    Text(&'a Text),
}

impl Value {
    /// Returns a reference to the value.
    #[inline(always)]
    pub fn as_ref(&self) -> ValueRef<'_>
        ensures { value_of result ≡ self.now }
    {
        match self {
            Value::Int(number) => ValueRef::Int(*number),
            Value::Text(text) => ValueRef::Text(text),
        }
    }
}

impl<'a> ValueRef<'a> {
    /// Returns a copy of the value. Fails with `AllocError` if an allocation fails; only a text of more than 16 bytes needs one.
    pub fn copy(&self, alloc: Global) -> Result<Value, AllocError>
        ensures ok { IfOk result (λ value. value ≡ value_of self.now) }
        ensures inline { LiesInline (value_of self.now) → IsOk result }
    {
        match self {
            ValueRef::Int(number) => Ok(Value::Int(*number)),
            ValueRef::Text(text) => Ok(Value::Text(text.copy(alloc)?)),
        }
    }
}
