//! A common trait for rows and references to them.
ghost use Rattle.std.specs.Prelude.{◌≡◌, ◌<◌, List, Some, length, slice_get};
ghost use Rattle.std.specs.Option.{option_map};
ghost use Rattle.mm_value.specs.Views.{value_of};
ghost use Rattle.mm_value.specs.declared.values.Value.{Value as AnyValue};

use crate::row::Row;
use crate::value_ref::ValueRef;
use crate::values::Value;

/// A source of a row.
pub trait AsRow {
    ghost row: { Self → List AnyValue };

    /// Returns the number of values of the row.
    fn len(&self) -> usize
        ensures { result ≡ length (row self.now) };

    /// Returns the value at a position, counted from 0.
    fn value(&self, i: usize) -> ValueRef<'_>
        requires { i < length (row self.now) }
        ensures { slice_get (row self.now) i ≡ Some (value_of result) };

    /// Returns the value at a position, counted from 0, or `None` if the row has none there.
    #[inline(always)]
    fn get(&self, i: usize) -> Option<ValueRef<'_>>
        ensures { option_map value_of result ≡ slice_get (row self.now) i }
    {
        if i < self.len() {
            Some(self.value(i))
        } else {
            None
        }
    }
}

impl AsRow for Row {
    ghost row = { λ r. r };

    #[inline(always)]
    fn len(&self) -> usize {
        self.values().len()
    }

    #[inline(always)]
    fn value(&self, i: usize) -> ValueRef<'_> {
        self.values()[i].as_ref()
    }
}

impl<'r> AsRow for &'r Row {
    ghost row = { λ r. r.now };

    #[inline(always)]
    fn len(&self) -> usize {
        (*self).values().len()
    }

    #[inline(always)]
    fn value(&self, i: usize) -> ValueRef<'_> {
        (*self).values()[i].as_ref()
    }
}

impl<'r> AsRow for &'r [Value] {
    ghost row = { λ r. r.now };

    #[inline(always)]
    fn len(&self) -> usize {
        (**self).len()
    }

    #[inline(always)]
    fn value(&self, i: usize) -> ValueRef<'_> {
        (*self)[i].as_ref()
    }
}
