//! Values to sort by.
ghost use Rattle.std.specs.Prelude.{◌≡◌};
ghost use Rattle.mm_value.specs.Order.{value_cmp};
ghost use Rattle.mm_value.specs.Prefix.{order_prefix};
ghost use Rattle.mm_value.specs.Views.{value_of};

use mm_value::{AsValue, ValueRef, compare, order_prefix};
use std::cmp::Ordering;

/// A value to sort by.
pub trait SortValue: AsValue {
    /// Compares it with another value.
    fn compare_to(&self, other: &Self) -> Ordering
        ensures { result ≡ value_cmp (Self.value self.now) (Self.value other.now) };
}

/// A value and its prefix, which decides most comparisons without a read of the text.
#[derive(Clone, Copy, Drop)]
pub struct Prefixed<'a> {
    prefix: u64,
    pub value: ValueRef<'a>,
    ghost same: { prefix ≡ order_prefix (value_of value) },
}

impl<'a> Prefixed<'a> {
    /// Returns a value with its prefix.
    pub fn new(value: ValueRef<'a>) -> Self
        ensures { value_of result.value ≡ value_of value.entry }
    {
        Prefixed {
            prefix: order_prefix(&value),
            value,
        }
    }
}

impl<'a> AsValue for Prefixed<'a> {
    ghost value = { λ p. value_of p.value };

    #[inline(always)]
    fn as_value(&self) -> ValueRef<'_> {
        self.value
    }
}

impl<'a> SortValue for Prefixed<'a> {
    #[inline(always)]
    fn compare_to(&self, other: &Self) -> Ordering {
        if self.prefix < other.prefix {
            Ordering::Less
        } else if other.prefix < self.prefix {
            Ordering::Greater
        } else {
            compare(&self.value, &other.value)
        }
    }
}
