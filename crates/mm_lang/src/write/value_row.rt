//! A slice of values as a row.
ghost use Rattle.std.specs.Prelude.{map};

use mm_value::{AsRow, AsValue, ValueRef};

/// A row whose values are stored in a slice.
#[derive(Drop)]
pub(crate) struct ValueRow<'v, V> {
    pub(crate) values: &'v [V],
}

impl<'v, V: AsValue> AsRow for ValueRow<'v, V> {
    ghost row = { λ r. map V.AsValue.value r.values.now };

    #[inline(always)]
    fn len(&self) -> usize {
        self.values.len()
    }

    #[inline(always)]
    fn value(&self, i: usize) -> ValueRef<'_> {
        self.values[i].as_value()
    }
}
