//! Rows read in place.
ghost use Rattle.std.specs.Prelude.{◌≡◌, true};
ghost use Rattle.mm_partition.specs.Places.{holds_row, content_at, row_in};
ghost use Rattle.mm_partition.specs.Types.{HasTypes};

use crate::rows::Partitions;
use mm_value::{AsRow, Row, ValueRef};
use std::alloc::{AllocError, Global};

/// A stored row, read in place.
#[derive(Clone, Copy)]
pub struct RowView<'a> {
    pub(crate) rows: &'a Partitions,
    /// The index of the row's slot.
    pub(crate) index: usize,
    ghost taken: { holds_row (content_at rows.now index) ≡ true },
    ghost typed: { HasTypes rows.now.types (row_in (content_at rows.now index)) },
}

impl<'a> RowView<'a> {
    ghost use Rattle.std.specs.Prelude.{◌<◌, length, slice_get, Some, IfOk};
    ghost use Rattle.std.specs.Option.{option_map};
    ghost use Rattle.mm_value.specs.Views.{value_of};
    ghost use Rattle.mm_partition.specs.Views.{viewed};

    /// Returns the number of values.
    #[inline(always)]
    pub fn len(&self) -> usize
        ensures { result ≡ length (viewed self.now) }
    {
        self.rows.width()
    }

    /// Returns the value at a position, from 0.
    #[inline(always)]
    pub fn value(&self, i: usize) -> ValueRef<'a>
        requires { i < length (viewed self.now) }
        ensures { slice_get (viewed self.now) i ≡ Some (value_of result) }
    {
        self.rows.cell(self.index, i)
    }

    /// Returns the value at a position, from 0, or `None` past the end of the row.
    #[inline(always)]
    pub fn get(&self, i: usize) -> Option<ValueRef<'a>>
        ensures { option_map value_of result ≡ slice_get (viewed self.now) i }
    {
        if i < self.len() {
            Some(self.value(i))
        } else {
            None
        }
    }

    /// Returns a copy of the row. Fails with `AllocError` if the allocation of the list of values or of a text fails.
    pub fn copy(&self, alloc: Global) -> Result<Row, AllocError>
        ensures ok { IfOk result (λ row. row ≡ viewed self.now) }
    {
        let width = self.len();
        let mut values = Vec::with_capacity(alloc, width)?;
        for i in 0..width {
            values.push_reserved(self.value(i).copy(alloc)?);
        }
        Ok(Row::new(values))
    }
}

impl<'a> AsRow for RowView<'a> {
    ghost use Rattle.mm_partition.specs.Views.{viewed};

    ghost row = { viewed };

    #[inline(always)]
    fn len(&self) -> usize {
        RowView::len(self)
    }

    #[inline(always)]
    fn value(&self, i: usize) -> ValueRef<'_> {
        RowView::value(self, i)
    }
}
