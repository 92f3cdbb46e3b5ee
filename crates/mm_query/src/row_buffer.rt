//! Rows whose values are stored in one vector.
ghost use Rattle.std.specs.Prelude.{◌≡◌, ◌++◌, ◌<◌, ◌∷◌, [], OnErr, OnOk, Some, length, map, slice_get, take};

use mm_value::{AsValue, Value};
use std::alloc::{AllocError, Global};
use std::marker::Model;

/// The range of a row's values.
#[derive(Clone, Copy, Debug)]
pub(crate) struct Span {
    start: usize,
    len: usize,
}

/// A list of rows whose values are stored in one vector. Clearing keeps the capacity of both vectors for later rows.
#[derive(Debug, Drop)]
pub struct RowBuffer {
    /// The values of all rows, in order.
    values: Vec<Value>,
    /// The range of each row's values.
    spans: Vec<Span>,
}

impl Model for RowBuffer {
    ghost use Rattle.std.specs.Prelude.{All, List, map};
    ghost use Rattle.mm_value.specs.declared.values.Value.{Value as Val};
    ghost use Rattle.mm_query.specs.Buffers.{IsWithin, part};

    ghost Value = { List (List Val) };

    ghost view = { λ b. map (part b.values.items) b.spans.items };

    ghost invariant = { λ b. All (IsWithin b.values.items) b.spans.items };
}

impl RowBuffer {
    /// Returns an empty list. Allocates nothing.
    pub fn new(alloc: Global) -> RowBuffer
        ensures { result ≡ [] }
    {
        RowBuffer {
            values: Vec::new(alloc),
            spans: Vec::new(alloc),
        }
    }

    /// Removes all rows.
    pub fn clear(&mut self)
        ensures { self.new ≡ [] }
    {
        self.values.clear();
        self.spans.clear();
    }

    /// Returns the number of rows.
    pub fn len(&self) -> usize
        ensures { result ≡ length self.now }
    {
        self.spans.len()
    }

    /// Returns the values of a row. `i` counts from 0.
    pub fn row(&self, i: usize) -> &[Value]
        requires { i < length self.now }
        ensures { slice_get self.now i ≡ Some result.now }
    {
        let Span { start, len } = self.spans[i];
        let values = self.values.as_slice();
        &values[start..start + len]
    }

    /// Appends a copy of a row. Fails with `AllocError` if an allocation fails; the rows are then unchanged.
    pub fn push<V: AsValue>(&mut self, alloc: Global, row: &[V]) -> Result<(), AllocError>
        ensures ok { OnOk result (self.new ≡ self.old ++ map V.value row.now ∷ []) }
        ensures err { OnErr result (self.new ≡ self.old) }
    {
        self.spans.reserve(1)?;
        let start = self.values.len();
        match push_values(alloc, &mut self.values, row) {
            Ok(()) => {
                let len = row.len();
                self.spans.push_reserved(Span { start, len });
                Ok(())
            }
            Err(refused) => {
                self.values.truncate(start);
                Err(refused)
            }
        }
    }
}

/// Appends copies of the values of a row. After `AllocError`, some of the copies may have been appended.
fn push_values<V: AsValue>(
    alloc: Global,
    values: &mut Vec<Value>,
    row: &[V],
) -> Result<(), AllocError>
    ensures ok { OnOk result (values.new.items ≡ values.old.items ++ map V.value row.now) }
    ensures err { OnErr result (take (length values.old.items) values.new.items ≡ values.old.items) }
{
    for value in row {
        let copy = value.as_value().copy(alloc)?;
        values.push(copy)?;
    }
    Ok(())
}
