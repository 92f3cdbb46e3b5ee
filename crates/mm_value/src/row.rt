//! Rows.
ghost use Rattle.std.specs.Prelude.{◌≡◌, ◌<◌, length, slice_get, Some, IfOk};
ghost use Rattle.mm_value.specs.Storable.{AreStorable};

use crate::values::Value;
use std::alloc::{AllocError, Global};
use std::marker::Model;

/// A row: its values from left to right.
#[derive(Debug, Drop)]
pub struct Row {
    values: Vec<Value>,
}

impl Model for Row {
    ghost use Rattle.std.specs.Prelude.{List};
    ghost use Rattle.mm_value.specs.Storable.{AreStorable};
    ghost use Rattle.mm_value.specs.declared.values.Value.{Value as Val};

    ghost Value = { List Val };

    ghost view = { λ r. r.values.items };

    ghost invariant = { λ r. AreStorable r.values.items };
}

impl Row {
    /// Returns a row of these values.
    pub fn new(values: Vec<Value>) -> Row
        ensures { result ≡ values.items }
    {
        for value in &values {
            value.is_storable();
        }
        Self { values }
    }

    /// Lemma: whole numbers of a row have 64 bits, and its texts have at most 64 bytes and no line feed. The call does nothing.
    pub fn is_storable(&self)
        ensures { AreStorable self.now }
    {
        let _values = &self.values;
    }

    /// Returns the number of values.
    pub fn len(&self) -> usize
        ensures { result ≡ length self.now }
    {
        self.values.len()
    }

    /// Returns the value at a position, counted from 0.
    pub fn value(&self, i: usize) -> &Value
        requires { i < length self.now }
        ensures { slice_get self.now i ≡ Some result.now }
    {
        &self.values[i]
    }

    /// Returns the values, from left to right.
    pub fn values(&self) -> &[Value]
        ensures { result.now ≡ self.now }
    {
        self.values.as_slice()
    }

    /// Returns the owned values, from left to right.
    pub fn into_values(self) -> Vec<Value>
        ensures { result.items ≡ self }
    {
        let Row { values } = self;
        values
    }

    /// Returns a copy of the row. Fails with `AllocError` if an allocation fails, for the list of values or for a text.
    pub fn copy(&self, alloc: Global) -> Result<Row, AllocError>
        ensures ok { IfOk result (λ row. row ≡ self.now) }
    {
        Row::copy_of(alloc, self.values())
    }

    /// Returns a row of copies of these values. Fails with `AllocError` if an allocation fails, for the list of values or for a text.
    pub fn copy_of(alloc: Global, values: &[Value]) -> Result<Row, AllocError>
        ensures ok { IfOk result (λ row. row ≡ values.now) }
    {
        let mut copies = Vec::with_capacity(alloc, values.len())?;
        for value in values {
            copies.push(value.copy(alloc)?)?;
        }
        Ok(Row::new(copies))
    }
}
