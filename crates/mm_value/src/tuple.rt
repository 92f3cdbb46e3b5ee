//! The tuples of INSERT.
ghost use Rattle.std.specs.Prelude.{◌≡◌, ◌<◌, ◌≤◌, ◌++◌, ◌∷◌, [], length, IfOk, IsOk, OnErr, OnOk};
ghost use Rattle.mm_value.specs.Storable.{AreStorable};

use crate::values::Value;
use smallvec::SmallVec;
use std::alloc::{AllocError, Global};
use std::marker::Model;

/// The values of one row of an INSERT, from left to right, before they are moved into the columns of its table. Up to 4 values are stored
/// inline.
#[derive(Debug, Drop)]
pub struct Tuple {
    values: SmallVec<Value, 4>,
}

impl Model for Tuple {
    ghost use Rattle.std.specs.Prelude.{List};
    ghost use Rattle.mm_value.specs.Storable.{AreStorable};
    ghost use Rattle.mm_value.specs.declared.values.Value.{Value as Val};

    ghost Value = { List Val };

    ghost view = { λ t. t.values.items };

    ghost invariant = { λ t. AreStorable t.values.items };
}

impl Tuple {
    /// Returns an empty tuple with capacity for `count` values. Fails with `AllocError` if an allocation for more than 4 values fails.
    pub fn with_capacity(alloc: Global, count: usize) -> Result<Tuple, AllocError>
        ensures ok { IfOk result (λ tuple. tuple ≡ []) }
        ensures few { count ≤ 4 → IsOk result }
    {
        Ok(Tuple {
            values: SmallVec::with_capacity(alloc, count)?,
        })
    }

    /// Appends a value. Fails with `AllocError` if an allocation for more than 4 values fails; the tuple is then unchanged.
    pub fn push(&mut self, value: Value) -> Result<(), AllocError>
        ensures ok { OnOk result (self.new ≡ self.old ++ value ∷ []) }
        ensures err { OnErr result (self.new ≡ self.old) }
        ensures few { length self.old < 4 → IsOk result }
    {
        value.is_storable();
        // The contract of `capacity` implies that it is at least 4.
        let _room = self.values.capacity();
        match self.values.push(value) {
            Ok(()) => Ok(()),
            Err(_) => Err(AllocError),
        }
    }

    /// Lemma: whole numbers of a tuple have 64 bits, and its texts have at most 64 bytes and no line feed. The call does nothing.
    pub fn is_storable(&self)
        ensures { AreStorable self.now }
    {
        let _values = &self.values;
    }

    /// Returns the number of values.
    pub fn len(&self) -> usize
        ensures { result ≡ length self.now }
    {
        self.values.len()
    }

    /// Returns the values, from left to right.
    pub fn values(&self) -> &[Value]
        ensures { result.now ≡ self.now }
    {
        self.values.as_slice()
    }

    /// Returns the owned values, from left to right.
    pub fn into_values(self) -> SmallVec<Value, 4>
        ensures { result.items ≡ self }
    {
        let Tuple { values } = self;
        values
    }

    /// Returns copies of these values. Fails with `AllocError` if an allocation fails, for a text or for more than 4 values.
    pub fn copy_of(alloc: Global, values: &[Value]) -> Result<Tuple, AllocError>
        ensures ok { IfOk result (λ tuple. tuple ≡ values.now) }
    {
        let mut copies = Tuple::with_capacity(alloc, values.len())?;
        for value in values {
            copies.push(value.copy(alloc)?)?;
        }
        Ok(copies)
    }
}
