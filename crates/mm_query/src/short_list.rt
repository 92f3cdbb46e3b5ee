//! Lists that store their first items inline.
ghost use Rattle.std.specs.Prelude.{◌≡◌, ◌++◌, ◌∷◌, ◌<◌, [], IfOk, OnErr, OnOk, length, slice_set};

use smallvec::SmallVec;
use std::alloc::{AllocError, Global};
use std::marker::Model;

/// A list that stores up to `N` items inline: the fields of a query, or the tests of a change.
#[derive(Debug, Drop)]
pub struct ShortList<T: Default + Drop, const N: usize> {
    items: SmallVec<T, N>,
}

impl<T: Default + Drop, const N: usize> Model for ShortList<T, N> {
    ghost use Rattle.std.specs.Prelude.{List};

    ghost Value = { List T };

    ghost view = { λ l. l.items.items };
}

impl<T: Default + Drop, const N: usize> ShortList<T, N> {
    /// Returns an empty list with capacity for `count` items. Allocates only if `count` exceeds `N`. Fails with `AllocError` if the
    /// allocation fails.
    pub fn with_capacity(alloc: Global, count: usize) -> Result<ShortList<T, N>, AllocError>
        ensures { IfOk result (λ list. list ≡ []) }
    {
        let items = SmallVec::with_capacity(alloc, count)?;
        Ok(ShortList { items })
    }

    /// Returns the list of these items in their order. Allocates nothing.
    pub fn from_vec(items: Vec<T>) -> ShortList<T, N>
        ensures { result ≡ items.items }
    {
        ShortList {
            items: SmallVec::from_vec(items),
        }
    }

    /// Appends an item. Fails with `AllocError` if an allocation fails; the list is then unchanged.
    pub fn push(&mut self, item: T) -> Result<(), AllocError>
        ensures ok { OnOk result (self.new ≡ self.old ++ item ∷ []) }
        ensures err { OnErr result (self.new ≡ self.old) }
    {
        match self.items.push(item) {
            Ok(()) => Ok(()),
            Err(_) => Err(AllocError),
        }
    }

    /// Returns the items in order.
    pub fn as_slice(&self) -> &[T]
        ensures { result.now ≡ self.now }
    {
        self.items.as_slice()
    }

    /// Replaces the item at an index, counted from 0.
    pub fn set(&mut self, i: usize, item: T)
        requires { i < length self.old }
        ensures { self.new ≡ slice_set self.old i item }
    {
        self.items.as_mut_slice()[i] = item;
    }
}
