//! Lists that store a single item inline.
ghost use Rattle.std.specs.Prelude.{◌≡◌, ◌∷◌, ◌++◌, ◌≤◌, [], IfOk, IsOk, OnErr, OnOk};
ghost use Rattle.std.specs.Iterator.{YieldsFirst, item_count};
ghost use Rattle.std.specs.Mem.{FitsInMemory};

use std::alloc::{AllocError, Global};
use std::marker::Model;
use std::{mem, slice, vec};

/// A list that stores a single item inline: the tests of a WHERE, the rows of an INSERT, or the edits of a table.
#[derive(Debug, Drop)]
pub struct Few<T> {
    items: Items<T>,
}

/// The representation of a list.
#[derive(Debug, Drop)]
enum Items<T> {
    /// A single item.
    One(T),
    /// Any number of items.
    Many(Vec<T>),
}

impl<T> Model for Few<T> {
    ghost use Rattle.std.specs.Prelude.{List};
    ghost use Rattle.mm_value.specs.Few.{items_in};

    ghost Value = { List T };

    ghost view = { λ few. items_in few.items };
}

impl<T> Few<T> {
    /// Returns the list of one item. Allocates nothing.
    pub fn one(item: T) -> Few<T>
        ensures { result ≡ item ∷ [] }
    {
        Few {
            items: Items::One(item),
        }
    }

    /// Returns the list of these items in their order. Allocates nothing.
    pub fn from_vec(items: Vec<T>) -> Few<T>
        ensures { result ≡ items.items }
    {
        Few {
            items: Items::Many(items),
        }
    }

    /// Returns the items in order.
    pub fn as_slice(&self) -> &[T]
        requires { FitsInMemory T.row }
        ensures { result.now ≡ self.now }
    {
        match &self.items {
            Items::One(item) => slice::from_ref(item),
            Items::Many(items) => items.as_slice(),
        }
    }
}

impl<T: Drop> Few<T> {
    /// Returns an empty list with capacity for `count` items. Fails with `AllocError` if an allocation for more than one item fails.
    pub fn with_capacity(alloc: Global, count: usize) -> Result<Few<T>, AllocError>
        ensures ok { IfOk result (λ few. few ≡ []) }
        ensures one { count ≤ 1 → IsOk result }
    {
        if count <= 1 {
            return Ok(Few::from_vec(Vec::new(alloc)));
        }
        Ok(Few::from_vec(Vec::with_capacity(alloc, count)?))
    }

    /// Appends an item. Fails with `AllocError` if an allocation fails; the list is then unchanged. Never fails for the first item.
    pub fn push(&mut self, alloc: Global, item: T) -> Result<(), AllocError>
        ensures ok { OnOk result (self.new ≡ self.old ++ item ∷ []) }
        ensures err { OnErr result (self.new ≡ self.old) }
        ensures first { self.old ≡ [] → IsOk result }
    {
        if let Items::Many(items) = &mut self.items {
            if items.capacity() > 0 {
                items.push(item)?;
                return Ok(());
            }
            self.items = Items::One(item);
            return Ok(());
        }
        let mut items = Vec::with_capacity(alloc, 4)?;
        let Items::One(first) = mem::replace(&mut self.items, Items::Many(Vec::new(alloc))) else {
            unreachable!()
        };
        items.push_reserved(first);
        items.push_reserved(item);
        self.items = Items::Many(items);
        Ok(())
    }
}

/// An iterator over the owned items of a list. The model is the list of the remaining items.
#[derive(Drop)]
pub struct FewIntoIter<T> {
    left: Left<T>,
}

/// The representation of the remaining items.
#[derive(Drop)]
enum Left<T> {
    /// A list of a single item, which may have been returned.
    One(Option<T>),
    /// A list of any number of items.
    Many(vec::IntoIter<T>),
}

impl<T> Model for FewIntoIter<T> {
    ghost use Rattle.std.specs.Prelude.{List};
    ghost use Rattle.mm_value.specs.Few.{IsCounted, items_to_come};

    ghost Value = { List T };

    ghost view = { λ it. items_to_come it.left };

    ghost invariant = { λ it. IsCounted it.left };
}

impl<T: Drop> Iterator for FewIntoIter<T> {
    type Item = T;

    ghost next_gives = { YieldsFirst (λ rest. rest) };

    ghost remaining = { item_count (λ rest. rest) };

    fn next(&mut self) -> Option<T> {
        match &mut self.left {
            Left::One(item) => item.take(),
            Left::Many(items) => items.next(),
        }
    }
}

impl<T: Drop> IntoIterator for Few<T> {
    type Item = T;

    type IntoIter = FewIntoIter<T>;

    ghost into_iter_gives = { λ few it. it ≡ few };

    fn into_iter(self) -> FewIntoIter<T> {
        let Few { items } = self;
        let left = match items {
            Items::One(item) => Left::One(Some(item)),
            Items::Many(items) => Left::Many(items.into_iter()),
        };
        FewIntoIter { left }
    }
}
