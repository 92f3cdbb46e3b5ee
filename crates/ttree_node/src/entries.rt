//! The entries of a node.
ghost use Rattle.std.specs.Prelude.{◌≡◌, ◌==◌, ◌+◌, ◌-◌, ◌<◌, ◌≤◌, [], ◌∷◌, ◌++◌, length, take, drop, insert, remove, slice_get, Some};
ghost use Rattle.std.specs.Iterator.{YieldsFirst, item_count};
ghost use Rattle.ttree_node.specs.Entries.{entry_at, first_entry, last_entry};

use mm_value::RowRef;
use std::iter::FusedIterator;
use std::marker::Model;
use std::mem;

/// The maximum number of entries of a node.
const ROOM: usize = 16;

/// At most 16 references. The model is their list. The length takes 2 bytes, where that of an `ArrayVec` takes 8, and is next to the first
/// reference.
#[derive(Drop)]
pub struct Entries {
    len: u16,
    places: [RowRef; ROOM],
}

impl Model for Entries {
    ghost use Rattle.std.specs.Prelude.{List, take};
    ghost use Rattle.mm_value.specs.declared.row_ref.RowRef.{RowRef as Ref};
    ghost use Rattle.ttree_node.specs.Entries.{IsShort};

    ghost Value = { List Ref };

    ghost view = { λ e. take e.len e.places };

    ghost invariant = { λ e. IsShort e.places e.len };
}

impl Entries {
    /// Returns an empty list.
    pub(crate) fn new() -> Entries
        ensures { result ≡ [] }
    {
        Entries {
            len: 0,
            places: [RowRef { slot: 0 }; ROOM],
        }
    }

    /// Returns the number of entries, at most 16.
    #[inline]
    pub fn len(&self) -> usize
        ensures value { result ≡ length self.now }
        ensures at_most_16 { result ≤ 16 }
    {
        self.len as usize
    }

    /// Returns whether there are no entries.
    pub fn is_empty(&self) -> bool
        ensures { result ≡ (length self.now == 0) }
    {
        self.len == 0
    }

    /// Returns the entry at position `i`.
    #[inline]
    pub fn get(&self, i: usize) -> RowRef
        requires { i < length self.now }
        ensures { result ≡ entry_at self.now i }
    {
        self.as_slice()[i]
    }

    /// Returns the entries in order.
    #[inline]
    fn as_slice(&self) -> &[RowRef]
        ensures { result.now ≡ self.now }
    {
        &self.places[..self.len as usize]
    }

    /// Returns the first entry.
    #[inline]
    pub fn first(&self) -> RowRef
        requires { 1 ≤ length self.now }
        ensures { result ≡ first_entry self.now }
    {
        self.get(0)
    }

    /// Returns the last entry.
    #[inline]
    pub fn last(&self) -> RowRef
        requires { 1 ≤ length self.now }
        ensures { result ≡ last_entry self.now }
    {
        self.get(self.len() - 1)
    }

    /// Iterates over the entries.
    #[inline]
    pub fn iter(&self) -> EntryIter<'_>
        ensures { result ≡ self.now }
    {
        EntryIter {
            left: self.as_slice(),
        }
    }

    /// Removes all entries.
    pub(crate) fn clear(&mut self)
        ensures { self.new ≡ [] }
    {
        self.len = 0;
    }

    /// Appends an entry.
    pub(crate) fn push(&mut self, entry: RowRef)
        requires room { length self.old < 16 }
        ensures { self.new ≡ self.old ++ entry ∷ [] }
    {
        let len = self.len as usize;
        self.places[len] = entry;
        self.len += 1;
    }

    /// Inserts an entry before the one at position `i`.
    pub(crate) fn insert(&mut self, i: usize, entry: RowRef)
        requires room { length self.old < 16 }
        requires in_bounds { i ≤ length self.old }
        ensures { self.new ≡ insert self.old i entry }
    {
        let len = self.len as usize;
        self.places.copy_within(i..len, i + 1);
        self.places[i] = entry;
        self.len += 1;
    }

    /// Removes and returns the entry at position `i`.
    pub(crate) fn remove(&mut self, i: usize) -> RowRef
        requires { i < length self.old }
        ensures taken { slice_get self.old i ≡ Some result }
        ensures rest { self.new ≡ remove self.old i }
    {
        let len = self.len as usize;
        let taken = self.places[i];
        self.places.copy_within(i + 1..len, i);
        self.len -= 1;
        taken
    }

    /// Removes and returns the last entry.
    pub(crate) fn pop_last(&mut self) -> RowRef
        requires { 1 ≤ length self.old }
        ensures last { result ≡ last_entry self.old }
        ensures rest { self.new ≡ remove self.old (length self.old - 1) }
    {
        let last = self.len() - 1;
        self.remove(last)
    }

    /// Appends entries.
    pub(crate) fn append(&mut self, behind: &Entries)
        requires { length self.old + length behind.now ≤ 16 }
        ensures { self.new ≡ self.old ++ behind.now }
    {
        self.extend(behind.as_slice());
    }

    fn extend(&mut self, behind: &[RowRef])
        requires { length self.old + length behind.now ≤ 16 }
        ensures { self.new ≡ self.old ++ behind.now }
    {
        let len = self.len as usize;
        let places = &mut self.places[..];
        places[len..len + behind.len()].copy_from_slice(behind);
        self.len += behind.len() as u16;
    }

    /// Inserts entries before the others.
    pub(crate) fn prepend(&mut self, front: &Entries)
        requires { length front.now + length self.old ≤ 16 }
        ensures { self.new ≡ front.now ++ self.old }
    {
        let mut all = Entries::new();
        all.append(front);
        all.append(self);
        *self = all;
    }

    /// Removes and returns the entries from position `at` on.
    pub(crate) fn split_off(&mut self, at: usize) -> Entries
        requires { at ≤ length self.old }
        ensures taken { result ≡ drop at self.old }
        ensures rest { self.new ≡ take at self.old }
    {
        let mut taken = Entries::new();
        taken.extend(&self.as_slice()[at..]);
        self.len = at as u16;
        taken
    }

    /// Removes and returns the first `n` entries.
    pub(crate) fn take_first(&mut self, n: usize) -> Entries
        requires { n ≤ length self.old }
        ensures taken { result ≡ take n self.old }
        ensures rest { self.new ≡ drop n self.old }
    {
        let rest = self.split_off(n);
        mem::replace(self, rest)
    }
}

/// An iterator over the entries of a node. Its model is the list of the remaining ones.
#[derive(Drop)]
pub struct EntryIter<'a> {
    left: &'a [RowRef],
}

impl<'a> Model for EntryIter<'a> {
    ghost use Rattle.std.specs.Prelude.{List};
    ghost use Rattle.mm_value.specs.declared.row_ref.RowRef.{RowRef as Ref};

    ghost Value = { List Ref };

    ghost view = { λ it. it.left.now };
}

impl<'a> EntryIter<'a> {
    /// Returns an iterator without entries.
    pub fn empty() -> Self
        ensures { result ≡ [] }
    {
        EntryIter { left: &[] }
    }
}

impl<'a> Iterator for EntryIter<'a> {
    type Item = RowRef;

    ghost next_gives = { YieldsFirst (λ rest. rest) };

    ghost remaining = { item_count (λ rest. rest) };

    #[inline]
    fn next(&mut self) -> Option<RowRef> {
        let (first, left) = self.left.split_first()?;
        self.left = left;
        Some(*first)
    }
}

impl<'a> FusedIterator for EntryIter<'a> {}
