//! Inserting and removing entries at the end of a path, without changing the shape of the tree.
ghost use Rattle.std.specs.Prelude.{◌≡◌, ◌+◌, ◌<◌, ◌≤◌, length, insert, remove, slice_get, Some, IfSome, IfNone, OnSome};
ghost use Rattle.std.specs.Bool.{OnTrue, OnFalse};
ghost use Rattle.ttree_node.specs.Tree.{IsFork, fork};
ghost use Rattle.ttree_node.specs.Paths.{HasRoomAtEnd, HasRoomOnLeft, HasSpareAtEnd, HasSpareOnLeft, borrowed, end_of, popped, tree_at, entries_at, exchanged, pushed, with_entries, with_tree};

use crate::nodes::{Node, Subtree};
use crate::slides::Side;
use mm_value::RowRef;

impl Subtree {
    /// Inserts an entry before the one at position `i` of the node at the end of a path.
    pub fn put_entry_at(&mut self, path: &[Side], i: usize, entry: RowRef)
        requires there { IsFork (tree_at path.now (fork self.old)) }
        requires room { length (entries_at path.now (fork self.old)) < 16 }
        requires in_bounds { i ≤ length (entries_at path.now (fork self.old)) }
        ensures { fork self.new ≡ with_entries path.now (insert (entries_at path.now (fork self.old)) i entry) (fork self.old) }
    {
        self.root.as_mut().put_entry_at(path, i, entry);
    }

    /// Removes and returns the entry at position `i` of the node at the end of a path, even if it is the only one.
    pub fn take_entry_at(&mut self, path: &[Side], i: usize) -> RowRef
        requires there { IsFork (tree_at path.now (fork self.old)) }
        requires in_bounds { i < length (entries_at path.now (fork self.old)) }
        ensures taken { slice_get (entries_at path.now (fork self.old)) i ≡ Some result }
        ensures rest { fork self.new ≡ with_entries path.now (remove (entries_at path.now (fork self.old)) i) (fork self.old) }
    {
        self.root.as_mut().take_entry_at(path, i)
    }

    /// Inserts an entry before the one at position `i` of the node at the end of a path, and moves that node's first entry to the end of
    /// its left subtree. Does so only if the last node there has capacity. Returns whether it did; if not, nothing changes.
    pub fn exchange_entry_at(&mut self, path: &[Side], i: usize, entry: RowRef) -> bool
        requires there { IsFork (tree_at path.now (fork self.old)) }
        requires above_first { 1 ≤ i }
        requires in_bounds { i ≤ length (entries_at path.now (fork self.old)) }
        ensures done { OnTrue result (fork self.new ≡ with_tree path.now (exchanged i entry (tree_at path.now (fork self.old))) (fork self.old)) }
        ensures room { OnTrue result (HasRoomOnLeft (tree_at path.now (fork self.old))) }
        ensures kept { OnFalse result (fork self.new ≡ fork self.old) }
    {
        self.root.as_mut().exchange_entry_at(path, i, entry)
    }

    /// Removes the entry at position `i` of the node at the end of a path, and moves the last entry of its left subtree to the front of its
    /// entries. Does so only if that entry is in a leaf with another one. Returns whether it did; if not, nothing changes.
    pub fn borrow_entry_at(&mut self, path: &[Side], i: usize) -> bool
        requires there { IsFork (tree_at path.now (fork self.old)) }
        requires in_bounds { i < length (entries_at path.now (fork self.old)) }
        requires at_most_16 { length (entries_at path.now (fork self.old)) ≤ 16 }
        ensures done { OnTrue result (fork self.new ≡ with_tree path.now (borrowed i (tree_at path.now (fork self.old))) (fork self.old)) }
        ensures spare { OnTrue result (HasSpareOnLeft (tree_at path.now (fork self.old))) }
        ensures kept { OnFalse result (fork self.new ≡ fork self.old) }
    {
        self.root.as_mut().borrow_entry_at(path, i)
    }
}

impl Node {
    /// Inserts an entry before the one at position `i` of the node at the end of a path.
    #[tactic(auto, using(crate::proofs::PathLemmas::same_height, crate::proofs::PathLemmas::no_tree))]
    pub(crate) fn put_entry_at(&mut self, path: &[Side], i: usize, entry: RowRef)
        requires there { IsFork (tree_at path.now (fork self.old)) }
        requires room { length (entries_at path.now (fork self.old)) < 16 }
        requires in_bounds { i ≤ length (entries_at path.now (fork self.old)) }
        ensures { fork self.new ≡ with_entries path.now (insert (entries_at path.now (fork self.old)) i entry) (fork self.old) }
    {
        let Some((side, rest)) = path.split_first() else {
            self.entries.insert(i, entry);
            return;
        };
        match side {
            Side::Left => {
                self.left.as_mut().put_entry_at(rest, i, entry);
            }
            Side::Right => {
                self.right.as_mut().put_entry_at(rest, i, entry);
            }
        }
    }

    /// Removes and returns the entry at position `i` of the node at the end of a path, even if it is the only one.
    #[tactic(auto, using(crate::proofs::PathLemmas::same_height, crate::proofs::PathLemmas::no_tree))]
    pub(crate) fn take_entry_at(&mut self, path: &[Side], i: usize) -> RowRef
        requires there { IsFork (tree_at path.now (fork self.old)) }
        requires in_bounds { i < length (entries_at path.now (fork self.old)) }
        ensures taken { slice_get (entries_at path.now (fork self.old)) i ≡ Some result }
        ensures rest { fork self.new ≡ with_entries path.now (remove (entries_at path.now (fork self.old)) i) (fork self.old) }
    {
        let Some((side, rest)) = path.split_first() else {
            return self.entries.remove(i);
        };
        match side {
            Side::Left => {
                return self.left.as_mut().take_entry_at(rest, i);
            }
            Side::Right => {
                return self.right.as_mut().take_entry_at(rest, i);
            }
        }
    }

    /// Appends an entry to the last node, but only if that node has capacity. Returns whether it did; if not, nothing changes.
    #[tactic(auto, using(crate::proofs::PathLemmas::pushed_height))]
    fn push_at_end(&mut self, entry: RowRef) -> bool
        ensures done { OnTrue result (fork self.new ≡ pushed entry (fork self.old)) }
        ensures room { OnTrue result (HasRoomAtEnd (fork self.old)) }
        ensures kept { OnFalse result (fork self.new ≡ fork self.old) }
    {
        if self.right_height != 0 {
            return self.right.as_mut().push_at_end(entry);
        }
        if self.entries.len() == 16 {
            return false;
        }
        self.entries.push(entry);
        true
    }

    /// Inserts an entry before the one at position `i` of the root, and moves the root's first entry to the end of the left subtree. Does
    /// so only if the last node there has capacity. Returns whether it did; if not, nothing changes.
    #[tactic(auto, using(crate::proofs::PathLemmas::pushed_height))]
    fn exchange_entry(&mut self, i: usize, entry: RowRef) -> bool
        requires above_first { 1 ≤ i }
        requires in_bounds { i ≤ length self.old.entries }
        ensures done { OnTrue result (fork self.new ≡ exchanged i entry (fork self.old)) }
        ensures room { OnTrue result (HasRoomOnLeft (fork self.old)) }
        ensures kept { OnFalse result (fork self.new ≡ fork self.old) }
    {
        // The length is at most 16.
        let _len = self.entries.len();
        let least = self.entries.first();
        if self.left_height == 0 {
            return false;
        }
        if !self.left.as_mut().push_at_end(least) {
            return false;
        }
        self.entries.remove(0);
        self.entries.insert(i - 1, entry);
        true
    }

    /// Implements [`Subtree::exchange_entry_at`].
    #[tactic(auto, using(crate::proofs::PathLemmas::exchanged_height, crate::proofs::PathLemmas::no_tree))]
    pub(crate) fn exchange_entry_at(&mut self, path: &[Side], i: usize, entry: RowRef) -> bool
        requires there { IsFork (tree_at path.now (fork self.old)) }
        requires above_first { 1 ≤ i }
        requires in_bounds { i ≤ length (entries_at path.now (fork self.old)) }
        ensures done { OnTrue result (fork self.new ≡ with_tree path.now (exchanged i entry (tree_at path.now (fork self.old))) (fork self.old)) }
        ensures room { OnTrue result (HasRoomOnLeft (tree_at path.now (fork self.old))) }
        ensures kept { OnFalse result (fork self.new ≡ fork self.old) }
    {
        let Some((side, rest)) = path.split_first() else {
            return self.exchange_entry(i, entry);
        };
        match side {
            Side::Left => {
                return self.left.as_mut().exchange_entry_at(rest, i, entry);
            }
            Side::Right => {
                return self.right.as_mut().exchange_entry_at(rest, i, entry);
            }
        }
    }

    /// Removes and returns the last entry, but only if it is in a leaf with another one. If it returns `None`, nothing changes.
    #[tactic(auto, using(crate::proofs::PathLemmas::popped_height))]
    fn pop_at_end(&mut self) -> Option<RowRef>
        ensures last { IfSome result (λ last. last ≡ end_of (fork self.old)) }
        ensures spare { IfSome result (λ _. HasSpareAtEnd (fork self.old)) }
        ensures rest { IfSome result (λ _. fork self.new ≡ popped (fork self.old)) }
        ensures kept { IfNone result (fork self.new ≡ fork self.old) }
    {
        if self.right_height != 0 {
            return self.right.as_mut().pop_at_end();
        }
        if self.left_height != 0 {
            return None;
        }
        if self.entries.len() < 2 {
            return None;
        }
        Some(self.entries.pop_last())
    }

    /// Removes the entry at position `i` of the root, and moves the last entry of the left subtree to the front of the root's entries. Does
    /// so only if that entry is in a leaf with another one. Returns whether it did; if not, nothing changes.
    #[tactic(auto, using(crate::proofs::PathLemmas::popped_height))]
    fn borrow_entry(&mut self, i: usize) -> bool
        requires in_bounds { i < length self.old.entries }
        requires at_most_16 { length self.old.entries ≤ 16 }
        ensures done { OnTrue result (fork self.new ≡ borrowed i (fork self.old)) }
        ensures spare { OnTrue result (HasSpareOnLeft (fork self.old)) }
        ensures kept { OnFalse result (fork self.new ≡ fork self.old) }
    {
        if self.left_height == 0 {
            return false;
        }
        let Some(last) = self.left.as_mut().pop_at_end() else {
            return false;
        };
        self.entries.remove(i);
        self.entries.insert(0, last);
        true
    }

    /// Implements [`Subtree::borrow_entry_at`].
    #[tactic(auto, using(crate::proofs::PathLemmas::borrowed_height, crate::proofs::PathLemmas::no_tree))]
    pub(crate) fn borrow_entry_at(&mut self, path: &[Side], i: usize) -> bool
        requires there { IsFork (tree_at path.now (fork self.old)) }
        requires in_bounds { i < length (entries_at path.now (fork self.old)) }
        requires at_most_16 { length (entries_at path.now (fork self.old)) ≤ 16 }
        ensures done { OnTrue result (fork self.new ≡ with_tree path.now (borrowed i (tree_at path.now (fork self.old))) (fork self.old)) }
        ensures spare { OnTrue result (HasSpareOnLeft (tree_at path.now (fork self.old))) }
        ensures kept { OnFalse result (fork self.new ≡ fork self.old) }
    {
        let Some((side, rest)) = path.split_first() else {
            return self.borrow_entry(i);
        };
        match side {
            Side::Left => {
                return self.left.as_mut().borrow_entry_at(rest, i);
            }
            Side::Right => {
                return self.right.as_mut().borrow_entry_at(rest, i);
            }
        }
    }
}
