//! An iterator over the references of a tree.
ghost use Rattle.std.specs.Prelude.{◌≡◌, ◌+◌, ◌≤◌, [], ◌++◌, length, IfSome, IfNone};
ghost use Rattle.std.specs.Option.{option_copied};
ghost use Rattle.std.specs.Iterator.{YieldsFirst, item_count};
ghost use Rattle.arrayvec.specs.ArrayVec.{array_vec_len};
ghost use Rattle.ttree_node.specs.Tree.{tree_of, in_order, height_of};
ghost use Rattle.ttree.specs.Balanced.{IsTTree};
ghost use Rattle.ttree.specs.Path.{IsPath, to_come};

use arrayvec::ArrayVec;
use mm_value::RowRef;
use std::iter::FusedIterator;
use std::marker::Model;
use ttree_node::{EntryIter, Node};

/// The nodes whose entries come next, from the root downwards, each with its right side. A tree of at most 1,048,576 references has at most
/// 28 levels.
type Path<'a> = ArrayVec<Option<&'a Node>, 28>;

/// An iterator over the references of a tree, in order. Its model is the list of the remaining references.
#[derive(Drop)]
pub struct Iter<'a> {
    // The remaining entries of a node. Its right side is already on the path.
    entries: EntryIter<'a>,
    path: Path<'a>,
}

impl<'a> Model for Iter<'a> {
    ghost use Rattle.std.specs.Prelude.{List, ◌++◌};
    ghost use Rattle.mm_value.specs.declared.row_ref.RowRef.{RowRef as Ref};
    ghost use Rattle.ttree.specs.Path.{IsPath, to_come};

    ghost Value = { List Ref };

    ghost view = { λ it. it.entries ++ to_come it.path.items };

    ghost invariant = { λ it. IsPath 28 it.path.items };
}

impl<'a> Iter<'a> {
    /// Returns an iterator over all references of a tree of at most 28 levels.
    pub(crate) fn new(tree: Option<&'a Node>) -> Self
        requires tree { IsTTree (tree_of (option_copied tree)) }
        requires low { height_of (tree_of (option_copied tree)) ≤ 28 }
        ensures { result ≡ in_order (tree_of (option_copied tree.entry)) }
    {
        let mut path = ArrayVec::new();
        descend(&mut path, tree);
        Iter {
            entries: EntryIter::empty(),
            path,
        }
    }
}

impl<'a> Iterator for Iter<'a> {
    type Item = RowRef;

    ghost next_gives = { YieldsFirst (λ rest. rest) };

    ghost remaining = { item_count (λ rest. rest) };

    fn next(&mut self) -> Option<RowRef> {
        if let Some(entry) = self.entries.next() {
            return Some(entry);
        }
        self.entries = next_entries(&mut self.path)?;
        self.entries.next()
    }
}

impl<'a> FusedIterator for Iter<'a> {}

/// Removes the deepest node from the path, appends the left edge of its right side, and returns the node's entries.
fn next_entries<'a>(path: &mut Path<'a>) -> Option<EntryIter<'a>>
    requires { IsPath 28 path.old.items }
    ensures path { IsPath 28 path.new.items }
    ensures some { IfSome result (λ entries. 1 ≤ length entries) }
    ensures entries { IfSome result (λ entries. to_come path.old.items ≡ entries ++ to_come path.new.items) }
    ensures none_before { IfNone result (to_come path.old.items ≡ []) }
    ensures none { IfNone result (to_come path.new.items ≡ []) }
{
    let node = path.pop()??;
    descend(path, node.right());
    Some(node.entries().iter())
}

/// Appends the left edge of a tree to the path, the root first.
fn descend<'a>(path: &mut Path<'a>, tree: Option<&'a Node>)
    requires path { IsPath 28 path.old.items }
    requires tree { IsTTree (tree_of (option_copied tree)) }
    requires low { array_vec_len path.old + height_of (tree_of (option_copied tree)) ≤ 28 }
    ensures path { IsPath 28 path.new.items }
    ensures entries { to_come path.new.items ≡ in_order (tree_of (option_copied tree.entry)) ++ to_come path.old.items }
{
    let mut edge = tree;
    while let Some(node) = edge {
        path.push(Some(node));
        edge = node.left();
    }
}
