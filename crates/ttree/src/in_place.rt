//! Edits that keep the tree's shape.
ghost use Rattle.std.specs.Prelude.{◌≡◌, ◌≢◌, ◌≤◌, [], ◌++◌, length, slice_index_or, All, Contains, IfSome};
ghost use Rattle.std.specs.Bool.{OnTrue, OnFalse};
ghost use Rattle.std.specs.declared.cmp.Ordering.TheVariants.{Less, Equal};
ghost use Rattle.ttree_node.specs.Tree.{IsFork, fork, tree_of, in_order, node_count};
ghost use Rattle.ttree_node.specs.Paths.{tree_at, trail};
ghost use Rattle.mm_order.specs.Order.{IsOrdered};
ghost use Rattle.mm_order.specs.Refs.{AddsInOrder};
ghost use Rattle.ttree.specs.Balanced.{IsTTree};

use crate::inserts::place_among;
use crate::removes::find_held;
use crate::search::is_before;
use arrayvec::ArrayVec;
use mm_order::RefOrder;
use mm_value::RowRef;
use ttree_node::{Node, Side, Subtree};

/// The maximum length of a path. If the way down is longer, nothing is edited in place.
const TURNS: usize = 64;

/// The turns of a path.
pub(crate) type Path = ArrayVec<Side, 64>;

/// Returns the last node on the way down whose first entry is not after the reference, and appends the turns to it to `path`. Returns
/// `None` if the reference is before all entries, or if the path is too long. All entries after that node's are after the reference. Makes
/// one comparison per node.
pub(crate) fn bounding_path<'a, O: RefOrder>(
    tree: &'a Subtree,
    order: &O,
    sought: RowRef,
    path: &mut Path,
) -> Option<&'a Node>
    requires tree { IsTTree (fork tree.now) }
    requires ordered { IsOrdered (O.covers order.now) (O.cmp order.now) (in_order (fork tree.now)) }
    requires covered { O.covers order.now sought }
    requires empty { path.old.items ≡ [] }
    ensures at { IfSome result (λ n. tree_at path.new.items (fork tree.now) ≡ fork n.now) }
    ensures not_before { IfSome result (λ n. O.cmp order.now sought (slice_index_or n.now.entries 0 sought) ≢ Less) }
    ensures behind { IfSome result (λ n. All (λ a. O.cmp order.now sought a ≡ Less) (in_order n.now.right ++ trail path.new.items (fork tree.now))) }
{
    let mut found = None;
    let mut depth = 0;
    let mut rest = Some(tree.node());
    while let Some(node) = rest {
        if path.len() == TURNS {
            return None;
        }
        if is_before(node, order, sought) {
            path.push(Side::Left);
            rest = node.left();
        } else {
            found = Some(node);
            depth = path.len();
            path.push(Side::Right);
            rest = node.right();
        }
    }
    path.truncate(depth);
    found
}

/// Inserts a reference in order into the node that bounds it, if that has room, or if the last node on its left has room for its least
/// entry. Returns whether it was inserted.
fn insert_into_node<O: RefOrder>(root: &mut Subtree, order: &O, added: RowRef) -> bool
    requires tree { IsTTree (fork root.old) }
    requires ordered { IsOrdered (O.covers order.now) (O.cmp order.now) (in_order (fork root.old)) }
    requires covered { O.covers order.now added }
    requires apart { All (λ a. O.cmp order.now a added ≢ Equal) (in_order (fork root.old)) }
    ensures tree { IsTTree (fork root.new) }
    ensures nodes { node_count (fork root.new) ≡ node_count (fork root.old) }
    ensures adds { OnTrue result (AddsInOrder (O.cmp order.now) (in_order (fork root.old)) added (in_order (fork root.new))) }
    ensures kept { OnFalse result (fork root.new ≡ fork root.old) }
{
    let mut path = ArrayVec::new();
    let Some(node) = bounding_path(root, order, added, &mut path) else {
        return false;
    };
    let len = node.entries().len();
    let at = place_among(node.entries(), order, added);
    if len < 16 {
        root.put_entry_at(path.as_slice(), at, added);
        return true;
    }
    if at == 16 {
        return false;
    }
    if root.exchange_entry_at(path.as_slice(), at, added) {
        return true;
    }
    false
}

/// Inserts a reference in order, if the tree's shape stays the same. Returns whether it was inserted.
pub(crate) fn insert_in_place<O: RefOrder>(
    tree: &mut Option<Subtree>,
    order: &O,
    added: RowRef,
) -> bool
    requires tree { IsTTree (tree_of tree.old) }
    requires ordered { IsOrdered (O.covers order.now) (O.cmp order.now) (in_order (tree_of tree.old)) }
    requires covered { O.covers order.now added }
    requires apart { All (λ a. O.cmp order.now a added ≢ Equal) (in_order (tree_of tree.old)) }
    ensures tree { IsTTree (tree_of tree.new) }
    ensures nodes { node_count (tree_of tree.new) ≡ node_count (tree_of tree.old) }
    ensures adds { OnTrue result (AddsInOrder (O.cmp order.now) (in_order (tree_of tree.old)) added (in_order (tree_of tree.new))) }
    ensures kept { OnFalse result (tree_of tree.new ≡ tree_of tree.old) }
{
    match tree {
        None => false,
        Some(root) => insert_into_node(root, order, added),
    }
}

/// Returns whether a node can lose an entry and stay as it is. A leaf keeps one entry, an internal node 14, and a half-leaf and its leaf
/// together too many for one node.
fn has_spare(node: &Node) -> bool
    requires { length node.now.entries ≤ 16 }
    ensures some { OnTrue result (2 ≤ length node.now.entries) }
    ensures full { OnTrue result (IsFork node.now.left → IsFork node.now.right → 15 ≤ length node.now.entries) }
{
    let len = node.entries().len();
    if len < 2 {
        return false;
    }
    match (node.left(), node.right()) {
        (None, None) => true,
        (Some(_), Some(_)) => len > 14,
        (Some(leaf), None) => leaf.entries().len() + len > 17,
        (None, Some(leaf)) => leaf.entries().len() + len > 17,
    }
}

/// Removes a reference from the node that bounds it, if the tree's shape stays the same. Returns whether it was removed.
fn remove_from_node<O: RefOrder>(root: &mut Subtree, order: &O, gone: RowRef) -> bool
    requires tree { IsTTree (fork root.old) }
    requires ordered { IsOrdered (O.covers order.now) (O.cmp order.now) (in_order (fork root.old)) }
    requires covered { O.covers order.now gone }
    ensures tree { IsTTree (fork root.new) }
    ensures nodes { node_count (fork root.new) ≡ node_count (fork root.old) }
    ensures taken { OnTrue result (AddsInOrder (O.cmp order.now) (in_order (fork root.new)) gone (in_order (fork root.old))) }
    ensures held { OnTrue result (Contains (in_order (fork root.old)) gone) }
    ensures kept { OnFalse result (fork root.new ≡ fork root.old) }
{
    let mut path = ArrayVec::new();
    let Some(node) = bounding_path(root, order, gone, &mut path) else {
        return false;
    };
    let Some(at) = find_held(node.entries(), order, gone) else {
        return false;
    };
    if has_spare(node) {
        root.take_entry_at(path.as_slice(), at);
        return true;
    }
    if node.left().is_none() || node.right().is_none() {
        return false;
    }
    if root.borrow_entry_at(path.as_slice(), at) {
        return true;
    }
    false
}

/// Removes a reference, if the tree's shape stays the same. Returns whether it was removed.
pub(crate) fn remove_in_place<O: RefOrder>(
    tree: &mut Option<Subtree>,
    order: &O,
    gone: RowRef,
) -> bool
    requires tree { IsTTree (tree_of tree.old) }
    requires ordered { IsOrdered (O.covers order.now) (O.cmp order.now) (in_order (tree_of tree.old)) }
    requires covered { O.covers order.now gone }
    ensures tree { IsTTree (tree_of tree.new) }
    ensures nodes { node_count (tree_of tree.new) ≡ node_count (tree_of tree.old) }
    ensures taken { OnTrue result (AddsInOrder (O.cmp order.now) (in_order (tree_of tree.new)) gone (in_order (tree_of tree.old))) }
    ensures held { OnTrue result (Contains (in_order (tree_of tree.old)) gone) }
    ensures kept { OnFalse result (tree_of tree.new ≡ tree_of tree.old) }
{
    match tree {
        None => false,
        Some(root) => remove_from_node(root, order, gone),
    }
}
