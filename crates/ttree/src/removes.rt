//! Removal from a T-tree.
ghost use Rattle.std.specs.Prelude.{◌≡◌, ◌+◌, ◌^◌, ◌<◌, ◌≤◌, ◌↔◌, ◌⊎◌, max, [], ◌∷◌, ◌++◌, length, Contains, IfSome, IfNone, IsTrue, Some, slice_get};
ghost use Rattle.std.specs.Bool.{OnFalse, OnTrue};
ghost use Rattle.ttree_node.specs.Tree.{Empty, IsFork, fork, tree_of, in_order, height_of, node_count};
ghost use Rattle.ttree_node.specs.Slide.{IsLeaf};
ghost use Rattle.mm_order.specs.Order.{IsOrdered};
ghost use Rattle.mm_order.specs.Refs.{AddsInOrder};
ghost use Rattle.ttree.specs.Balanced.{IsTTree, IsRootOver, IsMended, MayTurn};

use crate::balance::{balance, is_leaf};
use crate::search::{HALVINGS, is_before};
use mm_order::RefOrder;
use mm_value::RowRef;
use ttree_node::{Entries, Spares, Subtree};

/// Merges a half-leaf with its left leaf if both fit into one node.
fn absorb_left(mut node: Subtree, spares: &mut Spares) -> Subtree
    requires left { IsTTree node.left }
    requires left_leaf { IsLeaf node.left }
    requires no_right { node.right ≡ Empty }
    requires at_most_16 { length node.entries ≤ 16 }
    requires pool_fits { node_count (fork node) + spares.old < 2 ^ 32 }
    ensures tree { IsTTree (fork result) }
    ensures same_entries { in_order (fork result) ≡ in_order (fork node) }
    ensures nodes { node_count (fork result) + spares.new ≡ node_count (fork node) + spares.old }
    ensures spares { spares.old ≤ spares.new }
    ensures height { height_of (fork result) ≤ 2 }
{
    let Some(leaf) = node.take_left() else {
        unreachable!()
    };
    if leaf.entries().len() + node.entries().len() > 16 {
        node.set_left(Some(leaf));
        return node;
    }
    node.put_in_front(leaf.entries());
    leaf.free_into(spares);
    node
}

/// Merges a half-leaf with its right leaf if both fit into one node.
fn absorb_right(mut node: Subtree, spares: &mut Spares) -> Subtree
    requires right { IsTTree node.right }
    requires right_leaf { IsLeaf node.right }
    requires no_left { node.left ≡ Empty }
    requires at_most_16 { length node.entries ≤ 16 }
    requires pool_fits { node_count (fork node) + spares.old < 2 ^ 32 }
    ensures tree { IsTTree (fork result) }
    ensures same_entries { in_order (fork result) ≡ in_order (fork node) }
    ensures nodes { node_count (fork result) + spares.new ≡ node_count (fork node) + spares.old }
    ensures spares { spares.old ≤ spares.new }
    ensures height { height_of (fork result) ≤ 2 }
{
    let Some(leaf) = node.take_right() else {
        unreachable!()
    };
    if leaf.entries().len() + node.entries().len() > 16 {
        node.set_right(Some(leaf));
        return node;
    }
    node.put_behind(leaf.entries());
    leaf.free_into(spares);
    node
}

/// Restores the form of a root after one of its sides has lost a level: merges a half-leaf with its leaf if they fit into one node, and
/// balances any other root.
fn mend(node: Subtree, spares: &mut Spares) -> Subtree
    requires root { IsRootOver 2 node }
    requires turns { MayTurn node }
    requires height_fits { height_of (fork node) + 1 < 2 ^ 16 }
    requires pool_fits { node_count (fork node) + spares.old < 2 ^ 32 }
    ensures tree { IsTTree (fork result) }
    ensures same_entries { in_order (fork result) ≡ in_order (fork node) }
    ensures nodes { node_count (fork result) + spares.new ≡ node_count (fork node) + spares.old }
    ensures spares { spares.old ≤ spares.new }
    ensures height { IsMended (height_of node.left) (height_of node.right) (height_of (fork result)) }
{
    if node.right().is_none() && is_leaf(node.left()) {
        absorb_left(node, spares)
    } else if node.left().is_none() && is_leaf(node.right()) {
        absorb_right(node, spares)
    } else {
        balance(node)
    }
}

/// Restores the form of a root with at most one child after it has lost an entry: frees it if it is an empty leaf, and merges it with its
/// leaf if both fit into one node.
#[tactic(auto, using(crate::proofs::Leaves::leaf_from_height))]
fn settle(node: Subtree, spares: &mut Spares) -> Option<Subtree>
    requires left { IsTTree node.left }
    requires right { IsTTree node.right }
    requires one_child { node.left ≡ Empty ⊎ node.right ≡ Empty }
    requires left_low { height_of node.left ≤ 1 }
    requires right_low { height_of node.right ≤ 1 }
    requires at_most_16 { length node.entries ≤ 16 }
    requires pool_fits { node_count (fork node) + spares.old < 2 ^ 32 }
    ensures tree { IsTTree (tree_of result) }
    ensures same_entries { in_order (tree_of result) ≡ in_order (fork node) }
    ensures nodes { node_count (tree_of result) + spares.new ≡ node_count (fork node) + spares.old }
    ensures spares { spares.old ≤ spares.new }
    ensures not_lower { max (height_of node.left) (height_of node.right) ≤ height_of (tree_of result) }
    ensures at_most_one_higher { height_of (tree_of result) ≤ max (height_of node.left) (height_of node.right) + 1 }
{
    if node.left().is_some() {
        Some(absorb_left(node, spares))
    } else if node.right().is_some() {
        Some(absorb_right(node, spares))
    } else if node.entries().is_empty() {
        node.free_into(spares);
        None
    } else {
        Some(node)
    }
}

/// Removes and returns the greatest entry of a tree.
fn take_last(mut node: Subtree, spares: &mut Spares) -> (Option<Subtree>, RowRef)
    requires tree { IsTTree (fork node) }
    requires height_fits { height_of (fork node) + 1 < 2 ^ 16 }
    requires pool_fits { node_count (fork node) + spares.old < 2 ^ 32 }
    ensures tree { IsTTree (tree_of result.0) }
    ensures entries { in_order (tree_of result.0) ++ result.1 ∷ [] ≡ in_order (fork node) }
    ensures nodes { node_count (tree_of result.0) + spares.new ≡ node_count (fork node) + spares.old }
    ensures spares { spares.old ≤ spares.new }
    ensures not_higher { height_of (tree_of result.0) ≤ height_of (fork node) }
    ensures at_most_one_lower { height_of (fork node) ≤ height_of (tree_of result.0) + 1 }
{
    match node.take_right() {
        None => {
            let last = node.take_entry(node.entries().len() - 1);
            (settle(node, spares), last)
        }
        Some(right) => {
            let (right, last) = take_last(right, spares);
            node.set_right(right);
            (Some(mend(node, spares)), last)
        }
    }
}

/// Restores the form of a root after it has lost an entry. An internal node with 13 entries left borrows the greatest of its left side.
fn refill(mut node: Subtree, spares: &mut Spares) -> Option<Subtree>
    requires left { IsTTree node.left }
    requires right { IsTTree node.right }
    requires left_low { height_of node.left ≤ height_of node.right + 1 }
    requires right_low { height_of node.right ≤ height_of node.left + 1 }
    requires at_most_16 { length node.entries ≤ 16 }
    requires full { IsFork node.left → IsFork node.right → 13 ≤ length node.entries }
    requires height_fits { height_of (fork node) + 1 < 2 ^ 16 }
    requires pool_fits { node_count (fork node) + spares.old < 2 ^ 32 }
    ensures tree { IsTTree (tree_of result) }
    ensures same_entries { in_order (tree_of result) ≡ in_order (fork node) }
    ensures nodes { node_count (tree_of result) + spares.new ≡ node_count (fork node) + spares.old }
    ensures spares { spares.old ≤ spares.new }
    ensures not_higher { height_of (tree_of result) ≤ height_of (fork node) }
    ensures at_most_one_lower { height_of (fork node) ≤ height_of (tree_of result) + 1 }
{
    if node.left().is_none() || node.right().is_none() {
        return settle(node, spares);
    }
    if node.entries().len() < 14 {
        let Some(left) = node.take_left() else {
            unreachable!()
        };
        let (left, last) = take_last(left, spares);
        node.set_left(left);
        node.put_entry(0, last);
    }
    Some(mend(node, spares))
}

/// Returns the position of a reference among entries, or `None` if it is not there.
pub(crate) fn find_held<O: RefOrder>(entries: &Entries, order: &O, gone: RowRef) -> Option<usize>
    requires ordered { IsOrdered (O.covers order.now) (O.cmp order.now) entries.now }
    requires covered { O.covers order.now gone }
    requires some { 1 ≤ length entries.now }
    requires at_most_16 { length entries.now ≤ 16 }
    ensures in_bounds { IfSome result (λ i. i < length entries.now) }
    ensures found { IfSome result (λ i. slice_get entries.now i ≡ Some gone) }
    ensures absent { IfNone result (Contains entries.now gone → ⊥) }
{
    let mut low = 0;
    let mut size = entries.len();
    // The number of rounds is fixed, so the loop is unrolled and has no branch to predict.
    for _ in 0..HALVINGS {
        let half = size / 2;
        if order.compare(entries.get(low + half), gone).is_le() {
            low += half;
        }
        size -= half;
    }
    if entries.get(low) == gone {
        return Some(low);
    }
    None
}

/// Removes a reference from a root's entries, and returns whether it was there.
fn remove_among<O: RefOrder>(
    mut node: Subtree,
    order: &O,
    gone: RowRef,
    spares: &mut Spares,
) -> (Option<Subtree>, bool)
    requires tree { IsTTree (fork node) }
    requires ordered { IsOrdered (O.covers order.now) (O.cmp order.now) (in_order (fork node)) }
    requires covered { O.covers order.now gone }
    requires height_fits { height_of (fork node) + 1 < 2 ^ 16 }
    requires pool_fits { node_count (fork node) + spares.old < 2 ^ 32 }
    ensures tree { IsTTree (tree_of result.0) }
    ensures held { IsTrue result.1 ↔ Contains node.entries gone }
    ensures taken { OnTrue result.1 (AddsInOrder (O.cmp order.now) (in_order (tree_of result.0)) gone (in_order (fork node))) }
    ensures absent { OnFalse result.1 (tree_of result.0 ≡ fork node) }
    ensures nodes { node_count (tree_of result.0) + spares.new ≡ node_count (fork node) + spares.old }
    ensures spares { spares.old ≤ spares.new }
    ensures not_higher { height_of (tree_of result.0) ≤ height_of (fork node) }
    ensures at_most_one_lower { height_of (fork node) ≤ height_of (tree_of result.0) + 1 }
{
    match find_held(node.entries(), order, gone) {
        Some(i) => {
            node.take_entry(i);
            (refill(node, spares), true)
        }
        None => (Some(node), false),
    }
}

/// Removes a reference from a tree, and returns whether it was there. Makes one comparison per node on the way down: whether the reference
/// is before the node's least entry. On the way back, searches the nodes for which it is not, until the reference is found (Lu, Ng and
/// Tian, ADC 2000).
pub(crate) fn remove_from<O: RefOrder>(
    tree: Option<Subtree>,
    order: &O,
    gone: RowRef,
    spares: &mut Spares,
) -> (Option<Subtree>, bool)
    requires tree { IsTTree (tree_of tree) }
    requires ordered { IsOrdered (O.covers order.now) (O.cmp order.now) (in_order (tree_of tree)) }
    requires covered { O.covers order.now gone }
    requires height_fits { height_of (tree_of tree) + 1 < 2 ^ 16 }
    requires pool_fits { node_count (tree_of tree) + spares.old < 2 ^ 32 }
    ensures tree { IsTTree (tree_of result.0) }
    ensures held { IsTrue result.1 ↔ Contains (in_order (tree_of tree)) gone }
    ensures taken { OnTrue result.1 (AddsInOrder (O.cmp order.now) (in_order (tree_of result.0)) gone (in_order (tree_of tree))) }
    ensures absent { OnFalse result.1 (tree_of result.0 ≡ tree_of tree) }
    ensures nodes { node_count (tree_of result.0) + spares.new ≡ node_count (tree_of tree) + spares.old }
    ensures spares { spares.old ≤ spares.new }
    ensures not_higher { height_of (tree_of result.0) ≤ height_of (tree_of tree) }
    ensures at_most_one_lower { height_of (tree_of tree) ≤ height_of (tree_of result.0) + 1 }
{
    let Some(mut node) = tree else {
        return (None, false);
    };
    if is_before(node.node(), order, gone) {
        let left = node.take_left();
        let (left, held) = remove_from(left, order, gone, spares);
        node.set_left(left);
        if !held {
            return (Some(node), false);
        }
        return (Some(mend(node, spares)), true);
    }
    let right = node.take_right();
    let (right, held) = remove_from(right, order, gone, spares);
    node.set_right(right);
    if !held {
        return remove_among(node, order, gone, spares);
    }
    (Some(mend(node, spares)), true)
}
