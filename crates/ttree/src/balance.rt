//! Balancing a root whose sides differ in height by at most 2.
ghost use Rattle.std.specs.Prelude.{◌≡◌, ◌+◌, ◌^◌, ◌<◌, ◌≤◌, ◌↔◌, IsTrue, length};
ghost use Rattle.std.specs.Option.{option_copied};
ghost use Rattle.ttree_node.specs.Tree.{Empty, IsFork, fork, tree_of, in_order, height_of, node_count};
ghost use Rattle.ttree_node.specs.Slide.{IsLeaf, IsNextTo};
ghost use Rattle.ttree_node.specs.declared.slides.Side.TheVariants.{Left, Right};
ghost use Rattle.ttree.specs.Balanced.{IsTTree, IsRootOver, IsSettled, MayTurn};

use ttree_node::{Node, Side, Subtree};

/// Returns the height of a tree, 0 for an empty one.
fn side_height(tree: Option<&Node>) -> usize
    requires { height_of (tree_of (option_copied tree)) < 2 ^ 16 }
    ensures { result ≡ height_of (tree_of (option_copied tree.entry)) }
{
    match tree {
        None => 0,
        Some(tree) => tree.height(),
    }
}

/// Returns whether a tree consists of one node.
pub(crate) fn is_leaf(tree: Option<&Node>) -> bool
    ensures { IsTrue result ↔ IsLeaf (tree_of (option_copied tree.entry)) }
{
    match tree {
        None => false,
        Some(tree) => tree.left().is_none() && tree.right().is_none(),
    }
}

/// Returns whether a tree has no node to the left of its root.
fn begins_at_root(tree: Option<&Node>) -> bool
    ensures { IsTrue result ↔ IsNextTo Right (tree_of (option_copied tree.entry)) }
{
    match tree {
        None => false,
        Some(tree) => tree.left().is_none(),
    }
}

/// Returns whether a tree has no node to the right of its root.
fn ends_at_root(tree: Option<&Node>) -> bool
    ensures { IsTrue result ↔ IsNextTo Left (tree_of (option_copied tree.entry)) }
{
    match tree {
        None => false,
        Some(tree) => tree.right().is_none(),
    }
}

/// Balances a root whose sides differ in height by at most 2, by one rotation, single or double.
pub(crate) fn balance(node: Subtree) -> Subtree
    requires root { IsRootOver 2 node }
    requires turns { MayTurn node }
    requires height_fits { height_of (fork node) + 1 < 2 ^ 16 }
    ensures tree { IsTTree (fork result) }
    ensures same_entries { in_order (fork result) ≡ in_order (fork node) }
    ensures same_nodes { node_count (fork result) ≡ node_count (fork node) }
    ensures height { IsSettled (height_of node.left) (height_of node.right) (height_of (fork result)) }
    ensures stays { height_of node.left ≤ height_of node.right + 1 → height_of node.right ≤ height_of node.left + 1 → result ≡ node }
{
    let left = side_height(node.left());
    let right = side_height(node.right());
    if left > right + 1 {
        lower_left(node)
    } else if right > left + 1 {
        lower_right(node)
    } else {
        node
    }
}

/// Balances a root whose left side is two levels higher. A node that rises and so becomes an internal node first receives entries of the
/// old root.
fn lower_left(mut node: Subtree) -> Subtree
    requires root { IsRootOver 2 node }
    requires turns { MayTurn node }
    requires left_higher { height_of node.left ≡ height_of node.right + 2 }
    requires height_fits { height_of (fork node) + 1 < 2 ^ 16 }
    ensures tree { IsTTree (fork result) }
    ensures same_entries { in_order (fork result) ≡ in_order (fork node) }
    ensures same_nodes { node_count (fork result) ≡ node_count (fork node) }
    ensures not_lower { height_of node.left ≤ height_of (fork result) }
    ensures at_most_one_higher { height_of (fork result) ≤ height_of node.left + 1 }
{
    let Some(left) = node.take_left() else {
        unreachable!()
    };
    node.set_left(Some(lean_left(left)));
    if ends_at_root(node.left()) {
        node.slide(Side::Left);
    }
    node.rotate_right()
}

/// Balances a root whose right side is two levels higher. A node that rises and so becomes an internal node first receives entries of the
/// old root.
fn lower_right(mut node: Subtree) -> Subtree
    requires root { IsRootOver 2 node }
    requires turns { MayTurn node }
    requires right_higher { height_of node.right ≡ height_of node.left + 2 }
    requires height_fits { height_of (fork node) + 1 < 2 ^ 16 }
    ensures tree { IsTTree (fork result) }
    ensures same_entries { in_order (fork result) ≡ in_order (fork node) }
    ensures same_nodes { node_count (fork result) ≡ node_count (fork node) }
    ensures not_lower { height_of node.right ≤ height_of (fork result) }
    ensures at_most_one_higher { height_of (fork result) ≤ height_of node.right + 1 }
{
    let Some(right) = node.take_right() else {
        unreachable!()
    };
    node.set_right(Some(lean_right(right)));
    if begins_at_root(node.right()) {
        node.slide(Side::Right);
    }
    node.rotate_left()
}

/// Makes the left side the higher one, if it is not yet. A node that rises without a left side first receives entries of its old parent.
fn lean_left(mut node: Subtree) -> Subtree
    requires tree { IsTTree (fork node) }
    requires height_fits { height_of (fork node) + 1 < 2 ^ 16 }
    ensures root { IsRootOver 2 result }
    ensures same_entries { in_order (fork result) ≡ in_order (fork node) }
    ensures same_nodes { node_count (fork result) ≡ node_count (fork node) }
    ensures left_high { height_of result.left + 1 ≡ height_of (fork node) }
    ensures right_low { height_of result.right ≤ height_of result.left }
    ensures enough { height_of (fork node) ≡ 2 → result.right ≡ Empty → 15 ≤ length node.entries → 14 ≤ length result.entries }
{
    if side_height(node.left()) >= side_height(node.right()) {
        return node;
    }
    if begins_at_root(node.right()) {
        node.slide(Side::Right);
    }
    node.rotate_left()
}

/// Makes the right side the higher one, if it is not yet. A node that rises without a right side first receives entries of its old parent.
fn lean_right(mut node: Subtree) -> Subtree
    requires tree { IsTTree (fork node) }
    requires height_fits { height_of (fork node) + 1 < 2 ^ 16 }
    ensures root { IsRootOver 2 result }
    ensures same_entries { in_order (fork result) ≡ in_order (fork node) }
    ensures same_nodes { node_count (fork result) ≡ node_count (fork node) }
    ensures right_high { height_of result.right + 1 ≡ height_of (fork node) }
    ensures left_low { height_of result.left ≤ height_of result.right }
    ensures enough { height_of (fork node) ≡ 2 → result.left ≡ Empty → 15 ≤ length node.entries → 14 ≤ length result.entries }
{
    if side_height(node.right()) >= side_height(node.left()) {
        return node;
    }
    if ends_at_root(node.left()) {
        node.slide(Side::Left);
    }
    node.rotate_right()
}
