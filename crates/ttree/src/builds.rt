//! Building a T-tree from a list.
ghost use Rattle.std.specs.Prelude.{◌≡◌, ◌+◌, ◌*◌, ◌^◌, ◌<◌, ◌≤◌, [], length};
ghost use Rattle.ttree_node.specs.Tree.{Empty, tree_of, in_order, height_of, node_count};
ghost use Rattle.ttree.specs.Balanced.{IsTTree};
ghost use Rattle.ttree.specs.Lowest.{IsLowest};

use mm_value::RowRef;
use ttree_node::{Spares, Subtree};

/// The number of entries of a full node.
pub(crate) const FULL: usize = 16;

/// Returns a node with these entries, made from a free node.
fn node_of(refs: &[RowRef], spares: &mut Spares) -> Subtree
    requires some { 1 ≤ length refs.now }
    requires at_most_16 { length refs.now ≤ 16 }
    requires spare { 1 ≤ spares.old }
    ensures node { result ≡ record { left = Empty; entries = refs.now; right = Empty } }
    ensures one_spare { spares.new + 1 ≡ spares.old }
{
    let mut node = Subtree::leaf(spares, refs[0]);
    for i in 1..refs.len() {
        node.put_entry(i, refs[i]);
    }
    node
}

/// Returns the lowest tree of `nodes` nodes. All are full, except that the last in order gets the remaining references. The left side has
/// as many nodes as the right one, or one more, so the heights of the two sides of each node differ by at most 1.
pub(crate) fn build(refs: &[RowRef], nodes: usize, spares: &mut Spares) -> Option<Subtree>
    requires room { length refs.now ≤ 16 * nodes }
    requires filled { 16 * nodes < length refs.now + 16 }
    requires spare { nodes ≤ spares.old }
    ensures tree { IsTTree (tree_of result) }
    ensures entries { in_order (tree_of result) ≡ refs.now }
    ensures nodes { node_count (tree_of result) ≡ nodes }
    ensures spares { spares.new + nodes ≡ spares.old }
    ensures lowest { IsLowest nodes (height_of (tree_of result)) }
{
    if nodes == 0 {
        return None;
    }
    let on_left = nodes / 2;
    let (front, rest) = refs.split_at(FULL * on_left);
    let (middle, back) = rest.split_at(rest.len().min(FULL));
    let left = build(front, on_left, spares);
    let mut node = node_of(middle, spares);
    let right = build(back, nodes - 1 - on_left, spares);
    node.set_left(left);
    node.set_right(right);
    Some(node)
}
