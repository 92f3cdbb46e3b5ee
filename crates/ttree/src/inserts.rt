//! Insertion into a T-tree.
ghost use Rattle.std.specs.Prelude.{◌≡◌, ◌≢◌, ◌+◌, ◌-◌, ◌^◌, ◌<◌, ◌≤◌, ◌↔◌, [], ◌∷◌, ◌++◌, length, take, drop, slice_index_or, All, IsTrue, IfOk, IfErr, IfSome, OnOk, OnErr};
ghost use Rattle.std.specs.declared.cmp.Ordering.TheVariants.{Less, Equal, Greater};
ghost use Rattle.ttree_node.specs.Tree.{fork, tree_of, in_order, height_of, node_count};
ghost use Rattle.mm_order.specs.Order.{IsOrdered};
ghost use Rattle.mm_order.specs.Refs.{AddsInOrder};
ghost use Rattle.ttree.specs.Balanced.{IsTTree, GrowsFull};
ghost use Rattle.ttree.specs.Bound.{LiesBelow};

use crate::balance::balance;
use crate::search::{HALVINGS, is_before};
use mm_order::RefOrder;
use mm_value::RowRef;
use ttree_node::{Entries, Spares, Subtree};

/// Inserts an entry after all others: at the end of the rightmost node or, if that is full, in a new right leaf under it.
pub(crate) fn push_last(tree: Option<Subtree>, entry: RowRef, spares: &mut Spares) -> Subtree
    requires tree { IsTTree (tree_of tree) }
    requires spare { 1 ≤ spares.old }
    requires height_fits { height_of (tree_of tree) + 2 < 2 ^ 16 }
    ensures tree { IsTTree (fork result) }
    ensures entries { in_order (fork result) ≡ in_order (tree_of tree) ++ entry ∷ [] }
    ensures nodes { node_count (fork result) + spares.new ≡ node_count (tree_of tree) + spares.old }
    ensures one_spare { spares.old ≤ spares.new + 1 }
    ensures not_lower { height_of (tree_of tree) ≤ height_of (fork result) }
    ensures at_most_one_higher { height_of (fork result) ≤ height_of (tree_of tree) + 1 }
    ensures full { GrowsFull (tree_of tree) result }
{
    let Some(mut node) = tree else {
        return Subtree::leaf(spares, entry);
    };
    let len = node.entries().len();
    let right = node.take_right();
    if right.is_none() && len < 16 {
        node.put_entry(len, entry);
        return node;
    }
    node.set_right(Some(push_last(right, entry, spares)));
    balance(node)
}

/// Inserts a reference among the entries of the root. If the root is full, its least entry moves after all entries of the left side.
fn insert_between<O: RefOrder>(
    mut node: Subtree,
    order: &O,
    added: RowRef,
    spares: &mut Spares,
) -> Subtree
    requires tree { IsTTree (fork node) }
    requires ordered { IsOrdered (O.covers order.now) (O.cmp order.now) (in_order (fork node)) }
    requires covered { O.covers order.now added }
    requires apart { All (λ a. O.cmp order.now a added ≢ Equal) (in_order (fork node)) }
    requires not_before { O.cmp order.now added (slice_index_or node.entries 0 added) ≢ Less }
    requires not_after { O.cmp order.now added (slice_index_or node.entries (length node.entries - 1) added) ≢ Greater }
    requires spare { 1 ≤ spares.old }
    requires height_fits { height_of (fork node) + 2 < 2 ^ 16 }
    ensures tree { IsTTree (fork result) }
    ensures adds { AddsInOrder (O.cmp order.now) (in_order (fork node)) added (in_order (fork result)) }
    ensures nodes { node_count (fork result) + spares.new ≡ node_count (fork node) + spares.old }
    ensures one_spare { spares.old ≤ spares.new + 1 }
    ensures not_lower { height_of (fork node) ≤ height_of (fork result) }
    ensures at_most_one_higher { height_of (fork result) ≤ height_of (fork node) + 1 }
    ensures full { GrowsFull (fork node) result }
{
    let at = place_among(node.entries(), order, added);
    if node.entries().len() < 16 {
        node.put_entry(at, added);
        return node;
    }
    let least = node.take_entry(0);
    node.put_entry(at - 1, added);
    let left = node.take_left();
    node.set_left(Some(push_last(left, least, spares)));
    balance(node)
}

/// Returns the position for a reference among entries, if the reference is not before the first.
pub(crate) fn place_among<O: RefOrder>(entries: &Entries, order: &O, added: RowRef) -> usize
    requires ordered { IsOrdered (O.covers order.now) (O.cmp order.now) entries.now }
    requires covered { O.covers order.now added }
    requires apart { All (λ a. O.cmp order.now a added ≢ Equal) entries.now }
    requires not_before { O.cmp order.now added (slice_index_or entries.now 0 added) ≢ Less }
    requires some { 1 ≤ length entries.now }
    requires at_most_16 { length entries.now ≤ 16 }
    ensures above_first { 1 ≤ result }
    ensures in_bounds { result ≤ length entries.now }
    ensures before { All (λ a. O.cmp order.now a added ≡ Less) (take result entries.now) }
    ensures after { All (λ a. O.cmp order.now a added ≡ Greater) (drop result entries.now) }
{
    let mut low = 0;
    let mut size = entries.len();
    // The number of rounds is fixed, so the loop is unrolled and has no branch to predict.
    for _ in 0..HALVINGS {
        let half = size / 2;
        if order.compare(entries.get(low + half), added).is_lt() {
            low += half;
        }
        size -= half;
    }
    low + 1
}

/// Returns whether a reference is before a bound, `false` if there is no bound.
fn is_below<O: RefOrder>(order: &O, added: RowRef, bound: Option<RowRef>) -> bool
    requires covered { O.covers order.now added }
    requires bound_covered { IfSome bound (O.covers order.now) }
    ensures { IsTrue result ↔ LiesBelow (O.cmp order.now) added bound }
{
    match bound {
        None => false,
        Some(bound) => order.compare(added, bound).is_lt(),
    }
}

/// Inserts a reference in order into a tree whose entries are after `bound`, if there is a bound. Returns `Err` with the unchanged tree if
/// the reference is before the bound.
///
/// Makes one comparison per node on the way down: whether the reference is before the node's least entry (Lu, Ng and Tian, ADC 2000). If it
/// is not, the greatest entry of that node is the bound of the right side. The reference is inserted into the node that bounds it. If no
/// node does, it is inserted into the last node of the path or, if that is full, into a new leaf under it.
pub(crate) fn insert_into<O: RefOrder>(
    tree: Option<Subtree>,
    order: &O,
    bound: Option<RowRef>,
    added: RowRef,
    spares: &mut Spares,
) -> Result<Subtree, Option<Subtree>>
    requires tree { IsTTree (tree_of tree) }
    requires ordered { IsOrdered (O.covers order.now) (O.cmp order.now) (in_order (tree_of tree)) }
    requires covered { O.covers order.now added }
    requires apart { All (λ a. O.cmp order.now a added ≢ Equal) (in_order (tree_of tree)) }
    requires bound_covered { IfSome bound (O.covers order.now) }
    requires behind { IfSome bound (λ b. All (λ a. O.cmp order.now b a ≡ Less) (in_order (tree_of tree))) }
    requires spare { 1 ≤ spares.old }
    requires height_fits { height_of (tree_of tree) + 2 < 2 ^ 16 }
    ensures tree { IfOk result (λ made. IsTTree (fork made)) }
    ensures adds { IfOk result (λ made. AddsInOrder (O.cmp order.now) (in_order (tree_of tree)) added (in_order (fork made))) }
    ensures nodes { IfOk result (λ made. node_count (fork made) + spares.new ≡ node_count (tree_of tree) + spares.old) }
    ensures one_spare { spares.old ≤ spares.new + 1 }
    ensures not_lower { IfOk result (λ made. height_of (tree_of tree) ≤ height_of (fork made)) }
    ensures at_most_one_higher { IfOk result (λ made. height_of (fork made) ≤ height_of (tree_of tree) + 1) }
    ensures full { IfOk result (GrowsFull (tree_of tree)) }
    ensures behind { OnOk result (LiesBelow (O.cmp order.now) added bound → ⊥) }
    ensures below { OnErr result (LiesBelow (O.cmp order.now) added bound) }
    ensures kept { IfErr result (λ kept. tree_of kept ≡ tree_of tree) }
    ensures spares_kept { OnErr result (spares.new ≡ spares.old) }
{
    let Some(mut node) = tree else {
        if is_below(order, added, bound) {
            return Err(None);
        }
        return Ok(Subtree::leaf(spares, added));
    };
    let len = node.entries().len();
    if is_before(node.node(), order, added) {
        let left = node.take_left();
        if left.is_none() && len < 16 {
            if is_below(order, added, bound) {
                return Err(Some(node));
            }
            node.put_entry(0, added);
            return Ok(node);
        }
        return match insert_into(left, order, bound, added, spares) {
            Ok(left) => {
                node.set_left(Some(left));
                Ok(balance(node))
            }
            Err(left) => {
                node.set_left(left);
                Err(Some(node))
            }
        };
    }
    let right = node.take_right();
    if right.is_none() && len < 16 {
        let at = place_among(node.entries(), order, added);
        node.put_entry(at, added);
        return Ok(node);
    }
    let last = node.entries().last();
    match insert_into(right, order, Some(last), added, spares) {
        Ok(right) => {
            node.set_right(Some(right));
            Ok(balance(node))
        }
        Err(right) => {
            node.set_right(right);
            Ok(insert_between(node, order, added, spares))
        }
    }
}
