//! Look-ups by a counted search.
ghost use Rattle.std.specs.Prelude.{◌≡◌, ◌≢◌, ◌+◌, ◌≤◌, length, All, Contains, IfSome, IfNone};
ghost use Rattle.std.specs.List.Sorted.{IsNonDecreasingBy};
ghost use Rattle.std.specs.Ordering.{ordering_index};
ghost use Rattle.std.specs.Option.{option_copied};
ghost use Rattle.std.specs.declared.cmp.Ordering.TheVariants.{Equal};
ghost use Rattle.ttree_node.specs.Tree.{tree_of, in_order, height_of};
ghost use Rattle.ttree.specs.Decides.{Decides};
ghost use Rattle.ttree.specs.Searchable.{IsSearchable};

use crate::search::search;
use mm_order::{Probe, RefOrder, Seek};
use mm_value::RowRef;
use ttree_node::Node;

/// Returns a matching entry, if there is one. Makes at most one comparison per level, and seven inside one node.
pub(crate) fn find_in<O: RefOrder, P: Probe>(
    tree: Option<&Node>,
    order: &O,
    seek: &mut Seek<P>,
) -> Option<RowRef>
    requires { IsSearchable (O.covers order.now) (O.cmp order.now) (P.covers seek.old.probe) (P.place_of seek.old.probe)
        (tree_of (option_copied tree)) }
    ensures held { IfSome result (Contains (in_order (tree_of (option_copied tree.entry)))) }
    ensures fits { IfSome result (λ r. P.place_of seek.old.probe r ≡ Equal) }
    ensures none { IfNone result (All (λ a. P.place_of seek.old.probe a ≢ Equal) (in_order (tree_of (option_copied tree.entry)))) }
    ensures probe { seek.new.probe ≡ seek.old.probe }
    ensures steps { seek.new.count ≤ seek.old.count + height_of (tree_of (option_copied tree.entry)) + 7 }
{
    let node = bounding_node(tree, order, seek)?;
    find_fitting(node, seek)
}

/// Returns the last node on the way down whose first entry is not after the position sought, or `None` if all entries are after it. If any
/// entry matches, one of that node does (Lu, Ng and Tian, ADC 2000). Makes one comparison per node.
fn bounding_node<'a, O: RefOrder, P: Probe>(
    tree: Option<&'a Node>,
    order: &O,
    seek: &mut Seek<P>,
) -> Option<&'a Node>
    requires { IsSearchable (O.covers order.now) (O.cmp order.now) (P.covers seek.old.probe) (P.place_of seek.old.probe)
        (tree_of (option_copied tree)) }
    ensures probe { seek.new.probe ≡ seek.old.probe }
    ensures steps { seek.new.count ≤ seek.old.count + height_of (tree_of (option_copied tree.entry)) }
    ensures part { IfSome result (λ node. Decides (O.covers order.now) (O.cmp order.now) (P.place_of seek.old.probe)
        (in_order (tree_of (option_copied tree.entry))) node.now.entries) }
    ensures none { IfNone result (All (λ a. P.place_of seek.old.probe a ≢ Equal) (in_order (tree_of (option_copied tree.entry)))) }
{
    let mut found = None;
    let mut rest = tree;
    while let Some(node) = rest {
        if seek.place(node.entries().first()).is_gt() {
            rest = node.left();
        } else {
            found = Some(node);
            rest = node.right();
        }
    }
    found
}

/// Returns a matching entry of a node, if there is one.
fn find_fitting<P: Probe>(node: &Node, seek: &mut Seek<P>) -> Option<RowRef>
    requires some { 1 ≤ length node.now.entries }
    requires covered { All (P.covers seek.old.probe) node.now.entries }
    requires rising { IsNonDecreasingBy (λ a. ordering_index (P.place_of seek.old.probe a)) node.now.entries }
    ensures probe { seek.new.probe ≡ seek.old.probe }
    ensures seven { seek.new.count ≤ seek.old.count + 7 }
    ensures held { IfSome result (Contains node.now.entries) }
    ensures fits { IfSome result (λ r. P.place_of seek.old.probe r ≡ Equal) }
    ensures none { IfNone result (All (λ a. P.place_of seek.old.probe a ≢ Equal) node.now.entries) }
{
    let entries = node.entries();
    match search(seek, entries) {
        Ok(i) => Some(entries.get(i)),
        Err(_) => None,
    }
}
