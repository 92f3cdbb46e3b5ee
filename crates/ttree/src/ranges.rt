//! The entries between two probes.
ghost use Rattle.std.specs.Prelude.{◌≡◌, ◌<◌, ◌≤◌, ◌++◌, take, All, OnOk, OnErr, vec_len};
ghost use Rattle.std.specs.Bool.{OnTrue};
ghost use Rattle.std.specs.Option.{option_copied};
ghost use Rattle.ttree_node.specs.Tree.{fork, tree_of, in_order, node_count};
ghost use Rattle.std.specs.declared.cmp.Ordering.{Ordering};
ghost use Rattle.mm_value.specs.declared.row_ref.RowRef.{RowRef};
ghost use Rattle.mm_order.specs.Order.{IsOrdered};
ghost use Rattle.mm_order.specs.Probe.{entries_between};
ghost use Rattle.ttree.specs.Balanced.{IsTTree};
ghost use Rattle.ttree.specs.Searchable.{IsSearchable};

use mm_order::{Probe, RefOrder};
use mm_value::RowRef;
use std::alloc::AllocError;
use ttree_node::{Entries, Node};

/// Appends the entries that are neither before the position of `low` nor after that of `high`, in order. Descends to the highest node with
/// an entry in the range, and from there along both ends of the range. Returns `AllocError` if an allocation fails; then some entries may
/// have been appended.
pub(crate) fn copy_range_of<O: RefOrder, L: Probe, H: Probe>(
    tree: Option<&Node>,
    order: &O,
    low: &L,
    high: &H,
    out: &mut Vec<RowRef>,
) -> Result<(), AllocError>
    requires low { IsSearchable (O.covers order.now) (O.cmp order.now) (L.covers low.now) (L.place_of low.now) (tree_of (option_copied tree)) }
    requires high { IsSearchable (O.covers order.now) (O.cmp order.now) (H.covers high.now) (H.place_of high.now) (tree_of (option_copied tree)) }
    ensures ok { OnOk result (out.new.items ≡ out.old.items
        ++ entries_between (L.place_of low.now) (H.place_of high.now) (in_order (tree_of (option_copied tree.entry)))) }
    ensures err { OnErr result (take (vec_len out.old) out.new.items ≡ out.old.items) }
{
    let highest = meeting(tree, order, low, high);
    copy_between(highest, order, low, high, out)
}

/// Returns the highest node with an entry in the range, or `None`. All entries in the range are in that node and below it. Compares the
/// last entry of each node on the way and, if that is not before the range, the first.
fn meeting<'a, O: RefOrder, L: Probe, H: Probe>(
    tree: Option<&'a Node>,
    order: &O,
    low: &L,
    high: &H,
) -> Option<&'a Node>
    requires low { IsSearchable (O.covers order.now) (O.cmp order.now) (L.covers low.now) (L.place_of low.now) (tree_of (option_copied tree)) }
    requires high { IsSearchable (O.covers order.now) (O.cmp order.now) (H.covers high.now) (H.place_of high.now) (tree_of (option_copied tree)) }
    ensures low { IsSearchable (O.covers order.now) (O.cmp order.now) (L.covers low.now) (L.place_of low.now) (tree_of (option_copied result)) }
    ensures high { IsSearchable (O.covers order.now) (O.cmp order.now) (H.covers high.now) (H.place_of high.now) (tree_of (option_copied result)) }
    ensures no_larger { node_count (tree_of (option_copied result)) ≤ node_count (tree_of (option_copied tree.entry)) }
    ensures same_entries { entries_between (L.place_of low.now) (H.place_of high.now) (in_order (tree_of (option_copied result)))
        ≡ entries_between (L.place_of low.now) (H.place_of high.now) (in_order (tree_of (option_copied tree.entry))) }
{
    let mut at = tree;
    while let Some(node) = at {
        let entries = node.entries();
        if low.place(entries.last()).is_lt() {
            at = node.right();
        } else if high.place(entries.first()).is_gt() {
            at = node.left();
        } else {
            break;
        }
    }
    at
}

/// Appends the entries that are neither before the position of `low` nor after that of `high`, in order. Of a node whose entries are all in
/// the range, compares only the first and the last entry. Returns `AllocError` if an allocation fails; then some entries may have been
/// appended.
fn copy_between<O: RefOrder, L: Probe, H: Probe>(
    tree: Option<&Node>,
    order: &O,
    low: &L,
    high: &H,
    out: &mut Vec<RowRef>,
) -> Result<(), AllocError>
    requires low { IsSearchable (O.covers order.now) (O.cmp order.now) (L.covers low.now) (L.place_of low.now) (tree_of (option_copied tree)) }
    requires high { IsSearchable (O.covers order.now) (O.cmp order.now) (H.covers high.now) (H.place_of high.now) (tree_of (option_copied tree)) }
    ensures ok { OnOk result (out.new.items ≡ out.old.items
        ++ entries_between (L.place_of low.now) (H.place_of high.now) (in_order (tree_of (option_copied tree.entry)))) }
    ensures err { OnErr result (take (vec_len out.old) out.new.items ≡ out.old.items) }
{
    let Some(node) = tree else {
        return Ok(());
    };
    if is_within(node, order, low, high) {
        copy_between(node.left(), order, low, high, out)?;
        copy_all(node.entries(), out)?;
        return copy_between(node.right(), order, low, high, out);
    }
    copy_between(left_from(node, order, low), order, low, high, out)?;
    copy_part(node, order, low, high, out)?;
    copy_between(right_to(node, order, high), order, low, high, out)
}

/// Returns whether all entries of a root are in the range: the first is not before the position of `low`, and the last is not after that of
/// `high`.
fn is_within<O: RefOrder, L: Probe, H: Probe>(node: &Node, order: &O, low: &L, high: &H) -> bool
    requires low { IsSearchable (O.covers order.now) (O.cmp order.now) (L.covers low.now) (L.place_of low.now) (fork node.now) }
    requires high { IsSearchable (O.covers order.now) (O.cmp order.now) (H.covers high.now) (H.place_of high.now) (fork node.now) }
    ensures { OnTrue result (entries_between (L.place_of low.now) (H.place_of high.now) node.now.entries ≡ node.now.entries) }
{
    let entries = node.entries();
    if low.place(entries.first()).is_lt() {
        return false;
    }
    high.place(entries.last()).is_le()
}

/// Returns the left side of a root, unless all its entries are before the position of `low`.
fn left_from<'a, O: RefOrder, L: Probe>(node: &'a Node, order: &O, low: &L) -> Option<&'a Node>
    requires { IsSearchable (O.covers order.now) (O.cmp order.now) (L.covers low.now) (L.place_of low.now) (fork node.now) }
    ensures tree { IsTTree (tree_of (option_copied result)) }
    ensures ordered { IsOrdered (O.covers order.now) (O.cmp order.now) (in_order (tree_of (option_copied result))) }
    ensures smaller { node_count (tree_of (option_copied result)) < node_count (fork node.now) }
    ensures same_entries { (high : RowRef → Ordering) → entries_between (L.place_of low.now) high (in_order (tree_of (option_copied result)))
        ≡ entries_between (L.place_of low.now) high (in_order node.now.left) }
{
    if low.place(node.entries().first()).is_lt() {
        return None;
    }
    node.left()
}

/// Returns the right side of a root, unless all its entries are after the position of `high`.
fn right_to<'a, O: RefOrder, H: Probe>(node: &'a Node, order: &O, high: &H) -> Option<&'a Node>
    requires { IsSearchable (O.covers order.now) (O.cmp order.now) (H.covers high.now) (H.place_of high.now) (fork node.now) }
    ensures tree { IsTTree (tree_of (option_copied result)) }
    ensures ordered { IsOrdered (O.covers order.now) (O.cmp order.now) (in_order (tree_of (option_copied result))) }
    ensures smaller { node_count (tree_of (option_copied result)) < node_count (fork node.now) }
    ensures same_entries { (low : RowRef → Ordering) → entries_between low (H.place_of high.now) (in_order (tree_of (option_copied result)))
        ≡ entries_between low (H.place_of high.now) (in_order node.now.right) }
{
    if high.place(node.entries().last()).is_gt() {
        return None;
    }
    node.right()
}

/// Appends the entries of a root that are in the range. Compares each of them only if the range begins or ends among them. Returns
/// `AllocError` if an allocation fails; then some entries may have been appended.
fn copy_part<O: RefOrder, L: Probe, H: Probe>(
    node: &Node,
    order: &O,
    low: &L,
    high: &H,
    out: &mut Vec<RowRef>,
) -> Result<(), AllocError>
    requires low { IsSearchable (O.covers order.now) (O.cmp order.now) (L.covers low.now) (L.place_of low.now) (fork node.now) }
    requires high { IsSearchable (O.covers order.now) (O.cmp order.now) (H.covers high.now) (H.place_of high.now) (fork node.now) }
    ensures ok { OnOk result (out.new.items ≡ out.old.items ++ entries_between (L.place_of low.now) (H.place_of high.now) node.now.entries) }
    ensures err { OnErr result (take (vec_len out.old) out.new.items ≡ out.old.items) }
{
    let entries = node.entries();
    if low.place(entries.last()).is_lt() {
        return Ok(());
    }
    if high.place(entries.first()).is_gt() {
        return Ok(());
    }
    copy_fitting(entries, low, high, out)
}

/// Appends those of the entries that are neither before the position of `low` nor after that of `high`. Returns `AllocError` if an
/// allocation fails; then some entries may have been appended.
fn copy_fitting<L: Probe, H: Probe>(
    entries: &Entries,
    low: &L,
    high: &H,
    out: &mut Vec<RowRef>,
) -> Result<(), AllocError>
    requires low { All (L.covers low.now) entries.now }
    requires high { All (H.covers high.now) entries.now }
    ensures ok { OnOk result (out.new.items ≡ out.old.items ++ entries_between (L.place_of low.now) (H.place_of high.now) entries.now) }
    ensures err { OnErr result (take (vec_len out.old) out.new.items ≡ out.old.items) }
{
    for i in 0..entries.len() {
        let entry = entries.get(i);
        if !low.place(entry).is_lt() && !high.place(entry).is_gt() {
            out.push(entry)?;
        }
    }
    Ok(())
}

/// Appends all entries. Returns `AllocError` if the allocation fails; then nothing was appended.
fn copy_all(entries: &Entries, out: &mut Vec<RowRef>) -> Result<(), AllocError>
    ensures ok { OnOk result (out.new.items ≡ out.old.items ++ entries.now) }
    ensures err { OnErr result (out.new.items ≡ out.old.items) }
{
    out.reserve(entries.len())?;
    for i in 0..entries.len() {
        out.push_reserved(entries.get(i));
    }
    Ok(())
}
