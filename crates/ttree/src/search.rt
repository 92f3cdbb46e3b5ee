//! Search inside a node.
ghost use Rattle.std.specs.Prelude.{◌≡◌, ◌≢◌, ◌+◌, ◌*◌, ◌<◌, ◌≤◌, ◌↔◌, length, take, drop, slice_index_or, All, IsTrue, IfOk, IfErr};
ghost use Rattle.std.specs.List.{AllWithin, HoldsAt};
ghost use Rattle.std.specs.List.Sorted.{IsNonDecreasingBy};
ghost use Rattle.std.specs.Ordering.{ordering_index};
ghost use Rattle.ttree_node.specs.Entries.{entry_at};

use mm_order::{Probe, RefOrder, Seek};
use mm_value::RowRef;
use std::cmp::Ordering;
use ttree_node::{Entries, Node};

/// The number of halvings that reduce the 16 entries of a full node to one.
pub(crate) const HALVINGS: usize = 4;

/// Returns the position of a matching entry, or otherwise the position at which one would be inserted. Makes at most seven comparisons.
pub(crate) fn search<P: Probe>(seek: &mut Seek<P>, entries: &Entries) -> Result<usize, usize>
    requires some { 1 ≤ length entries.now }
    requires covered { All (P.covers seek.old.probe) entries.now }
    requires rising { IsNonDecreasingBy (λ a. ordering_index (P.place_of seek.old.probe a)) entries.now }
    requires at_most_16 { length entries.now ≤ 16 }
    ensures probe { seek.new.probe ≡ seek.old.probe }
    ensures seven { seek.new.count ≤ seek.old.count + 7 }
    ensures found { IfOk result (HoldsAt (λ a. P.place_of seek.old.probe a ≡ Ordering.Equal) entries.now) }
    ensures found_in_bounds { IfOk result (λ i. i < length entries.now) }
    ensures in_bounds { IfErr result (λ i. i ≤ length entries.now) }
    ensures before { IfErr result (λ i. All (λ a. P.place_of seek.old.probe a ≡ Ordering.Less) (take i entries.now)) }
    ensures after { IfErr result (λ i. All (λ a. P.place_of seek.old.probe a ≡ Ordering.Greater) (drop i entries.now)) }
{
    let fourth = quarter(seek, entries, 0, 4);
    let low = quarter(seek, entries, fourth, 1);
    match seek.place(entries.get(low)) {
        Ordering::Less => Err(low + 1),
        Ordering::Equal => Ok(low),
        Ordering::Greater => Err(low),
    }
}

/// Returns the start of the quarter in which the search continues, of four quarters of `width` entries from `low` on.
///
/// None of the three comparisons depends on another, so the keys are read from memory at the same time. If there are fewer entries, the
/// last one is compared again: this takes no branch.
#[inline]
fn quarter<P: Probe>(seek: &mut Seek<P>, entries: &Entries, low: usize, width: usize) -> usize
    requires covered { All (P.covers seek.old.probe) entries.now }
    requires rising { IsNonDecreasingBy (λ a. ordering_index (P.place_of seek.old.probe a)) entries.now }
    requires width { width ≤ 4 }
    requires in_bounds { low < length entries.now }
    requires after { AllWithin (λ a. P.place_of seek.old.probe a ≡ Ordering.Greater) entries.now (low + 4 * width) (length entries.now) }
    ensures probe { seek.new.probe ≡ seek.old.probe }
    ensures three { seek.new.count ≤ seek.old.count + 3 }
    ensures in_bounds { result < length entries.now }
    ensures not_lower { low ≤ result }
    ensures first { low < result → P.place_of seek.old.probe (entry_at entries.now result) ≢ Ordering.Greater }
    ensures after { AllWithin (λ a. P.place_of seek.old.probe a ≡ Ordering.Greater) entries.now (result + width) (length entries.now) }
{
    let last = entries.len() - 1;
    let second = (low + width).min(last);
    let third = (low + 2 * width).min(last);
    let fourth = (low + 3 * width).min(last);
    let mut start = low;
    if seek.place(entries.get(second)).is_le() {
        start = second;
    }
    if seek.place(entries.get(third)).is_le() {
        start = third;
    }
    if seek.place(entries.get(fourth)).is_le() {
        start = fourth;
    }
    start
}

/// Returns whether a reference is before all of a root's entries, by one comparison.
pub(crate) fn is_before<O: RefOrder>(node: &Node, order: &O, sought: RowRef) -> bool
    requires some { 1 ≤ length node.now.entries }
    requires covered_entries { All (O.covers order.now) node.now.entries }
    requires covered { O.covers order.now sought }
    ensures { IsTrue result ↔ (O.cmp order.now sought (slice_index_or node.now.entries 0 sought) ≡ Ordering.Less) }
{
    order.compare(sought, node.entries().first()).is_lt()
}
