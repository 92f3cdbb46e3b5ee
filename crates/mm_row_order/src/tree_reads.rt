//! Reads along a tree.
ghost use Rattle.std.specs.Prelude.{◌≡◌, ◌≢◌, ◌≤◌, ◌++◌, length, All, Contains, IfSome, IfNone, IfOk, OnOk, OnErr};
ghost use Rattle.std.specs.Option.{option_map};
ghost use Rattle.mm_value.specs.Views.{value_of};
ghost use Rattle.mm_order.specs.Order.{IsOrdered};
ghost use Rattle.mm_order.specs.Probe.{IsMonotone, entries_between};
ghost use Rattle.mm_partition.specs.Places.{slot_at};
ghost use Rattle.mm_row_order.specs.InOrder.{InOrder};
ghost use Rattle.mm_row_order.specs.Ends.{end_place};
ghost use Rattle.mm_schema.specs.Rows.{most_rows};

use crate::at_end::{AtEnd, prefix_of_end};
use crate::by_column::ByColumn;
use mm_order::{OrderedRefs, Probe, RefOrder, Seek};
use mm_partition::Partitions;
use mm_value::{RowRef, ValueRef};
use std::alloc::{AllocError, Global};
use std::cmp::Ordering;
use ttree::TTree;

/// The ends of a range of values. `None` leaves an end open.
#[derive(Clone, Copy)]
pub struct Ends<'a> {
    pub low: Option<ValueRef<'a>>,
    pub high: Option<ValueRef<'a>>,
}

/// Appends the references of a tree whose values are between the ends, both included, in order. `AllocError` if an allocation fails;
/// then nothing is appended.
pub fn copy_range(
    alloc: Global,
    rows: &Partitions,
    column: usize,
    key: usize,
    tree: &TTree,
    ends: Ends,
    out: &mut Vec<RowRef>,
) -> Result<(), AllocError>
    requires { InOrder column key (slot_at rows.now) tree.now.refs }
    ensures ok { OnOk result (out.new.items ≡ out.old.items ++ entries_between
        (end_place column (slot_at rows.now) (option_map value_of ends.entry.low))
        (end_place column (slot_at rows.now) (option_map value_of ends.entry.high)) tree.now.refs) }
    ensures err { OnErr result (out.new.items ≡ out.old.items) }
{
    let values = rows.keys(column);
    let order = ByColumn {
        rows,
        column,
        key,
        values,
        ties: rows.keys(key),
    };
    let low = AtEnd {
        rows,
        column,
        key,
        end: ends.low,
        prefix: prefix_of_end(ends.low),
        values,
    };
    let high = AtEnd {
        rows,
        column,
        key,
        end: ends.high,
        prefix: prefix_of_end(ends.high),
        values,
    };
    tree.copy_range(alloc, &order, &low, &high, out)
}

/// Returns an entry of a tree in this order that matches a probe along it, or `None` if no entry does.
pub fn find_along<O: RefOrder, P: Probe>(tree: &TTree, order: &O, probe: &P) -> Option<RowRef>
    requires ordered { IsOrdered (O.covers order.now) (O.cmp order.now) tree.now.refs }
    requires monotone { IsMonotone (O.covers order.now) (O.cmp order.now) (P.covers probe.now) (P.place_of probe.now) }
    ensures held { IfSome result (Contains tree.now.refs) }
    ensures fits { IfSome result (λ at. P.place_of probe.now at ≡ Ordering.Equal) }
    ensures none { IfNone result (All (λ at. P.place_of probe.now at ≢ Ordering.Equal) tree.now.refs) }
{
    let mut seek = Seek::new(probe);
    tree.find(order, &mut seek)
}

/// Returns all references of a tree, at most 1,048,576, in order. `AllocError` if an allocation fails.
pub fn copy_refs(alloc: Global, tree: &TTree) -> Result<Vec<RowRef>, AllocError>
    requires { length tree.now.refs ≤ most_rows }
    ensures { IfOk result (λ refs. refs.items ≡ tree.now.refs) }
{
    tree.iter().collect(alloc)
}
