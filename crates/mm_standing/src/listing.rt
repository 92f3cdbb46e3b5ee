//! The rows that lists show.
ghost use Rattle.std.specs.Prelude.{◌≡◌, ◌++◌, List, length, replicate, IfOk, OnOk};
ghost use Rattle.mm_multiset.specs.Counts.{IsOnce};
ghost use Rattle.mm_partition.specs.Views.{viewed};
ghost use Rattle.mm_query.specs.Queries.{bag_of};
ghost use Rattle.mm_templist.specs.Runs.{referred};
ghost use Rattle.mm_value.specs.declared.values.Value.{Value as Val};
ghost use Rattle.mm_standing.specs.Queries.{IsBagOf, shown_of};
ghost use Rattle.mm_standing.specs.Showing.{rows_shown, times_shown, values_in_turn};

use mm_multiset::{Bag, BagEntries};
use mm_partition::RowView;
use mm_query::BoundQuery;
use mm_templist::ShownRows;
use mm_value::ValueRef;
use std::alloc::{AllocError, Global};

/// Returns the number of rows of a bag that are shown, with `distinct` one of each, without visiting them.
pub(crate) fn count_shown(distinct: bool, bag: &Bag) -> usize
    ensures count { result ≡ length (rows_shown distinct bag.now.entries) }
    ensures once { IsOnce bag.now.entries }
{
    let _ = bag.len();
    if !distinct {
        return bag.total();
    }
    bag.distinct()
}

/// Returns the rows of a bag as its query shows them. Fails with `AllocError` if an allocation fails.
pub(crate) fn list_shown<'s>(
    alloc: Global,
    query: &BoundQuery,
    bag: &'s Bag,
) -> Result<ShownRows<'s>, AllocError>
    requires { (lists : List (List (List Val))) × IsBagOf bag.now.entries (bag_of query.now lists) }
    ensures { IfOk result (λ shown. (rows : List (List Val)) → IsBagOf bag.now.entries rows → shown ≡ shown_of query.now rows) }
{
    let width = query.fields.as_slice().len();
    let count = count_shown(query.distinct, bag);
    let mut values = Vec::with_capacity(alloc, count.saturating_mul(width))?;
    push_entries(&mut values, query.distinct, bag.entries())?;
    // With DISTINCT, no row occurs twice, so none is left out here.
    let order = query.order.as_slice();
    ShownRows::sorted(alloc, values, width, count, false, order)
}

/// Appends references to the values of the rows of entries, for each row as often as it is shown. Fails with `AllocError` if an allocation
/// fails.
fn push_entries<'s>(
    values: &mut Vec<ValueRef<'s>>,
    distinct: bool,
    mut entries: BagEntries<'s>,
) -> Result<(), AllocError>
    ensures { OnOk result (referred values.new.items
        ≡ referred values.old.items ++ values_in_turn (rows_shown distinct entries.entry)) }
{
    while let Some((row, count)) = entries.next() {
        push_copies(values, row, times_shown(distinct, count))?;
    }
    Ok(())
}

/// Appends references to the values of a row `copies` times. Fails with `AllocError` if an allocation fails.
fn push_copies<'s>(
    values: &mut Vec<ValueRef<'s>>,
    row: RowView<'s>,
    copies: usize,
) -> Result<(), AllocError>
    ensures { OnOk result (referred values.new.items ≡ referred values.old.items ++ values_in_turn (replicate copies (viewed row.entry))) }
{
    for _ in 0..copies {
        push_row(values, row)?;
    }
    Ok(())
}

/// Appends references to the values of a row. Fails with `AllocError` if an allocation fails.
fn push_row<'s>(values: &mut Vec<ValueRef<'s>>, row: RowView<'s>) -> Result<(), AllocError>
    ensures { OnOk result (referred values.new.items ≡ referred values.old.items ++ viewed row.entry) }
{
    for i in 0..row.len() {
        values.push(row.value(i))?;
    }
    Ok(())
}

/// Returns how often a row with this count is shown: with `distinct` at most once.
fn times_shown(distinct: bool, count: usize) -> usize
    ensures { result ≡ times_shown distinct count }
{
    if distinct { count.min(1) } else { count }
}
