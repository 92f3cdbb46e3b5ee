//! Preparation of changes, with all allocations that they need.
ghost use Rattle.std.specs.Prelude.{◌≡◌, ◌++◌, ◌+◌, ◌≤◌, ◌<◌, ◌^◌, ℕ, [], All, List, length};
ghost use Rattle.std.specs.Prelude.{map, neg_ℤ, pos, ◌+ℤ◌, ◌≤ℤ◌, ◌<ℤ◌, IfOk, IsPermutation, OnOk};
ghost use Rattle.std.specs.List.{sum_by};
ghost use Rattle.std.specs.Vec.{vec_capacity, vec_len};
ghost use Rattle.mm_multiset.specs.Counts.{count_in, total_of};
ghost use Rattle.mm_value.specs.declared.values.Value.{Value as Val};
ghost use Rattle.mm_delta.specs.Edited.{after_at, before_at};
ghost use Rattle.mm_delta.specs.Skipping.{IsTypeTested};
ghost use Rattle.mm_delta.specs.Steps.{EachFit};
ghost use Rattle.mm_multiset.specs.declared.signed.Signed.{Signed as Change};
ghost use Rattle.mm_partition.specs.Types.{HasTypes};
ghost use Rattle.mm_schema.specs.Refused.{AnswersDue, first_refusal};
ghost use Rattle.mm_standing.specs.Bags.{Brings, CanAdd, HasGainsFirst, IsSmall, IsSound, IsTyped};
ghost use Rattle.mm_standing.specs.Bags.{count_with, done_of, entries_at, feeds_of, sum_over, types_of, undos};
ghost use Rattle.mm_standing.specs.Queries.{AreCounts, GivesTyped, IsBagOf, IsServed, bag_over, change_conditions, list_conditions};
ghost use Rattle.mm_standing.specs.Reads.{AreOfCyclicRows, AreTypeTested, RowTests, query_reads};
ghost use Rattle.mm_standing.specs.State.{AreOfTypes, AreServed};
ghost use Rattle.mm_standing.specs.declared.change.RowChange.{RowChange as AnyChange};
ghost use Rattle.mm_schema.specs.Rows.{most_rows};

use crate::bags::prepare_one;
use crate::change::{ListChange, RowChange};
use crate::watched::PlacedQuery;
use mm_delta::{Signed, TableChange, delta};
use mm_multiset::Bag;
use mm_query::MAX_COMBINATIONS;
use mm_store::View;
use mm_value::Refusal;
use std::alloc::{AllocError, Global};

/// Prepares changes, last to first: finds the entry of each row, or inserts it with the count 0. Fails with `AllocError` if an allocation
/// fails; then some are prepared.
pub(crate) fn prepare_each(
    bags: &mut Vec<Bag>,
    mut changes: Vec<RowChange>,
    prepared: &mut Vec<ListChange>,
    log: &[ListChange],
) -> Result<(), AllocError>
    requires prepared { prepared.old.items ≡ [] }
    requires room { vec_len changes ≤ vec_capacity prepared.old }
    requires sound { IsSound bags.old.items [] log.now }
    requires there { All (λ (c : AnyChange). c.list < length bags.old.items) changes.items }
    requires small { All IsSmall changes.items }
    requires typed { All (IsTyped bags.old.items) changes.items }
    requires within { CanAdd bags.old.items changes.items }
    ensures sound { IsSound bags.new.items prepared.new.items log.now }
    ensures many { vec_len prepared.new ≤ vec_len changes }
    ensures ok { OnOk result ((list : ℕ) (row : List Val)
        → count_with bags.new.items (done_of bags.new.items prepared.new.items) list row ≡ count_with bags.old.items changes.items list row) }
    ensures log { undos bags.new.items log.now ≡ undos bags.old.items log.now }
    ensures counts { (list : ℕ) (row : List Val)
        → count_in row (entries_at bags.new.items list) ≡ count_in row (entries_at bags.old.items list) }
    ensures types { types_of bags.new.items ≡ types_of bags.old.items }
    ensures feeds { feeds_of bags.new.items ≡ feeds_of bags.old.items }
    ensures size { length bags.new.items ≡ length bags.old.items }
{
    while let Some(change) = changes.pop() {
        let change = prepare_one(bags, change)?;
        prepared.push_reserved(change);
    }
    Ok(())
}

/// Returns the changes of the counts of each list's rows when tables are edited, to be applied from the last to the first. Requires that
/// the edits fit the view's rows and are not made yet; that the lists fit the rows too; that no query adds a number to a text; and that the
/// rows of each query have the types of its list's columns, before the edits and after them. Fails with `StandingListTooLarge` if a list
/// would have more than 1,048,576 rows, and with `Memory` if an allocation fails.
pub(crate) fn changes_of_lists<'a>(
    alloc: Global,
    view: &mut View<'a>,
    queries: &[PlacedQuery],
    bags: &[Bag],
    changes: &[TableChange<'_>],
) -> Result<Vec<RowChange>, Refusal>
    requires size { length queries.now ≡ length bags.now }
    requires served { AreServed view.old.store queries.now }
    requires edits { EachFit view.old.store changes.now }
    requires typed { AreTypeTested view.old.store changes.now queries.now }
    requires before { All (GivesTyped (before_at view.old.store)) queries.now }
    requires after { All (GivesTyped (after_at view.old.store changes.now)) queries.now }
    requires types { AreOfTypes queries.now bags.now }
    requires fits { AreCounts (λ list row. pos (count_in row (entries_at bags.now list))) (before_at view.old.store) queries.now }
    requires within { CanAdd bags.now [] }
    ensures due { AnswersDue (first_refusal (change_conditions (after_at view.old.store changes.now) queries.now)) result }
    ensures there { IfOk result (λ found. All (λ (c : AnyChange). c.list < length bags.now) found.items) }
    ensures small { IfOk result (λ found. All IsSmall found.items) }
    ensures typed { IfOk result (λ found. All (IsTyped bags.now) found.items) }
    ensures within { IfOk result (λ found. CanAdd bags.now found.items) }
    ensures counts { IfOk result (λ found. AreCounts (count_with bags.now found.items) (after_at view.old.store changes.now) queries.now) }
    ensures reads { (skipped : RowTests) → AreOfCyclicRows skipped
        → view.new.reads ≤ view.old.reads + sum_by (query_reads view.old.store changes.now skipped) queries.now }
    ensures same { view.new.store ≡ view.old.store }
{
    let mut found = Vec::new(alloc);
    for (list, watched) in queries.iter().enumerate() {
        let changed = changes_of_list(alloc, view, watched, &bags[list], changes)?;
        push_changes(&mut found, list, changed)?;
    }
    Ok(found)
}

/// Returns the changes of the counts of one list's rows when tables are edited. Fails with `StandingListTooLarge` if the list would have
/// more than 1,048,576 rows, and with `Memory` if an allocation fails.
fn changes_of_list<'a>(
    alloc: Global,
    view: &mut View<'a>,
    watched: &PlacedQuery,
    bag: &Bag,
    changes: &[TableChange<'_>],
) -> Result<Vec<Signed>, Refusal>
    requires served { IsServed view.old.store watched.now }
    requires edits { EachFit view.old.store changes.now }
    requires typed { IsTypeTested watched.now.query view.old.store changes.now watched.now.tables }
    requires before { GivesTyped (before_at view.old.store) watched.now }
    requires after { GivesTyped (after_at view.old.store changes.now) watched.now }
    requires fits { IsBagOf bag.now.entries (bag_over (before_at view.old.store) watched.now) }
    requires few { total_of bag.now.entries ≤ most_rows }
    ensures due { AnswersDue (first_refusal (list_conditions (bag_over (after_at view.old.store changes.now) watched.now))) result }
    ensures typed { IfOk result (λ changed. All (λ (change : Change). HasTypes watched.now.types change.row) changed.items) }
    ensures brings { IfOk result (λ changed. Brings changed.items bag.now.entries (bag_over (after_at view.old.store changes.now) watched.now)) }
    ensures reads { (skipped : RowTests) → AreOfCyclicRows skipped
        → view.new.reads ≤ view.old.reads + query_reads view.old.store changes.now skipped watched.now }
    ensures same { view.new.store ≡ view.old.store }
{
    let mut changed = delta(
        alloc,
        view,
        &watched.query,
        watched.tables.as_slice(),
        changes,
    )?;
    let _ = bag.len();
    if new_total(bag.total(), changed.as_slice()) > MAX_COMBINATIONS as i128 {
        return Err(Refusal::StandingListTooLarge);
    }
    put_gains_first(&mut changed);
    Ok(changed)
}

/// Moves the changes that add rows before those that remove rows. Since the last change is applied first, the list loses rows before it
/// gains any, and never has more rows than before or after all changes. Allocates nothing.
fn put_gains_first(changes: &mut Vec<Signed>)
    ensures order { HasGainsFirst changes.new.items }
    ensures permutation { IsPermutation changes.old.items changes.new.items }
{
    let mut gains = 0;
    for i in 0..changes.len() {
        if changes[i].count > 0 {
            changes.swap(gains, i);
            gains += 1;
        }
    }
}

/// Returns the number of rows of a list of `total` rows after changes.
fn new_total(total: usize, changes: &[Signed]) -> i128
    requires { All (λ (change : Change). (neg_ℤ (pos (2 ^ 64)) <ℤ change.count) × (change.count <ℤ pos (2 ^ 64))) changes.now }
    ensures { result ≡ pos total +ℤ sum_over (λ (change : Change). change.count) changes.now }
{
    let mut rows = total as i128;
    for change in changes {
        rows += change.count;
    }
    rows
}

/// Appends the changes of a list to those of the lists before it. Fails with `AllocError` if an allocation fails.
fn push_changes(
    found: &mut Vec<RowChange>,
    list: usize,
    changes: Vec<Signed>,
) -> Result<(), AllocError>
    ensures { OnOk result (found.new.items ≡ found.old.items ++ map (λ change. record { list = list; change = change }) changes.items) }
{
    for change in changes {
        found.push(RowChange { list, change })?;
    }
    Ok(())
}
