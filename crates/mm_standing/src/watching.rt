//! The bag of a new standing query.
ghost use Rattle.std.specs.Prelude.{◌≡◌, ◌≢◌, ◌<◌, ◌≤◌, All, IfOk, None, Some, length, map, pos, slice_get};
ghost use Rattle.std.specs.Option.{unwrap_or};
ghost use Rattle.mm_multiset.specs.Counts.{IsOnce};
ghost use Rattle.mm_partition.specs.Types.{HasTypes};
ghost use Rattle.mm_query.specs.Queries.{bag_of, value_at};
ghost use Rattle.mm_schema.specs.Refused.{AnswersDue, first_refusal};
ghost use Rattle.mm_standing.specs.Bags.{ArePositive};
ghost use Rattle.mm_standing.specs.Queries.{IsBagOf, list_conditions};
ghost use Rattle.mm_store.specs.Tables.{rows_at};
ghost use Rattle.mm_templist.specs.Combos.{AreLive, rows_of_combo};
ghost use Rattle.mm_templist.specs.Results.{projected_rows};
ghost use Rattle.mm_value.specs.Views.{value_of};
ghost use Rattle.mm_value.specs.declared.refusal.Refusal.TheVariants.{ResultTooLarge, StandingListTooLarge};
ghost use Rattle.mm_value.specs.declared.values.Value.TheVariants.{Int};

use mm_multiset::Bag;
use mm_plan::run_query;
use mm_query::{BoundQuery, FieldPlace};
use mm_store::{Store, View};
use mm_templist::{Descriptor, TempList};
use mm_value::{ColType, Refusal, Row, RowRef, ValueRef};
use std::alloc::{AllocError, Global};

/// Returns the bag of a query over the rows of a store, found by its plan. `types` are those of the query's fields; requires that the
/// query's rows have them. Fails with `StandingListTooLarge` if more than 1,048,576 combinations match, and with `Memory` if an allocation
/// fails.
pub(crate) fn bag_now(
    alloc: Global,
    store: &Store,
    query: &BoundQuery,
    tables: &[usize],
    types: &[ColType],
) -> Result<Bag, Refusal>
    requires there { All (λ table. table < length store.now.tables) tables.now }
    requires few { length tables.now ≤ 4 }
    requires typed { All (HasTypes types.now) (bag_of query.now (map (rows_at store.now.tables) tables.now)) }
    ensures types { IfOk result (λ bag. bag.types ≡ types.now) }
    ensures feed { IfOk result (λ bag. bag.feed ≡ None) }
    ensures due { AnswersDue (first_refusal (list_conditions (bag_of query.now (map (rows_at store.now.tables) tables.now)))) result }
    ensures ok { IfOk result (λ bag. IsBagOf bag.entries (bag_of query.now (map (rows_at store.now.tables) tables.now))) }
    ensures once { IfOk result (λ bag. IsOnce bag.entries) }
    ensures positive { IfOk result (λ bag. ArePositive bag.entries) }
{
    let mut view = store.view();
    let list = match run_query(alloc, &mut view, query, tables) {
        Ok(list) => list,
        Err(refusal) => return Err(as_list(refusal)),
    };
    Ok(counted(alloc, &mut view, types, &list)?)
}

/// Converts the refusal of a result to that of a standing query.
fn as_list(refusal: Refusal) -> Refusal
    ensures large { refusal ≡ ResultTooLarge → result ≡ StandingListTooLarge }
    ensures other { refusal ≢ ResultTooLarge → result ≡ refusal }
{
    match refusal {
        Refusal::ResultTooLarge => Refusal::StandingListTooLarge,
        other => other,
    }
}

/// Returns the bag of the rows of a temporary list, which have these types. Each row is counted as it is read, so at most one exists beside
/// the bag at a time. Fails with `AllocError` if an allocation fails.
fn counted(
    alloc: Global,
    view: &mut View<'_>,
    types: &[ColType],
    list: &TempList<'_>,
) -> Result<Bag, AllocError>
    requires live { All (AreLive view.old.store list.now.tables) list.now.combos }
    requires typed { All (HasTypes types.now) (projected_rows view.old.store list.now) }
    ensures types { IfOk result (λ bag. bag.types ≡ types.now) }
    ensures feed { IfOk result (λ bag. bag.feed ≡ None) }
    ensures ok { IfOk result (λ bag. IsBagOf bag.entries (projected_rows view.old.store list.now)) }
    ensures once { IfOk result (λ bag. IsOnce bag.entries) }
    ensures positive { IfOk result (λ bag. ArePositive bag.entries) }
{
    let mut bag = Bag::new(alloc, types)?;
    for i in 0..list.len() {
        bag.count_up(row_read(alloc, view, list, i)?)?;
    }
    let _ = bag.len();
    Ok(bag)
}

/// Returns a copy of the row of the combination at a place, counted from 0: the values of the fields. Fails with `AllocError` if an
/// allocation fails.
fn row_read(
    alloc: Global,
    view: &mut View<'_>,
    list: &TempList<'_>,
    i: usize,
) -> Result<Row, AllocError>
    requires there { i < length list.now.combos }
    requires live { All (AreLive view.old.store list.now.tables) list.now.combos }
    ensures row { IfOk result (λ row. slice_get (projected_rows view.old.store list.now) i ≡ Some row) }
    ensures same { view.new.store ≡ view.old.store }
{
    let Descriptor { tables, fields } = list.descriptor();
    let combo = list.combo(i);
    let mut values = Vec::with_capacity(alloc, fields.len())?;
    for field in fields {
        values.push(value_read(view, tables, combo, *field).copy(alloc)?)?;
    }
    Ok(Row::new(values))
}

/// Returns the value of a field in a combination, in place, or 0 if the field's place has no row or the row has no such column.
fn value_read<'s>(
    view: &mut View<'s>,
    tables: &[usize],
    combo: &[RowRef],
    field: FieldPlace,
) -> ValueRef<'s>
    requires { AreLive view.old.store tables.now combo.now }
    ensures value { value_of result
        ≡ unwrap_or (value_at (map Some (rows_of_combo view.old.store tables.now combo.now)) field) (Int (pos 0)) }
    ensures same { view.new.store ≡ view.old.store }
{
    let Some(table) = tables.get(field.place) else {
        return ValueRef::Int(0);
    };
    let row = view.row(*table, combo[field.place]);
    row.get(field.column).unwrap_or(ValueRef::Int(0))
}
