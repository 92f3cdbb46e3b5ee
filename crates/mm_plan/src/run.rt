//! The execution of queries over a store.
ghost use Rattle.std.specs.Prelude.{◌≡◌, ◌⊎◌, ℕ, ◌+◌, ◌<◌, ◌≤◌, Some, length, map, slice_get, take, All, IfErr, IfOk};
ghost use Rattle.mm_plan.specs.Begun.{IsBegun};
ghost use Rattle.mm_plan.specs.Choosing.{steps_of};
ghost use Rattle.mm_plan.specs.Steps.{AreSteps, plan_reads, step_reads};
ghost use Rattle.mm_query.specs.Queries.{bag_of, size_conditions};
ghost use Rattle.mm_schema.specs.Refused.{AnswersDue, first_refusal};
ghost use Rattle.mm_select.specs.Fitting.{AreFitting, fitting};
ghost use Rattle.mm_store.specs.Tables.{rows_at};
ghost use Rattle.mm_templist.specs.Combos.{AreLive};
ghost use Rattle.mm_value.specs.declared.refusal.Refusal.TheVariants.{Memory};

use crate::beginning::begin;
use crate::choosing::plan_steps;
use crate::finding::find_refs;
use crate::next_table::join_next;
use crate::step::Step;
use mm_query::BoundQuery;
use mm_store::View;
use mm_templist::{Descriptor, TempList};
use mm_value::Refusal;
use std::alloc::Global;

/// Returns the combinations of rows that fit a query, each once and in no particular order, found by the chosen steps. `tables` has the
/// positions of its tables in the store, in FROM order. Reads no more rows than the steps allow. Fails with `ResultTooLarge` if more than
/// 1,048,576 combinations fit. If an allocation fails, the result may be `Memory` instead.
pub fn run_query<'a>(
    alloc: Global,
    view: &mut View<'_>,
    query: &'a BoundQuery,
    tables: &'a [usize],
) -> Result<TempList<'a>, Refusal>
    requires there { All (λ table. table < length view.old.store.tables) tables.now }
    requires few { length tables.now ≤ 4 }
    ensures due { AnswersDue (first_refusal (size_conditions (bag_of query.now (map (rows_at view.old.store.tables) tables.entry.now)))) result }
    ensures fitting { IfOk result (λ list. AreFitting view.old.store query.now.atoms list) }
    ensures live { IfOk result (λ list. All (AreLive view.old.store list.tables) list.combos) }
    ensures tables { IfOk result (λ list. list.tables ≡ tables.entry.now) }
    ensures fields { IfOk result (λ list. list.fields ≡ query.now.fields) }
    ensures reads { view.new.reads ≤ view.old.reads
        + plan_reads query.now.atoms (steps_of view.old.store query.now.atoms tables.entry.now) (map (rows_at view.old.store.tables) tables.entry.now) }
    ensures same { view.new.store ≡ view.old.store }
{
    if tables.len() == 1 {
        return run_alone(alloc, view, query, tables);
    }
    run_chosen(alloc, view, query, tables)
}

/// Runs a query as [`run_query`] does. A separate function, so that a query of one table moves no steps.
#[inline(never)]
fn run_chosen<'a>(
    alloc: Global,
    view: &mut View<'_>,
    query: &'a BoundQuery,
    tables: &'a [usize],
) -> Result<TempList<'a>, Refusal>
    requires there { All (λ table. table < length view.old.store.tables) tables.now }
    requires few { length tables.now ≤ 4 }
    ensures due { AnswersDue (first_refusal (size_conditions (bag_of query.now (map (rows_at view.old.store.tables) tables.entry.now)))) result }
    ensures fitting { IfOk result (λ list. AreFitting view.old.store query.now.atoms list) }
    ensures live { IfOk result (λ list. All (AreLive view.old.store list.tables) list.combos) }
    ensures tables { IfOk result (λ list. list.tables ≡ tables.entry.now) }
    ensures fields { IfOk result (λ list. list.fields ≡ query.now.fields) }
    ensures reads { view.new.reads ≤ view.old.reads
        + plan_reads query.now.atoms (steps_of view.old.store query.now.atoms tables.entry.now) (map (rows_at view.old.store.tables) tables.entry.now) }
    ensures same { view.new.store ≡ view.old.store }
{
    let steps = plan_steps(alloc, view, query, tables)?;
    run_plan(alloc, view, query, tables, steps.as_slice())
}

/// Runs a query of one table as [`run_query`] does: the references that its step finds are the combinations.
fn run_alone<'a>(
    alloc: Global,
    view: &mut View<'_>,
    query: &'a BoundQuery,
    tables: &'a [usize],
) -> Result<TempList<'a>, Refusal>
    requires there { All (λ table. table < length view.old.store.tables) tables.now }
    requires alone { length tables.now ≡ 1 }
    ensures due { AnswersDue (first_refusal (size_conditions (bag_of query.now (map (rows_at view.old.store.tables) tables.entry.now)))) result }
    ensures fitting { IfOk result (λ list. AreFitting view.old.store query.now.atoms list) }
    ensures live { IfOk result (λ list. All (AreLive view.old.store list.tables) list.combos) }
    ensures tables { IfOk result (λ list. list.tables ≡ tables.entry.now) }
    ensures fields { IfOk result (λ list. list.fields ≡ query.now.fields) }
    ensures reads { view.new.reads ≤ view.old.reads
        + plan_reads query.now.atoms (steps_of view.old.store query.now.atoms tables.entry.now) (map (rows_at view.old.store.tables) tables.entry.now) }
    ensures same { view.new.store ≡ view.old.store }
{
    let descriptor = Descriptor {
        tables,
        fields: query.fields.as_slice(),
    };
    match find_refs(alloc, view, tables[0], query.atoms.as_slice()) {
        Ok(refs) => Ok(TempList::of_refs(descriptor, refs)),
        Err(_) => Err(Refusal::Memory),
    }
}

/// Returns the combinations of rows that fit a query, each once and in no particular order. `tables` has the positions of its tables in the
/// store, in FROM order. Joins each table by its step to the combinations of the tables before it, and keeps those that fit so far. Reads
/// no more rows than the steps allow (`plan_reads`). Fails with `ResultTooLarge` if more than 1,048,576 combinations fit. If an allocation
/// fails, the result may be `Memory` instead.
pub fn run_plan<'a>(
    alloc: Global,
    view: &mut View<'_>,
    query: &'a BoundQuery,
    tables: &'a [usize],
    steps: &[Step],
) -> Result<TempList<'a>, Refusal>
    requires there { All (λ table. table < length view.old.store.tables) tables.now }
    requires few { length tables.now ≤ 4 }
    requires steps { AreSteps view.old.store query.now.atoms tables.now steps.now }
    ensures due { AnswersDue (first_refusal (size_conditions (bag_of query.now (map (rows_at view.old.store.tables) tables.entry.now)))) result }
    ensures fitting { IfOk result (λ list. AreFitting view.old.store query.now.atoms list) }
    ensures live { IfOk result (λ list. All (AreLive view.old.store list.tables) list.combos) }
    ensures tables { IfOk result (λ list. list.tables ≡ tables.entry.now) }
    ensures fields { IfOk result (λ list. list.fields ≡ query.now.fields) }
    ensures reads { view.new.reads ≤ view.old.reads
        + plan_reads query.now.atoms steps.now (map (rows_at view.old.store.tables) tables.entry.now) }
    ensures same { view.new.store ≡ view.old.store }
{
    let mut list = TempList::unit(alloc, query.fields.as_slice());
    for place in 0..tables.len() {
        list = run_step(alloc, view, &list, query, tables, steps, place)?;
    }
    Ok(list)
}

/// Returns the combinations of one more table that fit so far, found by its step. Fails with the refusal of the query, or with `Memory`.
fn run_step<'a>(
    alloc: Global,
    view: &mut View<'_>,
    list: &TempList<'a>,
    query: &'a BoundQuery,
    tables: &'a [usize],
    steps: &[Step],
    place: usize,
) -> Result<TempList<'a>, Refusal>
    requires there { All (λ table. table < length view.old.store.tables) tables.now }
    requires few { length tables.now ≤ 4 }
    requires steps { AreSteps view.old.store query.now.atoms tables.now steps.now }
    requires begun { IsBegun view.old.store query.now tables.now list.now }
    requires at { length list.now.tables ≡ place }
    requires left { place < length tables.now }
    ensures due { IfErr result (λ refusal.
        (first_refusal (size_conditions (bag_of query.now (map (rows_at view.old.store.tables) tables.entry.now))) ≡ Some refusal)
        ⊎ (refusal ≡ Memory)) }
    ensures begun { IfOk result (λ next. IsBegun view.old.store query.now tables.entry.now next) }
    ensures longer { IfOk result (λ next. length next.tables ≡ place + 1) }
    ensures reads { (table : ℕ) (own : Step) → slice_get tables.entry.now place ≡ Some table → slice_get steps.now place ≡ Some own
        → view.new.reads ≤ view.old.reads + step_reads query.now.atoms place own (rows_at view.old.store.tables table)
        (fitting query.now.atoms (map (rows_at view.old.store.tables) (take place tables.entry.now))) }
    ensures same { view.new.store ≡ view.old.store }
{
    if place == 0 {
        Ok(begin(alloc, view, query, tables, steps)?)
    } else {
        join_next(alloc, view, list, query, tables, steps[place])
    }
}
