//! The rows of a query's result.
ghost use Rattle.std.specs.Prelude.{◌≡◌, ◌++◌, ◌+◌, ◌*◌, ◌≤◌, All, IfOk, OnErr, OnOk, length, take};
ghost use Rattle.mm_query.specs.Resolving.{select_conditions, selected};
ghost use Rattle.mm_query.specs.declared.query.Query.{Query};
ghost use Rattle.mm_schema.specs.Refused.{AnswersDue, first_refusal};
ghost use Rattle.mm_schema.specs.Schema.{Schema};
ghost use Rattle.mm_plan.specs.Kept.{AreOf};
ghost use Rattle.mm_plan.specs.Steps.{plan_reads};
ghost use Rattle.mm_templist.specs.Combos.{AreLive};
ghost use Rattle.mm_templist.specs.Results.{result_rows};
ghost use Rattle.mm_txn.specs.Bound.{IsBoundQuery};
ghost use Rattle.mm_txn.specs.Kept.{state_of};
ghost use Rattle.mm_txn.specs.Reads.{bound_rows, bound_steps, select_reads, shown_reads};

use mm_plan::run_query;
use mm_query::{Bound, RowBuffer};
use mm_store::View;
use mm_templist::{ShownRows, TempList};
use mm_value::Refusal;
use std::alloc::Global;

/// Returns the combinations of rows that match a bound query, each once and in no particular order, found by its plan. Fails as
/// [`run_query`] does.
fn fitting_combinations<'b>(
    alloc: Global,
    view: &mut View<'_>,
    bound: &'b Bound,
) -> Result<TempList<'b>, Refusal>
    requires bound { (schema : Schema) × (query : Query) × AreOf schema.tables view.old.store.tables × IsBoundQuery schema query bound.now }
    ensures due { (schema : Schema) (query : Query) → AreOf schema.tables view.old.store.tables → IsBoundQuery schema query bound.now
        → AnswersDue (first_refusal (select_conditions query (state_of schema view.old.store.tables))) result }
    ensures rows { IfOk result (λ list. (schema : Schema) (query : Query) → AreOf schema.tables view.old.store.tables → IsBoundQuery schema query bound.now
        → result_rows view.old.store list bound.now.query.distinct bound.now.query.order ≡ selected query (state_of schema view.old.store.tables)) }
    ensures live { IfOk result (λ list. All (AreLive view.old.store list.tables) list.combos) }
    ensures few { IfOk result (λ list. length list.combos * length list.tables
        ≡ shown_reads bound.now.query.atoms (bound_rows view.old.store bound.now)) }
    ensures reads { view.new.reads ≤ view.old.reads
        + plan_reads bound.now.query.atoms (bound_steps view.old.store bound.now) (bound_rows view.old.store bound.now) }
    ensures same { view.new.store ≡ view.old.store }
{
    run_query(alloc, view, &bound.query, bound.tables.as_slice())
}

/// Returns the rows of a bound query's result, in order, found by its plan; no value is copied. Reads no more rows than the steps of the
/// plan allow, and then those of each matching combination. Fails as [`run_query`] does.
pub(crate) fn select_rows<'s>(
    alloc: Global,
    view: &mut View<'s>,
    bound: &Bound,
) -> Result<ShownRows<'s>, Refusal>
    requires bound { (schema : Schema) × (query : Query) × AreOf schema.tables view.old.store.tables × IsBoundQuery schema query bound.now }
    ensures due { (schema : Schema) (query : Query) → AreOf schema.tables view.old.store.tables → IsBoundQuery schema query bound.now
        → AnswersDue (first_refusal (select_conditions query (state_of schema view.old.store.tables))) result }
    ensures rows { IfOk result (λ rows. (schema : Schema) (query : Query) → AreOf schema.tables view.old.store.tables → IsBoundQuery schema query bound.now
        → rows ≡ selected query (state_of schema view.old.store.tables)) }
    ensures reads { view.new.reads ≤ view.old.reads
        + select_reads bound.now.query.atoms (bound_steps view.old.store bound.now) (bound_rows view.old.store bound.now) }
{
    let list = fitting_combinations(alloc, view, bound)?;
    let rows = list.shown(
        alloc,
        view,
        bound.query.distinct,
        bound.query.order.as_slice(),
    )?;
    Ok(rows)
}

/// Appends copies of the rows of a bound query's result, in order, to a buffer; they are found by its plan. Reads no more rows than the
/// steps of the plan allow, and then those of each matching combination. Fails as [`run_query`] does; then some of the rows may have been
/// appended, and the rows before them are unchanged.
pub(crate) fn copy_rows(
    alloc: Global,
    view: &mut View<'_>,
    bound: &Bound,
    buffer: &mut RowBuffer,
) -> Result<(), Refusal>
    requires bound { (schema : Schema) × (query : Query) × AreOf schema.tables view.old.store.tables × IsBoundQuery schema query bound.now }
    ensures due { (schema : Schema) (query : Query) → AreOf schema.tables view.old.store.tables → IsBoundQuery schema query bound.now
        → AnswersDue (first_refusal (select_conditions query (state_of schema view.old.store.tables))) result }
    ensures rows { OnOk result ((schema : Schema) (query : Query) → AreOf schema.tables view.old.store.tables → IsBoundQuery schema query bound.now
        → buffer.new ≡ buffer.old ++ selected query (state_of schema view.old.store.tables)) }
    ensures err { OnErr result (take (length buffer.old) buffer.new ≡ buffer.old) }
    ensures reads { view.new.reads ≤ view.old.reads
        + select_reads bound.now.query.atoms (bound_steps view.old.store bound.now) (bound_rows view.old.store bound.now) }
{
    let list = fitting_combinations(alloc, view, bound)?;
    let query = &bound.query;
    let order = query.order.as_slice();
    list.copy_into(alloc, view, query.distinct, order, buffer)?;
    Ok(())
}
