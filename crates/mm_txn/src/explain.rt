//! The plan of a query.
ghost use Rattle.std.specs.Prelude.{◌≡◌, IfOk};
ghost use Rattle.mm_query.specs.Machine.{plan_in};
ghost use Rattle.mm_query.specs.Resolving.{query_conditions};
ghost use Rattle.mm_schema.specs.Refused.{AnswersDue, first_refusal};
ghost use Rattle.mm_txn.specs.Contents.{state_held};

use crate::contents::Contents;
use mm_plan::explain;
use mm_query::{ItemList, PlanLine, Query, bind_query};
use mm_value::Refusal;
use std::alloc::Global;

impl Contents {
    /// Returns the plan of a query for the current row counts of the tables: a line for each table of FROM. Fails with the first refusal of
    /// [`bind_query`] that is due, or with `Memory` if an allocation fails.
    pub(crate) fn explain(
        &self,
        alloc: Global,
        query: Query<'_>,
    ) -> Result<ItemList<PlanLine>, Refusal>
        ensures due { AnswersDue (first_refusal (query_conditions query.entry self.now.schema)) result }
        ensures lines { IfOk result (λ lines. lines ≡ plan_in (state_held self.now) query.entry) }
    {
        let bound = bind_query(alloc, &self.catalog, query)?;
        let view = self.store.view();
        let tables = bound.tables.as_slice();
        let lines = explain(alloc, &view, &self.catalog, &bound.query, tables)?;
        Ok(lines)
    }
}
