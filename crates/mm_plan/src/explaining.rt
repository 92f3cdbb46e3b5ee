//! Plans.
ghost use Rattle.std.specs.Prelude.{◌≡◌, IfOk, None, length, map};
ghost use Rattle.mm_plan.specs.Kept.{AreKept, HaveOneKey, instance_of};
ghost use Rattle.mm_query.specs.Plans.{plan_of};
ghost use Rattle.mm_query.specs.Resolving.{IsQueryWithin, placed_query, places_in, query_conditions};
ghost use Rattle.mm_query.specs.declared.query.Query.{Query};
ghost use Rattle.mm_schema.specs.Refused.{first_refusal};

use crate::choosing::plan_steps;
use crate::naming::Naming;
use mm_query::{BoundQuery, ItemList, PlanLine};
use mm_schema::Catalog;
use mm_store::View;
use std::alloc::{AllocError, Global};

/// Returns the plan of a query that nothing refuses: a line for each table of FROM, in order. `tables` has the positions of the tables in
/// the catalog and in the store. The lines are the chosen steps, with names from the catalog. Reads no row. Fails with `AllocError` if an
/// allocation fails.
pub fn explain(
    alloc: Global,
    view: &View<'_>,
    catalog: &Catalog,
    query: &BoundQuery,
    tables: &[usize],
) -> Result<ItemList<PlanLine>, AllocError>
    requires kept { AreKept catalog.now view.now.store }
    requires within { IsQueryWithin catalog.now query.now }
    requires tables { tables.now ≡ places_in catalog.now query.now.from }
    ensures { IfOk result (λ lines. (written : Query) → first_refusal (query_conditions written catalog.now) ≡ None
        → query.now ≡ placed_query catalog.now written → lines ≡ plan_of catalog.now (map length (instance_of view.now.store.tables)) written) }
{
    have_one_key(catalog);
    let steps = plan_steps(alloc, view, query, tables)?;
    let names = Naming {
        catalog,
        from: query.from.as_slice(),
        tables,
    };
    names.lines(alloc, query.atoms.as_slice(), steps.as_slice())
}

/// Law: each table of a catalog has exactly one key column. The call does nothing.
pub fn have_one_key(catalog: &Catalog)
    ensures { HaveOneKey catalog.now.tables }
{
    let tables = catalog.tables();
    for table in tables {
        let _ = table.definition.columns.as_slice();
    }
}
