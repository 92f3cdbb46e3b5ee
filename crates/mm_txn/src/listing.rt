//! The listing of the catalog.
ghost use Rattle.std.specs.Prelude.{◌≡◌, false, IfOk};
ghost use Rattle.mm_query.specs.Standing.{listing as listing_of};
ghost use Rattle.mm_schema.specs.Instance.{Instance};
ghost use Rattle.mm_plan.specs.Kept.{AreKept, AreOf, instance_of};
ghost use Rattle.mm_txn.specs.Kept.{state_of};
ghost use Rattle.mm_schema.specs.Schema.{lacks_table};
ghost use Rattle.mm_txn.specs.Rest.{listed_state, state_at_rest, table_listed};
ghost use Rattle.mm_txn.specs.Listed.{AreListed, ArePlaced};

use mm_query::{ItemList, ListedQuery, ListedTable, Listing};
use mm_schema::{Catalog, Table};
use mm_standing::Standing;
use mm_store::Store;
use std::alloc::{AllocError, Global};

/// Returns the tables with their indexes and their numbers of rows, and the standing queries with theirs. Fails with `AllocError` if an
/// allocation fails.
pub(crate) fn list_tables(
    alloc: Global,
    catalog: &Catalog,
    store: &Store,
    standing: &Standing,
) -> Result<Listing, AllocError>
    requires relations { AreOf catalog.now.tables store.now.tables }
    requires placed { ArePlaced catalog.now standing.now.queries }
    requires listed { AreListed (instance_of store.now.tables) standing.now }
    ensures { IfOk result (λ listing. listing ≡ listing_of (state_at_rest catalog.now store.now standing.now)) }
{
    Ok(Listing {
        tables: ItemList::new(listed_tables(alloc, catalog, store)?),
        standing: ItemList::new(listed_queries(alloc, catalog, standing)?),
    })
}

/// Returns the tables with their numbers of rows. Fails with `AllocError` if an allocation fails.
fn listed_tables(
    alloc: Global,
    catalog: &Catalog,
    store: &Store,
) -> Result<Vec<ListedTable>, AllocError>
    requires { AreOf catalog.now.tables store.now.tables }
    ensures { IfOk result (λ listed. listed.items ≡ (listing_of (state_of catalog.now store.now.tables)).tables) }
{
    let mut listed = Vec::with_capacity(alloc, catalog.tables().len())?;
    for table in catalog.tables() {
        listed.push(listed_table(alloc, catalog, store, table)?)?;
    }
    Ok(listed)
}

/// Returns a table of the catalog with its number of rows. Fails with `AllocError` if an allocation fails.
fn listed_table(
    alloc: Global,
    catalog: &Catalog,
    store: &Store,
    table: &Table,
) -> Result<ListedTable, AllocError>
    requires relations { AreOf catalog.now.tables store.now.tables }
    requires there { lacks_table table.now.definition.name catalog.now ≡ false }
    ensures { IfOk result (λ listed. listed ≡ table_listed (state_of catalog.now store.now.tables) table.now) }
{
    let place = catalog.place_of(&table.definition.name).unwrap_or(0);
    Ok(ListedTable {
        table: table.copy(alloc)?,
        rows: store.view().len_of(place),
    })
}

/// Returns the standing queries with their numbers of rows. Fails with `AllocError` if an allocation fails.
fn listed_queries(
    alloc: Global,
    catalog: &Catalog,
    standing: &Standing,
) -> Result<Vec<ListedQuery>, AllocError>
    requires { ArePlaced catalog.now standing.now.queries }
    ensures { IfOk result (λ listed. (rows : Instance) → AreListed rows standing.now
        → listed.items ≡ (listing_of (listed_state catalog.now rows standing.now)).standing) }
{
    let mut listed = Vec::with_capacity(alloc, catalog.standing().len())?;
    for (place, query) in catalog.standing().iter().enumerate() {
        listed.push(ListedQuery {
            name: query.name.copy(),
            rows: standing.count(place),
        })?;
    }
    Ok(listed)
}
