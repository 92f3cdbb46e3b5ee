//! Queries whose names are resolved.
ghost use Rattle.std.specs.Prelude.{◌≡◌, ◌-◌, ◌<◌, ◌≤◌, length, map, All, IfOk};
ghost use Rattle.mm_schema.specs.Refused.{AnswersDue, first_refusal};
ghost use Rattle.mm_query.specs.Resolving.{IsQueryWithin, placed_query, places_in, query_conditions};

use crate::atom::Atom;
use crate::query::{FromItem, Query};
use crate::scope::{Scope, form_faults};
use crate::short_list::ShortList;
use mm_schema::Catalog;
use mm_value::{Few, Refusal};
use std::alloc::{AllocError, Global};

/// A column of one row of a combination.
#[derive(Clone, Copy, Debug, Default, PartialEq, Eq)]
pub struct FieldPlace {
    /// The position in FROM of the row's table, counted from 0.
    pub place: usize,
    /// The position of the column in that table, counted from 0.
    pub column: usize,
}

/// A query whose fields are resolved against a catalog. Tables are identified by name, so creating or dropping other tables does not change
/// its meaning.
#[derive(Debug, Drop)]
pub struct BoundQuery {
    /// Whether equal rows are kept only once.
    pub distinct: bool,
    /// The fields whose values form a row of the result, from left to right.
    pub fields: ShortList<FieldPlace, 4>,
    /// The tables whose rows are combined, with their aliases.
    pub from: Few<FromItem>,
    /// The conditions on a combination of rows.
    pub atoms: ShortList<Atom<FieldPlace>, 2>,
    /// The columns of the result by which it is sorted, as positions counted from 0.
    pub order: ShortList<usize, 4>,
}

/// A query whose names are resolved, and the positions of its tables.
#[derive(Debug, Drop)]
pub struct Bound {
    /// The query.
    pub query: BoundQuery,
    /// The positions of its tables in the catalog's order of creation, in the order of FROM.
    pub tables: ShortList<usize, 4>,
}

/// Returns a query with its names resolved, and checks it against the catalog. Looks up each name once. Fails with the first of these
/// refusals whose condition holds over the whole query:
///
/// - `NoSuchTable`.
/// - `NoSuchColumn`: a table has no such column, or a position of ORDER is 0 or exceeds the number of fields.
/// - `AliasTaken`.
/// - `NoSuchAlias`.
/// - `TypeMismatch`.
/// - `TooMany`: there are more than 4 tables, or more than 16 fields, atoms or positions.
///
/// May instead fail with `Memory`.
pub fn bind_query(alloc: Global, catalog: &Catalog, query: Query<'_>) -> Result<Bound, Refusal>
    ensures due { AnswersDue (first_refusal (query_conditions query.entry catalog.now)) result }
    ensures ok { IfOk result (λ bound. bound.query ≡ placed_query catalog.now query.entry) }
    ensures tables { IfOk result (λ bound. bound.tables ≡ places_in catalog.now query.entry.from) }
    ensures within { IfOk result (λ bound. IsQueryWithin catalog.now bound.query) }
    ensures there { IfOk result (λ bound. All (λ place. place < length catalog.now.tables) bound.tables) }
    ensures few { IfOk result (λ bound. length bound.tables ≤ 4) }
{
    let mut faults = form_faults(&query);
    let Query {
        distinct,
        fields,
        from,
        atoms,
        order,
    } = query;
    let scope = Scope::find(alloc, catalog, from)?;
    let fields = scope.place_fields(alloc, fields.as_slice(), &mut faults)?;
    let atoms = scope.place_atoms(alloc, atoms, &mut faults)?;
    if let Some(refusal) = faults.refusal(Refusal::AliasTaken) {
        return Err(refusal);
    }
    let order = place_positions(alloc, order.as_slice())?;
    let Scope { from, tables, .. } = scope;
    let query = BoundQuery {
        distinct,
        fields,
        from,
        atoms,
        order,
    };
    Ok(Bound { query, tables })
}

/// Converts positions counted from 1 to positions counted from 0. Fails with `AllocError` if an allocation fails.
fn place_positions(alloc: Global, positions: &[usize]) -> Result<ShortList<usize, 4>, AllocError>
    ensures ok { IfOk result (λ columns. columns ≡ map (λ position. position - 1) positions.now) }
{
    let mut columns = ShortList::with_capacity(alloc, positions.len())?;
    for position in positions {
        columns.push(position.saturating_sub(1))?;
    }
    Ok(columns)
}
