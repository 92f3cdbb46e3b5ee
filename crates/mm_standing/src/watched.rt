//! Standing queries with the places of their tables.
ghost use Rattle.std.specs.Prelude.{◌≡◌, map};
ghost use Rattle.mm_schema.specs.References.{above};

use mm_query::BoundQuery;
use mm_value::ColType;
use std::marker::Model;

/// A bound standing query, with the place in the store of each table of its FROM list, and the types of its fields, which are those of its
/// list's columns.
#[derive(Drop)]
pub(crate) struct PlacedQuery {
    pub(crate) query: BoundQuery,
    pub(crate) tables: Vec<usize>,
    pub(crate) types: Vec<ColType>,
}

impl Model for PlacedQuery {
    ghost use Rattle.mm_standing.specs.Queries.{StandingQuery};

    ghost Value = { StandingQuery };

    ghost view = { λ w. record { query = w.query; tables = w.tables.items; types = w.types.items } };
}

impl PlacedQuery {
    /// Adjusts the places of the tables after the table at a place of the store was dropped: those after it decrease by one.
    pub(crate) fn table_dropped(&mut self, gone: usize)
        ensures { self.new ≡ record self.old { tables = map (above gone) self.old.tables } }
    {
        for table in self.tables.iter_mut() {
            *table = above(gone, *table);
        }
    }
}

/// Returns the place of a table after the table at another place was dropped.
fn above(gone: usize, place: usize) -> usize
    ensures { result ≡ above gone place }
{
    if gone < place { place - 1 } else { place }
}
