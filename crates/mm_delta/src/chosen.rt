//! Rows chosen at places of FROM.
ghost use Rattle.std.specs.Prelude.{◌≡◌, ◌<◌, ◌≤◌, length, map, replicate, set, None, Some};
ghost use Rattle.mm_partition.specs.Views.{viewed};
ghost use Rattle.mm_query.specs.Queries.{rows_read};

use mm_partition::RowView;
use mm_query::MAX_FROM;
use std::marker::Model;

/// For each place of FROM a row, or none yet.
#[derive(Drop)]
pub(crate) struct Chosen<'c> {
    rows: [Option<RowView<'c>>; MAX_FROM],
    places: usize,
}

impl<'c> Model for Chosen<'c> {
    ghost use Rattle.std.specs.Prelude.{◌≡◌, ◌≤◌, length, map, take};
    ghost use Rattle.mm_partition.specs.Views.{viewed};
    ghost use Rattle.mm_query.specs.Queries.{Partial, rows_read};

    ghost Value = { Partial };

    ghost view = { λ c. take c.places (rows_read viewed c.rows) };

    ghost invariant = { λ c. (c.places ≤ 4) × (length c.rows ≡ 4) };
}

impl<'c> Chosen<'c> {
    /// Returns `places` places without a row.
    pub(crate) fn new(places: usize) -> Chosen<'c>
        requires { places ≤ MAX_FROM }
        ensures { result ≡ replicate places None }
    {
        Chosen {
            rows: [None; MAX_FROM],
            places,
        }
    }

    /// Returns the row at each place, if there is one.
    pub(crate) fn as_slice(&self) -> &[Option<RowView<'c>>]
        ensures { rows_read viewed result.now ≡ self.now }
    {
        &self.rows[..self.places]
    }

    /// Returns a copy with a row at a place.
    pub(crate) fn with(&self, place: usize, row: RowView<'c>) -> Chosen<'c>
        requires { place < length self.now }
        ensures { result ≡ set self.now place (Some (viewed row.entry)) }
    {
        let mut rows = self.rows;
        rows[place] = Some(row);
        Chosen {
            rows,
            places: self.places,
        }
    }
}
