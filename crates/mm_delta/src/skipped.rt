//! Edited rows that are left out, each because of a cycle that was checked.
ghost use Rattle.std.specs.Prelude.{◌≡◌, ◌↔◌, true, IfOk, IsTrue, MatchOption};
ghost use Rattle.mm_partition.specs.Views.{viewed};
ghost use Rattle.mm_relevance.specs.Relevance.{IsAccepted, IsCyclic};

use mm_partition::RowView;
use mm_query::BoundQuery;
use mm_relevance::{Cycle, check_cycle, irrelevant};
use std::alloc::{AllocError, Global};

/// Returns whether a certificate shows that no combination with this row at this place of FROM matches the query. Any certificate may be
/// passed: a cycle is checked.
fn is_shown(query: &BoundQuery, place: usize, row: RowView<'_>, certificate: &Option<Cycle>) -> bool
    ensures sound { IsTrue result → IsCyclic query.now place (viewed row.entry) }
    ensures accepted { MatchOption certificate.now ⊥ (λ cycle. IsAccepted query.now place (viewed row.entry) cycle.edges.items) → result ≡ true }
{
    match certificate {
        Some(cycle) => check_cycle(query, place, &row, cycle),
        None => false,
    }
}

/// Returns whether this row is left out at this place of FROM: whether a cycle of at most 32 edges, which is checked, shows that no
/// combination with the row matches the query. The row is left out if such a cycle exists. Fails with `AllocError` if an allocation fails.
pub(crate) fn is_skipped(
    alloc: Global,
    query: &BoundQuery,
    place: usize,
    row: RowView<'_>,
) -> Result<bool, AllocError>
    ensures { IfOk result (λ skipped. IsTrue skipped ↔ IsCyclic query.now place (viewed row.entry)) }
{
    let certificate = irrelevant(alloc, query, place, &row)?;
    Ok(is_shown(query, place, row, &certificate))
}
