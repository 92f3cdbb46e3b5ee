//! The search for a proof that a row cannot affect a query.
ghost use Rattle.std.specs.Prelude.{◌≡◌, ◌∷◌, [], ◌≤ℤ◌, pos, false, map, List, IfOk, IfSome, MatchOption};
ghost use Rattle.std.specs.List.{All};
ghost use Rattle.mm_relevance.specs.Relevance.{IsAccepted, IsCyclic, IsNegativeCycle};
ghost use Rattle.mm_relevance.specs.Walks.{name_of};
ghost use Rattle.mm_relevance.specs.declared.cycle.CycleEdge.{CycleEdge as Named};

use crate::check::is_negative_cycle;
use crate::cycle::{Cycle, CycleEdge};
use crate::edge::{Edge, edges};
use crate::relaxation::Relaxation;
use crate::search::negative_walk;
use crate::texts::false_text;
use mm_query::BoundQuery;
use mm_value::AsRow;
use std::alloc::{AllocError, Global};

/// Returns an accepted cycle of this row at this position of FROM, or `None` if there is no such cycle of at most 32 edges. A row with an
/// accepted cycle is irrelevant: no combination with it fits the query (Blakeley, Larson and Tompa). The cycle is a negative one of the
/// inequalities of the atoms for the row's values (Rosenkrantz and Hunt). If an atom is false for known texts, it is the one edge of that
/// atom. Allocates for the inequalities, unless an atom is false for known texts, and for the cycle. Allocates more only for the exact
/// search, which is needed only beyond 4 rows of FROM, 16 columns of a row or 16 atoms. Fails with `AllocError` if an allocation fails.
pub fn irrelevant<R: AsRow>(
    alloc: Global,
    query: &BoundQuery,
    place: usize,
    row: &R,
) -> Result<Option<Cycle>, AllocError>
    ensures { IfOk result (λ found. MatchOption found (IsCyclic query.now place (R.AsRow.row row.now) → ⊥) (λ cycle. IsAccepted query.now place (R.AsRow.row row.now) cycle.edges.items)) }
{
    if let Some(conjunct) = false_text(query, place, row) {
        return Ok(Some(lower_alone(alloc, conjunct)?));
    }
    negative_cycle(alloc, query, place, row)
}

/// Returns the cycle of the one lower edge of an atom.
fn lower_alone(alloc: Global, conjunct: usize) -> Result<Cycle, AllocError>
    ensures { IfOk result (λ cycle. cycle.edges.items ≡ name_of conjunct false ∷ []) }
{
    let mut edges = Vec::with_capacity(alloc, 1)?;
    edges.push(CycleEdge {
        conjunct,
        upper: false,
    })?;
    Ok(Cycle { edges })
}

/// Returns whether some inequality has a negative cost. Without one no cycle is negative.
fn has_negative_edge(edges: &[Edge]) -> bool
    ensures { result ≡ false → All (λ e. pos 0 ≤ℤ e.cost) edges.now }
{
    edges.iter().any(|edge| edge.is_negative())
}

/// Returns a negative cycle, if there is one.
fn negative_cycle<R: AsRow>(
    alloc: Global,
    query: &BoundQuery,
    place: usize,
    row: &R,
) -> Result<Option<Cycle>, AllocError>
    ensures { IfOk result (λ found. MatchOption found ((cycle : List Named) → IsNegativeCycle query.now place (R.AsRow.row row.now) cycle → ⊥) (λ cycle. IsNegativeCycle query.now place (R.AsRow.row row.now) cycle.edges.items)) }
{
    let found = edges(alloc, query, place, row)?;
    let edges = found.as_slice();
    if !has_negative_edge(edges) {
        return Ok(None);
    }
    let relaxation = Relaxation::of(edges);
    if relaxation.meets_all(edges) {
        return Ok(None);
    }
    if let Some(cycle) = proposed(alloc, query, place, row, &relaxation, edges)? {
        return Ok(Some(cycle));
    }
    match negative_walk(alloc, edges)? {
        Some(walk) => Ok(Some(Cycle {
            edges: names(alloc, &walk)?,
        })),
        None => Ok(None),
    }
}

/// Returns the cycle of edges that lowered numbers, if it is negative.
fn proposed<R: AsRow>(
    alloc: Global,
    query: &BoundQuery,
    place: usize,
    row: &R,
    relaxation: &Relaxation,
    edges: &[Edge],
) -> Result<Option<Cycle>, AllocError>
    ensures { IfOk result (λ found. IfSome found (λ cycle. IsNegativeCycle query.now place (R.AsRow.row row.now) cycle.edges.items)) }
{
    match relaxation.cycle(alloc, edges)? {
        Some(names) if is_negative_cycle(query, place, row, &names) => {
            Ok(Some(Cycle { edges: names }))
        }
        _ => Ok(None),
    }
}

/// Returns the names of edges.
fn names(alloc: Global, walk: &[Edge]) -> Result<Vec<CycleEdge>, AllocError>
    ensures { IfOk result (λ names. names.items ≡ map (λ e. e.name) walk.now) }
{
    walk.iter().map(|edge| edge.name).collect(alloc)
}
