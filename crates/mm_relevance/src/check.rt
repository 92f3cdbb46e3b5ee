//! Checking cycles.
ghost use Rattle.std.specs.Prelude.{◌≡◌, ◌-ℤ◌, ◌<ℤ◌, pos, ◌^◌, IsTrue, ◌↔◌, IfSome};
ghost use Rattle.mm_relevance.specs.Relevance.{IsAccepted, IsFalseOnTexts, IsNegativeCycle, edge_at};
ghost use Rattle.mm_relevance.specs.Walks.{IsSmall, IsWithin, follow_edge};

use crate::cycle::{Cycle, CycleEdge};
use crate::edge::edge_at;
use crate::term::{Point, same_point};
use crate::texts::fails_on_texts;
use mm_query::BoundQuery;
use mm_value::AsRow;

/// The maximum number of edges of a cycle.
pub(crate) const MAX_EDGES: usize = 32;

/// A point that a walk has reached, and the sum of its costs so far.
#[derive(Clone, Copy)]
struct Reached {
    at: Point,
    sum: i128,
}

/// Returns the point and the sum after one more edge, or `None` if the edge does not exist or does not start where the walk is.
fn advance<R: AsRow>(
    query: &BoundQuery,
    place: usize,
    row: &R,
    name: CycleEdge,
    from: Reached,
) -> Option<Reached>
    requires { IsSmall from.sum }
    ensures value { result ≡ follow_edge from (edge_at query.now place (R.AsRow.row row.now) name) }
    ensures near { IfSome result (λ r. IsWithin (2 ^ 66) (r.sum -ℤ from.sum)) }
{
    match edge_at(query, place, row, name) {
        Some(edge) => {
            if same_point(edge.left, from.at) {
                Some(Reached {
                    at: edge.right,
                    sum: from.sum + edge.cost,
                })
            } else {
                None
            }
        }
        None => None,
    }
}

/// Returns whether a walk has returned to its start with a negative sum.
fn closes(start: Point, end: Reached) -> bool
    ensures { IsTrue result ↔ (end.at ≡ start) × (end.sum <ℤ pos 0) }
{
    same_point(end.at, start) && end.sum < 0
}

/// Returns whether the edges exist, each starts where the previous one ends, the last one returns to the first, and the sum of their costs
/// is negative.
pub(crate) fn is_negative_cycle<R: AsRow>(
    query: &BoundQuery,
    place: usize,
    row: &R,
    cycle: &[CycleEdge],
) -> bool
    ensures { IsTrue result ↔ IsNegativeCycle query.now place (R.AsRow.row row.now) cycle.now }
{
    let count = cycle.len();
    if count == 0 || count > MAX_EDGES {
        return false;
    }
    let Some(first) = edge_at(query, place, row, cycle[0]) else {
        return false;
    };
    let mut now = Reached {
        at: first.left,
        sum: 0,
    };
    for name in cycle {
        match advance(query, place, row, *name, now) {
            Some(next) => now = next,
            None => return false,
        }
    }
    closes(first.left, now)
}

/// Returns whether the list is the one lower edge of an atom that is false for known texts.
fn is_false_on_texts<R: AsRow>(
    query: &BoundQuery,
    place: usize,
    row: &R,
    cycle: &[CycleEdge],
) -> bool
    ensures { IsTrue result ↔ IsFalseOnTexts query.now place (R.AsRow.row row.now) cycle.now }
{
    if cycle.len() != 1 || cycle[0].upper {
        return false;
    }
    match query.atoms.as_slice().get(cycle[0].conjunct) {
        Some(atom) => fails_on_texts(place, row, atom),
        None => false,
    }
}

/// Returns whether a cycle is accepted, so that no combination with this row at this position of FROM fits the query. An accepted cycle has
/// at most 32 existing inequalities, and each of them starts where the previous one ends. The last one returns to the first, and the sum of
/// their costs is negative. The one lower edge of an atom that is false for known texts is accepted too. Allocates nothing.
pub fn check_cycle<R: AsRow>(query: &BoundQuery, place: usize, row: &R, cycle: &Cycle) -> bool
    ensures { IsTrue result ↔ IsAccepted query.now place (R.AsRow.row row.now) cycle.now.edges.items }
{
    let edges = cycle.edges.as_slice();
    is_negative_cycle(query, place, row, edges) || is_false_on_texts(query, place, row, edges)
}
