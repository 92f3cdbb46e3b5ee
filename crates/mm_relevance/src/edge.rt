//! The inequalities of a query's atoms for a given row.
ghost use Rattle.std.specs.Prelude.{◌≡◌, ◌^◌, ◌++◌, int_lt, pos, false, true, IfOk, IfSome, OnOk};
ghost use Rattle.std.specs.List.{All};
ghost use Rattle.mm_relevance.specs.Relevance.{at_most, below, edge_at, edge_of, lower_edge, upper_edge};
ghost use Rattle.mm_relevance.specs.Walks.{IsNear, IsNearTerm, IsWithin, edges, name_of, option_list};

use crate::cycle::CycleEdge;
use crate::term::{Point, Term, field_term, operand_term};
use mm_query::{Atom, BoundQuery, Comparison, FieldPlace};
use mm_value::AsRow;
use std::alloc::{AllocError, Global};

/// The inequality `left <= right + cost`.
#[derive(Clone, Copy)]
pub(crate) struct Edge {
    /// The point on the left.
    pub(crate) left: Point,
    /// The point on the right.
    pub(crate) right: Point,
    /// The number that is added on the right.
    pub(crate) cost: i128,
    /// The name of the inequality.
    pub(crate) name: CycleEdge,
}

impl Edge {
    /// Returns whether the cost is negative.
    pub(crate) fn is_negative(self) -> bool
        ensures { result ≡ int_lt self.cost (pos 0) }
    {
        self.cost < 0
    }
}

/// The edges of an atom, at most two.
#[derive(Clone, Copy)]
struct Bounds {
    /// The bound of the left side from above.
    lower: Option<Edge>,
    /// The bound of the left side from below.
    upper: Option<Edge>,
}

/// Returns the edge of `a <= b`.
fn at_most(name: CycleEdge, a: Term, b: Term) -> Edge
    requires a { IsWithin (2 ^ 64) a.offset }
    requires b { IsWithin (2 ^ 64) b.offset }
    ensures value { result ≡ at_most name a b }
    ensures near { IsNear result }
{
    Edge {
        left: a.point,
        right: b.point,
        cost: b.offset - a.offset,
        name,
    }
}

/// Returns the edge of `a < b`, which is `a <= b - 1` for integers.
fn below(name: CycleEdge, a: Term, b: Term) -> Edge
    requires a { IsWithin (2 ^ 64) a.offset }
    requires b { IsWithin (2 ^ 64) b.offset }
    ensures value { result ≡ below name a b }
    ensures near { IsNear result }
{
    Edge {
        left: a.point,
        right: b.point,
        cost: b.offset - a.offset - 1,
        name,
    }
}

/// Returns the edge that bounds the left side from above, if there is one.
fn lower_edge(comparison: Comparison, name: CycleEdge, a: Term, b: Term) -> Option<Edge>
    requires a { IsWithin (2 ^ 64) a.offset }
    requires b { IsWithin (2 ^ 64) b.offset }
    ensures value { result ≡ lower_edge comparison name a b }
    ensures near { IfSome result IsNear }
{
    match comparison {
        Comparison::Equal | Comparison::LessOrEqual => Some(at_most(name, a, b)),
        Comparison::Less => Some(below(name, a, b)),
        Comparison::Greater | Comparison::GreaterOrEqual => None,
    }
}

/// Returns the edge that bounds the left side from below, if there is one.
fn upper_edge(comparison: Comparison, name: CycleEdge, a: Term, b: Term) -> Option<Edge>
    requires a { IsWithin (2 ^ 64) a.offset }
    requires b { IsWithin (2 ^ 64) b.offset }
    ensures value { result ≡ upper_edge comparison name a b }
    ensures near { IfSome result IsNear }
{
    match comparison {
        Comparison::Equal | Comparison::GreaterOrEqual => Some(at_most(name, b, a)),
        Comparison::Greater => Some(below(name, b, a)),
        Comparison::Less | Comparison::LessOrEqual => None,
    }
}

/// Returns the edges that bound the left side from above and from below.
fn bounds_between(comparison: Comparison, conjunct: usize, a: Term, b: Term) -> Bounds
    requires a { IsWithin (2 ^ 64) a.offset }
    requires b { IsWithin (2 ^ 64) b.offset }
    ensures lower { result.lower ≡ lower_edge comparison (name_of conjunct false) a b }
    ensures upper { result.upper ≡ upper_edge comparison (name_of conjunct true) a b }
    ensures lower_near { IfSome result.lower IsNear }
    ensures upper_near { IfSome result.upper IsNear }
{
    let lower = CycleEdge {
        conjunct,
        upper: false,
    };
    let upper = CycleEdge {
        conjunct,
        upper: true,
    };
    Bounds {
        lower: lower_edge(comparison, lower, a, b),
        upper: upper_edge(comparison, upper, a, b),
    }
}

/// Returns the edges of an atom.
fn bounds_of<R: AsRow>(
    query: &BoundQuery,
    place: usize,
    row: &R,
    conjunct: usize,
    atom: &Atom<FieldPlace>,
) -> Bounds
    ensures lower { result.lower ≡ edge_of query.now place (R.AsRow.row row.now) (name_of conjunct false) atom.now }
    ensures upper { result.upper ≡ edge_of query.now place (R.AsRow.row row.now) (name_of conjunct true) atom.now }
    ensures lower_near { IfSome result.lower IsNear }
    ensures upper_near { IfSome result.upper IsNear }
{
    let left = field_term(query, place, row, atom.left);
    let right = operand_term(query, place, row, &atom.right);
    match (left, right) {
        (Some(a), Some(b)) => bounds_between(atom.comparison, conjunct, a, b),
        _ => Bounds {
            lower: None,
            upper: None,
        },
    }
}

/// Returns the edge of an atom with this name, if there is one.
fn edge_of<R: AsRow>(
    query: &BoundQuery,
    place: usize,
    row: &R,
    name: CycleEdge,
    atom: &Atom<FieldPlace>,
) -> Option<Edge>
    ensures value { result ≡ edge_of query.now place (R.AsRow.row row.now) name atom.now }
    ensures near { IfSome result IsNear }
{
    let bounds = bounds_of(query, place, row, name.conjunct, atom);
    if name.upper {
        bounds.upper
    } else {
        bounds.lower
    }
}

/// Returns the edge of a query with this name, if there is one.
pub(crate) fn edge_at<R: AsRow>(
    query: &BoundQuery,
    place: usize,
    row: &R,
    name: CycleEdge,
) -> Option<Edge>
    ensures value { result ≡ edge_at query.now place (R.AsRow.row row.now) name }
    ensures near { IfSome result IsNear }
{
    match query.atoms.as_slice().get(name.conjunct) {
        Some(atom) => edge_of(query, place, row, name, atom),
        None => None,
    }
}

/// Appends an edge, if there is one.
fn add(edges: &mut Vec<Edge>, edge: Option<Edge>) -> Result<(), AllocError>
    ensures { OnOk result (edges.new.items ≡ edges.old.items ++ option_list edge) }
{
    if let Some(edge) = edge {
        edges.push(edge)?;
    }
    Ok(())
}

/// Returns the edges of all atoms.
pub(crate) fn edges<R: AsRow>(
    alloc: Global,
    query: &BoundQuery,
    place: usize,
    row: &R,
) -> Result<Vec<Edge>, AllocError>
    ensures value { IfOk result (λ found. found.items ≡ edges query.now place (R.AsRow.row row.now)) }
    ensures near { IfOk result (λ found. All IsNear found.items) }
{
    let atoms = query.atoms.as_slice();
    let mut found = Vec::with_capacity(alloc, atoms.len().saturating_mul(2))?;
    for (conjunct, atom) in atoms.iter().enumerate() {
        let bounds = bounds_of(query, place, row, conjunct, atom);
        add(&mut found, bounds.lower)?;
        add(&mut found, bounds.upper)?;
    }
    Ok(found)
}
