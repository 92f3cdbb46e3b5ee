//! The exact search for a closed walk with a negative sum: the least sums of walks to a point, round by round (Bellman and Ford).
ghost use Rattle.std.specs.Prelude.{◌≡◌, ◌≤◌, ◌^◌, ◌+ℤ◌, ◌<◌, false, length, IsTrue, ◌↔◌, None, IfOk, List, MatchOption};
ghost use Rattle.std.specs.List.{All, Contains};
ghost use Rattle.mm_relevance.specs.Walks.{IsFit, IsNear, IsNegative, IsNegativeWalk, IsNoStart, IsSmall, IsWithin, Takes, better, lesser, least, stepped, reaches_of};
ghost use Rattle.mm_relevance.specs.declared.edge.Edge.{Edge as Inequality};

use crate::edge::Edge;
use crate::term::{Point, same_point};
use std::alloc::{AllocError, Global};

/// An edge, and the least sum from its right point to the target.
#[derive(Clone, Copy)]
struct Reach {
    edge: Edge,
    sum: Option<i128>,
}

/// Returns the sum of a cost and a sum. It cannot overflow.
fn plus(cost: i128, sum: i128) -> i128
    requires cost { IsWithin (2 ^ 66) cost }
    requires sum { IsSmall sum }
    ensures { result ≡ cost +ℤ sum }
{
    cost + sum
}

/// Returns whether two sums are equal, or both missing.
fn same_sum(a: Option<i128>, b: Option<i128>) -> bool
    ensures { IsTrue result ↔ a ≡ b }
{
    match (a, b) {
        (Some(a), Some(b)) => a == b,
        (None, None) => true,
        _ => false,
    }
}

/// Returns the lesser of two sums.
fn lesser(best: Option<i128>, sum: i128) -> Option<i128>
    ensures { result ≡ lesser best sum }
{
    match best {
        Some(best) if best <= sum => Some(best),
        _ => Some(sum),
    }
}

/// Returns the lesser of a sum and the sum over an edge, if the edge starts at the point.
fn better(at: Point, best: Option<i128>, reach: &Reach) -> Option<i128>
    requires { IsFit reach.now }
    ensures { result ≡ better at best reach.now }
{
    if same_point(reach.edge.left, at) {
        match reach.sum {
            Some(sum) => lesser(best, plus(reach.edge.cost, sum)),
            None => best,
        }
    } else {
        best
    }
}

/// Returns the least of a sum and the sums over the edges that start at the point.
fn least(at: Point, best: Option<i128>, reaches: &[Reach]) -> Option<i128>
    requires { All IsFit reaches.now }
    ensures { result ≡ least at best reaches.now }
{
    let mut best = best;
    for reach in reaches {
        best = better(at, best, reach);
    }
    best
}

/// Returns the sums after one more edge, or `None` if no sum changes.
fn stepped(alloc: Global, reaches: &[Reach]) -> Result<Option<Vec<Reach>>, AllocError>
    requires { All IsFit reaches.now }
    ensures { IfOk result (λ o. MatchOption o (stepped reaches.now ≡ reaches.now) (λ v. v.items ≡ stepped reaches.now)) }
{
    let mut next = Vec::with_capacity(alloc, reaches.len())?;
    let mut same = true;
    for reach in reaches {
        let sum = least(reach.edge.right, reach.sum, reaches);
        if !same_sum(sum, reach.sum) {
            same = false;
        }
        next.push(Reach {
            edge: reach.edge,
            sum,
        })?;
    }
    if same { Ok(None) } else { Ok(Some(next)) }
}

/// Returns the sums of walks without edges.
fn start(alloc: Global, edges: &[Edge], target: Point) -> Result<Vec<Reach>, AllocError>
    ensures { IfOk result (λ v. v.items ≡ reaches_of edges.now target 0) }
{
    let mut reaches = Vec::with_capacity(alloc, edges.len())?;
    for edge in edges {
        let sum = if same_point(edge.right, target) {
            Some(0)
        } else {
            None
        };
        reaches.push(Reach { edge: *edge, sum })?;
    }
    Ok(reaches)
}

/// Returns the sums of walks of at most n edges.
fn reaches(alloc: Global, edges: &[Edge], target: Point, n: usize) -> Result<Vec<Reach>, AllocError>
    requires few { n ≤ 31 }
    requires near { All IsNear edges.now }
    ensures { IfOk result (λ v. v.items ≡ reaches_of edges.now target n) }
{
    let mut reaches = start(alloc, edges, target)?;
    for done in 0..n {
        match stepped(alloc, &reaches)? {
            Some(next) => reaches = next,
            None => return Ok(reaches),
        }
    }
    Ok(reaches)
}

/// Returns whether an edge starts at a point and its cost plus the sum after it is the given sum.
fn leads(at: Point, owed: Option<i128>, reach: &Reach) -> bool
    requires { IsFit reach.now }
    ensures { IsTrue result ↔ Takes at owed reach.now }
{
    match reach.sum {
        Some(after) => {
            same_point(reach.edge.left, at) && same_sum(owed, Some(plus(reach.edge.cost, after)))
        }
        None => false,
    }
}

/// Returns an edge that starts at a point and accounts for the given sum, if there is one.
fn taken(reaches: &[Reach], at: Point, owed: Option<i128>) -> Option<Reach>
    requires { All IsFit reaches.now }
    ensures { MatchOption result (All (λ r. Takes at owed r → ⊥) reaches.now) (λ r. Takes at owed r × Contains reaches.now r) }
{
    for reach in reaches {
        if leads(at, owed, reach) {
            return Some(*reach);
        }
    }
    None
}

/// Returns the closed walk through the target with this negative sum.
fn walked(
    alloc: Global,
    edges: &[Edge],
    target: Point,
    n: usize,
    first: Option<i128>,
) -> Result<Vec<Edge>, AllocError>
    requires few { n ≤ 31 }
    requires near { All IsNear edges.now }
    requires least { first ≡ least target None (reaches_of edges.now target n) }
    requires negative { IsNegative first }
    ensures { IfOk result (λ v. IsNegativeWalk edges.now v.items) }
{
    let mut cycle = Vec::new(alloc);
    let mut owed = first;
    let mut at = target;
    let mut left = n + 1;
    while left > 0 {
        left -= 1;
        let reaches = reaches(alloc, edges, target, left)?;
        if let Some(reach) = taken(&reaches, at, owed) {
            cycle.push(reach.edge)?;
            at = reach.edge.right;
            owed = reach.sum;
        }
    }
    Ok(cycle)
}

/// Returns whether a sum exists and is negative.
fn is_negative(sum: Option<i128>) -> bool
    ensures { IsTrue result ↔ IsNegative sum }
{
    match sum {
        Some(sum) => sum < 0,
        None => false,
    }
}

/// Returns a closed walk through a point with a negative sum, if there is one of at most 32 edges.
fn walk_through(
    alloc: Global,
    edges: &[Edge],
    target: Point,
) -> Result<Option<Vec<Edge>>, AllocError>
    requires { All IsNear edges.now }
    ensures { IfOk result (λ o. MatchOption o (IsNegative (least target None (reaches_of edges.now target 31)) → ⊥) (λ v. IsNegativeWalk edges.now v.items)) }
{
    let mut reaches = start(alloc, edges, target)?;
    for n in 0..31 {
        let owed = least(target, None, &reaches);
        if is_negative(owed) {
            return Ok(Some(walked(alloc, edges, target, n, owed)?));
        }
        match stepped(alloc, &reaches)? {
            Some(next) => reaches = next,
            None => return Ok(None),
        }
    }
    let owed = least(target, None, &reaches);
    if is_negative(owed) {
        return Ok(Some(walked(alloc, edges, target, 31, owed)?));
    }
    Ok(None)
}

/// Returns whether to search for walks from the left point of an edge. The edge must have a negative cost, and no earlier edge with a
/// negative cost may have the same left point.
fn is_start(edges: &[Edge], i: usize) -> bool
    requires { i < length edges.now }
    ensures { result ≡ false → IsNoStart edges.now i }
{
    let start = edges[i];
    start.is_negative()
        && !edges[..i].iter().any(|earlier| earlier.is_negative()
            && same_point(earlier.left, start.left))
}

/// Returns a closed walk with a negative sum, if there is one of at most 32 edges. One of its edges has a negative cost, so walks are
/// searched for only from the left points of such edges, once for each point. Called only if the relaxation found neither numbers for which
/// all edges are true nor a negative cycle of at most 32 edges. This happens only beyond 4 rows of FROM, 16 columns of a row or 16 atoms.
pub(crate) fn negative_walk(alloc: Global, edges: &[Edge]) -> Result<Option<Vec<Edge>>, AllocError>
    requires { All IsNear edges.now }
    ensures { IfOk result (λ found. MatchOption found ((walk : List Inequality) → IsNegativeWalk edges.now walk → ⊥) (λ walk. IsNegativeWalk edges.now walk.items)) }
{
    for i in 0..edges.len() {
        if is_start(edges, i) {
            if let Some(walk) = walk_through(alloc, edges, edges[i].left)? {
                return Ok(Some(walk));
            }
        }
    }
    Ok(None)
}
