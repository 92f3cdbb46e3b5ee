//! Relaxation: a number for each point, lowered round by round until all inequalities are true (Bellman and Ford). Callers check each
//! result, so nothing is proved about the numbers.
ghost use Rattle.std.specs.Prelude.{◌≡◌, ◌<◌, true};
ghost use Rattle.std.specs.List.{All};
ghost use Rattle.mm_relevance.specs.Walks.{IsMet, number_in, slot};

use crate::check::MAX_EDGES;
use crate::cycle::CycleEdge;
use crate::edge::Edge;
use crate::term::{Point, same_point};
use std::alloc::{AllocError, Global};

/// The number of rows of FROM with slots of their own.
const ROWS: usize = 4;

/// The number of columns of a row with slots of their own.
const COLUMNS: usize = 16;

/// The number of slots: one for zero, and one for each column.
const SLOTS: usize = 1 + ROWS * COLUMNS;

/// Returns the slot of a point's number. Two points share a slot only beyond 4 rows of FROM or 16 columns. Then a check may reject the
/// proposed result, but no wrong result is accepted.
fn slot(point: Point) -> usize
    ensures value { result ≡ slot point }
    ensures inside { result < 65 }
{
    match point {
        Point::Zero => 0,
        Point::Column(field) => 1 + field.place % ROWS * COLUMNS + field.column % COLUMNS,
    }
}

/// A number for each point, and the edge that lowered it last.
#[derive(Drop)]
pub(crate) struct Relaxation {
    /// The numbers, initially 0.
    numbers: [i128; SLOTS],
    /// The edges, as positions in the list of all edges.
    via: [Option<u8>; SLOTS],
    /// A point whose number the last round lowered.
    lowered: Option<Point>,
}

impl Relaxation {
    /// Returns the numbers after as many rounds as lower any number, or until the edges that lowered them form a cycle. A walk without
    /// repeated points has at most as many edges as there are, so one or the other happens after at most one more round than there are
    /// edges.
    pub(crate) fn of(edges: &[Edge]) -> Relaxation {
        let mut relaxation = Relaxation {
            numbers: [0; SLOTS],
            via: [None; SLOTS],
            lowered: None,
        };
        relaxation.go_over(edges);
        for _ in edges {
            if relaxation.lowered.is_none() || relaxation.on_circle(edges).is_some() {
                return relaxation;
            }
            relaxation.go_over(edges);
        }
        relaxation
    }

    /// Lowers numbers by each edge in turn.
    fn go_over(&mut self, edges: &[Edge]) {
        self.lowered = None;
        for (index, edge) in edges.iter().enumerate() {
            self.lower(index, edge);
        }
    }

    /// Lowers the number of an edge's left point to the edge's bound, if it is greater. Costs are far too small for a sum to wrap, and the
    /// checks are correct for any numbers.
    fn lower(&mut self, index: usize, edge: &Edge) {
        let left = slot(edge.left);
        let most = self.numbers[slot(edge.right)].wrapping_add(edge.cost);
        if most < self.numbers[left] {
            self.numbers[left] = most;
            self.via[left] = u8::try_from(index).ok();
            self.lowered = Some(edge.left);
        }
    }

    /// Returns the number of a point.
    fn number(&self, point: Point) -> i128
        ensures { result ≡ number_in self.now.numbers point }
    {
        self.numbers[slot(point)]
    }

    /// Returns `true` only if an edge is true for the numbers. Returns `false` if its right side overflows.
    fn meets(&self, edge: &Edge) -> bool
        ensures { result ≡ true → IsMet (number_in self.now.numbers) edge.now }
    {
        match self.number(edge.right).checked_add(edge.cost) {
            Some(most) => self.number(edge.left) <= most,
            None => false,
        }
    }

    /// Returns `true` only if each edge is true for the numbers. Then no cycle is negative, since the costs of true inequalities in a cycle
    /// have a sum of at least 0.
    pub(crate) fn meets_all(&self, edges: &[Edge]) -> bool
        ensures { result ≡ true → All (IsMet (number_in self.now.numbers)) edges.now }
    {
        edges.iter().all(|edge| self.meets(edge))
    }

    /// Returns the edge that last lowered the number of a point.
    fn edge_from<'e>(&self, edges: &'e [Edge], point: Point) -> Option<&'e Edge> {
        let index = self.via[slot(point)]?;
        edges.get(usize::from(index))
    }

    /// Returns a point on a cycle of the edges that lowered numbers, if there is one. A walk of one more step than there are edges repeats
    /// an edge.
    fn on_circle(&self, edges: &[Edge]) -> Option<Point> {
        let mut point = self.edge_from(edges, self.lowered?)?.right;
        for _ in edges {
            point = self.edge_from(edges, point)?.right;
        }
        Some(point)
    }

    /// Returns the names of edges that lowered numbers and form a cycle, if there is one of at most 32. Fails with `AllocError` if an
    /// allocation fails.
    pub(crate) fn cycle(
        &self,
        alloc: Global,
        edges: &[Edge],
    ) -> Result<Option<Vec<CycleEdge>>, AllocError> {
        let Some(start) = self.on_circle(edges) else {
            return Ok(None);
        };
        let mut names = Vec::with_capacity(alloc, edges.len().min(MAX_EDGES))?;
        let mut point = start;
        for _ in 0..MAX_EDGES {
            let Some(edge) = self.edge_from(edges, point) else {
                return Ok(None);
            };
            names.push(edge.name)?;
            point = edge.right;
            if same_point(point, start) {
                return Ok(Some(names));
            }
        }
        Ok(None)
    }
}
