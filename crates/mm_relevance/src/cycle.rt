//! Cycles of inequalities.

/// The name of an inequality: an atom, and which of the two bounds of its left side.
#[derive(Clone, Copy, Debug, PartialEq, Eq)]
pub struct CycleEdge {
    /// The position of the atom in the query, from 0.
    pub conjunct: usize,
    /// `true` for the bound from below, and `false` for the bound from above.
    pub upper: bool,
}

/// Inequalities that cannot all be true. Each starts at the point where the previous one ends.
#[derive(Debug, Drop)]
pub struct Cycle {
    /// The inequalities in order.
    pub edges: Vec<CycleEdge>,
}
