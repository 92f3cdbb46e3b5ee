//! Positions in an order.
ghost use Rattle.std.specs.Prelude.{◌≡◌};
ghost use Rattle.std.specs.declared.cmp.Ordering.{Ordering};
ghost use Rattle.mm_value.specs.declared.row_ref.RowRef.{RowRef};

use crate::ref_order::RefOrder;
use mm_value::RowRef;
use std::cmp::Ordering;

/// A position that is searched for in an order, such as a value to look up or a bound of a range.
pub trait Probe {
    ghost covers: { Self → RowRef → Type 0 };

    ghost place_of: { Self → RowRef → Ordering };

    /// Compares the entry `at` with the position: `Less` before it, `Greater` after it, and `Equal` for a match.
    fn place(&self, at: RowRef) -> Ordering
        requires { covers self.now at }
        ensures { result ≡ place_of self.now at };
}

/// The position of a reference in an order. Its result is `Equal` for the reference itself and for any entry that compares equal to it. The
/// order must cover the reference.
#[derive(Drop)]
pub struct AtReference<'a, O> {
    /// The order that is searched.
    pub order: &'a O,
    /// The reference whose position is searched for.
    pub sought: RowRef,
}

impl<'a, O: RefOrder> Probe for AtReference<'a, O> {
    ghost covers = { λ p at. O.covers p.order.now at × O.covers p.order.now p.sought };

    ghost place_of = { λ p at. O.cmp p.order.now at p.sought };

    fn place(&self, at: RowRef) -> Ordering {
        self.order.compare(at, self.sought)
    }
}
