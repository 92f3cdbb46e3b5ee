//! Orders of references.
ghost use Rattle.std.specs.Prelude.{◌≡◌};
ghost use Rattle.std.specs.declared.cmp.Ordering.{Ordering};
ghost use Rattle.mm_value.specs.declared.row_ref.RowRef.{RowRef};
ghost use Rattle.mm_order.specs.Order.{IsTotalOrderOn};

use mm_value::RowRef;
use std::cmp::Ordering;

/// A total order on the references that it covers. The order of an index borrows the rows and compares their values, so it covers only
/// references of existing rows.
pub trait RefOrder {
    ghost covers: { Self → RowRef → Type 0 };

    ghost cmp: { Self → RowRef → RowRef → Ordering };

    /// Compares `a` with `b`.
    fn compare(&self, a: RowRef, b: RowRef) -> Ordering
        requires a_covered { covers self.now a }
        requires b_covered { covers self.now b }
        ensures { result ≡ cmp self.now a b };

    ghost total: { (order : Self) → IsTotalOrderOn (covers order) (cmp order) };
}
