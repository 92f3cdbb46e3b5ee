//! The interface of ordered lists of references.
ghost use Rattle.std.specs.Prelude.{◌≡◌, ◌≢◌, ℕ, ◌+◌, ◌≤◌, ◌↔◌, List, ◌++◌, length, All, Contains, IsTrue, IsOk, OnOk, OnErr};
ghost use Rattle.std.specs.Bool.{OnTrue, OnFalse};
ghost use Rattle.std.specs.declared.cmp.Ordering.TheVariants.{Equal};
ghost use Rattle.mm_value.specs.declared.row_ref.RowRef.{RowRef};
ghost use Rattle.mm_order.specs.Order.{IsOrdered};
ghost use Rattle.mm_order.specs.Probe.{IsMonotone, entries_between};
ghost use Rattle.mm_order.specs.Refs.{AddsInOrder};

use crate::probes::Probe;
use crate::ref_order::RefOrder;
use mm_value::RowRef;
use std::alloc::{AllocError, Global};

/// A list of references in ascending order. It stores no order: each call that searches receives the order by which the list is sorted.
/// Only `reserve` increases its capacity.
pub trait OrderedRefs {
    ghost refs: { Self → List RowRef };

    ghost spare: { Self → ℕ };

    /// Returns the number of references.
    fn len(&self) -> usize
        ensures { result ≡ length (refs self.now) };

    /// Returns the number of further references that fit the capacity.
    fn spare(&self) -> usize
        ensures { result ≡ spare self.now };

    /// Reserves capacity for at least `n` more references. If the capacity is already there, allocates nothing and succeeds. Fails with
    /// `AllocError` if an allocation fails. In any case the list is unchanged, and no capacity is lost.
    fn reserve(&mut self, alloc: Global, n: usize) -> Result<(), AllocError>
        ensures room { OnOk result (n ≤ spare self.new) }
        ensures met { n ≤ spare self.old → IsOk result }
        ensures refs { refs self.new ≡ refs self.old }
        ensures spare { spare self.old ≤ spare self.new };

    /// Inserts a reference in order. Requires that no entry compares equal to it. Uses at most one unit of the capacity.
    fn insert<O: RefOrder>(&mut self, order: &O, added: RowRef)
        requires room { 1 ≤ spare self.old }
        requires ordered { IsOrdered (O.covers order.now) (O.cmp order.now) (refs self.old) }
        requires covered { O.covers order.now added }
        requires apart { All (λ a. O.cmp order.now a added ≢ Equal) (refs self.old) }
        ensures refs { AddsInOrder (O.cmp order.now) (refs self.old) added (refs self.new) }
        ensures ordered { IsOrdered (O.covers order.now) (O.cmp order.now) (refs self.new) }
        ensures spare { spare self.old ≤ spare self.new + 1 };

    /// Removes a reference, and returns whether it was in the list. Another reference that compares equal to it stays.
    fn remove<O: RefOrder>(&mut self, order: &O, gone: RowRef) -> bool
        requires ordered { IsOrdered (O.covers order.now) (O.cmp order.now) (refs self.old) }
        requires covered { O.covers order.now gone }
        ensures held { IsTrue result ↔ Contains (refs self.old) gone }
        ensures taken { OnTrue result
            (AddsInOrder (O.cmp order.now) (refs self.new) gone (refs self.old)) }
        ensures absent { OnFalse result (refs self.new ≡ refs self.old) }
        ensures ordered { IsOrdered (O.covers order.now) (O.cmp order.now) (refs self.new) }
        ensures spare { spare self.old ≤ spare self.new };

    /// Appends to `out`, in order, the entries that are neither before the position of `low` nor after that of `high`. Fails with
    /// `AllocError` if an allocation fails; then `out` is unchanged.
    fn copy_range<O: RefOrder, L: Probe, H: Probe>(
        &self,
        alloc: Global,
        order: &O,
        low: &L,
        high: &H,
        out: &mut Vec<RowRef>,
    ) -> Result<(), AllocError>
        requires ordered { IsOrdered (O.covers order.now) (O.cmp order.now) (refs self.now) }
        requires low { IsMonotone (O.covers order.now) (O.cmp order.now)
            (L.covers low.now) (L.place_of low.now) }
        requires high { IsMonotone (O.covers order.now) (O.cmp order.now)
            (H.covers high.now) (H.place_of high.now) }
        ensures ok { OnOk result (out.new.items ≡ out.old.items
            ++ entries_between (L.place_of low.now) (H.place_of high.now) (refs self.now)) }
        ensures err { OnErr result (out.new.items ≡ out.old.items) };
}
