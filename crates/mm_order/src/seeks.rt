//! Counted searches.
ghost use Rattle.std.specs.Prelude.{◌≡◌, ◌+◌, min};

use crate::probes::Probe;
use mm_value::RowRef;
use std::cmp::Ordering;
use std::marker::Model;

/// A search: a probe, and the number of its comparisons. The probe is accessible through [`Seek::place`] only, so the count bounds the
/// comparisons of the code that receives the search.
#[derive(Drop)]
pub struct Seek<'a, P> {
    probe: &'a P,
    count: u64,
}

impl<'a, P> Model for Seek<'a, P> {
    ghost use Rattle.mm_order.specs.Sought.{Sought};

    ghost Value = { Sought P };

    ghost view = { λ s. record { probe = s.probe.now; count = s.count } };
}

impl<'a, P> Seek<'a, P> {
    /// Returns a search with this probe, without comparisons.
    pub fn new(probe: &'a P) -> Self
        ensures { result ≡ record { probe = probe.now; count = 0 } }
    {
        Seek { probe, count: 0 }
    }

    /// Returns the number of comparisons, at most `u64::MAX`.
    pub fn count(&self) -> u64
        ensures { result ≡ self.now.count }
    {
        self.count
    }
}

impl<'a, P: Probe> Seek<'a, P> {
    /// Compares `at` with the position of the probe. The probe is unchanged, and the count grows by 1, up to `u64::MAX`.
    pub fn place(&mut self, at: RowRef) -> Ordering
        requires { P.covers self.old.probe at }
        ensures answer { result ≡ P.place_of self.old.probe at }
        ensures counted { self.new ≡ record self.old { count = min (self.old.count + 1) u64.MAX } }
    {
        self.count = self.count.saturating_add(1);
        self.probe.place(at)
    }
}
