//! Binary search with a probe (Knuth, The Art of Computer Programming, volume 3, section 6.2.1). The slice's own `partition_point` requires
//! a predicate for every reference, and a probe compares only references that it covers.
ghost use Rattle.std.specs.Prelude.{◌≡◌, ◌≢◌, ◌≤◌, length, take, drop, All};
ghost use Rattle.std.specs.List.Sorted.{IsNonDecreasingBy};
ghost use Rattle.std.specs.Ordering.{ordering_index};

use crate::probes::Probe;
use mm_value::RowRef;
use std::cmp::Ordering;

/// Returns the number of entries before the position of the probe.
pub fn lower_bound<P: Probe>(probe: &P, refs: &[RowRef]) -> usize
    requires covered { All (P.covers probe.now) refs.now }
    requires rising { IsNonDecreasingBy (λ a. ordering_index (P.place_of probe.now a)) refs.now }
    ensures bound { result ≤ length refs.now }
    ensures before { All (λ a. P.place_of probe.now a ≡ Ordering.Less) (take result refs.now) }
    ensures rest { All (λ a. P.place_of probe.now a ≢ Ordering.Less) (drop result refs.now) }
{
    let mut low = 0;
    let mut high = refs.len();
    while low < high {
        let mid = low + (high - low) / 2;
        if probe.place(refs[mid]).is_lt() {
            low = mid + 1;
        } else {
            high = mid;
        }
    }
    low
}

/// Returns the number of entries that are not after the position of the probe.
pub fn upper_bound<P: Probe>(probe: &P, refs: &[RowRef]) -> usize
    requires covered { All (P.covers probe.now) refs.now }
    requires rising { IsNonDecreasingBy (λ a. ordering_index (P.place_of probe.now a)) refs.now }
    ensures bound { result ≤ length refs.now }
    ensures before { All (λ a. P.place_of probe.now a ≢ Ordering.Greater) (take result refs.now) }
    ensures rest { All (λ a. P.place_of probe.now a ≡ Ordering.Greater) (drop result refs.now) }
{
    let mut low = 0;
    let mut high = refs.len();
    while low < high {
        let mid = low + (high - low) / 2;
        if probe.place(refs[mid]).is_le() {
            low = mid + 1;
        } else {
            high = mid;
        }
    }
    low
}
