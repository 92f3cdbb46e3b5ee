//! Ordered references as a vector.
ghost use Rattle.std.specs.Prelude.{◌≡◌, ◌-◌, [], vec_len};
ghost use Rattle.std.specs.Vec.{vec_capacity};

use crate::ordered_refs::OrderedRefs;
use crate::probes::{AtReference, Probe};
use crate::ref_order::RefOrder;
use crate::search::{lower_bound, upper_bound};
use mm_value::RowRef;
use std::alloc::{AllocError, Global};
use std::marker::Model;

/// [`OrderedRefs`] as a vector: a search is binary, and an insert or removal moves the later entries.
#[derive(Drop)]
pub struct SortedRefs {
    refs: Vec<RowRef>,
}

impl Model for SortedRefs {
    ghost use Rattle.std.specs.Prelude.{◌-◌};
    ghost use Rattle.std.specs.Vec.{vec_len, vec_capacity};
    ghost use Rattle.mm_order.specs.Refs.{RefList};

    ghost Value = { RefList };

    ghost view = { λ s. record { refs = s.refs.items; spare = vec_capacity s.refs - vec_len s.refs } };
}

impl SortedRefs {
    /// Returns an empty list. Allocates nothing.
    pub fn new(alloc: Global) -> Self
        ensures { result ≡ record { refs = []; spare = 0 } }
    {
        SortedRefs {
            refs: Vec::new(alloc),
        }
    }
}

impl OrderedRefs for SortedRefs {
    ghost refs = { λ s. s.refs };

    ghost spare = { λ s. s.spare };

    fn len(&self) -> usize {
        self.refs.len()
    }

    fn spare(&self) -> usize {
        self.refs.capacity() - self.refs.len()
    }

    fn reserve(&mut self, _alloc: Global, n: usize) -> Result<(), AllocError> {
        self.refs.reserve(n)
    }

    fn insert<O: RefOrder>(&mut self, order: &O, added: RowRef) {
        let probe = AtReference {
            order,
            sought: added,
        };
        let at = lower_bound(&probe, self.refs.as_slice());
        self.refs.insert(at, added).unwrap();
    }

    fn remove<O: RefOrder>(&mut self, order: &O, gone: RowRef) -> bool {
        let probe = AtReference {
            order,
            sought: gone,
        };
        let at = lower_bound(&probe, self.refs.as_slice());
        if at == self.refs.len() || self.refs[at] != gone {
            return false;
        }
        self.refs.remove(at);
        true
    }

    fn copy_range<O: RefOrder, L: Probe, H: Probe>(
        &self,
        _alloc: Global,
        _order: &O,
        low: &L,
        high: &H,
        out: &mut Vec<RowRef>,
    ) -> Result<(), AllocError> {
        let refs = self.refs.as_slice();
        let rest = &refs[lower_bound(low, refs)..];
        out.extend_from_slice(&rest[..upper_bound(high, rest)])
    }
}
