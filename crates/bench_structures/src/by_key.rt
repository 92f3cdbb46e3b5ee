//! The order by key.
ghost use Rattle.std.specs.Prelude.{◌≡◌};
ghost use Rattle.std.specs.Ordering.{nat_cmp};
ghost use Rattle.std.specs.Cmp.{then_total, on_total, nat_cmp_total};
ghost use Rattle.mm_value.specs.declared.row_ref.RowRef.{RowRef};
ghost use Rattle.mm_order.specs.Order.{IsTotalOrderOn-from_total};
ghost use Rattle.bench_structures.specs.Keys.{key_in, by_key};

use mm_order::RefOrder;
use mm_value::RowRef;
use std::cmp::Ordering;

/// References by the keys of their slots, and those of equal keys by slot.
#[derive(Drop)]
pub(crate) struct ByKey<'a> {
    pub(crate) keys: &'a [u64],
}

impl<'a> ByKey<'a> {
    fn key(&self, at: RowRef) -> u64
        ensures { result ≡ key_in self.now.keys.now at }
    {
        match self.keys.get(at.slot as usize) {
            Some(key) => *key,
            None => 0,
        }
    }
}

impl<'a> RefOrder for ByKey<'a> {
    ghost covers = { λ _ _. Unit {0} };

    ghost cmp = { λ o. by_key o.keys.now };

    ghost total = { λ o. IsTotalOrderOn-from_total _ _ (then_total (on_total (key_in o.keys.now) nat_cmp_total) (on_total (λ (r : RowRef). r.slot) nat_cmp_total)) };

    fn compare(&self, a: RowRef, b: RowRef) -> Ordering {
        let (one, other) = (self.key(a), self.key(b));
        if one == other {
            a.slot.cmp(&b.slot)
        } else {
            one.cmp(&other)
        }
    }
}
