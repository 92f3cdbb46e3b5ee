//! Values, orders of references and probes for tests.
ghost use Rattle.std.specs.Prelude.{◌≡◌, ◌≤◌, ◌/◌, OnOk};
ghost use Rattle.std.specs.Ordering.{nat_cmp};
ghost use Rattle.std.specs.Cmp.{on_total, nat_cmp_total};
ghost use Rattle.std.specs.declared.cmp.Ordering.TheVariants.{Equal};
ghost use Rattle.mm_value.specs.declared.row_ref.RowRef.{RowRef};
ghost use Rattle.mm_order.specs.Order.{IsTotalOrderOn-from_total};
ghost use Rattle.structure_tests.specs.Orders.{by_place};

use mm_order::{OrderedRefs, Probe, RefOrder};
use mm_value::{Refusal, RowRef, Text, Value, compare};
use std::alloc::{AllocError, Global};
use std::cmp::Ordering;
use std::process::Abort;

pub fn text(alloc: Global, bytes: &[u8]) -> Result<Value, Refusal> {
    Ok(Value::Text(Text::new(alloc, bytes)?))
}

pub fn is_equal(a: &Value, b: &Value) -> bool {
    compare(a, b) == Ordering::Equal
}

/// The order of references by their slots.
#[derive(Drop)]
pub struct ByPlace;

impl RefOrder for ByPlace {
    ghost covers = { λ _ _. Unit {0} };

    ghost cmp = { λ _. by_place };

    ghost total = { λ o. IsTotalOrderOn-from_total _ _ (on_total (λ (r : RowRef). r.slot) nat_cmp_total) };

    fn compare(&self, a: RowRef, b: RowRef) -> Ordering {
        a.slot.cmp(&b.slot)
    }
}

/// The probe for the references of one partition.
#[derive(Drop)]
pub struct InPartition(pub u32);

impl Probe for InPartition {
    ghost covers = { λ _ _. Unit {0} };

    ghost place_of = { λ p at. nat_cmp (at.slot / 64) p.0 };

    fn place(&self, at: RowRef) -> Ordering {
        (at.slot / 64).cmp(&self.0)
    }
}

/// The probe for the reference of a number.
#[derive(Drop)]
pub struct At(pub u32);

impl Probe for At {
    ghost covers = { λ _ _. Unit {0} };

    ghost place_of = { λ p at. nat_cmp at.slot p.0 };

    fn place(&self, at: RowRef) -> Ordering {
        at.slot.cmp(&self.0)
    }
}

/// The probe for every reference.
#[derive(Drop)]
pub struct Anywhere;

impl Probe for Anywhere {
    ghost covers = { λ _ _. Unit {0} };

    ghost place_of = { λ _ _. Equal };

    fn place(&self, _at: RowRef) -> Ordering {
        Ordering::Equal
    }
}

/// Reserves capacity for `n` more references. Tries again once if an allocation fails, which leaves the references unchanged.
pub fn reserve<R: OrderedRefs>(
    rt: &impl Abort,
    refs: &mut R,
    alloc: Global,
    n: usize,
) -> Result<(), AllocError>
    ensures room { OnOk result (n ≤ R.spare refs.new) }
    ensures refs { R.refs refs.new ≡ R.refs refs.old }
{
    let before = refs.len();
    if refs.reserve(alloc, n).is_err() {
        assert_eq!(rt; refs.len(), before);
        refs.reserve(alloc, n)?;
    }
    Ok(())
}
