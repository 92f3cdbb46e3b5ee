//! References that differ by a number.
ghost use Rattle.std.specs.Prelude.{◌≡◌, length, IfOk};
ghost use Rattle.structure_tests.specs.Orders.{IsByPlace};

use mm_value::RowRef;
use std::alloc::{AllocError, Global};

/// Returns the reference of a number.
pub fn numbered(slot: u32) -> RowRef
    ensures { result.slot ≡ slot }
{
    RowRef { slot }
}

/// Returns the references of the numbers below `count`, in order. Fails with `AllocError` if an allocation fails.
pub fn ascending(alloc: Global, count: u32) -> Result<Vec<RowRef>, AllocError>
    ensures count { IfOk result (λ refs. length refs.items ≡ count) }
    ensures ordered { IfOk result (λ refs. IsByPlace refs.items) }
{
    let mut refs = Vec::new(alloc);
    for number in 0..count {
        refs.push(numbered(number))?;
    }
    Ok(refs)
}

/// Returns whether these are the references of a list, in any order.
pub fn are(found: &[RowRef], wanted: &[RowRef]) -> bool {
    found.len() == wanted.len() && wanted.iter().all(|wanted| found.contains(wanted))
}
