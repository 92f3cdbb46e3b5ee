//! References and the numbers by which they are stored.
ghost use Rattle.std.specs.Prelude.{◌≡◌};
ghost use Rattle.mm_foreign_key.specs.Counts.{entry_of};

use mm_value::RowRef;

/// The number that means no slot. A table has at most 2^32 - 1 slots, so no slot has this index.
pub(crate) const NONE: u32 = u32::MAX;

/// Returns the reference that a number means, or `None` if it means no slot.
pub(crate) fn reference_to(number: u32) -> Option<RowRef>
    ensures { result ≡ entry_of number }
{
    if number == NONE {
        return None;
    }
    Some(RowRef { slot: number })
}
