//! The slots of a partition.
ghost use Rattle.std.specs.Prelude.{◌≡◌, ◌<◌, ◌^◌};

use mm_value::RowRef;

/// The number of slots of a partition.
pub const SLOTS: usize = 64;

/// The state of a slot.
#[derive(Clone, Copy)]
pub enum State {
    /// The slot has no row and can be reused.
    Free,
    /// The slot has a row in use.
    Live,
    /// The slot has a tombstone or a staged row, and keeps it until it is released.
    Hidden,
}

/// Returns the index of a reference's slot: its position in a vector with an entry for each slot.
#[inline(always)]
pub fn index_of(at: RowRef) -> usize
    ensures { result ≡ at.slot }
{
    at.slot as usize
}

/// Returns the reference of the slot at an index.
pub fn reference_to(index: usize) -> RowRef
    requires { index < 2 ^ 32 }
    ensures { result.slot ≡ index }
{
    RowRef { slot: index as u32 }
}
