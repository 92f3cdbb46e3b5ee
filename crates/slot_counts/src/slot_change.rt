//! Changes that are told.

/// The change of the number of one slot since it was last told.
#[derive(Clone, Copy, Debug)]
pub struct SlotChange {
    /// The slot.
    pub slot: u32,
    /// The number now minus the one that was last told. It is not 0.
    pub by: i64,
}
