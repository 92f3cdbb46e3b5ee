//! References to rows that were found.
use mm_value::RowRef;
use smallvec::SmallVec;

/// References to rows that were found. Up to four are stored inline, without an allocation.
pub type FoundRefs = SmallVec<RowRef, 4>;
