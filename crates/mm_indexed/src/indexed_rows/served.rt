//! Which index a column has, and the rows between two keys.
ghost use Rattle.std.specs.Prelude.{◌≡◌, ℕ, ◌++◌, ◌∷◌, [], position, IfSome, IfNone, OnOk, OnErr};
ghost use Rattle.std.specs.Option.{option_map};
ghost use Rattle.mm_value.specs.Views.{value_of};
ghost use Rattle.mm_order.specs.Probe.{entries_between};
ghost use Rattle.mm_partition.specs.Places.{slot_at};
ghost use Rattle.mm_row_order.specs.Ends.{end_place};
ghost use Rattle.mm_indexed.specs.Reads.{HasIndex};
ghost use Rattle.mm_indexed.specs.Served.{is_on};
ghost use Rattle.mm_indexed.specs.Twins.{AreApart};

use super::IndexedRows;
use crate::indexes::index::Index;
use mm_row_order::{Ends, copy_range};
use mm_schema::IndexKind;
use mm_value::{RowRef, ValueRef, compare};
use std::alloc::{AllocError, Global};

impl IndexedRows {
    /// Returns the place of the first further index of a kind on a column, counted from 0, or `None` if the column has no such
    /// index. The index on the key is not among them.
    pub fn index_of(&self, column: usize, kind: IndexKind) -> Option<usize>
        ensures first { result ≡ position (is_on column kind) self.now.indexes }
        ensures found { IfSome result (λ index. HasIndex self.now.indexes index column kind) }
        ensures none { IfNone result ((index : ℕ) → HasIndex self.now.indexes index column kind → ⊥) }
    {
        first_on(self.indexes.as_slice(), column, kind)
    }

    /// Appends the references of the rows whose keys are between two ends, both included, in the order of the key. `None` leaves an end
    /// open. If both ends are one key, the call makes one search as by `find`. Then, if two rows have that key, as can happen only while a
    /// command runs, only one of them is appended. `AllocError` if an allocation fails; then nothing is appended.
    pub fn key_range(
        &self,
        alloc: Global,
        low: Option<ValueRef<'_>>,
        high: Option<ValueRef<'_>>,
        out: &mut Vec<RowRef>,
    ) -> Result<(), AllocError>
        ensures ok { OnOk result (AreApart self.now.key (slot_at self.now.places) → out.new.items ≡ out.old.items ++ entries_between
            (end_place self.now.key (slot_at self.now.places) (option_map value_of low.entry))
            (end_place self.now.key (slot_at self.now.places) (option_map value_of high.entry)) self.now.refs) }
        ensures err { OnErr result (out.new.items ≡ out.old.items) }
    {
        if let (Some(first), Some(last)) = (low, high) {
            if compare(&first, &last).is_eq() {
                self.is_kept();
                return push_found(self.find(first), out);
            }
        }
        let ends = Ends { low, high };
        copy_range(
            alloc,
            &self.rows,
            self.key,
            self.key,
            &self.by_key,
            ends,
            out,
        )
    }
}

/// Appends a reference, if there is one. `AllocError` if an allocation fails; then nothing is appended.
fn push_found(found: Option<RowRef>, out: &mut Vec<RowRef>) -> Result<(), AllocError>
    ensures some { OnOk result (IfSome found (λ at. out.new.items ≡ out.old.items ++ at ∷ [])) }
    ensures none { OnOk result (IfNone found (out.new.items ≡ out.old.items)) }
    ensures err { OnErr result (out.new.items ≡ out.old.items) }
{
    if let Some(at) = found {
        out.push(at)?;
    }
    Ok(())
}

/// Returns the place of the first index of a kind on a column.
fn first_on(indexes: &[Index], column: usize, kind: IndexKind) -> Option<usize>
    ensures { result ≡ position (is_on column kind) indexes.now }
{
    indexes
        .iter()
        .position(|index| has_kind(index, column, kind))
}

/// Returns whether an index is of a kind and on a column.
fn has_kind(index: &Index, column: usize, kind: IndexKind) -> bool
    ensures { result ≡ is_on column kind index.now }
{
    match index {
        Index::Tree { column: own, .. } => *own == column && kind == IndexKind::Tree,
        Index::Hash { column: own, .. } => *own == column && kind == IndexKind::Hash,
    }
}
