//! Reads along the further indexes.
ghost use Rattle.std.specs.Prelude.{◌≡◌, ℕ, ◌<◌, ◌≤◌, length, map, filter, All, IfOk, IsOk, OnOk, OnErr};
ghost use Rattle.std.specs.Option.{option_map};
ghost use Rattle.mm_value.specs.Views.{value_of};
ghost use Rattle.mm_partition.specs.Places.{IsLive, slot_at};
ghost use Rattle.mm_schema.specs.Rows.{rows_by, most_rows};
ghost use Rattle.mm_schema.specs.Sorting.{in_order};
ghost use Rattle.mm_schema.specs.declared.index.IndexKind.TheVariants as kind;
ghost use Rattle.mm_indexed.specs.Reads.{HasIndex, IsWalk, IsRange, AreMatches, Appends, has_value};
ghost use Rattle.mm_row_order.specs.Refs.{row_at};
ghost use Rattle.mm_indexed.specs.RowLists.{rows_of};
ghost use Rattle.mm_indexed.specs.Twins.{AreApart};

use super::IndexedRows;
use crate::found_refs::FoundRefs;
use crate::indexes::hash_reads::{copy_matches, find_matches};
use crate::indexes::index::Index;
use mm_row_order::{Ends, copy_range, copy_refs, sorted_refs};
use mm_value::{RowRef, ValueRef};
use std::alloc::{AllocError, Global};
use ttree::{Iter, TTree};

impl IndexedRows {
    /// Returns the references of all rows along the TREE index at a place, counted from 0: in the order of its column, then of the
    /// key, then of the slot. There are at most 1,048,576 rows. Copies nothing.
    pub fn tree_walk(&self, index: usize) -> Iter<'_>
        requires tree { (column : ℕ) × HasIndex self.now.indexes index column kind.Tree }
        requires few { length self.now.refs ≤ most_rows }
        ensures walk { (column : ℕ) → HasIndex self.now.indexes index column kind.Tree → IsWalk column self.now result }
        ensures rows { AreApart self.now.key (slot_at self.now.places) → (column : ℕ) → HasIndex self.now.indexes index column kind.Tree
            → map (row_at (slot_at self.now.places)) result ≡ in_order (rows_by column self.now.key) (rows_of self.now) }
        ensures live { All (IsLive self.now.places) result }
    {
        match &self.indexes[index] {
            Index::Tree { refs, .. } => refs.iter(),
            Index::Hash { .. } => unreachable!(),
        }
    }

    /// Returns the references of all rows, of which there are at most 1,048,576, in a new tree: in the order of a column, then of the
    /// key, then of the slot. O(n log n) comparisons for n rows. `AllocError` if an allocation fails.
    pub fn ordered_by(&self, alloc: Global, column: usize) -> Result<TTree, AllocError>
        requires column { column < length self.now.places.types }
        requires few { length self.now.refs ≤ most_rows }
        ensures walk { IfOk result (λ tree. IsWalk column self.now tree.refs) }
        ensures rows { AreApart self.now.key (slot_at self.now.places)
            → IfOk result (λ tree. map (row_at (slot_at self.now.places)) tree.refs ≡ in_order (rows_by column self.now.key) (rows_of self.now)) }
        ensures live { IfOk result (λ tree. All (IsLive self.now.places) tree.refs) }
        ensures few { IfOk result (λ tree. length tree.refs ≤ most_rows) }
    {
        let refs = copy_refs(alloc, &self.by_key)?;
        let sorted = sorted_refs(alloc, &self.rows, column, self.key, refs.as_slice())?;
        TTree::from_sorted(alloc, sorted.as_slice())
    }

    /// Appends the references of the rows whose values in the column of the TREE index at a place are between two ends, both
    /// included, in the order of the walk along the index. `None` leaves an end open. `AllocError` if an allocation fails; then
    /// nothing is appended.
    pub fn tree_range(
        &self,
        alloc: Global,
        index: usize,
        low: Option<ValueRef<'_>>,
        high: Option<ValueRef<'_>>,
        out: &mut Vec<RowRef>,
    ) -> Result<(), AllocError>
        requires { (column : ℕ) × HasIndex self.now.indexes index column kind.Tree }
        ensures ok { OnOk result ((column : ℕ) → HasIndex self.now.indexes index column kind.Tree
            → Appends (IsRange column self.now (option_map value_of low.entry) (option_map value_of high.entry)) out.old.items out.new.items) }
        ensures err { OnErr result (out.new.items ≡ out.old.items) }
    {
        match &self.indexes[index] {
            Index::Tree { column, refs } => {
                let ends = Ends { low, high };
                copy_range(alloc, &self.rows, *column, self.key, refs, ends, out)
            }
            Index::Hash { .. } => unreachable!(),
        }
    }

    /// Appends the references of the rows whose value in the column of the HASH index at a place is this one, in no particular
    /// order. The index returns the rows with the value's hash (Lehman and Carey, VLDB 1986), and their values decide.
    /// `AllocError` if an allocation fails; then nothing is appended.
    pub fn hash_matches(
        &self,
        alloc: Global,
        index: usize,
        value: ValueRef<'_>,
        out: &mut Vec<RowRef>,
    ) -> Result<(), AllocError>
        requires { (column : ℕ) × HasIndex self.now.indexes index column kind.Hash }
        ensures ok { OnOk result ((column : ℕ) → HasIndex self.now.indexes index column kind.Hash
            → Appends (AreMatches column (slot_at self.now.places) (value_of value.entry) self.now.refs) out.old.items out.new.items) }
        ensures err { OnErr result (out.new.items ≡ out.old.items) }
    {
        match &self.indexes[index] {
            Index::Tree { .. } => unreachable!(),
            Index::Hash { column, pairs } => {
                copy_matches(alloc, &self.rows, *column, pairs, value, out)
            }
        }
    }

    /// Returns the references of the rows whose value in the column of the HASH index at a place is this one, in no particular order.
    /// Up to four are returned without an allocation. `AllocError` if an allocation fails.
    pub fn find_by_hash(
        &self,
        alloc: Global,
        index: usize,
        value: ValueRef<'_>,
    ) -> Result<FoundRefs, AllocError>
        requires { (column : ℕ) × HasIndex self.now.indexes index column kind.Hash }
        ensures found { IfOk result (λ found. (column : ℕ) → HasIndex self.now.indexes index column kind.Hash
            → AreMatches column (slot_at self.now.places) (value_of value.entry) self.now.refs found.items) }
        ensures few { (column : ℕ) → HasIndex self.now.indexes index column kind.Hash
            → length (filter (has_value column (slot_at self.now.places) (value_of value.entry)) self.now.refs) ≤ 4 → IsOk result }
    {
        match &self.indexes[index] {
            Index::Tree { .. } => unreachable!(),
            Index::Hash { column, pairs } => {
                find_matches(alloc, &self.rows, *column, pairs, value)
            }
        }
    }
}
