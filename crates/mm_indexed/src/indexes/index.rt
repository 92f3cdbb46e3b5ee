//! An index other than that on the key.
ghost use Rattle.std.specs.Prelude.{◌≡◌, ◌≢◌, ◌<◌, ◌≤◌, ◌∷◌, List, length, All, AllPairs, OnOk, IfOk, IfSome};
ghost use Rattle.mm_value.specs.declared.row_ref.RowRef.{RowRef};
ghost use Rattle.mm_schema.specs.declared.index.IndexKind.TheVariants as kinds;
ghost use Rattle.mm_partition.specs.Places.{slot_at, IsLive, IsHidden};
ghost use Rattle.mm_indexed.specs.Index.{IsOn, Keeps, Emptied, Grown, Trimmed, column_of, spare_of};
ghost use Rattle.mm_indexed.specs.Stays.{Removes, Inserts, beside, stays};

use crate::indexes::hash_entries::{insert_pair, remove_pair};
use crate::indexes::tree_entries::{insert_unless_stays, remove_unless_stays};
use mlhash::HashRefs;
use mm_order::OrderedRefs;
use mm_partition::Partitions;
use mm_row_order::sorted_refs;
use mm_schema::IndexKind;
use mm_value::RowRef;
use std::alloc::{AllocError, Global};
use ttree::TTree;

/// An index on one column.
#[derive(Drop)]
pub enum Index {
    /// References in the order of the column.
    Tree { column: usize, refs: TTree },
    /// References by the hash of the column.
    Hash { column: usize, pairs: HashRefs },
}

impl Index {
    /// Returns a HASH index on a column over rows in use, into which they are inserted one by one. `AllocError` if an allocation fails.
    fn hash_over(
        alloc: Global,
        rows: &Partitions,
        column: usize,
        key: usize,
        refs: &[RowRef],
    ) -> Result<Index, AllocError>
        requires column { column < length rows.now.types }
        requires key { key < length rows.now.types }
        requires live { All (IsLive rows.now) refs.now }
        requires apart { AllPairs (λ a b. a ≢ b) refs.now }
        ensures keeps { IfOk result (Keeps key (slot_at rows.now) refs.now) }
        ensures on { IfOk result (IsOn column kinds.Hash) }
    {
        let pairs = HashRefs::new(alloc);
        let mut index = Index::Hash { column, pairs };
        index.reserve(alloc, refs.len())?;
        for at in refs {
            index.insert(rows, key, *at, None);
        }
        Ok(index)
    }

    /// Returns an index on a column over rows in use. A tree is built from the sorted references, without a search. `AllocError` if an
    /// allocation fails.
    fn over(
        alloc: Global,
        rows: &Partitions,
        column: usize,
        key: usize,
        kind: IndexKind,
        refs: &[RowRef],
    ) -> Result<Index, AllocError>
        requires column { column < length rows.now.types }
        requires key { key < length rows.now.types }
        requires live { All (IsLive rows.now) refs.now }
        requires apart { AllPairs (λ a b. a ≢ b) refs.now }
        ensures keeps { IfOk result (Keeps key (slot_at rows.now) refs.now) }
        ensures on { IfOk result (IsOn column kind) }
    {
        match kind {
            IndexKind::Tree => {
                rows.have_types();
                let sorted = sorted_refs(alloc, rows, column, key, refs)?;
                let refs = TTree::from_sorted(alloc, sorted.as_slice())?;
                Ok(Index::Tree { column, refs })
            }
            IndexKind::Hash => Index::hash_over(alloc, rows, column, key, refs),
        }
    }

    /// Returns an index on a column over rows in use, with capacity for `more` further entries. `AllocError` if an allocation fails.
    pub(crate) fn with_room(
        alloc: Global,
        rows: &Partitions,
        column: usize,
        key: usize,
        kind: IndexKind,
        refs: &[RowRef],
        more: usize,
    ) -> Result<Index, AllocError>
        requires column { column < length rows.now.types }
        requires key { key < length rows.now.types }
        requires live { All (IsLive rows.now) refs.now }
        requires apart { AllPairs (λ a b. a ≢ b) refs.now }
        ensures keeps { IfOk result (Keeps key (slot_at rows.now) refs.now) }
        ensures on { IfOk result (IsOn column kind) }
        ensures room { IfOk result (λ index. more ≤ spare_of index) }
    {
        let mut index = Index::over(alloc, rows, column, key, kind, refs)?;
        index.reserve(alloc, more)?;
        Ok(index)
    }

    /// Returns the column of the index, counted from 0.
    pub fn column(&self) -> usize
        ensures { result ≡ column_of self.now }
    {
        match self {
            Index::Tree { column, .. } | Index::Hash { column, .. } => *column,
        }
    }

    /// Returns whether it is a TREE index on this column.
    pub(crate) fn is_tree_on(&self, column: usize) -> bool {
        matches!(self, Index::Tree { .. }) && self.column() == column
    }

    /// Reserves capacity for at least `n` more entries. `AllocError` if an allocation fails; entries and capacity stay.
    pub(crate) fn reserve(&mut self, alloc: Global, n: usize) -> Result<(), AllocError>
        ensures room { OnOk result (n ≤ spare_of self.new) }
        ensures grown { Grown self.old self.new }
    {
        match self {
            Index::Tree { refs, .. } => refs.reserve(alloc, n),
            Index::Hash { pairs, .. } => pairs.reserve(alloc, n),
        }
    }

    /// Frees spare nodes of a TREE index until it has capacity for at most `n` more entries, or for up to four fewer. Frees capacity of a
    /// HASH index if it is more than two and a half times as large as needed, but keeps that for `n` more entries.
    pub(crate) fn trim_spares(&mut self, n: usize)
        ensures { Trimmed n self.old self.new }
    {
        match self {
            Index::Tree { refs, .. } => refs.trim_spares(n),
            Index::Hash { pairs, .. } => pairs.trim(n),
        }
    }

    /// Removes all entries, without a search. Their places become capacity for more.
    pub(crate) fn clear(&mut self)
        ensures { Emptied self.old self.new }
    {
        match self {
            Index::Tree { refs, .. } => refs.clear(),
            Index::Hash { pairs, .. } => pairs.clear(),
        }
    }

    /// Removes the entry of a row, unless it keeps its place when the row and a hidden one change places.
    pub(crate) fn remove(
        &mut self,
        rows: &Partitions,
        key: usize,
        at: RowRef,
        other: Option<RowRef>,
    )
        requires key { key < length rows.now.types }
        requires column { column_of self.old < length rows.now.types }
        requires live { IsLive rows.now at }
        requires hidden { IfSome other (IsHidden rows.now) }
        requires keeps { (held : List RowRef) × Keeps key (slot_at rows.now) (at ∷ held) self.old }
        ensures { Removes key (slot_at rows.now) at other self.old self.new }
    {
        match self {
            Index::Tree { column, refs } => {
                remove_unless_stays(rows, *column, key, refs, at, other)
            }
            Index::Hash { column, pairs } => remove_pair(rows, *column, pairs, at, other),
        }
    }

    /// Inserts the entry of a row, unless it kept its place when the row and a hidden one changed places.
    pub(crate) fn insert(
        &mut self,
        rows: &Partitions,
        key: usize,
        at: RowRef,
        other: Option<RowRef>,
    )
        requires key { key < length rows.now.types }
        requires column { column_of self.old < length rows.now.types }
        requires live { IsLive rows.now at }
        requires hidden { IfSome other (IsHidden rows.now) }
        requires keeps { (held : List RowRef) × All (λ a. a ≢ at) held
            × Keeps key (slot_at rows.now) (beside (stays key (slot_at rows.now) at other self.old) at held) self.old }
        requires spare { 1 ≤ spare_of self.old }
        ensures { Inserts key (slot_at rows.now) at other self.old self.new }
    {
        match self {
            Index::Tree { column, refs } => {
                insert_unless_stays(rows, *column, key, refs, at, other)
            }
            Index::Hash { column, pairs } => insert_pair(rows, *column, pairs, at, other),
        }
    }
}
