//! Further indexes, added and dropped.
ghost use Rattle.std.specs.Prelude.{◌≡◌, ◌<◌, ◌≤◌, All, length, OnOk, OnErr};
ghost use Rattle.std.specs.List.{remove};
ghost use Rattle.mm_indexed.specs.Index.{AddsIndex, spare_of};
ghost use Rattle.mm_schema.specs.Rows.{most_rows};

use super::IndexedRows;
use crate::indexes::index::Index;
use mm_partition::Partitions;
use mm_row_order::copy_refs;
use mm_schema::IndexKind;
use std::alloc::{AllocError, Global};

impl IndexedRows {
    /// Appends an index on a column over the rows in use, with capacity for `more` further entries. Requires at most 1,048,576 rows.
    /// `AllocError` if an allocation fails; then nothing changes.
    pub fn add_index(
        &mut self,
        alloc: Global,
        column: usize,
        kind: IndexKind,
        more: usize,
    ) -> Result<(), AllocError>
        requires column { column < length self.old.places.types }
        requires few { length self.old.refs ≤ most_rows }
        ensures added { OnOk result (AddsIndex column kind self.old.indexes self.new.indexes) }
        ensures rest { OnOk result (self.new ≡ record self.old { indexes = self.new.indexes }) }
        ensures room { OnOk result (All (λ x. more ≤ spare_of x) self.old.indexes → All (λ x. more ≤ spare_of x) self.new.indexes) }
        ensures err { OnErr result (self.new ≡ self.old) }
    {
        self.indexes.reserve(1)?;
        let refs = copy_refs(alloc, &self.by_key)?;
        track_for(alloc, &mut self.rows, column, kind)?;
        let refs = refs.as_slice();
        match Index::with_room(alloc, &self.rows, column, self.key, kind, refs, more) {
            Ok(index) => {
                self.indexes.push_reserved(index);
                Ok(())
            }
            Err(refused) => {
                untrack_unused(&mut self.rows, self.key, self.indexes.as_slice(), column);
                Err(refused)
            }
        }
    }

    /// Drops the index at a place, counted from 0. The places of later indexes decrease by one.
    pub fn drop_index(&mut self, index: usize)
        requires { index < length self.old.indexes }
        ensures { self.new ≡ record self.old { indexes = remove self.old.indexes index } }
    {
        let dropped = self.indexes.remove(index);
        untrack_unused(
            &mut self.rows,
            self.key,
            self.indexes.as_slice(),
            dropped.column(),
        );
    }
}

/// Keeps the prefixes of the column of a TREE index from now on, for its comparisons. A HASH index needs none. `AllocError` if an
/// allocation fails.
fn track_for(
    alloc: Global,
    rows: &mut Partitions,
    column: usize,
    kind: IndexKind,
) -> Result<(), AllocError>
    ensures { rows.new ≡ rows.old }
{
    match kind {
        IndexKind::Tree => rows.track(alloc, column),
        IndexKind::Hash => Ok(()),
    }
}

/// Drops the prefixes of a column that is not the key and has no TREE index.
fn untrack_unused(rows: &mut Partitions, key: usize, indexes: &[Index], column: usize)
    ensures { rows.new ≡ rows.old }
{
    if column != key && !indexes.iter().any(|index| index.is_tree_on(column)) {
        rows.untrack(column);
    }
}
