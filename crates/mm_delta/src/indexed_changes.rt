//! The edits of tables, with hash indexes over some of them.
ghost use Rattle.std.specs.Prelude.{◌≡◌, ◌<◌, length, All, IfOk};
ghost use Rattle.mm_indexed.specs.Kept.{StoredRows};
ghost use Rattle.mm_partition.specs.Places.{slot_at};
ghost use Rattle.mm_store.specs.Tables.{IsAt, Tables};
ghost use Rattle.mm_delta.specs.Changes.{AreOf};
ghost use Rattle.mm_delta.specs.Overlay.{IsReadOf, overlay_edits};
ghost use Rattle.mm_delta.specs.Edited.{edits_at};
ghost use Rattle.mm_delta.specs.Steps.{EachFit};

use crate::asked_columns::asked_columns;
use crate::edit_index::EditIndex;
use crate::edited::{TableChange, edits_of};
use crate::overlay::Overlay;
use mm_query::BoundQuery;
use mm_store::View;
use mm_tables::Edit;
use std::alloc::{AllocError, Global};
use std::marker::Model;

/// Up to this number of edits, a linear search is faster than hashing.
const FEW: usize = 8;

/// Hash indexes over the edits of one table.
#[derive(Drop)]
struct TableIndex<'c> {
    /// The table's place in the store.
    table: usize,
    /// The index over its edits.
    index: EditIndex<'c>,
}

/// The edits of the changed tables, and hash indexes over those of some of them.
#[derive(Drop)]
pub(crate) struct IndexedChanges<'c> {
    changes: &'c [TableChange<'c>],
    indexes: Vec<TableIndex<'c>>,
}

impl<'c> Model for IndexedChanges<'c> {
    ghost use Rattle.std.specs.Prelude.{◌≡◌, All, map};
    ghost use Rattle.mm_delta.specs.Changes.{ReadChanges};
    ghost use Rattle.mm_delta.specs.Edited.{edits_at};

    ghost Value = { ReadChanges };

    ghost view = { λ c. record { edits = c.changes.now; come = map (λ found. (found.table, found.index.come)) c.indexes.items } };

    ghost invariant = { λ c. All (λ found. found.index.edits ≡ edits_at c.changes.now found.table) c.indexes.items };
}

impl<'c> IndexedChanges<'c> {
    /// Returns the edits of tables. Those of a table have hash indexes if an edited row meets them row by row: if the table is in FROM
    /// before a place whose table is changed too. At most `FEW` edits have no index. Fails with `AllocError` if an allocation fails.
    pub(crate) fn new<'a: 'c>(
        alloc: Global,
        view: &View<'a>,
        query: &BoundQuery,
        tables: &[usize],
        changes: &'c [TableChange<'c>],
    ) -> Result<IndexedChanges<'c>, AllocError>
        requires there { All (λ table. table < length view.now.store.tables) tables.now }
        requires fit { EachFit view.now.store changes.now }
        ensures edits { IfOk result (λ indexed. indexed.edits ≡ changes.now) }
        ensures read { IfOk result (λ indexed. AreOf view.now.store indexed) }
    {
        let mut indexes: Vec<TableIndex<'c>> = Vec::new(alloc);
        for place in 0..tables.len() {
            let table = tables[place];
            if is_met(changes, tables, place) && !indexes.iter().any(|found| found.table == table) {
                let columns = asked_columns(alloc, view, query, tables, table)?;
                let index = EditIndex::new(alloc, view, table, edits_of(changes, table), &columns)?;
                indexes.push(TableIndex { table, index })?;
            }
        }
        Ok(IndexedChanges { changes, indexes })
    }

    /// Returns the edits of a table.
    pub(crate) fn edits_of(&self, table: usize) -> &'c [Edit]
        ensures { result.now ≡ edits_at self.now.edits table }
    {
        edits_of(self.changes, table)
    }

    /// Returns the edits of a table, with hash indexes if it has them.
    pub(crate) fn overlay(&self, table: usize) -> Overlay<'_, 'c>
        ensures edits { overlay_edits result ≡ edits_at self.now.edits table }
        ensures read { (store : Tables) (stored : StoredRows) → AreOf store self.now → IsAt store table stored
            → IsReadOf (slot_at stored.places) result }
    {
        for found in &self.indexes {
            if found.table == table {
                return Overlay::Indexed(&found.index);
            }
        }
        Overlay::Listed(self.edits_of(table))
    }
}

/// Returns whether the table at a place of FROM has more than `FEW` edits, and a table after it is changed too.
fn is_met(changes: &[TableChange<'_>], tables: &[usize], place: usize) -> bool
    requires { place < length tables.now }
{
    let is_changed = |table: &usize| !edits_of(changes, *table).is_empty();
    edits_of(changes, tables[place]).len() > FEW && tables[place + 1..].iter().any(is_changed)
}
