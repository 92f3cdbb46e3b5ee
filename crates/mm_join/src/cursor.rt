//! Searches for prefixes along a tree.
ghost use Rattle.std.specs.Prelude.{◌≡◌, ℕ, ◌+◌, ◌==◌, ◌<◌, ◌≤◌, List, [], false, IfOk, IsPermutation, OnOk, filter, length, map};
ghost use Rattle.mm_join.specs.Entries.{entry_of};
ghost use Rattle.mm_partition.specs.Places.{slot_at};
ghost use Rattle.mm_indexed.specs.Kept.{StoredRows};
ghost use Rattle.mm_store.specs.Looked.{IsIndexOn, IsTree};
ghost use Rattle.mm_store.specs.Tables.{IsAt, rows_at};
ghost use Rattle.mm_value.specs.declared.row_ref.RowRef.{RowRef as Ref};

use crate::column::prefix_there;
use crate::entries::{Entry, copy_run, first_of};
use mm_store::{IndexRef, View};
use mm_value::RowRef;
use std::alloc::{AllocError, Global};
use std::marker::Model;

/// A position in the walk along a tree of a table, for prefixes that are looked up in ascending order. The model is the entries of the
/// walk, since the result of a look-up does not depend on where the last one ended.
#[derive(Drop)]
pub(crate) struct Cursor {
    /// All rows, in the order of the tree.
    entries: Vec<Entry>,
    /// The position where the last search ended: that of the first entry whose prefix was not less than the one searched.
    at: usize,
}

impl Model for Cursor {
    ghost use Rattle.std.specs.Prelude.{◌≤◌, List, length};
    ghost use Rattle.mm_join.specs.Entries.{AreRising};
    ghost use Rattle.mm_join.specs.declared.entries.Entry.{Entry as Along};

    ghost Value = { List Along };

    ghost view = { λ c. c.entries.items };

    ghost invariant = { λ c. (c.at ≤ length c.entries.items) × AreRising c.entries.items };
}

impl Cursor {
    /// Returns a cursor at the start of the walk along a tree of a table on a column. Reads each row once, or its prefix instead if the
    /// prefixes of the column are stored. Fails with `AllocError` if an allocation fails.
    pub fn new(
        alloc: Global,
        view: &mut View<'_>,
        table: usize,
        index: IndexRef,
        column: usize,
    ) -> Result<Cursor, AllocError>
        requires there { table < length view.old.store.tables }
        requires tree { (stored : StoredRows) → IsAt view.old.store table stored → IsIndexOn stored column index × IsTree index }
        ensures walk { IfOk result (λ cursor. (stored : StoredRows) → IsAt view.old.store table stored
            → (walk : List Ref) × IsPermutation walk stored.refs × (cursor ≡ map (entry_of column (slot_at stored.places)) walk)) }
        ensures reads { view.new.reads ≤ view.old.reads + length (rows_at view.old.store.tables table) }
        ensures same { view.new.store ≡ view.old.store }
    {
        let mut entries = Vec::with_capacity(alloc, view.len_of(table))?;
        for at in view.walk(table, index) {
            let prefix = prefix_there(view, table, column, at);
            entries.push(Entry { prefix, at })?;
        }
        Ok(Cursor { entries, at: 0 })
    }

    /// Returns `false` only if no entry has this prefix. If the prefix is not less than the previous one, the search continues from where
    /// the last one ended, in doubling steps. Otherwise it starts at the first entry.
    pub fn has(&mut self, prefix: u64) -> bool
        ensures none { result ≡ false → filter (λ entry. entry.prefix == prefix) self.old ≡ [] }
        ensures same { self.new ≡ self.old }
    {
        let entries = self.entries.as_slice();
        let first = first_of(entries, prefix, self.at);
        self.at = first;
        if first >= entries.len() {
            return false;
        }
        entries[first].prefix == prefix
    }

    /// Replaces the contents of `found` by the references of the entries with this prefix, in the order of the walk. Searches like `has`.
    /// Fails with `AllocError` if an allocation fails.
    pub fn find(&mut self, prefix: u64, found: &mut Vec<RowRef>) -> Result<(), AllocError>
        ensures run { OnOk result (found.new.items ≡ map (λ entry. entry.at) (filter (λ entry. entry.prefix == prefix) self.old)) }
        ensures same { self.new ≡ self.old }
    {
        let entries = self.entries.as_slice();
        let first = first_of(entries, prefix, self.at);
        let copied = copy_run(&entries[first..], prefix, found);
        self.at = first;
        copied
    }
}
