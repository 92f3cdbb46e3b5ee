//! The hash table that a join builds.
ghost use Rattle.std.specs.Prelude.{◌≡◌, ◌+◌, ◌<◌, ◌≤◌, IfOk, IsPermutation, length, map};
ghost use Rattle.mm_join.specs.AccessMethods.{hashed_row};
ghost use Rattle.mm_partition.specs.Places.{slot_at};
ghost use Rattle.mm_indexed.specs.Kept.{StoredRows};
ghost use Rattle.mm_store.specs.Tables.{IsAt, rows_at};

use crate::column::hash_in;
use mlhash::HashRefs;
use mm_store::{IndexRef, View};
use std::alloc::{AllocError, Global};

/// Returns a hash table of the references of a table's rows, by the hash of each row's value in a column. A row without that column counts
/// as having 0 there. Reads each row once. Fails with `AllocError` if an allocation fails.
pub(crate) fn hashed_rows(
    alloc: Global,
    view: &mut View<'_>,
    table: usize,
    column: usize,
) -> Result<HashRefs, AllocError>
    requires { table < length view.old.store.tables }
    ensures pairs { IfOk result (λ pairs. (stored : StoredRows) → IsAt view.old.store table stored
        → IsPermutation pairs.entries (map (hashed_row column (slot_at stored.places)) stored.refs)) }
    ensures reads { view.new.reads ≤ view.old.reads + length (rows_at view.old.store.tables table) }
    ensures same { view.new.store ≡ view.old.store }
{
    let mut pairs = HashRefs::new(alloc);
    pairs.reserve(alloc, view.len_of(table))?;
    view.are_references_small(table);
    for at in view.walk(table, IndexRef::Key) {
        let hash = hash_in(view.row(table, at), column);
        pairs.insert(hash, at);
    }
    Ok(pairs)
}
