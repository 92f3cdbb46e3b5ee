//! Commands whose edits are made at once.
ghost use Rattle.std.specs.Prelude.{◌≡◌, ◌+◌, ◌≤◌, ◌++◌, IfSome, length, map};
ghost use Rattle.std.specs.Vec.{vec_len, vec_capacity};
ghost use Rattle.std.specs.Bool.{OnTrue};
ghost use Rattle.std.specs.List.{list_all};
ghost use Rattle.mm_tables.specs.Commands.{DeletesAll, Suits, is_delete, update};
ghost use Rattle.mm_tables.specs.Tables.{logged};

use crate::edit::Edit;
use crate::log_record::LogRecord;
use mm_indexed::{Exchange, IndexedRows};
use mm_schema::MAX_ROWS;
use std::alloc::Global;

/// How the edits of a command are made at once.
#[derive(Drop)]
pub enum Bulk {
    /// All rows of the table are deleted.
    Deletions,
    /// The rows of these pairs are exchanged.
    Updates(Vec<Exchange>),
}

/// Returns whether all edits are deletions.
fn are_deletions(edits: &[Edit]) -> bool
    ensures { result ≡ list_all is_delete edits.now }
{
    edits.iter().all(|edit| edit.is_delete())
}

/// Returns whether edits that fit delete all rows of a table. A single row is found faster than all indexes are cleared.
fn delete_all_rows(rows: &IndexedRows, edits: &[Edit]) -> bool
    ensures { OnTrue result (DeletesAll edits.now rows.now) }
{
    edits.len() > 1 && edits.len() == rows.len() && edits.len() <= MAX_ROWS && are_deletions(edits)
}

/// Returns the pairs of a command of updates, or `None` if an edit is of another kind or the allocation of the pairs fails.
fn pairs_of(alloc: Global, edits: &[Edit]) -> Option<Vec<Exchange>>
    ensures { IfSome result (λ pairs. edits.now ≡ map update pairs.items) }
{
    if !edits.iter().all(|edit| matches!(edit, Edit::Update(..))) {
        return None;
    }
    let mut pairs = Vec::with_capacity(alloc, edits.len()).ok()?;
    for edit in edits {
        let Edit::Update(at, other) = *edit else {
            return None;
        };
        pairs.push_reserved(Exchange { at, other });
    }
    Some(pairs)
}

/// Returns how the edits of a command can be made faster than one after the other, or `None` if they cannot, or if an allocation fails.
pub fn bulk_of(alloc: Global, rows: &IndexedRows, edits: &[Edit]) -> Option<Bulk>
    ensures { IfSome result (Suits edits.now rows.now) }
{
    if delete_all_rows(rows, edits) {
        return Some(Bulk::Deletions);
    }
    if !rows.rebuilds(edits.len()) {
        return None;
    }
    let pairs = pairs_of(alloc, edits)?;
    Some(Bulk::Updates(pairs))
}

/// Appends a record for each edit of a table to a log with capacity for them, the first edit first.
pub fn log_all(log: &mut Vec<LogRecord>, table: u16, edits: &[Edit])
    requires { vec_len log.old + length edits.now ≤ vec_capacity log.old }
    ensures log { log.new.items ≡ log.old.items ++ map (logged table) edits.now }
    ensures capacity { vec_capacity log.new ≡ vec_capacity log.old }
{
    for edit in edits {
        log.push_reserved(LogRecord { table, edit: *edit });
    }
}
