//! The end of a log: hidden rows are dropped, and slots and trees are trimmed.
ghost use Rattle.std.specs.Prelude.{◌≡◌, ◌<◌, ◌≤◌, ℕ, [], All, Some, length, map};
ghost use Rattle.mm_tables.specs.Edits.{IsCleared, DropsHidden};
ghost use Rattle.mm_tables.specs.Tables.{extent_in, extents_of, shape_of, state_of, slots_in, HasCounted, HasFewSpares, HoldsAt};

use crate::log_record::LogRecord;
use crate::logged_table::LoggedTable;

/// The most spare nodes that a tree keeps at the end of a log.
const MAX_SPARES: usize = 64;

/// Drops the rows that the edits of a log have hidden, and no longer keeps capacity for the undo of these edits.
pub fn forget_all(tables: &mut Vec<LoggedTable>, log: &[LogRecord])
    requires within { All (λ r. r.table < length tables.old.items) log.now }
    requires counted { (t : ℕ) → t < length tables.old.items → HoldsAt (HasCounted log.now t) tables.old.items t }
    ensures cleared { All (λ r. IsCleared (slots_in tables.new.items r.table) r.edit) log.now }
    ensures others { (t : ℕ) → DropsHidden (slots_in tables.old.items t) (slots_in tables.new.items t) }
    ensures counted { (t : ℕ) → t < length tables.new.items → HoldsAt (HasCounted [] t) tables.new.items t }
    ensures extents { extents_of tables.new.items ≡ extents_of tables.old.items }
    ensures shapes { map shape_of tables.new.items ≡ map shape_of tables.old.items }
{
    for entry in log {
        tables[entry.table as usize].forget(entry.edit);
    }
}

/// Trims the slots and the trees of a table after `records` records, unless it is the table that was trimmed last.
fn trim_next(tables: &mut Vec<LoggedTable>, last: Option<u16>, table: u16, records: usize)
    requires within { table < length tables.old.items }
    requires counted { (t : ℕ) → t < length tables.old.items → HoldsAt (HasCounted [] t) tables.old.items t }
    requires last { (t : ℕ) → last ≡ Some t → HoldsAt (HasFewSpares 64) tables.old.items t }
    ensures few { HoldsAt (HasFewSpares 64) tables.new.items table }
    ensures kept { (t : ℕ) → HoldsAt (HasFewSpares 64) tables.old.items t → HoldsAt (HasFewSpares 64) tables.new.items t }
    ensures state { state_of tables.new.items ≡ state_of tables.old.items }
    ensures counted { (t : ℕ) → t < length tables.new.items → HoldsAt (HasCounted [] t) tables.new.items t }
    ensures extents { (t : ℕ) → extent_in tables.new.items t ≤ extent_in tables.old.items t }
    ensures shapes { map shape_of tables.new.items ≡ map shape_of tables.old.items }
{
    if last == Some(table) {
        return;
    }
    tables[table as usize].trim(MAX_SPARES, records);
}

/// Trims the slots and the trees of each table that a log names.
pub fn trim_all(tables: &mut Vec<LoggedTable>, log: &[LogRecord])
    requires within { All (λ r. r.table < length tables.old.items) log.now }
    requires counted { (t : ℕ) → t < length tables.old.items → HoldsAt (HasCounted [] t) tables.old.items t }
    ensures spares { All (λ r. HoldsAt (HasFewSpares 64) tables.new.items r.table) log.now }
    ensures state { state_of tables.new.items ≡ state_of tables.old.items }
    ensures counted { (t : ℕ) → t < length tables.new.items → HoldsAt (HasCounted [] t) tables.new.items t }
    ensures extents { (t : ℕ) → extent_in tables.new.items t ≤ extent_in tables.old.items t }
    ensures shapes { map shape_of tables.new.items ≡ map shape_of tables.old.items }
{
    let mut last = None;
    for entry in log {
        trim_next(tables, last, entry.table, log.len());
        last = Some(entry.table);
    }
}
