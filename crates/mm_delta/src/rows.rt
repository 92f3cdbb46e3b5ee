//! The rows that are read at a place of FROM.
ghost use Rattle.std.specs.Prelude.{◌≡◌, ◌+◌, ◌++◌, ◌<◌, ◌≤◌, [], filter, length, map, All, IfOk, IfSome, None, OnOk, Some};
ghost use Rattle.mm_value.specs.Views.{value_of};
ghost use Rattle.mm_partition.specs.Views.{viewed};
ghost use Rattle.mm_partition.specs.Places.{IsLive, slot_at};
ghost use Rattle.std.specs.List.{cons_option};
ghost use Rattle.std.specs.Option.{option_map};
ghost use Rattle.mm_indexed.specs.Kept.{StoredRows};
ghost use Rattle.mm_row_order.specs.Refs.{row_at};
ghost use Rattle.mm_store.specs.Edits.{AreReady, rows_come};
ghost use Rattle.mm_store.specs.Tables.{IsAt};
ghost use Rattle.mm_tables.specs.Edits.{Fits};
ghost use Rattle.mm_delta.specs.Candidates.{having, passes};
ghost use Rattle.mm_delta.specs.Steps.{IsFoundOf, IsServed, asked, coming, stays};
ghost use Rattle.mm_delta.specs.Wanted.{value_wanted};

use crate::edited::{row_come, stays};
use crate::known::value_in;
use crate::look_up::LookUp;
use crate::wanted::{Wanted, number_value};
use mm_partition::RowView;
use mm_store::{IndexRef, View};
use mm_tables::Edit;
use mm_value::{RowRef, ValueRef};
use std::alloc::{AllocError, Global};

/// Returns the references of the rows of a table that have a value in the column of an index, each once and in no particular order. No row
/// is read. Fails with `AllocError` if an allocation fails.
fn having_value(
    alloc: Global,
    view: &View<'_>,
    table: usize,
    look_up: &LookUp,
    value: ValueRef<'_>,
) -> Result<Vec<RowRef>, AllocError>
    requires there { table < length view.now.store.tables }
    requires served { IsServed view.now.store table look_up.now }
    ensures { IfOk result (λ found. (stored : StoredRows) → IsAt view.now.store table stored
        → IsFoundOf (Some (look_up.now.column, value_of value.entry)) stored found.items) }
{
    let mut found = Vec::new(alloc);
    view.matches(alloc, table, look_up.index, value, &mut found)?;
    Ok(found)
}

/// Returns the references of the rows of a table that have the value of a look-up, each once and in no particular order. No row is read.
/// Fails with `AllocError` if an allocation fails.
fn matching(
    alloc: Global,
    view: &View<'_>,
    table: usize,
    look_up: &LookUp,
) -> Result<Vec<RowRef>, AllocError>
    requires there { table < length view.now.store.tables }
    requires served { IsServed view.now.store table look_up.now }
    ensures { IfOk result (λ found. (stored : StoredRows) → IsAt view.now.store table stored
        → IsFoundOf (Some (look_up.now.column, value_wanted look_up.now.wanted)) stored found.items) }
{
    match &look_up.wanted {
        Wanted::Value(value) => having_value(alloc, view, table, look_up, value.as_ref()),
        Wanted::Sum(sum) => match number_value(*sum) {
            Some(value) => having_value(alloc, view, table, look_up, value.as_ref()),
            // No row has a number past 64 bits.
            None => Ok(Vec::new(alloc)),
        },
    }
}

/// Returns the references of all rows of a table, each once and in no particular order. No row is read. Fails with `AllocError` if an
/// allocation fails.
fn all_of(alloc: Global, view: &View<'_>, table: usize) -> Result<Vec<RowRef>, AllocError>
    requires { table < length view.now.store.tables }
    ensures { IfOk result (λ found. (stored : StoredRows) → IsAt view.now.store table stored → IsFoundOf None stored found.items) }
{
    let mut found = Vec::new(alloc);
    view.range(alloc, table, IndexRef::Key, None, None, &mut found)?;
    Ok(found)
}

/// Returns the references of the rows of a table that have the value of a look-up, or of all rows if there is no look-up, each once and in
/// no particular order. No row is read. Fails with `AllocError` if an allocation fails.
pub(crate) fn references(
    alloc: Global,
    view: &View<'_>,
    table: usize,
    look_up: &Option<LookUp>,
) -> Result<Vec<RowRef>, AllocError>
    requires there { table < length view.now.store.tables }
    requires served { IfSome look_up.now (IsServed view.now.store table) }
    ensures { IfOk result (λ found. (stored : StoredRows) → IsAt view.now.store table stored → IsFoundOf (asked look_up.now) stored found.items) }
{
    match look_up {
        Some(look_up) => matching(alloc, view, table, look_up),
        None => all_of(alloc, view, table),
    }
}

/// Removes the references whose rows an edit deletes or replaces.
pub(crate) fn leave_standing(edits: &[Edit], refs: &mut Vec<RowRef>)
    ensures { refs.new.items ≡ filter (stays edits.now) refs.old.items }
{
    if !edits.is_empty() {
        refs.retain(|at| stays(edits, *at));
    }
}

/// Returns the rows of references. Each is read once. Fails with `AllocError` if an allocation fails.
pub(crate) fn read_all<'c, 'a: 'c>(
    alloc: Global,
    view: &mut View<'a>,
    table: usize,
    refs: &[RowRef],
) -> Result<Vec<RowView<'c>>, AllocError>
    requires there { table < length view.old.store.tables }
    requires live { (stored : StoredRows) → IsAt view.old.store table stored → All (IsLive stored.places) refs.now }
    ensures rows { IfOk result (λ rows. (stored : StoredRows) → IsAt view.old.store table stored
        → map viewed rows.items ≡ map (row_at (slot_at stored.places)) refs.now) }
    ensures reads { view.new.reads ≤ view.old.reads + length refs.now }
    ensures same { view.new.store ≡ view.old.store }
{
    let mut rows = Vec::new(alloc);
    for at in refs {
        rows.push(view.row(table, *at))?;
    }
    Ok(rows)
}

/// Returns whether a row has the value of a look-up, if there is a look-up.
fn fits(look_up: &Option<LookUp>, row: RowView<'_>) -> bool
    ensures { result ≡ passes (asked look_up.now) (viewed row.entry) }
{
    match look_up {
        Some(look_up) => look_up.wanted.is(value_in(row, look_up.column)),
        None => true,
    }
}

/// Returns the new row of an edit of a table, in place, if it has the value of a look-up. No row is counted as read.
fn coming<'c, 'a: 'c>(
    view: &View<'a>,
    table: usize,
    edit: &Edit,
    look_up: &Option<LookUp>,
) -> Option<RowView<'c>>
    requires there { table < length view.now.store.tables }
    requires ready { (stored : StoredRows) → IsAt view.now.store table stored → Fits stored.key (slot_at stored.places) edit.now }
    ensures { (stored : StoredRows) → IsAt view.now.store table stored
        → option_map viewed result ≡ coming (asked look_up.now) (slot_at stored.places) edit.now }
{
    let row = view.staged_row(table, row_come(edit)?);
    if fits(look_up, row) { Some(row) } else { None }
}

/// Appends a row, if there is one. Fails with `AllocError` if an allocation fails.
fn push_some<'c>(rows: &mut Vec<RowView<'c>>, row: Option<RowView<'c>>) -> Result<(), AllocError>
    ensures { OnOk result (map viewed rows.new.items ≡ map viewed rows.old.items ++ cons_option (option_map viewed row.entry) []) }
{
    if let Some(row) = row {
        rows.push(row)?;
    }
    Ok(())
}

/// Appends the new rows of edits of a table that have the value of a look-up, in place. No row is counted as read. Fails with `AllocError`
/// if an allocation fails.
pub(crate) fn add_coming<'c, 'a: 'c>(
    view: &View<'a>,
    table: usize,
    rows: &mut Vec<RowView<'c>>,
    edits: &[Edit],
    look_up: &Option<LookUp>,
) -> Result<(), AllocError>
    requires there { table < length view.now.store.tables }
    requires ready { (stored : StoredRows) → IsAt view.now.store table stored → AreReady stored edits.now }
    ensures { OnOk result ((stored : StoredRows) → IsAt view.now.store table stored → map viewed rows.new.items
        ≡ map viewed rows.old.items ++ having (asked look_up.now) (rows_come (slot_at stored.places) edits.now)) }
{
    for edit in edits {
        push_some(rows, coming(view, table, edit, look_up))?;
    }
    Ok(())
}

/// Appends those of some rows that have the value of a look-up. Fails with `AllocError` if an allocation fails.
pub(crate) fn add_fitting<'c>(
    rows: &mut Vec<RowView<'c>>,
    from: &[RowView<'c>],
    look_up: &Option<LookUp>,
) -> Result<(), AllocError>
    ensures { OnOk result (map viewed rows.new.items ≡ map viewed rows.old.items ++ having (asked look_up.now) (map viewed from.now)) }
{
    for row in from {
        if fits(look_up, *row) {
            rows.push(*row)?;
        }
    }
    Ok(())
}
