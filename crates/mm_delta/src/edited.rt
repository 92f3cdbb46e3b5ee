//! Edits of tables.
ghost use Rattle.std.specs.Prelude.{◌≡◌, not};
ghost use Rattle.mm_store.specs.Edits.{new_slot, old_slot};
ghost use Rattle.mm_delta.specs.Edited.{edits_at};
ghost use Rattle.mm_delta.specs.Steps.{stays, takes};

use mm_tables::Edit;
use mm_value::RowRef;

/// The edits of one table.
#[derive(Drop)]
pub struct TableChange<'c> {
    /// The table's place in the store.
    pub table: usize,
    /// The edits of its rows. The new rows are staged in hidden slots of the table.
    pub edits: &'c [Edit],
}

/// Returns the edits of a table.
pub(crate) fn edits_of<'c>(changes: &[TableChange<'c>], table: usize) -> &'c [Edit]
    ensures { result.now ≡ edits_at changes.now table }
{
    for change in changes {
        if change.table == table {
            return change.edits;
        }
    }
    &[]
}

/// Returns the reference of the row that an edit deletes or replaces, if any.
pub fn row_gone(edit: &Edit) -> Option<RowRef>
    ensures { result ≡ old_slot edit.now }
{
    match *edit {
        Edit::Stage(_) | Edit::Insert(_) => None,
        Edit::Update(at, _) | Edit::Move(at, _) | Edit::Delete(at) => Some(at),
    }
}

/// Returns the reference of the new row of an edit, if any.
pub(crate) fn row_come(edit: &Edit) -> Option<RowRef>
    ensures { result ≡ new_slot edit.now }
{
    match *edit {
        Edit::Stage(_) | Edit::Delete(_) => None,
        Edit::Insert(at) | Edit::Update(_, at) | Edit::Move(_, at) => Some(at),
    }
}

/// Returns whether an edit deletes or replaces the row of a reference.
fn takes(at: RowRef, edit: &Edit) -> bool
    ensures { result ≡ takes at edit.now }
{
    match *edit {
        Edit::Stage(_) | Edit::Insert(_) => false,
        Edit::Update(old, _) | Edit::Move(old, _) | Edit::Delete(old) => old == at,
    }
}

/// Returns whether no edit deletes or replaces the row of a reference.
pub(crate) fn stays(edits: &[Edit], at: RowRef) -> bool
    ensures { result ≡ stays edits.now at }
{
    for edit in edits {
        if takes(at, edit) {
            return false;
        }
    }
    true
}
