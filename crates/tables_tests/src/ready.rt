//! Whether edits are those of a command: each fits the rows, and no two have a slot in common.
ghost use Rattle.std.specs.Prelude.{◌≢◌, All, AllPairs};
ghost use Rattle.std.specs.Bool.{OnTrue};
ghost use Rattle.mm_partition.specs.Places.{slot_at};
ghost use Rattle.mm_tables.specs.Edits.{Fits};
ghost use Rattle.mm_tables.specs.Commands.{IsApart, LeavesOut};

use crate::samples::fits;
use mm_indexed::IndexedRows;
use mm_tables::Edit;
use mm_value::RowRef;

/// Returns whether two references differ.
fn differ(one: RowRef, two: RowRef) -> bool
    ensures { OnTrue result (one ≢ two) }
{
    one.slot != two.slot
}

/// Returns whether an edit does not name a slot.
fn leaves_out(edit: Edit, at: RowRef) -> bool
    ensures { OnTrue result (LeavesOut edit at) }
{
    match edit {
        Edit::Stage(slot) => differ(slot, at),
        Edit::Insert(slot) => differ(slot, at),
        Edit::Update(slot, other) => differ(slot, at) && differ(other, at),
        Edit::Move(slot, other) => differ(slot, at) && differ(other, at),
        Edit::Delete(slot) => differ(slot, at),
    }
}

/// Returns whether two edits have no slot in common.
fn are_apart(one: Edit, two: Edit) -> bool
    ensures { OnTrue result (IsApart one two) }
{
    match two {
        Edit::Stage(slot) => leaves_out(one, slot),
        Edit::Insert(slot) => leaves_out(one, slot),
        Edit::Update(at, other) => leaves_out(one, at) && leaves_out(one, other),
        Edit::Move(at, other) => leaves_out(one, at) && leaves_out(one, other),
        Edit::Delete(slot) => leaves_out(one, slot),
    }
}

/// Returns whether an edit has no slot in common with other edits.
fn is_apart_from(edit: Edit, others: &[Edit]) -> bool
    ensures { OnTrue result (All (IsApart edit) others.now) }
{
    for other in others {
        if !are_apart(edit, *other) {
            return false;
        }
    }
    true
}

/// Returns whether no two edits have a slot in common.
pub fn all_apart(edits: &[Edit]) -> bool
    ensures { OnTrue result (AllPairs IsApart edits.now) }
{
    let Some((first, rest)) = edits.split_first() else {
        return true;
    };
    is_apart_from(*first, rest) && all_apart(rest)
}

/// Returns whether each edit fits the rows of a table.
pub fn all_fit(rows: &IndexedRows, edits: &[Edit]) -> bool
    ensures { OnTrue result (All (Fits rows.now.key (slot_at rows.now.places)) edits.now) }
{
    for edit in edits {
        if !fits(rows, *edit) {
            return false;
        }
    }
    true
}
