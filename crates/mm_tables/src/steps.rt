//! Edits of the rows of one table, made and undone.
ghost use Rattle.std.specs.Prelude.{◌≡◌, ◌+◌};
ghost use Rattle.mm_partition.specs.Places.{extent_of, slot_at};
ghost use Rattle.mm_indexed.specs.Kept.{SameTable};
ghost use Rattle.mm_tables.specs.Edits.{step, step_back, Fits, Stands, key_places_made, places_made, key_places_back, places_back};
ghost use Rattle.mm_tables.specs.Edits.{IsCleared, DropsHidden};
ghost use Rattle.mm_tables.specs.Tables.{HasSpare};

use crate::edit::Edit;
use mm_indexed::IndexedRows;

/// Makes an edit.
pub fn perform(rows: &mut IndexedRows, edit: Edit)
    requires fits { Fits rows.old.key (slot_at rows.old.places) edit }
    requires spare { HasSpare (key_places_made edit) (places_made edit) rows.old }
    ensures slots { slot_at rows.new.places ≡ step edit (slot_at rows.old.places) }
    ensures back { step_back edit (slot_at rows.new.places) ≡ slot_at rows.old.places }
    ensures stands { Stands rows.old.key (slot_at rows.new.places) edit }
    ensures room { rows.new.places.room ≡ rows.old.places.room }
    ensures extent { extent_of rows.new.places ≡ extent_of rows.old.places }
    ensures table { SameTable (key_places_made edit) (places_made edit) rows.old rows.new }
{
    match edit {
        Edit::Stage(_) => unreachable!(),
        Edit::Insert(at) => rows.show(at),
        Edit::Update(at, other) => rows.exchange_kept(at, other),
        Edit::Move(at, other) => rows.exchange_moved(at, other),
        Edit::Delete(at) => rows.hide(at),
    }
}

/// Undoes an edit.
pub fn take_back(rows: &mut IndexedRows, edit: Edit)
    requires stands { Stands rows.old.key (slot_at rows.old.places) edit }
    requires spare { HasSpare (key_places_back edit) (places_back edit) rows.old }
    ensures slots { slot_at rows.new.places ≡ step_back edit (slot_at rows.old.places) }
    ensures extent { extent_of rows.new.places ≡ extent_of rows.old.places }
    ensures table { SameTable (key_places_back edit) (places_back edit) rows.old rows.new }
{
    match edit {
        Edit::Stage(at) => rows.release(at),
        Edit::Insert(at) => rows.hide(at),
        Edit::Update(at, other) => rows.exchange_kept(at, other),
        Edit::Move(at, other) => rows.exchange_moved(at, other),
        Edit::Delete(at) => rows.show(at),
    }
}

/// Drops the row that an edit has hidden, if it is still hidden.
pub fn release_hidden(rows: &mut IndexedRows, edit: Edit)
    ensures cleared { IsCleared (slot_at rows.new.places) edit }
    ensures others { DropsHidden (slot_at rows.old.places) (slot_at rows.new.places) }
    ensures extent { extent_of rows.new.places ≡ extent_of rows.old.places }
    ensures table { SameTable 0 0 rows.old rows.new }
{
    let Some(at) = edit.kept() else {
        return;
    };
    if rows.is_hidden(at) {
        rows.release(at);
    }
}
