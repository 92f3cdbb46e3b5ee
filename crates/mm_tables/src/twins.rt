//! Rows of one key, before and after the edits of a command.
ghost use Rattle.std.specs.Prelude.{◌≡◌, ◌↔◌, [], ◌∷◌, All, IfSome, IsTrue};
ghost use Rattle.std.specs.Bool.{OnTrue, OnFalse};
ghost use Rattle.mm_partition.specs.Places.{slot_at, IsHidden};
ghost use Rattle.mm_indexed.specs.Twins.{AreApart, HasTwin};
ghost use Rattle.mm_tables.specs.Commands.{CameLive, NewKeyAlone};
ghost use Rattle.mm_tables.specs.declared.edit.Edit.TheVariants as made;

use crate::edit::Edit;
use mm_indexed::IndexedRows;
use mm_value::RowRef;

/// Returns whether an edit brought a row whose key may be new, and another row has that key too.
fn brings_twin(rows: &IndexedRows, edit: Edit) -> bool
    requires { CameLive (slot_at rows.now.places) edit }
    ensures alone { OnFalse result (NewKeyAlone rows.now.key (slot_at rows.now.places) edit) }
    ensures twin { OnTrue result (AreApart rows.now.key (slot_at rows.now.places) → ⊥) }
{
    if !edit.has_new_key() {
        return false;
    }
    match edit.came() {
        Some(at) => rows.has_twin(at),
        None => false,
    }
}

/// Returns the row that a command inserts, if that is all that it does.
pub fn lone_insert(edits: &[Edit]) -> Option<RowRef>
    ensures { IfSome result (λ at. edits.now ≡ made.Insert at ∷ []) }
{
    match edits {
        [Edit::Insert(at)] => Some(*at),
        _ => None,
    }
}

/// Returns whether a row in use has the key of a hidden row.
pub fn brings_key(rows: &IndexedRows, at: RowRef) -> bool
    requires { IsHidden rows.now.places at }
    ensures { IsTrue result ↔ HasTwin rows.now.key (slot_at rows.now.places) at }
{
    rows.is_kept();
    match rows.hidden_row(at).get(rows.key()) {
        Some(key) => rows.find(key).is_some(),
        None => false,
    }
}

/// Returns whether an edit brought a row whose key may be new, and another row has that key too. Rows that kept their keys are not checked:
/// their keys are unique if they were before.
pub fn bring_twins(rows: &IndexedRows, edits: &[Edit]) -> bool
    requires { All (CameLive (slot_at rows.now.places)) edits.now }
    ensures alone { OnFalse result (All (NewKeyAlone rows.now.key (slot_at rows.now.places)) edits.now) }
    ensures twin { OnTrue result (AreApart rows.now.key (slot_at rows.now.places) → ⊥) }
{
    for edit in edits {
        if brings_twin(rows, *edit) {
            return true;
        }
    }
    false
}
