//! The checks of a foreign key, before a command's edits are made.
ghost use Rattle.std.specs.Prelude.{◌≡◌, ◌↔◌, All, IsTrue};
ghost use Rattle.std.specs.Bool.{OnFalse};
ghost use Rattle.std.specs.List.{list_any};
ghost use Rattle.mm_partition.specs.Places.{IsHidden, IsLive, IsTaken, slot_at};
ghost use Rattle.mm_partition.specs.Views.{viewed};
ghost use Rattle.mm_row_order.specs.Refs.{row_at};
ghost use Rattle.mm_indexed.specs.RowLists.{rows_of};
ghost use Rattle.mm_indexed.specs.Twins.{AreApart};
ghost use Rattle.mm_schema.specs.References.{is_referred as is_named, lacks_target_row, loses_target};
ghost use Rattle.mm_tables.specs.Edits.{Fits};
ghost use Rattle.mm_link.specs.Edited.{coming};
ghost use Rattle.mm_link.specs.Links.{Follows, HasTargetRow, IsReferredTo, RefersTo};
ghost use Rattle.mm_link.specs.Targets.{SparesReferred, pair_of};

use super::Link;
use super::edited::has_same_value;
use mm_indexed::IndexedRows;
use mm_partition::RowView;
use mm_tables::Edit;
use mm_value::RowRef;

impl Link {
    /// Returns the row that a row in use refers to, without a search.
    pub fn follow(&self, from: &IndexedRows, to: &IndexedRows, at: RowRef) -> RowRef
        requires follows { Follows self.now.reference.column to.now.key (slot_at from.now.places) (slot_at to.now.places) self.now.ties }
        requires live { IsLive from.now.places at }
        ensures { RefersTo self.now.reference.column to.now.key (slot_at to.now.places) (row_at (slot_at from.now.places) at) result }
    {
        let (_from, _to) = (from, to);
        let Some(target) = self.ties.target(at) else {
            unreachable!()
        };
        target
    }

    /// Returns whether the row of a slot of the referring table, in use or hidden, has a value that is the key of no row in use of the
    /// target table. Makes one search.
    pub fn lacks_target(&self, from: &IndexedRows, to: &IndexedRows, at: RowRef) -> bool
        requires { IsTaken (slot_at from.now.places at) }
        ensures rows { result ≡ lacks_target_row self.now.reference.column to.now.key (rows_of to.now) (row_at (slot_at from.now.places) at) }
        ensures found { OnFalse result
            (HasTargetRow self.now.reference.column to.now.key (slot_at to.now.places) (row_at (slot_at from.now.places) at)) }
    {
        to.is_kept();
        match row_in(from, at).get(self.reference.column) {
            Some(value) => to.find(value).is_none(),
            None => true,
        }
    }

    /// Returns whether an edit of the referring table, before it is made, brings a row without a target. A row with the same value as the
    /// row that it replaces needs no search.
    pub fn brings_orphan(&self, from: &IndexedRows, to: &IndexedRows, edit: Edit) -> bool
        requires follows { Follows self.now.reference.column to.now.key (slot_at from.now.places) (slot_at to.now.places) self.now.ties }
        requires fits { Fits from.now.key (slot_at from.now.places) edit }
        ensures rows { result ≡ list_any (lacks_target_row self.now.reference.column to.now.key (rows_of to.now))
            (coming (slot_at from.now.places) edit) }
        ensures found { OnFalse result (All (HasTargetRow self.now.reference.column to.now.key (slot_at to.now.places))
            (coming (slot_at from.now.places) edit)) }
    {
        match edit {
            Edit::Insert(at) => self.lacks_target(from, to, at),
            Edit::Update(at, other) => self.replaces_by_orphan(from, to, at, other),
            Edit::Move(at, other) => self.replaces_by_orphan(from, to, at, other),
            Edit::Stage(_) | Edit::Delete(_) => false,
        }
    }

    /// Returns whether a hidden row of the referring table, which replaces a row in use, has no target.
    fn replaces_by_orphan(
        &self,
        from: &IndexedRows,
        to: &IndexedRows,
        at: RowRef,
        other: RowRef,
    ) -> bool
        requires follows { Follows self.now.reference.column to.now.key (slot_at from.now.places) (slot_at to.now.places) self.now.ties }
        requires live { IsLive from.now.places at }
        requires hidden { IsHidden from.now.places other }
        ensures rows { result ≡ lacks_target_row self.now.reference.column to.now.key (rows_of to.now) (row_at (slot_at from.now.places) other) }
        ensures found { OnFalse result
            (HasTargetRow self.now.reference.column to.now.key (slot_at to.now.places) (row_at (slot_at from.now.places) other)) }
    {
        to.is_kept();
        !has_same_value(
            &from.row(at),
            &from.hidden_row(other),
            self.reference.column,
        ) && self.lacks_target(from, to, other)
    }

    /// Returns whether a row in use of the referring table refers to a row in use of the target table. O(1).
    pub fn is_referred(&self, from: &IndexedRows, to: &IndexedRows, at: RowRef) -> bool
        requires follows { Follows self.now.reference.column to.now.key (slot_at from.now.places) (slot_at to.now.places) self.now.ties }
        requires live { IsLive to.now.places at }
        requires apart { AreApart to.now.key (slot_at to.now.places) }
        ensures rows { result ≡ is_named self.now.reference.column to.now.key (rows_of from.now) (row_at (slot_at to.now.places) at) }
        ensures referred { IsTrue result
            ↔ IsReferredTo self.now.reference.column to.now.key (slot_at from.now.places) (slot_at to.now.places) at }
    {
        from.is_kept();
        to.is_kept();
        self.ties.is_referred(at)
    }

    /// Returns whether an edit of the target table, before it is made, removes a row to which a row refers, or changes its key. O(1).
    pub fn leaves_orphan(&self, from: &IndexedRows, to: &IndexedRows, edit: Edit) -> bool
        requires follows { Follows self.now.reference.column to.now.key (slot_at from.now.places) (slot_at to.now.places) self.now.ties }
        requires fits { Fits to.now.key (slot_at to.now.places) edit }
        requires apart { AreApart to.now.key (slot_at to.now.places) }
        ensures rows { result ≡ loses_target self.now.reference.column to.now.key (rows_of from.now)
            (pair_of (slot_at to.now.places) edit).0 (pair_of (slot_at to.now.places) edit).1 }
        ensures spares { OnFalse result
            (SparesReferred self.now.reference.column to.now.key (slot_at from.now.places) (slot_at to.now.places) edit) }
    {
        match edit {
            Edit::Stage(_) | Edit::Insert(_) | Edit::Update(..) => false,
            Edit::Move(at, other) => !to.keeps_key(at, other) && self.is_referred(from, to, at),
            Edit::Delete(at) => self.is_referred(from, to, at),
        }
    }
}

/// Returns the row of a slot, in use or hidden.
fn row_in(rows: &IndexedRows, at: RowRef) -> RowView<'_>
    requires { IsTaken (slot_at rows.now.places at) }
    ensures { viewed result ≡ row_at (slot_at rows.now.places) at }
{
    if rows.is_hidden(at) {
        rows.hidden_row(at)
    } else {
        rows.row(at)
    }
}
