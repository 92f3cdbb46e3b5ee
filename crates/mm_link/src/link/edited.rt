//! Updating ties after edits of the referring table.
ghost use Rattle.std.specs.Prelude.{◌≡◌, ◌<◌, length, None};
ghost use Rattle.mm_foreign_key.specs.Ties.{target_at};
ghost use Rattle.mm_partition.specs.Places.{IsHidden, IsLive, Live, slot_at};
ghost use Rattle.mm_row_order.specs.Refs.{Slots, row_at};
ghost use Rattle.mm_schema.specs.Rows.{same_in_column};
ghost use Rattle.mm_link.specs.Links.{Follows, HasRoom, HaveTargets, IsTied, SameSize};
ghost use Rattle.mm_link.specs.Edited.{IsMade, IsPending, IsTakenBack, Switches, TiesNamed, TiesSlot};

use super::Link;
use mm_indexed::IndexedRows;
use mm_tables::Edit;
use mm_value::{AsRow, RowRef, compare};

impl Link {
    /// Updates the ties after the edits of a command, all of which were made in the referring table. A row in use that got another row's
    /// values keeps its tie without a search if its value in the column is the same. Any other new row takes one search.
    pub fn retie(&mut self, from: &IndexedRows, to: &IndexedRows, edits: &[Edit])
        requires column { self.old.reference.column < length from.now.places.types }
        requires made { IsMade self.old.reference.column to.now.key from.now.key (slot_at from.now.places) (slot_at to.now.places)
            edits.now self.old.ties }
        requires room { HasRoom from.now.places to.now.places self.old.ties }
        ensures reference { self.new.reference ≡ self.old.reference }
        ensures follows { Follows self.old.reference.column to.now.key (slot_at from.now.places) (slot_at to.now.places) self.new.ties }
        ensures size { SameSize self.old.ties self.new.ties }
    {
        for edit in edits {
            self.retie_turned(from, to, *edit);
        }
    }

    /// Updates the ties after the undo of one edit of the referring table. Makes at most one search.
    pub fn retie_undone(&mut self, from: &IndexedRows, to: &IndexedRows, edit: Edit)
        requires column { self.old.reference.column < length from.now.places.types }
        requires undone { IsTakenBack self.old.reference.column to.now.key from.now.key (slot_at from.now.places) (slot_at to.now.places)
            edit self.old.ties }
        requires room { HasRoom from.now.places to.now.places self.old.ties }
        ensures reference { self.new.reference ≡ self.old.reference }
        ensures follows { Follows self.old.reference.column to.now.key (slot_at from.now.places) (slot_at to.now.places) self.new.ties }
        ensures size { SameSize self.old.ties self.new.ties }
    {
        self.retie_turned(from, to, edit);
    }

    /// Updates the ties after an edit that was made or undone.
    fn retie_turned(&mut self, from: &IndexedRows, to: &IndexedRows, edit: Edit)
        requires column { self.old.reference.column < length from.now.places.types }
        requires pending { IsPending self.old.reference.column to.now.key (slot_at from.now.places) (slot_at to.now.places)
            self.old.ties edit }
        requires targets { HaveTargets self.old.reference.column to.now.key (slot_at from.now.places) (slot_at to.now.places) }
        requires room { HasRoom from.now.places to.now.places self.old.ties }
        ensures reference { self.new.reference ≡ self.old.reference }
        ensures tied { TiesNamed self.old.reference.column to.now.key (slot_at from.now.places) (slot_at to.now.places) edit
            self.old.ties self.new.ties }
        ensures size { SameSize self.old.ties self.new.ties }
    {
        match edit {
            Edit::Stage(_) => {}
            Edit::Insert(at) => self.retie_switched(from, to, at),
            Edit::Update(at, other) => self.retie_exchanged(from, to, at, other),
            Edit::Move(at, other) => self.retie_exchanged(from, to, at, other),
            Edit::Delete(at) => self.retie_switched(from, to, at),
        }
    }

    /// Updates the tie of a slot that got a row in use or lost it. The tie shows which: a slot that had no row is tied to none.
    fn retie_switched(&mut self, from: &IndexedRows, to: &IndexedRows, at: RowRef)
        requires column { self.old.reference.column < length from.now.places.types }
        requires switches { (was : Slots) × Switches was (slot_at from.now.places) at
            × IsTied self.old.reference.column to.now.key (slot_at to.now.places) (was at) (target_at self.old.ties at) }
        requires targets { HaveTargets self.old.reference.column to.now.key (slot_at from.now.places) (slot_at to.now.places) }
        requires room { HasRoom from.now.places to.now.places self.old.ties }
        ensures reference { self.new.reference ≡ self.old.reference }
        ensures tied { TiesSlot self.old.reference.column to.now.key (slot_at from.now.places) (slot_at to.now.places) at
            self.old.ties self.new.ties }
        ensures size { SameSize self.old.ties self.new.ties }
    {
        match self.ties.target(at) {
            Some(_) => self.ties.untie(at),
            None => self.tie(from, to, at),
        }
    }

    /// Updates the tie of a row in use that was exchanged with a hidden row. The tie stays if both have the same value in the column.
    fn retie_exchanged(&mut self, from: &IndexedRows, to: &IndexedRows, at: RowRef, other: RowRef)
        requires column { self.old.reference.column < length from.now.places.types }
        requires live { IsLive from.now.places at }
        requires hidden { IsHidden from.now.places other }
        requires tied { IsTied self.old.reference.column to.now.key (slot_at to.now.places) (Live (row_at (slot_at from.now.places) other))
            (target_at self.old.ties at) }
        requires targets { HaveTargets self.old.reference.column to.now.key (slot_at from.now.places) (slot_at to.now.places) }
        requires room { HasRoom from.now.places to.now.places self.old.ties }
        ensures reference { self.new.reference ≡ self.old.reference }
        ensures tied { TiesSlot self.old.reference.column to.now.key (slot_at from.now.places) (slot_at to.now.places) at
            self.old.ties self.new.ties }
        ensures size { SameSize self.old.ties self.new.ties }
    {
        if has_same_value(
            &from.row(at),
            &from.hidden_row(other),
            self.reference.column,
        ) {
            return;
        }
        self.ties.untie(at);
        self.tie(from, to, at);
    }

    /// Ties the slot of a row in use, which is tied to none, to the row that its row refers to. Makes one search.
    fn tie(&mut self, from: &IndexedRows, to: &IndexedRows, at: RowRef)
        requires column { self.old.reference.column < length from.now.places.types }
        requires live { IsLive from.now.places at }
        requires targets { HaveTargets self.old.reference.column to.now.key (slot_at from.now.places) (slot_at to.now.places) }
        requires room { HasRoom from.now.places to.now.places self.old.ties }
        requires untied { target_at self.old.ties at ≡ None }
        ensures reference { self.new.reference ≡ self.old.reference }
        ensures tied { TiesSlot self.old.reference.column to.now.key (slot_at from.now.places) (slot_at to.now.places) at
            self.old.ties self.new.ties }
        ensures size { SameSize self.old.ties self.new.ties }
    {
        from.is_kept();
        to.is_kept();
        let value = from.row(at).value(self.reference.column);
        let Some(target) = to.find(value) else {
            unreachable!()
        };
        self.ties.tie(at, target);
    }
}

/// Returns whether two rows have the same value in a column.
pub(crate) fn has_same_value<A: AsRow, B: AsRow>(a: &A, b: &B, column: usize) -> bool
    ensures { result ≡ same_in_column column (A.AsRow.row a.now) (B.AsRow.row b.now) }
{
    match (a.get(column), b.get(column)) {
        (None, None) => true,
        (Some(a), Some(b)) => compare(&a, &b).is_eq(),
        (None, Some(_)) | (Some(_), None) => false,
    }
}
