//! Edits that are added to the rows of a table when rows are looked up.
ghost use Rattle.std.specs.Prelude.{◌≡◌, ◌++◌, ◌<◌, filter, length, map, OnOk};
ghost use Rattle.mm_indexed.specs.Kept.{StoredRows};
ghost use Rattle.mm_partition.specs.Places.{slot_at};
ghost use Rattle.mm_partition.specs.Views.{viewed};
ghost use Rattle.mm_store.specs.Edits.{AreReady, rows_come};
ghost use Rattle.mm_store.specs.Tables.{IsAt};
ghost use Rattle.mm_delta.specs.Candidates.{having};
ghost use Rattle.mm_delta.specs.Overlay.{IsReadOf, overlay_edits};
ghost use Rattle.mm_delta.specs.Steps.{asked, stays};

use crate::edit_index::EditIndex;
use crate::look_up::LookUp;
use crate::rows::{add_coming, leave_standing};
use mm_partition::RowView;
use mm_store::View;
use mm_tables::Edit;
use mm_value::RowRef;
use std::alloc::AllocError;

/// The edits of a table, read together with its rows.
#[derive(Drop)]
pub(crate) enum Overlay<'w, 'c> {
    /// A list of edits, searched linearly.
    Listed(&'c [Edit]),
    /// Hash indexes over the edits.
    Indexed(&'w EditIndex<'c>),
}

impl<'c> Overlay<'_, 'c> {
    /// Removes the references whose rows an edit deletes or replaces.
    pub(crate) fn leave_standing(&self, refs: &mut Vec<RowRef>)
        ensures { refs.new.items ≡ filter (stays (overlay_edits self.now)) refs.old.items }
    {
        match self {
            Overlay::Listed(edits) => leave_standing(edits, refs),
            Overlay::Indexed(index) => index.leave_standing(refs),
        }
    }

    /// Appends the new rows that have the value that a look-up requires, or all of them if there is no look-up, read in place. No row is
    /// counted as read. Fails with `AllocError` if an allocation fails.
    pub(crate) fn add_coming<'a: 'c>(
        &self,
        view: &View<'a>,
        table: usize,
        rows: &mut Vec<RowView<'c>>,
        look_up: &Option<LookUp>,
    ) -> Result<(), AllocError>
        requires there { table < length view.now.store.tables }
        requires ready { (stored : StoredRows) → IsAt view.now.store table stored → AreReady stored (overlay_edits self.now) }
        requires read { (stored : StoredRows) → IsAt view.now.store table stored → IsReadOf (slot_at stored.places) self.now }
        ensures { OnOk result ((stored : StoredRows) → IsAt view.now.store table stored → map viewed rows.new.items
            ≡ map viewed rows.old.items ++ having (asked look_up.now) (rows_come (slot_at stored.places) (overlay_edits self.now))) }
    {
        match self {
            Overlay::Listed(edits) => add_coming(view, table, rows, edits, look_up),
            Overlay::Indexed(index) => index.add_coming(rows, look_up),
        }
    }
}
