//! Hash indexes over the edits of a table.
ghost use Rattle.std.specs.Prelude.{◌≡◌, ◌++◌, ◌<◌, ◌||◌, eqb, filter, length, map, All, IfOk, IfSome, OnOk};
ghost use Rattle.std.specs.List.{list_any};
ghost use Rattle.mm_partition.specs.Views.{viewed};
ghost use Rattle.mm_indexed.specs.Kept.{StoredRows};
ghost use Rattle.mm_partition.specs.Places.{slot_at};
ghost use Rattle.mm_store.specs.Edits.{AreReady, rows_come};
ghost use Rattle.mm_store.specs.Tables.{IsAt};
ghost use Rattle.mm_value.specs.declared.row_ref.RowRef.{RowRef as Reference};
ghost use Rattle.mm_delta.specs.Candidates.{having};
ghost use Rattle.mm_delta.specs.EditIndex.{AreGone, AreUnder, HasNonePast};
ghost use Rattle.mm_delta.specs.Steps.{asked, stays, takes};

use crate::coming_index::ComingIndex;
use crate::edited::row_gone;
use crate::look_up::LookUp;
use crate::rows::{add_coming, add_fitting};
use indexmap::IndexSet;
use mm_partition::RowView;
use mm_store::View;
use mm_tables::Edit;
use mm_value::RowRef;
use std::alloc::{AllocError, Global};
use std::marker::Model;

/// The edits of a table with hash indexes: one over the references of the deleted rows, and some over the new rows.
#[derive(Drop)]
pub(crate) struct EditIndex<'c> {
    edits: &'c [Edit],
    gone: IndexSet<u32>,
    /// The new rows, in the order of their edits.
    come: Vec<RowView<'c>>,
    coming: Vec<ComingIndex<'c>>,
}

impl<'c> Model for EditIndex<'c> {
    ghost use Rattle.std.specs.Prelude.{All, map};
    ghost use Rattle.mm_partition.specs.Views.{viewed};
    ghost use Rattle.mm_delta.specs.EditIndex.{AreGone, AreUnder, HasNonePast, ReadEdits};

    ghost Value = { ReadEdits };

    ghost view = { λ e. record { edits = e.edits.now; come = map viewed e.come.items } };

    ghost invariant = { λ e. AreGone e.edits.now e.gone.keys × All (λ index. AreUnder index.column (map viewed e.come.items) index.rows.entries) e.coming.items
        × All (λ index. HasNonePast index.rows.entries) e.coming.items };
}

impl<'c> EditIndex<'c> {
    /// Returns the edits of a table, whose new rows are staged, with a hash index on each of these columns over the new rows. No row is
    /// counted as read. Fails with `AllocError` if an allocation fails.
    pub(crate) fn new<'a: 'c>(
        alloc: Global,
        view: &View<'a>,
        table: usize,
        edits: &'c [Edit],
        columns: &[usize],
    ) -> Result<EditIndex<'c>, AllocError>
        requires there { table < length view.now.store.tables }
        requires ready { (stored : StoredRows) → IsAt view.now.store table stored → AreReady stored edits.now }
        ensures edits { IfOk result (λ index. index.edits ≡ edits.now) }
        ensures come { IfOk result (λ index. (stored : StoredRows) → IsAt view.now.store table stored
            → index.come ≡ rows_come (slot_at stored.places) edits.now) }
    {
        let gone = references_of_gone(alloc, edits)?;
        let mut come = Vec::new(alloc);
        add_coming(view, table, &mut come, edits, &None)?;
        let coming = coming_by(alloc, &come, columns)?;
        Ok(EditIndex {
            edits,
            gone,
            come,
            coming,
        })
    }

    /// Returns whether no edit deletes or replaces the row of a reference.
    fn stays(&self, at: RowRef) -> bool
        ensures { result ≡ stays self.now.edits at }
    {
        !self.gone.contains(&at.slot)
    }

    /// Removes the references whose rows an edit deletes or replaces.
    pub(crate) fn leave_standing(&self, refs: &mut Vec<RowRef>)
        ensures { refs.new.items ≡ filter (stays self.now.edits) refs.old.items }
    {
        refs.retain(|at| self.stays(*at));
    }

    /// Returns the index on a column over the new rows, if there is one.
    fn coming_on(&self, column: usize) -> Option<&ComingIndex<'c>>
        ensures column { IfSome result (λ index. index.now.column ≡ column) }
        ensures rows { IfSome result (λ index. AreUnder column self.now.come index.now.rows.entries) }
        ensures past { IfSome result (λ index. HasNonePast index.now.rows.entries) }
    {
        for index in &self.coming {
            if index.column == column {
                return Some(index);
            }
        }
        None
    }

    /// Appends the new rows that have the value that a look-up requires, or all of them if there is no look-up, in the order of the edits.
    /// They are not searched linearly if the column of the look-up has an index. Fails with `AllocError` if an allocation fails.
    pub(crate) fn add_coming(
        &self,
        rows: &mut Vec<RowView<'c>>,
        look_up: &Option<LookUp>,
    ) -> Result<(), AllocError>
        ensures { OnOk result (map viewed rows.new.items ≡ map viewed rows.old.items ++ having (asked look_up.now) self.now.come) }
    {
        if let Some(look_up) = look_up {
            if let Some(index) = self.coming_on(look_up.column) {
                return index.add_wanted(&look_up.wanted, rows);
            }
        }
        add_fitting(rows, &self.come, look_up)
    }
}

/// Returns the slots of the references of the rows that edits delete or replace, in a hash table. Fails with `AllocError` if an allocation
/// fails.
pub fn references_of_gone(alloc: Global, edits: &[Edit]) -> Result<IndexSet<u32>, AllocError>
    ensures { IfOk result (λ gone. AreGone edits.now gone.keys) }
{
    let mut gone = IndexSet::new(alloc);
    for edit in edits {
        add_gone(&mut gone, edit)?;
    }
    Ok(gone)
}

/// Inserts the slot of the row that an edit deletes or replaces, if there is one. Fails with `AllocError` if an allocation fails.
fn add_gone(gone: &mut IndexSet<u32>, edit: &Edit) -> Result<(), AllocError>
    ensures { OnOk result ((at : Reference) → list_any (eqb at.slot) gone.new.keys ≡ list_any (eqb at.slot) gone.old.keys || takes at edit.now) }
{
    if let Some(at) = row_gone(edit) {
        gone.insert(at.slot)?;
    }
    Ok(())
}

/// Returns a hash index on each of these columns over the new rows of edits. Fails with `AllocError` if an allocation fails.
fn coming_by<'c>(
    alloc: Global,
    come: &[RowView<'c>],
    columns: &[usize],
) -> Result<Vec<ComingIndex<'c>>, AllocError>
    ensures ok { IfOk result (λ indexes. All (λ index. AreUnder index.column (map viewed come.now) index.rows.entries) indexes.items) }
    ensures past { IfOk result (λ indexes. All (λ index. HasNonePast index.rows.entries) indexes.items) }
{
    let mut indexes = Vec::new(alloc);
    for column in columns {
        indexes.push(ComingIndex::new(alloc, come, *column)?)?;
    }
    Ok(indexes)
}
