//! The edits that a query reads: not those of rows that change only in other columns.
ghost use Rattle.std.specs.Prelude.{◌≡◌, ◌+◌, ◌++◌, ◌∷◌, ◌<◌, ◌≤◌, [], filter_map, length, map, All, IfOk, OnOk};
ghost use Rattle.std.specs.List.{cons_option, list_all};
ghost use Rattle.mm_partition.specs.Views.{viewed};
ghost use Rattle.mm_partition.specs.Places.{slot_at};
ghost use Rattle.mm_indexed.specs.Kept.{StoredRows};
ghost use Rattle.mm_store.specs.Edits.{AreReady};
ghost use Rattle.mm_store.specs.Tables.{IsAt};
ghost use Rattle.mm_tables.specs.Edits.{Fits};
ghost use Rattle.mm_delta.specs.Edited.{old_slots};
ghost use Rattle.mm_delta.specs.Unseen.{agree_for, agree_in, come_seen, gone_seen, looks_alike};

use crate::known::value_in;
use mm_partition::RowView;
use mm_query::{Atom, BoundQuery, FieldPlace};
use mm_store::View;
use mm_tables::Edit;
use mm_value::compare;
use std::alloc::{AllocError, Global};

/// The rows by which edits of a table change the result of a query at a place of FROM.
#[derive(Drop)]
pub(crate) struct SeenRows<'c> {
    /// The deleted and replaced rows.
    pub(crate) gone: Vec<RowView<'c>>,
    /// The new rows.
    pub(crate) come: Vec<RowView<'c>>,
}

/// A query, and one of its places of FROM.
#[derive(Clone, Copy)]
pub(crate) struct Sight<'c> {
    pub(crate) query: &'c BoundQuery,
    pub(crate) place: usize,
}

impl<'c> Sight<'c> {
    /// Returns whether two rows have the same value in the column of a field, if it is a field of the place.
    fn agree_in(&self, a: RowView<'_>, b: RowView<'_>, field: FieldPlace) -> bool
        ensures { result ≡ agree_in self.now.place (viewed a.entry) (viewed b.entry) field }
    {
        field.place != self.place
            || compare(&value_in(a, field.column), &value_in(b, field.column)).is_eq()
    }

    /// Returns whether two rows have the same values in the columns of the place that an atom compares.
    fn agree_for(&self, a: RowView<'_>, b: RowView<'_>, atom: &Atom<FieldPlace>) -> bool
        ensures { result ≡ agree_for self.now.place (viewed a.entry) (viewed b.entry) atom.now }
    {
        let agree_right = match atom.right.column() {
            Some(field) => self.agree_in(a, b, *field),
            None => true,
        };
        self.agree_in(a, b, atom.left) && agree_right
    }

    /// Returns whether two rows have the same values in the columns of the place that atoms compare.
    fn agree_for_all(&self, a: RowView<'_>, b: RowView<'_>, atoms: &[Atom<FieldPlace>]) -> bool
        ensures { result ≡ list_all (agree_for self.now.place (viewed a.entry) (viewed b.entry)) atoms.now }
    {
        atoms.iter().all(|atom| self.agree_for(a, b, atom))
    }

    /// Returns whether two rows have the same values in the columns of fields, if these are fields of the place.
    fn agree_in_all(&self, a: RowView<'_>, b: RowView<'_>, fields: &[FieldPlace]) -> bool
        ensures { result ≡ list_all (agree_in self.now.place (viewed a.entry) (viewed b.entry)) fields.now }
    {
        fields.iter().all(|field| self.agree_in(a, b, *field))
    }

    /// Returns whether two rows at the place are equal for the query: whether they have the same values in all columns that it reads there.
    fn looks_alike(&self, a: RowView<'_>, b: RowView<'_>) -> bool
        ensures { result ≡ looks_alike self.now.query.now self.now.place (viewed a.entry) (viewed b.entry) }
    {
        self.agree_for_all(a, b, self.query.atoms.as_slice())
            && self.agree_in_all(a, b, self.query.fields.as_slice())
    }

    /// Appends the old and the new row of an edit of a table, unless they are equal for the query. An old row is read once. Fails with
    /// `AllocError` if an allocation fails.
    fn add_seen<'a: 'c>(
        &self,
        view: &mut View<'a>,
        table: usize,
        edit: &Edit,
        seen: &mut SeenRows<'c>,
    ) -> Result<(), AllocError>
        requires there { table < length view.old.store.tables }
        requires ready { (stored : StoredRows) → IsAt view.old.store table stored → Fits stored.key (slot_at stored.places) edit.now }
        ensures gone { OnOk result ((stored : StoredRows) → IsAt view.old.store table stored → map viewed seen.new.gone.items
            ≡ map viewed seen.old.gone.items ++ cons_option (gone_seen self.now.query.now self.now.place (slot_at stored.places) edit.entry.now) []) }
        ensures come { OnOk result ((stored : StoredRows) → IsAt view.old.store table stored → map viewed seen.new.come.items
            ≡ map viewed seen.old.come.items ++ cons_option (come_seen self.now.query.now self.now.place (slot_at stored.places) edit.entry.now) []) }
        ensures reads { view.new.reads ≤ view.old.reads + length (old_slots (edit.entry.now ∷ [])) }
        ensures same { view.new.store ≡ view.old.store }
    {
        match *edit {
            Edit::Stage(_) => {}
            Edit::Insert(at) => seen.come.push(view.staged_row(table, at))?,
            Edit::Delete(at) => seen.gone.push(view.row(table, at))?,
            Edit::Update(at, other) | Edit::Move(at, other) => {
                let old = view.row(table, at);
                let new = view.staged_row(table, other);
                if !self.looks_alike(old, new) {
                    seen.gone.push(old)?;
                    seen.come.push(new)?;
                }
            }
        }
        Ok(())
    }

    /// Returns the old and the new rows of edits of a table, except for rows that change only in columns that the query does not read. Each
    /// old row is read once. Fails with `AllocError` if an allocation fails.
    pub(crate) fn seen_rows<'a: 'c>(
        &self,
        alloc: Global,
        view: &mut View<'a>,
        table: usize,
        edits: &[Edit],
    ) -> Result<SeenRows<'c>, AllocError>
        requires there { table < length view.old.store.tables }
        requires fit { (stored : StoredRows) → IsAt view.old.store table stored → AreReady stored edits.now }
        ensures gone { IfOk result (λ seen. (stored : StoredRows) → IsAt view.old.store table stored
            → map viewed seen.gone.items ≡ filter_map (gone_seen self.now.query.now self.now.place (slot_at stored.places)) edits.now) }
        ensures come { IfOk result (λ seen. (stored : StoredRows) → IsAt view.old.store table stored
            → map viewed seen.come.items ≡ filter_map (come_seen self.now.query.now self.now.place (slot_at stored.places)) edits.now) }
        ensures reads { view.new.reads ≤ view.old.reads + length (old_slots edits.now) }
        ensures same { view.new.store ≡ view.old.store }
    {
        let mut seen = SeenRows {
            gone: Vec::new(alloc),
            come: Vec::new(alloc),
        };
        for edit in edits {
            self.add_seen(view, table, edit, &mut seen)?;
        }
        Ok(seen)
    }
}
