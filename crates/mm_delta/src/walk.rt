//! The combinations that have an edited row at one place of FROM.
ghost use Rattle.std.specs.Prelude.{◌≡◌, ◌↔◌, ◌⊎◌, ℕ, ◌+◌, ◌<◌, ◌≤◌, Bool, false, [], ◌∷◌, List, length, map, get_or, IfOk, IfSome, IsTrue, OnOk};
ghost use Rattle.mm_indexed.specs.Kept.{StoredRows};
ghost use Rattle.mm_partition.specs.Places.{slot_at};
ghost use Rattle.mm_partition.specs.Views.{viewed};
ghost use Rattle.mm_store.specs.Tables.{IsAt, Tables};
ghost use Rattle.mm_value.specs.declared.values.Value.{Value as AnyValue};
ghost use Rattle.mm_query.specs.Queries.{bag_of, none_fails as none_fails_lem};
ghost use Rattle.mm_delta.specs.Overlay.{IsReadOf, overlay_edits};
ghost use Rattle.mm_delta.specs.Candidates.{having, required};
ghost use Rattle.mm_multiset.specs.Counts.{count_in, count_of};
ghost use Rattle.mm_delta.specs.Changes.{AreOf};
ghost use Rattle.mm_delta.specs.Edited.{after_at, before_at, has_index, walked};
ghost use Rattle.mm_delta.specs.Skipping.{IsOfCyclicRows, IsRowOf, IsTypeTested};
ghost use Rattle.mm_delta.specs.Steps.{AreAlike, HasTables, IsServed, asked, edits_walked, reads_for, row_reads};
ghost use Rattle.mm_delta.specs.Terms.{lists_around};
ghost use Rattle.mm_delta.specs.Walk.{AreOpen, found, other_places as other_places_lem};
ghost use Rattle.mm_relevance.specs.Relevance.{IsCyclic};

use crate::chosen::Chosen;
use crate::counting::count_row;
use crate::indexed_changes::IndexedChanges;
use crate::look_up::{LookUp, Site};
use crate::overlay::Overlay;
use crate::rows::{read_all, references};
use crate::skipped::is_skipped;
use arrayvec::ArrayVec;
use mm_multiset::Tally;
use mm_partition::RowView;
use mm_query::{BoundQuery, MAX_FROM, none_fails, values_of};
use mm_store::View;
use std::alloc::{AllocError, Global};

/// A query, a change, and the place of FROM that has an edited row.
#[derive(Drop)]
pub(crate) struct Walk<'w, 'c> {
    /// The query.
    pub(crate) query: &'c BoundQuery,
    /// The store's place of each table of FROM.
    pub(crate) tables: &'c [usize],
    /// The edits of the changed tables.
    pub(crate) changes: &'w IndexedChanges<'c>,
    /// The place of FROM that has an edited row.
    pub(crate) place: usize,
}

impl<'w, 'c> Walk<'w, 'c> {
    /// Returns the edits that apply at a place of FROM: those of its table at places before that of the edited row, and none after it.
    fn edits_at(&self, place: usize, table: usize) -> Overlay<'w, 'c>
        ensures edits { overlay_edits result ≡ edits_walked self.now.changes.now.edits self.now.place place table }
        ensures read { (store : Tables) (stored : StoredRows) → AreOf store self.now.changes.now → IsAt store table stored
            → IsReadOf (slot_at stored.places) result }
    {
        if place < self.place {
            self.changes.overlay(table)
        } else {
            Overlay::Listed(&[])
        }
    }

    /// Returns the look-up of the rows at a place, if an index serves. Fails with `AllocError` if an allocation fails.
    fn look_up_at(
        &self,
        alloc: Global,
        view: &View<'_>,
        chosen: &Chosen<'c>,
        place: usize,
    ) -> Result<Option<LookUp>, AllocError>
        requires { (place < length self.now.tables.now) × (get_or self.now.tables.now place 0 < length view.now.store.tables) }
        ensures ok { IfOk result (λ found. asked found
            ≡ required (has_index view.now.store (get_or self.now.tables.now place 0)) self.now.query.now.atoms chosen.now place) }
        ensures served { IfOk result (λ found. IfSome found (IsServed view.now.store (get_or self.now.tables.now place 0))) }
    {
        let site = Site {
            view,
            table: self.tables[place],
            place,
            rows: chosen.as_slice(),
        };
        site.look_up(alloc, self.query.atoms.as_slice())
    }

    /// Returns the rows at a place that have the required value: those after the change at places before that of the edited row, and those
    /// before the change at places after it. Only rows before the change are read. Fails with `AllocError` if an allocation fails.
    fn rows_at<'a: 'c>(
        &self,
        alloc: Global,
        view: &mut View<'a>,
        chosen: &Chosen<'c>,
        place: usize,
    ) -> Result<Vec<RowView<'c>>, AllocError>
        requires there { (place < length self.now.tables.now) × (get_or self.now.tables.now place 0 < length view.old.store.tables) }
        requires fit { AreOf view.old.store self.now.changes.now }
        ensures rows { IfOk result (λ rows. AreAlike (map viewed rows.items)
            (having (required (has_index view.old.store (get_or self.now.tables.now place 0)) self.now.query.now.atoms chosen.now place)
            (walked view.old.store self.now.changes.now.edits self.now.tables.now self.now.place place))) }
        ensures reads { view.new.reads ≤ view.old.reads
            + length (having (required (has_index view.old.store (get_or self.now.tables.now place 0)) self.now.query.now.atoms chosen.now place)
            (before_at view.old.store (get_or self.now.tables.now place 0))) }
        ensures same { view.new.store ≡ view.old.store }
    {
        let table = self.tables[place];
        let look_up = self.look_up_at(alloc, view, chosen, place)?;
        let mut refs = references(alloc, view, table, &look_up)?;
        let edits = self.edits_at(place, table);
        edits.leave_standing(&mut refs);
        let mut rows = read_all(alloc, view, table, &refs)?;
        edits.add_coming(view, table, &mut rows, &look_up)?;
        Ok(rows)
    }

    /// Counts the projected row of each matching combination that completes the chosen rows by rows at the other places. Fails with
    /// `AllocError` if an allocation fails.
    pub(crate) fn extend<'a: 'c>(
        &self,
        alloc: Global,
        view: &mut View<'a>,
        chosen: &Chosen<'c>,
        others: &[usize],
        out: &mut Tally,
    ) -> Result<(), AllocError>
        requires vacant { AreOpen others.now chosen.now }
        requires there { HasTables self.now.tables.now view.old.store others.now }
        requires fit { AreOf view.old.store self.now.changes.now }
        ensures counted { OnOk result ((row : List AnyValue) → count_in row out.new.entries ≡ count_in row out.old.entries
            + count_of row (found self.now.query.now (walked view.old.store self.now.changes.now.edits self.now.tables.now self.now.place) others.now
            chosen.now)) }
        ensures reads { view.new.reads ≤ view.old.reads
            + reads_for self.now.query.now view.old.store self.now.changes.now.edits self.now.tables.now self.now.place others.now chosen.now }
        ensures same { view.new.store ≡ view.old.store }
    {
        if !none_fails(self.query.atoms.as_slice(), chosen.as_slice()) {
            return Ok(());
        }
        match others.split_first() {
            None => count_row(
                out,
                values_of(alloc, self.query.fields.as_slice(), chosen.as_slice())?,
            ),
            Some((place, rest)) => {
                let rows = self.rows_at(alloc, view, chosen, *place)?;
                for row in &rows {
                    let next = chosen.with(*place, *row);
                    self.extend(alloc, view, &next, rest, out)?;
                }
                Ok(())
            }
        }
    }

    /// Returns whether the edited row, which is the only chosen row, is left out because no combination with it matches: an atom is already
    /// false of it, or it has a cycle. No row is read. Fails with `AllocError` if an allocation fails.
    fn is_left_out(
        &self,
        alloc: Global,
        chosen: &Chosen<'c>,
        row: RowView<'_>,
    ) -> Result<bool, AllocError>
        ensures { IfOk result (λ left_out. IsTrue left_out
            ↔ ((none_fails_lem self.now.query.now.atoms chosen.now ≡ false) ⊎ IsCyclic self.now.query.now self.now.place (viewed row.entry))) }
    {
        if !none_fails(self.query.atoms.as_slice(), chosen.as_slice()) {
            return Ok(true);
        }
        is_skipped(alloc, self.query, self.place, row)
    }

    /// Counts the projected row of each matching combination that has this row at the place of the edited row. Nothing is read if the row
    /// has a cycle or an atom is already false of it. Fails with `AllocError` if an allocation fails.
    pub(crate) fn from_row<'a: 'c>(
        &self,
        alloc: Global,
        view: &mut View<'a>,
        row: RowView<'c>,
        out: &mut Tally,
    ) -> Result<(), AllocError>
        requires place { self.now.place < length self.now.tables.now }
        requires few { length self.now.tables.now ≤ 4 }
        requires there { HasTables self.now.tables.now view.old.store (other_places_lem (length self.now.tables.now) self.now.place) }
        requires fit { AreOf view.old.store self.now.changes.now }
        requires typed { IsTypeTested self.now.query.now view.old.store self.now.changes.now.edits self.now.tables.now }
        requires edited { IsRowOf view.old.store self.now.changes.now.edits (get_or self.now.tables.now self.now.place 0) (viewed row) }
        ensures counted { OnOk result ((other : List AnyValue) → count_in other out.new.entries ≡ count_in other out.old.entries
            + count_of other (bag_of self.now.query.now
            (lists_around 0 (after_at view.old.store self.now.changes.now.edits) (λ _. viewed row.entry ∷ [])
            (before_at view.old.store) self.now.tables.now self.now.place))) }
        ensures reads { (skipped : ℕ → List AnyValue → Bool) → IsOfCyclicRows self.now.query.now skipped → view.new.reads ≤ view.old.reads
            + row_reads self.now.query.now view.old.store self.now.changes.now.edits self.now.tables.now skipped self.now.place (viewed row.entry) }
        ensures same { view.new.store ≡ view.old.store }
    {
        let places = self.tables.len();
        let chosen = Chosen::new(places).with(self.place, row);
        let left_out = self.is_left_out(alloc, &chosen, row)?;
        if left_out {
            return Ok(());
        }
        let others = other_places(places, self.place);
        self.extend(alloc, view, &chosen, &others, out)
    }
}

/// Returns all places but one.
fn other_places(places: usize, place: usize) -> ArrayVec<usize, MAX_FROM>
    requires { places ≤ MAX_FROM }
    ensures { result.items ≡ other_places_lem places place }
{
    let mut others = ArrayVec::new();
    for j in 0..places {
        if j != place {
            others.push(j);
        }
    }
    others
}
