//! The term of one place of FROM.
ghost use Rattle.std.specs.Prelude.{◌≡◌, ℕ, ◌+◌, ◌<◌, ◌≤◌, Bool, [], ◌∷◌, List, get_or, length, map, All, OnOk};
ghost use Rattle.std.specs.List.{sum_by};
ghost use Rattle.mm_partition.specs.Views.{viewed};
ghost use Rattle.mm_value.specs.declared.values.Value.{Value as AnyValue};
ghost use Rattle.mm_query.specs.Queries.{bag_of};
ghost use Rattle.mm_multiset.specs.Counts.{count_in, count_of};
ghost use Rattle.mm_delta.specs.Changes.{AreOf};
ghost use Rattle.mm_delta.specs.Edited.{after_at, before_at, come_at, gone_at};
ghost use Rattle.mm_delta.specs.Skipping.{IsOfCyclicRows, IsRowOf, IsTypeTested};
ghost use Rattle.mm_delta.specs.Steps.{HasTables, row_reads, term_reads};
ghost use Rattle.mm_delta.specs.Terms.{lists_around};
ghost use Rattle.mm_delta.specs.Walk.{other_places};

use crate::unseen::Sight;
use crate::walk::Walk;
use mm_multiset::Tally;
use mm_partition::RowView;
use mm_store::View;
use std::alloc::{AllocError, Global};

impl<'c> Walk<'_, 'c> {
    /// Counts the projected row of each matching combination that has one of these rows at the place of the edited row, for each of them.
    /// Fails with `AllocError` if an allocation fails.
    pub(crate) fn from_rows<'a: 'c>(
        &self,
        alloc: Global,
        view: &mut View<'a>,
        rows: &[RowView<'c>],
        out: &mut Tally,
    ) -> Result<(), AllocError>
        requires place { self.now.place < length self.now.tables.now }
        requires few { length self.now.tables.now ≤ 4 }
        requires there { HasTables self.now.tables.now view.old.store (other_places (length self.now.tables.now) self.now.place) }
        requires fit { AreOf view.old.store self.now.changes.now }
        requires typed { IsTypeTested self.now.query.now view.old.store self.now.changes.now.edits self.now.tables.now }
        requires edited { All (IsRowOf view.old.store self.now.changes.now.edits (get_or self.now.tables.now self.now.place 0)) (map viewed rows.now) }
        ensures counted { OnOk result ((other : List AnyValue) → count_in other out.new.entries ≡ count_in other out.old.entries
            + sum_by (λ x. count_of other (bag_of self.now.query.now
            (lists_around 0 (after_at view.old.store self.now.changes.now.edits) (λ _. x ∷ []) (before_at view.old.store) self.now.tables.now self.now.place)))
            (map viewed rows.now)) }
        ensures reads { (skipped : ℕ → List AnyValue → Bool) → IsOfCyclicRows self.now.query.now skipped → view.new.reads ≤ view.old.reads
            + sum_by (row_reads self.now.query.now view.old.store self.now.changes.now.edits self.now.tables.now skipped self.now.place)
            (map viewed rows.now) }
        ensures same { view.new.store ≡ view.old.store }
    {
        for row in rows {
            self.from_row(alloc, view, *row, out)?;
        }
        Ok(())
    }

    /// Counts the projected row of each matching combination that has an edited row at the place of the edited row: with a new row in
    /// `comes`, with a deleted row in `goes`. If a row replaces another one and the query reads no column in which they differ, neither is
    /// counted, since the counts would cancel out. Fails with `AllocError` if an allocation fails.
    pub(crate) fn add_term<'a: 'c>(
        &self,
        alloc: Global,
        view: &mut View<'a>,
        comes: &mut Tally,
        goes: &mut Tally,
    ) -> Result<(), AllocError>
        requires place { self.now.place < length self.now.tables.now }
        requires few { length self.now.tables.now ≤ 4 }
        requires there { All (λ table. table < length view.old.store.tables) self.now.tables.now }
        requires fit { AreOf view.old.store self.now.changes.now }
        requires typed { IsTypeTested self.now.query.now view.old.store self.now.changes.now.edits self.now.tables.now }
        ensures net { OnOk result ((row : List AnyValue) → count_in row comes.new.entries + count_in row goes.old.entries
            + count_of row (bag_of self.now.query.now (lists_around 0 (after_at view.old.store self.now.changes.now.edits)
            (gone_at view.old.store self.now.changes.now.edits) (before_at view.old.store) self.now.tables.now self.now.place))
            ≡ count_in row goes.new.entries + count_in row comes.old.entries
            + count_of row (bag_of self.now.query.now (lists_around 0 (after_at view.old.store self.now.changes.now.edits)
            (come_at view.old.store self.now.changes.now.edits)
            (before_at view.old.store) self.now.tables.now self.now.place))) }
        ensures reads { (skipped : ℕ → List AnyValue → Bool) → IsOfCyclicRows self.now.query.now skipped → view.new.reads ≤ view.old.reads
            + term_reads self.now.query.now view.old.store self.now.changes.now.edits self.now.tables.now skipped self.now.place }
        ensures same { view.new.store ≡ view.old.store }
    {
        let table = self.tables[self.place];
        let sight = Sight {
            query: self.query,
            place: self.place,
        };
        let edits = self.changes.edits_of(table);
        let seen = sight.seen_rows(alloc, view, table, edits)?;
        self.from_rows(alloc, view, &seen.gone, goes)?;
        self.from_rows(alloc, view, &seen.come, comes)
    }
}
