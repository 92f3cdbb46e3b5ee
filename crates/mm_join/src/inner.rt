//! The step that all joins share: one combination of the outer list with its candidates.
ghost use Rattle.std.specs.Prelude.{◌≡◌, ◌+◌, ◌++◌, ◌∷◌, ◌<◌, ◌≤◌, [], Some, All, length, map, OnOk};
ghost use Rattle.mm_partition.specs.Views.{viewed};
ghost use Rattle.mm_query.specs.Queries.{rows_read};
ghost use Rattle.mm_join.specs.Caps.{cap_conditions};
ghost use Rattle.mm_partition.specs.Places.{IsLive};
ghost use Rattle.mm_indexed.specs.Kept.{StoredRows};
ghost use Rattle.mm_schema.specs.Refused.{AnswersDue, first_refusal};
ghost use Rattle.mm_select.specs.Matches.{matches};
ghost use Rattle.mm_store.specs.Tables.{IsAt};
ghost use Rattle.mm_templist.specs.Combos.{AreLive, rows_of_combo};

use mm_partition::RowView;
use mm_query::{Atom, FieldPlace, none_fails};
use mm_store::View;
use mm_templist::TempList;
use mm_value::{Refusal, RowRef};
use std::alloc::AllocError;

/// A combination of the outer list.
#[derive(Clone, Copy)]
pub(crate) struct Outer<'f> {
    /// The positions in the store of the tables of the outer list.
    pub tables: &'f [usize],
    /// The references, one for each table.
    pub refs: &'f [RowRef],
}

/// The inner side of a join: the table that is joined to the outer list, the atoms, and the cap.
#[derive(Clone, Copy)]
pub(crate) struct Inner<'q> {
    /// The position of the table in the store.
    pub table: usize,
    pub atoms: &'q [Atom<FieldPlace>],
    /// The maximum number of combinations.
    pub cap: u64,
}

impl Inner<'_> {
    /// Appends the combination of `outer` and a candidate, if it fits. `rows` has the rows of `outer`. Reads the candidate. Fails with
    /// `ResultTooLarge` if the combination fits and the list has `cap` combinations already, or with `Memory` if an allocation fails.
    fn add_fitting<'s>(
        &self,
        view: &mut View<'s>,
        rows: &mut Vec<Option<RowView<'s>>>,
        outer: &[RowRef],
        at: RowRef,
        list: &mut TempList<'_>,
    ) -> Result<(), Refusal>
        requires there { self.now.table < length view.old.store.tables }
        requires live { (stored : StoredRows) → IsAt view.old.store self.now.table stored → IsLive stored.places at }
        requires wide { length outer.now + 1 ≡ length list.old.tables }
        requires few { length list.old.combos ≤ self.now.cap }
        ensures due { AnswersDue (first_refusal (cap_conditions self.now.cap (list.old.combos
            ++ matches view.old.store self.now.table self.now.atoms.now (rows_read viewed rows.old.items) outer.now (at ∷ [])))) result }
        ensures list { OnOk result (list.new ≡ record list.old {
          combos = list.old.combos
              ++ matches view.old.store self.now.table self.now.atoms.now (rows_read viewed rows.old.items) outer.now (at ∷ []);
        }) }
        ensures rows { OnOk result (rows.new.items ≡ rows.old.items) }
        ensures reads { view.new.reads ≤ view.old.reads + 1 }
        ensures same { view.new.store ≡ view.old.store }
    {
        rows.push(Some(view.row(self.table, at)))?;
        let fits = none_fails(self.atoms, rows);
        rows.pop();
        if !fits {
            return Ok(());
        }
        if list.len() as u64 >= self.cap {
            return Err(Refusal::ResultTooLarge);
        }
        list.push(outer, at)?;
        Ok(())
    }

    /// Appends the combinations of `outer` and each candidate that fit. `rows` has the rows of `outer`. Reads each candidate at most once.
    /// Fails with `ResultTooLarge` if the list would have more than `cap` combinations, or with `Memory` if an allocation fails.
    pub fn add_all<'s>(
        &self,
        view: &mut View<'s>,
        rows: &mut Vec<Option<RowView<'s>>>,
        outer: &[RowRef],
        candidates: &[RowRef],
        list: &mut TempList<'_>,
    ) -> Result<(), Refusal>
        requires there { self.now.table < length view.old.store.tables }
        requires live { (stored : StoredRows) → IsAt view.old.store self.now.table stored → All (IsLive stored.places) candidates.now }
        requires wide { length outer.now + 1 ≡ length list.old.tables }
        requires few { length list.old.combos ≤ self.now.cap }
        ensures due { AnswersDue (first_refusal (cap_conditions self.now.cap (list.old.combos
            ++ matches view.old.store self.now.table self.now.atoms.now (rows_read viewed rows.old.items) outer.now candidates.now))) result }
        ensures list { OnOk result (list.new ≡ record list.old {
          combos = list.old.combos
              ++ matches view.old.store self.now.table self.now.atoms.now (rows_read viewed rows.old.items) outer.now candidates.now;
        }) }
        ensures rows { OnOk result (rows.new.items ≡ rows.old.items) }
        ensures reads { view.new.reads ≤ view.old.reads + length candidates.now }
        ensures same { view.new.store ≡ view.old.store }
    {
        for at in candidates {
            self.add_fitting(view, rows, outer, *at, list)?;
        }
        Ok(())
    }
}

/// Replaces the contents of `rows` by the rows of a combination. Reads each of them once. Fails with `AllocError` if an allocation fails.
pub(crate) fn choose<'s>(
    view: &mut View<'s>,
    outer: Outer<'_>,
    rows: &mut Vec<Option<RowView<'s>>>,
) -> Result<(), AllocError>
    requires { AreLive view.old.store outer.tables.now outer.refs.now }
    ensures rows { OnOk result (rows_read viewed rows.new.items
        ≡ map Some (rows_of_combo view.old.store outer.entry.tables.now outer.entry.refs.now)) }
    ensures reads { view.new.reads ≤ view.old.reads + length outer.entry.tables.now }
    ensures same { view.new.store ≡ view.old.store }
{
    rows.clear();
    for (place, at) in outer.refs.iter().enumerate() {
        rows.push(Some(view.row(outer.tables[place], *at)))?;
    }
    Ok(())
}
