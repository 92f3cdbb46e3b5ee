//! Edits of a table: rows are staged, and then edits of their slots are made.
ghost use Rattle.std.specs.Prelude.{◌≡◌, ℕ, ◌+◌, ◌<◌, ◌≤◌, All, Bool, List, None, OnErr, OnOk, Some, if◌then◌else◌, length, map, slice_set};
ghost use Rattle.mm_base.specs.Bases.{edit_conditions, references_of, rows_made, rows_now};
ghost use Rattle.mm_indexed.specs.Index.{EachTurns};
ghost use Rattle.mm_indexed.specs.Kept.{StoredRows};
ghost use Rattle.mm_partition.specs.Places.{IsHidden, IsLive, slot_at};
ghost use Rattle.mm_partition.specs.Types.{HasTypes};
ghost use Rattle.mm_row_order.specs.Refs.{row_at};
ghost use Rattle.mm_schema.specs.Refused.{AnswersDue, first_refusal};
ghost use Rattle.mm_schema.specs.Rows.{same_in_column, table_rows_conditions};
ghost use Rattle.mm_store.specs.Edits.{AreReady, conditions_of, rows_after};
ghost use Rattle.mm_store.specs.Marks.{KeepsMarks, mark_of};
ghost use Rattle.mm_store.specs.Staging.{CanStage, HasStaged, IsStaged};
ghost use Rattle.mm_store.specs.Tables.{HasRows, IsAt, KeepsRows, SameForm, Turns, has_orphans};
ghost use Rattle.mm_tables.specs.Commands.{IsCommand};
ghost use Rattle.mm_tables.specs.Edits.{came_by};
ghost use Rattle.mm_tables.specs.Tables.{KeepsOthers, at_mark, key_in, shape_of, slots_in};
ghost use Rattle.mm_tables.specs.declared.edit.Edit.{Edit as EditOf};
ghost use Rattle.mm_value.specs.Storable.{AreStorable};
ghost use Rattle.mm_value.specs.declared.refusal.Refusal.TheVariants.{RowIsReferenced};

use super::Store;
use super::changing::rows_are_listed;
use mm_base::BaseTables;
use mm_tables::Edit;
use mm_value::{Refusal, RowRef, Value};
use std::alloc::{AllocError, Global};

impl Store {
    /// Reserves capacity to stage `rows` rows of a table. Fails with `AllocError` if an allocation fails; then there may be more capacity,
    /// and all else is as before.
    pub fn reserve_rows(
        &mut self,
        alloc: Global,
        table: usize,
        rows: usize,
    ) -> Result<(), AllocError>
        requires { table < length self.old.tables }
        ensures room { OnOk result (CanStage rows table self.new) }
        ensures kept { HasStaged table self.old self.new }
        ensures log { mark_of self.new ≡ mark_of self.old }
    {
        self.base.table(table);
        let result = self.base.reserve(alloc, table, rows, 0);
        self.base.table(table);
        result
    }

    /// Stages a new row of a table: moves its values into a free slot, which becomes hidden, logs this, and returns the slot's reference.
    /// Allocates nothing.
    pub fn stage(&mut self, table: usize, values: &mut [Value]) -> RowRef
        requires there { table < length self.old.tables }
        requires room { CanStage 1 table self.old }
        requires storable { AreStorable values.old }
        requires typed { (stored : StoredRows) → IsAt self.old table stored → HasTypes stored.places.types values.old }
        ensures staged { (stored now : StoredRows) → IsAt self.old table stored → IsAt self.new table now → IsStaged result values.old stored now }
        ensures kept { HasStaged table self.old self.new }
        ensures room { (n : ℕ) → CanStage (n + 1) table self.old → CanStage n table self.new }
    {
        self.base.table(table);
        let at = self.base.stage(table, values);
        self.base.table(table);
        at
    }

    /// Returns whether a row in use and a staged row of a table have the same key.
    pub fn keeps_key(&self, table: usize, at: RowRef, other: RowRef) -> bool
        requires there { table < length self.now.tables }
        requires live { (stored : StoredRows) → IsAt self.now table stored → IsLive stored.places at }
        requires hidden { (stored : StoredRows) → IsAt self.now table stored → IsHidden stored.places other }
        ensures { (stored : StoredRows) → IsAt self.now table stored
            → result ≡ same_in_column stored.key (row_at (slot_at stored.places) at) (row_at (slot_at stored.places) other) }
    {
        self.base.table(table).keeps_key(at, other)
    }

    /// Makes edits of a table together. Fails with the first refusal that is due: `DuplicateKey` if two rows would have one key,
    /// `NoTargetRow` if a row would refer to no row, `RowIsReferenced` if a row to which a row of another table refers would be deleted or
    /// get another key, or `TableFull` if there would be more than 1,048,576 rows. Or with `Memory` if an allocation fails. Then all rows
    /// and the log are as before: the rows that were staged for the edits stay until the log is undone.
    pub fn make(&mut self, alloc: Global, table: usize, edits: &[Edit]) -> Result<(), Refusal>
        requires there { table < length self.old.tables }
        requires ready { (stored : StoredRows) → IsAt self.old table stored → AreReady stored edits.now }
        ensures due { (stored : StoredRows) → IsAt self.old table stored
            → AnswersDue (first_refusal (conditions_of self.old table stored edits.now)) result }
        ensures ok { OnOk result ((stored : StoredRows) → IsAt self.old table stored
            → (new : StoredRows) × Turns self.old table new self.new × HasRows stored (rows_after stored edits.now) new) }
        ensures form { EachTurns SameForm self.old.tables self.new.tables }
        ensures err { OnErr result (KeepsRows self.old self.new) }
        ensures links { self.new.links ≡ self.old.links }
        ensures longer { mark_of self.old ≤ mark_of self.new }
        ensures kept { OnErr result (self.new.stored.log ≡ self.old.stored.log) }
        ensures marks { (mark : ℕ) → mark ≤ mark_of self.old → KeepsMarks self.old self.new mark }
    {
        rows_are_listed(&self.base);
        let result = make_edits(&mut self.base, alloc, table, edits);
        rows_are_listed(&self.base);
        result
    }

    /// Lemma: deletions are refused only if a row of another table refers to a deleted row. The call does nothing.
    pub fn deletions_may_be_made(&self, table: usize)
        requires { table < length self.now.tables }
        ensures { (stored : StoredRows) → IsAt self.now table stored → (edits : List EditOf) → AreReady stored edits
            → All (λ e. came_by e ≡ None) edits → (some_is_referred : Bool)
            → first_refusal (table_rows_conditions stored.key (rows_after stored edits) (has_orphans self.now table (rows_after stored edits)) some_is_referred)
            ≡ (if some_is_referred then Some RowIsReferenced else None) }
    {
        rows_are_listed(&self.base);
        self.base.deletions_are_made(table);
        self.base.targets_stay(table);
    }
}

/// Reserves capacity for edits of a table and makes them. Fails as [`Store::make`] does; then all rows and the log are as before.
fn make_edits(
    base: &mut BaseTables,
    alloc: Global,
    table: usize,
    edits: &[Edit],
) -> Result<(), Refusal>
    requires there { table < length base.old.stored.tables }
    requires ready { IsCommand (key_in base.old.stored.tables table) edits.now (slots_in base.old.stored.tables table) }
    ensures due { AnswersDue (first_refusal (edit_conditions base.old table edits.now)) result }
    ensures rows { OnOk result (rows_now base.new.stored ≡ slice_set (rows_now base.old.stored) table (rows_made base.old.stored table edits.now)) }
    ensures others { OnOk result (KeepsOthers table base.old.stored.tables base.new.stored.tables) }
    ensures err { OnErr result (rows_now base.new.stored ≡ rows_now base.old.stored) }
    ensures kept { OnErr result (base.new.stored.log ≡ base.old.stored.log) }
    ensures longer { length base.old.stored.log ≤ length base.new.stored.log }
    ensures marks { (mark : ℕ) → mark ≤ length base.old.stored.log → at_mark base.new.stored mark ≡ at_mark base.old.stored mark }
    ensures shapes { map shape_of base.new.stored.tables ≡ map shape_of base.old.stored.tables }
    ensures links { references_of base.new.links ≡ references_of base.old.links }
{
    let mark = base.mark();
    base.reserve_for(alloc, table, edits)?;
    base.make(mark, table, edits)
}
