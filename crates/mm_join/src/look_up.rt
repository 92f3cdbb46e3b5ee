//! Look-ups of the value that a key requires.
ghost use Rattle.std.specs.Prelude.{◌+◌, ◌≤◌, ◌≡◌, ℕ, ◌+ℤ◌, ◌<◌, true, [], FitsSigned, IfSome, None, OnOk, Some, length, map, pos};
ghost use Rattle.std.specs.Int.{w64};
ghost use Rattle.std.specs.Option.{option_map, unwrap_or};
ghost use Rattle.mm_value.specs.Views.{value_of};
ghost use Rattle.mm_partition.specs.Views.{viewed};
ghost use Rattle.mm_join.specs.Equated.{HaveMatches, added, sought};
ghost use Rattle.mm_join.specs.AccessMethods.{Finds, IsAmong, and_prefix};
ghost use Rattle.mm_partition.specs.Places.{slot_at};
ghost use Rattle.mm_query.specs.Queries.{rows_read, value_at};
ghost use Rattle.mm_indexed.specs.Kept.{StoredRows};
ghost use Rattle.mm_store.specs.Tables.{IsAt};
ghost use Rattle.mm_templist.specs.Combos.{AreLive, rows_of_combo};
ghost use Rattle.mm_value.specs.Prefix.{order_prefix};
ghost use Rattle.mm_value.specs.declared.values.Value.TheVariants.{Int};

use crate::column::value_in;
use crate::cursor::Cursor;
use crate::inner::Outer;
use crate::key::{JoinKey, Shift};
use mlhash::HashRefs;
use mm_partition::RowView;
use mm_query::FieldPlace;
use mm_store::{IndexRef, View};
use mm_value::{RowRef, ValueRef, hash64, order_prefix};
use std::alloc::{AllocError, Global};

/// The structure that finds the rows of a table by their value in a column.
#[derive(Drop)]
pub(crate) enum Among {
    /// An index of the table.
    Index(IndexRef),
    /// A hash table of the references of all rows, by the hash of the value.
    Built(HashRefs),
    /// A walk along a tree, for prefixes in ascending order.
    Walk(Cursor),
}

/// A look-up of the value that a key requires.
#[derive(Drop)]
pub(crate) struct LookUp {
    pub among: Among,
    pub key: JoinKey,
}

/// Returns the value of a field in the rows of a combination, and 0 if there is no such row or the row ends before the field.
fn field_value<'v>(rows: &[Option<RowView<'v>>], field: FieldPlace) -> ValueRef<'v>
    ensures { value_of result ≡ unwrap_or (value_at (rows_read viewed rows.now) field) (Int (pos 0)) }
{
    match rows.get(field.place) {
        Some(Some(row)) => value_in(*row, field.column),
        _ => ValueRef::Int(0),
    }
}

/// Returns a number plus a shift, or `None` if the sum does not fit 64 bits.
fn shifted_number(number: i64, shift: Shift) -> Option<i64>
    ensures sum { IfSome result (λ sum. sum ≡ number +ℤ added shift) }
    ensures within { IfSome result (λ sum. FitsSigned w64 sum) }
    ensures past { result ≡ None → ¬ FitsSigned w64 (number +ℤ added shift) }
{
    match shift {
        Shift::Plus(by) => number.checked_add(by),
        Shift::Minus(by) => number.checked_sub(by),
    }
}

/// Returns the prefix of the value of a field in the row of a combination, or `None` if it is not stored or there is no such field. Counts
/// as one read.
fn prefix_of_field(view: &mut View<'_>, outer: Outer<'_>, field: FieldPlace) -> Option<u64>
    requires { AreLive view.old.store outer.tables.now outer.refs.now }
    ensures prefix { IfSome result (λ prefix.
        option_map order_prefix (value_at (map Some (rows_of_combo view.old.store outer.entry.tables.now outer.entry.refs.now)) field) ≡ Some prefix) }
    ensures reads { view.new.reads ≤ view.old.reads + 1 }
    ensures same { view.new.store ≡ view.old.store }
{
    if field.place >= outer.tables.len() {
        return None;
    }
    view.prefix_of(
        outer.tables[field.place],
        field.column,
        outer.refs[field.place],
    )
}

impl LookUp {
    /// Replaces the contents of `found` by references of rows of a table, among them all that have this value in the key's column, in no
    /// particular order. Reads no row. Fails with `AllocError` if an allocation fails.
    fn find_value(
        &mut self,
        alloc: Global,
        view: &View<'_>,
        table: usize,
        value: ValueRef<'_>,
        found: &mut Vec<RowRef>,
    ) -> Result<(), AllocError>
        requires there { table < length view.now.store.tables }
        requires among { (stored : StoredRows) → IsAt view.now.store table stored → IsAmong stored self.old.key.column self.old.among }
        ensures found { OnOk result ((stored : StoredRows) → IsAt view.now.store table stored
            → Finds stored self.old.key.column self.old.among (value_of value.entry) found.new.items) }
        ensures same { self.new ≡ self.old }
    {
        found.clear();
        match &mut self.among {
            Among::Index(index) => view.matches(alloc, table, *index, value, found),
            Among::Built(pairs) => pairs.matches(alloc, hash64(&value), found),
            Among::Walk(cursor) => cursor.find(order_prefix(&value), found),
        }
    }

    /// Replaces the contents of `found` by references of rows of a table, in no particular order. They include all rows that have this
    /// number plus the key's shift in the key's column. Reads no row. Fails with `AllocError` if an allocation fails.
    fn find_number(
        &mut self,
        alloc: Global,
        view: &View<'_>,
        table: usize,
        number: i64,
        found: &mut Vec<RowRef>,
    ) -> Result<(), AllocError>
        requires there { table < length view.now.store.tables }
        requires among { (stored : StoredRows) → IsAt view.now.store table stored → IsAmong stored self.old.key.column self.old.among }
        ensures found { OnOk result ((stored : StoredRows) → IsAt view.now.store table stored
            → Finds stored self.old.key.column self.old.among (Int (number +ℤ added self.old.key.shift)) found.new.items) }
        ensures same { self.new ≡ self.old }
    {
        match shifted_number(number, self.key.shift) {
            Some(sum) => self.find_value(alloc, view, table, ValueRef::Int(sum), found),
            // No row has a number past 64 bits.
            None => {
                found.clear();
                Ok(())
            }
        }
    }

    /// Replaces the contents of `found` by references of rows of a table, among them all that have the value that the key requires after
    /// these rows, in no particular order. Reads no row. Fails with `AllocError` if an allocation fails.
    pub fn find_partners(
        &mut self,
        alloc: Global,
        view: &View<'_>,
        table: usize,
        rows: &[Option<RowView<'_>>],
        found: &mut Vec<RowRef>,
    ) -> Result<(), AllocError>
        requires there { table < length view.now.store.tables }
        requires among { (stored : StoredRows) → IsAt view.now.store table stored → IsAmong stored self.old.key.column self.old.among }
        ensures found { OnOk result ((stored : StoredRows) → IsAt view.now.store table stored
            → Finds stored self.old.key.column self.old.among (sought self.old.key (rows_read viewed rows.now)) found.new.items) }
        ensures same { self.new ≡ self.old }
    {
        let value = field_value(rows, self.key.field);
        match value {
            ValueRef::Int(number) => self.find_number(alloc, view, table, number, found),
            ValueRef::Text(_) => self.find_value(alloc, view, table, value, found),
        }
    }

    /// Returns `true` only if a prefix shows that no row has the value that the key requires for a combination. Along a walk a prefix
    /// usually decides this if the key has no shift.
    pub fn has_none(&mut self, view: &mut View<'_>, outer: Outer<'_>) -> bool
        requires live { AreLive view.old.store outer.tables.now outer.refs.now }
        ensures none { result ≡ true → (stored : StoredRows) → IsAmong stored self.old.key.column self.old.among
            → HaveMatches self.old.key.column (slot_at stored.places)
            (sought self.old.key (map Some (rows_of_combo view.old.store outer.entry.tables.now outer.entry.refs.now))) stored.refs [] }
        ensures reads { view.new.reads ≤ and_prefix self.old.among view.old.reads }
        ensures store { view.new.store ≡ view.old.store }
        ensures same { self.new ≡ self.old }
    {
        if !self.key.shift.adds_nothing() {
            return false;
        }
        let Among::Walk(cursor) = &mut self.among else {
            return false;
        };
        match prefix_of_field(view, outer, self.key.field) {
            Some(prefix) => !cursor.has(prefix),
            None => false,
        }
    }
}
