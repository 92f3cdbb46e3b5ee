//! The rows of one table that satisfy atoms.
ghost use Rattle.std.specs.Prelude.{◌≡◌, ◌+◌, ◌++◌, ◌<◌, ◌≤◌, [], ℕ, true, All, Contains, IfOk, IsOk, IsPermutation, None, OnOk, length, map};
ghost use Rattle.std.specs.List.{count_by};
ghost use Rattle.std.specs.List.Sorted.{IsSortedByKey};
ghost use Rattle.mm_partition.specs.Places.{IsLive};
ghost use Rattle.mm_plan.specs.Choosing.{first_step};
ghost use Rattle.mm_plan.specs.Finding.{IsKeyed, among, finds_in_key_order, is_again, meeting, meets, once};
ghost use Rattle.mm_plan.specs.Steps.{may_look};
ghost use Rattle.mm_plan.specs.declared.step.Step.TheVariants.{LookUp};
ghost use Rattle.mm_indexed.specs.Kept.{StoredRows};
ghost use Rattle.mm_query.specs.declared.atom.Comparison.TheVariants.{Equal};
ghost use Rattle.mm_select.specs.Accesses.{has};
ghost use Rattle.mm_select.specs.Asked.{compares};
ghost use Rattle.mm_select.specs.Matches.{matching};
ghost use Rattle.mm_store.specs.Tables.{IsAt, rows_at};
ghost use Rattle.mm_store.specs.declared.index_ref.IndexRef.TheVariants.{Key};
ghost use Rattle.mm_value.specs.Order.{value_cmp};
ghost use Rattle.mm_templist.specs.Combos.{row_of};
ghost use Rattle.mm_value.specs.Views.{value_of};
ghost use Rattle.mm_value.specs.declared.values.Value.{Value as AnyValue};

use crate::beginning::access_by;
use crate::choosing::Chooser;
use mm_query::{Atom, FieldPlace, none_fails};
use mm_select::{Access, select_refs};
use mm_store::{IndexRef, View};
use mm_templist::FoundRefs;
use mm_value::{RowRef, Value, ValueRef, compare};
use smallvec::SmallVec;
use std::alloc::{AllocError, Global};

/// The key and the reference of a row.
#[derive(Clone, Copy)]
struct Keyed<'v> {
    key: ValueRef<'v>,
    at: RowRef,
}

/// Returns the references of the rows of a table that make no atom false, in key order, found by the step of a query of this table alone.
/// If that step does not return key order and finds several rows, each of them is read once more for its key. Fails with `AllocError` if an
/// allocation fails; a look-up by key allocates nothing.
pub fn find_rows(
    alloc: Global,
    view: &mut View<'_>,
    table: usize,
    atoms: &[Atom<FieldPlace>],
) -> Result<FoundRefs, AllocError>
    requires { table < length view.old.store.tables }
    ensures found { IfOk result (λ found. (stored : StoredRows) → IsAt view.old.store table stored → found.items ≡ meeting atoms.now stored) }
    ensures reads { view.new.reads ≤ view.old.reads
        + count_by (may_look atoms.now 0 (first_step view.old.store atoms.now table) []) (rows_at view.old.store.tables table)
        + count_by (meets atoms.now) (rows_at view.old.store.tables table) }
    ensures one_look { finds_in_key_order (first_step view.old.store atoms.now table) ≡ true → view.new.reads ≤ view.old.reads
        + count_by (may_look atoms.now 0 (first_step view.old.store atoms.now table) []) (rows_at view.old.store.tables table) }
    ensures same { view.new.store ≡ view.old.store }
    ensures met { (atom : ℕ) → first_step view.old.store atoms.now table ≡ LookUp Key atom → IsOk result }
{
    let step = Chooser { view, atoms }.first_step(table);
    let access = access_by(atoms, step);
    let found = select_refs(alloc, view, table, atoms, access)?;
    if access.is_in_key_order() {
        return Ok(found);
    }
    in_key_order(alloc, view, table, found)
}

/// Returns the references of the rows of a table that make no atom false, each once and in no particular order, found by the step of a
/// query of this table alone. Fails with `AllocError` if an allocation fails; a look-up by key allocates nothing.
pub(crate) fn find_refs(
    alloc: Global,
    view: &mut View<'_>,
    table: usize,
    atoms: &[Atom<FieldPlace>],
) -> Result<FoundRefs, AllocError>
    requires { table < length view.old.store.tables }
    ensures found { IfOk result (λ found. (stored : StoredRows) → IsAt view.old.store table stored
        → IsPermutation found.items (matching view.old.store table atoms.now [] stored.refs)) }
    ensures live { IfOk result (λ found. (stored : StoredRows) → IsAt view.old.store table stored → All (IsLive stored.places) found.items) }
    ensures reads { view.new.reads ≤ view.old.reads
        + count_by (may_look atoms.now 0 (first_step view.old.store atoms.now table) []) (rows_at view.old.store.tables table) }
    ensures same { view.new.store ≡ view.old.store }
    ensures met { (atom : ℕ) → first_step view.old.store atoms.now table ≡ LookUp Key atom → IsOk result }
{
    let step = Chooser { view, atoms }.first_step(table);
    let access = access_by(atoms, step);
    match access {
        Access::Equal {
            index: IndexRef::Key,
            value,
            ..
        } => Ok(row_with_key(alloc, view, table, atoms, value)),
        _ => select_refs(alloc, view, table, atoms, access),
    }
}

/// Returns whether no atom is false for a row with a key, which one of the atoms requires. Reads the row only if there are other atoms.
fn fits(view: &mut View<'_>, table: usize, at: RowRef, atoms: &[Atom<FieldPlace>]) -> bool
    requires there { table < length view.old.store.tables }
    requires live { (stored : StoredRows) → IsAt view.old.store table stored → IsLive stored.places at }
    requires asked { (column : ℕ) × (key : AnyValue) × Contains atoms.now (compares column Equal key)
        × (has column key (row_of view.old.store table at) ≡ true) }
    ensures told { result ≡ meets atoms.now (row_of view.old.store table at) }
    ensures reads { view.new.reads ≤ view.old.reads + 1 }
    ensures same { view.new.store ≡ view.old.store }
{
    if atoms.len() == 1 {
        return true;
    }
    let row = view.row(table, at);
    none_fails(atoms, &[Some(row)])
}

/// Returns the reference of the row with a key for which no atom is false, if there is one. Reads the row only if there are several atoms.
fn row_with_key(
    alloc: Global,
    view: &mut View<'_>,
    table: usize,
    atoms: &[Atom<FieldPlace>],
    key: &Value,
) -> FoundRefs
    requires there { table < length view.old.store.tables }
    requires asked { (stored : StoredRows) → IsAt view.old.store table stored → Contains atoms.now (compares stored.key Equal key.now) }
    ensures found { (stored : StoredRows) → IsAt view.old.store table stored
        → IsPermutation result.items (matching view.old.store table atoms.now [] stored.refs) }
    ensures live { (stored : StoredRows) → IsAt view.old.store table stored → All (IsLive stored.places) result.items }
    ensures reads { (stored : StoredRows) → IsAt view.old.store table stored
        → view.new.reads ≤ view.old.reads + count_by (has stored.key key.now) (rows_at view.old.store.tables table) }
    ensures same { view.new.store ≡ view.old.store }
{
    let mut found = SmallVec::new(alloc);
    if let Some(at) = view.find(table, key.as_ref()) {
        if fits(view, table, at, atoms) {
            found.push_reserved(at);
        }
    }
    found
}

/// Returns those of the table's references that are among the given ones, each once and in key order. The given references may be in any
/// order, with duplicates. Reads each row once if there are several. Fails with `AllocError` if an allocation fails; at most one reference
/// needs no allocation. Makes O(m log m) comparisons for m references, and O(m) if they are already in key order.
pub fn in_key_order(
    alloc: Global,
    view: &mut View<'_>,
    table: usize,
    mut refs: FoundRefs,
) -> Result<FoundRefs, AllocError>
    requires there { table < length view.old.store.tables }
    requires live { (stored : StoredRows) → IsAt view.old.store table stored → All (IsLive stored.places) refs.items }
    ensures found { IfOk result (λ found. (stored : StoredRows) → IsAt view.old.store table stored → found.items ≡ among refs.items stored) }
    ensures reads { view.new.reads ≤ view.old.reads + length refs.items }
    ensures same { view.new.store ≡ view.old.store }
    ensures met { length refs.items ≤ 1 → IsOk result }
{
    let key = view.key_of(table);
    if refs.len() < 2 {
        return Ok(refs);
    }
    let mut rows = with_keys(alloc, view, table, key, refs.as_slice())?;
    sort_by_key(&mut rows);
    refs.clear();
    append_once(rows.as_slice(), &mut refs)?;
    Ok(refs)
}

/// Returns the given references in their order, each with the value of its row in the key column. Reads each row once. Fails with
/// `AllocError` if an allocation fails.
fn with_keys<'v>(
    alloc: Global,
    view: &mut View<'v>,
    table: usize,
    key: usize,
    refs: &[RowRef],
) -> Result<Vec<Keyed<'v>>, AllocError>
    requires there { table < length view.old.store.tables }
    requires key { (stored : StoredRows) → IsAt view.old.store table stored → (key ≡ stored.key) × (key < length stored.places.types) }
    requires live { (stored : StoredRows) → IsAt view.old.store table stored → All (IsLive stored.places) refs.now }
    ensures refs { IfOk result (λ rows. map (λ row. row.at) rows.items ≡ refs.now) }
    ensures keys { IfOk result (λ rows. (stored : StoredRows) → IsAt view.old.store table stored → All (IsKeyed stored) rows.items) }
    ensures reads { view.new.reads ≤ view.old.reads + length refs.now }
    ensures same { view.new.store ≡ view.old.store }
{
    let mut rows = Vec::with_capacity(alloc, refs.len())?;
    for at in refs {
        let row = view.row(table, *at);
        rows.push(Keyed {
            key: row.value(key),
            at: *at,
        })?;
    }
    Ok(rows)
}

/// Sorts rows by their keys. Allocates nothing. Makes O(m log m) comparisons for m rows, and O(m) if they are already sorted.
fn sort_by_key(rows: &mut Vec<Keyed>)
    ensures permutation { IsPermutation rows.old.items rows.new.items }
    ensures sorted { IsSortedByKey (λ row. value_of row.key) value_cmp rows.new.items }
{
    rows.sort_unstable_by(|a, b| compare(&a.key, &b.key));
}

/// Returns whether the reference equals the previous one.
fn is_again(before: Option<RowRef>, at: RowRef) -> bool
    ensures { result ≡ is_again before at }
{
    match before {
        Some(other) => other == at,
        None => false,
    }
}

/// Appends the references of rows in order, and consecutive equal references once. Fails with `AllocError` if an allocation fails; some
/// references may have been appended then.
fn append_once(rows: &[Keyed], refs: &mut FoundRefs) -> Result<(), AllocError>
    ensures { OnOk result (refs.new.items ≡ refs.old.items ++ once None (map (λ row. row.at) rows.now)) }
{
    let mut before = None;
    for row in rows {
        if !is_again(before, row.at) {
            refs.push(row.at)?;
        }
        before = Some(row.at);
    }
    Ok(())
}
