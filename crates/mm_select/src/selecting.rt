//! Selections.
ghost use Rattle.std.specs.Prelude.{◌≡◌, ℕ, ◌+◌, ◌∷◌, ◌<◌, ◌≤◌, [], false, true, All, IfOk, IsOk, IsOkAnd, IsPermutation, length};
ghost use Rattle.std.specs.List.{count_by, list_any};
ghost use Rattle.mm_partition.specs.Places.{IsLive};
ghost use Rattle.mm_indexed.specs.Kept.{StoredRows};
ghost use Rattle.mm_select.specs.Accesses.{AreAlong, Asks, IsOfHash, IsOfKey, IsServed, asks_along, is_along, is_in_key_order, refs_along};
ghost use Rattle.mm_select.specs.Fitting.{AreFitting};
ghost use Rattle.mm_select.specs.Matches.{matching};
ghost use Rattle.mm_select.specs.declared.access.Access.TheVariants as access;
ghost use Rattle.mm_store.specs.Tables.{IsAt, rows_at};
ghost use Rattle.mm_templist.specs.Combos.{AreLive};

use crate::access::{Access, between, equal_to};
use crate::row_test::{RowTest, some_asks_along};
use mm_query::{Atom, FieldPlace};
use mm_store::{IndexRef, View};
use mm_templist::{Descriptor, FoundRefs, TempList};
use smallvec::SmallVec;
use std::alloc::{AllocError, Global};

/// Returns the rows of a table for which no atom is false, as a temporary list. Finds them as `select_refs` does, and does not copy its
/// references. Fails with `AllocError` if an allocation fails.
pub fn select<'a>(
    alloc: Global,
    view: &mut View<'_>,
    descriptor: Descriptor<'a>,
    atoms: &[Atom<FieldPlace>],
    access: Access<'_>,
) -> Result<TempList<'a>, AllocError>
    requires one { (table : ℕ) × (descriptor.tables.now ≡ table ∷ []) × (table < length view.old.store.tables) }
    requires served { (table : ℕ) (stored : StoredRows) → descriptor.tables.now ≡ table ∷ [] → IsAt view.old.store table stored
        → IsServed stored access }
    requires asked { Asks atoms.now access }
    ensures fitting { IfOk result (λ list. AreFitting view.old.store atoms.now list) }
    ensures live { IfOk result (λ list. All (AreLive view.old.store list.tables) list.combos) }
    ensures tables { IfOk result (λ list. list.tables ≡ descriptor.entry.tables.now) }
    ensures fields { IfOk result (λ list. list.fields ≡ descriptor.entry.fields.now) }
    ensures reads { (table : ℕ) → descriptor.entry.tables.now ≡ table ∷ []
        → view.new.reads ≤ view.old.reads + count_by (is_along access.entry) (rows_at view.old.store.tables table) }
    ensures unread { list_any (asks_along access.entry) atoms.now ≡ false → view.new.reads ≡ view.old.reads }
    ensures same { view.new.store ≡ view.old.store }
    ensures met { IsOfKey access.entry → IsOk result }
    ensures few { IsOfHash access.entry → (table : ℕ) (stored : StoredRows) → descriptor.entry.tables.now ≡ table ∷ []
        → IsAt view.old.store table stored → length (refs_along stored access.entry) ≤ 4 → IsOk result }
{
    let refs = select_refs(alloc, view, descriptor.tables[0], atoms, access)?;
    Ok(TempList::of_refs(descriptor, refs))
}

/// Returns the references of the rows of a table for which no atom is false, each once. They are found along an access path: a scan, a
/// look-up or a range in an index (the access paths of Lehman and Carey, SIGMOD 1986). They are in key order if the access path is, and
/// otherwise in no particular order. Reads no row that is not along the access path, and none at all if every row along it satisfies each
/// atom on this table alone. Allocates for the references along the access path only; a look-up by key allocates nothing, nor does a
/// look-up in a HASH index for up to four rows. Fails with `AllocError` if an allocation fails.
pub fn select_refs(
    alloc: Global,
    view: &mut View<'_>,
    table: usize,
    atoms: &[Atom<FieldPlace>],
    access: Access<'_>,
) -> Result<FoundRefs, AllocError>
    requires there { table < length view.old.store.tables }
    requires served { (stored : StoredRows) → IsAt view.old.store table stored → IsServed stored access }
    requires asked { Asks atoms.now access }
    ensures found { IfOk result (λ found. (stored : StoredRows) → IsAt view.old.store table stored
        → IsPermutation found.items (matching view.old.store table atoms.now [] stored.refs)) }
    ensures ordered { is_in_key_order access.entry ≡ true → IfOk result (λ found. (stored : StoredRows) → IsAt view.old.store table stored
        → found.items ≡ matching view.old.store table atoms.now [] stored.refs) }
    ensures live { IfOk result (λ found. (stored : StoredRows) → IsAt view.old.store table stored → All (IsLive stored.places) found.items) }
    ensures reads { view.new.reads ≤ view.old.reads + count_by (is_along access.entry) (rows_at view.old.store.tables table) }
    ensures unread { list_any (asks_along access.entry) atoms.now ≡ false → view.new.reads ≡ view.old.reads }
    ensures same { view.new.store ≡ view.old.store }
    ensures by_key { IsOfKey access.entry → IsOkAnd result (λ found. length found.items ≤ 1) }
    ensures few { IsOfHash access.entry → (stored : StoredRows) → IsAt view.old.store table stored
        → length (refs_along stored access.entry) ≤ 4 → IsOk result }
{
    match access {
        Access::Scan => scan(alloc, view, table, atoms),
        Access::Equal {
            index,
            column,
            value,
        } => {
            let mut found = equal_to(alloc, view, table, index, column, value)?;
            keep_fitting(view, table, atoms, access, &mut found);
            Ok(found)
        }
        Access::Range {
            index,
            column,
            low,
            high,
        } => {
            let mut found = between(alloc, view, table, index, column, low, high)?;
            keep_fitting(view, table, atoms, access, &mut found);
            Ok(found)
        }
    }
}

/// Returns the references of the rows of a table for which no atom is false, in key order. Fails with `AllocError` if an allocation fails.
fn scan(
    alloc: Global,
    view: &mut View<'_>,
    table: usize,
    atoms: &[Atom<FieldPlace>],
) -> Result<FoundRefs, AllocError>
    requires { table < length view.old.store.tables }
    ensures found { IfOk result (λ found. (stored : StoredRows) → IsAt view.old.store table stored
        → found.items ≡ matching view.old.store table atoms.now [] stored.refs) }
    ensures live { IfOk result (λ found. (stored : StoredRows) → IsAt view.old.store table stored → All (IsLive stored.places) found.items) }
    ensures reads { view.new.reads ≤ view.old.reads + length (rows_at view.old.store.tables table) }
    ensures unread { list_any (asks_along access.Scan) atoms.now ≡ false → view.new.reads ≡ view.old.reads }
    ensures same { view.new.store ≡ view.old.store }
{
    let mut found = SmallVec::new(alloc);
    let test = RowTest {
        table,
        atoms,
        access: Access::Scan,
        asks: some_asks_along(Access::Scan, atoms),
    };
    for at in view.walk(table, IndexRef::Key) {
        if test.admits(view, at) {
            found.push(at)?;
        }
    }
    Ok(found)
}

/// Removes the references of rows along an access path for which an atom is false. The others stay in order. Allocates nothing.
fn keep_fitting(
    view: &mut View<'_>,
    table: usize,
    atoms: &[Atom<FieldPlace>],
    access: Access<'_>,
    found: &mut FoundRefs,
)
    requires there { table < length view.old.store.tables }
    requires along { (stored : StoredRows) → IsAt view.old.store table stored → AreAlong stored access found.old.items }
    requires live { (stored : StoredRows) → IsAt view.old.store table stored → All (IsLive stored.places) found.old.items }
    ensures found { found.new.items ≡ matching view.old.store table atoms.now [] found.old.items }
    ensures reads { view.new.reads ≤ view.old.reads + length found.old.items }
    ensures unread { list_any (asks_along access.entry) atoms.now ≡ false → view.new.reads ≡ view.old.reads }
    ensures same { view.new.store ≡ view.old.store }
{
    let asks = some_asks_along(access, atoms);
    if !asks {
        return;
    }
    let test = RowTest {
        table,
        atoms,
        access,
        asks,
    };
    let mut kept = 0;
    for i in 0..found.len() {
        let at = found[i];
        if test.admits(view, at) {
            found[kept] = at;
            kept += 1;
        }
    }
    found.truncate(kept);
}
