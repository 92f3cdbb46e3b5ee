//! Steps on two tables and on the lists of standing queries over them.
ghost use Rattle.std.specs.Prelude.{◌≡◌, ℕ, ◌<◌, ◌≤◌, All, List, [], ◌∷◌, length, map, true, IfOk, IfSome, OnErr, OnOk};
ghost use Rattle.mm_multiset.specs.Counts.{count_in};
ghost use Rattle.mm_standing.specs.Bags.{entries_at};
ghost use Rattle.mm_delta.specs.Edited.{before_at};
ghost use Rattle.mm_query.specs.Queries.{bag_of};
ghost use Rattle.mm_standing.specs.State.{AreServed, FitNow, FitPrepared, count_at, count_now};
ghost use Rattle.mm_store.specs.Staging.{HasStaged};
ghost use Rattle.mm_store.specs.Tables.{rows_at};
ghost use Rattle.standing_tests.specs.Cases.{AreFitAt, HaveNumbers, IsCase, IsHiddenNumber, IsMark, IsWhole, adds_none, is_unshifted, rows_edited};
ghost use Rattle.mm_value.specs.declared.values.Value.{Value as Val};
ghost use Rattle.store_tests.specs.RowEdits.{IsLiveAt};
ghost use Rattle.store_tests.specs.SampleStore.{ArePlain};

use mm_delta::{Signed, TableChange, delta};
use mm_query::{BoundQuery, FieldPlace, Operand};
use mm_schema::IndexKind;
use mm_standing::Standing;
use mm_store::{IndexRef, Store};
use mm_tables::Edit;
use mm_value::{ColType, Refusal, RowRef, Value, ValueRef};
use std::alloc::{AllocError, Global};

/// The types of the two columns of each table.
pub const TYPES: &[ColType] = &[ColType::Int, ColType::Int];

/// Returns two tables of two columns without rows. If `indexed`, the numbers of the first have a HASH index.
pub fn tables(alloc: Global, indexed: bool) -> Result<Store, Refusal>
    ensures two { IfOk result (λ store. length store.tables ≡ 2) }
    ensures plain { IfOk result ArePlain }
    ensures typed { IfOk result (λ store. HaveNumbers (before_at store)) }
    ensures settled { IfOk result (λ store. store.stored.log ≡ []) }
{
    let mut store = Store::new(alloc);
    store.add_table(alloc, TYPES, 0, &[])?;
    store.add_table(alloc, TYPES, 0, &[])?;
    if indexed {
        add_index(alloc, &mut store)?;
    }
    Ok(store)
}

/// Appends a HASH index on the second column of the first of two tables.
fn add_index(alloc: Global, store: &mut Store) -> Result<(), AllocError>
    requires two { length store.old.tables ≡ 2 }
    requires plain { ArePlain store.old }
    ensures two { length store.new.tables ≡ 2 }
    ensures plain { ArePlain store.new }
    ensures rows { OnOk result (before_at store.new ≡ before_at store.old) }
    ensures log { store.new.stored.log ≡ store.old.stored.log }
{
    let _before = store.mark();
    store.add_index(alloc, 0, 1, IndexKind::Hash)?;
    let _after = store.mark();
    Ok(())
}

/// Stages the row of a key and a number. Fails with `AllocError` if an allocation fails; then no row is staged.
fn stage(
    alloc: Global,
    store: &mut Store,
    table: usize,
    key: i64,
    number: i64,
) -> Result<RowRef, AllocError>
    requires there { table < length store.old.tables }
    requires plain { ArePlain store.old }
    ensures staged { HasStaged table store.old store.new }
    ensures hidden { IfOk result (IsHiddenNumber store.new table) }
{
    store.reserve_rows(alloc, table, 1)?;
    let mut values = [Value::Int(key), Value::Int(number)];
    Ok(store.stage(table, &mut values))
}

/// Returns the edit that inserts the row of a key and a number, which is staged.
fn addition(
    alloc: Global,
    store: &mut Store,
    table: usize,
    key: i64,
    number: i64,
) -> Result<Edit, AllocError>
    requires there { table < length store.old.tables }
    requires plain { ArePlain store.old }
    ensures staged { HasStaged table store.old store.new }
    ensures fit { IfOk result (λ edit. AreFitAt store.new table (edit ∷ [])) }
{
    Ok(Edit::Insert(stage(alloc, store, table, key, number)?))
}

/// Returns the edit that deletes the row of a key. Fails with `NoTargetRow` if no row of the table has the key.
fn removal(store: &Store, table: usize, key: i64) -> Result<Edit, Refusal>
    requires there { table < length store.now.tables }
    ensures fit { IfOk result (λ edit. AreFitAt store.now table (edit ∷ [])) }
{
    match at_key(store, table, key) {
        Some(at) => Ok(Edit::Delete(at)),
        None => Err(Refusal::NoTargetRow),
    }
}

/// Returns the edit that changes the number of the row of a key; the new row is staged. Fails with `NoTargetRow` if no row of the table has
/// the key.
fn replacement(
    alloc: Global,
    store: &mut Store,
    table: usize,
    key: i64,
    number: i64,
) -> Result<Edit, Refusal>
    requires there { table < length store.old.tables }
    requires plain { ArePlain store.old }
    ensures staged { HasStaged table store.old store.new }
    ensures fit { IfOk result (λ edit. AreFitAt store.new table (edit ∷ [])) }
{
    let Some(at) = at_key(store, table, key) else {
        return Err(Refusal::NoTargetRow);
    };
    let other = stage(alloc, store, table, key, number)?;
    if store.keeps_key(table, at, other) {
        Ok(Edit::Update(at, other))
    } else {
        Ok(Edit::Move(at, other))
    }
}

/// Returns whether the row of a reference has a key.
fn has_key(store: &Store, table: usize, at: RowRef, key: i64) -> bool
    requires there { table < length store.now.tables }
    requires live { IsLiveAt store.now table at }
{
    let mut view = store.view();
    match view.row(table, at).get(0) {
        Some(ValueRef::Int(number)) => number == key,
        _ => false,
    }
}

/// Returns the reference of the row of a key, found by a walk along the keys.
fn at_key(store: &Store, table: usize, key: i64) -> Option<RowRef>
    requires { table < length store.now.tables }
    ensures { IfSome result (IsLiveAt store.now table) }
{
    let view = store.view();
    for at in view.walk(table, IndexRef::Key) {
        if has_key(store, table, at, key) {
            return Some(at);
        }
    }
    None
}

/// Inserts the row of a key and a number into a table, or changes no row and no list.
pub fn add(
    alloc: Global,
    store: &mut Store,
    standing: &mut Standing,
    table: usize,
    key: i64,
    number: i64,
) -> Result<(), Refusal>
    requires case { IsCase store.old standing.old }
    requires there { table < length store.old.tables }
    ensures case { IsCase store.new standing.new }
    ensures marks { (commands changes : ℕ) → IsMark store.old standing.old commands changes → IsMark store.new standing.new commands changes }
{
    let edit = addition(alloc, store, table, key, number)?;
    make_edit(alloc, store, standing, table, edit)
}

/// Deletes the row of a key from a table, or changes no row and no list.
pub fn remove(
    alloc: Global,
    store: &mut Store,
    standing: &mut Standing,
    table: usize,
    key: i64,
) -> Result<(), Refusal>
    requires case { IsCase store.old standing.old }
    requires there { table < length store.old.tables }
    ensures case { IsCase store.new standing.new }
    ensures marks { (commands changes : ℕ) → IsMark store.old standing.old commands changes → IsMark store.new standing.new commands changes }
{
    let edit = removal(store, table, key)?;
    make_edit(alloc, store, standing, table, edit)
}

/// Changes the number of the row of a key, or changes no row and no list.
pub fn renumber(
    alloc: Global,
    store: &mut Store,
    standing: &mut Standing,
    table: usize,
    key: i64,
    number: i64,
) -> Result<(), Refusal>
    requires case { IsCase store.old standing.old }
    requires there { table < length store.old.tables }
    ensures case { IsCase store.new standing.new }
    ensures marks { (commands changes : ℕ) → IsMark store.old standing.old commands changes → IsMark store.new standing.new commands changes }
{
    let edit = replacement(alloc, store, table, key, number)?;
    make_edit(alloc, store, standing, table, edit)
}

/// Makes an edit of a table and the changes of the lists, or neither.
fn make_edit(
    alloc: Global,
    store: &mut Store,
    standing: &mut Standing,
    table: usize,
    edit: Edit,
) -> Result<(), Refusal>
    requires case { IsCase store.old standing.old }
    requires there { table < length store.old.tables }
    requires fit { AreFitAt store.old table (edit ∷ []) }
    ensures case { IsCase store.new standing.new }
    ensures marks { (commands changes : ℕ) → IsMark store.old standing.old commands changes → IsMark store.new standing.new commands changes }
{
    let edits = [edit];
    let prepared = prepare(alloc, store, standing, table, &edits);
    let mark = store.mark();
    // The refusal of the rows takes precedence over that of the lists.
    if let Err(refusal) = store.make(alloc, table, &edits).and(prepared) {
        store.revert(mark);
        standing.discard();
        return Err(refusal);
    }
    standing.apply_prepared();
    Ok(())
}

/// Prepares the changes of the lists for the insert of a row, and drops them. If this is refused, nothing is prepared, so applying what is
/// prepared has no effect.
pub fn prepare_and_drop(
    alloc: Global,
    store: &mut Store,
    standing: &mut Standing,
    table: usize,
    key: i64,
    number: i64,
) -> Result<(), Refusal>
    requires case { IsCase store.old standing.old }
    requires there { table < length store.old.tables }
    ensures case { IsCase store.new standing.new }
    ensures marks { (commands changes : ℕ) → IsMark store.old standing.old commands changes → IsMark store.new standing.new commands changes }
{
    let edit = addition(alloc, store, table, key, number)?;
    drop_prepared(alloc, store, standing, table, edit)
}

/// Prepares the changes of the lists for an edit of a table, and drops them. If this is refused, applies what is prepared, which is
/// nothing.
fn drop_prepared(
    alloc: Global,
    store: &Store,
    standing: &mut Standing,
    table: usize,
    edit: Edit,
) -> Result<(), Refusal>
    requires plain { ArePlain store.now }
    requires typed { HaveNumbers (before_at store.now) }
    requires fit { AreFitAt store.now table (edit ∷ []) }
    requires served { AreServed store.now standing.old.queries }
    requires whole { All IsWhole standing.old.queries }
    requires fits { FitNow (before_at store.now) standing.old }
    requires ready { standing.old.prepared ≡ [] }
    ensures ready { standing.new.prepared ≡ [] }
    ensures queries { standing.new.queries ≡ standing.old.queries }
    ensures older { length standing.old.log ≤ length standing.new.log }
    ensures counts { (mark : ℕ) → mark ≤ length standing.old.log → (list : ℕ) (row : List Val)
        → count_at mark list row standing.new ≡ count_at mark list row standing.old }
    ensures now { (list : ℕ) (row : List Val) → count_now standing.new list row ≡ count_now standing.old list row }
{
    if let Err(refusal) = prepare(alloc, store, standing, table, &[edit]) {
        standing.apply_prepared();
        return Err(refusal);
    }
    standing.discard();
    Ok(())
}

/// Prepares the changes of the lists for edits of a table.
fn prepare(
    alloc: Global,
    store: &Store,
    standing: &mut Standing,
    table: usize,
    edits: &[Edit],
) -> Result<(), Refusal>
    requires plain { ArePlain store.now }
    requires typed { HaveNumbers (before_at store.now) }
    requires fit { AreFitAt store.now table edits.now }
    requires served { AreServed store.now standing.old.queries }
    requires whole { All IsWhole standing.old.queries }
    requires fits { FitNow (before_at store.now) standing.old }
    requires ready { standing.old.prepared ≡ [] }
    ensures ok { OnOk result (FitPrepared (rows_edited store.now table edits.now) standing.new) }
    ensures err { OnErr result (standing.new.prepared ≡ []) }
    ensures counts { (list : ℕ) (row : List Val)
        → count_in row (entries_at standing.new.bags list) ≡ count_in row (entries_at standing.old.bags list) }
    ensures queries { standing.new.queries ≡ standing.old.queries }
    ensures log { standing.new.log ≡ standing.old.log }
{
    let mut view = store.view();
    let changes = [TableChange { table, edits }];
    standing.prepare(alloc, &mut view, &changes)
}

/// Returns the changes of the counts of a query's rows by the insert of a row into a table, which is not made.
pub fn changes_of_addition(
    alloc: Global,
    store: &mut Store,
    query: &BoundQuery,
    tables: &[usize],
    table: usize,
    key: i64,
    number: i64,
) -> Result<Vec<Signed>, AllocError>
    requires there { table < length store.old.tables }
    requires plain { ArePlain store.old }
    requires tables { All (λ place. place < length store.old.tables) tables.now }
    requires few { length tables.now ≤ 4 }
    requires whole { length tables.now ≡ length query.now.from }
    requires unshifted { is_unshifted query.now ≡ true }
    ensures staged { HasStaged table store.old store.new }
{
    let edit = addition(alloc, store, table, key, number)?;
    changes_of(alloc, store, query, tables, table, &[edit])
}

/// Returns the changes of the counts of a query's rows by edits of a table.
fn changes_of(
    alloc: Global,
    store: &Store,
    query: &BoundQuery,
    tables: &[usize],
    table: usize,
    edits: &[Edit],
) -> Result<Vec<Signed>, AllocError>
    requires fit { AreFitAt store.now table edits.now }
    requires there { All (λ place. place < length store.now.tables) tables.now }
    requires few { length tables.now ≤ 4 }
    requires whole { length tables.now ≡ length query.now.from }
    requires unshifted { is_unshifted query.now ≡ true }
{
    let mut view = store.view();
    let changes = [TableChange { table, edits }];
    delta(alloc, &mut view, query, tables, &changes)
}

/// Undoes the changes since a mark.
pub fn go_back(store: &mut Store, standing: &mut Standing, commands: usize, changes: usize)
    requires case { IsCase store.old standing.old }
    requires mark { IsMark store.old standing.old commands changes }
    ensures case { IsCase store.new standing.new }
    ensures marks { (c h : ℕ) → c ≤ commands → h ≤ changes → IsMark store.old standing.old c h → IsMark store.new standing.new c h }
{
    store.revert(commands);
    standing.revert(changes);
}

/// Commits the changes.
pub fn settle(store: &mut Store, standing: &mut Standing)
    requires case { IsCase store.old standing.old }
    ensures case { IsCase store.new standing.new }
    ensures start { IsMark store.new standing.new 0 0 }
    ensures settled { store.new.stored.log ≡ [] }
    ensures log { standing.new.log ≡ [] }
    ensures rows { before_at store.new ≡ before_at store.old }
{
    store.settle();
    standing.settle();
    let _now = store.mark();
}

/// Appends a standing query with its rows over the tables of `source`. Requires that its rows over the tables of `store` are the same. All
/// its fields are of integers, as all columns are.
pub fn watch(
    alloc: Global,
    store: &Store,
    standing: &mut Standing,
    source: &Store,
    query: BoundQuery,
    tables: Vec<usize>,
) -> Result<(), Refusal>
    requires case { IsCase store.now standing.old }
    requires settled { store.now.stored.log ≡ [] }
    requires log { standing.old.log ≡ [] }
    requires two { length source.now.tables ≡ 2 }
    requires there { All (λ table. table < 2) tables.items }
    requires few { length tables.items ≤ 4 }
    requires whole { length tables.items ≡ length query.from }
    requires unshifted { is_unshifted query ≡ true }
    requires rows { bag_of query (map (rows_at source.now.tables) tables.items) ≡ bag_of query (map (rows_at store.now.tables) tables.items) }
    ensures case { IsCase store.now standing.new }
    ensures start { IsMark store.now standing.new 0 0 }
{
    let _lists = standing.len();
    let _now = store.mark();
    let types = vec![in alloc; ColType::Int; query.fields.as_slice().len()]?;
    standing.watch(alloc, source, query, tables, types)?;
    Ok(())
}

/// Returns whether the first of two tables has no rows.
pub fn is_first_empty(store: &Store) -> bool
    requires { length store.now.tables ≡ 2 }
    ensures { result ≡ true → rows_at store.now.tables 0 ≡ [] }
{
    store.view().len_of(0) == 0
}

/// Returns whether each of the places is 0 or 1.
pub fn are_there(tables: &[usize]) -> bool
    ensures { result ≡ true → All (λ table. table < 2) tables.now }
{
    tables.iter().all(|table| *table < 2)
}

/// Returns whether no atom of a query adds a number to a value.
pub fn is_unshifted(query: &BoundQuery) -> bool
    ensures { result ≡ is_unshifted query.now }
{
    query
        .atoms
        .as_slice()
        .iter()
        .all(|atom| adds_none(&atom.right))
}

/// Returns whether an operand adds no number to a value.
fn adds_none(operand: &Operand<FieldPlace>) -> bool
    ensures { result ≡ adds_none operand.now }
{
    !matches!(operand, Operand::Shifted(..))
}
