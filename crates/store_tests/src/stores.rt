//! Tests for what no clause states: that ample memory is never refused. Also two tables with real rows, one of which may refer to the
//! other.
ghost use Rattle.std.specs.Prelude.{◌≡◌, ℕ, ◌<◌, ◌≤◌, [], ◌∷◌, length, All, Contains, IfOk, IfSome, OnOk};
ghost use Rattle.mm_base.specs.Columns.{IsFrom};
ghost use Rattle.mm_indexed.specs.Kept.{StoredRows};
ghost use Rattle.mm_store.specs.Marks.{IsMark, mark_of};
ghost use Rattle.mm_store.specs.Staging.{HasStaged};
ghost use Rattle.mm_store.specs.Tables.{IsAt};
ghost use Rattle.mm_partition.specs.Places.{IsLive};
ghost use Rattle.mm_schema.specs.declared.reference.Reference.{Reference as Link};
ghost use Rattle.store_tests.specs.RowEdits.{AreReadyAt};
ghost use Rattle.store_tests.specs.SampleStore.{ArePlain};

use crate::assertions::{assert_same, assert_that};
use crate::row_edits::{insertions, replacement};
use mm_partition::RowView;
use mm_schema::{IndexKind, Reference};
use mm_store::{IndexRef, Store};
use mm_tables::Edit;
use mm_value::{ColType, Refusal, RowRef, ValueRef};
use std::alloc::{AllocError, Global};
use std::marker::Model;
use std::process::Abort;
use std::test::Fail;

/// The types of the two columns of each table.
pub const TYPES: &[ColType] = &[ColType::Int, ColType::Int];

/// Appends an index on the second column of a table.
pub fn add_index(
    store: &mut Store,
    alloc: Global,
    table: usize,
    kind: IndexKind,
) -> Result<(), AllocError>
    requires there { table < length store.old.tables }
    requires plain { ArePlain store.old }
    ensures count { length store.new.tables ≡ length store.old.tables }
    ensures plain { ArePlain store.new }
    ensures links { store.new.links ≡ store.old.links }
    ensures log { store.new.stored.log ≡ store.old.stored.log }
{
    store.add_index(alloc, table, 1, kind)?;
    Ok(())
}

/// Appends two tables of two columns each to none, with a TREE and a HASH index on the second column of both, and these references from the
/// second table.
fn add_both(store: &mut Store, alloc: Global, references: &[Reference]) -> Result<(), AllocError>
    requires none { store.old.tables ≡ [] }
    requires links { store.old.links ≡ [] }
    requires log { store.old.stored.log ≡ [] }
    requires references { All (IsFrom 1 2) references.now }
    ensures two { OnOk result (length store.new.tables ≡ 2) }
    ensures plain { OnOk result (ArePlain store.new) }
    ensures links { OnOk result (store.new.links ≡ references.now) }
    ensures log { OnOk result (store.new.stored.log ≡ []) }
{
    store.add_table(alloc, TYPES, 0, &[])?;
    store.add_table(alloc, TYPES, 0, references)?;
    add_index(store, alloc, 0, IndexKind::Tree)?;
    add_index(store, alloc, 0, IndexKind::Hash)?;
    add_index(store, alloc, 1, IndexKind::Tree)?;
    add_index(store, alloc, 1, IndexKind::Hash)
}

/// Returns two tables of two columns each, without rows, with a TREE and a HASH index on the second column of both, and these references
/// from the second table.
fn sample(alloc: Global, references: &[Reference]) -> Result<Store, AllocError>
    requires { All (IsFrom 1 2) references.now }
    ensures two { IfOk result (λ store. length store.tables ≡ 2) }
    ensures plain { IfOk result ArePlain }
    ensures links { IfOk result (λ store. store.links ≡ references.now) }
    ensures log { IfOk result (λ store. store.stored.log ≡ []) }
{
    let mut store = Store::new(alloc);
    add_both(&mut store, alloc, references)?;
    Ok(store)
}

/// Returns the tables of `sample`. Tries again once if an allocation fails.
fn sample_again(alloc: Global, references: &[Reference]) -> Result<Store, AllocError>
    requires { All (IsFrom 1 2) references.now }
    ensures two { IfOk result (λ store. length store.tables ≡ 2) }
    ensures plain { IfOk result ArePlain }
    ensures links { IfOk result (λ store. store.links ≡ references.now) }
    ensures log { IfOk result (λ store. store.stored.log ≡ []) }
{
    match sample(alloc, references) {
        Ok(store) => Ok(store),
        Err(_) => sample(alloc, references),
    }
}

/// Returns rows with these keys, each with its last decimal digit as its value.
fn rows_of(alloc: Global, keys: &[i64]) -> Result<Vec<(i64, i64)>, AllocError> {
    let mut rows = Vec::with_capacity(alloc, keys.len())?;
    for key in keys {
        rows.push((*key, *key % 10))?;
    }
    Ok(rows)
}

/// Returns the integer of a row in a column, if it has one there.
pub fn number_of(row: RowView<'_>, column: usize) -> Option<i64> {
    match row.get(column) {
        Some(ValueRef::Int(number)) => Some(number),
        _ => None,
    }
}

/// Returns the integer of the row of a reference in a column, if it has one there.
fn number_at(store: &Store, table: usize, at: RowRef, column: usize) -> Option<i64>
    requires there { table < length store.now.tables }
    requires live { (stored : StoredRows) → IsAt store.now table stored → IsLive stored.places at }
{
    let mut view = store.view();
    number_of(view.row(table, at), column)
}

/// Returns the reference of the row with a key, found by a walk along the keys.
pub fn at_key(store: &Store, table: usize, key: i64) -> Option<RowRef>
    requires { table < length store.now.tables }
    ensures { IfSome result (λ at. (stored : StoredRows) → IsAt store.now table stored → IsLive stored.places at) }
{
    let view = store.view();
    for at in view.walk(table, IndexRef::Key) {
        if number_at(store, table, at, 0) == Some(key) {
            return Some(at);
        }
    }
    None
}

/// A change of rows of a table.
#[derive(Clone, Copy)]
pub enum Step<'a> {
    /// Inserts a row for each key.
    Put(&'a [i64]),
    /// Changes the value of the row with a key.
    Turn(i64, i64),
    /// Deletes the row with a key.
    Remove(i64),
    /// Exchanges the keys of two rows.
    Exchange(i64, i64),
}

/// A step in a table, and whether it must succeed.
type Trial<'a> = (usize, Step<'a>, bool);

/// Stages a row with a key and a value, and returns the edits that replace the row with the key by it, or `None` if there is no such row.
fn turn(
    store: &mut Store,
    alloc: Global,
    table: usize,
    key: i64,
    value: i64,
) -> Result<Option<Vec<Edit>>, AllocError>
    requires there { table < length store.old.tables }
    requires plain { ArePlain store.old }
    ensures staged { HasStaged table store.old store.new }
    ensures ready { IfOk result (λ found. IfSome found (λ edits. AreReadyAt store.new table edits.items)) }
{
    let Some(at) = at_key(store, table, key) else {
        return Ok(None);
    };
    store.reserve_rows(alloc, table, 1)?;
    let edit = replacement(store, table, at, key, value);
    Ok(Some(vec![in alloc; edit]?))
}

/// Stages rows, and returns the edits that exchange the keys of two rows, or `None` unless both rows exist.
fn exchange(
    store: &mut Store,
    alloc: Global,
    table: usize,
    one: i64,
    other: i64,
) -> Result<Option<Vec<Edit>>, AllocError>
    requires there { table < length store.old.tables }
    requires plain { ArePlain store.old }
    ensures staged { HasStaged table store.old store.new }
    ensures ready { IfOk result (λ found. IfSome found (λ edits. AreReadyAt store.new table edits.items)) }
{
    let (Some(first), Some(second)) = (at_key(store, table, one), at_key(store, table, other))
    else {
        return Ok(None);
    };
    if first == second {
        return Ok(None);
    }
    let of_one = value_at(store, table, one).unwrap_or(0);
    let of_other = value_at(store, table, other).unwrap_or(0);
    store.reserve_rows(alloc, table, 2)?;
    let of_first = replacement(store, table, first, other, of_one);
    let of_second = replacement(store, table, second, one, of_other);
    Ok(Some(vec![in alloc; of_first, of_second]?))
}

/// Stages the rows of a step in a table, and returns its edits, or `None` if there is no row with the key.
fn edits_of(
    store: &mut Store,
    alloc: Global,
    table: usize,
    step: Step,
) -> Result<Option<Vec<Edit>>, AllocError>
    requires there { table < length store.old.tables }
    requires plain { ArePlain store.old }
    ensures staged { HasStaged table store.old store.new }
    ensures ready { IfOk result (λ found. IfSome found (λ edits. AreReadyAt store.new table edits.items)) }
{
    match step {
        Step::Put(keys) => {
            let rows = rows_of(alloc, keys)?;
            let edits = insertions(store, alloc, table, rows.as_slice())?;
            Ok(Some(edits))
        }
        Step::Turn(key, value) => turn(store, alloc, table, key, value),
        Step::Remove(key) => {
            let Some(at) = at_key(store, table, key) else {
                return Ok(None);
            };
            Ok(Some(vec![in alloc; Edit::Delete(at)]?))
        }
        Step::Exchange(one, other) => exchange(store, alloc, table, one, other),
    }
}

/// Stages the rows of a step in a table and makes its edits, and returns whether it did: false if there is no row with the key. If the step
/// is refused, some of the rows may stay staged.
fn make_edits(store: &mut Store, alloc: Global, table: usize, step: Step) -> Result<bool, Refusal>
    requires there { table < length store.old.tables }
    requires plain { ArePlain store.old }
    ensures count { length store.new.tables ≡ length store.old.tables }
    ensures plain { ArePlain store.new }
    ensures links { store.new.links ≡ store.old.links }
    ensures marks { (mark : ℕ) → IsMark store.old mark → IsMark store.new mark }
{
    let Some(edits) = edits_of(store, alloc, table, step)? else {
        return Ok(false);
    };
    store.make(alloc, table, edits.as_slice())?;
    Ok(true)
}

/// Makes a step in a table, and returns whether it did: false if there is no row with the key. If the step is refused, the rows that were
/// staged for it are undone.
fn apply(store: &mut Store, alloc: Global, table: usize, step: Step) -> Result<bool, Refusal>
    requires there { table < length store.old.tables }
    requires plain { ArePlain store.old }
    ensures count { length store.new.tables ≡ length store.old.tables }
    ensures plain { ArePlain store.new }
    ensures links { store.new.links ≡ store.old.links }
    ensures marks { (mark : ℕ) → IsMark store.old mark → IsMark store.new mark }
{
    let mark = store.mark();
    match make_edits(store, alloc, table, step) {
        Err(refusal) => {
            store.revert(mark);
            Err(refusal)
        }
        done => done,
    }
}

/// Makes a step in a table, and returns whether it did: false if there is no row with the key or the step is refused.
fn try_step(store: &mut Store, alloc: Global, table: usize, step: Step) -> Result<bool, AllocError>
    requires there { table < length store.old.tables }
    requires plain { ArePlain store.old }
    ensures count { length store.new.tables ≡ length store.old.tables }
    ensures plain { ArePlain store.new }
    ensures links { store.new.links ≡ store.old.links }
    ensures marks { (mark : ℕ) → IsMark store.old mark → IsMark store.new mark }
{
    match apply(store, alloc, table, step) {
        Ok(made) => Ok(made),
        Err(Refusal::Memory) => Err(AllocError),
        Err(_) => Ok(false),
    }
}

/// Makes a step in a table as `try_step` does. Tries again once if an allocation fails.
fn make_step(store: &mut Store, alloc: Global, table: usize, one: Step) -> Result<bool, AllocError>
    requires there { table < length store.old.tables }
    requires plain { ArePlain store.old }
    ensures count { length store.new.tables ≡ length store.old.tables }
    ensures plain { ArePlain store.new }
    ensures links { store.new.links ≡ store.old.links }
    ensures marks { (mark : ℕ) → IsMark store.old mark → IsMark store.new mark }
{
    match try_step(store, alloc, table, one) {
        Ok(done) => Ok(done),
        Err(_) => try_step(store, alloc, table, one),
    }
}

/// Inserts a row for each key into a table and commits, and returns whether it did: false if that is refused.
pub fn put(store: &mut Store, alloc: Global, table: usize, keys: &[i64]) -> Result<bool, AllocError>
    requires there { table < length store.old.tables }
    requires plain { ArePlain store.old }
    ensures count { length store.new.tables ≡ length store.old.tables }
    ensures plain { ArePlain store.new }
    ensures links { store.new.links ≡ store.old.links }
    ensures log { OnOk result (store.new.stored.log ≡ []) }
{
    let done = make_step(store, alloc, table, Step::Put(keys))?;
    store.settle();
    Ok(done)
}

/// Returns whether a table has a row with a key.
fn has_key(store: &Store, table: usize, key: i64) -> bool
    requires { table < length store.now.tables }
{
    at_key(store, table, key).is_some()
}

#[test]
fn starts_empty(rt: HostRuntime) -> Result<(), Fail> {
    let store = Store::new(rt.alloc());
    assert_same(&rt, store.len(), 0);
    Ok(())
}

/// Inserts rows into two tables, and returns which are accepted. A key is taken only in its own table.
fn put_apart(store: &mut Store, alloc: Global) -> Result<[bool; 4], AllocError>
    requires two { length store.old.tables ≡ 2 }
    requires plain { ArePlain store.old }
    ensures two { length store.new.tables ≡ 2 }
    ensures links { store.new.links ≡ store.old.links }
    ensures log { OnOk result (store.new.stored.log ≡ []) }
{
    Ok([
        put(store, alloc, 0, &[1, 2, 3])?,
        put(store, alloc, 1, &[3, 14])?,
        put(store, alloc, 1, &[5, 14])?,
        put(store, alloc, 0, &[14])?,
    ])
}

/// Drops the first of two tables. The second moves forward, with its rows.
fn drop_first(rt: &impl Abort, store: &mut Store)
    requires two { length store.old.tables ≡ 2 }
    requires none { store.old.links ≡ [] }
    requires log { store.old.stored.log ≡ [] }
{
    store.drop_table(0);
    assert_same(rt, [store.len(), store.view().len_of(0)], [1, 2]);
    assert_same(
        rt,
        [has_key(store, 0, 14), has_key(store, 0, 1)],
        [true, false],
    );
}

/// Returns the numbers of rows of two tables.
fn lengths(store: &Store) -> [usize; 2]
    requires { length store.now.tables ≡ 2 }
{
    let view = store.view();
    [view.len_of(0), view.len_of(1)]
}

/// Inserts rows into two tables, and drops the first.
fn keep_apart(rt: &(impl Abort + AllocGlobal), store: &mut Store) -> Result<(), Fail>
    requires two { length store.old.tables ≡ 2 }
    requires none { store.old.links ≡ [] }
    requires plain { ArePlain store.old }
{
    assert_same(rt, store.len(), 2);
    assert_same(rt, put_apart(store, rt.alloc())?, [true, true, false, true]);
    assert_same(rt, lengths(store), [4, 2]);
    assert_that(rt, !has_key(store, 1, 5));
    drop_first(rt, store);
    Ok(())
}

#[test]
fn keeps_tables_apart(rt: HostRuntime) -> Result<(), Fail> {
    let mut store = sample_again(rt.alloc(), &[])?;
    keep_apart(&rt, &mut store)
}

/// The second column of the second table refers to the first table.
const LAST_DIGIT: Reference = Reference {
    from: 1,
    column: 1,
    to: 0,
};

/// Returns the value of the row with a key, or `None` if no row has the key.
pub fn value_at(store: &Store, table: usize, key: i64) -> Option<i64>
    requires { table < length store.now.tables }
{
    let at = at_key(store, table, key)?;
    number_at(store, table, at, 1)
}

/// Returns the row that the row with a key of the second table refers to.
fn target_of(store: &Store, key: i64) -> Option<RowRef>
    requires two { length store.now.tables ≡ 2 }
    requires link { Contains store.now.links (record { from = 1; column = 1; to = 0 }) }
{
    let at = at_key(store, 1, key)?;
    Some(store.view().follow(1, 1, at))
}

/// Returns the number of rows of a table that have a value in the second column, by its TREE index.
fn count_by_tree(
    store: &Store,
    alloc: Global,
    table: usize,
    value: i64,
) -> Result<usize, AllocError>
    requires { table < length store.now.tables }
{
    let view = store.view();
    let Some(index) = view.tree_on(table, 1) else {
        return Ok(0);
    };
    let value = ValueRef::Int(value);
    let mut found = Vec::new(alloc);
    view.range(alloc, table, index, Some(value), Some(value), &mut found)?;
    Ok(found.len())
}

/// Returns the number of rows of a table that have a value in the second column, by its HASH index.
fn count_by_hash(
    store: &Store,
    alloc: Global,
    table: usize,
    value: i64,
) -> Result<usize, AllocError>
    requires { table < length store.now.tables }
{
    let view = store.view();
    let Some(index) = view.hash_on(table, 1) else {
        return Ok(0);
    };
    let value = ValueRef::Int(value);
    let mut found = Vec::new(alloc);
    view.matches(alloc, table, index, value, &mut found)?;
    Ok(found.len())
}

/// Returns the number of rows of a table that have a value in a column, by the first index on the column, if it has one.
fn count_by_first(
    store: &Store,
    alloc: Global,
    table: usize,
    column: usize,
    value: i64,
) -> Result<Option<usize>, AllocError>
    requires { table < length store.now.tables }
{
    let view = store.view();
    let Some(index) = view.index_on(table, column) else {
        return Ok(None);
    };
    let mut found = Vec::new(alloc);
    view.matches(alloc, table, index, ValueRef::Int(value), &mut found)?;
    Ok(Some(found.len()))
}

/// Returns the number of keys of a table between two, both included.
fn count_between(
    store: &Store,
    alloc: Global,
    table: usize,
    low: i64,
    high: i64,
) -> Result<usize, AllocError>
    requires { table < length store.now.tables }
{
    let view = store.view();
    let (low, high) = (ValueRef::Int(low), ValueRef::Int(high));
    let mut found = Vec::new(alloc);
    view.range(
        alloc,
        table,
        IndexRef::Key,
        Some(low),
        Some(high),
        &mut found,
    )?;
    Ok(found.len())
}

/// Returns the number of rows of a table, and the first row of a walk along its keys.
fn count_and_first(store: &Store, table: usize) -> (usize, Option<RowRef>)
    requires { table < length store.now.tables }
{
    let view = store.view();
    let mut walk = view.walk(table, IndexRef::Key);
    (view.len_of(table), walk.next())
}

/// The rows with a key in two tables, the value of each, and the row that the one of the second table refers to.
#[derive(PartialEq, Clone, Copy)]
struct AtKey {
    first: Option<RowRef>,
    second: Option<RowRef>,
    values: (Option<i64>, Option<i64>),
    target: Option<RowRef>,
}

fn look_at_key(store: &Store, key: i64) -> AtKey
    requires two { length store.now.tables ≡ 2 }
    requires link { Contains store.now.links (record { from = 1; column = 1; to = 0 }) }
{
    AtKey {
        first: at_key(store, 0, key),
        second: at_key(store, 1, key),
        values: (value_at(store, 0, key), value_at(store, 1, key)),
        target: target_of(store, key),
    }
}

/// The contents of two tables for each key below 30, and how many rows of the second have each digit, by its TREE and its HASH index.
#[derive(PartialEq, Drop)]
struct Shown {
    rows: Vec<AtKey>,
    counts: Vec<(usize, usize)>,
}

fn try_look(store: &Store, alloc: Global) -> Result<Shown, AllocError>
    requires two { length store.now.tables ≡ 2 }
    requires link { Contains store.now.links (record { from = 1; column = 1; to = 0 }) }
{
    let mut rows = Vec::new(alloc);
    for key in 0..30 {
        rows.push(look_at_key(store, key))?;
    }
    let mut counts = Vec::new(alloc);
    for digit in 0..10 {
        let by_tree = count_by_tree(store, alloc, 1, digit)?;
        counts.push((by_tree, count_by_hash(store, alloc, 1, digit)?))?;
    }
    Ok(Shown { rows, counts })
}

/// Two tables, the second of which refers to the first, and a mark to which they can be reverted.
#[derive(Drop)]
pub struct Case {
    pub store: Store,
    mark: usize,
}

impl Model for Case {
    ghost use Rattle.store_tests.specs.SampleStore.{IsCase};
    ghost use Rattle.mm_store.specs.Tables.{Tables};

    ghost Value = { Tables };

    ghost view = { λ c. c.store };

    ghost invariant = { λ c. IsCase c.store c.mark };
}

impl Case {
    /// Returns a case with rows with these keys in the two tables.
    pub fn new(alloc: Global, first: &[i64], second: &[i64]) -> Result<Case, AllocError> {
        let mut store = sample_again(alloc, &[LAST_DIGIT])?;
        put(&mut store, alloc, 0, first)?;
        put(&mut store, alloc, 1, second)?;
        let mark = store.mark();
        Ok(Case { store, mark })
    }

    /// Makes a step in a table, and returns whether it did: false if there is no such table or the step is refused.
    pub fn step(&mut self, alloc: Global, table: usize, step: Step) -> Result<bool, AllocError> {
        if table >= self.store.len() {
            return Ok(false);
        }
        make_step(&mut self.store, alloc, table, step)
    }

    /// Makes a step of the second table, and returns whether it did: false if there is no row with the key. If the step is refused, the
    /// rows that were staged for it are undone.
    pub fn apply(&mut self, alloc: Global, step: Step) -> Result<bool, Refusal> {
        apply(&mut self.store, alloc, 1, step)
    }

    /// Tries steps one after another, each in a table, and returns whether exactly those succeed that must.
    fn goes_as(&mut self, alloc: Global, trials: &[Trial]) -> Result<bool, AllocError> {
        let mut all = true;
        for (table, step, made) in trials {
            all &= self.step(alloc, *table, *step)? == *made;
        }
        Ok(all)
    }

    /// Tries steps as `goes_as` does and undoes them, and returns whether also everything is then as before.
    fn comes_back(&mut self, alloc: Global, trials: &[Trial]) -> Result<bool, AllocError> {
        let shown = self.look(alloc)?;
        self.set_mark();
        let told = self.goes_as(alloc, trials)?;
        self.go_back();
        Ok(told && self.shows(alloc, &shown)?)
    }

    /// Tries steps of a transaction and then more of them, undoes the latter and then the former, and returns whether everything is as
    /// before each time.
    fn comes_back_twice(
        &mut self,
        alloc: Global,
        trials: &[Trial],
        more: &[Trial],
    ) -> Result<bool, AllocError> {
        let shown = self.look(alloc)?;
        let told = self.goes_as(alloc, trials)? && self.comes_back(alloc, more)?;
        self.start_again();
        Ok(told && self.shows(alloc, &shown)?)
    }

    /// Sets the mark, and returns the length of the log.
    pub fn set_mark(&mut self) -> usize {
        self.mark = self.store.mark();
        self.mark
    }

    /// Undoes the changes since the mark.
    pub fn go_back(&mut self) {
        self.store.revert(self.mark);
    }

    /// Undoes the whole transaction.
    fn start_again(&mut self) {
        self.mark = 0;
        self.store.revert(0);
    }

    /// Ends the transaction, and keeps its rows.
    fn finish(&mut self) {
        self.store.settle();
        self.mark = self.store.mark();
    }

    /// Returns the row with a key of the first table.
    pub fn first(&self, key: i64) -> Option<RowRef> {
        at_key(&self.store, 0, key)
    }

    /// Returns the row with a key of the second table.
    pub fn second(&self, key: i64) -> Option<RowRef> {
        at_key(&self.store, 1, key)
    }

    /// Returns the row that the one with a key of the second table refers to.
    pub fn target(&self, key: i64) -> Option<RowRef> {
        target_of(&self.store, key)
    }

    /// Returns whether references of the second table are those of the rows with these keys, in this order.
    pub fn are_of(&self, refs: &[RowRef], keys: &[i64]) -> bool {
        for (at, key) in refs.iter().zip(keys) {
            if self.second(*key) != Some(*at) {
                return false;
            }
        }
        refs.len() == keys.len()
    }

    /// Returns whether the row with a key of the second table refers to that with a key of the first, and both exist.
    fn refers(&self, key: i64, to: i64) -> bool {
        let target = self.target(key);
        target.is_some() && target == self.first(to)
    }

    /// Returns the contents of the tables.
    fn look(&self, alloc: Global) -> Result<Shown, AllocError> {
        match try_look(&self.store, alloc) {
            Ok(shown) => Ok(shown),
            Err(_) => try_look(&self.store, alloc),
        }
    }

    /// Returns the number of rows of the second table that have a value in a column, by the first index on the column, if it has one.
    fn count(&self, alloc: Global, column: usize, value: i64) -> Result<Option<usize>, AllocError> {
        count_by_first(&self.store, alloc, 1, column, value)
    }

    /// Returns whether the tables have the same contents as before.
    fn shows(&self, alloc: Global, shown: &Shown) -> Result<bool, AllocError> {
        let now = self.look(alloc)?;
        Ok(now == *shown)
    }

    /// Inserts a row for each key below a number, each by a command of its own. All of them refer first to the row with key 0, and then to
    /// that with key 1.
    fn turn_many(&mut self, alloc: Global, count: u32) -> Result<bool, AllocError> {
        let mut all = true;
        for n in 0..count {
            let key = 10 * i64::from(n);
            all &= self.step(alloc, 1, Step::Put(&[key]))?;
            all &= self.step(alloc, 1, Step::Turn(key, 1))?;
        }
        Ok(all)
    }

    /// Makes the changes of `turn_many` and undoes them, and returns whether everything is then as before.
    fn many_come_back(&mut self, alloc: Global, count: u32) -> Result<bool, AllocError> {
        let shown = self.look(alloc)?;
        let all = self.turn_many(alloc, count)?;
        self.start_again();
        Ok(all && self.shows(alloc, &shown)?)
    }
}

/// A row needs its target.
const REFERRING: [Trial; 2] = [
    (1, Step::Put(&[12]), false),
    (1, Step::Put(&[13, 23]), true),
];

/// A target stays until the last row that refers to it is deleted.
const LEAVING: [Trial; 5] = [
    (0, Step::Remove(3), false),
    (1, Step::Remove(13), true),
    (0, Step::Remove(3), false),
    (1, Step::Remove(23), true),
    (0, Step::Remove(3), true),
];

/// Inserts rows that refer to others, and deletes both.
fn keep_targets(rt: &(impl Abort + AllocGlobal), case: &mut Case) -> Result<(), Fail> {
    let alloc = rt.alloc();
    assert_that(rt, case.goes_as(alloc, &REFERRING)?);
    assert_that(rt, case.refers(13, 3));
    assert_that(rt, case.goes_as(alloc, &LEAVING)?);
    Ok(())
}

#[test]
fn keeps_targets_of_references(rt: HostRuntime) -> Result<(), Fail> {
    let mut case = Case::new(rt.alloc(), &[1, 3], &[])?;
    keep_targets(&rt, &mut case)
}

/// Columns, values, and the number of rows with the value in the column, `None` if the column has no index.
const COUNTS: [(usize, i64, Option<usize>); 4] = [
    (0, 22, Some(1)),
    (0, 23, Some(0)),
    (1, 2, Some(2)),
    (2, 2, None),
];

/// Counts the rows of the second table with a value in a column, those between two keys, and all, and finds the first.
fn look_up(rt: &(impl Abort + AllocGlobal), case: &Case) -> Result<(), Fail> {
    let alloc = rt.alloc();
    for (column, value, count) in &COUNTS {
        assert_same(rt, case.count(alloc, *column, *value)?, *count);
    }
    assert_same(rt, count_between(&case.store, alloc, 1, 13, 30)?, 2);
    assert_same(rt, count_and_first(&case.store, 1), (3, case.second(12)));
    Ok(())
}

#[test]
fn looks_values_up(rt: HostRuntime) -> Result<(), Fail> {
    let case = Case::new(rt.alloc(), &[2, 3], &[12, 13, 22])?;
    look_up(&rt, &case)
}

/// A new target, and a row that refers to it.
const FIRST_STEPS: [Trial; 2] = [(0, Step::Put(&[4]), true), (1, Step::Turn(11, 4), true)];

/// The row with key 1 is no longer referred to, that with key 2 once its last referrer is deleted.
const MORE_STEPS: [Trial; 7] = [
    (0, Step::Remove(1), true),
    (0, Step::Remove(2), false),
    (1, Step::Remove(12), true),
    (0, Step::Remove(2), true),
    (1, Step::Put(&[14, 24]), true),
    (1, Step::Turn(23, 4), true),
    (1, Step::Turn(23, 5), false),
];

/// Makes steps and more of them, and undoes all.
fn go_back_twice(rt: &(impl Abort + AllocGlobal), case: &mut Case) -> Result<(), Fail> {
    assert_that(
        rt,
        case.comes_back_twice(rt.alloc(), &FIRST_STEPS, &MORE_STEPS)?,
    );
    assert_same(rt, case.store.mark(), 0);
    Ok(())
}

#[test]
fn goes_back_to_marks(rt: HostRuntime) -> Result<(), Fail> {
    let mut case = Case::new(rt.alloc(), &[1, 2, 3], &[11, 12, 23])?;
    go_back_twice(&rt, &mut case)
}

/// Makes steps, undoes them, makes and commits them again, and checks a target.
fn make_again(rt: &(impl Abort + AllocGlobal), case: &mut Case) -> Result<(), Fail> {
    let alloc = rt.alloc();
    assert_that(rt, case.comes_back(alloc, &FIRST_STEPS)?);
    assert_that(rt, case.goes_as(alloc, &FIRST_STEPS)?);
    case.finish();
    assert_that(rt, case.refers(11, 4));
    Ok(())
}

#[test]
fn makes_again_what_was_taken_back(rt: HostRuntime) -> Result<(), Fail> {
    let mut case = Case::new(rt.alloc(), &[1, 2, 3], &[11, 12, 23])?;
    make_again(&rt, &mut case)
}

/// A row is deleted, and another is inserted after it.
const REPLACING: [Trial; 2] = [(1, Step::Remove(12), true), (1, Step::Put(&[22]), true)];

/// Deletes a row, inserts one after it, and one more after the commit.
fn give_out_again(rt: &(impl Abort + AllocGlobal), case: &mut Case) -> Result<(), Fail> {
    let alloc = rt.alloc();
    let place = case.second(12);

    // The slot of a hidden row is not reused before the commit.
    assert_that(rt, case.goes_as(alloc, &REPLACING)?);
    assert_that(rt, case.second(22) != place);
    case.finish();
    assert_that(rt, case.step(alloc, 1, Step::Put(&[13]))?);
    assert_same(rt, case.second(13), place);
    Ok(())
}

#[test]
fn gives_places_out_again(rt: HostRuntime) -> Result<(), Fail> {
    let mut case = Case::new(rt.alloc(), &[2, 3], &[12])?;
    give_out_again(&rt, &mut case)
}

/// No row refers to the targets any more.
const FREED: [Trial; 2] = [(0, Step::Remove(0), true), (0, Step::Remove(1), true)];

/// Makes many changes and undoes them, and deletes the targets.
fn take_many_back(rt: &(impl Abort + AllocGlobal), case: &mut Case) -> Result<(), Fail> {
    let alloc = rt.alloc();
    assert_that(rt, case.many_come_back(alloc, 2000)?);
    assert_that(rt, case.goes_as(alloc, &FREED)?);
    Ok(())
}

#[test]
fn takes_many_changes_back(rt: HostRuntime) -> Result<(), Fail> {
    let mut case = Case::new(rt.alloc(), &[0, 1], &[])?;
    take_many_back(&rt, &mut case)
}

/// Pairs of rows exchange their keys. One of the rows is inserted in the same transaction.
const EXCHANGES: [Trial; 4] = [
    (1, Step::Exchange(13, 21), true),
    (1, Step::Put(&[32]), true),
    (1, Step::Exchange(32, 13), true),
    (1, Step::Exchange(21, 32), true),
];

/// The values then: each row kept its own.
const EXCHANGED: [(i64, Option<i64>); 3] = [(13, Some(2)), (21, Some(1)), (32, Some(3))];

/// Exchanges keys, undoes this, and exchanges them again.
fn exchange_keys(rt: &(impl Abort + AllocGlobal), case: &mut Case) -> Result<(), Fail> {
    let alloc = rt.alloc();
    assert_that(rt, case.comes_back(alloc, &EXCHANGES)?);
    assert_that(rt, case.goes_as(alloc, &EXCHANGES)?);
    for (key, value) in &EXCHANGED {
        assert_same(rt, value_at(&case.store, 1, *key), *value);
    }
    assert_that(
        rt,
        case.refers(13, 2) && case.refers(21, 1) && case.refers(32, 3),
    );
    Ok(())
}

#[test]
fn exchanges_keys_of_rows(rt: HostRuntime) -> Result<(), Fail> {
    let mut case = Case::new(rt.alloc(), &[1, 2, 3], &[13, 21])?;
    exchange_keys(&rt, &mut case)
}

/// Two new rows with one key, a new row with the key of an old one, no row, and a row with a new key.
const DUPLICATES: [Trial; 4] = [
    (1, Step::Put(&[31, 23, 31]), false),
    (1, Step::Put(&[31, 21]), false),
    (1, Step::Put(&[]), true),
    (1, Step::Put(&[31]), true),
];

/// Inserts rows two of which would have one key, and others.
fn refuse_duplicates(rt: &(impl Abort + AllocGlobal), case: &mut Case) -> Result<(), Fail> {
    assert_that(rt, case.goes_as(rt.alloc(), &DUPLICATES)?);
    assert_same(rt, lengths(&case.store), [3, 3]);
    Ok(())
}

#[test]
fn refuses_duplicates(rt: HostRuntime) -> Result<(), Fail> {
    let mut case = Case::new(rt.alloc(), &[1, 2, 3], &[13, 21])?;
    refuse_duplicates(&rt, &mut case)
}

/// Returns a thousand keys in an order that looks random: the multiples of 619 modulo the prime 1,009 cover all numbers.
fn shuffled_keys(alloc: Global) -> Result<Vec<i64>, AllocError> {
    let mut keys = Vec::new(alloc);
    for k in 0..1000u32 {
        keys.push(i64::from(k * 619 % 1009))?;
    }
    Ok(keys)
}

/// Inserts a thousand rows by one command, and deletes each by a command of its own.
fn come_and_go(rt: &(impl Abort + AllocGlobal), case: &mut Case) -> Result<(), Fail> {
    let alloc = rt.alloc();
    let keys = shuffled_keys(alloc)?;
    assert_that(rt, case.step(alloc, 1, Step::Put(keys.as_slice()))?);
    case.finish();
    for key in &keys {
        assert_same(rt, value_at(&case.store, 1, *key), Some(*key % 10));
        assert_that(rt, case.step(alloc, 1, Step::Remove(*key))?);
    }
    assert_same(rt, lengths(&case.store), [10, 0]);
    Ok(())
}

#[test]
fn finds_each_of_many_rows(rt: HostRuntime) -> Result<(), Fail> {
    let digits = [0, 1, 2, 3, 4, 5, 6, 7, 8, 9];
    let mut case = Case::new(rt.alloc(), &digits, &[])?;
    come_and_go(&rt, &mut case)
}
