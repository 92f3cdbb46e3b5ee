//! Two tables with the lists of standing queries over them.
ghost use Rattle.std.specs.Prelude.{◌≡◌, ◌<◌, ◌≤◌, All, [], length, true, OnOk};
ghost use Rattle.mm_store.specs.Tables.{rows_at};
ghost use Rattle.standing_tests.specs.Cases.{is_unshifted};

use crate::samples::are_shown;
use crate::steps::{
    add, are_there, changes_of_addition, go_back, is_first_empty, is_unshifted, prepare_and_drop,
    remove, renumber, settle, tables, watch,
};
use mm_delta::Signed;
use mm_plan::run_query;
use mm_query::BoundQuery;
use mm_standing::Standing;
use mm_store::Store;
use mm_value::Refusal;
use std::alloc::Global;
use std::marker::Model;

/// Two tables with the lists of standing queries over them, which fit the rows. The changes since the last settlement can be undone.
#[derive(Drop)]
pub struct Case {
    store: Store,
    standing: Standing,
    mark: Mark,
}

/// The lengths of the log of the tables and of the log of the lists.
#[derive(Clone, Copy)]
struct Mark {
    commands: usize,
    changes: usize,
}

/// The mark from which nothing can be undone.
const START: Mark = Mark {
    commands: 0,
    changes: 0,
};

impl Model for Case {
    ghost use Rattle.standing_tests.specs.Cases.{IsMarked};
    ghost use Rattle.mm_store.specs.Tables.{Tables};

    ghost Value = { Tables };

    ghost view = { λ c. c.store };

    ghost invariant = { λ c. IsMarked c.store c.standing c.mark.commands c.mark.changes };
}

impl Case {
    /// Returns two tables without rows and without standing queries. If `indexed`, the numbers of the first have a HASH index.
    pub fn new(alloc: Global, indexed: bool) -> Result<Case, Refusal> {
        let store = tables(alloc, indexed)?;
        let _now = store.mark();
        Ok(Case {
            store,
            standing: Standing::new(alloc),
            mark: START,
        })
    }

    /// Inserts a row into a table. Fails with `NoSuchTable` if there is no table at the place, and with the other refusals of a change.
    pub fn add(
        &mut self,
        alloc: Global,
        table: usize,
        key: i64,
        number: i64,
    ) -> Result<(), Refusal> {
        if table >= 2 {
            return Err(Refusal::NoSuchTable);
        }
        add(
            alloc,
            &mut self.store,
            &mut self.standing,
            table,
            key,
            number,
        )
    }

    /// Deletes the row of a key from a table. Fails with `NoSuchTable` if there is no table at the place, with `NoTargetRow` if no row has
    /// the key, and with the other refusals of a change.
    pub fn remove(&mut self, alloc: Global, table: usize, key: i64) -> Result<(), Refusal> {
        if table >= 2 {
            return Err(Refusal::NoSuchTable);
        }
        remove(alloc, &mut self.store, &mut self.standing, table, key)
    }

    /// Prepares the insert of a row, and drops it. Fails with `NoSuchTable` if there is no table at the place, and with the refusals of the
    /// lists. If the insert is refused, applies what is prepared, which is nothing.
    pub fn prepare_and_drop(
        &mut self,
        alloc: Global,
        table: usize,
        key: i64,
        number: i64,
    ) -> Result<(), Refusal> {
        if table >= 2 {
            return Err(Refusal::NoSuchTable);
        }
        prepare_and_drop(
            alloc,
            &mut self.store,
            &mut self.standing,
            table,
            key,
            number,
        )
    }

    /// Creates a standing query over the tables at these places. Settles earlier changes first. Fails with `NoSuchTable` if there is no
    /// table at one of the places, and with `TooMany` for more than 4 of them. Fails with `WrongNumberOfValues` unless there are as many
    /// places as tables in FROM, with `ArithmeticOutOfRange` if an atom adds a number, and with the other refusals of a standing query.
    pub fn watch(
        &mut self,
        alloc: Global,
        query: BoundQuery,
        tables: Vec<usize>,
    ) -> Result<(), Refusal> {
        refuse(&query, tables.as_slice())?;
        self.mark = START;
        settle(&mut self.store, &mut self.standing);
        watch(
            alloc,
            &self.store,
            &mut self.standing,
            &self.store,
            query,
            tables,
        )
    }

    /// Creates a standing query over both tables, with a list computed over those of another case. Settles earlier changes first. Fails
    /// with `NotInTransaction` unless the first table is empty in both cases, since the list would not fit, and otherwise as `watch` does.
    pub fn watch_elsewhere(
        &mut self,
        alloc: Global,
        other: &Case,
        query: BoundQuery,
    ) -> Result<(), Refusal> {
        let tables = vec![in alloc; 0, 1]?;
        self.refuse_elsewhere(other, &query, tables.as_slice())?;
        self.mark = START;
        settle(&mut self.store, &mut self.standing);
        watch(
            alloc,
            &self.store,
            &mut self.standing,
            &other.store,
            query,
            tables,
        )
    }

    /// Refuses a query that is not for the tables of a case at these places, and any query unless the first table is empty in both cases.
    fn refuse_elsewhere(
        &self,
        other: &Case,
        query: &BoundQuery,
        tables: &[usize],
    ) -> Result<(), Refusal>
        ensures there { OnOk result (All (λ table. table < 2) tables.now) }
        ensures few { OnOk result (length tables.now ≤ 4) }
        ensures whole { OnOk result (length tables.now ≡ length query.now.from) }
        ensures unshifted { OnOk result (is_unshifted query.now ≡ true) }
        ensures empty { OnOk result (rows_at self.now.tables 0 ≡ []) }
        ensures empty_there { OnOk result (rows_at other.now.tables 0 ≡ []) }
    {
        refuse(query, tables)?;
        if !is_first_empty(&self.store) || !is_first_empty(&other.store) {
            return Err(Refusal::NotInTransaction);
        }
        Ok(())
    }

    /// Returns the number of rows that were read when the last change was prepared.
    pub fn reads(&self) -> u64 {
        self.standing.reads()
    }

    /// Sets a mark at the current rows and lists.
    pub fn set_mark(&mut self) {
        self.mark = Mark {
            commands: self.store.mark(),
            changes: self.standing.mark(),
        };
    }

    /// Undoes the changes since the mark.
    pub fn go_back(&mut self) {
        let Mark { commands, changes } = self.mark;
        go_back(&mut self.store, &mut self.standing, commands, changes);
    }

    /// Undoes the changes since the last settlement, and drops the mark.
    pub fn go_back_to_start(&mut self) {
        self.mark = START;
        self.go_back();
    }

    /// Commits the changes, and drops the mark.
    pub fn settle(&mut self) {
        self.mark = START;
        settle(&mut self.store, &mut self.standing);
    }

    /// Drops the standing query at a place, if there is one. Settles earlier changes first.
    pub fn unwatch(&mut self, place: usize) {
        self.mark = START;
        settle(&mut self.store, &mut self.standing);
        let _now = self.store.mark();
        if place < self.standing.len() {
            self.standing.unwatch(place);
        }
    }

    /// Changes the number of the row of a key. Fails with `NoSuchTable` if there is no table at the place, with `NoTargetRow` if none of
    /// its rows has the key, and with the other refusals of a change.
    pub fn renumber(
        &mut self,
        alloc: Global,
        table: usize,
        key: i64,
        number: i64,
    ) -> Result<(), Refusal> {
        if table >= 2 {
            return Err(Refusal::NoSuchTable);
        }
        renumber(
            alloc,
            &mut self.store,
            &mut self.standing,
            table,
            key,
            number,
        )
    }

    /// Returns the number of rows that the list at a place shows. Fails with `NoSuchStandingQuery` if there is no such list.
    pub fn count(&self, place: usize) -> Result<usize, Refusal> {
        if place >= self.standing.len() {
            return Err(Refusal::NoSuchStandingQuery);
        }
        Ok(self.standing.count(place))
    }

    /// Returns whether the list at a place shows exactly these rows, in this order. Fails with `NoSuchStandingQuery` if there is no such
    /// list, and with `Memory` if an allocation fails.
    pub fn shows(&self, alloc: Global, place: usize, rows: &[&[i64]]) -> Result<bool, Refusal> {
        if place >= self.standing.len() {
            return Err(Refusal::NoSuchStandingQuery);
        }
        let shown = self.standing.list(alloc, place)?;
        Ok(are_shown(&shown, rows))
    }

    /// Returns the changes of the counts of the rows of a query, over the tables at these places, by the insert of a row into a table.
    /// Fails with `NoSuchTable` if there is no table at the place, and otherwise as `watch` does.
    pub fn changes_of(
        &mut self,
        alloc: Global,
        query: &BoundQuery,
        tables: &[usize],
        table: usize,
        key: i64,
        number: i64,
    ) -> Result<Vec<Signed>, Refusal> {
        refuse(query, tables)?;
        if table >= 2 {
            return Err(Refusal::NoSuchTable);
        }
        let changes = changes_of_addition(
            alloc,
            &mut self.store,
            query,
            tables,
            table,
            key,
            number,
        )?;
        Ok(changes)
    }

    /// Returns the number of combinations of rows that match a query over the tables at these places. Fails as `watch` does, but with
    /// `ResultTooLarge` instead of `StandingListTooLarge`.
    pub fn combinations(
        &self,
        alloc: Global,
        query: &BoundQuery,
        tables: &[usize],
    ) -> Result<usize, Refusal> {
        refuse(query, tables)?;
        let mut view = self.store.view();
        let list = run_query(alloc, &mut view, query, tables)?;
        Ok(list.len())
    }
}

/// Refuses a query that is not for the tables of a case at these places.
fn refuse(query: &BoundQuery, tables: &[usize]) -> Result<(), Refusal>
    ensures there { OnOk result (All (λ table. table < 2) tables.now) }
    ensures few { OnOk result (length tables.now ≤ 4) }
    ensures whole { OnOk result (length tables.now ≡ length query.now.from) }
    ensures unshifted { OnOk result (is_unshifted query.now ≡ true) }
{
    if tables.len() > 4 {
        return Err(Refusal::TooMany);
    }
    if !are_there(tables) {
        return Err(Refusal::NoSuchTable);
    }
    if tables.len() != query.from.as_slice().len() {
        return Err(Refusal::WrongNumberOfValues);
    }
    if !is_unshifted(query) {
        return Err(Refusal::ArithmeticOutOfRange);
    }
    Ok(())
}
