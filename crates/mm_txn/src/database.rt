//! The database: its calls are steps of the machine of row lists.
ghost use Rattle.std.specs.Prelude.{◌≡◌, ◌≤◌, Some, None, IfOk, OnOk, OnErr, MatchResult, length};
ghost use Rattle.mm_schema.specs.Refused.{AnswersDue, first_refusal};
ghost use Rattle.mm_query.specs.Edits.{own_pairs};
ghost use Rattle.mm_query.specs.Machine.{conditions, plan_in, rows_by_index, state_after};
ghost use Rattle.mm_query.specs.Resolving.{selected};
ghost use Rattle.mm_query.specs.Standing.{listing as listing_of, shown_rows};
ghost use Rattle.mm_query.specs.State.{first_state, rows_in};
ghost use Rattle.mm_query.specs.declared.command.Command.TheVariants.{Define, Change, Scan, ScanIndex, Select, Explain, Show, Begin, Commit, Rollback, Savepoint, RollbackTo};
ghost use Rattle.mm_txn.specs.Reads.{CommandReads};
ghost use Rattle.mm_txn.specs.Releasing.{after_release};

mod ask;
mod bound;
mod execute;

use crate::bound::ChangeToRun;
use crate::contents::Contents;
use crate::definitions::is_of_index;
use crate::listing::list_tables;
use crate::savepoints::{MAX_SAVEPOINTS, Mark, latest};
use mm_query::{BoundChange, Definition, ItemList, Listing, Mutation, PlanLine, Query};
use mm_schema::Name;
use mm_store::TableRows;
use mm_templist::ShownRows;
use mm_value::Refusal;
use std::alloc::{AllocError, Global};
use std::marker::Model;

/// A database: a catalog and the rows of its tables. Each change and each question is one step of the machine of row lists, and a refused
/// one changes nothing. In a transaction the store and the lists keep undo logs, and the savepoints are marks of these logs. Outside a
/// transaction the logs are empty, since each command is final at once.
#[derive(Drop)]
pub struct Db {
    contents: Contents,
    /// Whether a transaction is open.
    is_open: bool,
    /// The savepoints of the open transaction, oldest first.
    marks: Vec<Mark>,
}

impl Model for Db {
    ghost use Rattle.mm_query.specs.State.{State};
    ghost use Rattle.mm_txn.specs.Saved.{IsConsistent, kept_state};

    ghost Value = { State };

    ghost view = { λ d. kept_state d.contents d.is_open d.marks.items };

    ghost invariant = { λ d. IsConsistent d.contents d.is_open d.marks.items };
}

impl Db {
    /// Returns an empty database. Allocates nothing.
    pub fn new(alloc: Global) -> Db
        ensures { result ≡ first_state }
    {
        Db {
            contents: Contents::new(alloc),
            is_open: false,
            marks: Vec::new(alloc),
        }
    }

    /// Begins a transaction. Fails with `TransactionOpen` if one is open. Allocates nothing, in time that does not grow with the rows.
    fn begin(&mut self) -> Result<(), Refusal>
        ensures due { MatchResult result (λ _. first_refusal (conditions Begin self.old) ≡ None)
            (λ refusal. first_refusal (conditions Begin self.old) ≡ Some refusal) }
        ensures ok { OnOk result (self.new ≡ state_after Begin self.old) }
        ensures err { OnErr result (self.new ≡ self.old) }
    {
        if self.is_open {
            return Err(Refusal::TransactionOpen);
        }
        self.contents.is_at_rest();
        self.is_open = true;
        Ok(())
    }

    /// Ends a transaction and keeps its changes. Fails with `NoTransaction` if none is open. Allocates nothing, and visits each change of
    /// the transaction once.
    fn commit(&mut self) -> Result<(), Refusal>
        ensures due { MatchResult result (λ _. first_refusal (conditions Commit self.old) ≡ None)
            (λ refusal. first_refusal (conditions Commit self.old) ≡ Some refusal) }
        ensures ok { OnOk result (self.new ≡ state_after Commit self.old) }
        ensures err { OnErr result (self.new ≡ self.old) }
    {
        if !self.is_open {
            return Err(Refusal::NoTransaction);
        }
        self.contents.settle_outside(false);
        self.marks.clear();
        self.is_open = false;
        Ok(())
    }

    /// Ends a transaction and undoes its changes: the rows are those at [`Db::begin`]. Fails with `NoTransaction` if none is open.
    /// Allocates nothing, so it cannot fail in an open transaction. The changes are undone one by one, newest first, as with Gray's undo
    /// log.
    fn rollback(&mut self) -> Result<(), Refusal>
        ensures due { MatchResult result (λ _. first_refusal (conditions Rollback self.old) ≡ None)
            (λ refusal. first_refusal (conditions Rollback self.old) ≡ Some refusal) }
        ensures ok { OnOk result (self.new ≡ state_after Rollback self.old) }
        ensures err { OnErr result (self.new ≡ self.old) }
    {
        if !self.is_open {
            return Err(Refusal::NoTransaction);
        }
        self.contents.revert(0, 0);
        self.marks.clear();
        self.is_open = false;
        Ok(())
    }

    /// Sets a savepoint with this name in the open transaction, after the existing ones, even if one of these has the name. Fails with
    /// `NoTransaction` if no transaction is open, with `TooMany` if it already has 64 savepoints, and with `Memory` if an allocation fails.
    /// Takes no time that grows with the rows.
    fn savepoint(&mut self, name: Name) -> Result<(), Refusal>
        ensures due { AnswersDue (first_refusal (conditions (Savepoint name) self.old)) result }
        ensures ok { OnOk result (self.new ≡ state_after (Savepoint name) self.old) }
        ensures err { OnErr result (self.new ≡ self.old) }
    {
        if !self.is_open {
            return Err(Refusal::NoTransaction);
        }
        if self.marks.len() >= MAX_SAVEPOINTS {
            return Err(Refusal::TooMany);
        }
        self.contents.is_at_rest();
        let (commands, changes) = self.contents.lengths();
        self.marks.push(Mark {
            name,
            commands,
            changes,
        })?;
        Ok(())
    }

    /// Undoes the changes since the latest savepoint with a name: the rows are those at the savepoint. The savepoint remains, and later
    /// ones are dropped. Fails with `NoTransaction` if no transaction is open, and with `NoSuchSavepoint` if it has none with the name.
    /// Allocates nothing, so no rollback to an existing savepoint fails. Visits each change that it undoes once.
    fn rollback_to(&mut self, name: &Name) -> Result<(), Refusal>
        ensures due { MatchResult result (λ _. first_refusal (conditions (RollbackTo name.now) self.old) ≡ None)
            (λ refusal. first_refusal (conditions (RollbackTo name.now) self.old) ≡ Some refusal) }
        ensures ok { OnOk result (self.new ≡ state_after (RollbackTo name.now) self.old) }
        ensures err { OnErr result (self.new ≡ self.old) }
    {
        if !self.is_open {
            return Err(Refusal::NoTransaction);
        }
        let place = latest(self.marks.as_slice(), name).ok_or(Refusal::NoSuchSavepoint)?;
        let (commands, changes) = self.marks[place].lengths();
        self.contents.revert(commands, changes);
        self.marks.truncate(place + 1);
        Ok(())
    }

    /// Releases the latest savepoint with a name and those set after it; no row changes. `ROLLBACK TO` an earlier savepoint still restores
    /// the rows of that savepoint. Fails with `NoTransaction` if no transaction is open, and with `NoSuchSavepoint` if the transaction has
    /// none with the name. Allocates nothing, in time that does not grow with the rows.
    pub fn release(&mut self, name: &Name) -> Result<(), Refusal>
        ensures due { MatchResult result (λ _. first_refusal (conditions (RollbackTo name.now) self.old) ≡ None)
            (λ refusal. first_refusal (conditions (RollbackTo name.now) self.old) ≡ Some refusal) }
        ensures ok { OnOk result (self.new ≡ after_release name.now self.old) }
        ensures err { OnErr result (self.new ≡ self.old) }
    {
        if !self.is_open {
            return Err(Refusal::NoTransaction);
        }
        let place = latest(self.marks.as_slice(), name).ok_or(Refusal::NoSuchSavepoint)?;
        self.marks.truncate(place);
        Ok(())
    }

    /// Changes the catalog. A new table is the last and has no rows. A dropped table loses its rows and its indexes, and the tables after
    /// it move forward. A new index covers the existing rows. A new standing query is the last, and its list has the rows that currently
    /// match. No rollback undoes these changes.
    ///
    /// Fails with the first refusal that is due: `NotInTransaction` if a transaction is open, unless an index is created or dropped. Then:
    ///
    /// - A new table: `NoSuchTable` if a column refers to a table that does not exist; `NameTaken` if its name is taken or two columns have
    ///   one name; `TypeMismatch` if a column differs in type from the key of the table that it refers to; `TooMany` if there are already
    ///   64 tables or it has more than 16 columns.
    /// - A dropped table: `NoSuchTable` if none has the name; `InUse` if a column of another table refers to it or a standing query reads
    ///   it.
    /// - A new index: `NoSuchTable` and `NoSuchColumn` if its table or its column does not exist; `NameTaken` if an index of any table has
    ///   its name; `TooMany` if its table already has 16 indexes.
    /// - A dropped index: `NoSuchIndex` if none has the name.
    /// - A new standing query: those of `SELECT` ([`Db::ask`]) except `ResultTooLarge`; after `NoSuchColumn` is `NameTaken` if a standing
    ///   query has its name; `TooMany` also if there are already 32 standing queries; and last `StandingListTooLarge` if more than
    ///   1,048,576 combinations of rows match.
    /// - A dropped standing query: `NoSuchStandingQuery` if none has the name.
    ///
    /// Or with `Memory` if an allocation fails.
    fn define(&mut self, alloc: Global, definition: Definition<'_>) -> Result<(), Refusal>
        ensures due { AnswersDue (first_refusal (conditions (Define definition.entry) self.old)) result }
        ensures ok { OnOk result (self.new ≡ state_after (Define definition.entry) self.old) }
        ensures err { OnErr result (self.new ≡ self.old) }
    {
        if self.is_open && !is_of_index(&definition) {
            return Err(Refusal::NotInTransaction);
        }
        self.contents.is_at_rest();
        self.contents.define(alloc, definition)
    }

    /// Changes the rows of a table, and returns the number of its rows that were inserted, that satisfy the tests of an `UPDATE`, or that
    /// were deleted. A `DELETE` also deletes the rows of any table that have the key of a deleted row in a CASCADE column. Sets `reads` as
    /// [`Db::change_bound`] does, and to 0 if the catalog refuses the change.
    ///
    /// Fails with the first refusal that is due, those of [`Db::bind_change`] before those of [`Db::change_bound`].
    fn change(
        &mut self,
        alloc: Global,
        mutation: Mutation<'_>,
        reads: &mut u64,
    ) -> Result<usize, Refusal>
        ensures due { AnswersDue (first_refusal (conditions (Change mutation.entry) self.old)) result }
        ensures ok { OnOk result (self.new ≡ state_after (Change mutation.entry) self.old) }
        ensures count { IfOk result (λ count. count ≡ length (own_pairs mutation.entry self.old)) }
        ensures err { OnErr result (self.new ≡ self.old) }
        ensures reads { CommandReads (Change mutation.entry) self.old reads.new }
    {
        *reads = 0;
        match self.bind_change(alloc, mutation)? {
            BoundChange::Insert { table, tuples } => {
                self.run_change(alloc, ChangeToRun::Insert { table, tuples }, reads)
            }
            BoundChange::Update {
                table,
                assignments,
                tests,
            } => {
                let (assignments, tests) = (assignments.as_slice(), tests.as_slice());
                self.run_change(
                    alloc,
                    ChangeToRun::Update {
                        table,
                        assignments,
                        tests,
                    },
                    reads,
                )
            }
            BoundChange::Delete { table, tests } => {
                let tests = tests.as_slice();
                self.run_change(alloc, ChangeToRun::Delete { table, tests }, reads)
            }
        }
    }

    /// Returns the rows of a table, in the order of the values in the column of the index with a name, and by key if these are equal. Fails
    /// with `NoSuchIndex` if none has the name. A TREE index has that order. For a HASH index the references of the rows are sorted first,
    /// which may fail with `Memory`.
    fn scan_index(&self, alloc: Global, name: &Name) -> Result<TableRows<'_>, Refusal>
        ensures due { AnswersDue (first_refusal (conditions (ScanIndex name.now) self.now)) result }
        ensures rows { IfOk result (λ rows. rows ≡ rows_by_index self.now name.now) }
    {
        self.contents.scan_index(alloc, name)
    }

    /// Returns the rows of a query's result, in order, found by its plan; no value is copied. Fails as `SELECT` does in [`Db::ask`]. Sets
    /// `reads` to the number of rows read, up to `u64::MAX`: no more than the plan allows, and 0 if the catalog refuses the query.
    fn select(
        &self,
        alloc: Global,
        query: Query<'_>,
        reads: &mut u64,
    ) -> Result<ShownRows<'_>, Refusal>
        ensures due { AnswersDue (first_refusal (conditions (Select query.entry) self.now)) result }
        ensures rows { IfOk result (λ rows. rows ≡ selected query.entry self.now) }
        ensures reads { CommandReads (Select query.entry) self.now reads.new }
    {
        *reads = 0;
        let bound = self.bind_query(alloc, query)?;
        self.select_bound(alloc, &bound, reads)
    }

    /// Returns the plan of a query for the current row counts of the tables: a line for each table of FROM, in their order. Fails as
    /// [`Db::select`] does, but not with `ResultTooLarge`.
    fn explain(&self, alloc: Global, query: Query<'_>) -> Result<ItemList<PlanLine>, Refusal>
        ensures due { AnswersDue (first_refusal (conditions (Explain query.entry) self.now)) result }
        ensures lines { IfOk result (λ lines. lines ≡ plan_in self.now query.entry) }
    {
        self.contents.explain(alloc, query)
    }

    /// Returns the rows of a standing query, in order. No value is copied, and no row of a table is read. Fails with `NoSuchStandingQuery`
    /// if none has the name, and with `Memory` if an allocation fails.
    fn show(&self, alloc: Global, name: &Name) -> Result<ShownRows<'_>, Refusal>
        ensures due { AnswersDue (first_refusal (conditions (Show name.now) self.now)) result }
        ensures rows { IfOk result (λ rows. rows ≡ shown_rows name.now self.now) }
    {
        let contents = &self.contents;
        let place = contents
            .catalog
            .standing_place_of(name)
            .ok_or(Refusal::NoSuchStandingQuery)?;
        Ok(contents.standing.list(alloc, place)?)
    }

    /// Returns the tables with their indexes and their numbers of rows, and the standing queries with theirs, each in the order of
    /// creation. Fails with `AllocError` if an allocation fails.
    fn tables(&self, alloc: Global) -> Result<Listing, AllocError>
        ensures { IfOk result (λ listing. listing ≡ listing_of self.now) }
    {
        let contents = &self.contents;
        list_tables(
            alloc,
            &contents.catalog,
            &contents.store,
            &contents.standing,
        )
    }

    /// Returns the rows of a table, in the order of its key. Fails with `NoSuchTable` if none has the name. Allocates nothing.
    fn scan(&self, table: &Name) -> Result<TableRows<'_>, Refusal>
        ensures due { MatchResult result (λ _. first_refusal (conditions (Scan table.now) self.now) ≡ None)
            (λ refusal. first_refusal (conditions (Scan table.now) self.now) ≡ Some refusal) }
        ensures rows { IfOk result (λ rows. rows ≡ rows_in self.now table.now) }
    {
        self.contents.scan(table)
    }
}
