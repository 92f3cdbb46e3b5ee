//! Queries and changes of rows that are bound once, and run any number of times while the catalog is unchanged.
ghost use Rattle.std.specs.Prelude.{◌≡◌, ◌++◌, IfOk, OnErr, OnOk, Some, is_some, length, take};
ghost use Rattle.std.specs.Option.{option_copied};
ghost use Rattle.mm_query.specs.Binding.{binding_conditions};
ghost use Rattle.mm_query.specs.Edits.{own_pairs};
ghost use Rattle.mm_query.specs.Machine.{conditions, state_after};
ghost use Rattle.mm_query.specs.Resolving.{query_conditions, selected};
ghost use Rattle.mm_query.specs.Standing.{query_named};
ghost use Rattle.mm_query.specs.declared.command.Command.TheVariants.{Change, Select};
ghost use Rattle.mm_query.specs.declared.command.Mutation.{Mutation as AnyMutation};
ghost use Rattle.mm_query.specs.declared.query.Query.{Query as AnyQuery};
ghost use Rattle.mm_schema.specs.Refused.{AnswersDue, first_refusal};
ghost use Rattle.mm_txn.specs.Bound.{IsBoundChange, IsBoundQuery, bound_of};
ghost use Rattle.mm_txn.specs.Reads.{CommandReads, ReadsByPlan};
ghost use Rattle.mm_txn.specs.Steps.{IsStep};

use super::Db;
use super::execute::counted;
use crate::bound::ChangeToRun;
use crate::select::{copy_rows, select_rows};
use mm_plan::have_one_key;
use mm_query::{Bound, BoundChange, BoundQuery, Mutation, Query, Reply, RowBuffer};
use mm_schema::{Catalog, Name};
use mm_templist::ShownRows;
use mm_value::Refusal;
use std::alloc::Global;

impl Db {
    /// Returns the catalog. A bound form is valid as long as the catalog is unchanged.
    pub fn catalog(&self) -> &Catalog
        ensures { result.now ≡ self.now.schema }
    {
        &self.contents.catalog
    }

    /// Returns the query of the standing query with a name, with places instead of field names, or `None` if no standing query has the
    /// name.
    pub fn standing_query(&self, name: &Name) -> Option<&BoundQuery>
        ensures { option_copied result ≡ query_named name.now self.now.schema.standing self.now.queries }
    {
        let contents = &self.contents;
        let place = contents.catalog.standing_place_of(name)?;
        Some(contents.standing.query(place))
    }

    /// Returns whether a transaction is open.
    pub fn is_in_transaction(&self) -> bool
        ensures { result ≡ is_some self.now.saved }
    {
        self.is_open
    }

    /// Returns the bound form of a query, with places instead of names, for [`Db::select_into`]. Fails as `SELECT` does in [`Db::ask`], but
    /// not with `ResultTooLarge`.
    pub fn bind_query(&self, alloc: Global, query: Query<'_>) -> Result<Bound, Refusal>
        ensures due { AnswersDue (first_refusal (query_conditions query.entry self.now.schema)) result }
        ensures ok { IfOk result (IsBoundQuery self.now.schema query.entry) }
    {
        mm_query::bind_query(alloc, &self.contents.catalog, query)
    }

    /// Returns the bound form of a change of rows, with places instead of names, for [`Db::change_bound`]. Fails with the first refusal
    /// that is due by the catalog: `NoSuchTable`; `NoSuchColumn` if an assignment or a test names a column that does not exist; `NameTaken`
    /// if SET names a column twice; `TypeMismatch` if a value and its column or two sides differ in type, or a number is added to a text;
    /// `WrongNumberOfValues` if a row has more or fewer values than its table has columns; `TooMany` if there are more than 16 tests. Or
    /// with `Memory` if an allocation fails; an `INSERT` allocates nothing here.
    pub fn bind_change(&self, alloc: Global, mutation: Mutation<'_>) -> Result<BoundChange, Refusal>
        ensures due { AnswersDue (first_refusal (binding_conditions mutation.entry self.now.schema)) result }
        ensures ok { IfOk result (IsBoundChange self.now.schema mutation.entry) }
    {
        mm_query::bind_change(alloc, &self.contents.catalog, mutation)
    }

    /// Appends copies of the rows of a bound query's result, in order, to a buffer. Requires that the query was bound by the current
    /// catalog. Fails with `ResultTooLarge` if more than 1,048,576 combinations of rows match, and with `Memory` if an allocation fails;
    /// then some of the rows may have been appended, and the rows before them are unchanged. Sets `reads` to the number of rows read, up to
    /// `u64::MAX`: no more than the plan allows.
    pub fn select_into(
        &self,
        alloc: Global,
        bound: &Bound,
        rows: &mut RowBuffer,
        reads: &mut u64,
    ) -> Result<(), Refusal>
        requires { (query : AnyQuery) × IsBoundQuery self.now.schema query bound.now }
        ensures due { (query : AnyQuery) → IsBoundQuery self.now.schema query bound.now
            → AnswersDue (first_refusal (conditions (Select query) self.now)) result }
        ensures rows { OnOk result ((query : AnyQuery) → IsBoundQuery self.now.schema query bound.now → rows.new ≡ rows.old ++ selected query self.now) }
        ensures err { OnErr result (take (length rows.old) rows.new ≡ rows.old) }
        ensures reads { (query : AnyQuery) → IsBoundQuery self.now.schema query bound.now → ReadsByPlan query self.now reads.new }
    {
        let contents = &self.contents;
        have_one_key(&contents.catalog);
        let mut view = contents.store.view();
        let outcome = copy_rows(alloc, &mut view, bound, rows);
        *reads = view.reads();
        outcome
    }

    /// Returns the rows of a bound query's result, in order, where they are stored. Requires that the query was bound by the current
    /// catalog. Fails as [`Db::select_into`] does, and sets `reads` as it does.
    pub fn select_bound(
        &self,
        alloc: Global,
        bound: &Bound,
        reads: &mut u64,
    ) -> Result<ShownRows<'_>, Refusal>
        requires { (query : AnyQuery) × IsBoundQuery self.now.schema query bound.now }
        ensures due { (query : AnyQuery) → IsBoundQuery self.now.schema query bound.now
            → AnswersDue (first_refusal (conditions (Select query) self.now)) result }
        ensures rows { IfOk result (λ rows. (query : AnyQuery) → IsBoundQuery self.now.schema query bound.now → rows ≡ selected query self.now) }
        ensures reads { (query : AnyQuery) → IsBoundQuery self.now.schema query bound.now → ReadsByPlan query self.now reads.new }
    {
        let contents = &self.contents;
        have_one_key(&contents.catalog);
        let mut view = contents.store.view();
        let rows = select_rows(alloc, &mut view, bound);
        *reads = view.reads();
        rows
    }

    /// Makes a change of rows by its bound form, and replies `Count` or `Refused`. Requires that the change was bound by the current
    /// catalog. The call is one step of the machine of row lists, or the reply is `Memory`; a refused change changes nothing. Sets `reads`
    /// to the number of rows read for the lists of standing queries, up to `u64::MAX`: no more than the edited rows and their matches
    /// allow.
    ///
    /// The first refusal that is due is, by the rows: `ArithmeticOutOfRange` if a new value does not fit 64 bits; `DuplicateKey` if two
    /// rows would have one key; `NoTargetRow` if a foreign key would refer to no row; `RowIsReferenced` if a row to which another one
    /// refers would be deleted or get another key, and the referring row stays; `TableFull` if there would be more than 1,048,576 rows. By
    /// the standing queries: `StandingListTooLarge` if more than 1,048,576 combinations of the rows after the change match one of them.
    pub fn change_bound(&mut self, alloc: Global, change: ChangeToRun<'_>, reads: &mut u64) -> Reply
        requires { (mutation : AnyMutation) × IsBoundChange self.old.schema mutation (bound_of change) }
        ensures step { (mutation : AnyMutation) → IsBoundChange self.old.schema mutation (bound_of change.entry)
            → IsStep (Change mutation) self.old (record { reply = Some result; state = self.new }) }
        ensures reads { (mutation : AnyMutation) → IsBoundChange self.old.schema mutation (bound_of change.entry)
            → CommandReads (Change mutation) self.old reads.new }
    {
        counted(self.run_change(alloc, change, reads))
    }

    /// Makes a change of rows by its bound form, and returns the number of affected rows of its table. Fails as [`Db::change_bound`] does,
    /// and sets `reads` as it does.
    pub(super) fn run_change(
        &mut self,
        alloc: Global,
        change: ChangeToRun<'_>,
        reads: &mut u64,
    ) -> Result<usize, Refusal>
        requires { (mutation : AnyMutation) × IsBoundChange self.old.schema mutation (bound_of change) }
        ensures due { (mutation : AnyMutation) → IsBoundChange self.old.schema mutation (bound_of change.entry)
            → AnswersDue (first_refusal (conditions (Change mutation) self.old)) result }
        ensures ok { OnOk result ((mutation : AnyMutation) → IsBoundChange self.old.schema mutation (bound_of change.entry)
            → self.new ≡ state_after (Change mutation) self.old) }
        ensures count { IfOk result (λ count. (mutation : AnyMutation) → IsBoundChange self.old.schema mutation (bound_of change.entry)
            → count ≡ length (own_pairs mutation self.old)) }
        ensures err { OnErr result (self.new ≡ self.old) }
        ensures reads { (mutation : AnyMutation) → IsBoundChange self.old.schema mutation (bound_of change.entry)
            → CommandReads (Change mutation) self.old reads.new }
    {
        *reads = 0;
        self.contents.is_at_rest();
        let (mark, _) = self.contents.lengths();
        let edits = self.contents.edits_of(alloc, change)?;
        let count = edits.own.edits.as_slice().len();
        if let Err(refusal) = self.contents.make_edits(alloc, edits, reads) {
            self.contents.unstage(mark);
            return Err(refusal);
        }
        self.contents.settle_outside(self.is_open);
        Ok(count)
    }
}
