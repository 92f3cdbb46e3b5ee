//! The standing queries and their lists.
ghost use Rattle.std.specs.Prelude.{◌≡◌, ℕ, ◌++◌, ◌∷◌, ◌≤◌, ◌<◌, All, List, [], drop, length, map, pos, None, Some, slice_get, take, IfOk, OnErr, OnOk};
ghost use Rattle.std.specs.List.{remove, sum_by};
ghost use Rattle.mm_multiset.specs.Counts.{Counts as BagCounts, count_in};
ghost use Rattle.mm_delta.specs.Edited.{after_at, before_at};
ghost use Rattle.mm_delta.specs.Steps.{EachFit};
ghost use Rattle.mm_partition.specs.Types.{HasTypes};
ghost use Rattle.mm_query.specs.Queries.{bag_of};
ghost use Rattle.mm_schema.specs.References.{above};
ghost use Rattle.mm_schema.specs.Refused.{AnswersDue, first_refusal};
ghost use Rattle.mm_store.specs.Tables.{rows_at};
ghost use Rattle.mm_standing.specs.Bags.{CanAdd, IsLean, IsSmall, IsTyped, Made, count_with, entries_at, feeds_of};
ghost use Rattle.mm_standing.specs.Queries.{GivesTyped, IsBagOf, StandingQuery, bag_over, change_conditions, list_conditions, shown_of};
ghost use Rattle.mm_standing.specs.Reads.{AreOfCyclicRows, AreTypeTested, RowTests, query_reads};
ghost use Rattle.mm_standing.specs.State.{AreServed, FitNow, FitPrepared, count_at};
ghost use Rattle.mm_value.specs.declared.values.Value.TheVariants.{Int};
ghost use Rattle.mm_standing.specs.declared.change.RowChange.{RowChange as AnyChange};
ghost use Rattle.mm_value.specs.declared.values.Value.{Value as Val};

mod following;

use crate::bags::{drop_all, make_all, purge, undo_behind};
use crate::change::{ListChange, RowChange};
use crate::listing::{count_shown, list_shown};
use crate::prepare::{changes_of_lists, prepare_each};
use crate::watched::PlacedQuery;
use crate::watching::bag_now;
use mm_delta::TableChange;
use mm_multiset::Bag;
use mm_query::BoundQuery;
use mm_store::{Store, View};
use mm_templist::ShownRows;
use mm_value::{ColType, Refusal};
use std::alloc::{AllocError, Global};
use std::marker::Model;

/// The standing queries in order of creation, each with a list of its rows, stored as counts. An undo log can restore every list as it was
/// at a mark. A standing query is identified by its place, counted from 0.
#[derive(Drop)]
pub struct Standing {
    queries: Vec<PlacedQuery>,
    bags: Vec<Bag>,
    prepared: Vec<ListChange>,
    log: Vec<ListChange>,
    reads: u64,
}

impl Model for Standing {
    ghost use Rattle.std.specs.Prelude.{◌≡◌, ◌+◌, ◌≤◌, length};
    ghost use Rattle.std.specs.Vec.{vec_capacity, vec_len};
    ghost use Rattle.mm_standing.specs.State.{Lists};

    ghost Value = { Lists };

    ghost use Rattle.mm_standing.specs.Bags.{IsSound, done_of, undos};
    ghost use Rattle.mm_standing.specs.State.{AreOfTypes};

    ghost view = { λ s. record {
      queries = s.queries.items;
      bags = s.bags.items;
      prepared = done_of s.bags.items s.prepared.items;
      log = undos s.bags.items s.log.items;
      reads = s.reads;
    } };

    ghost invariant = { λ s. IsSound s.bags.items s.prepared.items s.log.items
        × (vec_len s.log + vec_len s.prepared ≤ vec_capacity s.log) × (length s.queries.items ≡ length s.bags.items)
        × AreOfTypes s.queries.items s.bags.items };
}

impl Standing {
    /// Returns an empty list of standing queries. Allocates nothing.
    pub fn new(alloc: Global) -> Standing
        ensures { result ≡ record { queries = []; bags = []; prepared = []; log = []; reads = 0 } }
    {
        Standing {
            queries: Vec::new(alloc),
            bags: Vec::new(alloc),
            prepared: Vec::new(alloc),
            log: Vec::new(alloc),
            reads: 0,
        }
    }

    /// Returns the number of standing queries.
    pub fn len(&self) -> usize
        ensures queries { result ≡ length self.now.queries }
        ensures bags { result ≡ length self.now.bags }
    {
        self.queries.len()
    }

    /// Returns the standing query at a place, with places instead of field names.
    pub fn query(&self, place: usize) -> &BoundQuery
        requires { place < length self.now.queries }
        ensures { slice_get (map (λ (s : StandingQuery). s.query) self.now.queries) place ≡ Some result.now }
    {
        &self.queries[place].query
    }

    /// Returns the number of rows that were read when the last change was prepared.
    pub fn reads(&self) -> u64
        ensures { result ≡ self.now.reads }
    {
        self.reads
    }

    /// Returns a mark of the current lists for `revert`: the length of the log.
    pub fn mark(&self) -> usize
        ensures { result ≡ length self.now.log }
    {
        self.log.len()
    }

    /// Drops what is prepared, and the entries that were inserted for it. No count changes.
    pub fn discard(&mut self)
        ensures lean { IsLean self.new.bags self.new.log }
        ensures counts { (list : ℕ) (row : List Val)
            → count_in row (entries_at self.new.bags list) ≡ count_in row (entries_at self.old.bags list) }
        ensures size { length self.new.bags ≡ length self.old.bags }
        ensures feeds { feeds_of self.new.bags ≡ feeds_of self.old.bags }
        ensures rest { self.new ≡ record self.old { bags = self.new.bags; prepared = [] } }
    {
        drop_all(&mut self.bags, &mut self.prepared, self.log.as_slice());
    }

    /// Applies all prepared changes and appends them to the undo log. Allocates nothing.
    pub fn apply_prepared(&mut self)
        ensures made { Made self.old.bags self.old.prepared self.old.log self.new.bags [] self.new.log }
        ensures prepared { self.new.prepared ≡ [] }
        ensures queries { self.new.queries ≡ self.old.queries }
        ensures reads { self.new.reads ≡ self.old.reads }
    {
        make_all(&mut self.bags, self.prepared.as_slice(), &mut self.log);
        self.prepared.clear();
    }

    /// Restores every list as it was at a mark. Requires that nothing is prepared. Allocates nothing. An entry whose count is 0 is removed
    /// unless the remaining log names its row.
    pub fn revert(&mut self, mark: usize)
        requires prepared { self.old.prepared ≡ [] }
        requires mark { mark ≤ length self.old.log }
        ensures log { self.new.log ≡ take mark self.old.log }
        ensures counts { (earlier : ℕ) → earlier ≤ mark → (list : ℕ) (row : List Val)
            → count_at earlier list row self.new ≡ count_at earlier list row self.old }
        ensures lean { IsLean self.new.bags self.new.log }
        ensures size { length self.new.bags ≡ length self.old.bags }
        ensures feeds { feeds_of self.new.bags ≡ feeds_of self.old.bags }
        ensures rest { self.new ≡ record self.old { bags = self.new.bags; log = self.new.log } }
    {
        undo_behind(&mut self.bags, self.log.as_slice(), mark);
        self.log.truncate(mark);
    }

    /// Empties the log, so that no change can be undone any more, and removes the entries whose count is 0. Requires that nothing is
    /// prepared. No count changes.
    pub fn settle(&mut self)
        requires { self.old.prepared ≡ [] }
        ensures lean { IsLean self.new.bags self.new.log }
        ensures counts { (list : ℕ) (row : List Val)
            → count_in row (entries_at self.new.bags list) ≡ count_in row (entries_at self.old.bags list) }
        ensures size { length self.new.bags ≡ length self.old.bags }
        ensures feeds { feeds_of self.new.bags ≡ feeds_of self.old.bags }
        ensures rest { self.new ≡ record self.old { bags = self.new.bags; log = [] } }
    {
        purge(&mut self.bags, &mut self.log);
    }

    /// Drops the standing query at a place and its list; those after it move forward. Requires that nothing is prepared and the log is
    /// empty.
    pub fn unwatch(&mut self, place: usize)
        requires place { place < length self.old.queries }
        requires prepared { self.old.prepared ≡ [] }
        requires log { self.old.log ≡ [] }
        ensures { self.new ≡ record self.old { queries = remove self.old.queries place; bags = remove self.old.bags place } }
    {
        self.queries.remove(place);
        self.bags.remove(place);
    }

    /// Appends a standing query and materializes its rows over the store, found by its plan. `tables` are the places in the store of the
    /// tables of its FROM list, at most 4, and `types` are those of its fields. Requires that nothing is prepared and the log is empty, and
    /// that the rows have these types. Fails with `StandingListTooLarge` if more than 1,048,576 combinations match, and with `Memory` if an
    /// allocation fails; nothing changes then.
    pub fn watch(
        &mut self,
        alloc: Global,
        store: &Store,
        query: BoundQuery,
        tables: Vec<usize>,
        types: Vec<ColType>,
    ) -> Result<(), Refusal>
        requires there { All (λ table. table < length store.now.tables) tables.items }
        requires few { length tables.items ≤ 4 }
        requires typed { All (HasTypes types.items) (bag_of query (map (rows_at store.now.tables) tables.items)) }
        requires prepared { self.old.prepared ≡ [] }
        requires log { self.old.log ≡ [] }
        ensures due { AnswersDue (first_refusal (list_conditions (bag_of query (map (rows_at store.now.tables) tables.items)))) result }
        ensures ok { OnOk result ((bag : BagCounts) × IsBagOf bag.entries (bag_of query (map (rows_at store.now.tables) tables.items))
            × (self.new ≡ record self.old {
              queries = self.old.queries ++ record { query = query; tables = tables.items; types = types.items } ∷ [];
              bags = self.old.bags ++ bag ∷ [];
            })) }
        ensures feed { OnOk result (feeds_of self.new.bags ≡ feeds_of self.old.bags ++ None ∷ []) }
        ensures err { OnErr result (self.new ≡ self.old) }
    {
        self.queries.reserve(1)?;
        self.bags.reserve(1)?;
        let bag = bag_now(alloc, store, &query, tables.as_slice(), types.as_slice())?;
        self.queries.push_reserved(PlacedQuery {
            query,
            tables,
            types,
        });
        self.bags.push_reserved(bag);
        Ok(())
    }

    /// Adjusts the places after the table at a place of the store was dropped, which no standing query reads: places after it decrease by
    /// one. No list changes. Allocates nothing.
    pub fn table_dropped(&mut self, table: usize)
        ensures { self.new ≡ record self.old {
          queries = map (λ (s : StandingQuery). record s { tables = map (above table) s.tables }) self.old.queries;
        } }
    {
        for watched in self.queries.iter_mut() {
            watched.table_dropped(table);
        }
    }

    /// Returns the number of rows that the standing query at a place shows, if its list is the bag of some rows. With DISTINCT, one of each
    /// is counted.
    pub fn count(&self, place: usize) -> usize
        requires place { place < length self.now.queries }
        ensures { (standing : StandingQuery) → slice_get self.now.queries place ≡ Some standing
            → (rows : List (List Val)) → IsBagOf (entries_at self.now.bags place) rows → result ≡ length (shown_of standing.query rows) }
    {
        count_shown(self.queries[place].query.distinct, &self.bags[place])
    }

    /// Returns the rows that the standing query at a place shows, in order. No value is copied, and no store is read. Requires that the
    /// list is the bag of its query over some rows. Fails with `AllocError` if an allocation fails.
    pub fn list(&self, alloc: Global, place: usize) -> Result<ShownRows<'_>, AllocError>
        requires place { place < length self.now.queries }
        requires fits { (standing : StandingQuery) → slice_get self.now.queries place ≡ Some standing
            → (lists : List (List (List Val))) × IsBagOf (entries_at self.now.bags place) (bag_of standing.query lists) }
        ensures { IfOk result (λ shown. (standing : StandingQuery) → slice_get self.now.queries place ≡ Some standing
            → (rows : List (List Val)) → IsBagOf (entries_at self.now.bags place) rows → shown ≡ shown_of standing.query rows) }
    {
        list_shown(alloc, &self.queries[place].query, &self.bags[place])
    }

    /// Prepares the changes of the lists for edits of tables, and allocates all that applying and undoing them needs. The change of each
    /// list is the sum of the terms of Blakeley, Larson and Tompa's expansion: only edited rows and rows that may combine with them are
    /// read, and no row is combined with an edited row that a cycle shows to be irrelevant.
    ///
    /// Requires that nothing is prepared and the view has read no row; that the edits fit the view's rows and are not made yet; that the
    /// table of each place of a FROM list exists; and that the lists fit the view's rows. Over the rows before the edits and over those
    /// after them, no query may add a number to a text, and each query's result must have the types of its fields.
    ///
    /// Fails with `StandingListTooLarge` if more than 1,048,576 combinations of the rows after the edits match some standing query, and
    /// with `Memory` if an allocation fails; then nothing is prepared.
    pub fn prepare<'a>(
        &mut self,
        alloc: Global,
        view: &mut View<'a>,
        changes: &[TableChange<'_>],
    ) -> Result<(), Refusal>
        requires prepared { self.old.prepared ≡ [] }
        requires served { AreServed view.old.store self.old.queries }
        requires edits { EachFit view.old.store changes.now }
        requires typed { AreTypeTested view.old.store changes.now self.old.queries }
        requires before { All (GivesTyped (before_at view.old.store)) self.old.queries }
        requires after { All (GivesTyped (after_at view.old.store changes.now)) self.old.queries }
        requires fits { FitNow (before_at view.old.store) self.old }
        requires start { view.old.reads ≡ 0 }
        ensures due { AnswersDue (first_refusal (change_conditions (after_at view.old.store changes.now) self.old.queries)) result }
        ensures ok { OnOk result (FitPrepared (after_at view.old.store changes.now) self.new) }
        ensures err { OnErr result (self.new.prepared ≡ []) }
        ensures lean { OnErr result (IsLean self.new.bags self.new.log) }
        ensures counts { (list : ℕ) (row : List Val)
            → count_in row (entries_at self.new.bags list) ≡ count_in row (entries_at self.old.bags list) }
        ensures size { length self.new.bags ≡ length self.old.bags }
        ensures feeds { feeds_of self.new.bags ≡ feeds_of self.old.bags }
        ensures rest { self.new ≡ record self.old { bags = self.new.bags; prepared = self.new.prepared; reads = view.new.reads } }
        ensures reads { (skipped : RowTests) → AreOfCyclicRows skipped
            → view.new.reads ≤ sum_by (query_reads view.old.store changes.now skipped) self.old.queries }
        ensures same { view.new.store ≡ view.old.store }
    {
        let found = changes_of_lists(
            alloc,
            view,
            self.queries.as_slice(),
            self.bags.as_slice(),
            changes,
        );
        self.reads = view.reads();
        self.put_prepared(found?)?;
        Ok(())
    }

    /// Prepares changes, last to first, and allocates all that applying and undoing them needs. Requires that nothing is prepared, that the
    /// changes can be applied in this order, and that each row has the types of its list's columns. Fails with `AllocError` if an
    /// allocation fails; then nothing is prepared.
    pub(crate) fn put_prepared(&mut self, changes: Vec<RowChange>) -> Result<(), AllocError>
        requires prepared { self.old.prepared ≡ [] }
        requires there { All (λ (c : AnyChange). c.list < length self.old.bags) changes.items }
        requires small { All IsSmall changes.items }
        requires typed { All (IsTyped self.old.bags) changes.items }
        requires within { CanAdd self.old.bags changes.items }
        ensures ok { OnOk result ((list : ℕ) (row : List Val)
            → count_with self.new.bags self.new.prepared list row ≡ count_with self.old.bags changes.items list row) }
        ensures err { OnErr result (self.new.prepared ≡ []) }
        ensures lean { OnErr result (IsLean self.new.bags self.new.log) }
        ensures counts { (list : ℕ) (row : List Val)
            → count_in row (entries_at self.new.bags list) ≡ count_in row (entries_at self.old.bags list) }
        ensures size { length self.new.bags ≡ length self.old.bags }
        ensures feeds { feeds_of self.new.bags ≡ feeds_of self.old.bags }
        ensures rest { self.new ≡ record self.old { bags = self.new.bags; prepared = self.new.prepared } }
    {
        self.prepared.reserve(changes.len())?;
        self.log.reserve(changes.len())?;
        let outcome = prepare_each(
            &mut self.bags,
            changes,
            &mut self.prepared,
            self.log.as_slice(),
        );
        if outcome.is_err() {
            self.discard();
        }
        outcome
    }
}
