//! Counting readers of a store.
ghost use Rattle.std.specs.Prelude.{◌≡◌, ℕ, ◌+◌, ◌<◌, ◌≤◌, ◌↔◌, [], length, min, filter, Contains, Some, slice_get};
ghost use Rattle.std.specs.Prelude.{All, IfOk, IfSome, IsOk, IsTrue, MatchOption, OnOk, OnErr};
ghost use Rattle.std.specs.List.{cons_option};
ghost use Rattle.std.specs.Option.{option_map};
ghost use Rattle.mm_partition.specs.Places.{AreReferencesSmall, Hidden, IsHidden, IsLive, Live, slot_at};
ghost use Rattle.mm_partition.specs.Types.{HasTypes};
ghost use Rattle.mm_partition.specs.Views.{viewed};
ghost use Rattle.mm_indexed.specs.Kept.{StoredRows};
ghost use Rattle.mm_indexed.specs.Reads.{Appends, AreMatches, HasIndex, IsRange, IsWalk, has_value};
ghost use Rattle.mm_row_order.specs.Refs.{row_at};
ghost use Rattle.mm_indexed.specs.RowLists.{rows_of};
ghost use Rattle.mm_store.specs.Joined.{IsTable};
ghost use Rattle.mm_base.specs.Columns.{IsReference};
ghost use Rattle.mm_link.specs.Links.{RefersTo};
ghost use Rattle.mm_store.specs.Looked.{IsFirstOn, IsFirstSuch, IsHash, IsIndexOn, IsTree};
ghost use Rattle.mm_store.specs.Tables.{IsAt};
ghost use Rattle.mm_value.specs.Prefix.{order_prefix};
ghost use Rattle.mm_value.specs.Views.{value_of};
ghost use Rattle.mm_schema.specs.Rows.{most_rows};
ghost use Rattle.mm_schema.specs.declared.index.IndexKind.TheVariants as kind;

use crate::index_ref::{
    IndexRef, append_matches, append_range, first_hash, first_index, first_tree, tree_walk,
};
use crate::store::Store;
use mm_indexed::{FoundRefs, IndexedRows};
use mm_partition::RowView;
use mm_value::{ColType, RowRef, ValueRef};
use std::alloc::{AllocError, Global};
use std::marker::Model;
use ttree::Iter;

/// The rows of a store, read by their references and along indexes. Each row that is read is counted.
#[derive(Drop)]
pub struct View<'a> {
    store: &'a Store,
    /// The number of rows read so far, at most `u64::MAX`.
    reads: u64,
    ghost kept: { ∥ All IsTable store.now.tables ∥₁ },
}

impl<'a> Model for View<'a> {
    ghost use Rattle.mm_store.specs.Seen.{Seen};

    ghost Value = { Seen };

    ghost view = { λ v. record { store = v.store.now; reads = v.reads; kept = v.kept } };
}

impl Store {
    /// Returns a view of the store, with no row read yet.
    pub fn view(&self) -> View<'_>
        ensures store { result.store ≡ self.now }
        ensures reads { result.reads ≡ 0 }
    {
        self.keeps_tables();
        View {
            store: self,
            reads: 0,
        }
    }
}

impl<'a> View<'a> {
    /// Returns the number of rows read so far, at most `u64::MAX`.
    pub fn reads(&self) -> u64
        ensures { result ≡ self.now.reads }
    {
        self.reads
    }

    /// Returns the rows of a table with their indexes.
    pub(crate) fn relation(&self, table: usize) -> &'a IndexedRows
        requires { table < length self.now.store.tables }
        ensures at { IsAt self.now.store table result.now }
        ensures few { length result.now.refs ≤ most_rows }
        ensures whole { IsTable result.now }
    {
        self.store.table(table)
    }

    /// Lemma: the slot of each reference to a row of a table is below 2^32 - 1. The call does nothing.
    pub fn are_references_small(&self, table: usize)
        requires { table < length self.now.store.tables }
        ensures { (stored : StoredRows) → IsAt self.now.store table stored → AreReferencesSmall stored.places }
    {
        self.relation(table).are_references_small();
    }

    /// Returns the row of a reference to a row in use of a table, in place. The row has the types of the table's columns. The call adds 1
    /// to the number of rows read, up to `u64::MAX`.
    pub fn row(&mut self, table: usize, at: RowRef) -> RowView<'a>
        requires there { table < length self.old.store.tables }
        requires live { (stored : StoredRows) → IsAt self.old.store table stored → IsLive stored.places at }
        ensures row { (stored : StoredRows) → IsAt self.old.store table stored → slot_at stored.places at ≡ Live (viewed result) }
        ensures typed { (stored : StoredRows) → IsAt self.old.store table stored → HasTypes stored.places.types (viewed result) }
        ensures counted { self.new.reads ≡ min (self.old.reads + 1) u64.MAX }
        ensures same { self.new.store ≡ self.old.store }
    {
        let View { store, reads } = self;
        *reads = reads.saturating_add(1);
        store.table(table).row(at)
    }

    /// Returns a staged row of a table, which is hidden, in place. No row is counted.
    pub fn staged_row(&self, table: usize, at: RowRef) -> RowView<'a>
        requires there { table < length self.now.store.tables }
        requires hidden { (stored : StoredRows) → IsAt self.now.store table stored → IsHidden stored.places at }
        ensures { (stored : StoredRows) → IsAt self.now.store table stored → slot_at stored.places at ≡ Hidden (viewed result) }
    {
        self.store.table(table).hidden_row(at)
    }

    /// Returns the `order_prefix` of the value of a row in use of a table in a column, without reading a text, or `None` if the prefixes of
    /// the column are not kept. A prefix determines a small number or a short text, so a returned prefix counts as a read: it adds 1 to the
    /// number of rows read, up to `u64::MAX`.
    pub fn prefix_of(&mut self, table: usize, column: usize, at: RowRef) -> Option<u64>
        requires there { table < length self.old.store.tables }
        requires live { (stored : StoredRows) → IsAt self.old.store table stored → IsLive stored.places at }
        ensures prefix { (stored : StoredRows) → IsAt self.old.store table stored → IfSome result (λ prefix.
            option_map order_prefix (slice_get (row_at (slot_at stored.places) at) column) ≡ Some prefix) }
        ensures counted { MatchOption result (self.new.reads ≡ self.old.reads) (λ _. self.new.reads ≡ min (self.old.reads + 1) u64.MAX) }
        ensures same { self.new.store ≡ self.old.store }
    {
        let prefix = self.relation(table).prefix_of(column, at)?;
        self.row(table, at);
        Some(prefix)
    }

    /// Returns the number of rows of a table: at most 1,048,576.
    pub fn len_of(&self, table: usize) -> usize
        requires { table < length self.now.store.tables }
        ensures count { (stored : StoredRows) → IsAt self.now.store table stored → result ≡ length (rows_of stored) }
        ensures few { result ≤ most_rows }
    {
        self.relation(table).len()
    }

    /// Returns the place of a table's key column, counted from 0.
    pub fn key_of(&self, table: usize) -> usize
        requires { table < length self.now.store.tables }
        ensures key { (stored : StoredRows) → IsAt self.now.store table stored → result ≡ stored.key }
        ensures within { (stored : StoredRows) → IsAt self.now.store table stored → result < length stored.places.types }
    {
        self.relation(table).key()
    }

    /// Returns the type of a column of a table.
    pub fn column_type(&self, table: usize, column: usize) -> ColType
        requires there { table < length self.now.store.tables }
        requires within { (stored : StoredRows) → IsAt self.now.store table stored → column < length stored.places.types }
        ensures { (stored : StoredRows) → IsAt self.now.store table stored → slice_get stored.places.types column ≡ Some result }
    {
        self.relation(table).column_type(column)
    }

    /// Returns the index in which values of a column of a table are looked up, or `None` if the column has no index: the index on the
    /// column that was created first. The index on the key comes before all others.
    pub fn index_on(&self, table: usize, column: usize) -> Option<IndexRef>
        requires { table < length self.now.store.tables }
        ensures { (stored : StoredRows) → IsAt self.now.store table stored → IsFirstOn stored column result }
    {
        first_index(self.relation(table), column)
    }

    /// Returns the tree on a column of a table, or `None` if the column has no tree: the tree on the column that was created first. The
    /// tree on the key comes before all others. The call visits the table's indexes.
    pub fn tree_on(&self, table: usize, column: usize) -> Option<IndexRef>
        requires { table < length self.now.store.tables }
        ensures { (stored : StoredRows) → IsAt self.now.store table stored → IsFirstSuch IsTree stored column result }
    {
        first_tree(self.relation(table), column)
    }

    /// Returns the HASH index on a column of a table, or `None` if the column has no HASH index: the one on the column that was created
    /// first. The call visits the table's indexes.
    pub fn hash_on(&self, table: usize, column: usize) -> Option<IndexRef>
        requires { table < length self.now.store.tables }
        ensures { (stored : StoredRows) → IsAt self.now.store table stored → IsFirstSuch IsHash stored column result }
    {
        first_hash(self.relation(table), column)
    }

    /// Returns the reference of the row of a table that has this key, or `None` if no row has it. No row is counted. Allocates nothing.
    pub fn find(&self, table: usize, key: ValueRef<'_>) -> Option<RowRef>
        requires { table < length self.now.store.tables }
        ensures found { (stored : StoredRows) → IsAt self.now.store table stored
            → AreMatches stored.key (slot_at stored.places) (value_of key.entry) stored.refs (cons_option result []) }
        ensures live { (stored : StoredRows) → IsAt self.now.store table stored → IfSome result (IsLive stored.places) }
    {
        self.relation(table).find(key)
    }

    /// Appends the references of the rows of a table that have this value in the column of one of its indexes, each once and in no
    /// particular order. No row is counted. Fails with `AllocError` if an allocation fails; then nothing is appended.
    pub fn matches(
        &self,
        alloc: Global,
        table: usize,
        index: IndexRef,
        value: ValueRef<'_>,
        out: &mut Vec<RowRef>,
    ) -> Result<(), AllocError>
        requires there { table < length self.now.store.tables }
        requires index { (stored : StoredRows) → IsAt self.now.store table stored → (column : ℕ) × IsIndexOn stored column index }
        ensures ok { OnOk result ((stored : StoredRows) (column : ℕ) → IsAt self.now.store table stored → IsIndexOn stored column index
            → Appends (AreMatches column (slot_at stored.places) (value_of value.entry) stored.refs) out.old.items out.new.items) }
        ensures live { OnOk result ((stored : StoredRows) → IsAt self.now.store table stored
            → All (IsLive stored.places) out.old.items → All (IsLive stored.places) out.new.items) }
        ensures err { OnErr result (out.new.items ≡ out.old.items) }
    {
        append_matches(alloc, self.relation(table), index, value, out)
    }

    /// Returns the references of the rows of a table that have this value in the column of the HASH index at a place, counted from 0,
    /// each once and in no particular order. No row is counted. Up to four are returned without an allocation. Fails with `AllocError`
    /// if an allocation fails.
    pub fn find_by_hash(
        &self,
        alloc: Global,
        table: usize,
        index: usize,
        value: ValueRef<'_>,
    ) -> Result<FoundRefs, AllocError>
        requires there { table < length self.now.store.tables }
        requires index { (stored : StoredRows) → IsAt self.now.store table stored
            → (column : ℕ) × HasIndex stored.indexes index column kind.Hash }
        ensures found { IfOk result (λ found. (stored : StoredRows) (column : ℕ) → IsAt self.now.store table stored
            → HasIndex stored.indexes index column kind.Hash
            → AreMatches column (slot_at stored.places) (value_of value.entry) stored.refs found.items) }
        ensures live { IfOk result (λ found. (stored : StoredRows) → IsAt self.now.store table stored
            → All (IsLive stored.places) found.items) }
        ensures few { (stored : StoredRows) (column : ℕ) → IsAt self.now.store table stored
            → HasIndex stored.indexes index column kind.Hash
            → length (filter (has_value column (slot_at stored.places) (value_of value.entry)) stored.refs) ≤ 4 → IsOk result }
    {
        self.relation(table).find_by_hash(alloc, index, value)
    }

    /// Appends the references of the rows of a table whose values in the column of one of its trees are between two ends, both
    /// included, in the order of the walk along it. `None` leaves an end open. No row is counted. Fails with `AllocError` if an
    /// allocation fails; then nothing is appended.
    pub fn range(
        &self,
        alloc: Global,
        table: usize,
        index: IndexRef,
        low: Option<ValueRef<'_>>,
        high: Option<ValueRef<'_>>,
        out: &mut Vec<RowRef>,
    ) -> Result<(), AllocError>
        requires there { table < length self.now.store.tables }
        requires tree { (stored : StoredRows) → IsAt self.now.store table stored
            → (column : ℕ) × IsIndexOn stored column index × IsTree index }
        ensures ok { OnOk result ((stored : StoredRows) (column : ℕ) → IsAt self.now.store table stored → IsIndexOn stored column index
            → Appends (IsRange column stored (option_map value_of low.entry) (option_map value_of high.entry)) out.old.items out.new.items) }
        ensures live { OnOk result ((stored : StoredRows) → IsAt self.now.store table stored
            → All (IsLive stored.places) out.old.items → All (IsLive stored.places) out.new.items) }
        ensures err { OnErr result (out.new.items ≡ out.old.items) }
    {
        append_range(alloc, self.relation(table), index, low, high, out)
    }

    /// Returns the references of all rows of a table along one of its trees: in the order of its column, and within one value in the order
    /// of their keys. Copies nothing. No row is counted.
    pub fn walk(&self, table: usize, index: IndexRef) -> Iter<'a>
        requires there { table < length self.now.store.tables }
        requires tree { (stored : StoredRows) → IsAt self.now.store table stored
            → (column : ℕ) × IsIndexOn stored column index × IsTree index }
        ensures walk { (stored : StoredRows) (column : ℕ) → IsAt self.now.store table stored → IsIndexOn stored column index
            → IsWalk column stored result }
        ensures keys { index ≡ IndexRef.Key → (stored : StoredRows) → IsAt self.now.store table stored → result ≡ stored.refs }
        ensures live { (stored : StoredRows) → IsAt self.now.store table stored → All (IsLive stored.places) result }
    {
        tree_walk(self.relation(table), index)
    }

    /// Returns whether a column of a table refers to another table, and to no other one.
    pub fn refers_only_to(&self, table: usize, column: usize, to: usize) -> bool
        ensures { IsTrue result ↔ IsReference self.now.store.links table column to }
    {
        self.store.refers_only_to(table, column, to)
    }

    /// Returns the row that a row refers to by a column, without a search. Neither row is read.
    pub fn follow(&self, table: usize, column: usize, at: RowRef) -> RowRef
        requires there { table < length self.now.store.tables }
        requires refers { (to : ℕ) × Contains self.now.store.links (record { from = table; column = column; to = to }) }
        requires live { (stored : StoredRows) → IsAt self.now.store table stored → IsLive stored.places at }
        ensures { (stored : StoredRows) → IsAt self.now.store table stored
            → (target : StoredRows) × (to : ℕ) × Contains self.now.store.links (record { from = table; column = column; to = to })
            × IsAt self.now.store to target × RefersTo column target.key (slot_at target.places) (row_at (slot_at stored.places) at) result }
    {
        self.store.follow(table, column, at)
    }
}
