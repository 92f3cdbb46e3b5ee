//! The rows of a table in an order, read in place.
ghost use Rattle.std.specs.Prelude.{◌≡◌, ℕ, ◌∷◌, ◌<◌, ◌≤◌, [], All, IfOk, MatchOption, length, map};
ghost use Rattle.mm_partition.specs.Places.{IsLive, slot_at};
ghost use Rattle.mm_partition.specs.Views.{viewed};
ghost use Rattle.mm_indexed.specs.Kept.{StoredRows as Stored};
ghost use Rattle.mm_indexed.specs.Reads.{HasIndex};
ghost use Rattle.mm_indexed.specs.RowLists.{rows_of};
ghost use Rattle.mm_indexed.specs.Twins.{AreApart};
ghost use Rattle.mm_schema.specs.declared.index.IndexKind.TheVariants.{Tree};
ghost use Rattle.mm_row_order.specs.Refs.{row_at};
ghost use Rattle.mm_store.specs.Ordered.{rows_in_order};
ghost use Rattle.mm_store.specs.Tables.{IsAt, rows_at};
ghost use Rattle.mm_schema.specs.Rows.{most_rows};

use crate::store::Store;
use mm_indexed::IndexedRows;
use mm_order::OrderedRefs;
use mm_partition::RowView;
use mm_schema::IndexKind;
use std::alloc::{AllocError, Global};
use std::marker::Model;
use ttree::{Iter, TTree};

/// The order in which the rows of a table are read.
#[derive(Drop)]
enum Order {
    /// The tree on the key.
    Key,
    /// The TREE index at a place of the table's indexes, and its column.
    Tree { place: usize, column: usize },
    /// A tree that was built for the rows.
    Made(TTree),
}

/// The rows of a table in an order, as their list. None is copied: a reader reads them in place.
#[derive(Drop)]
pub struct TableRows<'a> {
    relation: &'a IndexedRows,
    order: Order,
}

impl<'a> Model for TableRows<'a> {
    ghost use Rattle.std.specs.Prelude.{List};
    ghost use Rattle.mm_store.specs.Ordered.{IsOrder, ordered_rows};
    ghost use Rattle.mm_value.specs.declared.values.Value.{Value as Val};

    ghost Value = { List (List Val) };

    ghost view = { λ r. ordered_rows r.relation.now r.order };

    ghost invariant = { λ r. IsOrder r.relation.now r.order };
}

/// The unread rows of a table, as their list.
#[derive(Drop)]
pub struct StoredRows<'a> {
    relation: &'a IndexedRows,
    walk: Iter<'a>,
}

impl<'a> Model for StoredRows<'a> {
    ghost use Rattle.std.specs.Prelude.{All, List, map};
    ghost use Rattle.mm_partition.specs.Places.{IsLive, slot_at};
    ghost use Rattle.mm_row_order.specs.Refs.{row_at};
    ghost use Rattle.mm_value.specs.declared.values.Value.{Value as Val};

    ghost Value = { List (List Val) };

    ghost view = { λ r. map (row_at (slot_at r.relation.now.places)) r.walk };

    ghost invariant = { λ r. All (IsLive r.relation.now.places) r.walk };
}

// Whole tables are read only from the store. A view does not return its store, so code that receives a view cannot read rows uncounted.
impl Store {
    /// Returns the rows of a table in the order of its key. No row is counted.
    pub fn rows_by_key(&self, table: usize) -> TableRows<'_>
        requires { table < length self.now.tables }
        ensures { result ≡ rows_at self.now.tables table }
    {
        TableRows {
            relation: self.table(table),
            order: Order::Key,
        }
    }

    /// Returns the rows of a table ordered by the values in the column of the index at a place of the table's indexes, and by their keys
    /// within a value. A TREE index has this order; for a HASH index the references are sorted first. No row is counted. Fails with
    /// `AllocError` if an allocation fails.
    pub fn rows_by_index(
        &self,
        alloc: Global,
        table: usize,
        place: usize,
        column: usize,
        kind: IndexKind,
    ) -> Result<TableRows<'_>, AllocError>
        requires there { table < length self.now.tables }
        requires index { (stored : Stored) → IsAt self.now table stored → HasIndex stored.indexes place column kind }
        requires column { (stored : Stored) → IsAt self.now table stored → column < length stored.places.types }
        ensures { IfOk result (λ rows. (stored : Stored) → IsAt self.now table stored → rows ≡ rows_in_order column stored) }
    {
        let relation = self.table(table);
        let order = match kind {
            IndexKind::Tree => Order::Tree { place, column },
            IndexKind::Hash => Order::Made(relation.ordered_by(alloc, column)?),
        };
        Ok(TableRows { relation, order })
    }
}

impl<'a> TableRows<'a> {
    /// Returns the number of rows.
    pub fn len(&self) -> usize
        ensures { result ≡ length self.now }
    {
        match &self.order {
            Order::Key => self.relation.len(),
            Order::Tree { .. } => self.relation.len(),
            Order::Made(tree) => tree.len(),
        }
    }

    /// Returns a reader of the rows, from the first one on.
    pub fn reader(&self) -> StoredRows<'_>
        ensures { result ≡ self.now }
    {
        // The arms hold different borrows, so each returns.
        match &self.order {
            Order::Key => return along_key(self.relation),
            Order::Tree { place, .. } => return along_index(self.relation, *place),
            Order::Made(tree) => return along_tree(self.relation, tree),
        }
    }
}

impl<'a> StoredRows<'a> {
    /// Removes and returns the next row, or `None` at the end.
    pub fn next(&mut self) -> Option<RowView<'a>>
        ensures { MatchOption result (self.old ≡ []) (λ row. self.old ≡ viewed row ∷ self.new) }
    {
        let at = self.walk.next()?;
        Some(self.relation.row(at))
    }
}

/// Returns a reader of the rows of a table in the order of its key.
fn along_key(relation: &IndexedRows) -> StoredRows<'_>
    requires { length relation.now.refs ≤ most_rows }
    ensures { result ≡ rows_of relation.now }
{
    let walk = relation.by_key();
    StoredRows { relation, walk }
}

/// Returns a reader of the rows of a table along its TREE index at a place.
fn along_index(relation: &IndexedRows, place: usize) -> StoredRows<'_>
    requires few { length relation.now.refs ≤ most_rows }
    requires apart { AreApart relation.now.key (slot_at relation.now.places) }
    requires tree { (column : ℕ) × HasIndex relation.now.indexes place column Tree }
    ensures { (column : ℕ) → HasIndex relation.now.indexes place column Tree → result ≡ rows_in_order column relation.now }
{
    let walk = relation.tree_walk(place);
    StoredRows { relation, walk }
}

/// Returns a reader of the rows of a table in the order of a tree.
fn along_tree<'a>(relation: &'a IndexedRows, tree: &'a TTree) -> StoredRows<'a>
    requires live { All (IsLive relation.now.places) tree.now.refs }
    requires few { length tree.now.refs ≤ most_rows }
    ensures { result ≡ map (row_at (slot_at relation.now.places)) tree.now.refs }
{
    let walk = tree.iter();
    StoredRows { relation, walk }
}
