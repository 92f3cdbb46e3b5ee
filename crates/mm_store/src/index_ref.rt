//! The index in which values of a column are looked up.
ghost use Rattle.std.specs.Prelude.{◌≡◌, ℕ, ◌≤◌, length, All, OnOk, OnErr};
ghost use Rattle.std.specs.Option.{option_map};
ghost use Rattle.mm_partition.specs.Places.{IsLive, slot_at};
ghost use Rattle.mm_value.specs.Views.{value_of};
ghost use Rattle.mm_indexed.specs.Reads.{Appends, AreMatches, IsRange, IsWalk};
ghost use Rattle.mm_indexed.specs.Twins.{AreApart};
ghost use Rattle.mm_store.specs.Looked.{IsFirstOn, IsFirstSuch, IsHash, IsIndexOn, IsTree};
ghost use Rattle.mm_schema.specs.Rows.{most_rows};

use mm_indexed::IndexedRows;
use mm_schema::IndexKind;
use mm_value::{RowRef, ValueRef};
use std::alloc::{AllocError, Global};
use ttree::Iter;

/// An index of a table.
#[derive(Clone, Copy, Debug, PartialEq, Eq)]
pub enum IndexRef {
    /// The index on the key, which is a tree.
    Key,
    /// The TREE index at this place among the table's indexes besides the one on the key, counted from 0.
    Tree(usize),
    /// The HASH index at this place among the table's indexes besides the one on the key, counted from 0.
    Hash(usize),
}

/// Returns the index of a table on a column that was created first, or `None` if the column has none.
pub(crate) fn first_index(relation: &IndexedRows, column: usize) -> Option<IndexRef>
    ensures { IsFirstOn relation.now column result }
{
    if column == relation.key() {
        return Some(IndexRef::Key);
    }
    let tree = relation.index_of(column, IndexKind::Tree);
    let hash = relation.index_of(column, IndexKind::Hash);
    match (tree, hash) {
        (Some(tree), Some(hash)) if tree < hash => Some(IndexRef::Tree(tree)),
        (Some(_), Some(hash)) => Some(IndexRef::Hash(hash)),
        (Some(tree), None) => Some(IndexRef::Tree(tree)),
        (None, Some(hash)) => Some(IndexRef::Hash(hash)),
        (None, None) => None,
    }
}

/// Returns the tree of a table on a column that was created first, or `None` if the column has none. The tree on the key is the first.
pub(crate) fn first_tree(relation: &IndexedRows, column: usize) -> Option<IndexRef>
    ensures { IsFirstSuch IsTree relation.now column result }
{
    if column == relation.key() {
        return Some(IndexRef::Key);
    }
    let place = relation.index_of(column, IndexKind::Tree)?;
    Some(IndexRef::Tree(place))
}

/// Returns the HASH index of a table on a column that was created first, or `None` if the column has none.
pub(crate) fn first_hash(relation: &IndexedRows, column: usize) -> Option<IndexRef>
    ensures { IsFirstSuch IsHash relation.now column result }
{
    let place = relation.index_of(column, IndexKind::Hash)?;
    Some(IndexRef::Hash(place))
}

/// Appends the references of the rows of a table that have this value in the column of an index, in no particular order. Fails with
/// `AllocError` if an allocation fails; then nothing is appended.
pub(crate) fn append_matches(
    alloc: Global,
    relation: &IndexedRows,
    index: IndexRef,
    value: ValueRef<'_>,
    out: &mut Vec<RowRef>,
) -> Result<(), AllocError>
    requires index { (column : ℕ) × IsIndexOn relation.now column index }
    requires apart { AreApart relation.now.key (slot_at relation.now.places) }
    ensures ok { OnOk result ((column : ℕ) → IsIndexOn relation.now column index
        → Appends (AreMatches column (slot_at relation.now.places) (value_of value.entry) relation.now.refs) out.old.items out.new.items) }
    ensures err { OnErr result (out.new.items ≡ out.old.items) }
{
    relation.is_kept();
    match index {
        IndexRef::Key => relation.key_range(alloc, Some(value), Some(value), out),
        IndexRef::Tree(place) => {
            relation.tree_range(alloc, place, Some(value), Some(value), out)
        }
        IndexRef::Hash(place) => relation.hash_matches(alloc, place, value, out),
    }
}

/// Returns the references of all rows of a table along a tree: at most 1,048,576. Copies nothing.
pub(crate) fn tree_walk(relation: &IndexedRows, index: IndexRef) -> Iter<'_>
    requires tree { (column : ℕ) × IsIndexOn relation.now column index × IsTree index }
    requires few { length relation.now.refs ≤ most_rows }
    ensures walk { (column : ℕ) → IsIndexOn relation.now column index → IsWalk column relation.now result }
    ensures keys { index ≡ IndexRef.Key → result ≡ relation.now.refs }
    ensures live { All (IsLive relation.now.places) result }
{
    relation.is_kept();
    match index {
        IndexRef::Key => relation.by_key(),
        IndexRef::Tree(place) => relation.tree_walk(place),
        IndexRef::Hash(_) => unreachable!(),
    }
}

/// Appends the references of the rows of a table whose values in the column of a tree are between two ends, both included, in the
/// order of the walk along it. `None` leaves an end open. Fails with `AllocError` if an allocation fails; then nothing is appended.
pub(crate) fn append_range(
    alloc: Global,
    relation: &IndexedRows,
    index: IndexRef,
    low: Option<ValueRef<'_>>,
    high: Option<ValueRef<'_>>,
    out: &mut Vec<RowRef>,
) -> Result<(), AllocError>
    requires tree { (column : ℕ) × IsIndexOn relation.now column index × IsTree index }
    requires apart { AreApart relation.now.key (slot_at relation.now.places) }
    ensures ok { OnOk result ((column : ℕ) → IsIndexOn relation.now column index
        → Appends (IsRange column relation.now (option_map value_of low.entry) (option_map value_of high.entry)) out.old.items out.new.items) }
    ensures err { OnErr result (out.new.items ≡ out.old.items) }
{
    relation.is_kept();
    match index {
        IndexRef::Key => relation.key_range(alloc, low, high, out),
        IndexRef::Tree(place) => relation.tree_range(alloc, place, low, high, out),
        IndexRef::Hash(_) => unreachable!(),
    }
}
