//! One reference in a tree.
ghost use Rattle.std.specs.Prelude.{◌≡◌, ◌≢◌, ◌+◌, ◌<◌, ◌≤◌, ◌↔◌, ◌∷◌, List, length, All, Contains, IsPermutation, IfSome, IsTrue};
ghost use Rattle.std.specs.Bool.{OnTrue};
ghost use Rattle.std.specs.declared.cmp.Ordering.TheVariants.{Equal};
ghost use Rattle.mm_value.specs.declared.row_ref.RowRef.{RowRef};
ghost use Rattle.mm_order.specs.Refs.{AddsInOrder};
ghost use Rattle.mm_partition.specs.Places.{slot_at, IsLive, IsHidden};
ghost use Rattle.mm_row_order.specs.Refs.{IsWide, refs_by};
ghost use Rattle.mm_row_order.specs.InOrder.{InOrder};
ghost use Rattle.mm_indexed.specs.Stays.{agrees, beside};

use crate::moves::agree;
use mm_order::OrderedRefs;
use mm_partition::Partitions;
use mm_row_order::{ByColumn, ByNumbers, NumberKeys, number_keys};
use mm_value::RowRef;
use ttree::TTree;

/// Inserts a reference into a tree that orders rows by a column. Requires that no entry compares equal to it.
fn put(rows: &Partitions, column: usize, key: usize, tree: &mut TTree, at: RowRef)
    requires spare { 1 ≤ tree.old.spare }
    requires ordered { InOrder column key (slot_at rows.now) tree.old.refs }
    requires wide { IsWide column key (slot_at rows.now) at }
    requires apart { All (λ a. refs_by column key (slot_at rows.now) a at ≢ Equal) tree.old.refs }
    ensures refs { AddsInOrder (refs_by column key (slot_at rows.now)) tree.old.refs at tree.new.refs }
    ensures ordered { InOrder column key (slot_at rows.now) tree.new.refs }
    ensures spare { tree.old.spare ≤ tree.new.spare + 1 }
{
    match number_keys(rows, column, key) {
        Some(NumberKeys { values, ties }) => {
            let order = ByNumbers {
                rows,
                column,
                key,
                values,
                ties,
            };
            tree.insert(&order, at)
        }
        None => {
            let order = ByColumn {
                rows,
                column,
                key,
                values: rows.keys(column),
                ties: rows.keys(key),
            };
            tree.insert(&order, at)
        }
    }
}

/// Removes a reference from a tree that orders rows by a column, and returns whether it was there.
fn take(rows: &Partitions, column: usize, key: usize, tree: &mut TTree, at: RowRef) -> bool
    requires ordered { InOrder column key (slot_at rows.now) tree.old.refs }
    requires wide { IsWide column key (slot_at rows.now) at }
    ensures held { IsTrue result ↔ Contains tree.old.refs at }
    ensures taken { OnTrue result (AddsInOrder (refs_by column key (slot_at rows.now)) tree.new.refs at tree.old.refs) }
    ensures ordered { InOrder column key (slot_at rows.now) tree.new.refs }
    ensures spare { tree.old.spare ≤ tree.new.spare }
{
    match number_keys(rows, column, key) {
        Some(NumberKeys { values, ties }) => {
            let order = ByNumbers {
                rows,
                column,
                key,
                values,
                ties,
            };
            tree.remove(&order, at)
        }
        None => {
            let order = ByColumn {
                rows,
                column,
                key,
                values: rows.keys(column),
                ties: rows.keys(key),
            };
            tree.remove(&order, at)
        }
    }
}

/// Inserts the reference of a row in use into a tree that orders rows by a column and does not contain it.
pub fn insert(rows: &Partitions, column: usize, key: usize, tree: &mut TTree, at: RowRef)
    requires column { column < length rows.now.types }
    requires key { key < length rows.now.types }
    requires live { IsLive rows.now at }
    requires spare { 1 ≤ tree.old.spare }
    requires ordered { InOrder column key (slot_at rows.now) tree.old.refs }
    requires absent { All (λ a. a ≢ at) tree.old.refs }
    ensures refs { IsPermutation tree.new.refs (at ∷ tree.old.refs) }
    ensures ordered { InOrder column key (slot_at rows.now) tree.new.refs }
    ensures spare { tree.old.spare ≤ tree.new.spare + 1 }
{
    rows.have_types();
    put(rows, column, key, tree, at);
}

/// Removes the reference of a row from a tree that orders rows by a column and contains it.
pub fn remove(rows: &Partitions, column: usize, key: usize, tree: &mut TTree, at: RowRef)
    requires ordered { InOrder column key (slot_at rows.now) tree.old.refs }
    requires held { Contains tree.old.refs at }
    ensures refs { IsPermutation tree.old.refs (at ∷ tree.new.refs) }
    ensures absent { All (λ a. a ≢ at) tree.new.refs }
    ensures ordered { InOrder column key (slot_at rows.now) tree.new.refs }
    ensures spare { tree.old.spare ≤ tree.new.spare }
{
    take(rows, column, key, tree, at);
}

/// Removes the reference of a row, unless it keeps its place when the row and a hidden one change places.
pub fn remove_unless_stays(
    rows: &Partitions,
    column: usize,
    key: usize,
    tree: &mut TTree,
    at: RowRef,
    other: Option<RowRef>,
)
    requires column { column < length rows.now.types }
    requires key { key < length rows.now.types }
    requires live { IsLive rows.now at }
    requires hidden { IfSome other (IsHidden rows.now) }
    requires ordered { InOrder column key (slot_at rows.now) tree.old.refs }
    requires held { Contains tree.old.refs at }
    ensures refs { (held : List RowRef) → IsPermutation tree.old.refs (at ∷ held)
        → IsPermutation tree.new.refs (beside (agrees column key (slot_at rows.now) at other) at held) }
    ensures ordered { InOrder column key (slot_at rows.now) tree.new.refs }
    ensures spare { tree.old.spare ≤ tree.new.spare }
{
    if agree(rows, column, key, at, other) {
        return;
    }
    remove(rows, column, key, tree, at);
}

/// Inserts the reference of a row, unless it kept its place when the row and a hidden one changed places.
pub fn insert_unless_stays(
    rows: &Partitions,
    column: usize,
    key: usize,
    tree: &mut TTree,
    at: RowRef,
    other: Option<RowRef>,
)
    requires column { column < length rows.now.types }
    requires key { key < length rows.now.types }
    requires live { IsLive rows.now at }
    requires hidden { IfSome other (IsHidden rows.now) }
    requires ordered { InOrder column key (slot_at rows.now) tree.old.refs }
    requires held { (held : List RowRef) × All (λ a. a ≢ at) held
        × IsPermutation tree.old.refs (beside (agrees column key (slot_at rows.now) at other) at held) }
    requires spare { 1 ≤ tree.old.spare }
    ensures refs { (held : List RowRef) → IsPermutation tree.old.refs (beside (agrees column key (slot_at rows.now) at other) at held)
        → IsPermutation tree.new.refs (at ∷ held) }
    ensures ordered { InOrder column key (slot_at rows.now) tree.new.refs }
    ensures spare { tree.old.spare ≤ tree.new.spare + 1 }
{
    if agree(rows, column, key, at, other) {
        return;
    }
    insert(rows, column, key, tree, at);
}
