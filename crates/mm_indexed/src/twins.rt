//! Rows of one key, which are neighbours in the index on the key.
ghost use Rattle.std.specs.Prelude.{◌≡◌, ◌↔◌, cond, nat_lt, Contains, IsTrue};
ghost use Rattle.mm_value.specs.declared.row_ref.RowRef.{RowRef};
ghost use Rattle.mm_partition.specs.Keys.{AreKeys};
ghost use Rattle.mm_partition.specs.Places.{slot_at, IsLive};
ghost use Rattle.mm_row_order.specs.Keys.{AreKeys-prop};
ghost use Rattle.mm_row_order.specs.Refs.{HasRow, IsWide};
ghost use Rattle.mm_row_order.specs.InOrder.{InOrder};
ghost use Rattle.mm_indexed.specs.Twins.{HasTwin, HasTwinAbove, HasTwinBelow, place_above, place_below};

use mm_order::Probe;
use mm_partition::{ColumnKeys, Partitions};
use mm_row_order::{ByColumn, compare_in, find_along};
use mm_value::RowRef;
use std::cmp::Ordering;
use ttree::TTree;

/// Returns `Equal` if the first slot is lower, and otherwise `Greater`.
#[inline(always)]
fn equal_if_lower(slot: u32, than: u32) -> Ordering
    ensures { result ≡ cond (nat_lt slot than) Ordering.Equal Ordering.Greater }
{
    if slot < than {
        Ordering::Equal
    } else {
        Ordering::Greater
    }
}

/// Returns `Equal` if the first slot is higher, and otherwise `Less`.
#[inline(always)]
fn equal_if_higher(slot: u32, than: u32) -> Ordering
    ensures { result ≡ cond (nat_lt than slot) Ordering.Equal Ordering.Less }
{
    if than < slot {
        Ordering::Equal
    } else {
        Ordering::Less
    }
}

/// The references that have the key of a row and lower slots, as a position in the order of the key.
#[derive(Drop)]
pub struct TwinBelow<'a> {
    pub rows: &'a Partitions,
    pub key: usize,
    pub at: RowRef,
    /// The numbers or prefixes of the key.
    pub keys: ColumnKeys<'a>,
    ghost keys_agree: { AreKeys key rows.now keys } by { AreKeys-prop key rows.now keys },
}

impl<'a> Probe for TwinBelow<'a> {
    ghost covers = { λ p a. IsWide p.key p.key (slot_at p.rows.now) a × IsWide p.key p.key (slot_at p.rows.now) p.at };

    ghost place_of = { λ p. place_below p.key (slot_at p.rows.now) p.at };

    #[inline(always)]
    fn place(&self, at: RowRef) -> Ordering {
        let by_key = compare_in(self.rows, self.key, self.keys, at, self.at);
        by_key.then(equal_if_lower(at.slot, self.at.slot))
    }
}

/// The references that have the key of a row and higher slots, as a position in the order of the key.
#[derive(Drop)]
pub struct TwinAbove<'a> {
    pub rows: &'a Partitions,
    pub key: usize,
    pub at: RowRef,
    /// The numbers or prefixes of the key.
    pub keys: ColumnKeys<'a>,
    ghost keys_agree: { AreKeys key rows.now keys } by { AreKeys-prop key rows.now keys },
}

impl<'a> Probe for TwinAbove<'a> {
    ghost covers = { λ p a. IsWide p.key p.key (slot_at p.rows.now) a × IsWide p.key p.key (slot_at p.rows.now) p.at };

    ghost place_of = { λ p. place_above p.key (slot_at p.rows.now) p.at };

    #[inline(always)]
    fn place(&self, at: RowRef) -> Ordering {
        let by_key = compare_in(self.rows, self.key, self.keys, at, self.at);
        by_key.then(equal_if_higher(at.slot, self.at.slot))
    }
}

/// Returns whether another reference of the tree on the key has the key of a row and a lower slot.
fn has_twin_below(rows: &Partitions, key: usize, tree: &TTree, at: RowRef) -> bool
    requires wide { IsWide key key (slot_at rows.now) at }
    requires ordered { InOrder key key (slot_at rows.now) tree.now.refs }
    requires held { (r : RowRef) → Contains tree.now.refs r ↔ HasRow (slot_at rows.now) r }
    ensures { IsTrue result ↔ HasTwinBelow key (slot_at rows.now) at }
{
    let keys = rows.keys(key);
    let order = ByColumn {
        rows,
        column: key,
        key,
        values: keys,
        ties: keys,
    };
    let below = TwinBelow {
        rows,
        key,
        at,
        keys,
    };
    find_along(tree, &order, &below).is_some()
}

/// Returns whether another reference of the tree on the key has the key of a row and a higher slot.
fn has_twin_above(rows: &Partitions, key: usize, tree: &TTree, at: RowRef) -> bool
    requires wide { IsWide key key (slot_at rows.now) at }
    requires ordered { InOrder key key (slot_at rows.now) tree.now.refs }
    requires held { (r : RowRef) → Contains tree.now.refs r ↔ HasRow (slot_at rows.now) r }
    ensures { IsTrue result ↔ HasTwinAbove key (slot_at rows.now) at }
{
    let keys = rows.keys(key);
    let order = ByColumn {
        rows,
        column: key,
        key,
        values: keys,
        ties: keys,
    };
    let above = TwinAbove {
        rows,
        key,
        at,
        keys,
    };
    find_along(tree, &order, &above).is_some()
}

/// Returns whether another reference of the tree on the key has the key of a row.
pub fn has_twin_in(rows: &Partitions, key: usize, tree: &TTree, at: RowRef) -> bool
    requires wide { IsWide key key (slot_at rows.now) at }
    requires ordered { InOrder key key (slot_at rows.now) tree.now.refs }
    requires held { (r : RowRef) → Contains tree.now.refs r ↔ HasRow (slot_at rows.now) r }
    ensures { IsTrue result ↔ HasTwin key (slot_at rows.now) at }
{
    if has_twin_below(rows, key, tree, at) {
        return true;
    }
    has_twin_above(rows, key, tree, at)
}
