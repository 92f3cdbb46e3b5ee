//! Multisets of rows of any types, found by hash.
ghost use Rattle.std.specs.Prelude.{◌≡◌, ◌+◌, ◌≤◌, ◌<◌, ◌^◌, ◌⊎◌, pos, ◌+ℤ◌, ◌≤ℤ◌, ◌<ℤ◌, true, [], false, length, OnOk, OnErr};
ghost use Rattle.indexmap.specs.IndexMap.{spare};
ghost use Rattle.mm_multiset.specs.Counts.{Adds, IsOnce, count_in, has_entry, total_of};

use crate::signed::Signed;
use indexmap::IndexMap;
use indexmap::map::{IntoIter, Iter};
use mm_value::Row;
use std::alloc::{AllocError, Global};
use std::marker::Model;

/// The rows of a change with their counts: each row has one entry.
#[derive(Drop)]
pub(crate) struct Counted {
    counts: IndexMap<Row, usize>,
    total: usize,
}

impl Model for Counted {
    ghost use Rattle.std.specs.Prelude.{◌≡◌};
    ghost use Rattle.indexmap.specs.IndexMap.{spare};
    ghost use Rattle.mm_multiset.specs.Counts.{IsOnce, total_of};
    ghost use Rattle.mm_multiset.specs.Tally.{CountedRows};

    ghost Value = { CountedRows };

    ghost view = { λ c. record { entries = c.counts.entries; room = spare c.counts } };

    ghost invariant = { λ c. IsOnce c.counts.entries × (c.total ≡ total_of c.counts.entries) };
}

impl Counted {
    /// Returns an empty multiset. Allocates nothing.
    pub(crate) fn new(alloc: Global) -> Counted
        ensures { result.entries ≡ [] }
    {
        Counted {
            counts: IndexMap::new(alloc),
            total: 0,
        }
    }

    /// Reserves capacity for `n` new entries. Fails with `AllocError` if an allocation fails.
    pub(crate) fn reserve(&mut self, n: usize) -> Result<(), AllocError>
        ensures room { OnOk result (n ≤ self.new.room) }
        ensures entries { self.new.entries ≡ self.old.entries }
        ensures kept { self.old.room ≤ self.new.room }
    {
        self.counts.reserve(n)
    }

    /// Returns the number of entries.
    pub(crate) fn len(&self) -> usize
        ensures entries { result ≡ length self.now.entries }
        ensures once { IsOnce self.now.entries }
    {
        self.counts.len()
    }

    /// Returns the count of a row: 0 if it has no entry.
    pub(crate) fn count(&self, row: &Row) -> usize
        ensures { result ≡ count_in row.now self.now.entries }
    {
        self.counts.get(row).copied().unwrap_or(0)
    }

    /// Returns whether a row has an entry.
    pub(crate) fn has_entry(&self, row: &Row) -> bool
        ensures { result ≡ has_entry row.now self.now.entries }
    {
        self.counts.contains_key(row)
    }

    /// Returns the sum of all counts.
    pub(crate) fn total(&self) -> usize
        ensures { result ≡ total_of self.now.entries }
    {
        self.total
    }

    /// Iterates over the entries with their counts.
    pub(crate) fn entries(&self) -> Iter<'_, Row, usize>
        ensures entries { result ≡ self.now.entries }
        ensures once { IsOnce self.now.entries }
    {
        self.counts.iter()
    }

    /// Iterates over the entries with their counts, without copying rows.
    pub(crate) fn into_entries(self) -> IntoIter<Row, usize>
        ensures entries { result ≡ self.entries }
        ensures once { IsOnce self.entries }
    {
        self.counts.into_iter()
    }

    /// Adds to the count of a row. Requires an entry of the row or capacity for one, a count that stays at 0 or above, and a total that
    /// stays below 2^64. Allocates nothing.
    pub(crate) fn add(&mut self, change: Signed)
        requires room { (has_entry change.row self.old.entries ≡ true) ⊎ (0 < self.old.room) }
        requires count { pos 0 ≤ℤ (pos (count_in change.row self.old.entries) +ℤ change.count) }
        requires total { (pos (total_of self.old.entries) +ℤ change.count) <ℤ pos (2 ^ 64) }
        ensures { Adds change self.old.entries self.new.entries }
    {
        let Signed { row, count } = change;
        self.total = changed(self.total, count);
        add_count(&mut self.counts, row, count);
    }

    /// Adds 1 to the count of a row, and reserves capacity for its entry if necessary. Fails with `AllocError` if an allocation fails, or
    /// if the total would be 2^64; then the entries are unchanged.
    pub(crate) fn count_up(&mut self, row: Row) -> Result<(), AllocError>
        ensures counted { OnOk result (Adds (record { row = row; count = pos 1 }) self.old.entries self.new.entries) }
        ensures unchanged { OnErr result (self.new.entries ≡ self.old.entries) }
    {
        if self.total == usize::MAX {
            return Err(AllocError);
        }
        self.reserve(1)?;
        self.add(Signed { row, count: 1 });
        Ok(())
    }
}

// Adds to the count of a row. Requires an entry of the row or capacity for one.
fn add_count(counts: &mut IndexMap<Row, usize>, row: Row, change: i128)
    requires room { (has_entry row counts.old.entries ≡ true) ⊎ (0 < spare counts.old) }
    requires once { IsOnce counts.old.entries }
    requires least { pos 0 ≤ℤ (pos (count_in row counts.old.entries) +ℤ change) }
    requires most { (pos (count_in row counts.old.entries) +ℤ change) <ℤ pos (2 ^ 64) }
    ensures added { Adds (record { row = row; count = change }) counts.old.entries counts.new.entries }
    ensures total { pos (total_of counts.new.entries) ≡ pos (total_of counts.old.entries) +ℤ change }
    ensures once { IsOnce counts.new.entries }
{
    let is_new = !change_found(counts, &row, change);
    if is_new {
        counts.insert(row, changed(0, change)).unwrap();
    }
}

// Adds to the count of a row if it has an entry, and returns whether it has.
fn change_found(counts: &mut IndexMap<Row, usize>, row: &Row, change: i128) -> bool
    requires once { IsOnce counts.old.entries }
    requires least { pos 0 ≤ℤ (pos (count_in row.now counts.old.entries) +ℤ change) }
    requires most { (pos (count_in row.now counts.old.entries) +ℤ change) <ℤ pos (2 ^ 64) }
    ensures found { result ≡ has_entry row.now counts.old.entries }
    ensures added { has_entry row.now counts.old.entries ≡ true
        → Adds (record { row = row.now; count = change }) counts.old.entries counts.new.entries }
    ensures total { has_entry row.now counts.old.entries ≡ true
        → pos (total_of counts.new.entries) ≡ pos (total_of counts.old.entries) +ℤ change }
    ensures once { IsOnce counts.new.entries }
    ensures kept { has_entry row.now counts.old.entries ≡ false → counts.new ≡ counts.old }
{
    match counts.get_mut(row) {
        Some(count) => {
            *count = changed(*count, change);
            true
        }
        None => false,
    }
}

// Returns the sum of a number and a change.
fn changed(number: usize, change: i128) -> usize
    requires least { pos 0 ≤ℤ (pos number +ℤ change) }
    requires most { (pos number +ℤ change) <ℤ pos (2 ^ 64) }
    ensures { pos result ≡ pos number +ℤ change }
{
    (number as i128 + change) as usize
}
