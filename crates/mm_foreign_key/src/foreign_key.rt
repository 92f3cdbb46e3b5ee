//! The tuple pointers of one foreign key.
ghost use Rattle.std.specs.Prelude.{◌≡◌, ◌+◌, ◌<◌, ◌≤◌, ◌↔◌, ◌^◌, ◌++◌, ℕ, max, Some, None, length, vec_len, vec_capacity, replicate, IsTrue, IsOk, OnOk, OnErr};
ghost use Rattle.mm_foreign_key.specs.declared.foreign_key.TheConstants.{MAX_SLOTS};
ghost use Rattle.mm_foreign_key.specs.Ties.{target_at, HasTarget, IsReferred, KeepsTargets, ChangesTarget};

use crate::slots::{NONE, reference_to};
use mm_value::RowRef;
use std::alloc::{AllocError, Global};
use std::marker::Model;
use std::mem;

/// The maximum number of slots of either table: an index and a count have 32 bits.
const MAX_SLOTS: usize = u32::MAX as usize;

/// The tuple pointers of one foreign key: for each row of the referring table, the row of the target table that it refers to (Lehman and
/// Carey, SIGMOD 1986). Following a reference needs no search. Testing whether a row is referenced needs none either, since the number of
/// rows that refer to each target is stored.
///
/// A row is known by its reference only. There is an entry for each slot of the referring table and a count for each slot of the target
/// table, at most 2^32 - 1 of either. Only `reserve` allocates, and the time of every other call does not depend on the number of rows.
#[derive(Drop)]
pub struct ForeignKey {
    /// For each slot of the referring table, the slot index of its row's target, or `NONE`.
    targets: Vec<u32>,
    /// For each slot of the target table, the number of rows that refer to its row.
    counts: Vec<u32>,
}

impl Model for ForeignKey {
    ghost use Rattle.std.specs.Prelude.{length};
    ghost use Rattle.mm_foreign_key.specs.Ties.{Ties};

    ghost Value = { Ties };

    ghost use Rattle.mm_foreign_key.specs.Counts.{IsCounted, entries_of};

    ghost view = { λ key. record {
      targets = entries_of key.targets.items;
      extent = length key.counts.items;
    } };

    ghost invariant = { λ key. IsCounted (entries_of key.targets.items) key.counts.items };
}

/// Reserves capacity for `len` items in total. Fails with `AllocError` if an allocation fails, or if `len` exceeds both the number of items
/// and the maximum number of slots. The items are unchanged in any case.
fn reserve_to<T>(items: &mut Vec<T>, len: usize) -> Result<(), AllocError>
    ensures room { OnOk result (len ≤ vec_capacity items.new) }
    ensures limit { OnOk result (len ≤ max (vec_len items.old) MAX_SLOTS) }
    ensures met { len ≤ vec_len items.old → IsOk result }
    ensures items { items.new.items ≡ items.old.items }
{
    let more = len.saturating_sub(items.len());
    if more > 0 && len > MAX_SLOTS {
        return Err(AllocError);
    }
    items.reserve(more)
}

/// Appends copies of a value until there are at least `len` items. Requires the capacity.
fn fill_to<T: Copy>(items: &mut Vec<T>, len: usize, value: T)
    requires { len ≤ vec_capacity items.old }
    ensures len { vec_len items.new ≡ max (vec_len items.old) len }
    ensures items { (more : ℕ) × (items.new.items ≡ items.old.items ++ replicate more value) }
{
    if len > items.len() {
        let _ = items.resize(len, value);
    }
}

impl ForeignKey {
    /// Returns a foreign key without references and entries. Allocates nothing.
    pub fn new(alloc: Global) -> Self
        ensures targets { (from : RowRef) → target_at result from ≡ None }
        ensures referrers { length result.targets ≡ 0 }
        ensures extent { result.extent ≡ 0 }
    {
        ForeignKey {
            targets: Vec::new(alloc),
            counts: Vec::new(alloc),
        }
    }

    /// Creates entries for all referring rows whose slot index is below `referrers`, and counts for all targets whose slot index is below
    /// `targets`. Fails with `AllocError` if an allocation fails, or if a number exceeds 2^32 - 1; then nothing changes. No reference
    /// changes, and no entry is removed. Existing entries are not visited, except when the allocator moves them.
    pub fn reserve(
        &mut self,
        _alloc: Global,
        referrers: usize,
        targets: usize,
    ) -> Result<(), AllocError>
        ensures ok_referrers { OnOk result (referrers ≤ length self.new.targets) }
        ensures ok_extent { OnOk result (targets ≤ self.new.extent) }
        ensures met { referrers ≤ length self.old.targets → targets ≤ self.old.extent → IsOk result }
        ensures err { OnErr result (self.new ≡ self.old) }
        ensures targets { KeepsTargets self.old self.new }
        ensures referrers { length self.old.targets ≤ length self.new.targets }
        ensures extent { self.old.extent ≤ self.new.extent }
    {
        reserve_to(&mut self.targets, referrers)?;
        reserve_to(&mut self.counts, targets)?;
        fill_to(&mut self.targets, referrers, NONE);
        fill_to(&mut self.counts, targets, 0);
        Ok(())
    }

    /// Returns the row that a row refers to, or `None` if it refers to none.
    pub fn target(&self, from: RowRef) -> Option<RowRef>
        ensures { result ≡ target_at self.now from }
    {
        let index = from.slot as usize;
        if index >= self.targets.len() {
            return None;
        }
        reference_to(self.targets[index])
    }

    /// Returns whether some row refers to a row.
    pub fn is_referred(&self, to: RowRef) -> bool
        ensures { IsTrue result ↔ IsReferred self.now to }
    {
        let index = to.slot as usize;
        index < self.counts.len() && self.counts[index] > 0
    }

    /// Sets the target of a row without one. Requires an entry for the row and a count for the target.
    pub fn tie(&mut self, from: RowRef, to: RowRef)
        requires from_within { from.slot < length self.old.targets }
        requires to_within { to.slot < self.old.extent }
        requires untied { target_at self.old from ≡ None }
        ensures tied { ChangesTarget self.old self.new from (Some to) }
        ensures referrers { length self.new.targets ≡ length self.old.targets }
        ensures extent { self.new.extent ≡ self.old.extent }
    {
        self.counts[to.slot as usize] += 1;
        self.targets[from.slot as usize] = to.slot;
    }

    /// Removes the target of a row, which must have one.
    pub fn untie(&mut self, from: RowRef)
        requires { HasTarget self.old from }
        ensures untied { ChangesTarget self.old self.new from None }
        ensures referrers { length self.new.targets ≡ length self.old.targets }
        ensures extent { self.new.extent ≡ self.old.extent }
    {
        let place = mem::replace(&mut self.targets[from.slot as usize], NONE);
        self.counts[place as usize] -= 1;
    }
}
