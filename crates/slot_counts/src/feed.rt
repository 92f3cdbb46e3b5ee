//! The numbers that a reader of counts was last told.
ghost use Rattle.std.specs.Prelude.{◌≡◌, ℕ, ◌+◌, ◌-◌, ◌<◌, ◌≤◌, ◌^◌, ◌++◌, ◌∷◌, [], true, false};
ghost use Rattle.std.specs.Prelude.{length, slice_index_or, slice_set, IfNone, IfSome, OnOk};
ghost use Rattle.slot_counts.specs.Numbers.{differs, shown_count};

use crate::slot_set::SlotSet;
use std::alloc::{AllocError, Global};
use std::marker::Model;

/// For each slot the number that was last told, and the slots whose number differs now.
#[derive(Drop)]
pub(crate) struct Feed {
    distinct: bool,
    told: Vec<u32>,
    changed: SlotSet,
}

impl Model for Feed {
    ghost use Rattle.std.specs.Prelude.{◌≡◌, ◌-◌, length, min, vec_capacity, vec_len};
    ghost use Rattle.slot_counts.specs.Numbers.{Fed};

    ghost Value = { Fed };

    ghost view = { λ f. record {
      distinct = f.distinct;
      told = f.told.items;
      changed = f.changed.has;
      room = min f.changed.room (vec_capacity f.told - vec_len f.told);
    } };

    ghost invariant = { λ f. vec_len f.told ≡ length f.changed.has };
}

impl Feed {
    /// Returns a feed of no slots. With `distinct`, a count above 1 is told as 1. Allocates nothing.
    pub(crate) fn new(alloc: Global, distinct: bool) -> Feed
        ensures distinct { result.distinct ≡ distinct }
        ensures told { result.told ≡ [] }
        ensures changed { result.changed ≡ [] }
    {
        Feed {
            distinct,
            told: Vec::new(alloc),
            changed: SlotSet::new(alloc),
        }
    }

    /// Reserves capacity for `n` more slots. Fails with `AllocError` if an allocation fails; the feed never changes.
    pub(crate) fn reserve(&mut self, n: usize) -> Result<(), AllocError>
        ensures room { OnOk result (n ≤ self.new.room) }
        ensures distinct { self.new.distinct ≡ self.old.distinct }
        ensures told { self.new.told ≡ self.old.told }
        ensures changed { self.new.changed ≡ self.old.changed }
        ensures kept { self.old.room ≤ self.new.room }
    {
        self.changed.reserve(n)?;
        self.told.reserve(n)
    }

    /// Appends a slot, for which 0 was told. Allocates nothing.
    pub(crate) fn grow(&mut self)
        requires room { 0 < self.old.room }
        requires few { length self.old.told < 2 ^ 32 - 1 }
        ensures distinct { self.new.distinct ≡ self.old.distinct }
        ensures told { self.new.told ≡ self.old.told ++ 0 ∷ [] }
        ensures changed { self.new.changed ≡ self.old.changed ++ false ∷ [] }
        ensures room { self.new.room + 1 ≡ self.old.room }
    {
        self.told.push_reserved(0);
        self.changed.grow();
    }

    /// Records the current count of a slot. Allocates nothing.
    pub(crate) fn note(&mut self, slot: usize, count: u32)
        requires { slot < length self.old.told }
        ensures distinct { self.new.distinct ≡ self.old.distinct }
        ensures told { self.new.told ≡ self.old.told }
        ensures changed { self.new.changed
            ≡ slice_set self.old.changed slot (differs (shown_count self.old.distinct count) (slice_index_or self.old.told slot 0)) }
        ensures room { self.new.room ≡ self.old.room }
    {
        let shown = self.shown(count);
        self.changed.mark(slot, shown != self.told[slot]);
    }

    /// Returns a slot whose number differs from what was last told, or `None` if there is none.
    pub(crate) fn next(&self) -> Option<u32>
        ensures some { IfSome result (λ slot. slice_index_or self.now.changed slot false ≡ true) }
        ensures none { IfNone result ((slot : ℕ) → slice_index_or self.now.changed slot false ≡ false) }
    {
        self.changed.last()
    }

    /// Returns the number of slots whose number differs from what was last told.
    pub(crate) fn changes(&self) -> usize {
        let changed = self.changed.as_slice();
        changed.len()
    }

    /// Records that a number was told for a slot, and returns the one that was told before. Allocates nothing.
    pub(crate) fn tell(&mut self, slot: usize, number: u32) -> u32
        requires { slot < length self.old.told }
        ensures before { result ≡ slice_index_or self.old.told slot 0 }
        ensures distinct { self.new.distinct ≡ self.old.distinct }
        ensures told { self.new.told ≡ slice_set self.old.told slot number }
        ensures changed { self.new.changed ≡ slice_set self.old.changed slot false }
        ensures room { self.new.room ≡ self.old.room }
    {
        let before = self.told[slot];
        self.told[slot] = number;
        self.changed.mark(slot, false);
        before
    }

    /// Returns the number that was last told for a slot.
    pub(crate) fn told(&self, slot: usize) -> u32
        requires { slot < length self.now.told }
        ensures { result ≡ slice_index_or self.now.told slot 0 }
    {
        self.told[slot]
    }

    /// Returns the number to tell for a count.
    pub(crate) fn shown(&self, count: u32) -> u32
        ensures { result ≡ shown_count self.now.distinct count }
    {
        if self.distinct { count.min(1) } else { count }
    }
}
