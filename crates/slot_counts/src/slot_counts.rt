//! Counts by slot.
ghost use Rattle.std.specs.Prelude.{◌≡◌, ◌≢◌, ℕ, ◌+◌, ◌-◌, ◌<◌, ◌≤◌, ◌^◌, ◌++◌, ◌∷◌, [], pos, ◌+ℤ◌, ◌-ℤ◌};
ghost use Rattle.std.specs.Prelude.{◌≤ℤ◌, ◌<ℤ◌, None, Some, is_some, length, map, replicate, slice_index_or, slice_set};
ghost use Rattle.std.specs.Prelude.{IfNone, IfOk, IfSome, IsPermutation, OnErr, OnOk};
ghost use Rattle.std.specs.Option.{option_map};
ghost use Rattle.slot_counts.specs.Numbers.{Fed, IsAllTold, IsChanged, IsCovered, IsRecounted, IsTaken, IsToldSame, IsWritten, Tells};
ghost use Rattle.slot_counts.specs.Numbers.{change_at, grown, is_counted, noted, shown_count, told_at, with_told};
ghost use Rattle.slot_counts.specs.Sets.{indices_from};

use crate::feed::Feed;
use crate::slot_change::SlotChange;
use crate::slot_set::SlotSet;
use std::alloc::{AllocError, Global};
use std::marker::Model;

/// A count for each slot below an extent. A walk over the slots whose count is not 0 takes as many steps as there are such slots.
///
/// With a feed, the number that was last told is kept for each slot, and a slot whose number differs is found in O(1). The number of a slot
/// is its count, or, if the feed is started as `distinct`, 1 for each count above 0.
#[derive(Drop)]
pub struct SlotCounts {
    counts: Vec<u32>,
    counted: SlotSet,
    feed: Option<Feed>,
}

impl Model for SlotCounts {
    ghost use Rattle.std.specs.Prelude.{◌≡◌, ◌-◌, length, map, min, vec_capacity, vec_len, IfSome};
    ghost use Rattle.std.specs.Option.{option_map};
    ghost use Rattle.slot_counts.specs.Numbers.{Fed, Numbers, Tells, is_counted, room_with, shown_count, telling_of};

    ghost Value = { Numbers };

    ghost view = { λ s. record {
      counts = s.counts.items;
      feed = option_map telling_of s.feed;
      room = min (vec_capacity s.counts - vec_len s.counts) (room_with s.counted.room s.feed);
    } };

    ghost invariant = { λ s. (s.counted.has ≡ map is_counted s.counts.items)
        × IfSome s.feed (λ (f : Fed). Tells f.changed (map (shown_count f.distinct) s.counts.items) f.told
        × (length f.told ≡ length s.counts.items)) };
}

impl SlotCounts {
    /// Returns counts of no slots, without a feed. Allocates nothing.
    pub fn new(alloc: Global) -> SlotCounts
        ensures counts { result.counts ≡ [] }
        ensures feed { result.feed ≡ None }
    {
        SlotCounts {
            counts: Vec::new(alloc),
            counted: SlotSet::new(alloc),
            feed: None,
        }
    }

    /// Reserves capacity for `n` more slots. Fails with `AllocError` if an allocation fails; counts and feed never change.
    pub fn reserve(&mut self, n: usize) -> Result<(), AllocError>
        ensures room { OnOk result (n ≤ self.new.room) }
        ensures counts { self.new.counts ≡ self.old.counts }
        ensures feed { self.new.feed ≡ self.old.feed }
        ensures kept { self.old.room ≤ self.new.room }
    {
        self.counts.reserve(n)?;
        self.counted.reserve(n)?;
        match &mut self.feed {
            None => Ok(()),
            Some(feed) => feed.reserve(n),
        }
    }

    /// Returns the allocator.
    pub fn allocator(&self) -> Global {
        *self.counts.allocator()
    }

    /// Sets the count of a slot: an existing slot, or the next one, for which 0 was told. Requires capacity for one more slot. Allocates
    /// nothing.
    pub fn set(&mut self, slot: usize, count: u32)
        requires within { slot ≤ length self.old.counts }
        requires room { 0 < self.old.room }
        requires few { slot < 2 ^ 32 - 1 }
        ensures counts { IsWritten slot count self.old.counts self.new.counts }
        ensures feed { IsToldSame slot self.old self.new.feed }
        ensures room { self.old.room ≤ self.new.room + 1 }
    {
        self.cover(slot);
        self.write(slot, count);
    }

    // Extends the counts to a slot: an existing slot, for which nothing changes, or the next one, whose count is 0.
    fn cover(&mut self, slot: usize)
        requires within { slot ≤ length self.old.counts }
        requires room { 0 < self.old.room }
        requires few { slot < 2 ^ 32 - 1 }
        ensures within { slot < length self.new.counts }
        ensures covered { IsCovered slot self.old self.new }
        ensures room { self.old.room ≤ self.new.room + 1 }
    {
        if slot >= self.counts.len() {
            self.grow();
        }
    }

    // Appends a slot with the count 0.
    fn grow(&mut self)
        requires room { 0 < self.old.room }
        requires few { length self.old.counts < 2 ^ 32 - 1 }
        ensures counts { self.new.counts ≡ self.old.counts ++ 0 ∷ [] }
        ensures feed { self.new.feed ≡ option_map grown self.old.feed }
        ensures room { self.new.room + 1 ≡ self.old.room }
    {
        self.counts.push_reserved(0);
        self.counted.grow();
        match &mut self.feed {
            None => {}
            Some(feed) => feed.grow(),
        }
    }

    /// Returns the count of a slot.
    pub fn count(&self, slot: usize) -> u32
        requires { slot < length self.now.counts }
        ensures { result ≡ slice_index_or self.now.counts slot 0 }
    {
        self.counts[slot]
    }

    /// Adds to the count of a slot. Requires that the new count is between 0 and 2^32 - 1. Allocates nothing.
    pub fn add(&mut self, slot: usize, change: i128)
        requires within { slot < length self.old.counts }
        requires least { pos 0 ≤ℤ (pos (slice_index_or self.old.counts slot 0) +ℤ change) }
        requires most { (pos (slice_index_or self.old.counts slot 0) +ℤ change) <ℤ pos (2 ^ 32) }
        ensures counts { IsRecounted slot change self.old.counts self.new.counts }
        ensures feed { self.new.feed ≡ self.old.feed }
        ensures room { self.new.room ≡ self.old.room }
    {
        let count = changed(self.counts[slot], change);
        self.write(slot, count);
    }

    // Sets the count of an existing slot.
    fn write(&mut self, slot: usize, count: u32)
        requires { slot < length self.old.counts }
        ensures counts { self.new.counts ≡ slice_set self.old.counts slot count }
        ensures feed { self.new.feed ≡ self.old.feed }
        ensures room { self.new.room ≡ self.old.room }
    {
        self.counts[slot] = count;
        self.counted.mark(slot, count != 0);
        note(&mut self.feed, slot, count);
    }

    /// Returns the slots whose count is not 0, in no particular order.
    pub fn counted(&self) -> &[u32]
        ensures { IsPermutation result.now (indices_from 0 (map is_counted self.now.counts)) }
    {
        self.counted.as_slice()
    }

    /// Starts a feed, for which nothing was told yet, in place of an earlier one. With `distinct`, counts above 1 are told as 1. Fails with
    /// `AllocError` if an allocation fails; then nothing changes.
    pub fn start_feed(&mut self, distinct: bool) -> Result<(), AllocError>
        ensures started { OnOk result (self.new.feed ≡ Some (record { distinct = distinct; told = replicate (length self.old.counts) 0 })) }
        ensures refused { OnErr result (self.new.feed ≡ self.old.feed) }
        ensures counts { self.new.counts ≡ self.old.counts }
    {
        let alloc = *self.counts.allocator();
        let feed = feed_of(alloc, self.counts.as_slice(), distinct)?;
        self.feed = Some(feed);
        Ok(())
    }

    /// Ends the feed, if there is one.
    pub fn stop_feed(&mut self)
        ensures feed { self.new.feed ≡ None }
        ensures counts { self.new.counts ≡ self.old.counts }
    {
        self.feed = None;
    }

    /// Returns whether there is a feed.
    pub fn has_feed(&self) -> bool
        ensures { result ≡ is_some self.now.feed }
    {
        self.feed.is_some()
    }

    /// Returns the number that was last told for a slot: 0 without a feed.
    pub fn told(&self, slot: usize) -> u32
        requires { slot < length self.now.counts }
        ensures { result ≡ told_at self.now.feed slot }
    {
        match &self.feed {
            None => 0,
            Some(feed) => feed.told(slot),
        }
    }

    /// Returns the change of a slot whose number differs from what was last told, and records that it is told now. Returns `None` if there
    /// is no such slot, or no feed. Allocates nothing.
    pub fn take_change(&mut self) -> Option<SlotChange>
        ensures some { IfSome result (λ change. IsTaken change.slot change.by self.old self.new) }
        ensures none { IfNone result (IsAllTold self.old.feed self.old.counts) }
        ensures kept { IfNone result (self.new.feed ≡ self.old.feed) }
        ensures counts { self.new.counts ≡ self.old.counts }
        ensures room { self.new.room ≡ self.old.room }
    {
        let slot = self.next_change()?;
        let by = self.tell(slot as usize);
        Some(SlotChange { slot, by })
    }

    /// Returns the number of slots whose number differs from what was last told: 0 without a feed.
    pub fn changes(&self) -> usize {
        match &self.feed {
            None => 0,
            Some(feed) => feed.changes(),
        }
    }

    // Returns a slot whose number differs from what was last told, if there is one.
    fn next_change(&self) -> Option<u32>
        ensures some { IfSome result (λ slot. IsChanged self.now slot) }
        ensures none { IfNone result (IsAllTold self.now.feed self.now.counts) }
    {
        match &self.feed {
            None => None,
            Some(feed) => feed.next(),
        }
    }

    // Records that the number of a slot is told, and returns by how much it differs from the one that was told before.
    fn tell(&mut self, slot: usize) -> i64
        requires { slot < length self.old.counts }
        ensures change { result ≡ change_at self.old slot }
        ensures counts { self.new.counts ≡ self.old.counts }
        ensures feed { self.new.feed ≡ option_map (with_told slot self.old.counts) self.old.feed }
        ensures room { self.new.room ≡ self.old.room }
    {
        let count = self.counts[slot];
        match &mut self.feed {
            None => 0,
            Some(feed) => {
                let shown = feed.shown(count);
                let before = feed.tell(slot, shown);
                shown as i64 - before as i64
            }
        }
    }
}

// Returns a feed of counts of which none was told. Fails with `AllocError` if an allocation fails.
fn feed_of(alloc: Global, counts: &[u32], distinct: bool) -> Result<Feed, AllocError>
    ensures distinct { IfOk result (λ feed. feed.distinct ≡ distinct) }
    ensures told { IfOk result (λ feed. feed.told ≡ replicate (length counts.now) 0) }
    ensures tells { IfOk result (λ feed. Tells feed.changed (map (shown_count distinct) counts.now) feed.told) }
{
    if counts.len() >= u32::MAX as usize {
        return Err(AllocError);
    }
    let mut feed = Feed::new(alloc, distinct);
    feed.reserve(counts.len())?;
    for slot in 0..counts.len() {
        feed.grow();
        feed.note(slot, counts[slot]);
    }
    Ok(feed)
}

// Records the current count of a slot in the feed, if there is one.
fn note(feed: &mut Option<Feed>, slot: usize, count: u32)
    requires { IfSome feed.old (λ (f : Fed). slot < length f.told) }
    ensures { feed.new ≡ option_map (noted slot count) feed.old }
{
    match feed {
        None => {}
        Some(feed) => feed.note(slot, count),
    }
}

/// Returns the number with a change added to it.
pub fn changed(number: u32, change: i128) -> u32
    requires least { pos 0 ≤ℤ (pos number +ℤ change) }
    requires most { (pos number +ℤ change) <ℤ pos (2 ^ 32) }
    ensures { pos result ≡ pos number +ℤ change }
{
    (number as i128 + change) as u32
}
