//! Sets of slots.
ghost use Rattle.std.specs.Prelude.{◌≡◌, ℕ, ◌+◌, ◌-◌, ◌<◌, ◌≤◌, ◌^◌, ◌++◌, ◌∷◌, [], true};
ghost use Rattle.std.specs.Prelude.{false, length, slice_index_or, slice_set, vec_capacity, vec_len, IfNone, IfSome};
ghost use Rattle.std.specs.Prelude.{IsPermutation, OnOk};
ghost use Rattle.slot_counts.specs.Sets.{IsMoveTold, absent, indices_from};

use std::alloc::{AllocError, Global};
use std::marker::Model;

/// The place of a slot that is not in the set.
const ABSENT: u32 = u32::MAX;

/// A set of slots below an extent: a dense list of the members, and the place of each slot in that list (the sparse set of Briggs and
/// Torczon 1993). Inserting, removing and testing a slot take O(1); a walk takes as many steps as there are members.
#[derive(Drop)]
pub struct SlotSet {
    members: Vec<u32>,
    /// The place of each slot among the members, or `ABSENT`.
    places: Vec<u32>,
}

impl Model for SlotSet {
    ghost use Rattle.std.specs.Prelude.{◌-◌, ◌≤◌, ◌<◌, map, min, vec_capacity, vec_len};
    ghost use Rattle.slot_counts.specs.Sets.{Flags, IsPlaced, is_present, absent};

    ghost Value = { Flags };

    ghost view = { λ s. record {
      has = map is_present s.places.items;
      room = min (vec_capacity s.places) (vec_capacity s.members) - vec_len s.places;
    } };

    ghost invariant = { λ s. IsPlaced s.members.items s.places.items × (vec_len s.places ≤ vec_capacity s.members) };
}

impl SlotSet {
    /// Returns an empty set of extent 0. Allocates nothing.
    pub fn new(alloc: Global) -> SlotSet
        ensures { result.has ≡ [] }
    {
        SlotSet {
            members: Vec::new(alloc),
            places: Vec::new(alloc),
        }
    }

    /// Reserves capacity for `n` more slots. Fails with `AllocError` if an allocation fails; the set never changes.
    pub fn reserve(&mut self, n: usize) -> Result<(), AllocError>
        ensures room { OnOk result (n ≤ self.new.room) }
        ensures has { self.new.has ≡ self.old.has }
        ensures kept { self.old.room ≤ self.new.room }
    {
        let more = (self.places.len() - self.members.len()).checked_add(n);
        self.members.reserve(more.ok_or(AllocError)?)?;
        self.places.reserve(n)
    }

    /// Extends the set by the next slot, which is not a member. Allocates nothing.
    pub fn grow(&mut self)
        requires room { 0 < self.old.room }
        requires few { length self.old.has < 2 ^ 32 - 1 }
        ensures has { self.new.has ≡ self.old.has ++ false ∷ [] }
        ensures room { self.new.room + 1 ≡ self.old.room }
    {
        self.places.push_reserved(ABSENT);
    }

    // Returns whether a slot is in the set.
    fn has(&self, slot: usize) -> bool
        requires { slot < length self.now.has }
        ensures { result ≡ slice_index_or self.now.has slot false }
    {
        self.places[slot] != ABSENT
    }

    /// Inserts a slot into the set, or removes it. Allocates nothing.
    pub fn mark(&mut self, slot: usize, is_in: bool)
        requires { slot < length self.old.has }
        ensures has { self.new.has ≡ slice_set self.old.has slot is_in }
        ensures room { self.new.room ≡ self.old.room }
    {
        if self.has(slot) != is_in {
            if is_in {
                self.insert(slot);
            } else {
                self.remove(slot);
            }
        }
    }

    // Inserts a slot that is not a member.
    fn insert(&mut self, slot: usize)
        requires within { slot < length self.old.has }
        requires out { slice_index_or self.old.has slot false ≡ false }
        ensures has { self.new.has ≡ slice_set self.old.has slot true }
        ensures room { self.new.room ≡ self.old.room }
    {
        self.places[slot] = self.members.len() as u32;
        self.members.push_reserved(slot as u32);
    }

    // Removes a member. The last member moves to its place.
    fn remove(&mut self, slot: usize)
        requires within { slot < length self.old.has }
        requires is_in { slice_index_or self.old.has slot false ≡ true }
        ensures has { self.new.has ≡ slice_set self.old.has slot false }
        ensures room { self.new.room ≡ self.old.room }
    {
        let place = self.places[slot];
        self.members.swap_remove(place as usize);
        tell_moved(&mut self.places, self.members.as_slice(), place);
        self.places[slot] = ABSENT;
    }

    /// Returns a member, or `None` if the set is empty.
    pub fn last(&self) -> Option<u32>
        ensures some { IfSome result (λ slot. slice_index_or self.now.has slot false ≡ true) }
        ensures none { IfNone result ((slot : ℕ) → slice_index_or self.now.has slot false ≡ false) }
    {
        if self.members.is_empty() {
            return None;
        }
        Some(self.members[self.members.len() - 1])
    }

    /// Returns the members, in no particular order.
    pub fn as_slice(&self) -> &[u32]
        ensures { IsPermutation result.now (indices_from 0 self.now.has) }
    {
        self.members.as_slice()
    }
}

// Updates the place of the member that was moved to a place, if there is one.
fn tell_moved(places: &mut Vec<u32>, members: &[u32], place: u32)
    requires { place < length members.now → slice_index_or members.now place absent < length places.old.items }
    ensures told { IsMoveTold members.now place places.old.items places.new.items }
    ensures len { vec_len places.new ≡ vec_len places.old }
    ensures capacity { vec_capacity places.new ≡ vec_capacity places.old }
{
    if (place as usize) < members.len() {
        let moved = members[place as usize];
        places[moved as usize] = place;
    }
}
