//! Bags of rows, one for each standing query, and changes of them.
ghost use Rattle.std.specs.Prelude.{◌≡◌, ◌+◌, ◌≤◌, ◌<◌, ℕ, [], ◌∷◌, List, IfOk, OnErr, drop, length, take, true, false};
ghost use Rattle.std.specs.Vec.{vec_capacity, vec_len};
ghost use Rattle.mm_multiset.specs.Counts.{Counts as BagCounts, count_in};
ghost use Rattle.mm_multiset.specs.Counts as bag;
ghost use Rattle.mm_standing.specs.Bags.{AddedTo, AreSame, IsSmall, IsSound, IsThere, IsTyped, IsWithin, Made, Purged, Puts};
ghost use Rattle.mm_standing.specs.Bags.{change_of, count_with, done_of, entries_at, feeds_of, opposite, row_of, slots_at, types_of, undos};
ghost use Rattle.mm_value.specs.declared.values.Value.{Value as Val};

use crate::change::{ListChange, RowChange};
use mm_multiset::Bag;
use std::alloc::AllocError;

/// Applies all prepared changes, first to last, and appends them to the log. Allocates nothing.
pub fn make_all(bags: &mut Vec<Bag>, prepared: &[ListChange], log: &mut Vec<ListChange>)
    requires sound { IsSound bags.old.items prepared.now log.old.items }
    requires room { vec_len log.old + length prepared.now ≤ vec_capacity log.old }
    ensures sound { IsSound bags.new.items [] log.new.items }
    ensures room { vec_len log.new ≤ vec_capacity log.new }
    ensures made { Made bags.old.items (done_of bags.old.items prepared.now) (undos bags.old.items log.old.items)
        bags.new.items [] (undos bags.new.items log.new.items) }
{
    for change in prepared {
        add(bags, change, change.by);
        log.push_reserved(*change);
    }
}

/// Undoes the changes of the log after a mark, last to first. An entry that was inserted for a change is removed if its count is 0 again.
/// Allocates nothing. The log is unchanged.
pub fn undo_behind(bags: &mut Vec<Bag>, log: &[ListChange], mark: usize)
    requires sound { IsSound bags.old.items [] log.now }
    requires mark { mark ≤ length log.now }
    ensures sound { IsSound bags.new.items [] (take mark log.now) }
    ensures log { undos bags.new.items (take mark log.now) ≡ take mark (undos bags.old.items log.now) }
    ensures counts { (earlier : ℕ) → earlier ≤ mark → (list : ℕ) (row : List Val)
        → count_with bags.new.items (drop earlier (undos bags.new.items (take mark log.now))) list row
        ≡ count_with bags.old.items (drop earlier (undos bags.old.items log.now)) list row }
    ensures types { types_of bags.new.items ≡ types_of bags.old.items }
    ensures feeds { feeds_of bags.new.items ≡ feeds_of bags.old.items }
    ensures size { length bags.new.items ≡ length bags.old.items }
{
    let mut left = log.len();
    while left > mark {
        left -= 1;
        undo(bags, &log[left]);
    }
}

/// Undoes a change that was applied. An entry that was inserted for it is removed if its count is 0 again.
fn undo(bags: &mut Vec<Bag>, change: &ListChange)
    requires there { IsThere bags.old.items change.now }
    requires within { IsWithin bags.old.items (opposite (change_of bags.old.items change.now) ∷ []) }
    requires now { IsWithin bags.old.items [] }
    ensures { (mid : List BagCounts) × AddedTo (opposite (change_of bags.old.items change.now)) bags.old.items mid
        × (change.now.is_new ≡ true → Purged change.now mid bags.new.items) × (change.now.is_new ≡ false → bags.new.items ≡ mid) }
{
    add(bags, change, -change.by);
    remove_new(bags, change);
}

/// Drops the prepared changes, last to first, with the entries that were inserted for them. No count changes.
pub fn drop_all(bags: &mut Vec<Bag>, prepared: &mut Vec<ListChange>, log: &[ListChange])
    requires sound { IsSound bags.old.items prepared.old.items log.now }
    ensures sound { IsSound bags.new.items [] log.now }
    ensures prepared { prepared.new.items ≡ [] }
    ensures log { undos bags.new.items log.now ≡ undos bags.old.items log.now }
    ensures counts { (list : ℕ) (row : List Val)
        → count_in row (entries_at bags.new.items list) ≡ count_in row (entries_at bags.old.items list) }
    ensures types { types_of bags.new.items ≡ types_of bags.old.items }
    ensures feeds { feeds_of bags.new.items ≡ feeds_of bags.old.items }
    ensures size { length bags.new.items ≡ length bags.old.items }
{
    while let Some(change) = prepared.pop() {
        remove_new(bags, &change);
    }
}

/// Empties the log, and removes each entry that it names whose count is 0. No count changes.
pub fn purge(bags: &mut Vec<Bag>, log: &mut Vec<ListChange>)
    requires { IsSound bags.old.items [] log.old.items }
    ensures sound { IsSound bags.new.items [] log.new.items }
    ensures log { log.new.items ≡ [] }
    ensures counts { (list : ℕ) (row : List Val)
        → count_in row (entries_at bags.new.items list) ≡ count_in row (entries_at bags.old.items list) }
    ensures types { types_of bags.new.items ≡ types_of bags.old.items }
    ensures feeds { feeds_of bags.new.items ≡ feeds_of bags.old.items }
    ensures size { length bags.new.items ≡ length bags.old.items }
{
    while let Some(change) = log.pop() {
        remove(bags, &change);
    }
}

/// Prepares a change: finds the entry of its row, or inserts it with the count 0. Fails with `AllocError` if an allocation fails;
/// then all entries are as before.
pub fn prepare_one(bags: &mut Vec<Bag>, change: RowChange) -> Result<ListChange, AllocError>
    requires there { change.list < length bags.old.items }
    requires small { IsSmall change }
    requires typed { IsTyped bags.old.items change }
    ensures list { IfOk result (λ prepared. prepared.list ≡ change.list) }
    ensures by { IfOk result (λ prepared. prepared.by ≡ change.change.count) }
    ensures puts { IfOk result (λ prepared. Puts change prepared.entry prepared.is_new bags.old.items bags.new.items) }
    ensures err { OnErr result (AreSame bags.old.items bags.new.items) }
    ensures feeds { feeds_of bags.new.items ≡ feeds_of bags.old.items }
{
    let RowChange { list, change } = change;
    let by = change.count as i64;
    let (entry, is_new) = bags[list].entry_or_insert(change.row)?;
    Ok(ListChange {
        list,
        entry,
        by,
        is_new,
    })
}

/// Adds to the count of the entry of a change. Allocates nothing.
fn add(bags: &mut Vec<Bag>, change: &ListChange, by: i64)
    requires list { change.now.list < length bags.old.items }
    requires entry { bag.IsThere (slots_at bags.old.items change.now.list) change.now.entry }
    requires within { IsWithin bags.old.items (record { list = change.now.list; change = record { row = row_of bags.old.items change.now; count = by } } ∷ []) }
    ensures { AddedTo (record { list = change.now.list; change = record { row = row_of bags.old.items change.now; count = by } })
        bags.old.items bags.new.items }
{
    bags[change.list].add_at(change.entry, by);
}

/// Removes the entry of a change if it was inserted for the change and its count is 0.
fn remove_new(bags: &mut Vec<Bag>, change: &ListChange)
    requires list { change.now.list < length bags.old.items }
    requires slot { change.now.entry.slot.slot < length (slots_at bags.old.items change.now.list) }
    ensures removed { change.now.is_new ≡ true → Purged change.now bags.old.items bags.new.items }
    ensures kept { change.now.is_new ≡ false → bags.new.items ≡ bags.old.items }
{
    if change.is_new {
        remove(bags, change);
    }
}

/// Removes the entry of a change if its count is 0.
fn remove(bags: &mut Vec<Bag>, change: &ListChange)
    requires list { change.now.list < length bags.old.items }
    requires slot { change.now.entry.slot.slot < length (slots_at bags.old.items change.now.list) }
    ensures { Purged change.now bags.old.items bags.new.items }
{
    bags[change.list].remove_if_zero(change.entry);
}
