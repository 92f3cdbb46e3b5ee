//! Giving back slots and capacity.
ghost use Rattle.std.specs.Prelude.{◌≡◌, ◌≤◌, MatchBool, length, min, take};
ghost use Rattle.std.specs.Vec.{vec_capacity};
ghost use Rattle.mm_partition.specs.Stored.{IsFreeStack, IsCut, EndsFree, EndsTaken};

use crate::slots::State;

/// Removes the free slots after the highest slot with a row, from the states and from the stack. Afterwards the lowest free slot is reused
/// first, so that later calls find more free slots at the end.
pub fn drop_highest(states: &mut Vec<State>, free: &mut Vec<u32>)
    requires { IsFreeStack states.old.items free.old.items }
    ensures stack { IsFreeStack states.new.items free.new.items }
    ensures cut { IsCut states.old.items states.new.items }
    ensures highest { EndsTaken states.new.items }
    ensures states_room { vec_capacity states.new ≡ vec_capacity states.old }
    ensures free_room { vec_capacity free.new ≡ vec_capacity free.old }
{
    if !ends_free(states.as_slice()) {
        return;
    }
    free.sort_unstable();
    while ends_free(states.as_slice()) {
        states.pop();
        free.pop();
    }
    free.reverse();
}

/// Returns whether the last slot is free.
fn ends_free(states: &[State]) -> bool
    ensures { MatchBool result (EndsFree states.now) (EndsTaken states.now) }
{
    matches!(states.last(), Some(State::Free))
}

/// Frees capacity of a vector if it exceeds `needed` by more than an eighth. Keeps a sixteenth above `needed`, so that a few more elements
/// need no allocation. If the allocation of a smaller block fails, the vector keeps its block.
pub fn give_back<T>(items: &mut Vec<T>, needed: usize)
    ensures items { items.new.items ≡ items.old.items }
    ensures room { min needed (vec_capacity items.old) ≤ vec_capacity items.new }
{
    if items.capacity() > needed.saturating_add(needed / 8) {
        items.shrink_to(needed.saturating_add(needed / 16));
    }
}

/// Removes the elements from index `n` on, and frees excess capacity.
pub fn cut<T: Drop>(items: &mut Vec<T>, n: usize)
    ensures items { items.new.items ≡ take n items.old.items }
    ensures room { length items.new.items ≤ vec_capacity items.new }
{
    items.truncate(n);
    give_back(items, n);
}
