//! The entries of a bag whose count is not 0, read in place.
ghost use Rattle.std.specs.Prelude.{◌≡◌, ◌∷◌, [], MatchOption, map};
ghost use Rattle.mm_multiset.specs.Slots.{IsWalk, entry_at};
ghost use Rattle.mm_partition.specs.Views.{viewed};

use mm_partition::{Partitions, RowView};
use mm_value::RowRef;
use slot_counts::SlotCounts;
use std::marker::Model;

/// An iterator over entries of a bag. Its model is the list of the remaining ones.
#[derive(Drop)]
pub struct BagEntries<'a> {
    rows: &'a Partitions,
    counts: &'a SlotCounts,
    /// The slots of the entries.
    shown: &'a [u32],
    /// The index of the next entry in `shown`.
    next: usize,
}

impl<'a> Model for BagEntries<'a> {
    ghost use Rattle.std.specs.Prelude.{drop, map};
    ghost use Rattle.mm_multiset.specs.Counts.{Entries};
    ghost use Rattle.mm_multiset.specs.Slots.{IsWalk, entry_at};

    ghost Value = { Entries };

    ghost view = { λ e. map (entry_at e.rows.now.slots e.counts.now.counts) (drop e.next e.shown.now) };

    ghost invariant = { λ e. IsWalk e.rows.now.slots e.counts.now.counts e.shown.now };
}

impl<'a> BagEntries<'a> {
    /// Iterates over the entries of these slots.
    pub(crate) fn new(
        rows: &'a Partitions,
        counts: &'a SlotCounts,
        shown: &'a [u32],
    ) -> BagEntries<'a>
        requires { IsWalk rows.now.slots counts.now.counts shown.now }
        ensures { result ≡ map (entry_at rows.now.slots counts.now.counts) shown.now }
    {
        BagEntries {
            rows,
            counts,
            shown,
            next: 0,
        }
    }

    /// Removes and returns the next entry: its row in place, and its count. Returns `None` at the end.
    pub fn next(&mut self) -> Option<(RowView<'a>, usize)>
        ensures { MatchOption result (self.old ≡ []) (λ entry. self.old ≡ (viewed entry.0, entry.1) ∷ self.new) }
    {
        if self.next >= self.shown.len() {
            return None;
        }
        let slot = self.shown[self.next];
        let row = self.rows.get(RowRef { slot });
        let count = self.counts.count(slot as usize) as usize;
        self.next += 1;
        Some((row, count))
    }
}
