//! Changes of bags that a reader was not told yet.
ghost use Rattle.std.specs.Prelude.{◌≡◌, true, IfNone, IfSome, OnErr, OnOk, is_some, slice_index_or, None};
ghost use Rattle.mm_multiset.specs.Counts.{IsStarted, IsTold, IsUpToDate};
ghost use Rattle.mm_partition.specs.Places.{Free, holds_row, row_in};
ghost use Rattle.mm_partition.specs.Views.{viewed};

use crate::bag::Bag;
use crate::bag::taken::Taken;
use mm_partition::{RowView, index_of};
use mm_value::RowRef;
use std::alloc::AllocError;

impl Bag {
    /// Starts a feed for one reader, who was told nothing yet, so that each row is a change. With `distinct`, each row counts at most once.
    /// Does nothing if there is a feed. Fails with `AllocError` if an allocation fails; then nothing changes.
    pub fn start_feed(&mut self, distinct: bool) -> Result<(), AllocError>
        ensures started { OnOk result (IsStarted distinct self.old.feed self.new.feed) }
        ensures refused { OnErr result (self.new.feed ≡ self.old.feed) }
        ensures entries { self.new.entries ≡ self.old.entries }
        ensures slots { self.new.slots ≡ self.old.slots }
        ensures types { self.new.types ≡ self.old.types }
    {
        if self.counts.has_feed() {
            return Ok(());
        }
        self.counts.start_feed(distinct)
    }

    /// Ends the feed, if there is one, and drops the removed rows that were kept for it.
    pub fn stop_feed(&mut self)
        ensures feed { self.new.feed ≡ None }
        ensures entries { self.new.entries ≡ self.old.entries }
        ensures slots { self.new.slots ≡ self.old.slots }
        ensures types { self.new.types ≡ self.old.types }
    {
        for _ in 0..self.counts.changes() {
            self.take_change();
        }
        self.release_told();
        self.counts.stop_feed();
    }

    /// Returns whether there is a feed.
    pub fn has_feed(&self) -> bool
        ensures { result ≡ is_some self.now.feed }
    {
        self.counts.has_feed()
    }

    /// Returns the change of a row whose number differs from what the reader was last told, and records that it is told now. Returns `None`
    /// if there is no such row, or no feed. Allocates nothing. The row can be read by `told_row` until the next call.
    pub fn take_change(&mut self) -> Option<Taken>
        ensures told { IfSome result (λ taken. IsTold self.new.held taken.at taken.by self.old.feed self.new.feed) }
        ensures none { IfNone result (IsUpToDate self.old.feed self.old.entries) }
        ensures kept { IfNone result (self.new.feed ≡ self.old.feed) }
        ensures entries { self.new.entries ≡ self.old.entries }
        ensures slots { self.new.slots ≡ self.old.slots }
        ensures types { self.new.types ≡ self.old.types }
    {
        self.release_told();
        let change = self.counts.take_change()?;
        let at = RowRef { slot: change.slot };
        self.last_told = Some(at);
        Some(Taken { at, by: change.by })
    }

    // Frees the slot of the change that was told last, if its row was removed.
    fn release_told(&mut self)
        ensures feed { self.new.feed ≡ self.old.feed }
        ensures entries { self.new.entries ≡ self.old.entries }
        ensures slots { self.new.slots ≡ self.old.slots }
        ensures types { self.new.types ≡ self.old.types }
    {
        if let Some(at) = self.last_told {
            self.release_if_told(at);
        }
        self.last_told = None;
    }

    // Frees a slot whose row was removed, if the reader was told so.
    fn release_if_told(&mut self, at: RowRef)
        ensures feed { self.new.feed ≡ self.old.feed }
        ensures entries { self.new.entries ≡ self.old.entries }
        ensures slots { self.new.slots ≡ self.old.slots }
        ensures types { self.new.types ≡ self.old.types }
    {
        if self.rows.is_hidden(at) && self.counts.told(index_of(at)) == 0 {
            self.rows.release(at);
        }
    }

    /// Returns the row of a change that was told, in place.
    pub fn told_row(&self, at: RowRef) -> RowView<'_>
        requires { holds_row (slice_index_or self.now.held at.slot Free) ≡ true }
        ensures { viewed result ≡ row_in (slice_index_or self.now.held at.slot Free) }
    {
        if self.rows.is_hidden(at) {
            return self.rows.get_hidden(at);
        }
        self.rows.get(at)
    }
}
