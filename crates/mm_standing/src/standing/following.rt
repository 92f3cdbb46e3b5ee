//! Changes of lists that a reader was not told yet.
ghost use Rattle.std.specs.Prelude.{◌≡◌, ◌<◌, None, Some, length, slice_get, slice_index_or, true, IfNone, IfSome, OnErr, OnOk};
ghost use Rattle.mm_multiset.specs.Counts.{IsStarted, IsTold, IsUpToDate};
ghost use Rattle.mm_partition.specs.Places.{Free, holds_row, row_in};
ghost use Rattle.mm_partition.specs.Views.{viewed};
ghost use Rattle.mm_standing.specs.Bags.{AreSame, IsFeedOf, entries_at, feed_at, held_at};
ghost use Rattle.mm_standing.specs.Queries.{StandingQuery};

use crate::feeds::{start_feed, stop_feed, take_change};
use crate::standing::Standing;
use mm_multiset::Taken;
use mm_partition::RowView;
use mm_value::RowRef;
use std::alloc::AllocError;

impl Standing {
    /// Starts a feed of the list at a place for one reader, who was told nothing yet, so that each row is a change. With DISTINCT, each row
    /// counts at most once. Does nothing if there is a feed. Fails with `AllocError` if an allocation fails; then nothing changes.
    pub fn start_feed(&mut self, place: usize) -> Result<(), AllocError>
        requires place { place < length self.old.queries }
        ensures started { OnOk result ((standing : StandingQuery) → slice_get self.old.queries place ≡ Some standing
            → IsStarted standing.query.distinct (feed_at self.old.bags place) (feed_at self.new.bags place)) }
        ensures refused { OnErr result (feed_at self.new.bags place ≡ feed_at self.old.bags place) }
        ensures others { IsFeedOf place self.old.bags self.new.bags }
        ensures same { AreSame self.old.bags self.new.bags }
        ensures rest { self.new ≡ record self.old { bags = self.new.bags } }
    {
        let distinct = self.queries[place].query.distinct;
        start_feed(&mut self.bags, place, distinct)
    }

    /// Ends the feed of the list at a place, if there is one.
    pub fn stop_feed(&mut self, place: usize)
        requires place { place < length self.old.queries }
        ensures feed { feed_at self.new.bags place ≡ None }
        ensures others { IsFeedOf place self.old.bags self.new.bags }
        ensures same { AreSame self.old.bags self.new.bags }
        ensures rest { self.new ≡ record self.old { bags = self.new.bags } }
    {
        stop_feed(&mut self.bags, place);
    }

    /// Returns the change of a row of the list at a place whose number differs from what the reader was last told, and records that it is
    /// told now. Returns `None` if there is no such row, or no feed. Changes that are prepared do not count yet. Allocates nothing. The row
    /// can be read by `told_row` until the next call.
    pub fn take_change(&mut self, place: usize) -> Option<Taken>
        requires place { place < length self.old.queries }
        ensures told { IfSome result (λ taken. IsTold (held_at self.new.bags place) taken.at taken.by
            (feed_at self.old.bags place) (feed_at self.new.bags place)) }
        ensures none { IfNone result (IsUpToDate (feed_at self.old.bags place) (entries_at self.old.bags place)) }
        ensures kept { IfNone result (feed_at self.new.bags place ≡ feed_at self.old.bags place) }
        ensures others { IsFeedOf place self.old.bags self.new.bags }
        ensures same { AreSame self.old.bags self.new.bags }
        ensures rest { self.new ≡ record self.old { bags = self.new.bags } }
    {
        take_change(&mut self.bags, place)
    }

    /// Returns the row of a change of the list at a place that was told, in place.
    pub fn told_row(&self, place: usize, at: RowRef) -> RowView<'_>
        requires place { place < length self.now.queries }
        requires holds { holds_row (slice_index_or (held_at self.now.bags place) at.slot Free) ≡ true }
        ensures { viewed result ≡ row_in (slice_index_or (held_at self.now.bags place) at.slot Free) }
    {
        self.bags[place].told_row(at)
    }
}
