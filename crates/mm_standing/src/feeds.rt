//! Feeds of lists, among bags that are one for each standing query.
ghost use Rattle.std.specs.Prelude.{◌≡◌, ◌<◌, None, length, IfNone, IfSome, OnErr, OnOk};
ghost use Rattle.mm_multiset.specs.Counts.{IsStarted, IsTold, IsUpToDate};
ghost use Rattle.mm_standing.specs.Bags.{AreSame, IsFeedOf, entries_at, feed_at, feeds_of, held_at};

use mm_multiset::{Bag, Taken};
use std::alloc::AllocError;

/// Starts the feed of a list, unless there is one. Fails with `AllocError` if an allocation fails; then nothing changes.
pub(crate) fn start_feed(bags: &mut Vec<Bag>, list: usize, distinct: bool) -> Result<(), AllocError>
    requires { list < length bags.old.items }
    ensures started { OnOk result (IsStarted distinct (feed_at bags.old.items list) (feed_at bags.new.items list)) }
    ensures refused { OnErr result (feed_at bags.new.items list ≡ feed_at bags.old.items list) }
    ensures others { IsFeedOf list bags.old.items bags.new.items }
    ensures same { AreSame bags.old.items bags.new.items }
{
    bags[list].start_feed(distinct)
}

/// Ends the feed of a list, if there is one.
pub(crate) fn stop_feed(bags: &mut Vec<Bag>, list: usize)
    requires { list < length bags.old.items }
    ensures feed { feed_at bags.new.items list ≡ None }
    ensures others { IsFeedOf list bags.old.items bags.new.items }
    ensures same { AreSame bags.old.items bags.new.items }
{
    bags[list].stop_feed();
}

/// Returns a change of a list that its reader was not told, if there is one, and records that it is told now. Allocates nothing.
pub(crate) fn take_change(bags: &mut Vec<Bag>, list: usize) -> Option<Taken>
    requires { list < length bags.old.items }
    ensures told { IfSome result (λ taken. IsTold (held_at bags.new.items list) taken.at taken.by
        (feed_at bags.old.items list) (feed_at bags.new.items list)) }
    ensures none { IfNone result (IsUpToDate (feed_at bags.old.items list) (entries_at bags.old.items list)) }
    ensures kept { IfNone result (feed_at bags.new.items list ≡ feed_at bags.old.items list) }
    ensures others { IsFeedOf list bags.old.items bags.new.items }
    ensures same { AreSame bags.old.items bags.new.items }
{
    bags[list].take_change()
}
