//! The calls of a map's feed behind a handle, of any class.
ghost use Rattle.std.specs.Prelude.{◌≡◌, OnErr};
ghost use Rattle.libgist.specs.Calls.{Passing};
ghost use Rattle.libgist.specs.Classes.{FromHandle};
ghost use Rattle.libgist.specs.MapFeeding.{AnswersCompacted, AnswersMapAdvancing, AnswersMapSubscribing, InMapFeed};
ghost use Rattle.libgist.specs.MapFollowing.{IsMapUnsubscribing};

use crate::by_class::{in_held, in_held_by, in_lent, of_class, of_one_class};
use crate::denied::{Denied, passed_on};
use crate::held::{AnyMapFeed, AnyMapSnapshot, AnyQuery, Held};
use crate::lent::Lent;
use crate::map_following;
use crate::words::ToldMapItem;

/// Subscribes to the items of a query that come after a revision.
pub fn subscribe(asked: &Held, held: &mut Held, from: u64) -> Result<u64, Denied>
    ensures { AnswersMapSubscribing from asked.now held.old result held.new }
{
    in_held_by!(asked, Query, AnyQuery, query, held, MapFeed, AnyMapFeed, feed => {
        passed_on(feed.subscribe(query, from))
    })
}

/// Ends a subscription.
pub fn unsubscribe(held: &mut Held, serial: u64) -> Result<(), Denied>
    ensures { InMapFeed (λ K A class. Passing (IsMapUnsubscribing serial))
        held.old result held.new }
{
    in_held!(held, MapFeed, AnyMapFeed, feed => passed_on(feed.unsubscribe(serial)))
}

/// Gives the serials of the subscriptions that need items from before a revision.
pub fn compacted(lent: &Lent, oldest: u64, serials: &mut [u64]) -> Result<u64, Denied>
    ensures answered { FromHandle (AnswersCompacted oldest serials.old serials.new)
        lent.now.inside.state result }
    ensures unfilled { OnErr result (serials.new ≡ serials.old) }
{
    in_lent!(lent, MapFeed, AnyMapFeed, feed => passed_on(feed.compacted(oldest, serials)))
}

/// Processes more of a snapshot's revisions if no item waits, and delivers the items that wait.
pub fn advance(
    over: &Held,
    held: &mut Held,
    most: u64,
    items: &mut [ToldMapItem],
) -> Result<(u64, u64), Denied>
    ensures given { AnswersMapAdvancing most items.old items.new over.now held.old result held.new }
    ensures unfilled { OnErr result (items.new ≡ items.old) }
{
    in_held_by!(over, MapSnapshot, AnyMapSnapshot, snapshot, held, MapFeed, AnyMapFeed, feed => {
        passed_on(map_following::advance(feed, snapshot, most, items))
    })
}
