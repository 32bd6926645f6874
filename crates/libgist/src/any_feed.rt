//! The calls of a feed behind a handle, of any class.
ghost use Rattle.std.specs.Prelude.{◌≡◌, OnErr};
ghost use Rattle.libgist.specs.Asked.{AnswersAdvancing, AnswersSubscribing};
ghost use Rattle.libgist.specs.Calls.{Passing};
ghost use Rattle.libgist.specs.Feeding.{InFeed};
ghost use Rattle.libgist.specs.Following.{IsUnsubscribing};

use crate::by_class::{in_held, in_held_by, of_class, of_one_class};
use crate::denied::{Denied, passed_on};
use crate::following;
use crate::held::{AnyFeed, AnyQuery, AnySnapshot, Held};
use crate::words::ToldItem;

/// Subscribes to the changes of a query that come after a commit.
pub fn subscribe(asked: &Held, held: &mut Held, from: u64) -> Result<u64, Denied>
    ensures { AnswersSubscribing from asked.now held.old result held.new }
{
    in_held_by!(asked, Query, AnyQuery, query, held, Feed, AnyFeed, feed => passed_on(feed.subscribe(query, from)))
}

/// Ends a subscription.
pub fn unsubscribe(held: &mut Held, serial: u64) -> Result<(), Denied>
    ensures { InFeed (λ K A class. Passing (IsUnsubscribing serial))
        held.old result held.new }
{
    in_held!(held, Feed, AnyFeed, feed => passed_on(feed.unsubscribe(serial)))
}

/// Processes more of a snapshot's commits if no item waits, and delivers the items that wait.
pub fn advance(
    over: &Held,
    held: &mut Held,
    most: u64,
    items: &mut [ToldItem],
) -> Result<(u64, u64), Denied>
    ensures given { AnswersAdvancing most items.old items.new over.now held.old result held.new }
    ensures unfilled { OnErr result (items.new ≡ items.old) }
{
    in_held_by!(over, Snapshot, AnySnapshot, snapshot, held, Feed, AnyFeed, feed => {
        passed_on(following::advance(feed, snapshot, most, items))
    })
}
