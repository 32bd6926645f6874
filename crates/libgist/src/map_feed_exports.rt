//! The exported calls of feeds of maps.
ghost use Rattle.std.specs.Prelude.{◌≡◌, ◌≢◌, None};
ghost use Rattle.std.specs.Borrow.{sem};
ghost use Rattle.libgist.specs.Calls.{Passing};
ghost use Rattle.libgist.specs.Classes.{FromHandle, OnHandle, OnHandles};
ghost use Rattle.libgist.specs.Loans.{Loan, is_lent, lasts, state_of};
ghost use Rattle.libgist.specs.Making.{Makes};
ghost use Rattle.libgist.specs.MapFeeding.{AnswersCompacted, AnswersMapAdvancing, AnswersMapSubscribing, InMapFeed};
ghost use Rattle.libgist.specs.MapFollowing.{IsMapUnsubscribing};
ghost use Rattle.libgist.specs.MapMaking.{IsMapBeginning};
ghost use Rattle.libgist.specs.Told.{TellsCode, Tells};

use crate::any_map_feed;
use crate::handle::Handle;
use crate::lent::Lent;
use crate::making::{self, settle};
use crate::telling::{code, no_handle, tell, tell_both};
use crate::words::ToldMapItem;
use std::alloc::Global;

/// Makes a feed of the map of a class that has an identity, without subscriptions, for an empty handle.
#[unsafe(no_mangle)]
pub extern "C" fn gist_map_feed_create(
    alloc: Global,
    feed: &mut Handle,
    class: u32,
    identity: u64,
) -> u32
    ensures { Makes (IsMapBeginning class identity)
        feed.old.inside.state feed.new.inside.state result }
{
    if feed.is_open() {
        return 2;
    }
    settle(alloc, making::map_feed(alloc, class, identity), feed)
}

/// Drops the feed of a handle, if it has one, and leaves the handle empty.
#[unsafe(no_mangle)]
pub extern "C" fn gist_map_feed_free(alloc: Global, feed: &mut Handle)
    ensures { feed.new.inside.state ≡ None }
{
    drop(feed.take(alloc));
}

/// Subscribes to the items of a query that come after a revision, and returns the subscription's number.
#[unsafe(no_mangle)]
pub unsafe extern "C" fn gist_map_feed_subscribe(
    feed: &mut Handle,
    query: *const Handle,
    from: u64,
    subscription: &mut u64,
) -> u32
    ghost loan: { Loan }
    requires* { sem 𝓛 (is_lent query loan) }
    ensures* back { sem 𝓛 (lasts loan) }
    ensures subscribed { Tells result subscription.old subscription.new (OnHandles
        (AnswersMapSubscribing from) (state_of loan)
        feed.old.inside.state feed.new.inside.state) }
{
    subscribe_to_map(feed, &*(query as *const Lent), from, subscription)
}

fn subscribe_to_map(feed: &mut Handle, query: &Lent, from: u64, subscription: &mut u64) -> u32
    ensures subscribed { Tells result subscription.old subscription.new (OnHandles
        (AnswersMapSubscribing from) query.now.inside.state
        feed.old.inside.state feed.new.inside.state) }
{
    match query.held() {
        None => tell(no_handle(), subscription),
        Some(asked) => match feed.take(query.alloc()) {
            None => tell(no_handle(), subscription),
            Some(mut held) => {
                let answer = any_map_feed::subscribe(asked, &mut held, from);
                feed.put(held);
                tell(answer, subscription)
            }
        },
    }
}

/// Ends a subscription.
#[unsafe(no_mangle)]
pub extern "C" fn gist_map_feed_unsubscribe(
    alloc: Global,
    feed: &mut Handle,
    subscription: u64,
) -> u32
    ensures { TellsCode result (OnHandle
        (InMapFeed (λ K A class. Passing (IsMapUnsubscribing subscription)))
        feed.old.inside.state feed.new.inside.state) }
{
    match feed.take(alloc) {
        None => code(no_handle()),
        Some(mut held) => {
            let answer = any_map_feed::unsubscribe(&mut held, subscription);
            feed.put(held);
            code(answer)
        }
    }
}

/// Writes the numbers of the subscriptions that need items from before a revision into a buffer, rising, as many as fit,
/// and returns how many they are.
#[unsafe(no_mangle)]
pub unsafe extern "C" fn gist_map_feed_compacted(
    feed: *const Handle,
    oldest: u64,
    subscriptions: &mut [u64],
    count: &mut u64,
) -> u32
    ghost loan: { Loan }
    requires* { sem 𝓛 (is_lent feed loan) }
    ensures* back { sem 𝓛 (lasts loan) }
    ensures told { Tells result count.old count.new (FromHandle (AnswersCompacted oldest
        subscriptions.old subscriptions.new) (state_of loan)) }
    ensures unfilled { result ≢ 0 → subscriptions.new ≡ subscriptions.old }
{
    tell_compacted(&*(feed as *const Lent), oldest, subscriptions, count)
}

fn tell_compacted(feed: &Lent, oldest: u64, subscriptions: &mut [u64], count: &mut u64) -> u32
    ensures told { Tells result count.old count.new (FromHandle (AnswersCompacted oldest
        subscriptions.old subscriptions.new) feed.now.inside.state) }
    ensures unfilled { result ≢ 0 → subscriptions.new ≡ subscriptions.old }
{
    tell(any_map_feed::compacted(feed, oldest, subscriptions), count)
}

/// Processes at most `most` further revisions of a snapshot, or none while items wait, and writes items until a buffer is
/// full. Returns how many were written, and the last revision that the feed has processed.
#[unsafe(no_mangle)]
pub unsafe extern "C" fn gist_map_feed_advance(
    feed: &mut Handle,
    snapshot: *const Handle,
    most: u64,
    items: &mut [ToldMapItem],
    given: &mut u64,
    upto: &mut u64,
) -> u32
    ghost loan: { Loan }
    requires* { sem 𝓛 (is_lent snapshot loan) }
    ensures* back { sem 𝓛 (lasts loan) }
    ensures given { Tells result (given.old, upto.old) (given.new, upto.new) (OnHandles
        (AnswersMapAdvancing most items.old items.new) (state_of loan)
        feed.old.inside.state feed.new.inside.state) }
    ensures unfilled { result ≢ 0 → items.new ≡ items.old }
{
    advance_over_map(feed, &*(snapshot as *const Lent), most, items, given, upto)
}

fn advance_over_map(
    feed: &mut Handle,
    snapshot: &Lent,
    most: u64,
    items: &mut [ToldMapItem],
    given: &mut u64,
    upto: &mut u64,
) -> u32
    ensures given { Tells result (given.old, upto.old) (given.new, upto.new) (OnHandles
        (AnswersMapAdvancing most items.old items.new) snapshot.now.inside.state
        feed.old.inside.state feed.new.inside.state) }
    ensures unfilled { result ≢ 0 → items.new ≡ items.old }
{
    match snapshot.held() {
        None => tell_both(no_handle(), given, upto),
        Some(over) => match feed.take(snapshot.alloc()) {
            None => tell_both(no_handle(), given, upto),
            Some(mut held) => {
                let answer = any_map_feed::advance(over, &mut held, most, items);
                feed.put(held);
                tell_both(answer, given, upto)
            }
        },
    }
}
