ghost use Rattle.std.specs.Prelude.{◌≡◌, ◌↔◌, ◌+◌, ◌<◌, ◌≤◌, length, map, nat_eq, None, Err, IfOk, IfErr, OnOk, OnErr};
ghost use Rattle.key_class.specs.Queries.{query_of, depth_of};
ghost use Rattle.key_class.specs.declared.refusal.Refusal.TheVariants.{BadConfig, Compacted, FeedFull, FromFuture, NotSubscribed, OtherStore, OutOfMemory};
ghost use Rattle.feed.specs.Feeds.{HasNoPlaceFor, RefusesAdvance, RefusesSubscription, compacted_serials, new_feed, subscription_of, with_subscription, without_subscription};
ghost use Rattle.feed.specs.Numberings.{MayNumber};
ghost use Rattle.map.specs.Items.{AreWithin, map_item};
ghost use Rattle.map.specs.MapFeeds.{AdvancesInto, IsAhead, IsBehind, IsOfOther, IsTooEarly, IsTooLate, RefusesMapAdvance, TellsInto, map_feed};

use crate::map_snapshot::{MapSnapshot, map_item};
use change_list::Item;
use feed::{Feed, Numbering, Reach};
use key_class::{Pred, Refusal};
use revisions::MapItem;
use snapshot::Snapshot;
use std::alloc::{AllocError, Global};
use std::marker::Model;

/// Subscriptions to the changes of a map. It processes the map's revisions in order.
///
/// A revision tests only the queries that its keys may match, and each of them once for all its subscriptions.
#[derive(Drop)]
pub struct MapFeed<C: Reach> {
    alloc: Global,
    identity: u64,
    feed: Feed<C>,
}

impl<C: Reach> Model for MapFeed<C> {
    ghost use Rattle.key_class.specs.QueryCodes.{query_code};
    ghost use Rattle.std.specs.Coded.{codes};
    ghost use Rattle.map.specs.MapFeeds.{MapFeedState, map_feed};

    ghost Value = { MapFeedState C.Atom };

    ghost coded = { Prim.hlevel (codes, query_code) };

    ghost view = { λ f. map_feed f.identity f.feed };
}

impl<C: Reach> MapFeed<C> {
    /// A feed of the map with an identity, without subscriptions, which has processed no revision yet.
    ///
    /// # Errors
    /// `OutOfMemory`.
    pub fn new(alloc: Global, identity: u64) -> Result<MapFeed<C>, Refusal>
        ensures ok { IfOk result (λ made. made ≡ map_feed identity new_feed) }
        ensures refused { IfErr result (λ why. why ≡ OutOfMemory) }
    {
        let feed = Feed::new(alloc)?;
        Ok(MapFeed {
            alloc,
            identity,
            feed,
        })
    }

    /// The identity of its map.
    pub fn identity(&self) -> u64
        ensures { result ≡ self.now.identity }
    {
        self.identity
    }

    /// The last revision that it has processed.
    pub fn upto(&self) -> u64
        ensures { result ≡ self.now.feed.upto }
    {
        self.feed.upto()
    }

    /// How many subscriptions are open.
    pub fn len(&self) -> usize
        ensures { result ≡ length self.now.feed.subscriptions }
    {
        self.feed.len()
    }

    /// Whether no subscription is open.
    pub fn is_empty(&self) -> bool
        ensures { result ≡ nat_eq (length self.now.feed.subscriptions) 0 }
    {
        self.feed.len() == 0
    }

    /// Subscribes to the changes of a query that come after revision `from`, and returns the subscription's serial.
    /// That revision may be before `upto`: the next `advance` delivers what was missed.
    ///
    /// # Errors
    /// `BadConfig` if the query is deeper than 32, else `FeedFull` if 1,000,000 subscriptions are open or the last
    /// serial, 4,294,967,295, was given, else `OutOfMemory`. Nothing is changed then.
    pub fn subscribe(&mut self, query: Pred<C::Atom>, from: u64) -> Result<u64, Refusal>
        ensures serial { IfOk result (λ serial. serial ≡ self.old.feed.last + 1) }
        ensures ok { OnOk result (self.new ≡ map_feed self.old.identity
            (with_subscription self.old.feed (query_of query) from)) }
        ensures err { OnErr result (self.new ≡ self.old) }
        ensures depth { (result ≡ Err BadConfig) ↔ (32 < depth_of (query_of query)) }
        ensures full { (result ≡ Err FeedFull) ↔ HasNoPlaceFor self.old.feed (query_of query) }
        ensures refusals { IfErr result RefusesSubscription }
    {
        self.feed.subscribe(query, from)
    }

    /// Ends a subscription.
    ///
    /// # Errors
    /// `NotSubscribed` if no subscription with the serial is open.
    pub fn unsubscribe(&mut self, serial: u64) -> Result<(), Refusal>
        ensures ok { OnOk result (self.new ≡ map_feed self.old.identity
            (without_subscription self.old.feed serial)) }
        ensures err { OnErr result (self.new ≡ self.old) }
        ensures none { (result ≡ Err NotSubscribed)
            ↔ (subscription_of self.old.feed serial ≡ None) }
        ensures refusal { IfErr result (λ why. why ≡ NotSubscribed) }
    {
        self.feed.unsubscribe(serial)
    }

    /// The serials of the open subscriptions that need changes from before a revision, in ascending order. Until they
    /// are ended, `advance` refuses a snapshot with that oldest revision.
    ///
    /// It visits new subscriptions, or all if the feed is behind that revision.
    ///
    /// # Errors
    /// `OutOfMemory`.
    pub fn compacted(&self, oldest: u64) -> Result<Vec<u64>, Refusal>
        ensures ok { IfOk result (λ serials. serials.items
            ≡ compacted_serials oldest self.now.feed) }
        ensures refused { IfErr result (λ why. why ≡ OutOfMemory) }
    {
        self.feed.compacted(oldest)
    }

    /// Processes at most `most` further revisions of a map, as a snapshot has them, and returns the revision that the
    /// feed has reached. Appends each subscription's items to a list, under its serial. A subscription that missed
    /// earlier revisions gets their items first.
    ///
    /// A feed that is behind the oldest revision goes on from there. In addition to those that get items, a call visits
    /// only the subscriptions that are new since the last call; if the feed is behind the oldest revision, it visits
    /// all.
    ///
    /// # Errors
    /// `OtherStore` if the snapshot is of another map, else `FromFuture` if its last revision is before the feed's,
    /// else `Compacted` if some open subscription needs changes from before its oldest revision
    /// ([`compacted`](MapFeed::compacted) returns which), else `OutOfMemory`. Feed and list are unchanged then.
    pub fn advance(
        &mut self,
        snapshot: &MapSnapshot<C>,
        most: u64,
        into: &mut Vec<(u64, MapItem<C::Key>)>,
    ) -> Result<u64, Refusal>
        ensures ok { IfOk result (AdvancesInto C.rules self.old snapshot.now.map most
            into.old.items into.new.items self.new) }
        ensures err { OnErr result (self.new ≡ self.old) }
        ensures unchanged { OnErr result (into.new.items ≡ into.old.items) }
        ensures other { (result ≡ Err OtherStore) ↔ IsOfOther self.old snapshot.now }
        ensures future { (result ≡ Err FromFuture) ↔ IsTooEarly self.old snapshot.now }
        ensures compacted { (result ≡ Err Compacted) ↔ IsTooLate self.old snapshot.now }
        ensures refusals { IfErr result RefusesMapAdvance }
    {
        if snapshot.identity() != self.identity {
            return Err(Refusal::OtherStore);
        }
        let upto = snapshot.poll(&self.feed, most, into)?;
        self.feed.acknowledge(upto);
        Ok(upto)
    }
}

impl<C: Reach> MapSnapshot<C> {
    /// Appends the items of at most `most` further revisions for a feed's subscriptions to a list, and returns the
    /// revision that the feed reaches by them.
    ///
    /// # Errors
    /// `FromFuture` if the last revision is before the feed's, else `Compacted` if some open subscription needs changes
    /// from before the oldest revision, else `OutOfMemory`. The list is unchanged then.
    fn poll(
        &self,
        feed: &Feed<C>,
        most: u64,
        into: &mut Vec<(u64, MapItem<C::Key>)>,
    ) -> Result<u64, Refusal>
        ensures ok { IfOk result (TellsInto C.rules feed.now self.now.map most
            into.old.items into.new.items) }
        ensures further { IfOk result (λ upto. feed.now.upto ≤ upto) }
        ensures unchanged { OnErr result (into.new.items ≡ into.old.items) }
        ensures future { (result ≡ Err FromFuture) ↔ IsAhead feed.now self.now.map }
        ensures compacted { (result ≡ Err Compacted) ↔ IsBehind feed.now self.now.map }
        ensures refusals { IfErr result RefusesAdvance }
    {
        let mut given = Vec::new(self.alloc);
        let upto = feed.poll_from(&self.snapshot, self.numbering, most, &mut given)?;
        let told = told_items(self.alloc, &self.snapshot, self.numbering, &given)?;
        into.extend_from_slice(&told)?;
        Ok(upto)
    }
}

/// The map's items for items of the store, each under a serial.
///
/// # Errors
/// Memory ran out.
fn told_items<C: Reach>(
    alloc: Global,
    snapshot: &Snapshot<C>,
    numbering: Numbering,
    given: &[(u64, Item<C::Key>)],
) -> Result<Vec<(u64, MapItem<C::Key>)>, AllocError>
    requires numbers { AreWithin (length snapshot.now) (map (λ g. g.1) given.now) }
    requires numbered { MayNumber numbering snapshot.now }
    ensures { IfOk result (λ told. told.items
        ≡ map (λ g. (g.0, map_item numbering.oldest numbering.begun snapshot.now g.1)) given.now) }
{
    let mut told = Vec::with_capacity(alloc, given.len())?;
    'renumbering: for due in given {
        told.push((due.0, map_item(snapshot, numbering, due.1)))?;
    }
    Ok(told)
}
