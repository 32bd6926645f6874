//! A feed of a map of any class, with the items that it delivered but C hasn't taken yet.
ghost use Rattle.std.specs.Prelude.{◌≡◌, ◌↔◌, ◌≤◌, length, drop, Err, IfOk, IfErr, OnOk, OnErr};
ghost use Rattle.key_class.specs.declared.refusal.Refusal.TheVariants.{Compacted, FromFuture, OtherStore, OutOfMemory};
ghost use Rattle.map.specs.MapFeeds.{IsOfOther, IsTooEarly, IsTooLate, RefusesMapAdvance};
ghost use Rattle.libgist.specs.Following.{commits_allowed};
ghost use Rattle.libgist.specs.MapFollowing.{GivesWaiting, GoesOn, IsMapAdvancing, IsMapSubscribing, IsMapUnsubscribing, IsTellingCompacted, new_map_following};

use crate::buffers::{write_as, write_over};
use crate::crossing::Crossing;
use crate::map_shown::AsToldMapItem;
use crate::words::ToldMapItem;
use feed::Reach;
use key_class::{Pred, Refusal};
use map::{MapFeed, MapItem, MapSnapshot};
use std::alloc::Global;
use std::marker::Model;

/// A feed of a map, and the items that it delivered but C hasn't taken yet.
#[derive(Drop)]
pub struct MapFollowing<C: Reach> {
    alloc: Global,
    feed: MapFeed<C>,
    items: Vec<(u64, MapItem<C::Key>)>,
    /// How many of the items were taken: the first ones.
    taken: usize,
}

impl<C: Reach> Model for MapFollowing<C> {
    ghost use Rattle.std.specs.Prelude.{◌≤◌, length, drop};
    ghost use Rattle.key_class.specs.QueryCodes.{query_code};
    ghost use Rattle.std.specs.Coded.{codes};
    ghost use Rattle.libgist.specs.MapFollowing.{MapFollowingState};

    ghost Value = { MapFollowingState C.Key C.Atom };

    ghost coded = { Prim.hlevel (codes, query_code) };

    ghost view = { λ f. record { feed = f.feed; waiting = drop f.taken f.items.items } };

    ghost invariant = { λ f. f.taken ≤ length f.items.items };
}

impl<C: Reach> MapFollowing<C> {
    /// A feed of the map with an identity, without subscriptions, which has processed no revision yet.
    pub fn new(alloc: Global, identity: u64) -> Result<MapFollowing<C>, Refusal>
        ensures ok { IfOk result (λ following. following ≡ new_map_following identity) }
        ensures refused { IfErr result (λ why. why ≡ OutOfMemory) }
    {
        let feed = MapFeed::new(alloc, identity)?;
        Ok(MapFollowing {
            alloc,
            feed,
            items: Vec::new(alloc),
            taken: 0,
        })
    }

    /// The items that wait.
    fn waiting(&self) -> &[(u64, MapItem<C::Key>)]
        ensures { result.now ≡ self.now.waiting }
    {
        &self.items[self.taken..]
    }

    /// Takes the first n of the items that wait.
    ///
    /// The rest moves only once at least as many items were taken, so that taking all items costs time in proportion
    /// to their number, however few are taken at a time.
    fn take(&mut self, n: usize)
        requires { n ≤ length self.old.waiting }
        ensures rest { self.new.waiting ≡ drop n self.old.waiting }
        ensures feed_stays { self.new.feed ≡ self.old.feed }
    {
        self.taken += n;
        let left = self.items.len() - self.taken;
        if left <= self.taken {
            self.items.rotate_left(self.taken);
            self.items.truncate(left);
            self.taken = 0;
        }
    }

    /// Subscribes to the items of a query that come after a revision, and gives the subscription's serial.
    pub fn subscribe(&mut self, query: &Pred<C::Atom>, from: u64) -> Result<u64, Refusal>
        ensures { IsMapSubscribing query.now from self.old result self.new }
    {
        let copy = query.copy(self.alloc)?;
        self.feed.subscribe(copy, from)
    }

    /// Ends a subscription.
    pub fn unsubscribe(&mut self, serial: u64) -> Result<(), Refusal>
        ensures { IsMapUnsubscribing serial self.old result self.new }
    {
        self.feed.unsubscribe(serial)
    }

    /// Writes the serials of the subscriptions that need items from before a revision into a buffer, as many as fit,
    /// and gives how many they are.
    pub fn compacted(&self, oldest: u64, serials: &mut [u64]) -> Result<u64, Refusal>
        ensures { IsTellingCompacted oldest serials.old serials.new self.now result }
    {
        let compacted = self.feed.compacted(oldest)?;
        write_over(serials, &compacted);
        Ok(compacted.len() as u64)
    }

    /// How many further revisions a call may process that is asked for `most`: none while items wait.
    fn allowed(&self, most: u64) -> u64
        ensures { result ≡ commits_allowed most self.now.waiting }
    {
        if self.waiting().is_empty() { most } else { 0 }
    }

    /// Processes at most `most` further revisions of a snapshot, or none while items wait. A new subscription gets the
    /// items that it missed in either case.
    fn go_on_map(&mut self, snapshot: &MapSnapshot<C>, most: u64) -> Result<(), Refusal>
        ensures ok { OnOk result (GoesOn C.rules
            (commits_allowed most self.old.waiting) snapshot.now.map self.old self.new) }
        ensures err { OnErr result (self.new ≡ self.old) }
        ensures other { (result ≡ Err OtherStore) ↔ IsOfOther self.old.feed snapshot.now }
        ensures future { (result ≡ Err FromFuture) ↔ IsTooEarly self.old.feed snapshot.now }
        ensures compacted { (result ≡ Err Compacted) ↔ IsTooLate self.old.feed snapshot.now }
        ensures refusals { IfErr result RefusesMapAdvance }
    {
        let allowed = self.allowed(most);
        self.feed.advance(snapshot, allowed, &mut self.items)?;
        Ok(())
    }
}

/// Delivers as many of the items that wait as fit into a buffer. Returns their number, and the last revision that the
/// feed has processed.
fn give_items<C: Crossing + Reach>(
    following: &mut MapFollowing<C>,
    items: &mut [ToldMapItem],
) -> (u64, u64)
    ensures { GivesWaiting C.words_of items.old items.new following.old following.new result }
{
    let waiting = following.waiting();
    let given = waiting.len().min(items.len());
    write_as::<(u64, MapItem<C::Key>), ToldMapItem, AsToldMapItem<C>>(items, waiting);
    following.take(given);
    (given as u64, following.feed.upto())
}

/// Processes at most `most` further revisions of a snapshot, or none while items wait, and delivers as many items as
/// fit into a buffer. Returns their number, and the last revision that the feed has processed.
///
/// # Errors
/// `OtherStore` if the snapshot is of another map, else `FromFuture` if its last revision is before the feed's, else
/// `Compacted` if some subscription needs items from before its oldest revision, else `OutOfMemory`.
pub fn advance<C: Crossing + Reach>(
    following: &mut MapFollowing<C>,
    snapshot: &MapSnapshot<C>,
    most: u64,
    items: &mut [ToldMapItem],
) -> Result<(u64, u64), Refusal>
    ensures { IsMapAdvancing C.rules C.words_of most snapshot.now items.old items.new
        following.old result following.new }
{
    following.go_on_map(snapshot, most)?;
    Ok(give_items(following, items))
}
