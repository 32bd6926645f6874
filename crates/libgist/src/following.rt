//! A feed of any class, with the items that it delivered but C hasn't taken yet.
ghost use Rattle.std.specs.Prelude.{◌≡◌, ◌↔◌, ◌<◌, ◌≤◌, min, length, map, drop, Err, IfOk, IfErr, OnOk, OnErr};
ghost use Rattle.key_class.specs.declared.refusal.Refusal.TheVariants.{FromFuture, OutOfMemory};
ghost use Rattle.key_class.specs.Refusals.{IsEither};
ghost use Rattle.search.specs.Fills.{written_over};
ghost use Rattle.libgist.specs.Following.{GivesWaiting, GoesOn, IsAdvancing, IsSubscribing, IsUnsubscribing, commits_allowed, new_following, told_item};

use crate::crossing::Crossing;
use crate::reading;
use crate::words::ToldItem;
use change_list::Item;
use feed::{Feed, Reach};
use key_class::{Pred, Refusal};
use snapshot::Snapshot;
use std::alloc::Global;
use std::marker::Model;

/// A feed, and the items that it delivered but C hasn't taken yet.
#[derive(Drop)]
pub struct Following<C: Reach> {
    alloc: Global,
    feed: Feed<C>,
    items: Vec<(u64, Item<C::Key>)>,
    /// How many of the items were taken: the first ones.
    taken: usize,
}

impl<C: Reach> Model for Following<C> {
    ghost use Rattle.std.specs.Prelude.{◌≤◌, length, drop};
    ghost use Rattle.key_class.specs.QueryCodes.{query_code};
    ghost use Rattle.std.specs.Coded.{codes};
    ghost use Rattle.libgist.specs.Following.{FollowingState};

    ghost Value = { FollowingState C.Key C.Atom };

    ghost coded = { Prim.hlevel (codes, query_code) };

    ghost view = { λ f. record { feed = f.feed; waiting = drop f.taken f.items.items } };

    ghost invariant = { λ f. f.taken ≤ length f.items.items };
}

/// An item for a subscription, in the layout that C reads.
fn told<C: Crossing>(snapshot: &Snapshot<C>, given: (u64, Item<C::Key>)) -> ToldItem
    ensures { result ≡ told_item C.words_of snapshot.now given }
{
    ToldItem {
        serial: given.0,
        item: reading::item(snapshot, given.1),
    }
}

/// Writes as many items as fit into a buffer, in the layout that C reads.
fn write_told<C: Crossing>(
    snapshot: &Snapshot<C>,
    buffer: &mut [ToldItem],
    items: &[(u64, Item<C::Key>)],
) -> usize
    ensures written { buffer.new
        ≡ written_over (map (told_item C.words_of snapshot.now) items.now) buffer.old }
    ensures counted { result ≡ min (length items.now) (length buffer.old) }
{
    let fitting = items.len().min(buffer.len());
    for place in 0..fitting {
        buffer[place] = told(snapshot, items[place]);
    }
    fitting
}

impl<C: Reach> Following<C> {
    /// A feed without subscriptions, which has gone over no commit yet.
    pub fn new(alloc: Global) -> Result<Following<C>, Refusal>
        ensures ok { IfOk result (λ following. following ≡ new_following) }
        ensures refused { IfErr result (λ why. why ≡ OutOfMemory) }
    {
        let feed = Feed::new(alloc)?;
        Ok(Following {
            alloc,
            feed,
            items: Vec::new(alloc),
            taken: 0,
        })
    }

    /// The items that wait.
    fn waiting(&self) -> &[(u64, Item<C::Key>)]
        ensures { result.now ≡ self.now.waiting }
    {
        &self.items[self.taken..]
    }

    /// Takes the first n of the items that wait.
    ///
    /// The rest moves only once at least as many items were taken, so that taking all items costs time in proportion
    /// to their number, however few are taken at a time.
    fn take(&mut self, n: usize)
        requires { n ≤ length self.old.waiting }
        ensures rest { self.new.waiting ≡ drop n self.old.waiting }
        ensures feed_stays { self.new.feed ≡ self.old.feed }
    {
        self.taken += n;
        let left = self.items.len() - self.taken;
        if left <= self.taken {
            self.items.rotate_left(self.taken);
            self.items.truncate(left);
            self.taken = 0;
        }
    }

    /// Subscribes to the changes of a query that come after a commit, and gives the subscription's serial.
    pub fn subscribe(&mut self, query: &Pred<C::Atom>, from: u64) -> Result<u64, Refusal>
        ensures { IsSubscribing query.now from self.old result self.new }
    {
        let copy = query.copy(self.alloc)?;
        self.feed.subscribe(copy, from)
    }

    /// How many further commits a call may process that is asked for `most`: none while items wait.
    fn allowed(&self, most: u64) -> u64
        ensures { result ≡ commits_allowed most self.now.waiting }
    {
        if self.waiting().is_empty() { most } else { 0 }
    }

    /// Processes at most `most` further commits of a snapshot, or none while items wait. A new subscription gets the
    /// changes that it missed in either case.
    fn go_on(&mut self, snapshot: &Snapshot<C>, most: u64) -> Result<(), Refusal>
        ensures ok { OnOk result (GoesOn C.rules
            (commits_allowed most self.old.waiting) snapshot.now self.old self.new) }
        ensures err { OnErr result (self.new ≡ self.old) }
        ensures future { (result ≡ Err FromFuture)
            ↔ (length snapshot.now < self.old.feed.upto) }
        ensures refusals { IfErr result (IsEither FromFuture OutOfMemory) }
    {
        let allowed = self.allowed(most);
        self.feed.advance(snapshot, allowed, &mut self.items)?;
        Ok(())
    }

    /// Ends a subscription.
    pub fn unsubscribe(&mut self, serial: u64) -> Result<(), Refusal>
        ensures { IsUnsubscribing serial self.old result self.new }
    {
        self.feed.unsubscribe(serial)
    }
}

/// Delivers as many of the items that wait as fit into a buffer. Returns their number, and the last commit that the
/// feed has processed.
fn give<C: Crossing + Reach>(
    following: &mut Following<C>,
    snapshot: &Snapshot<C>,
    items: &mut [ToldItem],
) -> (u64, u64)
    ensures { GivesWaiting C.words_of snapshot.now items.old items.new
        following.old following.new result }
{
    let given = write_told(snapshot, items, following.waiting());
    following.take(given);
    (given as u64, following.feed.upto())
}

/// Processes at most `most` further commits of a snapshot, or none while items wait, and delivers as many items as fit
/// into a buffer. Returns their number, and the last commit that the feed has processed.
///
/// # Errors
/// `FromFuture` if the snapshot has fewer commits than the feed has processed, or `OutOfMemory`.
pub fn advance<C: Crossing + Reach>(
    following: &mut Following<C>,
    snapshot: &Snapshot<C>,
    most: u64,
    items: &mut [ToldItem],
) -> Result<(u64, u64), Refusal>
    ensures { IsAdvancing C.rules C.words_of most snapshot.now items.old items.new
        following.old result following.new }
{
    following.go_on(snapshot, most)?;
    Ok(give(following, snapshot, items))
}
