ghost use Rattle.std.specs.Prelude.{◌≡◌, ◌↔◌, ◌+◌, ◌<◌, ◌≤◌, length, max, None, Err, IfOk, IfErr, OnOk, OnErr};
ghost use Rattle.std.specs.List.{list_any};
ghost use Rattle.key_class.specs.Queries.{query_of, depth_of};
ghost use Rattle.key_class.specs.Refusals.{IsEither};
ghost use Rattle.key_class.specs.declared.refusal.Refusal.TheVariants.{BadConfig, Compacted, FeedFull, FromFuture, NotSubscribed, OutOfMemory};
ghost use Rattle.feed.specs.Asking.{GivesInto, due_at, due_upto};
ghost use Rattle.feed.specs.Feeds.{AdvancesByInto, AdvancesInto, HasNoPlaceFor, IsCompacted, RefusesAdvance, RefusesSubscription, acknowledged, compacted_serials, needs_before, new_feed, subscription_of, with_subscription, without_subscription};
ghost use Rattle.feed.specs.Numberings.{MayNumber, last_revision};

use crate::numbering::Numbering;
use crate::reach::Reach;
use crate::registration::{Registration, any_before, serials_before, tell_since};
use crate::topics::Topics;
use change_list::Item;
use key_class::limits::{MAX_DEPTH, MAX_SERIAL, MAX_SUBSCRIPTIONS};
use key_class::{Pred, Refusal};
use snapshot::Snapshot;
use std::alloc::Global;
use std::collections::BTreeMap;
use std::marker::Model;

/// Each commit is the revision with its number.
const COMMITS: Numbering = Numbering {
    oldest: 0,
    begun: 0,
};

/// Subscriptions to the changes of queries. It goes over a list of commits, and remembers up to which commit.
///
/// A commit tests only the queries that its keys may match, and each of them once, however many subscriptions share
/// it.
///
/// Its numbers are revisions, which at [`advance`](Feed::advance) are the numbers of commits. Where a store is replaced
/// by another one, [`advance_from`](Feed::advance_from) goes on by its [`Numbering`].
#[derive(Drop)]
pub struct Feed<C: Reach> {
    alloc: Global,
    upto: u64,
    /// Subscriptions with serials up to this one have already been given what they had missed before `upto`.
    passed: u64,
    last: u64,
    /// The subscriptions, by serial.
    registrations: BTreeMap<u64, Registration<C::Atom>>,
    topics: Topics<C>,
}

impl<C: Reach> Model for Feed<C> {
    ghost use Rattle.key_class.specs.QueryCodes.{query_code};
    ghost use Rattle.std.specs.Coded.{codes};
    ghost use Rattle.feed.specs.Feeds.{FeedState};
    ghost use Rattle.feed.specs.Holding.{feed_state, IsHolding};

    ghost Value = { FeedState C.Atom };

    ghost coded = { Prim.hlevel (codes, query_code) };

    ghost view = { λ f. feed_state f.upto f.passed f.last f.registrations.entries };

    ghost invariant = { λ f. IsHolding f.topics f.passed f.last f.registrations.entries };
}

impl<C: Reach> Feed<C> {
    /// A feed without subscriptions, which has gone over no commit yet.
    ///
    /// # Errors
    /// `OutOfMemory`.
    pub fn new(alloc: Global) -> Result<Feed<C>, Refusal>
        ensures ok { IfOk result (λ feed. feed ≡ new_feed) }
        ensures refused { IfErr result (λ why. why ≡ OutOfMemory) }
    {
        let topics = Topics::new(alloc)?;
        Ok(Feed {
            alloc,
            upto: 0,
            passed: 0,
            last: 0,
            registrations: BTreeMap::new(alloc),
            topics,
        })
    }

    /// The number of the last commit that it went over.
    pub fn upto(&self) -> u64
        ensures { result ≡ self.now.upto }
    {
        self.upto
    }

    /// How many subscriptions are open.
    pub fn len(&self) -> usize
        ensures { result ≡ length self.now.subscriptions }
    {
        self.registrations.len()
    }

    /// Subscribes to the changes of a query that come after commit `from`, and gives the subscription's serial. That
    /// commit may be before `upto`: the next `advance` gives what was missed.
    ///
    /// # Errors
    /// `BadConfig` if the query is deeper than 32, else `FeedFull` if 1,000,000 subscriptions are open or the last
    /// serial, 4,294,967,295, was given, else `OutOfMemory`. Nothing is changed then.
    pub fn subscribe(&mut self, query: Pred<C::Atom>, from: u64) -> Result<u64, Refusal>
        ensures serial { IfOk result (λ serial. serial ≡ self.old.last + 1) }
        ensures ok { OnOk result
            (self.new ≡ with_subscription self.old (query_of query) from) }
        ensures err { OnErr result (self.new ≡ self.old) }
        ensures depth { (result ≡ Err BadConfig) ↔ (32 < depth_of (query_of query)) }
        ensures full { (result ≡ Err FeedFull) ↔ HasNoPlaceFor self.old (query_of query) }
        ensures refusals { IfErr result RefusesSubscription }
    {
        if !query.is_within_depth(MAX_DEPTH) {
            return Err(Refusal::BadConfig);
        }
        if self.registrations.len() >= MAX_SUBSCRIPTIONS || self.last >= MAX_SERIAL {
            return Err(Refusal::FeedFull);
        }
        let serial = self.last + 1;
        let topic = self.topics.enter(&query, serial, from)?;
        let registration = Registration { query, from, topic };
        let Ok(_) = self.registrations.insert(serial, registration) else {
            self.topics.leave(topic, serial);
            return Err(Refusal::OutOfMemory);
        };
        self.last = serial;
        Ok(serial)
    }

    /// Ends a subscription.
    ///
    /// # Errors
    /// `NotSubscribed` if no subscription with the serial is open.
    pub fn unsubscribe(&mut self, serial: u64) -> Result<(), Refusal>
        ensures ok { OnOk result (self.new ≡ without_subscription self.old serial) }
        ensures err { OnErr result (self.new ≡ self.old) }
        ensures none { (result ≡ Err NotSubscribed)
            ↔ (subscription_of self.old serial ≡ None) }
        ensures refusal { IfErr result (λ why. why ≡ NotSubscribed) }
    {
        let Some(gone) = self.registrations.remove(&serial) else {
            return Err(Refusal::NotSubscribed);
        };
        self.topics.leave(gone.topic, serial);
        Ok(())
    }

    /// Goes over at most `most` further commits of a snapshot, and gives up to which commit the feed has gone.
    /// Appends to a list what each subscription is given, under its serial. A subscription that missed earlier
    /// commits is given those changes too.
    ///
    /// # Errors
    /// `FromFuture` if the snapshot has fewer commits than the feed has gone over, else `OutOfMemory`. Feed and list
    /// are unchanged then.
    pub fn advance(
        &mut self,
        snapshot: &Snapshot<C>,
        most: u64,
        into: &mut Vec<(u64, Item<C::Key>)>,
    ) -> Result<u64, Refusal>
        ensures upto { IfOk result (λ upto. upto ≡ self.new.upto) }
        ensures ok { OnOk result (AdvancesInto C.rules self.old snapshot.now most
            into.old.items into.new.items self.new) }
        ensures err { OnErr result (self.new ≡ self.old) }
        ensures unchanged { OnErr result (into.new.items ≡ into.old.items) }
        ensures future { (result ≡ Err FromFuture) ↔ (length snapshot.now < self.old.upto) }
        ensures refusals { IfErr result (IsEither FromFuture OutOfMemory) }
    {
        // brings into view that the number of commits is in range
        let _count = snapshot.commits();
        self.advance_from(snapshot, COMMITS, most, into)
    }

    /// Like [`advance`](Feed::advance), for a feed whose numbers are revisions: processes at most `most` further
    /// revisions of a snapshot whose commits are numbered so, and returns the revision that the feed has reached. So a
    /// feed goes on at another store, and none of its subscriptions changes. Items have the numbers of commits.
    ///
    /// A feed that is behind the oldest revision goes on from there. Beside what it delivers, a call visits only
    /// subscriptions that are new since the last one; a call of a feed that is behind the oldest revision visits all.
    ///
    /// # Errors
    /// `FromFuture` if the snapshot's last revision is before the feed's, else `Compacted` if some open subscription
    /// needs changes from before the oldest revision ([`compacted`](Feed::compacted) returns which), else
    /// `OutOfMemory`. Feed and list are unchanged then.
    pub fn advance_from(
        &mut self,
        snapshot: &Snapshot<C>,
        numbering: Numbering,
        most: u64,
        into: &mut Vec<(u64, Item<C::Key>)>,
    ) -> Result<u64, Refusal>
        requires { MayNumber numbering snapshot.now }
        ensures upto { IfOk result (λ upto. upto ≡ self.new.upto) }
        ensures ok { OnOk result (AdvancesByInto C.rules numbering self.old snapshot.now most
            into.old.items into.new.items self.new) }
        ensures err { OnErr result (self.new ≡ self.old) }
        ensures unchanged { OnErr result (into.new.items ≡ into.old.items) }
        ensures future { (result ≡ Err FromFuture)
            ↔ (last_revision numbering snapshot.now < self.old.upto) }
        ensures compacted { (result ≡ Err Compacted)
            ↔ IsCompacted numbering snapshot.now self.old }
        ensures refusals { IfErr result RefusesAdvance }
    {
        let upto = self.poll_from(snapshot, numbering, most, into)?;
        self.acknowledge(upto);
        Ok(upto)
    }

    /// Returns what `advance_from` would, and leaves the feed as it is. Once the items have been delivered,
    /// [`acknowledge`](Feed::acknowledge) takes the feed to the revision that is returned here.
    ///
    /// # Errors
    /// As `advance_from`.
    pub fn poll_from(
        &self,
        snapshot: &Snapshot<C>,
        numbering: Numbering,
        most: u64,
        into: &mut Vec<(u64, Item<C::Key>)>,
    ) -> Result<u64, Refusal>
        requires { MayNumber numbering snapshot.now }
        ensures ok { IfOk result (λ upto. AdvancesByInto C.rules numbering self.now snapshot.now
            most into.old.items into.new.items (acknowledged upto self.now)) }
        ensures further { IfOk result (λ upto. self.now.upto ≤ upto) }
        ensures unchanged { OnErr result (into.new.items ≡ into.old.items) }
        ensures future { (result ≡ Err FromFuture)
            ↔ (last_revision numbering snapshot.now < self.now.upto) }
        ensures compacted { (result ≡ Err Compacted)
            ↔ IsCompacted numbering snapshot.now self.now }
        ensures refusals { IfErr result RefusesAdvance }
    {
        let last = numbering.last_revision(snapshot);
        if self.upto > last {
            return Err(Refusal::FromFuture);
        }
        if self.is_compacted(numbering.oldest) {
            return Err(Refusal::Compacted);
        }
        let first = self.upto.max(numbering.oldest);
        let upto = last.min(first.saturating_add(most));
        let mut told = Vec::new(self.alloc);
        self.tell(snapshot, numbering, upto, &mut told)?;
        into.extend_from_slice(&told)?;
        Ok(upto)
    }

    /// Goes on to a revision up to which each subscription has its items.
    pub fn acknowledge(&mut self, upto: u64)
        requires { self.old.upto ≤ upto }
        ensures { self.new ≡ acknowledged upto self.old }
    {
        self.upto = upto;
        self.passed = self.last;
    }

    /// The serials of the open subscriptions that need changes from before a revision, rising. At a snapshot whose
    /// oldest revision that is, `advance_from` is refused until they are ended.
    ///
    /// It visits new subscriptions, or all if the feed is behind that revision.
    ///
    /// # Errors
    /// `OutOfMemory`.
    pub fn compacted(&self, oldest: u64) -> Result<Vec<u64>, Refusal>
        ensures ok { IfOk result (λ serials. serials.items ≡ compacted_serials oldest self.now) }
        ensures refused { IfErr result (λ why. why ≡ OutOfMemory) }
    {
        let passed = if self.upto < oldest { 0 } else { self.passed };
        serials_before(self.alloc, &self.registrations, passed, oldest)
    }

    /// Whether some open subscription needs changes from before a revision.
    fn is_compacted(&self, oldest: u64) -> bool
        ensures { result ≡ list_any (needs_before oldest) self.now.subscriptions }
    {
        let passed = if self.upto < oldest { 0 } else { self.passed };
        any_before(&self.registrations, passed, oldest)
    }

    /// Appends all that is due up to a revision to a list.
    ///
    /// # Errors
    /// `OutOfMemory`.
    fn tell(
        &self,
        snapshot: &Snapshot<C>,
        numbering: Numbering,
        upto: u64,
        told: &mut Vec<(u64, Item<C::Key>)>,
    ) -> Result<(), Refusal>
        requires numbered { MayNumber numbering snapshot.now }
        requires further { max numbering.oldest self.now.upto ≤ upto }
        requires within { upto ≤ last_revision numbering snapshot.now }
        ensures ok { OnOk result (GivesInto (due_upto C.rules numbering snapshot.now upto)
            self.now told.old.items told.new.items) }
        ensures refused { IfErr result (λ why. why ≡ OutOfMemory) }
    {
        self.tell_missed(snapshot, numbering, told)?;
        for revision in self.upto().max(numbering.oldest)..upto {
            self.tell_commit(snapshot, numbering, revision, told)?;
        }
        Ok(())
    }

    /// Appends what new subscriptions have missed to a list.
    ///
    /// # Errors
    /// `OutOfMemory`.
    fn tell_missed(
        &self,
        snapshot: &Snapshot<C>,
        numbering: Numbering,
        told: &mut Vec<(u64, Item<C::Key>)>,
    ) -> Result<(), Refusal>
        requires numbered { MayNumber numbering snapshot.now }
        requires within { self.now.upto ≤ last_revision numbering snapshot.now }
        ensures ok { OnOk result (GivesInto (due_upto C.rules numbering snapshot.now self.now.upto)
            self.now told.old.items told.new.items) }
        ensures refused { IfErr result (λ why. why ≡ OutOfMemory) }
    {
        for passed in self.passed..self.last {
            let serial = passed + 1;
            if let Some(registration) = self.registrations.get(&serial) {
                tell_since(serial, registration, snapshot, numbering, self.upto, told)?;
            }
        }
        Ok(())
    }

    /// Appends what the revision after `revision` gives to a list.
    ///
    /// # Errors
    /// `OutOfMemory`.
    fn tell_commit(
        &self,
        snapshot: &Snapshot<C>,
        numbering: Numbering,
        revision: u64,
        told: &mut Vec<(u64, Item<C::Key>)>,
    ) -> Result<(), Refusal>
        requires numbered { MayNumber numbering snapshot.now }
        requires further { max numbering.oldest self.now.upto ≤ revision }
        requires within { revision < last_revision numbering snapshot.now }
        ensures ok { OnOk result (GivesInto (due_at C.rules numbering snapshot.now revision)
            self.now told.old.items told.new.items) }
        ensures refused { IfErr result (λ why. why ≡ OutOfMemory) }
    {
        self.topics.tell_commit(snapshot, numbering, revision, told)
    }
}
