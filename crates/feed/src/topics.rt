ghost use Rattle.std.specs.Prelude.{◌≡◌, ◌≢◌, ◌↔◌, ◌+◌, ◌++◌, ◌<◌, ◌≤◌, ◌^◌, ℕ, [], IfOk, IfErr, IfSome, IsTrue, None, OnErr, OnOk, Some};
ghost use Rattle.std.specs.Bool.{OnFalse, OnTrue};
ghost use Rattle.std.specs.List.Sorted.{IsStrictlyIncreasing};
ghost use Rattle.key_class.specs.Queries.{query_of};
ghost use Rattle.key_class.specs.declared.refusal.Refusal.TheVariants.{OutOfMemory};
ghost use Rattle.feed.specs.Asking.{AreConcerned, TellsCommit, TellsTopic};
ghost use Rattle.feed.specs.Hearing.{ChangesHearing, IsHeardBy, query_at, topic_at};
ghost use Rattle.feed.specs.Holding.{AreEnrolled};
ghost use Rattle.feed.specs.Numberings.{MayNumber, last_revision};

use crate::change::Change;
use crate::enrolling::{enrol, uproot_query};
use crate::listeners::Listeners;
use crate::numbering::Numbering;
use crate::queries::reaches;
use crate::reach::Reach;
use crate::tree::{find_tags, sweep};
use change_list::{Config, Item};
use key_class::limits::{MAX_COMMITS, MAX_PAGES};
use key_class::{Pred, Refusal};
use slab::Slab;
use snapshot::Snapshot;
use std::alloc::Global;
use std::collections::BTreeSet;
use std::marker::Model;
use store::Store;

/// The limits of the tree. It has a row for each key under which a query is looked for.
const TREE: Config = Config {
    fan: 32,
    least: 12,
    pages: MAX_PAGES,
    commits: MAX_COMMITS,
};

/// How many commits the tree makes before it is swept: this many, and one more for each topic.
const FEW_COMMITS: u64 = 1_000;

/// It is rebuilt after this many times as many.
const TENDINGS: u64 = 8;

/// A query, and the subscriptions that listen to it.
#[derive(Drop)]
pub(crate) struct Topic<A> {
    pub(crate) query: Pred<A>,
    pub(crate) listeners: Listeners,
}

/// The queries that subscriptions listen to, each once and under a number.
///
/// They lie in a tree, under the keys that can match them. So a commit tests only those that its own keys overlap,
/// and those that any key may match.
#[derive(Drop)]
pub(crate) struct Topics<C: Reach> {
    alloc: Global,
    topics: Slab<Topic<C::Atom>>,
    /// The numbers of the topics that every commit tests.
    always: BTreeSet<u64>,
    /// The tags of its rows are numbers of topics.
    tree: Store<C>,
    /// How many commits the tree had when it was last swept or rebuilt.
    tended: u64,
}

impl<C: Reach> Model for Topics<C> {
    ghost use Rattle.std.specs.Prelude.{List, Option, map, option_map};
    ghost use Rattle.key_class.specs.QueryCodes.{query_code};
    ghost use Rattle.std.specs.Coded.{codes};
    ghost use Rattle.feed.specs.Hearing.{TopicState};
    ghost use Rattle.feed.specs.Holding.{AreEnrolled, topic_state};

    ghost Value = { List (Option (TopicState C.Atom)) };

    ghost coded = { Prim.hlevel (codes, query_code) };

    ghost view = { λ t. map (option_map topic_state) t.topics.slots };

    ghost invariant = { λ t. AreEnrolled C.reach_of C.rules.size_of t.tree.commits t.always.keys
        t.topics.slots };
}

impl<C: Reach> Topics<C> {
    /// No topics.
    ///
    /// # Errors
    /// `OutOfMemory`.
    pub(crate) fn new(alloc: Global) -> Result<Topics<C>, Refusal>
        ensures ok { IfOk result (λ topics. topics ≡ []) }
        ensures refused { IfErr result (λ why. why ≡ OutOfMemory) }
    {
        let tree = Store::new(alloc, TREE)?;
        Ok(Topics {
            alloc,
            topics: Slab::new(alloc),
            always: BTreeSet::new(alloc),
            tree,
            tended: 0,
        })
    }

    /// Adds a listener to a query, with the revision after which it listens, and gives the topic's number.
    ///
    /// # Errors
    /// `OutOfMemory`.
    pub(crate) fn enter(
        &mut self,
        query: &Pred<C::Atom>,
        serial: u64,
        from: u64,
    ) -> Result<usize, Refusal>
        ensures ok { IfOk result (λ number. ChangesHearing self.old number serial
            (Some (query_of query.now, from)) self.new) }
        ensures err { OnErr result (self.new ≡ self.old) }
        ensures refused { IfErr result (λ why. why ≡ OutOfMemory) }
    {
        if let Some(number) = self.find(query)? {
            self.join(number, query, serial, from)?;
            return Ok(number);
        }
        self.begin(query, serial, from)
    }

    /// Adds a listener to the topic with a number.
    ///
    /// # Errors
    /// `OutOfMemory`.
    fn join(
        &mut self,
        number: usize,
        query: &Pred<C::Atom>,
        serial: u64,
        from: u64,
    ) -> Result<(), Refusal>
        requires { query_at self.old number ≡ Some (query_of query.now) }
        ensures ok { OnOk result (ChangesHearing self.old number serial
            (Some (query_of query.now, from)) self.new) }
        ensures err { OnErr result (self.new ≡ self.old) }
        ensures refused { IfErr result (λ why. why ≡ OutOfMemory) }
    {
        let Some(topic) = self.topics.get_mut(number) else {
            return Ok(());
        };
        topic.listeners.insert(serial, from)
    }

    /// Begins a topic with its first listener, and gives its number.
    ///
    /// # Errors
    /// `OutOfMemory`.
    fn begin(&mut self, query: &Pred<C::Atom>, serial: u64, from: u64) -> Result<usize, Refusal>
        ensures ok { IfOk result (λ number. ChangesHearing self.old number serial
            (Some (query_of query.now, from)) self.new) }
        ensures err { OnErr result (self.new ≡ self.old) }
        ensures refused { IfErr result (λ why. why ≡ OutOfMemory) }
    {
        let copy = query.copy(self.alloc)?;
        self.topics.reserve(1)?;
        let number = self.topics.vacant_key();
        enrol(
            self.alloc,
            &mut self.tree,
            &mut self.always,
            query,
            number as u64,
        )?;
        Ok(
            self.topics.insert_reserved(Topic {
                query: copy,
                listeners: Listeners::alone(self.alloc, serial, from),
            }),
        )
    }

    /// The number of the topic of a query, or `None` if it isn't found.
    ///
    /// # Errors
    /// `OutOfMemory`.
    fn find(&self, query: &Pred<C::Atom>) -> Result<Option<usize>, Refusal>
        ensures ok { IfOk result (λ found. IfSome found (λ number.
            query_at self.now number ≡ Some (query_of query.now))) }
        ensures refused { IfErr result (λ why. why ≡ OutOfMemory) }
    {
        let Some(keys) = reaches::<C>(self.alloc, query)? else {
            return Ok(self.find_always(query));
        };
        let Some(key) = keys.first() else {
            return Ok(None);
        };
        self.find_below(*key, query)
    }

    /// The number of a query's topic, among those that lie in the tree under a key.
    ///
    /// # Errors
    /// `OutOfMemory`.
    fn find_below(&self, key: C::Key, query: &Pred<C::Atom>) -> Result<Option<usize>, Refusal>
        ensures ok { IfOk result (λ found. IfSome found (λ number.
            query_at self.now number ≡ Some (query_of query.now))) }
        ensures refused { IfErr result (λ why. why ≡ OutOfMemory) }
    {
        let rows = self.tree.find_any(&Pred::Atom(C::same(key)))?;
        for row in &rows {
            if self.is_about(row.tag as usize, query) {
                return Ok(Some(row.tag as usize));
            }
        }
        Ok(None)
    }

    /// The number of a query's topic, among those that every commit tests.
    fn find_always(&self, query: &Pred<C::Atom>) -> Option<usize>
        ensures { IfSome result (λ number.
            query_at self.now number ≡ Some (query_of query.now)) }
    {
        for number in &self.always {
            if self.is_about(*number as usize, query) {
                return Some(*number as usize);
            }
        }
        None
    }

    /// Whether the topic with a number has this query.
    fn is_about(&self, number: usize, query: &Pred<C::Atom>) -> bool
        ensures { IsTrue result ↔ (query_at self.now number ≡ Some (query_of query.now)) }
    {
        match self.topics.get(number) {
            Some(topic) => topic.query.same_as::<C>(query),
            None => false,
        }
    }

    /// Removes a listener from the topic with a number. The topic ends with its last listener.
    pub(crate) fn leave(&mut self, number: usize, serial: u64)
        ensures { ChangesHearing self.old number serial None self.new }
    {
        if !self.leaves_others(number, serial) {
            self.end(number);
        }
    }

    /// Removes a listener from a topic, unless it is the only one. False if it is the only one.
    fn leaves_others(&mut self, number: usize, serial: u64) -> bool
        ensures left { OnTrue result (ChangesHearing self.old number serial None self.new) }
        ensures only { OnFalse result (IsHeardBy self.old number serial) }
        ensures unchanged { OnFalse result ((other : ℕ) → other ≢ number
            → topic_at self.new other ≡ topic_at self.old other) }
    {
        let Some(topic) = self.topics.get_mut(number) else {
            return true;
        };
        topic.listeners.remove(serial)
    }

    /// Ends a topic, and removes its rows from the tree.
    fn end(&mut self, number: usize)
        ensures gone { topic_at self.new number ≡ None }
        ensures others { (other : ℕ) → other ≢ number
            → topic_at self.new other ≡ topic_at self.old other }
    {
        let Some(topic) = self.topics.try_remove(number) else {
            return;
        };
        let _asked = self.always.remove(&(number as u64));
        uproot_query(self.alloc, &mut self.tree, &topic.query, number as u64);
        self.tend();
    }

    /// Sweeps the tree or rebuilds it, if it has made enough commits since the last time. If memory runs out some
    /// dead rows stay.
    fn tend(&mut self)
        ensures { self.new ≡ self.old }
    {
        let few = (self.topics.len() as u64).saturating_add(FEW_COMMITS);
        let commits = self.tree.commits();
        if commits.saturating_sub(self.tended) <= few {
            return;
        }
        self.tended = commits;
        if commits <= few.saturating_mul(TENDINGS) || self.plant_anew().is_err() {
            sweep(&mut self.tree);
        }
    }

    /// Rebuilds the tree: puts the queries into a new one, without commits.
    ///
    /// # Errors
    /// `OutOfMemory`.
    fn plant_anew(&mut self) -> Result<(), Refusal>
        ensures { self.new ≡ self.old }
    {
        let (tree, always) = planted(self.alloc, &self.topics)?;
        self.tended = tree.commits();
        self.tree = tree;
        self.always = always;
        Ok(())
    }

    /// Appends what the revision after `revision` gives to a list.
    ///
    /// # Errors
    /// `OutOfMemory`.
    pub(crate) fn tell_commit(
        &self,
        snapshot: &Snapshot<C>,
        numbering: Numbering,
        revision: u64,
        told: &mut Vec<(u64, Item<C::Key>)>,
    ) -> Result<(), Refusal>
        requires numbered { MayNumber numbering snapshot.now }
        requires further { numbering.oldest ≤ revision }
        requires within { revision < last_revision numbering snapshot.now }
        ensures ok { OnOk result (TellsCommit C.rules numbering snapshot.now self.now revision
            told.old.items told.new.items) }
        ensures refused { IfErr result (λ why. why ≡ OutOfMemory) }
    {
        let change = Change::at(snapshot, numbering.place_after(snapshot, revision));
        let numbers = self.concerned(&change)?;
        for number in &numbers {
            self.tell_topic(*number as usize, &change, revision, told)?;
        }
        Ok(())
    }

    /// Appends what a change, which makes the revision after `revision`, gives to the listeners of the topic with a
    /// number to a list.
    ///
    /// # Errors
    /// `OutOfMemory`.
    fn tell_topic(
        &self,
        number: usize,
        change: &Change<C::Key>,
        revision: u64,
        told: &mut Vec<(u64, Item<C::Key>)>,
    ) -> Result<(), Refusal>
        requires { revision + 1 < 2 ^ 64 }
        ensures ok { OnOk result (TellsTopic C.rules self.now number change.now revision
            told.old.items told.new.items) }
        ensures refused { IfErr result (λ why. why ≡ OutOfMemory) }
    {
        let Some(topic) = self.topics.get(number) else {
            return Ok(());
        };
        let Some(item) = change.item::<C>(&topic.query) else {
            return Ok(());
        };
        topic.listeners.tell(revision + 1, item, told)
    }

    /// The numbers of the topics that a change may concern, rising and each once.
    ///
    /// # Errors
    /// `OutOfMemory`.
    fn concerned(&self, change: &Change<C::Key>) -> Result<Vec<u64>, Refusal>
        ensures all { IfOk result (λ numbers.
            AreConcerned C.rules self.now change.now numbers.items) }
        ensures rising { IfOk result (λ numbers. IsStrictlyIncreasing numbers.items) }
        ensures refused { IfErr result (λ why. why ≡ OutOfMemory) }
    {
        let mut numbers = self.gathered(change)?;
        numbers.sort_unstable();
        numbers.dedup();
        Ok(numbers)
    }

    /// The same numbers in the order in which they are found, perhaps with duplicates.
    ///
    /// # Errors
    /// `OutOfMemory`.
    fn gathered(&self, change: &Change<C::Key>) -> Result<Vec<u64>, Refusal>
        ensures all { IfOk result (λ numbers.
            AreConcerned C.rules self.now change.now numbers.items) }
        ensures refused { IfErr result (λ why. why ≡ OutOfMemory) }
    {
        let mut numbers = Vec::new(self.alloc);
        push_all(&self.always, &mut numbers)?;
        find_tags(&self.tree, change.ended, &mut numbers)?;
        find_tags(&self.tree, change.made, &mut numbers)?;
        Ok(numbers)
    }
}

/// Appends the members of a set to a list.
///
/// # Errors
/// `OutOfMemory`.
fn push_all(members: &BTreeSet<u64>, into: &mut Vec<u64>) -> Result<(), Refusal>
    ensures ok { OnOk result (into.new.items ≡ into.old.items ++ members.now.keys) }
    ensures refused { IfErr result (λ why. why ≡ OutOfMemory) }
{
    for member in members {
        into.push(*member)?;
    }
    Ok(())
}

/// A new tree with the queries of all topics, and the numbers of the topics that every commit tests.
///
/// # Errors
/// `OutOfMemory`.
fn planted<C: Reach>(
    alloc: Global,
    topics: &Slab<Topic<C::Atom>>,
) -> Result<(Store<C>, BTreeSet<u64>), Refusal>
    ensures { IfOk result (λ p. AreEnrolled C.reach_of C.rules.size_of p.0.commits p.1.keys
        topics.now.slots) }
{
    let mut tree = Store::new(alloc, TREE)?;
    let mut always = BTreeSet::new(alloc);
    for number in 0..topics.capacity() {
        if let Some(topic) = topics.get(number) {
            enrol(alloc, &mut tree, &mut always, &topic.query, number as u64)?;
        }
    }
    Ok((tree, always))
}
