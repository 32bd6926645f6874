//! A feed that goes on at other stores, whose commits are numbered otherwise, beside a plain list of subscriptions.
use change_list::{Config, Item};
use feed::{Feed, Numbering};
use interval_class::{Interval, Intervals};
use key_class::Refusal;
use rand_core::Rng;
use rand_pcg::Pcg32;
use snapshot::Snapshot;
use std::alloc::Global;
use std::test::Fail;
use store::Store;
use test_support::overlapping;

const CONFIG: Config = Config {
    fan: 4,
    least: 2,
    pages: 99,
    commits: 99,
};

/// Where each revision puts a row, from revision 1 on.
static POINTS: [i64; 12] = [4, 1, 7, 2, 9, 4, 0, 6, 3, 8, 1, 5];

/// How many calls a list has.
const CALLS: usize = 300;

/// A store that begins with rows at point 5, and its last revision.
#[derive(Clone, Copy)]
struct Generation {
    numbering: Numbering,
    last: u64,
}

/// Three stores. The second has a commit less before each revision than the first, the third has more than revisions.
static GENERATIONS: [Generation; 3] = [
    Generation {
        numbering: Numbering {
            oldest: 0,
            begun: 0,
        },
        last: 5,
    },
    Generation {
        numbering: Numbering {
            oldest: 3,
            begun: 2,
        },
        last: 8,
    },
    Generation {
        numbering: Numbering {
            oldest: 7,
            begun: 9,
        },
        last: 12,
    },
];

/// The point of a revision.
fn point_of(revision: u64) -> i64 {
    let place = revision.saturating_sub(1) as usize;
    POINTS.get(place).copied().unwrap_or(0)
}

fn put(store: &mut Store<Intervals>, point: i64) -> Result<(), Refusal> {
    let _row = store.insert(Interval::new(point, point)?, 7)?;
    Ok(())
}

fn fill(store: &mut Store<Intervals>, generation: Generation) -> Result<(), Refusal> {
    for _ in 0..generation.numbering.begun {
        put(store, 5)?;
    }
    for revision in generation.numbering.oldest..generation.last {
        put(store, point_of(revision.saturating_add(1)))?;
    }
    Ok(())
}

fn snapshot_of(alloc: Global, generation: Generation) -> Result<Snapshot<Intervals>, Refusal> {
    let mut store = Store::new(alloc, CONFIG)?;
    fill(&mut store, generation)?;
    store.snapshot()
}

/// Advances a feed, if the snapshot may be numbered so.
fn advance(
    feed: &mut Feed<Intervals>,
    snapshot: &Snapshot<Intervals>,
    numbering: Numbering,
    most: u64,
    into: &mut Vec<(u64, Item<Interval>)>,
) -> Result<u64, Refusal> {
    let commits = snapshot.commits();
    if commits < numbering.begun
        || numbering
            .oldest
            .checked_add(commits - numbering.begun)
            .is_none()
    {
        return Err(Refusal::BadConfig);
    }
    feed.advance_from(snapshot, numbering, most, into)
}

/// The revision of an insert.
fn revision_of(item: Item<Interval>, numbering: Numbering) -> u64 {
    let Item::Inserted(row) = item else {
        return 0;
    };
    row.row
        .saturating_sub(numbering.begun)
        .saturating_add(numbering.oldest)
}

/// The serials and revisions of inserts, rising.
fn told_revisions(
    alloc: Global,
    items: &[(u64, Item<Interval>)],
    numbering: Numbering,
) -> Result<Vec<(u64, u64)>, Refusal> {
    let mut told = Vec::new(alloc);
    for (serial, item) in items {
        told.push((*serial, revision_of(*item, numbering)))?;
    }
    told.sort_unstable();
    Ok(told)
}

/// A subscription to the points from `lo` to `hi`.
#[derive(Clone, Copy)]
struct Subscription {
    serial: u64,
    lo: i64,
    hi: i64,
    at: u64,
}

impl Subscription {
    /// Appends the revisions up to one that it was not given yet.
    fn give(&self, upto: u64, told: &mut Vec<(u64, u64)>) -> Result<(), Refusal> {
        for before in self.at..upto {
            let revision = before.saturating_add(1);
            let point = point_of(revision);
            if self.lo <= point && point <= self.hi {
                told.push((self.serial, revision))?;
            }
        }
        Ok(())
    }
}

/// A plain feed.
#[derive(Drop)]
struct PlainFeed {
    upto: u64,
    last: u64,
    subscriptions: Vec<Subscription>,
}

impl PlainFeed {
    fn subscribe(&mut self, lo: i64, hi: i64, from: u64) -> Result<u64, Refusal> {
        self.last = self.last.saturating_add(1);
        self.subscriptions.push(Subscription {
            serial: self.last,
            lo,
            hi,
            at: from,
        })?;
        Ok(self.last)
    }

    fn place_of(&self, serial: u64) -> Option<usize> {
        for (place, subscription) in self.subscriptions.iter().enumerate() {
            if subscription.serial == serial {
                return Some(place);
            }
        }
        None
    }

    fn unsubscribe(&mut self, serial: u64) -> Result<(), Refusal> {
        match self.place_of(serial) {
            Some(place) if place < self.subscriptions.len() => {
                self.subscriptions.remove(place);
                Ok(())
            }
            _ => Err(Refusal::NotSubscribed),
        }
    }

    fn compacted(&self, alloc: Global, oldest: u64) -> Result<Vec<u64>, Refusal> {
        let mut serials = Vec::new(alloc);
        for subscription in &self.subscriptions {
            if subscription.at < oldest {
                serials.push(subscription.serial)?;
            }
        }
        Ok(serials)
    }

    fn is_compacted(&self, oldest: u64) -> bool {
        for subscription in &self.subscriptions {
            if subscription.at < oldest {
                return true;
            }
        }
        false
    }

    fn advance(
        &mut self,
        generation: Generation,
        most: u64,
        told: &mut Vec<(u64, u64)>,
    ) -> Result<u64, Refusal> {
        if generation.last < self.upto {
            return Err(Refusal::FromFuture);
        }
        let oldest = generation.numbering.oldest;
        if self.is_compacted(oldest) {
            return Err(Refusal::Compacted);
        }
        let upto = generation
            .last
            .min(self.upto.max(oldest).saturating_add(most));
        for subscription in &mut self.subscriptions {
            subscription.give(upto, told)?;
            subscription.at = subscription.at.max(upto);
        }
        self.upto = upto;
        Ok(upto)
    }
}

/// A feed, a plain one, and the snapshots of three stores.
#[derive(Drop)]
struct Twins {
    alloc: Global,
    generator: Pcg32,
    feed: Feed<Intervals>,
    plain: PlainFeed,
    snapshots: Vec<Snapshot<Intervals>>,
    /// How many calls went on, and how many were refused because of compacted changes.
    advanced: u64,
    compacted: u64,
}

impl Twins {
    fn new(alloc: Global, seed: u64) -> Result<Twins, Refusal> {
        let mut snapshots = Vec::new(alloc);
        for generation in GENERATIONS.iter() {
            snapshots.push(snapshot_of(alloc, *generation)?)?;
        }
        Ok(Twins {
            alloc,
            generator: Pcg32::new(seed, 0),
            feed: Feed::new(alloc)?,
            plain: PlainFeed {
                upto: 0,
                last: 0,
                subscriptions: Vec::new(alloc),
            },
            snapshots,
            advanced: 0,
            compacted: 0,
        })
    }

    fn below(&mut self, bound: u64) -> u64 {
        u64::from(self.generator.next_u32())
            .checked_rem(bound)
            .unwrap_or(0)
    }

    /// Whether both feeds give a new subscription the same serial.
    fn subscribes_alike(&mut self) -> Result<bool, Refusal> {
        let lo = i64::from(self.generator.next_u32() % 10);
        let hi = lo.saturating_add(i64::from(self.generator.next_u32() % 4));
        let from = self.below(14);
        let serial = self.feed.subscribe(overlapping(lo, hi)?, from)?;
        Ok(serial == self.plain.subscribe(lo, hi, from)?)
    }

    /// Whether both end a subscription, or none.
    fn unsubscribes_alike(&mut self) -> bool {
        let serial = self.below(self.plain.last.saturating_add(2));
        self.feed.unsubscribe(serial) == self.plain.unsubscribe(serial)
    }

    /// Whether both go on alike at a store. Subscriptions that miss changes there are ended.
    fn advances_alike(&mut self, place: usize) -> Result<bool, Refusal> {
        let most = self.below(4);
        let Some(generation) = GENERATIONS.get(place).copied() else {
            return Ok(false);
        };
        let Some(snapshot) = self.snapshots.get(place) else {
            return Ok(false);
        };
        let numbering = generation.numbering;
        let mut items = Vec::new(self.alloc);
        let answer = advance(&mut self.feed, snapshot, numbering, most, &mut items);
        let mut wanted = Vec::new(self.alloc);
        if answer != self.plain.advance(generation, most, &mut wanted) {
            return Ok(false);
        }
        wanted.sort_unstable();
        let told = told_revisions(self.alloc, &items, numbering)?;
        if told.as_slice() != wanted.as_slice() {
            return Ok(false);
        }
        match answer {
            Ok(_) => self.advanced = self.advanced.saturating_add(1),
            Err(Refusal::Compacted) => return self.end_compacted(numbering.oldest),
            Err(_) => {}
        }
        Ok(true)
    }

    /// Ends the subscriptions that need changes from before a revision. Whether both feeds name the same.
    fn end_compacted(&mut self, oldest: u64) -> Result<bool, Refusal> {
        self.compacted = self.compacted.saturating_add(1);
        let serials = self.feed.compacted(oldest)?;
        let wanted = self.plain.compacted(self.alloc, oldest)?;
        for serial in &serials {
            self.feed.unsubscribe(*serial)?;
            self.plain.unsubscribe(*serial)?;
        }
        Ok(serials.as_slice() == wanted.as_slice())
    }

    fn is_alike(&mut self, call: usize) -> Result<bool, Refusal> {
        match self.below(8) {
            0..=2 => self.subscribes_alike(),
            3 => Ok(self.unsubscribes_alike()),
            _ => self.advances_alike(call / (CALLS / 3)),
        }
    }

    /// The place of the first call with other answers.
    fn first_wrong(&mut self) -> Result<Option<usize>, Refusal> {
        for call in 0..CALLS {
            if !self.is_alike(call)? {
                return Ok(Some(call));
            }
        }
        Ok(None)
    }

    fn outcome(&mut self) -> Result<(Option<usize>, u64, u64), Refusal> {
        let wrong = self.first_wrong()?;
        Ok((wrong, self.advanced, self.compacted))
    }
}

/// The place of the first wrong answer in a random list, and how many calls went on and were refused.
fn outcome(alloc: Global, seed: u64) -> Result<(Option<usize>, u64, u64), Refusal> {
    let mut twins = Twins::new(alloc, seed)?;
    twins.outcome()
}

#[test]
fn a_feed_goes_on_at_other_stores(rt: HostRuntime) -> Result<(), Fail> {
    for seed in 1..=8 {
        let (wrong, advanced, compacted) = outcome(rt.alloc(), seed)?;
        assert!(rt; wrong.is_none(), "{seed} {wrong:?}");
        assert!(rt;
            advanced > 20 && compacted > 2,
            "{seed} {advanced} {compacted}"
        );
    }
    Ok(())
}
