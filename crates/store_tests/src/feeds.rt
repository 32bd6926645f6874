//! Single calls of a feed.
use change_list::{Config, Item};
use feed::Feed;
use interval_class::{Atom, Interval, Intervals};
use key_class::{Pred, Refusal};
use snapshot::Snapshot;
use std::alloc::Global;
use std::test::Fail;
use store::Store;
use test_support::overlapping;

const CONFIG: Config = Config {
    fan: 4,
    least: 2,
    pages: 99,
    commits: 99,
};

/// A query of a depth.
fn deep(alloc: Global, depth: u32) -> Result<Pred<Atom>, Refusal> {
    let mut query = overlapping(1, 2)?;
    for _ in 1..depth {
        query = Pred::Not(Box::new(alloc, query)?);
    }
    Ok(query)
}

/// Puts rows at the points from 1 to `count` into a store.
fn put_points(store: &mut Store<Intervals>, count: u32) -> Result<(), Refusal> {
    for at in 0..count {
        let point = i64::from(at) + 1;
        let _row = store.insert(Interval::new(point, point)?, 7)?;
    }
    Ok(())
}

/// A snapshot of rows at the points from 1 to `count`.
fn points(alloc: Global, count: u32) -> Result<Snapshot<Intervals>, Refusal> {
    let mut store = Store::new(alloc, CONFIG)?;
    put_points(&mut store, count)?;
    store.snapshot()
}

/// A call of a feed, with a number as its answer.
#[derive(Clone, Copy)]
enum Call {
    /// Subscribes to what a query of a depth asks for.
    Deep(u32),
    /// Subscribes to what overlaps an interval, after a commit.
    Overlapping(i64, i64, u64),
    /// Answered by 0.
    Unsubscribe(u64),
    /// Goes over this many commits of a snapshot that has none.
    AdvanceInNone(u64),
    /// Goes over this many commits of a snapshot that has five.
    AdvanceInFive(u64),
}

/// A feed, two snapshots, and what it was given.
#[derive(Drop)]
struct Caller {
    alloc: Global,
    feed: Feed<Intervals>,
    none: Snapshot<Intervals>,
    five: Snapshot<Intervals>,
    told: Vec<(u64, Item<Interval>)>,
}

impl Caller {
    fn new(alloc: Global) -> Result<Caller, Refusal> {
        let feed = Feed::new(alloc)?;
        let none = points(alloc, 0)?;
        let five = points(alloc, 5)?;
        Ok(Caller {
            alloc,
            feed,
            none,
            five,
            told: Vec::new(alloc),
        })
    }

    fn answer(&mut self, call: Call) -> Result<u64, Refusal> {
        match call {
            Call::Deep(depth) => self.feed.subscribe(deep(self.alloc, depth)?, 0),
            Call::Overlapping(lo, hi, from) => self.feed.subscribe(overlapping(lo, hi)?, from),
            Call::Unsubscribe(serial) => {
                self.feed.unsubscribe(serial)?;
                Ok(0)
            }
            Call::AdvanceInNone(most) => self.feed.advance(&self.none, most, &mut self.told),
            Call::AdvanceInFive(most) => self.feed.advance(&self.five, most, &mut self.told),
        }
    }

    /// The place of the first call with another answer.
    fn first_wrong(&mut self, calls: &[(Call, Result<u64, Refusal>)]) -> Option<usize> {
        for (place, (call, answer)) in calls.iter().enumerate() {
            if self.answer(*call) != *answer {
                return Some(place);
            }
        }
        None
    }

    /// Whether it was given inserts of exactly these rows, under these serials.
    fn was_given(&self, wanted: &[(u64, u64)]) -> bool {
        if self.told.len() != wanted.len() {
            return false;
        }
        for (place, (serial, item)) in self.told.iter().enumerate() {
            let Item::Inserted(row) = item else {
                return false;
            };
            if wanted.get(place) != Some(&(*serial, row.row)) {
                return false;
            }
        }
        true
    }

    fn is_answered(
        &mut self,
        calls: &[(Call, Result<u64, Refusal>)],
        wanted: &[(u64, u64)],
    ) -> bool {
        self.first_wrong(calls).is_none() && self.was_given(wanted)
    }
}

/// Whether the calls have these answers, and deliver inserts of these rows under these serials.
fn is_answered(
    alloc: Global,
    calls: &[(Call, Result<u64, Refusal>)],
    wanted: &[(u64, u64)],
) -> Result<bool, Refusal> {
    let mut caller = Caller::new(alloc)?;
    Ok(caller.is_answered(calls, wanted))
}

static REFUSED: [(Call, Result<u64, Refusal>); 9] = [
    (Call::Deep(33), Err(Refusal::BadConfig)),
    (Call::Deep(32), Ok(1)),
    (Call::Unsubscribe(2), Err(Refusal::NotSubscribed)),
    (Call::Unsubscribe(1), Ok(0)),
    (Call::Unsubscribe(1), Err(Refusal::NotSubscribed)),
    (Call::AdvanceInFive(4), Ok(4)),
    (Call::AdvanceInNone(4), Err(Refusal::FromFuture)),
    (Call::AdvanceInFive(0), Ok(4)),
    (Call::AdvanceInFive(9), Ok(5)),
];

#[test]
fn a_feed_refuses_what_it_cannot_do(rt: HostRuntime) -> Result<(), Fail> {
    assert!(rt; is_answered(rt.alloc(), &REFUSED, &[])?);
    Ok(())
}

/// Equal queries, after different commits, that end one by one.
static EQUAL: [(Call, Result<u64, Refusal>); 9] = [
    (Call::Overlapping(2, 4, 0), Ok(1)),
    (Call::Overlapping(2, 4, 2), Ok(2)),
    (Call::AdvanceInFive(3), Ok(3)),
    (Call::Overlapping(2, 4, 1), Ok(3)),
    (Call::Overlapping(0, 9, 4), Ok(4)),
    (Call::Unsubscribe(1), Ok(0)),
    (Call::AdvanceInFive(9), Ok(5)),
    (Call::Unsubscribe(2), Ok(0)),
    (Call::Unsubscribe(3), Ok(0)),
];

/// The expected inserts: serials, and rows.
static GIVEN: [(u64, u64); 8] = [
    (1, 2),
    (1, 3),
    (2, 3),
    (3, 2),
    (3, 3),
    (2, 4),
    (3, 4),
    (4, 5),
];

#[test]
fn equal_queries_end_one_by_one(rt: HostRuntime) -> Result<(), Fail> {
    assert!(rt; is_answered(rt.alloc(), &EQUAL, &GIVEN)?);
    Ok(())
}
