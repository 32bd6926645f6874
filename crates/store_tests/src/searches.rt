//! Searches of a store and of its snapshot: in order, in any order, into a slice, the first rows, and counts.
use crate::events::{Step, new_world};
use change_list::{Config, Row};
use interval_class::{Atom, Interval, Intervals};
use key_class::{Pred, Refusal};
use search::{BoundedQuery, Counter};
use snapshot::Snapshot;
use std::alloc::Global;
use std::test::Fail;
use store::Store;
use test_support::overlapping;

/// A tree of more than 1,024 pages, so that a search reads ahead.
const CONFIG: Config = Config {
    fan: 4,
    least: 2,
    pages: 9_999,
    commits: 4_000,
};

/// How many rows live whose points are 100 to 1,999: their numbers are 101 to 2,000, of which 633 are multiples of 3.
const MATCHING: usize = 1_267;

/// Inserts 3,000 rows at rising points, and deletes each third.
fn fill(store: &mut Store<Intervals>) -> Result<(), Refusal> {
    for at in 0..3_000u64 {
        let _row = store.insert(Interval::new(at as i64, at as i64)?, at)?;
    }
    for third in 1..1_001u64 {
        let _deleted = store.delete(third.wrapping_mul(3))?;
    }
    Ok(())
}

fn filled(alloc: Global) -> Result<Store<Intervals>, Refusal> {
    let mut store = Store::new(alloc, CONFIG)?;
    fill(&mut store)?;
    Ok(store)
}

/// Whether these are the rows that match, by rising number.
fn are_in_order(rows: &[Row<Interval>]) -> bool {
    let mut before = 100;
    for row in rows {
        if row.row <= before
            || row.row > 2_000
            || row.row % 3 == 0
            || row.tag.wrapping_add(1) != row.row
        {
            return false;
        }
        before = row.row;
    }
    rows.len() == MATCHING
}

/// Whether these are the rows that match, in any order.
fn are_in_any_order(mut rows: Vec<Row<Interval>>) -> bool {
    rows.sort_unstable_by_key(|row| row.row);
    are_in_order(&rows)
}

/// A slice of so many places with a row that no search finds.
fn places(alloc: Global, count: usize) -> Result<Vec<Row<Interval>>, Refusal> {
    let row = Row {
        row: 0,
        key: Interval::new(7, 7)?,
        tag: 0,
    };
    let mut places = Vec::with_capacity(alloc, count)?;
    for _place in 0..count {
        places.push(row)?;
    }
    Ok(places)
}

/// How many of these places have a row that was found.
fn written(places: &[Row<Interval>]) -> usize {
    let mut count = 0usize;
    for place in places {
        count = count.wrapping_add(usize::from(place.row > 0));
    }
    count
}

/// How many rows are written into so many places, and how many are told.
fn written_into(
    alloc: Global,
    snapshot: &Snapshot<Intervals>,
    query: &Pred<Atom>,
    count: usize,
) -> Result<(usize, u64), Refusal> {
    let mut rows = places(alloc, count)?;
    let found = snapshot.find_into(query, &mut rows)?;
    Ok((written(&rows), found))
}

/// How many rows a counter counts.
fn counted(snapshot: &Snapshot<Intervals>, query: &Pred<Atom>) -> Result<u64, Refusal> {
    let bounded = BoundedQuery::new(query)?;
    let mut counter = Counter { rows: 0 };
    let _never_stops = snapshot.search(&bounded, &mut counter);
    Ok(counter.total())
}

#[test]
fn a_snapshot_is_searched_in_every_way(rt: HostRuntime) -> Result<(), Fail> {
    let alloc = rt.alloc();
    let snapshot = filled(alloc)?.snapshot()?;
    let query = overlapping(100, 1_999)?;
    assert!(rt; are_in_order(&snapshot.find(&query)?));
    assert!(rt; are_in_any_order(snapshot.find_any(&query)?));
    assert!(rt; snapshot.count(&query)? == MATCHING as u64);
    assert!(rt; counted(&snapshot, &query)? == MATCHING as u64);
    for (count, wanted) in [
        (0, 0),
        (1, 1),
        (1_266, 1_266),
        (1_267, 1_267),
        (1_300, 1_267),
    ] {
        let told = written_into(alloc, &snapshot, &query, count)?;
        assert!(rt; told == (wanted, MATCHING as u64), "{count}");
    }
    for (limit, wanted) in [
        (0, 0),
        (1, 1),
        (1_266, 1_266),
        (1_267, 1_267),
        (9_999, 1_267),
    ] {
        assert!(rt; snapshot.first(&query, limit)?.len() == wanted, "{limit}");
    }
    Ok(())
}

#[test]
fn a_store_is_searched_in_every_way(rt: HostRuntime) -> Result<(), Fail> {
    let alloc = rt.alloc();
    let store = filled(alloc)?;
    let query = overlapping(100, 1_999)?;
    let mut rows = places(alloc, MATCHING)?;
    assert!(rt; store.find_into(&query, &mut rows)? == MATCHING as u64);
    assert!(rt; are_in_any_order(rows));
    assert!(rt; are_in_order(&store.find(&query)?));
    assert!(rt; are_in_any_order(store.find_any(&query)?));
    assert!(rt; store.count(&query)? == MATCHING as u64);
    assert!(rt; store.first(&query, 10)?.len() == 10);
    Ok(())
}

/// The query of all rows, in so many negations.
fn negated(alloc: Global, depth: u32) -> Result<Pred<Atom>, Refusal> {
    let mut query = overlapping(0, 9)?;
    for _level in 1..depth {
        query = Pred::Not(Box::new(alloc, query)?);
    }
    Ok(query)
}

#[test]
fn a_query_is_at_most_32_deep(rt: HostRuntime) -> Result<(), Fail> {
    let alloc = rt.alloc();
    let deep = negated(alloc, 32)?;
    let deeper = negated(alloc, 33)?;
    assert!(rt; BoundedQuery::new(&deep).is_ok());
    assert!(rt; BoundedQuery::new(&deeper).err() == Some(Refusal::BadConfig));
    Ok(())
}

/// Rows of a world in which page 1 was split, and the sibling isn't posted yet.
static OWED: [Step; 14] = [
    Step::Place(0, (0, 3), 0),
    Step::Place(0, (1, 1), 1),
    Step::Place(0, (2, 5), 2),
    Step::Place(0, (3, 3), 3),
    Step::Place(0, (20, 23), 4),
    Step::Place(0, (21, 21), 5),
    Step::Place(0, (22, 25), 6),
    Step::Place(0, (23, 23), 7),
    Step::Grow("llllrrrr"),
    Step::Place(1, (0, 0), 8),
    Step::Place(1, (1, 2), 9),
    Step::Place(1, (2, 2), 10),
    Step::Place(1, (3, 4), 11),
    Step::Split(1, "llrrllrr"),
];

fn owed(alloc: Global) -> Result<Snapshot<Intervals>, Refusal> {
    let mut world = new_world(
        alloc,
        Config {
            fan: 8,
            least: 2,
            pages: 64,
            commits: 400,
        },
    )?;
    for step in &OWED {
        let _reply = world.step(step.event(alloc)?);
    }
    world.snapshot()
}

#[test]
fn a_search_goes_on_to_an_owed_page(rt: HostRuntime) -> Result<(), Fail> {
    let snapshot = owed(rt.alloc())?;
    let query = overlapping(0, 99)?;
    assert!(rt; snapshot.count(&query)? == 12);
    assert!(rt; snapshot.find_any(&query)?.len() == 12);
    Ok(())
}
