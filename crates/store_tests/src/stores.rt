//! Whole calls of a store.
use change_list::{Config, Item, Row};
use interval_class::{Interval, Intervals};
use key_class::Refusal;
use mailbox::Tray;
use std::alloc::Global;
use std::test::Fail;
use store::{Standing, Stats, Store};
use test_support::overlapping;
use world::World;

const CONFIG: Config = Config {
    fan: 4,
    least: 2,
    pages: 2,
    commits: 20,
};

/// Why neither a store nor a world is made.
fn refusals(alloc: Global, config: Config) -> (Option<Refusal>, Option<Refusal>) {
    let store = Store::<Intervals>::new(alloc, config).err();
    (
        store,
        World::<Intervals, Tray<Interval>>::new(alloc, config).err(),
    )
}

#[test]
fn configurations_have_limits(rt: HostRuntime) {
    for (fan, least, pages, commits) in [
        (4, 3, 9, 9),
        (65, 3, 9, 9),
        (3, 1, 9, 9),
        (8, 3, 0, 9),
        (8, 3, 65_537, 9),
        (8, 3, 9, 0),
        (8, 3, 9, 16_777_217),
    ] {
        let config = Config {
            fan,
            least,
            pages,
            commits,
        };
        let refused = refusals(rt.alloc(), config);
        assert!(rt;
            refused == (Some(Refusal::BadConfig), Some(Refusal::BadConfig)),
            "{config:?}"
        );
    }
}

/// A call of a store, with a number as its answer: 0 if nothing else is said.
#[derive(Clone, Copy)]
enum Call {
    /// Inserts a row with a point as its key and its tag.
    Insert(u32),
    Delete(u64),
    /// Opens a cursor on what overlaps an interval, with a room.
    Open(i64, i64, u64),
    /// Opens one that follows a commit.
    Follow(u64),
    Sweep,
    AskMark(u64),
    Close(u64),
    /// Answered by the number of items that a cursor still delivers.
    Drain(u64),
    /// Answered by the number of rows that are found.
    Find,
    /// Answered by the cursor for which dead rows are kept, or 0.
    Keeper,
}

fn point(at: u32) -> Result<Interval, Refusal> {
    Interval::new(i64::from(at), i64::from(at))
}

/// How many items a cursor still delivers.
fn drained(alloc: Global, store: &mut Store<Intervals>, cursor: u64) -> Result<u64, Refusal> {
    let mut items = Vec::new(alloc);
    store.drain(cursor, &mut items)?;
    Ok(items.len() as u64)
}

fn found(store: &Store<Intervals>) -> Result<u64, Refusal> {
    Ok(store.find(&overlapping(0, 9)?)?.len() as u64)
}

fn answer(alloc: Global, store: &mut Store<Intervals>, call: Call) -> Result<u64, Refusal> {
    match call {
        Call::Insert(at) => return store.insert(point(at)?, u64::from(at)),
        Call::Delete(row) => return store.delete(row),
        Call::Open(lo, hi, room) => return store.open(overlapping(lo, hi)?, room),
        Call::Follow(commit) => return store.open_from(overlapping(0, 9)?, 1, commit),
        Call::Sweep => return store.sweep_all(),
        Call::Drain(cursor) => return drained(alloc, store, cursor),
        Call::Find => return found(store),
        Call::Keeper => return Ok(store.keeper().unwrap_or(0)),
        Call::AskMark(cursor) => store.ask_mark(cursor)?,
        Call::Close(cursor) => store.close(cursor)?,
    }
    Ok(0)
}

/// The place of the first call with another answer.
fn first_wrong(
    alloc: Global,
    store: &mut Store<Intervals>,
    calls: &[(Call, Result<u64, Refusal>)],
) -> Option<usize> {
    for (place, (call, wanted)) in calls.iter().enumerate() {
        if answer(alloc, store, *call) != *wanted {
            return Some(place);
        }
    }
    None
}

fn first_wrong_of_new(
    alloc: Global,
    config: Config,
    calls: &[(Call, Result<u64, Refusal>)],
) -> Result<Option<usize>, Refusal> {
    let mut store = Store::new(alloc, config)?;
    Ok(first_wrong(alloc, &mut store, calls))
}

/// Calls of a store of two pages, which can't grow.
static TWO_PAGES: [(Call, Result<u64, Refusal>); 8] = [
    (Call::Insert(5), Ok(1)),
    (Call::Insert(5), Ok(2)),
    (Call::Insert(5), Ok(3)),
    (Call::Insert(5), Ok(4)),
    (Call::Insert(5), Err(Refusal::PagesFull)),
    (Call::Find, Ok(4)),
    (Call::Delete(3), Ok(5)),
    (Call::Find, Ok(3)),
];

/// Calls of a store of one commit.
static ONE_COMMIT: [(Call, Result<u64, Refusal>); 4] = [
    (Call::Insert(5), Ok(1)),
    (Call::Insert(5), Err(Refusal::CommitsFull)),
    (Call::Delete(1), Err(Refusal::CommitsFull)),
    (Call::Delete(2), Err(Refusal::NoSuchRow)),
];

/// Calls of a store that has room for all.
static CALLS: [(Call, Result<u64, Refusal>); 15] = [
    (Call::Insert(5), Ok(1)),
    (Call::Open(0, 9, 0), Err(Refusal::BadConfig)),
    (Call::Open(0, 9, 4_097), Err(Refusal::BadConfig)),
    (Call::Open(0, 9, 4), Ok(1)),
    (Call::Insert(6), Ok(2)),
    (Call::Delete(1), Ok(3)),
    (Call::Keeper, Ok(1)),
    (Call::Sweep, Ok(0)),
    (Call::AskMark(1), Ok(0)),
    // A row, an insert, a delete and the mark.
    (Call::Drain(1), Ok(4)),
    (Call::Keeper, Ok(0)),
    (Call::Sweep, Ok(1)),
    (Call::Close(1), Ok(0)),
    (Call::Close(1), Err(Refusal::CursorClosed)),
    (Call::Drain(2), Err(Refusal::NoSuchCursor)),
];

#[test]
fn a_store_answers_calls(rt: HostRuntime) -> Result<(), Fail> {
    let wrong = first_wrong_of_new(rt.alloc(), CONFIG, &TWO_PAGES)?;
    assert!(rt; wrong.is_none(), "two pages {wrong:?}");
    let one = Config {
        commits: 1,
        ..CONFIG
    };
    let wrong = first_wrong_of_new(rt.alloc(), one, &ONE_COMMIT)?;
    assert!(rt; wrong.is_none(), "one commit {wrong:?}");
    let wrong = first_wrong_of_new(rt.alloc(), CONFIG, &CALLS)?;
    assert!(rt; wrong.is_none(), "{wrong:?}");
    Ok(())
}

/// A row at 5, and one at 6 that is inserted after cursor 1 was opened.
static ONE_INSERT: [(Call, Result<u64, Refusal>); 3] = [
    (Call::Insert(5), Ok(1)),
    (Call::Open(0, 9, 4), Ok(1)),
    (Call::Insert(6), Ok(2)),
];

fn row(at: u32, row: u64) -> Result<Row<Interval>, Refusal> {
    Ok(Row {
        row,
        key: point(at)?,
        tag: u64::from(at),
    })
}

/// The items that cursor 1 delivers.
fn items(alloc: Global, store: &mut Store<Intervals>) -> Result<Vec<Item<Interval>>, Refusal> {
    let mut items = Vec::new(alloc);
    store.drain(1, &mut items)?;
    Ok(items)
}

fn delivers_a_row_and_an_insert(
    alloc: Global,
    store: &mut Store<Intervals>,
) -> Result<bool, Refusal> {
    let wrong = first_wrong(alloc, store, &ONE_INSERT);
    let wanted = [Item::Row(row(5, 1)?), Item::Inserted(row(6, 2)?)];
    Ok(wrong.is_none() && items(alloc, store)?.as_slice() == wanted.as_slice())
}

fn new_store(alloc: Global) -> Result<Store<Intervals>, Refusal> {
    Store::new(alloc, CONFIG)
}

#[test]
fn a_drain_delivers_rows_and_changes(rt: HostRuntime) -> Result<(), Fail> {
    let mut store = new_store(rt.alloc())?;
    assert!(rt; delivers_a_row_and_an_insert(rt.alloc(), &mut store)?);
    Ok(())
}

/// Three rows, a cursor on them and one that follows commit 1; then a fourth row, and the first is deleted.
static CURSORS: [(Call, Result<u64, Refusal>); 7] = [
    (Call::Insert(1), Ok(1)),
    (Call::Insert(2), Ok(2)),
    (Call::Insert(3), Ok(3)),
    (Call::Open(0, 9, 1), Ok(1)),
    (Call::Follow(1), Ok(2)),
    (Call::Insert(4), Ok(4)),
    (Call::Delete(1), Ok(5)),
];

const STATS: Stats = Stats {
    commits: 5,
    commit_limit: 20,
    pages: 1,
    page_limit: 2,
    cursors: 2,
    horizon: 3,
};

const FOLLOWING: Option<Standing> = Some(Standing {
    serial: 2,
    opened: 1,
    lag: 4,
    is_scanning: false,
});

/// The figures of the store, and the state of its second cursor.
fn figures(alloc: Global, store: &mut Store<Intervals>) -> (Stats, Option<Standing>) {
    let _wrong = first_wrong(alloc, store, &CURSORS);
    (store.stats(), store.standing(1))
}

#[test]
fn a_store_has_figures(rt: HostRuntime) -> Result<(), Fail> {
    let mut store = new_store(rt.alloc())?;
    assert!(rt; figures(rt.alloc(), &mut store) == (STATS, FOLLOWING));
    Ok(())
}
