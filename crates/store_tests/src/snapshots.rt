//! Snapshots, their changes, and stores that are renewed from them.
use change_list::{Config, Item, Status};
use interval_class::{Interval, Intervals};
use key_class::Refusal;
use snapshot::Snapshot;
use std::alloc::Global;
use std::test::Fail;
use store::{Renewed, Store};
use test_support::overlapping;

/// As many commits as there are of both parts.
const CONFIG: Config = Config {
    fan: 4,
    least: 2,
    pages: 99,
    commits: 83,
};

/// Inserts forty rows at rising points, on many pages.
fn insert_all(store: &mut Store<Intervals>, first: i64) -> Result<(), Refusal> {
    for at in first..first.saturating_add(40) {
        let _row = store.insert(Interval::new(at, at)?, 7)?;
    }
    Ok(())
}

fn make_first_part(store: &mut Store<Intervals>) -> Result<(), Refusal> {
    insert_all(store, 1)?;
    let _deleted = store.delete(1)?;
    let _moved = store.move_row(2, Interval::new(50, 50)?)?;
    Ok(())
}

/// A store of 42 commits: row n is at point n, row 1 is deleted, and row 2 was moved to point 50.
fn first_part(alloc: Global) -> Result<Store<Intervals>, Refusal> {
    let mut store = Store::new(alloc, CONFIG)?;
    make_first_part(&mut store)?;
    Ok(store)
}

/// Commit 43 deletes row 3, and forty rows are inserted.
fn second_part(store: &mut Store<Intervals>) -> Result<(), Refusal> {
    let _deleted = store.delete(3)?;
    insert_all(store, 60)
}

fn snapshot_before_second_part(
    store: &mut Store<Intervals>,
) -> Result<Snapshot<Intervals>, Refusal> {
    let snapshot = store.snapshot()?;
    second_part(store)?;
    Ok(snapshot)
}

/// A snapshot of 42 commits, of a store that has gone on since.
fn kept(alloc: Global) -> Result<(Snapshot<Intervals>, Store<Intervals>), Refusal> {
    let mut store = first_part(alloc)?;
    let snapshot = snapshot_before_second_part(&mut store)?;
    Ok((snapshot, store))
}

/// Whether a number is that of a commit, whether it is that of a row, and the row's status.
fn facts(snapshot: &Snapshot<Intervals>, number: u64) -> Result<(bool, bool, Status), Refusal> {
    let is_commit = snapshot.commit(number).is_some();
    Ok((
        is_commit,
        snapshot.row(number).is_some(),
        snapshot.status(number)?,
    ))
}

static NUMBERS: [(u64, (bool, bool, Status)); 6] = [
    (0, (false, false, Status::NeverIssued)),
    (2, (true, true, Status::Dead)),
    (3, (true, true, Status::Live)),
    (41, (true, false, Status::NeverIssued)),
    (42, (true, true, Status::Live)),
    (43, (false, false, Status::NeverIssued)),
];

/// The first number for which a snapshot gives something else.
fn first_wrong(snapshot: &Snapshot<Intervals>) -> Result<Option<u64>, Refusal> {
    for (number, wanted) in &NUMBERS {
        if facts(snapshot, *number)? != *wanted {
            return Ok(Some(*number));
        }
    }
    Ok(None)
}

/// How many rows overlap an interval, by a find and by a count.
fn found(snapshot: &Snapshot<Intervals>, lo: i64, hi: i64) -> Result<(usize, u64), Refusal> {
    let query = overlapping(lo, hi)?;
    Ok((snapshot.find(&query)?.len(), snapshot.count(&query)?))
}

fn is_as_it_was(snapshot: &Snapshot<Intervals>) -> Result<bool, Refusal> {
    Ok(
        first_wrong(snapshot)?.is_none()
            && found(snapshot, 0, 99)? == (39, 39)
            && found(snapshot, 60, 99)? == (0, 0),
    )
}

#[test]
fn a_snapshot_stays_as_it_was(rt: HostRuntime) -> Result<(), Fail> {
    let (snapshot, _store) = kept(rt.alloc())?;
    assert!(rt; is_as_it_was(&snapshot)?);
    Ok(())
}

/// Appends the changes after a commit of what overlaps an interval.
fn change(
    snapshot: &Snapshot<Intervals>,
    items: &mut Vec<Item<Interval>>,
    from: u64,
    most: usize,
) -> Result<u64, Refusal> {
    snapshot.changes(&overlapping(3, 61)?, from, items, most)
}

/// The commits of two calls' changes, the first of which stops after two items, and how many items they give.
fn changes(alloc: Global, store: &Store<Intervals>) -> Result<(u64, u64, usize), Refusal> {
    let later = store.snapshot()?;
    let mut items = Vec::new(alloc);
    let upto = change(&later, &mut items, 42, 2)?;
    let end = change(&later, &mut items, upto, 9)?;
    Ok((upto, end, items.len()))
}

#[test]
fn changes_go_on_where_a_snapshot_ends(rt: HostRuntime) -> Result<(), Fail> {
    let (_, store) = kept(rt.alloc())?;
    assert!(rt; changes(rt.alloc(), &store)? == (44, 83, 3));
    Ok(())
}

/// The number that the new store's row had in the snapshot: there the first two rows are dead, and the second was
/// moved.
fn old_number(number: u64) -> u64 {
    if number == 39 {
        42
    } else {
        number.wrapping_add(2)
    }
}

/// Whether a renewed store has the rows of the snapshot in the order of their numbers, and gives these numbers.
fn has_the_rows(renewed: &Renewed<Intervals>, snapshot: &Snapshot<Intervals>) -> bool {
    let mut number: u64 = 0;
    for old in &renewed.old_numbers {
        number = number.wrapping_add(1);
        let new_key = renewed.store.row(number).map(|row| row.key);
        let old_key = snapshot.row(*old).map(|row| row.key);
        if *old != old_number(number) || new_key.is_none() || new_key != old_key {
            return false;
        }
    }
    number == 39 && renewed.store.commits() == 39
}

#[test]
fn a_store_is_renewed(rt: HostRuntime) -> Result<(), Fail> {
    let (snapshot, _store) = kept(rt.alloc())?;
    let renewed = Store::renewed(rt.alloc(), CONFIG, &snapshot)?;
    assert!(rt; has_the_rows(&renewed, &snapshot));
    Ok(())
}
