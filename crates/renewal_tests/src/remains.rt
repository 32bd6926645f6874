//! Stores that are dropped piece by piece.
use change_list::Config;
use interval_class::{Interval, Intervals};
use key_class::Refusal;
use snapshot::Snapshot;
use std::alloc::Global;
use std::test::Fail;
use store::{Remains, Store};
use test_support::all;

const CONFIG: Config = Config {
    fan: 64,
    least: 24,
    pages: 65_536,
    commits: 200_000,
};

/// How many rows a store has.
const ROWS: u64 = 100_000;

/// The pieces of the flags and of the hints, one of each for a row, in segments of 4,096.
const NUMBERS: u64 = 2 * (ROWS / 4_096 + 1);

/// A store of rows at places in any order.
fn filled(alloc: Global) -> Result<Store<Intervals>, Refusal> {
    let mut store = Store::new(alloc, CONFIG)?;
    for row in 0..ROWS {
        let at = (row.wrapping_mul(48_271) & 0xf_ffff) as i64;
        store.insert(Interval::new(at, at)?, row)?;
    }
    Ok(store)
}

/// How many chunks of 1,024 pages a store has.
fn chunks(store: &Store<Intervals>) -> u64 {
    store.stats().pages.div_ceil(1_024)
}

/// How many pieces are dropped.
fn shed_all(remains: &mut Remains<Interval>) -> u64 {
    let mut pieces: u64 = 0;
    for _ in 0..ROWS {
        if !remains.shed() {
            return pieces;
        }
        pieces = pieces.saturating_add(1);
    }
    pieces
}

/// How many pieces a store is dropped in, and how many chunks of pages it had.
fn pieces_of(store: Store<Intervals>) -> (u64, u64) {
    let chunks = chunks(&store);
    (shed_all(&mut store.into_remains()), chunks)
}

/// The same of a store that shares all with a snapshot.
fn pieces_beside_a_snapshot(
    store: Store<Intervals>,
) -> Result<(u64, u64, Snapshot<Intervals>), Refusal> {
    let snapshot = store.snapshot()?;
    let (pieces, chunks) = pieces_of(store);
    Ok((pieces, chunks, snapshot))
}

fn found(snapshot: &Snapshot<Intervals>) -> Result<u64, Refusal> {
    snapshot.count(&all())
}

#[test]
fn a_store_is_dropped_in_pieces(rt: HostRuntime) -> Result<(), Fail> {
    let (pieces, chunks) = pieces_of(filled(rt.alloc())?);
    // A chunk of pages is taken apart into 64 pieces, a group of 256 segments into as many.
    let segments = ROWS / 256;
    let wanted = chunks
        .saturating_mul(65)
        .saturating_add(segments + segments / 256 + NUMBERS);
    assert!(rt; pieces == wanted, "{pieces} pieces, and not {wanted}");
    Ok(())
}

#[test]
fn what_a_snapshot_shares_is_not_dropped(rt: HostRuntime) -> Result<(), Fail> {
    let (pieces, chunks, snapshot) = pieces_beside_a_snapshot(filled(rt.alloc())?)?;
    let wanted = chunks.saturating_add(NUMBERS);
    assert!(rt; pieces == wanted, "{pieces} pieces, and not {wanted}");
    assert!(rt; found(&snapshot)? == ROWS);
    Ok(())
}
