//! Clients of a desk: what they see, and what they leave as it was.
use crate::calls::{delete, insert};
use crate::desks::{Scene, limits, play};
use change_list::{Item, Status};
use desk::{Desk, Seat, Taker};
use history::Naming;
use interval_class::{Interval, Intervals};
use key_class::Refusal;
use snapshot::Snapshot;
use std::alloc::Global;
use std::process::Abort;
use std::sync::Wait;
use std::sync::atomic::AtomicBool;
use std::sync::ledger::Ledger;
use std::test::*;
use test_support::{all, overlapping};
use world::Reply;

/// How many items fit into a ring.
const ROOM: u64 = 8;

/// Whether a cursor on three rows reads their page, sends them and has nothing left to do, in the number of turns
/// that this takes.
fn sends_all<L: Ledger + Naming, R: Wait>(
    rt: &R,
    desk: &Desk<Intervals, L>,
    taker: &Taker<'_, Intervals, L>,
) -> bool {
    let turns = desk.turns(rt, taker.cursor(), 100);
    turns.made == 4 && matches!(turns.last, Some(Reply::Refused(Refusal::Idle)))
}

/// How many rows, and how many other items, a client takes.
fn taken<L: Ledger + Naming>(taker: &mut Taker<'_, Intervals, L>) -> (u32, u32) {
    let mut rows: u32 = 0;
    let mut others: u32 = 0;
    for _ in 0..ROOM {
        match taker.take() {
            Some(Item::Row(_)) => rows = rows.wrapping_add(1),
            Some(_) => others = others.wrapping_add(1),
            None => {}
        }
    }
    (rows, others)
}

/// Whether a cursor that was asked for a mark sends it with its next turn.
fn sends_mark<L: Ledger + Naming, R: Wait>(
    rt: &R,
    desk: &Desk<Intervals, L>,
    taker: &mut Taker<'_, Intervals, L>,
) -> bool {
    matches!(desk.ask_mark(rt, taker.cursor()), Reply::Asked)
        && matches!(desk.turn(rt, taker.cursor()), Reply::Offered)
        && taken(taker) == (0, 1)
}

/// Whether closing a cursor closes it.
fn is_closed<L: Ledger + Naming, R: Wait>(
    rt: &R,
    desk: &Desk<Intervals, L>,
    seat: &mut Seat<Intervals, L>,
    taker: Taker<'_, Intervals, L>,
) -> bool {
    let cursor = taker.cursor();
    let _ended = taker.close(rt, seat, &[]);
    matches!(desk.turn(rt, cursor), Reply::Refused(Refusal::CursorClosed))
}

/// Two cursors. The client of the first turns it, asks it for a mark and closes it; then the client of the second
/// does the same.
fn one_after_the_other<L: Ledger + Naming, R: Wait + Abort>(
    rt: &R,
    desk: &Desk<Intervals, L>,
    seat: &mut Seat<Intervals, L>,
) -> Result<(), Refusal> {
    let mut first = desk.open_cursor(rt, seat, all(), ROOM)?;
    let mut second = desk.open_cursor(rt, seat, all(), ROOM)?;
    let is_served = sends_all(rt, desk, &first)
        && taken(&mut first) == (3, 0)
        && sends_mark(rt, desk, &mut first);
    let is_left_alone = second.take().is_none()
        && is_closed(rt, desk, seat, first)
        && sends_all(rt, desk, &second)
        && taken(&mut second) == (3, 0);
    let is_ended = sends_mark(rt, desk, &mut second) && matches!(second.give_up(rt), Reply::Closed);
    assert!(rt; is_served, "the first cursor isn't served");
    assert!(rt;
        is_left_alone,
        "the second cursor was turned, closed or asked for a mark"
    );
    assert!(rt; is_ended, "the second cursor has no end");
    Ok(())
}

#[derive(Drop)]
struct TwoCursors {}

impl Scene for TwoCursors {
    fn play<L: Ledger + Naming, R: Wait + Abort>(
        &self,
        rt: &R,
        _alloc: Global,
        desk: &Desk<Intervals, L>,
        seats: &mut [Seat<Intervals, L>],
    ) -> Result<(), Refusal> {
        for seat in seats {
            for point in 0..3 {
                let _number = insert(rt, desk, seat, Interval::new(point, point)?)?;
            }
            one_after_the_other(rt, desk, seat)?;
        }
        Ok(())
    }
}

#[test]
fn a_client_leaves_others_alone(rt: HostRuntime) -> Result<(), Fail> {
    assert!(rt; play(&rt, rt.alloc(), limits(16, 99), 1, &TwoCursors {})? == 3);
    Ok(())
}

const KEY: Interval = Interval { lo: 5, hi: 8 };

/// What a client's snapshot shows: how many commits, how many rows and the first row's status.
fn shown<L: Ledger + Naming, R: Wait>(
    rt: &R,
    desk: &Desk<Intervals, L>,
    seat: &mut Seat<Intervals, L>,
) -> Result<(u64, usize, Status), Refusal> {
    let snapshot = desk.snapshot(rt, seat)?;
    let rows = snapshot.find(&all())?;
    Ok((snapshot.commits(), rows.len(), snapshot.status(1)?))
}

/// How many rows of a snapshot overlap the low keys.
fn low_rows(snapshot: &Snapshot<Intervals>) -> Result<u64, Refusal> {
    snapshot.count(&overlapping(0, 10)?)
}

/// How many such rows there are once one is deleted, and another inserted elsewhere.
fn low_rows_after<L: Ledger + Naming, R: Wait>(
    rt: &R,
    desk: &Desk<Intervals, L>,
    seat: &mut Seat<Intervals, L>,
) -> Result<u64, Refusal> {
    let _deleted = delete(rt, desk, seat, 1)?;
    let _inserted = insert(rt, desk, seat, Interval::new(20, 20)?)?;
    let after = desk.snapshot(rt, seat)?;
    low_rows(&after)
}

/// How many such rows an earlier snapshot has after these commits, and how many a later one has.
fn before_and_after<L: Ledger + Naming, R: Wait>(
    rt: &R,
    desk: &Desk<Intervals, L>,
    seat: &mut Seat<Intervals, L>,
) -> Result<(u64, u64), Refusal> {
    let before = desk.snapshot(rt, seat)?;
    let after = low_rows_after(rt, desk, seat);
    Ok((low_rows(&before)?, after?))
}

/// What waiting threads get at a desk with two commits: past the first; past the first unless a flag is raised, which
/// isn't; and past commits that never come unless a flag is raised, which is.
fn waited<L: Ledger + Naming, R: Wait>(rt: &R, desk: &Desk<Intervals, L>) -> [u64; 3] {
    let (is_open, is_over) = (AtomicBool::new(false), AtomicBool::new(true));
    desk.wake(rt);
    [
        desk.wait_past(rt, 1),
        desk.wait_past_unless(rt, 1, &is_open),
        desk.wait_past_unless(rt, 9, &is_over),
    ]
}

/// How many commits two seats are told of, and whether the first is told no more than the second.
fn told<L: Ledger + Naming>(
    first: &Seat<Intervals, L>,
    second: &Seat<Intervals, L>,
) -> (u64, u64, bool) {
    (first.told(), second.told(), first.told_no_more_than(second))
}

/// What each of two seats sees after what both write, and what the second learns from the first.
fn sights<L: Ledger + Naming, R: Wait + Abort>(
    rt: &R,
    desk: &Desk<Intervals, L>,
    first: &mut Seat<Intervals, L>,
    second: &mut Seat<Intervals, L>,
) -> Result<(), Refusal> {
    let _number = insert(rt, desk, first, KEY)?;
    let unlearned = told(first, second);
    second.learn(first);
    let learned = told(first, second);
    assert!(rt; unlearned == (1, 0, false) && learned == (1, 1, true));
    let _number = insert(rt, desk, second, KEY)?;
    let early = shown(rt, desk, first)?;
    let waited = waited(rt, desk);
    let counts = before_and_after(rt, desk, second)?;
    let late = shown(rt, desk, first)?;
    assert!(rt; early == (2, 2, Status::Live) && late == (4, 2, Status::Dead));
    assert!(rt; waited == [2, 2, 2] && counts == (2, 1));
    Ok(())
}

#[derive(Drop)]
struct TwoSeats {}

impl Scene for TwoSeats {
    fn play<L: Ledger + Naming, R: Wait + Abort>(
        &self,
        rt: &R,
        _alloc: Global,
        desk: &Desk<Intervals, L>,
        seats: &mut [Seat<Intervals, L>],
    ) -> Result<(), Refusal> {
        match seats {
            [first, second] => sights(rt, desk, first, second),
            _ => Err(Refusal::BadConfig),
        }
    }
}

#[test]
fn a_client_sees_what_it_wrote(rt: HostRuntime) -> Result<(), Fail> {
    assert!(rt; play(&rt, rt.alloc(), limits(99, 99), 2, &TwoSeats {})? == 4);
    Ok(())
}
