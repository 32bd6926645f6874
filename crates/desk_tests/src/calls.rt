//! Tables of calls at a desk, with their answers.
use crate::desks::{Scene, limits, play};
use change_list::{Config, Item};
use desk::{Desk, Ended, Seat, Taker};
use history::Naming;
use interval_class::{Interval, Intervals};
use key_class::Refusal;
use std::alloc::Global;
use std::process::Abort;
use std::sync::Wait;
use std::sync::ledger::Ledger;
use std::test::*;
use test_support::all;
use world::Reply;

/// A call of a seat, with a number as its answer.
#[derive(Clone, Copy)]
enum Call {
    /// A key of a single number. The answer is the number of the commit, as of the next two.
    Insert(i64),
    Delete(u64),
    Move(u64, i64),
    /// Of a page, answered by how many deleted rows were removed.
    Sweep(u64),
    /// Of each page.
    SweepAll,
    /// Of all rows, and a mark: how many items a cursor delivers, if closing it gives a receipt.
    Read,
    /// The same of a cursor that follows a commit.
    Follow(u64),
    /// The row that is inserted by the first item after a commit, if that is delivered after one turn and closing the
    /// cursor gives a receipt.
    FollowOnce(u64),
}

/// The place of a seat, its call, and the answer.
type Step = (usize, Call, Result<u64, Refusal>);

/// Calls, one after the other.
#[derive(Drop)]
struct Table {
    steps: &'static [Step],
}

pub fn insert<L: Ledger + Naming, R: Wait>(
    rt: &R,
    desk: &Desk<Intervals, L>,
    seat: &mut Seat<Intervals, L>,
    key: Interval,
) -> Result<u64, Refusal> {
    Ok(desk.insert(rt, seat, key, 0)?.number())
}

pub fn delete<L: Ledger + Naming, R: Wait>(
    rt: &R,
    desk: &Desk<Intervals, L>,
    seat: &mut Seat<Intervals, L>,
    row: u64,
) -> Result<u64, Refusal> {
    Ok(desk.delete(rt, seat, row)?.number())
}

pub fn move_row<L: Ledger + Naming, R: Wait>(
    rt: &R,
    desk: &Desk<Intervals, L>,
    seat: &mut Seat<Intervals, L>,
    row: u64,
    key: Interval,
) -> Result<u64, Refusal> {
    Ok(desk.move_row(rt, seat, row, key)?.number())
}

fn sweep<L: Ledger + Naming, R: Wait>(
    rt: &R,
    desk: &Desk<Intervals, L>,
    page: u64,
) -> Result<u64, Refusal> {
    match desk.sweep(rt, page) {
        Reply::Swept(count) => Ok(count),
        Reply::Refused(why) => Err(why),
        _ => Err(Refusal::NotHere),
    }
}

/// How many deleted rows sweeps of the first 64 pages remove. A sweep that runs out of memory is made again.
fn sweep_all<L: Ledger + Naming, R: Wait>(rt: &R, desk: &Desk<Intervals, L>) -> u64 {
    let mut swept: u64 = 0;
    for page in 0..64 {
        let count = match sweep(rt, desk, page) {
            Err(Refusal::OutOfMemory) => sweep(rt, desk, page),
            count => count,
        };
        swept = swept.saturating_add(count.unwrap_or(0));
    }
    swept
}

/// What a cursor delivers until it is idle, at most 64 items. A turn that runs out of memory is made again.
pub fn delivered<L: Ledger + Naming, R: Wait>(
    rt: &R,
    alloc: Global,
    desk: &Desk<Intervals, L>,
    taker: &mut Taker<'_, Intervals, L>,
) -> Result<Vec<Item<Interval>>, Refusal> {
    let mut items = Vec::with_capacity(alloc, 64)?;
    for _ in 0..1_000 {
        if let Reply::Refused(Refusal::Idle) = desk.turn(rt, taker.cursor()) {
            return Ok(items);
        }
        if let Some(item) = taker.take() {
            items.push(item)?;
        }
    }
    Err(Refusal::NotHere)
}

/// How many items there are, if closing the cursor with them gives a receipt that names its opening.
fn received<L: Ledger + Naming, R: Wait>(
    rt: &R,
    seat: &mut Seat<Intervals, L>,
    taker: Taker<'_, Intervals, L>,
    items: &[Item<Interval>],
) -> Result<u64, Refusal> {
    let (follows, opened) = (taker.follows(), taker.opened());
    match taker.close(rt, seat, items) {
        Ended::Receipt(receipt) if receipt.follows() == follows && receipt.opened() == opened => {
            Ok(items.len() as u64)
        }
        _ => Err(Refusal::OutOfMemory),
    }
}

/// How many items a cursor delivers, a mark among them.
fn read<L: Ledger + Naming, R: Wait>(
    rt: &R,
    alloc: Global,
    desk: &Desk<Intervals, L>,
    seat: &mut Seat<Intervals, L>,
    taker: Taker<'_, Intervals, L>,
) -> Result<u64, Refusal> {
    let mut taker = taker;
    let _asked = desk.ask_mark(rt, taker.cursor());
    match delivered(rt, alloc, desk, &mut taker) {
        Ok(items) => received(rt, seat, taker, items.as_slice()),
        Err(why) => {
            let _closed = taker.give_up(rt);
            Err(why)
        }
    }
}

/// The row that the first item inserts, after one turn.
fn follow_once<L: Ledger + Naming, R: Wait>(
    rt: &R,
    desk: &Desk<Intervals, L>,
    seat: &mut Seat<Intervals, L>,
    taker: Taker<'_, Intervals, L>,
) -> Result<u64, Refusal> {
    let mut taker = taker;
    let _reply = desk.turn(rt, taker.cursor());
    let Some(Item::Inserted(row)) = taker.take() else {
        return Err(Refusal::Idle);
    };
    let _count = received(rt, seat, taker, &[Item::Inserted(row)])?;
    Ok(row.row)
}

fn answer<L: Ledger + Naming, R: Wait>(
    rt: &R,
    alloc: Global,
    desk: &Desk<Intervals, L>,
    seat: &mut Seat<Intervals, L>,
    call: Call,
) -> Result<u64, Refusal> {
    match call {
        Call::Insert(at) => insert(rt, desk, seat, Interval::new(at, at)?),
        Call::Delete(row) => delete(rt, desk, seat, row),
        Call::Move(row, at) => move_row(rt, desk, seat, row, Interval::new(at, at)?),
        Call::Sweep(page) => sweep(rt, desk, page),
        Call::SweepAll => Ok(sweep_all(rt, desk)),
        Call::Read => {
            let taker = desk.open_cursor(rt, seat, all(), 2)?;
            read(rt, alloc, desk, seat, taker)
        }
        Call::Follow(commit) => {
            let taker = desk.open_from(rt, seat, all(), 2, commit)?;
            read(rt, alloc, desk, seat, taker)
        }
        Call::FollowOnce(commit) => {
            let taker = desk.open_from(rt, seat, all(), 16, commit)?;
            follow_once(rt, desk, seat, taker)
        }
    }
}

/// Whether a call is answered so. A refused call leaves its seat as it was; one that runs out of memory, which is counted,
/// is made again.
fn is_answered<L: Ledger + Naming, R: Wait>(
    rt: &R,
    alloc: Global,
    desk: &Desk<Intervals, L>,
    seat: &mut Seat<Intervals, L>,
    call: Call,
    wanted: Result<u64, Refusal>,
    wants: &mut u64,
) -> bool {
    let share = seat.share();
    let mut answered = answer(rt, alloc, desk, seat, call);
    let is_kept = seat.share() == share && seat.stamps().len() as u64 == share;
    if answered == Err(Refusal::OutOfMemory) && is_kept {
        *wants = wants.saturating_add(1);
        answered = answer(rt, alloc, desk, seat, call);
    }
    answered == wanted && (answered.is_ok() || is_kept)
}

/// The place of the first step with another answer.
fn first_wrong<L: Ledger + Naming, R: Wait>(
    rt: &R,
    alloc: Global,
    desk: &Desk<Intervals, L>,
    seats: &mut [Seat<Intervals, L>],
    steps: &[Step],
    wants: &mut u64,
) -> Option<usize> {
    for (place, (seat, call, wanted)) in steps.iter().enumerate() {
        let is_right = match seats.get_mut(*seat) {
            Some(seat) => is_answered(rt, alloc, desk, seat, *call, *wanted, wants),
            None => false,
        };
        if !is_right {
            return Some(place);
        }
    }
    None
}

impl Scene for Table {
    fn play<L: Ledger + Naming, R: Wait + Abort>(
        &self,
        rt: &R,
        alloc: Global,
        desk: &Desk<Intervals, L>,
        seats: &mut [Seat<Intervals, L>],
    ) -> Result<(), Refusal> {
        let mut wants: u64 = 0;
        let wrong = first_wrong(rt, alloc, desk, seats, self.steps, &mut wants);
        assert!(rt; wrong.is_none() && wants < 2, "{wrong:?}");
        Ok(())
    }
}

/// How many commits are made by these calls, all of which are answered so.
fn made<R: Wait + Abort>(
    rt: &R,
    alloc: Global,
    config: Config,
    seats: usize,
    steps: &'static [Step],
) -> Result<u64, Refusal> {
    play(rt, alloc, config, seats, &Table { steps })
}

/// Two seats at one row of a desk of three commits.
static ROW_DELETED: [Step; 9] = [
    (0, Call::Insert(1), Ok(1)),
    (1, Call::Insert(1), Ok(2)),
    (1, Call::Delete(9), Err(Refusal::NoSuchRow)),
    (1, Call::Delete(1), Ok(3)),
    (0, Call::Delete(1), Err(Refusal::AlreadyDeleted)),
    (0, Call::Delete(2), Err(Refusal::CommitsFull)),
    (1, Call::Insert(1), Err(Refusal::CommitsFull)),
    (0, Call::Sweep(0), Ok(1)),
    (0, Call::Read, Ok(2)),
];

#[test]
fn two_seats_delete_one_row(rt: HostRuntime) -> Result<(), Fail> {
    assert!(rt; made(&rt, rt.alloc(), limits(64, 3), 2, &ROW_DELETED)? == 3);
    Ok(())
}

static ROW_MOVED: [Step; 4] = [
    (0, Call::Insert(1), Ok(1)),
    (1, Call::Move(9, 3), Err(Refusal::NoSuchRow)),
    (1, Call::Move(1, 3), Ok(2)),
    (0, Call::Move(1, 3), Err(Refusal::AlreadyDeleted)),
];

#[test]
fn two_seats_move_one_row(rt: HostRuntime) -> Result<(), Fail> {
    assert!(rt; made(&rt, rt.alloc(), limits(64, 99), 2, &ROW_MOVED)? == 2);
    Ok(())
}

static COMMIT_FOLLOWED: [Step; 5] = [
    (0, Call::Insert(5), Ok(1)),
    (0, Call::FollowOnce(0), Ok(1)),
    (0, Call::FollowOnce(1), Err(Refusal::Idle)),
    (0, Call::FollowOnce(2), Err(Refusal::FromFuture)),
    (0, Call::Follow(0), Ok(2)),
];

#[test]
fn a_client_follows_a_commit(rt: HostRuntime) -> Result<(), Fail> {
    assert!(rt; made(&rt, rt.alloc(), limits(64, 99), 1, &COMMIT_FOLLOWED)? == 1);
    Ok(())
}

/// The root takes four rows. To grow it needs two pages, and only one is left.
static ONE_LEFT: [Step; 10] = [
    (0, Call::Insert(1), Ok(1)),
    (0, Call::Insert(2), Ok(2)),
    (0, Call::Insert(3), Ok(3)),
    (0, Call::Insert(4), Ok(4)),
    (0, Call::Insert(5), Err(Refusal::PagesFull)),
    (0, Call::Move(1, 5), Err(Refusal::PagesFull)),
    (0, Call::Delete(1), Ok(5)),
    (0, Call::Sweep(0), Ok(1)),
    (0, Call::Insert(5), Ok(6)),
    (0, Call::Read, Ok(5)),
];

/// Two leaves: the second has no room for a key that belongs there, the first has room for two others. A sweep of one
/// leaves the other as it was.
static NONE_LEFT: [Step; 17] = [
    (0, Call::Insert(1), Ok(1)),
    (0, Call::Insert(2), Ok(2)),
    (0, Call::Insert(3), Ok(3)),
    (0, Call::Insert(4), Ok(4)),
    (0, Call::Insert(5), Ok(5)),
    (0, Call::Insert(6), Ok(6)),
    (0, Call::Insert(7), Err(Refusal::PagesFull)),
    (0, Call::Move(1, 7), Err(Refusal::PagesFull)),
    (0, Call::Move(3, 2), Ok(7)),
    (0, Call::Delete(4), Ok(8)),
    (0, Call::Insert(1), Ok(9)),
    (0, Call::Insert(1), Err(Refusal::PagesFull)),
    (0, Call::Sweep(1), Ok(0)),
    (0, Call::Sweep(2), Ok(2)),
    (0, Call::Insert(7), Ok(10)),
    (0, Call::Move(1, 7), Ok(11)),
    (0, Call::Read, Ok(8)),
];

/// Five commits, and no page but the root: the limit that is reached first is reported.
static FULL_OF_COMMITS: [Step; 11] = [
    (0, Call::Insert(1), Ok(1)),
    (0, Call::Insert(2), Ok(2)),
    (0, Call::Insert(3), Ok(3)),
    (0, Call::Insert(4), Ok(4)),
    (0, Call::Insert(5), Err(Refusal::PagesFull)),
    (0, Call::Delete(1), Ok(5)),
    (0, Call::Insert(5), Err(Refusal::CommitsFull)),
    (0, Call::Move(2, 5), Err(Refusal::CommitsFull)),
    (0, Call::Move(1, 5), Err(Refusal::AlreadyDeleted)),
    (0, Call::Delete(2), Err(Refusal::CommitsFull)),
    (0, Call::Read, Ok(4)),
];

#[test]
fn a_desk_runs_out_of_pages(rt: HostRuntime) -> Result<(), Fail> {
    assert!(rt; made(&rt, rt.alloc(), limits(2, 99), 1, &ONE_LEFT)? == 6);
    assert!(rt; made(&rt, rt.alloc(), limits(3, 99), 1, &NONE_LEFT)? == 11);
    assert!(rt; made(&rt, rt.alloc(), limits(1, 5), 1, &FULL_OF_COMMITS)? == 5);
    Ok(())
}

/// Calls of each kind that allocates.
static ALLOCATING: [Step; 14] = [
    (0, Call::Insert(1), Ok(1)),
    (0, Call::Insert(2), Ok(2)),
    (0, Call::Insert(3), Ok(3)),
    (0, Call::Insert(4), Ok(4)),
    (0, Call::Insert(5), Ok(5)),
    (0, Call::Insert(6), Ok(6)),
    (0, Call::Insert(7), Ok(7)),
    (0, Call::Read, Ok(8)),
    (0, Call::Delete(2), Ok(8)),
    (0, Call::Move(3, 30), Ok(9)),
    (0, Call::Read, Ok(7)),
    (0, Call::Follow(5), Ok(5)),
    (0, Call::SweepAll, Ok(2)),
    (0, Call::Read, Ok(7)),
];

#[test]
fn refused_memory_leaves_a_desk_whole(rt: HostRuntime) -> Result<(), Fail> {
    assert!(rt; made(&rt, rt.alloc(), limits(64, 99), 1, &ALLOCATING)? == 9);
    Ok(())
}
