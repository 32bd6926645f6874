//! Threads that work at one desk at once: four write while two cursors are followed.
ghost use Rattle.std.specs.Prelude.{◌≡◌};

use crate::calls::{delete, insert, move_row};
use crate::desks::{commits_of, finished};
use change_list::{Config, Item, Write};
use desk::{Desk, Seat, Taker};
use history::{BlankHistory, Naming};
use interval_class::{Interval, Intervals};
use key_class::Refusal;
use std::alloc::Global;
use std::marker::Brand;
use std::process::Abort;
use std::sync::Wait;
use std::sync::ledger::{Blank, Ledger};
use std::test::*;
use std::thread;
use std::thread::Threads;
use storm::{Reading, Verdict, judged};
use test_support::all;

const CONFIG: Config = Config {
    fan: 8,
    least: 3,
    pages: 65_536,
    commits: 16_777_216,
};

/// The key of the nth row of a seat.
fn key(number: u32, nth: u32) -> Result<Interval, Refusal> {
    let low = i64::from(nth.wrapping_mul(37) % 499) + i64::from(number % 64);
    Interval::new(low, low + i64::from(nth % 7))
}

/// The row that the nth insert of a seat made.
fn row_of<L: Ledger + Naming>(seat: &Seat<Intervals, L>, nth: u32) -> u64 {
    match seat.stamps().get(nth as usize) {
        Some(stamp) => stamp.number(),
        None => 0,
    }
}

/// Inserts 250 rows, deletes the first 100 of them, and moves the next 50.
fn write_rows<L: Ledger + Naming, R: Wait>(
    rt: &R,
    desk: &Desk<Intervals, L>,
    seat: &mut Seat<Intervals, L>,
) -> Result<(), Refusal> {
    let number = seat.number();
    for nth in 0..250 {
        let _row = insert(rt, desk, seat, key(number, nth)?)?;
    }
    for nth in 0..100 {
        let row = row_of(seat, nth);
        let _deleted = delete(rt, desk, seat, row)?;
    }
    for nth in 100..150 {
        let row = row_of(seat, nth);
        let _moved = move_row(rt, desk, seat, row, key(number, nth + 11)?)?;
    }
    Ok(())
}

/// The work of a desk's clients: writers `W`, and readers with cursors `T` and what they took from them, `I`. The closures
/// that run in threads capture a `D: Clients + Sync`: that a desk is `Sync` is then proved once.
trait Clients<W, T, I> {
    /// Inserts, deletes and moves rows.
    fn write<R: Wait + Abort>(&self, rt: &R, seat: &mut W);

    /// Turns a cursor twenty thousand times, and takes what comes.
    fn follow<R: Wait>(&self, rt: &R, taker: &mut T, taken: &mut I);
}

impl<'d, L: Ledger + Naming> Clients<
    Seat<Intervals, L>,
    Taker<'d, Intervals, L>,
    Vec<Item<Interval>>,
> for Desk<Intervals, L> {
    fn write<R: Wait + Abort>(&self, rt: &R, seat: &mut Seat<Intervals, L>) {
        assert!(rt; write_rows(rt, self, seat).is_ok());
    }

    fn follow<R: Wait>(
        &self,
        rt: &R,
        taker: &mut Taker<'d, Intervals, L>,
        taken: &mut Vec<Item<Interval>>,
    ) {
        for _ in 0..20_000 {
            let _reply = self.turn(rt, taker.cursor());
            if let Some(item) = taker.take() {
                let _kept = taken.push(item);
            }
        }
    }
}

/// Lets writers write while two readers follow, each in a thread of its own.
fn at_once<D, W, T, I, R>(
    rt: &R,
    desk: &D,
    seats: &mut [W],
    first: (&mut T, &mut I),
    second: (&mut T, &mut I),
)
where
    D: Clients<W, T, I> + Sync,
    W: Send,
    T: Send,
    I: Send,
    R: Threads + Wait + Abort + Sync,
{
    let (taker, taken) = first;
    let (other, others) = second;
    let follow = || {
        thread::join(
            rt,
            || desk.follow(rt, taker, taken),
            || desk.follow(rt, other, others),
        );
    };
    thread::join(
        rt,
        || thread::for_each_mut(rt, seats, 4, &|_, seat| desk.write(rt, seat)),
        follow,
    );
}

/// What a reader took, up to a mark, and what closing its cursor gives.
fn reading<'d, L: Ledger + Naming, R: Wait>(
    rt: &R,
    desk: &'d Desk<Intervals, L>,
    seat: &mut Seat<Intervals, L>,
    taker: Taker<'d, Intervals, L>,
    taken: Vec<Item<Interval>>,
) -> Reading<Interval> {
    let mut taker = taker;
    let mut taken = taken;
    let _asked = desk.ask_mark(rt, taker.cursor());
    desk.follow(rt, &mut taker, &mut taken);
    let opened = taker.opened();
    let ended = taker.close(rt, seat, taken.as_slice());
    Reading {
        opened,
        items: taken,
        ended,
    }
}

/// Whether a reader has a receipt, and took all that a snapshot shows.
fn is_whole<L: Ledger + Naming, R: Wait>(
    rt: &R,
    alloc: Global,
    desk: &Desk<Intervals, L>,
    seat: &mut Seat<Intervals, L>,
    reading: &Reading<Interval>,
) -> Result<bool, Refusal> {
    let snapshot = desk.snapshot(rt, seat)?;
    let verdict = judged::<Intervals>(alloc, snapshot.list(), &all(), reading)?;
    Ok(verdict == Verdict::Whole)
}

/// Lets four clients write while a fifth follows two cursors up to a mark.
fn follow_both<'d, L: Ledger + Naming + Send + Sync, R: Threads + Wait + Abort + Sync>(
    rt: &R,
    alloc: Global,
    desk: &'d Desk<Intervals, L>,
    writers: &mut [Seat<Intervals, L>],
    seat: &mut Seat<Intervals, L>,
    first: Taker<'d, Intervals, L>,
    second: Taker<'d, Intervals, L>,
) -> (Reading<Interval>, Reading<Interval>) {
    let (mut first, mut second) = (first, second);
    let (mut taken, mut others) = (Vec::new(alloc), Vec::new(alloc));
    at_once(
        rt,
        desk,
        writers,
        (&mut first, &mut taken),
        (&mut second, &mut others),
    );
    let first = reading(rt, desk, seat, first, taken);
    let second = reading(rt, desk, seat, second, others);
    (first, second)
}

/// One cursor has a ring of two; the other follows the beginning with a large ring.
fn write_and_follow<L: Ledger + Naming + Send + Sync, R: Threads + Wait + Abort + Sync>(
    rt: &R,
    alloc: Global,
    desk: &Desk<Intervals, L>,
    seats: &mut [Seat<Intervals, L>],
) -> Result<(), Refusal> {
    let Some((seat, writers)) = seats.split_first_mut() else {
        return Err(Refusal::BadConfig);
    };
    let narrow = desk.open_cursor(rt, seat, all(), 2)?;
    let wide = desk.open_from(rt, seat, all(), 4_096, 0)?;
    let readings = follow_both(rt, alloc, desk, writers, seat, narrow, wide);
    let is_first_whole = is_whole(rt, alloc, desk, seat, &readings.0)?;
    let is_second_whole = is_whole(rt, alloc, desk, seat, &readings.1)?;
    assert!(rt; is_first_whole && is_second_whole);
    Ok(())
}

fn five_seats<L: Ledger + Naming + Send + Sync, R: Threads + Wait + Abort + Sync>(
    rt: &R,
    alloc: Global,
    blank: Blank,
    history: BlankHistory<Write<Interval>>,
) -> Result<u64, Refusal>
    requires name { blank.name ≡ L.name }
    requires parts { blank.parts ≡ L.parts }
    requires history { history ≡ L.history }
    requires five { blank.parts ≡ 5 }
{
    let (desk, mut seats) = Desk::<Intervals, L>::new(alloc, blank, history, CONFIG, 5)?;
    let followed = write_and_follow(rt, alloc, &desk, seats.as_mut_slice());
    let closing = finished(rt, desk, seats);
    followed?;
    commits_of(alloc, closing)
}

/// All stamps of four writers are kept, and compared with the commits once the desk is finished.
#[test]
fn stamps_of_four_threads_are_the_commits(rt: HostRuntime) -> Result<(), Fail> {
    let commits = five_seats::<Brand, _>(&rt, rt.alloc(), Blank::new(5), BlankHistory::new())?;
    assert!(rt; commits == 1_600);
    Ok(())
}
