//! Orders to pumps: what is counted of them, and that pumps work at once.
ghost use Rattle.std.specs.Prelude.{◌≡◌};

use crate::calls::insert;
use crate::desks::limits;
use change_list::{Item, Write};
use crossbeam_channel::{Receiver, unbounded};
use desk::{Desk, Seat, Taker};
use history::{BlankHistory, Naming};
use interval_class::{Interval, Intervals};
use key_class::Refusal;
use pumps::{Gate, Order, Pumped, Pumps};
use std::alloc::Global;
use std::marker::Brand;
use std::process::Abort;
use std::rt::Clock;
use std::sync::Wait;
use std::sync::atomic::{AtomicBool, AtomicU64, Ordering};
use std::sync::ledger::{Blank, Ledger};
use std::test::*;
use std::thread::Threads;
use std::time::Duration;
use std::{io, thread};
use test_support::all;

/// A runtime that counts pauses of a millisecond instead of making them.
#[derive(Drop)]
struct Hurried<'r, R> {
    rt: &'r R,
    pauses: AtomicU64,
}

impl<R: Wait> Wait for Hurried<'_, R> {}

impl<R: Threads> Threads for Hurried<'_, R> {}

impl<R: Clock> Clock for Hurried<'_, R> {
    fn monotonic(&self) -> io::Result<Duration> {
        self.rt.monotonic()
    }

    fn since_1970(&self) -> io::Result<Duration> {
        self.rt.since_1970()
    }

    fn sleep(&self, duration: Duration) {
        if duration == Duration::from_millis(1) {
            let _before = self.pauses.fetch_add(1, Ordering::SeqCst);
        }
    }
}

/// A gate that counts how often it is asked. It never opens for cursor 1, and for cursor 2 only at the 10,000th time.
#[derive(Drop)]
struct Counting {
    asks: AtomicU64,
    asks_of_second: AtomicU64,
}

impl Gate for Counting {
    fn may_turn(&self, cursor: u64) -> bool {
        let _before = self.asks.fetch_add(1, Ordering::SeqCst);
        match cursor {
            1 => false,
            2 => self.asks_of_second.fetch_add(1, Ordering::SeqCst) >= 9_999,
            _ => true,
        }
    }
}

/// More turns than a cursor can make: the fourth has three rows and a page to read, the seventh has no room for the last
/// row, the eighth is closed and there is no ninth.
static TOO_MANY: [Order; 6] = [
    Order::Turn(4, 9),
    Order::Turn(7, 9),
    Order::Turn(8, 3),
    Order::Turn(9, 3),
    Order::Turn(5, 0),
    Order::Stop,
];

/// The first cursor is never let go.
static HELD: [Order; 3] = [Order::Turn(1, 2), Order::Turn(3, 2), Order::Stop];

static STOPPED: [Order; 4] = [
    Order::Turn(3, 1),
    Order::Stop,
    Order::Turn(3, 1),
    Order::Turn(5, 1),
];

/// For three pumps, which end when no order and no sender is left.
static UNSTOPPED: [Order; 4] = [
    Order::Turn(5, 3),
    Order::Turn(1, 1),
    Order::Turn(6, 4),
    Order::Turn(1, 5),
];

/// An order for a cursor whose gate opens at the last question.
static LET_GO: [Order; 2] = [Order::Turn(2, 1), Order::Stop];

/// The results of orders: how many turns were made, orders skipped, questions asked of the gate, and pauses made; and how many
/// orders were left over.
type Done = (u64, u64, u64, u64, usize);

/// Orders that wait for pumps, from a sender that is gone.
fn sent<R: Wait>(rt: &R, alloc: Global, orders: &[Order]) -> Result<Receiver<Order>, Refusal> {
    let (to, from) = unbounded(alloc)?;
    for order in orders {
        if to.send(rt, *order).is_err() {
            return Err(Refusal::OutOfMemory);
        }
    }
    Ok(from)
}

/// Lets this many pumps carry out orders.
fn carried_out<L: Ledger + Naming + Send + Sync, R: Threads + Wait + Clock + Sync>(
    rt: &R,
    alloc: Global,
    desk: &Desk<Intervals, L>,
    pumps: usize,
    orders: &[Order],
) -> Result<Done, Refusal> {
    let hurried = Hurried {
        rt,
        pauses: AtomicU64::new(0),
    };
    let gate = Counting {
        asks: AtomicU64::new(0),
        asks_of_second: AtomicU64::new(0),
    };
    let pumps = Pumps::new(pumps, gate)?;
    let orders = sent(rt, alloc, orders)?;
    let pumped = pumps.run(&hurried, alloc, desk, &orders)?;
    let asks = pumps.gate().asks.load(Ordering::SeqCst);
    let pauses = hurried.pauses.load(Ordering::SeqCst);
    Ok((pumped.turns, pumped.skipped, asks, pauses, orders.len()))
}

/// Inserts three rows and opens eight cursors on them, and closes the last one.
fn prepare<L: Ledger + Naming, R: Wait>(
    rt: &R,
    desk: &Desk<Intervals, L>,
    seat: &mut Seat<Intervals, L>,
) -> Result<(), Refusal> {
    for low in 1..4 {
        let _number = insert(rt, desk, seat, Interval::new(low, low)?)?;
    }
    for room in [16, 16, 16, 16, 16, 16, 2] {
        let _taker = desk.open_cursor(rt, seat, all(), room)?;
    }
    let _reply = desk.open_cursor(rt, seat, all(), 16)?.give_up(rt);
    Ok(())
}

/// Carries out orders, one list after the other. An order is skipped after 10,000 questions, and counts once; then comes the
/// next. A turn that is refused ends its order, and isn't counted. There is a pause between two questions.
fn carry_out_all<L: Ledger + Naming + Send + Sync, R: Threads + Wait + Clock + Abort + Sync>(
    rt: &R,
    alloc: Global,
    desk: &Desk<Intervals, L>,
    seat: &mut Seat<Intervals, L>,
) -> Result<(), Refusal> {
    prepare(rt, desk, seat)?;
    let done = carried_out(rt, alloc, desk, 1, &TOO_MANY)?;
    assert!(rt; done == (7, 0, 11, 0, 0));
    let done = carried_out(rt, alloc, desk, 1, &HELD)?;
    assert!(rt; done == (2, 1, 10_002, 10_000, 0));
    let done = carried_out(rt, alloc, desk, 1, &STOPPED)?;
    assert!(rt; done == (1, 0, 1, 0, 2));
    let done = carried_out(rt, alloc, desk, 3, &UNSTOPPED)?;
    assert!(rt; done == (7, 2, 20_007, 20_000, 0));
    let done = carried_out(rt, alloc, desk, 1, &LET_GO)?;
    assert!(rt; done == (1, 0, 10_000, 9_999, 0));
    Ok(())
}

/// A gate that is shut for cursor 1 until it is let go.
#[derive(Drop)]
struct Held {
    is_open: AtomicBool,
}

impl Gate for Held {
    fn may_turn(&self, cursor: u64) -> bool {
        cursor != 1 || self.is_open.load(Ordering::SeqCst)
    }
}

/// A client that takes rows.
trait Taking: Drop {
    /// Takes an item, if there is one: the number of its row, or 0 for any other item.
    fn take_row(&mut self) -> Option<u64>;
}

impl<'d, L: Ledger + Naming> Taking for Taker<'d, Intervals, L> {
    fn take_row(&mut self) -> Option<u64> {
        match self.take()? {
            Item::Row(row) => Some(row.row),
            _ => Some(0),
        }
    }
}

fn await_row<T: Taking, R: Clock>(rt: &R, taker: &mut T) -> Option<u64> {
    for _ in 0..10_000 {
        if let Some(row) = taker.take_row() {
            return Some(row);
        }
        thread::sleep(rt, Duration::from_millis(1));
    }
    None
}

/// Takes a row from the second cursor, and then lets the first go.
fn take_both<T: Taking, R: Clock>(
    rt: &R,
    gate: &Held,
    mut first: T,
    mut second: T,
) -> (Option<u64>, Option<u64>) {
    let later = await_row(rt, &mut second);
    gate.is_open.store(true, Ordering::SeqCst);
    (await_row(rt, &mut first), later)
}

/// Lets a client take items in a thread of its own while pumps run.
fn pump_and_take<L, T, R>(
    rt: &R,
    alloc: Global,
    desk: &Desk<Intervals, L>,
    pumps: &Pumps<Held>,
    orders: &Receiver<Order>,
    first: T,
    second: T,
) -> ((Option<u64>, Option<u64>), Result<Pumped, Refusal>)
where
    L: Ledger + Naming + Send + Sync,
    T: Taking + Send,
    R: Threads + Wait + Clock + Sync,
{
    let gate = pumps.gate();
    thread::join(
        rt,
        || take_both(rt, gate, first, second),
        || pumps.run(rt, alloc, desk, orders),
    )
}

/// Two turns of each of two cursors, and then the end for each of two pumps.
static BOTH: [Order; 4] = [
    Order::Turn(1, 2),
    Order::Turn(2, 2),
    Order::Stop,
    Order::Stop,
];

/// Two pumps, of which one waits at the gate while the other serves what opens it. What both clients took, and what the
/// pumps did.
fn pump_two<L: Ledger + Naming + Send + Sync, R: Threads + Wait + Clock + Abort + Sync>(
    rt: &R,
    alloc: Global,
    desk: &Desk<Intervals, L>,
    first: Taker<'_, Intervals, L>,
    second: Taker<'_, Intervals, L>,
) -> Result<((Option<u64>, Option<u64>), Result<Pumped, Refusal>), Refusal> {
    let is_open = AtomicBool::new(false);
    let pumps = Pumps::new(2, Held { is_open })?;
    let from = sent(rt, alloc, &BOTH)?;
    Ok(pump_and_take(rt, alloc, desk, &pumps, &from, first, second))
}

/// A row, and two cursors with an item's room each.
fn pump_both<L: Ledger + Naming + Send + Sync, R: Threads + Wait + Clock + Abort + Sync>(
    rt: &R,
    alloc: Global,
    desk: &Desk<Intervals, L>,
    seat: &mut Seat<Intervals, L>,
) -> Result<(), Refusal> {
    let _number = insert(rt, desk, seat, Interval::new(5, 5)?)?;
    let first = desk.open_cursor(rt, seat, all(), 1)?;
    let second = desk.open_cursor(rt, seat, all(), 1)?;
    let (taken, pumped) = pump_two(rt, alloc, desk, first, second)?;
    let wanted = Pumped {
        turns: 4,
        skipped: 0,
    };
    assert!(rt; taken == (Some(1), Some(1)) && pumped == Ok(wanted));
    Ok(())
}

/// What is tested at a desk.
#[derive(Clone, Copy)]
enum Subject {
    Counts,
    TwoPumps,
}

fn one_seat<L: Ledger + Naming + Send + Sync, R: Threads + Wait + Clock + Abort + Sync>(
    rt: &R,
    alloc: Global,
    blank: Blank,
    history: BlankHistory<Write<Interval>>,
    subject: Subject,
) -> Result<(), Refusal>
    requires name { blank.name ≡ L.name }
    requires parts { blank.parts ≡ L.parts }
    requires history { history ≡ L.history }
    requires one { blank.parts ≡ 1 }
{
    let (desk, mut seats) = Desk::<Intervals, L>::new(alloc, blank, history, limits(64, 99), 1)?;
    match subject {
        Subject::Counts => carry_out_all(rt, alloc, &desk, &mut seats[0]),
        Subject::TwoPumps => pump_both(rt, alloc, &desk, &mut seats[0]),
    }
}

#[test]
fn orders_are_counted(rt: HostRuntime) -> Result<(), Fail> {
    let (blank, history) = (Blank::new(1), BlankHistory::new());
    one_seat::<Brand, _>(&rt, rt.alloc(), blank, history, Subject::Counts)?;
    Ok(())
}

#[test]
fn pumps_work_at_once(rt: HostRuntime) -> Result<(), Fail> {
    let (blank, history) = (Blank::new(1), BlankHistory::new());
    one_seat::<Brand, _>(&rt, rt.alloc(), blank, history, Subject::TwoPumps)?;
    Ok(())
}
