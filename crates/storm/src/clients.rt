//! What the clients of a storm do, each in a thread of its own.
ghost use Rattle.key_class.specs.Queries.{query_of};
ghost use Rattle.std.specs.Fork.{AcceptsEach};
ghost use Rattle.storm.specs.Outcomes.{AsksFirst500};
ghost use Rattle.storm.specs.Sizes.{IsStorm};

use crate::hearings::Host;
use crate::judge::Reading;
use crate::limits::StormSize;
use crate::looks::Look;
use crate::publishing::{Publication, Stream};
use change_list::Item;
use crossbeam_channel::Sender;
use desk::{Desk, Ended, Seat, Taker};
use history::Naming;
use interval_class::{Atom, Interval, Intervals};
use key_class::{Pred, Refusal, Rel};
use pumps::Order;
use rand_core::Rng;
use rand_pcg::Pcg32;
use std::alloc::Global;
use std::rt::Clock;
use std::sync::Wait;
use std::sync::atomic::{AtomicBool, AtomicU64, Ordering};
use std::sync::ledger::Ledger;
use std::thread;
use std::thread::Threads;
use std::time::Duration;

/// Stands for the number of commits while rows are still being written.
pub const WRITING: u64 = u64::MAX;

/// How many turns an order asks for. The order ends early when the cursor's mailbox is full.
const TURNS: u64 = 64;

/// The microseconds that a reader sleeps when it sees no item.
const PAUSE: u64 = 200;

/// After how many such sleeps in a row a reader gives up: a minute.
const PAUSES: u32 = 300_000;

/// A looker looks again when more commits have come than one of so many parts of all, and so does the publisher.
const PARTS: u64 = 16;

/// The query of all readers and lookers.
pub fn asked() -> Pred<Atom>
    ensures { AsksFirst500 (query_of result) }
{
    match Interval::new(0, 499) {
        Ok(operand) => Pred::Atom(Atom {
            rel: Rel::Overlaps,
            operand,
        }),
        Err(_) => unreachable!(),
    }
}

/// A small interval. Some of them overlap what readers ask for.
fn small_interval(generator: &mut Pcg32) -> Result<Interval, Refusal> {
    let low = i64::from(generator.next_u32() % 600);
    Interval::new(low, low + i64::from(generator.next_u32() % 8))
}

/// A reader: its seat, and what it read.
#[derive(Drop)]
pub struct Reader<L: Ledger + Naming> {
    pub seat: Seat<Intervals, L>,
    pub reading: Option<Reading<Interval>>,
}

/// A looker: its seat, and what it found.
#[derive(Drop)]
pub struct Looker<L: Ledger + Naming> {
    pub seat: Seat<Intervals, L>,
    pub looks: Vec<Look<Interval>>,
}

/// The client that owns the feed: its seat, and the streams of all subscribers until it publishes.
#[derive(Drop)]
pub struct Publisher<L: Ledger + Naming> {
    pub seat: Seat<Intervals, L>,
    pub streams: Option<Vec<Stream>>,
}

/// What readers, lookers and the publisher of a storm need to know.
#[derive(Drop)]
pub struct Told<'s> {
    pub limits: StormSize,
    pub orders: &'s Sender<Order>,
    /// The number of commits once all rows are written, `WRITING` before that.
    pub commits: &'s AtomicU64,
    /// Raised once all rows are written.
    pub is_over: &'s AtomicBool,
    /// A looker or the publisher looks again when more than so many commits have come, or the flag is raised.
    pub pace: u64,
}

/// Where clients of a storm work: writers `W`, readers `V`, lookers `X` and publishers `Y`.
pub trait Clients<W, V, X, Y> {
    /// Inserts rows and deletes the first of them, up to the first refusal.
    fn write<R: Wait>(&self, rt: &R, limits: StormSize, writer: &mut W);

    /// How many commits a writer made.
    fn share(&self, writer: &W) -> u64;

    /// Follows a cursor up to a mark at the last commit.
    fn read<R: Wait + Clock>(&self, rt: &R, alloc: Global, told: &Told<'_>, reader: &mut V);

    /// Takes and searches snapshots, one after the other, up to one that has all commits.
    fn look<R: Wait>(&self, rt: &R, alloc: Global, told: &Told<'_>, looker: &mut X);

    /// Advances a feed over snapshots, one after the other, and sends to subscribers the changes of all commits.
    fn publish<R: Wait>(&self, rt: &R, alloc: Global, told: &Told<'_>, publisher: &mut Y);

    /// Wakes lookers and publishers, to see that all rows were written.
    fn wake_all<R: Wait>(&self, rt: &R);

    /// Sweeps pages 0 to 63 in turn, and ignores refusals.
    fn sweep_pages<R: Wait>(&self, rt: &R, times: u32);
}

/// Whether the item is a mark at the last commit.
fn is_last(item: Item<Interval>, commits: u64) -> bool {
    match item {
        Item::Mark(number) => number == commits,
        _ => false,
    }
}

/// Takes items up to a mark at the last commit. It ends early if no item comes for a minute, or if memory runs out.
fn follow<L: Ledger + Naming, R: Wait + Clock>(
    rt: &R,
    desk: &Desk<Intervals, L>,
    taker: &mut Taker<'_, Intervals, L>,
    told: &Told<'_>,
    items: &mut Vec<Item<Interval>>,
) {
    let cursor = taker.cursor();
    let mut is_asked = false;
    let mut pauses: u32 = 0;
    'following: for _ in rt.forever() {
        if pauses == PAUSES {
            break 'following;
        }
        let commits = told.commits.load(Ordering::SeqCst);
        if !is_asked && commits != WRITING {
            let _reply = desk.ask_mark(rt, cursor);
            is_asked = true;
        }
        if let Some(item) = taker.take() {
            pauses = 0;
            if items.push(item).is_err() || is_last(item, commits) {
                break 'following;
            }
            continue 'following;
        }
        pauses = pauses.saturating_add(1);
        if let Err(refused) = told.orders.try_send(rt, Order::Turn(cursor, TURNS)) {
            if refused.is_disconnected() {
                let _reply = desk.turn(rt, cursor);
            }
        }
        thread::sleep(rt, Duration::from_micros(PAUSE));
    }
}

/// Searches a snapshot, and takes the changes since the look before, at `from` commits. Gives how many commits the
/// snapshot has, or `None` if memory ran out. The snapshot is dropped, so that writers needn't copy pages that it
/// shares.
fn look_behind<L: Ledger + Naming, R: Wait>(
    rt: &R,
    alloc: Global,
    desk: &Desk<Intervals, L>,
    looker: &mut Looker<L>,
    from: u64,
) -> Option<u64> {
    let query = asked();
    let snapshot = desk.snapshot(rt, &mut looker.seat).ok()?;
    let commits = snapshot.commits();
    let rows = snapshot.find(&query).ok()?;
    let mut changes = Vec::new(alloc);
    let _upto = snapshot
        .changes(&query, from, &mut changes, usize::MAX)
        .ok()?;
    let look = Look {
        commits,
        rows,
        changes,
    };
    looker.looks.push(look).ok()?;
    Some(commits)
}

impl<L: Ledger + Naming> Clients<Seat<Intervals, L>, Reader<L>, Looker<L>, Publisher<L>>
    for Desk<Intervals, L> {
    fn write<R: Wait>(&self, rt: &R, limits: StormSize, seat: &mut Seat<Intervals, L>) {
        let state = u64::from(limits.seed) + u64::from(seat.number());
        let mut generator = Pcg32::new(state, 0);
        for _ in 0..limits.inserts {
            let Ok(key) = small_interval(&mut generator) else {
                return;
            };
            if self.insert(rt, seat, key, 0).is_err() {
                return;
            }
        }
        for place in 0..limits.deletes as usize {
            let Some(row) = seat.stamps().get(place).map(|stamp| stamp.number()) else {
                return;
            };
            if self.delete(rt, seat, row).is_err() {
                return;
            }
        }
    }

    fn share(&self, seat: &Seat<Intervals, L>) -> u64 {
        seat.share()
    }

    fn read<R: Wait + Clock>(
        &self,
        rt: &R,
        alloc: Global,
        told: &Told<'_>,
        reader: &mut Reader<L>,
    ) {
        let room = u64::from(told.limits.room);
        let Ok(mut taker) = self.open_cursor(rt, &mut reader.seat, asked(), room) else {
            return;
        };
        let opened = taker.opened();
        let mut items = Vec::new(alloc);
        follow(rt, self, &mut taker, told, &mut items);
        let ended = taker.close(rt, &mut reader.seat, items.as_slice());
        reader.reading = Some(Reading {
            opened,
            items,
            ended,
        });
    }

    fn look<R: Wait>(&self, rt: &R, alloc: Global, told: &Told<'_>, looker: &mut Looker<L>) {
        let mut from = 0;
        for _ in rt.forever() {
            // read before the snapshot is made: if the flag is up by now, the snapshot has all commits
            let is_last = told.is_over.load(Ordering::SeqCst);
            let Some(commits) = look_behind(rt, alloc, self, looker, from) else {
                return;
            };
            if is_last {
                return;
            }
            from = commits;
            let _count = self.wait_past_unless(rt, from.saturating_add(told.pace), told.is_over);
        }
    }

    fn publish<R: Wait>(
        &self,
        rt: &R,
        alloc: Global,
        told: &Told<'_>,
        publisher: &mut Publisher<L>,
    ) {
        let Some(streams) = publisher.streams.take() else {
            return;
        };
        let Ok(mut publication) = Publication::open(alloc, streams) else {
            return;
        };
        for _ in rt.forever() {
            // read before the feed is advanced: if the flag is up by now, the feed processes all commits
            let is_last = told.is_over.load(Ordering::SeqCst);
            let Ok(commits) = publication.advance(rt, self, &mut publisher.seat) else {
                return;
            };
            publication.flush(rt);
            if is_last {
                publication.close(rt, commits);
                return;
            }
            let _count = self.wait_past_unless(rt, commits.saturating_add(told.pace), told.is_over);
        }
    }

    fn wake_all<R: Wait>(&self, rt: &R) {
        self.wake(rt);
    }

    fn sweep_pages<R: Wait>(&self, rt: &R, times: u32) {
        for time in 0..times {
            let _reply = self.sweep(rt, u64::from(time % 64));
        }
    }
}

/// Lets each client of a role do its work, each in a thread of its own.
fn run_role<T, R, F>(rt: &R, clients: &mut [T], work: &F)
where
    T: Send,
    R: Threads + Sync,
    F: Fn(usize, &mut T) + Sync,
    requires { AcceptsEach F.Fn work.now clients.old }
{
    let threads = clients.len().max(1);
    thread::for_each_mut(rt, clients, threads, work)
}

/// Lets all writers write while another thread sweeps, and then tells readers how many commits were made, and lookers and
/// publishers that no more come.
fn write_and_sweep<D, W, V, X, Y, R>(rt: &R, desk: &D, told: &Told<'_>, writers: &mut [W])
where
    D: Clients<W, V, X, Y> + Sync,
    W: Send,
    R: Threads + Wait + Sync,
{
    let limits = told.limits;
    let sweep = || desk.sweep_pages(rt, limits.sweeps);
    thread::join(
        rt,
        sweep,
        || run_role(rt, writers, &|_, writer| desk.write(rt, limits, writer)),
    );
    let mut commits: u64 = 0;
    for writer in writers {
        commits = commits.saturating_add(desk.share(writer));
    }
    told.commits.store(commits, Ordering::SeqCst);
    told.is_over.store(true, Ordering::SeqCst);
    desk.wake_all(rt);
}

/// Lets writers and readers work at once, until the last of them has ended.
fn write_and_read<D, W, V, X, Y, R>(
    rt: &R,
    alloc: Global,
    desk: &D,
    told: &Told<'_>,
    writers: &mut [W],
    readers: &mut [V],
)
where
    D: Clients<W, V, X, Y> + Sync,
    W: Send,
    V: Send,
    R: Threads + Wait + Clock + Sync,
{
    let read = || run_role(rt, readers, &|_, reader| desk.read(rt, alloc, told, reader));
    thread::join(
        rt,
        read,
        || write_and_sweep::<D, W, V, X, Y, R>(rt, desk, told, writers),
    );
}

/// Lets writers, readers and lookers work at once. If lookers get no thread of their own they run last, and find all rows
/// written.
fn write_read_and_look<D, W, V, X, Y, R>(
    rt: &R,
    alloc: Global,
    desk: &D,
    told: &Told<'_>,
    writers: &mut [W],
    readers: &mut [V],
    lookers: &mut [X],
)
where
    D: Clients<W, V, X, Y> + Sync,
    W: Send,
    V: Send,
    X: Send,
    R: Threads + Wait + Clock + Sync,
{
    let look = || run_role(rt, lookers, &|_, looker| desk.look(rt, alloc, told, looker));
    thread::join(
        rt,
        look,
        || write_and_read::<D, W, V, X, Y, R>(rt, alloc, desk, told, writers, readers),
    );
}

/// Lets all clients but hosts work at once. If publishers get no thread of their own they run last, and find all rows
/// written.
fn work_without_hosts<D, W, V, X, Y, R>(
    rt: &R,
    alloc: Global,
    desk: &D,
    told: &Told<'_>,
    writers: &mut [W],
    readers: &mut [V],
    lookers: &mut [X],
    publishers: &mut [Y],
)
where
    D: Clients<W, V, X, Y> + Sync,
    W: Send,
    V: Send,
    X: Send,
    Y: Send,
    R: Threads + Wait + Clock + Sync,
{
    let publish = || run_role(
        rt,
        publishers,
        &|_, publisher| desk.publish(rt, alloc, told, publisher),
    );
    thread::join(
        rt,
        publish,
        || write_read_and_look::<D, W, V, X, Y, R>(
            rt, alloc, desk, told, writers, readers, lookers,
        ),
    );
}

/// Lets all clients work at once, until the last of them has ended. If hosts get no thread of their own they run last, and
/// find all messages in their channels.
fn work_at_once<D, W, V, X, Y, R>(
    rt: &R,
    alloc: Global,
    desk: &D,
    told: &Told<'_>,
    writers: &mut [W],
    readers: &mut [V],
    lookers: &mut [X],
    publishers: &mut [Y],
    hosts: &mut [Host],
)
where
    D: Clients<W, V, X, Y> + Sync,
    W: Send,
    V: Send,
    X: Send,
    Y: Send,
    R: Threads + Wait + Clock + Sync,
{
    let receive = || run_role(rt, hosts, &|_, host| host.receive_all(rt));
    thread::join(
        rt,
        receive,
        || work_without_hosts::<D, W, V, X, Y, R>(
            rt, alloc, desk, told, writers, readers, lookers, publishers,
        ),
    );
}

/// Lets all clients work beside what pumps, whose orders end with the last client.
pub fn work_beside<D, W, V, X, Y, R, P>(
    rt: &R,
    alloc: Global,
    desk: &D,
    limits: StormSize,
    writers: &mut [W],
    readers: &mut [V],
    lookers: &mut [X],
    publishers: &mut [Y],
    hosts: &mut [Host],
    orders: Sender<Order>,
    pump: P,
)
where
    D: Clients<W, V, X, Y> + Sync,
    W: Send,
    V: Send,
    X: Send,
    Y: Send,
    R: Threads + Wait + Clock + Sync,
    P: FnOnce(),
    requires limits { IsStorm limits }
    requires pump { P.pre pump }
{
    let commits = AtomicU64::new(WRITING);
    let is_over = AtomicBool::new(false);
    let pace = limits.commits() / PARTS;
    let clients = move || {
        let told = Told {
            limits,
            orders: &orders,
            commits: &commits,
            is_over: &is_over,
            pace,
        };
        work_at_once(
            rt, alloc, desk, &told, writers, readers, lookers, publishers, hosts,
        );
    };
    thread::join(rt, clients, pump);
}
