//! A feed of a desk's commits, whose clients receive their changes over channels (docs/THREADS.md).
use crate::calls::{delete, insert, move_row};
use crate::desks::{Scene, limits, play};
use change_list::{Item, Row};
use crossbeam_channel::{Receiver, Sender, bounded};
use desk::{Desk, Seat};
use feed::Feed;
use history::Naming;
use interval_class::{Atom, Interval, Intervals};
use key_class::{Pred, Refusal};
use std::alloc::Global;
use std::process::Abort;
use std::sync::Wait;
use std::sync::ledger::Ledger;
use std::test::*;
use storm::{Hearing, Verdict, subscriber_judged};
use test_support::{all, overlapping};

const LOW: Interval = Interval { lo: 5, hi: 8 };

const HIGH: Interval = Interval { lo: 105, hi: 108 };

/// A client of a feed: its query, its subscription, and the channel to which its changes are sent.
#[derive(Drop)]
struct Client {
    query: Pred<Atom>,
    serial: u64,
    /// It was sent all changes up to this commit.
    position: u64,
    channel: Sender<Vec<Item<Interval>>>,
}

impl Client {
    /// Subscribes to the changes of a query from the first commit on. The channel holds one message.
    fn subscribe(
        alloc: Global,
        feed: &mut Feed<Intervals>,
        query: Pred<Atom>,
    ) -> Result<(Client, Receiver<Vec<Item<Interval>>>), Refusal> {
        let (channel, receiver) = bounded(alloc, 1)?;
        let serial = feed.subscribe(query.copy(alloc)?, 0)?;
        let client = Client {
            query,
            serial,
            position: 0,
            channel,
        };
        Ok((client, receiver))
    }

    /// Sends the changes up to a commit. If the channel is full, the subscription ends and another begins after the
    /// last commit whose changes were sent, so that a later advance delivers these again.
    fn send<R: Wait>(
        &mut self,
        rt: &R,
        alloc: Global,
        feed: &mut Feed<Intervals>,
        changes: Vec<Item<Interval>>,
        upto: u64,
    ) -> Result<(), Refusal> {
        if self.channel.try_send(rt, changes).is_ok() {
            self.position = upto;
            return Ok(());
        }
        feed.unsubscribe(self.serial)?;
        self.serial = feed.subscribe(self.query.copy(alloc)?, self.position)?;
        Ok(())
    }
}

/// Advances the feed over a snapshot of the desk, and sends both clients their changes. Returns the number of commits.
fn advance<L: Ledger + Naming, R: Wait>(
    rt: &R,
    alloc: Global,
    desk: &Desk<Intervals, L>,
    seat: &mut Seat<Intervals, L>,
    feed: &mut Feed<Intervals>,
    clients: &mut [Client],
) -> Result<u64, Refusal> {
    let snapshot = desk.snapshot(rt, seat)?;
    let mut delivered = Vec::new(alloc);
    let upto = feed.advance(&snapshot, u64::MAX, &mut delivered)?;
    for client in clients {
        let mut changes = Vec::new(alloc);
        for (serial, item) in delivered.as_slice() {
            if *serial == client.serial {
                changes.push(*item)?;
            }
        }
        client.send(rt, alloc, feed, changes, upto)?;
    }
    Ok(upto)
}

/// Appends the next message of a channel to a list.
fn receive<R: Wait>(
    rt: &R,
    receiver: &Receiver<Vec<Item<Interval>>>,
    into: &mut Vec<Item<Interval>>,
) -> Result<(), Refusal> {
    if let Ok(mut changes) = receiver.recv(rt) {
        into.append(&mut changes)?;
    }
    Ok(())
}

/// Four commits: three rows at one place, and the second at another.
fn four_rows<L: Ledger + Naming, R: Wait>(
    rt: &R,
    desk: &Desk<Intervals, L>,
    writer: &mut Seat<Intervals, L>,
) -> Result<(), Refusal> {
    for key in [LOW, HIGH, LOW, LOW] {
        let _number = insert(rt, desk, writer, key)?;
    }
    Ok(())
}

/// Two more: the row at the other place comes to the first, and is deleted.
fn two_changes<L: Ledger + Naming, R: Wait>(
    rt: &R,
    desk: &Desk<Intervals, L>,
    writer: &mut Seat<Intervals, L>,
) -> Result<(), Refusal> {
    let _number = move_row(rt, desk, writer, 2, LOW)?;
    let _number = delete(rt, desk, writer, 5)?;
    Ok(())
}

/// One client receives each message as it comes. The other is slow: its channel is full when the feed has processed the
/// last two commits, and it receives their changes once it has made room.
fn one_is_slow<L: Ledger + Naming, R: Wait + Abort>(
    rt: &R,
    alloc: Global,
    desk: &Desk<Intervals, L>,
    writer: &mut Seat<Intervals, L>,
    seat: &mut Seat<Intervals, L>,
) -> Result<(), Refusal> {
    let mut feed = Feed::new(alloc)?;
    let (slow, from_slow) = Client::subscribe(alloc, &mut feed, all())?;
    let (prompt, from_prompt) = Client::subscribe(alloc, &mut feed, overlapping(100, 199)?)?;
    let mut clients = [slow, prompt];
    let (mut late, mut early) = (Vec::new(alloc), Vec::new(alloc));
    four_rows(rt, desk, writer)?;
    assert!(rt; advance(rt, alloc, desk, seat, &mut feed, &mut clients)? == 4);
    receive(rt, &from_prompt, &mut early)?;
    two_changes(rt, desk, writer)?;
    assert!(rt; advance(rt, alloc, desk, seat, &mut feed, &mut clients)? == 6);
    receive(rt, &from_prompt, &mut early)?;
    let row = Row {
        row: 2,
        key: HIGH,
        tag: 0,
    };
    assert!(rt; early.as_slice() == [Item::Inserted(row), Item::Deleted(5, 2)].as_slice());
    receive(rt, &from_slow, &mut late)?;
    assert!(rt; late.len() == 4 && clients[0].position == 4 && clients[0].serial == 3);
    assert!(rt; advance(rt, alloc, desk, seat, &mut feed, &mut clients)? == 6);
    receive(rt, &from_slow, &mut late)?;
    let hearing = Hearing {
        number: 1,
        items: late,
        end: Some(6),
    };
    let snapshot = desk.snapshot(rt, seat)?;
    let verdict = subscriber_judged::<Intervals>(alloc, snapshot.list(), &all(), &hearing)?;
    assert!(rt; verdict == Verdict::Whole);
    Ok(())
}

#[derive(Drop)]
struct SlowClient {}

impl Scene for SlowClient {
    fn play<L: Ledger + Naming, R: Wait + Abort>(
        &self,
        rt: &R,
        alloc: Global,
        desk: &Desk<Intervals, L>,
        seats: &mut [Seat<Intervals, L>],
    ) -> Result<(), Refusal> {
        match seats {
            [writer, seat] => one_is_slow(rt, alloc, desk, writer, seat),
            _ => Err(Refusal::BadConfig),
        }
    }
}

#[test]
fn a_slow_client_of_a_feed_misses_nothing(rt: HostRuntime) -> Result<(), Fail> {
    assert!(rt; play(&rt, rt.alloc(), limits(99, 99), 2, &SlowClient {})? == 6);
    Ok(())
}
