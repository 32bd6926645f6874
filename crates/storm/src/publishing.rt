//! The feed of a storm: one thread owns it, and sends to each host the changes of its subscribers.
ghost use Rattle.std.specs.Prelude.{◌≡◌, [], IfErr, IfOk, OnOk, length};
ghost use mathlib.Core.List.{IsPrefix};
ghost use Rattle.key_class.specs.declared.refusal.Refusal.TheVariants as refusal;
ghost use Rattle.storm.specs.Streams.{Enqueues, EnqueuesOne, Publishes, SubscribesTo};

use crate::hearings::{Hearing, Message, News, asked_by};
use change_list::Item;
use crossbeam_channel::Sender;
use desk::{Desk, Seat};
use feed::Feed;
use history::Naming;
use interval_class::{Interval, Intervals};
use key_class::Refusal;
use snapshot::Snapshot;
use std::alloc::{AllocError, Global};
use std::collections::BTreeMap;
use std::mem;
use std::sync::Wait;
use std::sync::ledger::Ledger;

/// The publisher's end of a subscriber's stream.
#[derive(Drop)]
pub struct Stream {
    /// The subscriber's number, from 1.
    pub number: u32,
    /// The subscriber's place in the list of its host.
    pub place: usize,
    /// The channel of its host.
    pub host: Sender<Message>,
    /// Changes of its query that are not sent yet.
    pub due: Vec<Item<Interval>>,
}

impl Stream {
    /// Sends the changes that are due, if there are any. False if the host doesn't receive any more or memory ran out:
    /// these changes are lost then.
    fn flush<R: Wait>(&mut self, rt: &R, alloc: Global) -> bool
        ensures { self.new.due.items ≡ [] }
    {
        if self.due.is_empty() {
            return true;
        }
        let changes = mem::replace(&mut self.due, Vec::new(alloc));
        let message = Message {
            place: self.place,
            news: News::Changes(changes),
        };
        self.host.send(rt, message).is_ok()
    }
}

/// Appends the streams of a host's subscribers to a list.
pub(crate) fn streams_to(
    alloc: Global,
    host: &Sender<Message>,
    hearings: &[Hearing<Interval>],
    streams: &mut Vec<Stream>,
) -> Result<(), AllocError> {
    for place in 0..hearings.len() {
        streams.push(Stream {
            number: hearings[place].number,
            place,
            host: host.clone()?,
            due: Vec::new(alloc),
        })?;
    }
    Ok(())
}

/// A feed, and the stream of each of its subscriptions.
#[derive(Drop)]
pub(crate) struct Publication {
    alloc: Global,
    feed: Feed<Intervals>,
    /// The streams by the serials of their subscriptions.
    streams: BTreeMap<u64, Stream>,
    /// What the feed delivered last. It is kept so that its memory is used again.
    delivered: Vec<(u64, Item<Interval>)>,
}

/// Subscribes to the query of the subscriber with a number, from the first commit on, and returns the serial.
fn subscribe(feed: &mut Feed<Intervals>, number: u32) -> Result<u64, Refusal>
    ensures { IfOk result (SubscribesTo number feed.old feed.new) }
{
    feed.subscribe(asked_by(number), 0)
}

/// Appends an item to what is due on the stream with a serial. If there is none, the item is dropped.
fn enqueue(
    streams: &mut BTreeMap<u64, Stream>,
    serial: u64,
    item: Item<Interval>,
) -> Result<(), AllocError>
    ensures { OnOk result (EnqueuesOne serial item streams.old.entries streams.new.entries) }
{
    let Some(stream) = streams.get_mut(&serial) else {
        return Ok(());
    };
    stream.due.push(item)?;
    Ok(())
}

/// Appends each item to what is due on the stream with its serial.
fn enqueue_all(
    streams: &mut BTreeMap<u64, Stream>,
    delivered: &[(u64, Item<Interval>)],
) -> Result<(), AllocError>
    ensures { OnOk result (Enqueues delivered.now streams.old.entries streams.new.entries) }
{
    for (serial, item) in delivered {
        enqueue(streams, *serial, *item)?;
    }
    Ok(())
}

impl Publication {
    /// A new feed with a subscription for each stream.
    ///
    /// # Errors
    /// `FeedFull` or `OutOfMemory`.
    pub(crate) fn open(alloc: Global, streams: Vec<Stream>) -> Result<Publication, Refusal> {
        let mut feed = Feed::new(alloc)?;
        let mut open = BTreeMap::new(alloc);
        for stream in streams {
            let serial = subscribe(&mut feed, stream.number)?;
            open.insert(serial, stream)?;
        }
        Ok(Publication {
            alloc,
            feed,
            streams: open,
            delivered: Vec::new(alloc),
        })
    }

    /// Takes a snapshot of the desk, lets the feed process all its commits, and enqueues each change on the stream of
    /// its subscription. Returns the number of commits.
    ///
    /// # Errors
    /// `FromFuture` if the feed has processed commits of another desk, else `OutOfMemory`.
    pub(crate) fn advance<L: Ledger + Naming, R: Wait>(
        &mut self,
        rt: &R,
        desk: &Desk<Intervals, L>,
        seat: &mut Seat<Intervals, L>,
    ) -> Result<u64, Refusal>
        ensures seat { seat.new ≡ record seat.old { told = seat.new.told } }
        ensures seen { IsPrefix seat.old.told seat.new.told }
        ensures upto { IfOk result (λ upto. upto ≡ length seat.new.told) }
        ensures publishes { OnOk result (Publishes seat.new.told self.old self.new) }
    {
        let snapshot = desk.snapshot(rt, seat)?;
        self.process(&snapshot)
    }

    /// The same, with a snapshot already taken.
    ///
    /// # Errors
    /// `FromFuture` if the feed has processed more commits than the snapshot has, else `OutOfMemory`.
    fn process(&mut self, snapshot: &Snapshot<Intervals>) -> Result<u64, Refusal>
        ensures upto { IfOk result (λ upto. upto ≡ length snapshot.now) }
        ensures publishes { OnOk result (Publishes snapshot.now self.old self.new) }
    {
        self.delivered.clear();
        let commits = snapshot.commits();
        let upto = self.feed.advance(snapshot, commits, &mut self.delivered)?;
        enqueue_all(&mut self.streams, self.delivered.as_slice())?;
        Ok(upto)
    }

    /// Sends what is due on each stream. One that can't be sent is cut short: it has no end.
    pub(crate) fn flush<R: Wait>(&mut self, rt: &R) {
        let alloc = self.alloc;
        self.streams.retain(|_, stream| stream.flush(rt, alloc));
    }

    /// Closes each subscription, and then ends its stream: the feed has processed so many commits.
    pub(crate) fn close<R: Wait>(self, rt: &R, commits: u64) {
        let Publication {
            mut feed,
            streams,
            ..
        } = self;
        for (serial, stream) in streams {
            if feed.unsubscribe(serial).is_ok() {
                let end = Message {
                    place: stream.place,
                    news: News::End(commits),
                };
                let _sent = stream.host.send(rt, end);
            }
        }
    }
}
