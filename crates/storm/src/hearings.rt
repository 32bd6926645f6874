//! What a subscriber receives, and whether it is what it should be.
ghost use Rattle.std.specs.Prelude.{◌≡◌, ◌↔◌, None, IfErr, IfOk, OnOk};
ghost use Rattle.key_class.specs.Queries.{query_of};
ghost use Rattle.storm.specs.Hearing.{AsksTen, Receives, TellsHearing, TellsWholeHearing};

use crate::judge::Verdict;
use crate::looks::are_changes;
use change_list::{Item, View};
use crossbeam_channel::Receiver;
use interval_class::{Atom, Interval, Intervals};
use key_class::{KeyClass, Pred, Refusal, Rel};
use std::alloc::{AllocError, Global};
use std::sync::Wait;

/// What comes next in a subscriber's stream.
#[derive(Drop)]
pub enum News {
    /// Further changes of its query.
    Changes(Vec<Item<Interval>>),
    /// The end: its subscription was closed after the feed had processed this many commits.
    End(u64),
}

/// A message to a host.
#[derive(Drop)]
pub struct Message {
    /// The subscriber's place in the list of the host.
    pub place: usize,
    pub news: News,
}

/// What a subscriber received.
#[derive(Drop)]
pub struct Hearing<K> {
    /// The subscriber's number, from 1.
    pub number: u32,
    /// The changes, in the order in which they came.
    pub items: Vec<Item<K>>,
    /// How many commits the feed had processed at the end of the stream. `None` if the subscriber had no stream or the
    /// stream was cut short.
    pub end: Option<u64>,
}

impl Hearing<Interval> {
    /// Adds what comes next in the stream.
    fn receive(&mut self, news: News) -> Result<(), AllocError>
        ensures { OnOk result (Receives news self.old self.new) }
    {
        match news {
            News::Changes(mut changes) => self.items.append(&mut changes)?,
            News::End(commits) => self.end = Some(commits),
        }
        Ok(())
    }
}

/// A thread that receives for some subscribers.
#[derive(Drop)]
pub struct Host {
    /// The channel on which it receives, until it has done so.
    pub messages: Option<Receiver<Message>>,
    /// What each of its subscribers received.
    pub hearings: Vec<Hearing<Interval>>,
}

impl Host {
    /// Receives until each sender of its channel is dropped. It ends early if memory runs out; from then on a send to it
    /// fails, and the streams of its subscribers have no end.
    pub(crate) fn receive_all<R: Wait>(&mut self, rt: &R) {
        let Some(messages) = self.messages.take() else {
            return;
        };
        'receiving: for _ in rt.forever() {
            let Ok(message) = messages.recv(rt) else {
                break 'receiving;
            };
            let Some(hearing) = self.hearings.get_mut(message.place) else {
                continue 'receiving;
            };
            if hearing.receive(message.news).is_err() {
                break 'receiving;
            }
        }
    }
}

/// So many subscribers, numbered from one of them on, which have received nothing.
pub(crate) fn hearings_from(
    alloc: Global,
    first: u32,
    count: u32,
) -> Result<Vec<Hearing<Interval>>, AllocError> {
    let mut hearings = Vec::with_capacity(alloc, count as usize)?;
    for place in 0..count {
        hearings.push(Hearing {
            number: first.saturating_add(place),
            items: Vec::new(alloc),
            end: None,
        })?;
    }
    Ok(hearings)
}

/// The query of the subscriber with a number.
pub(crate) fn asked_by(number: u32) -> Pred<Atom>
    ensures { AsksTen number (query_of result) }
{
    let low = i64::from(number % 600);
    match Interval::new(low, low + 9) {
        Ok(operand) => Pred::Atom(Atom {
            rel: Rel::Overlaps,
            operand,
        }),
        Err(_) => unreachable!(),
    }
}

/// Compares what a subscriber to a query received with the commits of the whole storm. It is whole if its stream ended
/// after all of them, and it received exactly their changes, in order. A stream without an end is `Missing`.
///
/// # Errors
/// `OutOfMemory`.
pub fn subscriber_judged<C: KeyClass>(
    alloc: Global,
    commits: &View<C::Key>,
    query: &Pred<C::Atom>,
    hearing: &Hearing<C::Key>,
) -> Result<Verdict, Refusal>
    ensures whole { IfOk result
        (TellsWholeHearing C.rules query.now commits.now hearing.now) }
    ensures no_end { IfOk result (λ v. (v ≡ Verdict.Missing) ↔ (hearing.now.end ≡ None)) }
    ensures refusals { IfErr result (λ why. why ≡ Refusal.OutOfMemory) }
{
    let Some(end) = hearing.end else {
        return Ok(Verdict::Missing);
    };
    let count = commits.len() as u64;
    if end != count {
        return Ok(Verdict::NotWhole);
    }
    if are_changes::<C>(alloc, commits, query, 0, count, hearing.items.as_slice())? {
        Ok(Verdict::Whole)
    } else {
        Ok(Verdict::NotWhole)
    }
}

/// The same for a subscriber to the query of its number.
///
/// # Errors
/// `OutOfMemory`.
pub(crate) fn hearing_judged(
    alloc: Global,
    commits: &View<Interval>,
    hearing: &Hearing<Interval>,
) -> Result<Verdict, Refusal>
    ensures told { IfOk result (TellsHearing commits.now hearing.now) }
    ensures refusals { IfErr result (λ why. why ≡ Refusal.OutOfMemory) }
{
    let query = asked_by(hearing.number);
    subscriber_judged::<Intervals>(alloc, commits, &query, hearing)
}
