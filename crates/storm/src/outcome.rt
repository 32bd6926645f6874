//! A whole storm, from its start to the verdicts.
ghost use Rattle.std.specs.Prelude.{◌≡◌, ◌↔◌, ◌+◌, Err, IfErr, IfOk, IsTrue, OnOk, length};
ghost use Rattle.desk.specs.Weaving.{Woven};
ghost use Rattle.key_class.specs.Refusals.{IsEither};
ghost use Rattle.storm.specs.Outcomes.{AreStampsOf, IsTrueOutcome, IsWholeStorm, TellsLookers, TellsReaders, TellsSubscribers};
ghost use Rattle.storm.specs.Sizes.{IsStorm, feeds_of};

use crate::clients::{Looker, Publisher, Reader, asked, work_beside};
use crate::hearings::{Hearing, Host, hearing_judged, hearings_from};
use crate::judge::{Reading, Verdict, are_whole, judged};
use crate::limits::{MAX_HOSTS, StormSize};
use crate::looks::{Look, looker_judged};
use crate::publishing::{Stream, streams_to};
use change_list::{ChangeList, Config, Write};
use crossbeam_channel::{bounded, unbounded};
use desk::{Desk, Finished, Seat, Torn};
use history::{BlankHistory, Naming};
use interval_class::{Atom, Interval, Intervals};
use key_class::limits::{MAX_COMMITS, MAX_PAGES};
use key_class::{Pred, Refusal};
use pumps::{Gate, Pumps};
use std::alloc::{AllocError, Global};
use std::rt::Clock;
use std::sync::Wait;
use std::sync::ledger::{Blank, Ledger};
use std::thread::Threads;
use world::Stamped;

const CONFIG: Config = Config {
    fan: 8,
    least: 3,
    pages: MAX_PAGES,
    commits: MAX_COMMITS,
};

/// The most orders that wait for pumps.
const ORDERS: usize = 64;

/// A gate that is always open.
#[derive(Drop)]
struct Open;

impl Gate for Open {
    fn may_turn(&self, _cursor: u64) -> bool {
        true
    }
}

/// The outcome of a storm.
#[derive(Drop)]
pub struct Outcome {
    /// How many commits were made.
    pub commits: u64,
    /// What each reader took, in the order of their seats; `None` if its cursor couldn't be opened.
    pub readings: Vec<Option<Reading<Interval>>>,
    /// How each reader fared, in the same order.
    pub readers: Vec<Verdict>,
    /// What each looker found, in the order of their seats.
    pub looks: Vec<Vec<Look<Interval>>>,
    /// How each looker fared, in the same order.
    pub lookers: Vec<Verdict>,
    /// What each subscriber received, by their numbers.
    pub hearings: Vec<Hearing<Interval>>,
    /// How each subscriber fared, in the same order.
    pub subscribers: Vec<Verdict>,
    /// What each seat was answered.
    pub stamps: Vec<Vec<Stamped<Interval>>>,
    /// Whether the stamps of all seats are exactly the commits.
    pub is_woven: bool,
}

impl Outcome {
    /// Whether all rows of a storm were written and deleted, and each of its readers, lookers and subscribers is whole.
    pub fn is_whole(&self, limits: StormSize) -> bool
        requires { IsStorm limits }
        ensures { IsTrue result ↔ IsWholeStorm limits self.now }
    {
        self.is_woven
            && self.commits == limits.commits()
            && self.readers.len() == limits.readers as usize
            && self.lookers.len() == limits.lookers as usize
            && self.subscribers.len() == limits.subscribers as usize
            && are_whole(self.readers.as_slice())
            && are_whole(self.lookers.as_slice())
            && are_whole(self.subscribers.as_slice())
    }
}

/// Lets all clients and the pumps work, until the last client is done.
fn run_all<L, R>(
    rt: &R,
    alloc: Global,
    desk: &Desk<Intervals, L>,
    pumps: &Pumps<Open>,
    limits: StormSize,
    writers: &mut [Seat<Intervals, L>],
    readers: &mut [Reader<L>],
    lookers: &mut [Looker<L>],
    publishers: &mut [Publisher<L>],
    hosts: &mut [Host],
) -> Result<(), Refusal>
where
    L: Ledger + Naming + Send + Sync,
    R: Threads + Wait + Clock + Sync,
    requires { IsStorm limits }
    ensures refusals { IfErr result (λ why. why ≡ Refusal.OutOfMemory) }
{
    let Ok((orders, told)) = bounded(alloc, ORDERS) else {
        return Err(Refusal::OutOfMemory);
    };
    let pump = move || {
        let _pumped = pumps.run(rt, alloc, desk, &told);
    };
    work_beside(
        rt, alloc, desk, limits, writers, readers, lookers, publishers, hosts, orders, pump,
    );
    Ok(())
}

/// Makes readers of some seats.
fn readers_of<L: Ledger + Naming>(
    alloc: Global,
    seats: Vec<Seat<Intervals, L>>,
) -> Result<Vec<Reader<L>>, AllocError>
    ensures { IfOk result (λ readers. length readers.items ≡ length seats.items) }
{
    let mut readers = Vec::with_capacity(alloc, seats.len())?;
    for seat in seats {
        readers.push(Reader {
            seat,
            reading: None,
        })?;
    }
    Ok(readers)
}

/// Makes lookers of some seats.
fn lookers_of<L: Ledger + Naming>(
    alloc: Global,
    seats: Vec<Seat<Intervals, L>>,
) -> Result<Vec<Looker<L>>, AllocError>
    ensures { IfOk result (λ lookers. length lookers.items ≡ length seats.items) }
{
    let mut lookers = Vec::with_capacity(alloc, seats.len())?;
    for seat in seats {
        let looks = Vec::new(alloc);
        lookers.push(Looker { seat, looks })?;
    }
    Ok(lookers)
}

/// Makes publishers of some seats. The first has the streams.
fn publishers_of<L: Ledger + Naming>(
    alloc: Global,
    seats: Vec<Seat<Intervals, L>>,
    streams: Vec<Stream>,
) -> Result<Vec<Publisher<L>>, AllocError>
    ensures { IfOk result (λ publishers. length publishers.items ≡ length seats.items) }
{
    let mut streams = Some(streams);
    let mut publishers = Vec::with_capacity(alloc, seats.len())?;
    for seat in seats {
        publishers.push(Publisher {
            seat,
            streams: streams.take(),
        })?;
    }
    Ok(publishers)
}

/// The hosts of all subscribers, which are numbered from 1 and shared out evenly, and the streams to them. The channels have
/// no bound: what a host receives is kept anyway until the storm ends, and the publisher never waits for a host.
fn hosts_and_streams(
    alloc: Global,
    limits: StormSize,
) -> Result<(Vec<Host>, Vec<Stream>), AllocError> {
    let mut hosts = Vec::with_capacity(alloc, limits.hosts() as usize)?;
    let mut streams = Vec::with_capacity(alloc, limits.subscribers as usize)?;
    let mut first: u32 = 1;
    for place in 0..limits.hosts() {
        let one_more = u32::from(place < limits.subscribers % MAX_HOSTS);
        let count = limits.subscribers / MAX_HOSTS + one_more;
        let (sender, messages) = unbounded(alloc)?;
        let hearings = hearings_from(alloc, first, count)?;
        streams_to(alloc, &sender, hearings.as_slice(), &mut streams)?;
        hosts.push(Host {
            messages: Some(messages),
            hearings,
        })?;
        first = first.saturating_add(count);
    }
    Ok((hosts, streams))
}

/// How readers of a query fared, told by the commits.
fn verdicts_of(
    alloc: Global,
    commits: &ChangeList<Interval>,
    query: &Pred<Atom>,
    readings: &[Option<Reading<Interval>>],
) -> Result<Vec<Verdict>, Refusal>
    ensures told { IfOk result (TellsReaders query.now commits.now readings.now) }
    ensures refusals { IfErr result (λ why. why ≡ Refusal.OutOfMemory) }
{
    let mut verdicts = Vec::new(alloc);
    for reading in readings {
        let verdict = match reading {
            None => Verdict::Missing,
            Some(reading) => judged::<Intervals>(alloc, commits.as_view(), query, reading)?,
        };
        if verdicts.push(verdict).is_err() {
            return Err(Refusal::OutOfMemory);
        }
    }
    Ok(verdicts)
}

/// How lookers with a query fared, by the commits.
fn sights_of(
    alloc: Global,
    commits: &ChangeList<Interval>,
    query: &Pred<Atom>,
    lookers: &[Vec<Look<Interval>>],
) -> Result<Vec<Verdict>, Refusal>
    ensures told { IfOk result (TellsLookers query.now commits.now lookers.now) }
    ensures refusals { IfErr result (λ why. why ≡ Refusal.OutOfMemory) }
{
    let mut verdicts = Vec::new(alloc);
    for looks in lookers {
        let verdict = looker_judged::<Intervals>(
            alloc,
            commits.as_view(),
            query,
            looks.as_slice(),
        )?;
        if verdicts.push(verdict).is_err() {
            return Err(Refusal::OutOfMemory);
        }
    }
    Ok(verdicts)
}

/// How subscribers fared, by the commits.
fn hearings_judged(
    alloc: Global,
    commits: &ChangeList<Interval>,
    hearings: &[Hearing<Interval>],
) -> Result<Vec<Verdict>, Refusal>
    ensures told { IfOk result (TellsSubscribers commits.now hearings.now) }
    ensures refusals { IfErr result (λ why. why ≡ Refusal.OutOfMemory) }
{
    let mut verdicts = Vec::new(alloc);
    for hearing in hearings {
        let verdict = hearing_judged(alloc, commits.as_view(), hearing)?;
        if verdicts.push(verdict).is_err() {
            return Err(Refusal::OutOfMemory);
        }
    }
    Ok(verdicts)
}

/// What seats were answered.
fn stamps_of<L: Ledger + Naming>(
    alloc: Global,
    seats: Vec<Seat<Intervals, L>>,
) -> Result<Vec<Vec<Stamped<Interval>>>, AllocError>
    ensures stamps { IfOk result (λ stamps. AreStampsOf seats.items stamps.items) }
    ensures count { IfOk result (λ stamps. length stamps.items ≡ length seats.items) }
{
    let mut stamps = Vec::with_capacity(alloc, seats.len())?;
    for seat in seats {
        stamps.push(seat.into_stamps())?;
    }
    Ok(stamps)
}

/// What the readers of a storm took, what its lookers found, and what its subscribers received.
#[derive(Drop)]
struct Findings {
    readings: Vec<Option<Reading<Interval>>>,
    looks: Vec<Vec<Look<Interval>>>,
    hearings: Vec<Hearing<Interval>>,
}

/// What came of a storm of these commits, by which readers, lookers and subscribers are judged.
fn outcome_by<L: Ledger + Naming>(
    alloc: Global,
    commits: ChangeList<Interval>,
    seats: Vec<Seat<Intervals, L>>,
    is_woven: bool,
    findings: Findings,
) -> Result<Outcome, Refusal>
    requires { IsTrue is_woven ↔ Woven commits seats.items }
    ensures told { IfOk result IsTrueOutcome }
    ensures seats { IfOk result (λ o. length o.stamps.items ≡ length seats.items) }
    ensures refusals { IfErr result (λ why. why ≡ Refusal.OutOfMemory) }
{
    let Findings {
        readings,
        looks,
        hearings,
    } = findings;
    let query = asked();
    let readers = verdicts_of(alloc, &commits, &query, readings.as_slice())?;
    let lookers = sights_of(alloc, &commits, &query, looks.as_slice())?;
    let subscribers = hearings_judged(alloc, &commits, hearings.as_slice())?;
    let Ok(stamps) = stamps_of(alloc, seats) else {
        return Err(Refusal::OutOfMemory);
    };
    Ok(Outcome {
        commits: commits.len() as u64,
        readings,
        readers,
        looks,
        lookers,
        hearings,
        subscribers,
        stamps,
        is_woven,
    })
}

/// The outcome, if every seat came back.
fn outcome_of<L: Ledger + Naming, R: Wait>(
    rt: &R,
    alloc: Global,
    desk: Desk<Intervals, L>,
    seats: Vec<Seat<Intervals, L>>,
    findings: Findings,
) -> Result<Outcome, Refusal>
    requires { length seats.items ≡ desk }
    ensures told { IfOk result IsTrueOutcome }
    ensures seats { IfOk result (λ o. length o.stamps.items ≡ desk) }
    ensures refusals { IfErr result (λ why. why ≡ Refusal.OutOfMemory) }
{
    match desk.finish(rt, seats) {
        Finished::Closing(closing) => {
            let (commits, seats) = closing.into_parts();
            return outcome_by(alloc, commits, seats, true, findings);
        }
        Finished::Torn(torn) => {
            let Torn { commits, seats } = torn;
            return outcome_by(alloc, commits, seats, false, findings);
        }
        Finished::SeatsOut(_, _) => unreachable!(),
    }
}

/// Writers, readers, lookers, a publisher, hosts of subscribers, pumps and a sweeper at one desk of intervals, each in a thread of
/// its own. Each writer inserts rows with small keys and deletes the first of them. Each reader follows a cursor up to a mark of
/// all commits. Each looker takes snapshots, finds in each what readers ask for, and takes the changes after the one before, up
/// to a snapshot of all commits. The publisher owns a feed, advances it over snapshots up to one of all commits, and sends each
/// change to the host of its subscriber. Then the desk is finished, and what each reader took, each looker found and each
/// subscriber received is compared with the commits.
///
/// # Errors
/// `BadConfig` if a number is out of range, or `OutOfMemory`.
pub fn run_storm<L, R>(
    rt: &R,
    alloc: Global,
    blank: Blank,
    history: BlankHistory<Write<Interval>>,
    limits: StormSize,
) -> Result<Outcome, Refusal>
where
    L: Ledger + Naming + Send + Sync,
    R: Threads + Wait + Clock + Sync,
    requires name { blank.name ≡ L.name }
    requires parts { blank.parts ≡ L.parts }
    requires history { history ≡ L.history }
    requires one_each { blank.parts ≡ limits.writers + limits.readers + limits.lookers
        + feeds_of limits }
    ensures told { IfOk result IsTrueOutcome }
    ensures seats { IfOk result
        (λ o. length o.stamps.items
        ≡ limits.writers + limits.readers + limits.lookers + feeds_of limits) }
    ensures within { OnOk result (IsStorm limits) }
    ensures bad { (result ≡ Err Refusal.BadConfig) ↔ (¬ IsStorm limits) }
    ensures refusals { IfErr result (IsEither Refusal.BadConfig Refusal.OutOfMemory) }
{
    if !limits.is_within() {
        return Err(Refusal::BadConfig);
    }
    storm_within::<L, R>(rt, alloc, blank, history, limits)
}

/// The same, of numbers that are all in range.
fn storm_within<L, R>(
    rt: &R,
    alloc: Global,
    blank: Blank,
    history: BlankHistory<Write<Interval>>,
    limits: StormSize,
) -> Result<Outcome, Refusal>
where
    L: Ledger + Naming + Send + Sync,
    R: Threads + Wait + Clock + Sync,
    requires name { blank.name ≡ L.name }
    requires parts { blank.parts ≡ L.parts }
    requires history { history ≡ L.history }
    requires one_each { blank.parts ≡ limits.writers + limits.readers + limits.lookers
        + feeds_of limits }
    requires within { IsStorm limits }
    ensures told { IfOk result IsTrueOutcome }
    ensures seats { IfOk result
        (λ o. length o.stamps.items
        ≡ limits.writers + limits.readers + limits.lookers + feeds_of limits) }
    ensures refusals { IfErr result (λ why. why ≡ Refusal.OutOfMemory) }
{
    let (desk, mut writers) = Desk::<Intervals, L>::new(
        alloc,
        blank,
        history,
        CONFIG,
        limits.seats(),
    )?;
    let Ok(mut rest) = writers.split_off(limits.writers as usize) else {
        return Err(Refusal::OutOfMemory);
    };
    let Ok(mut others) = rest.split_off(limits.readers as usize) else {
        return Err(Refusal::OutOfMemory);
    };
    let Ok(last) = others.split_off(limits.lookers as usize) else {
        return Err(Refusal::OutOfMemory);
    };
    let Ok(mut readers) = readers_of(alloc, rest) else {
        return Err(Refusal::OutOfMemory);
    };
    let Ok(mut lookers) = lookers_of(alloc, others) else {
        return Err(Refusal::OutOfMemory);
    };
    let Ok((mut hosts, streams)) = hosts_and_streams(alloc, limits) else {
        return Err(Refusal::OutOfMemory);
    };
    let Ok(mut publishers) = publishers_of(alloc, last, streams) else {
        return Err(Refusal::OutOfMemory);
    };
    let pumps = Pumps::new(limits.pumps as usize, Open)?;
    run_all(
        rt,
        alloc,
        &desk,
        &pumps,
        limits,
        writers.as_mut_slice(),
        readers.as_mut_slice(),
        lookers.as_mut_slice(),
        publishers.as_mut_slice(),
        hosts.as_mut_slice(),
    )?;
    let Ok(findings) = take_back(alloc, &mut writers, readers, lookers, publishers, hosts) else {
        return Err(Refusal::OutOfMemory);
    };
    outcome_of(rt, alloc, desk, writers, findings)
}

/// Puts the seats of readers, lookers and publishers behind those of writers, and gives what readers took, lookers found and
/// subscribers received.
fn take_back<L: Ledger + Naming>(
    alloc: Global,
    seats: &mut Vec<Seat<Intervals, L>>,
    readers: Vec<Reader<L>>,
    lookers: Vec<Looker<L>>,
    publishers: Vec<Publisher<L>>,
    hosts: Vec<Host>,
) -> Result<Findings, AllocError>
    ensures { OnOk result (length seats.new.items ≡ length seats.old.items
        + length readers.items + length lookers.items + length publishers.items) }
{
    let readings = take_readings(alloc, seats, readers)?;
    let looks = take_looks(alloc, seats, lookers)?;
    take_seats(seats, publishers)?;
    let hearings = hearings_of(alloc, hosts)?;
    Ok(Findings {
        readings,
        looks,
        hearings,
    })
}

/// Puts the seats of publishers back with the others.
fn take_seats<L: Ledger + Naming>(
    seats: &mut Vec<Seat<Intervals, L>>,
    publishers: Vec<Publisher<L>>,
) -> Result<(), AllocError>
    ensures { OnOk result
        (length seats.new.items ≡ length seats.old.items + length publishers.items) }
{
    for publisher in publishers {
        let Publisher { seat, .. } = publisher;
        seats.push(seat)?;
    }
    Ok(())
}

/// What the subscribers of all hosts received.
fn hearings_of(alloc: Global, hosts: Vec<Host>) -> Result<Vec<Hearing<Interval>>, AllocError> {
    let mut hearings = Vec::new(alloc);
    for host in hosts {
        let Host {
            hearings: mut received,
            ..
        } = host;
        hearings.append(&mut received)?;
    }
    Ok(hearings)
}

/// Puts the seats of readers back with the others, and gives what the readers read.
fn take_readings<L: Ledger + Naming>(
    alloc: Global,
    seats: &mut Vec<Seat<Intervals, L>>,
    readers: Vec<Reader<L>>,
) -> Result<Vec<Option<Reading<Interval>>>, AllocError>
    ensures { OnOk result
        (length seats.new.items ≡ length seats.old.items + length readers.items) }
{
    let mut readings = Vec::with_capacity(alloc, readers.len())?;
    for reader in readers {
        let Reader { seat, reading } = reader;
        seats.push(seat)?;
        readings.push(reading)?;
    }
    Ok(readings)
}

/// Puts the seats of lookers back with the others, and gives what the lookers found.
fn take_looks<L: Ledger + Naming>(
    alloc: Global,
    seats: &mut Vec<Seat<Intervals, L>>,
    lookers: Vec<Looker<L>>,
) -> Result<Vec<Vec<Look<Interval>>>, AllocError>
    ensures { OnOk result
        (length seats.new.items ≡ length seats.old.items + length lookers.items) }
{
    let mut found = Vec::with_capacity(alloc, lookers.len())?;
    for looker in lookers {
        let Looker { seat, looks } = looker;
        seats.push(seat)?;
        found.push(looks)?;
    }
    Ok(found)
}
