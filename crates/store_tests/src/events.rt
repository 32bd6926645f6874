//! Events and replies as plain values, and worlds of intervals.
use change_list::{Config, Item, Write};
use interval_class::{Atom, Interval, Intervals};
use key_class::{Pred, Refusal, Rel, Side, Sides};
use mailbox::Tray;
use std::alloc::Global;
use world::{Event, Reply, World};

pub type Trial = World<Intervals, Tray<Interval>>;

/// A new world. A function of its own, so that the checker doesn't follow its state (docs/CHECKING.md).
pub fn new_world(alloc: Global, config: Config) -> Result<Trial, Refusal> {
    Trial::new(alloc, config)
}

/// The two ends of an interval.
pub type Ends = (i64, i64);

/// A query, with the ends of its operand.
#[derive(Clone, Copy)]
pub enum Query {
    Overlaps(i64, i64),
    /// Not overlaps.
    Misses(i64, i64),
}

impl Query {
    fn pred(self, alloc: Global) -> Result<Pred<Atom>, Refusal> {
        match self {
            Query::Overlaps(lo, hi) => overlapping(lo, hi),
            Query::Misses(lo, hi) => Ok(Pred::Not(Box::new(alloc, overlapping(lo, hi)?)?)),
        }
    }
}

fn overlapping(lo: i64, hi: i64) -> Result<Pred<Atom>, Refusal> {
    let operand = Interval::new(lo, hi)?;
    Ok(Pred::Atom(Atom {
        rel: Rel::Overlaps,
        operand,
    }))
}

/// An event in plain values: a key by its ends, sides by their letters.
#[derive(Clone, Copy)]
pub enum Step {
    Enlarge(u64, u64, Ends),
    Place(u64, Ends, u64),
    Split(u64, &'static str),
    Post(u64, u64),
    Grow(&'static str),
    Find(u64),
    Seek(u64),
    Move(u64, u64, Ends),
    Unfind(u64),
    Sweep(u64),
    Open(Query, u64),
    Follow(Query, u64, u64),
    Turn(u64),
    AskMark(u64),
    Take(u64),
    Close(u64),
}

impl Step {
    pub fn event(self, alloc: Global) -> Result<Event<Interval, Atom>, Refusal> {
        match self {
            Step::Enlarge(parent, child, (lo, hi)) => {
                Ok(Event::Enlarge(parent, child, Interval::new(lo, hi)?))
            }
            Step::Place(page, (lo, hi), tag) => Ok(Event::Place(page, Interval::new(lo, hi)?, tag)),
            Step::Split(page, letters) => Ok(Event::Split(page, sides(alloc, letters)?)),
            Step::Post(parent, child) => Ok(Event::Post(parent, child)),
            Step::Grow(letters) => Ok(Event::Grow(sides(alloc, letters)?)),
            Step::Find(row) => Ok(Event::Find(row)),
            Step::Seek(finder) => Ok(Event::Seek(finder)),
            Step::Move(finder, leaf, (lo, hi)) => {
                Ok(Event::Move(finder, leaf, Interval::new(lo, hi)?))
            }
            Step::Unfind(finder) => Ok(Event::Unfind(finder)),
            Step::Sweep(page) => Ok(Event::Sweep(page)),
            Step::Open(query, room) => Ok(Event::Open(query.pred(alloc)?, room)),
            Step::Follow(query, room, commit) => {
                Ok(Event::Follow(query.pred(alloc)?, room, commit))
            }
            Step::Turn(cursor) => Ok(Event::Turn(cursor)),
            Step::AskMark(cursor) => Ok(Event::AskMark(cursor)),
            Step::Take(cursor) => Ok(Event::Take(cursor)),
            Step::Close(cursor) => Ok(Event::Close(cursor)),
        }
    }
}

/// The sides for a word of the letters `l` and `r`.
fn sides(alloc: Global, letters: &str) -> Result<Sides, Refusal> {
    let mut sides = Sides::new(alloc);
    for letter in letters.as_bytes() {
        sides.push(if *letter == b'l' {
            Side::Left
        } else {
            Side::Right
        })?;
    }
    Ok(sides)
}

/// A reply in plain values.
#[derive(Clone, Copy, PartialEq, Eq)]
pub enum Answer {
    Enlarged,
    /// The number, the seat and the write of a commit.
    Committed(u64, u32, Write<Interval>),
    Split(u32),
    Posted,
    Grown(u32, u32),
    Finder(u64),
    Seeking,
    Unfound,
    Swept(u64),
    Opened(u64),
    Offered,
    Visited(u32),
    Passed(u64),
    Asked,
    Taken(Item<Interval>),
    Nothing,
    Closed,
    Refused(Refusal),
}

impl Answer {
    pub fn of(reply: Reply<Interval, ()>) -> Answer {
        match reply {
            Reply::Enlarged => Answer::Enlarged,
            Reply::Committed(stamp) => {
                Answer::Committed(stamp.number(), stamp.seat(), stamp.write())
            }
            Reply::Split(sibling) => Answer::Split(sibling),
            Reply::Posted => Answer::Posted,
            Reply::Grown(first, second) => Answer::Grown(first, second),
            Reply::Finder(serial) => Answer::Finder(serial),
            Reply::Seeking => Answer::Seeking,
            Reply::Unfound => Answer::Unfound,
            Reply::Swept(count) => Answer::Swept(count),
            Reply::Opened(serial, ()) => Answer::Opened(serial),
            Reply::Offered => Answer::Offered,
            Reply::Visited(page) => Answer::Visited(page),
            Reply::Passed(commit) => Answer::Passed(commit),
            Reply::Asked => Answer::Asked,
            Reply::Taken(item) => Answer::Taken(item),
            Reply::Nothing => Answer::Nothing,
            Reply::Closed => Answer::Closed,
            Reply::Refused(refusal) => Answer::Refused(refusal),
        }
    }
}

/// The answer of a world to an event of seat 0.
pub fn answer_of(alloc: Global, world: &mut Trial, step: Step) -> Result<Answer, Refusal> {
    Ok(Answer::of(world.step(step.event(alloc)?)))
}

/// Makes events that must not be refused.
pub fn make_all(alloc: Global, world: &mut Trial, steps: &[Step]) -> Result<(), Refusal> {
    for step in steps {
        if let Answer::Refused(why) = answer_of(alloc, world, *step)? {
            return Err(why);
        }
    }
    Ok(())
}
