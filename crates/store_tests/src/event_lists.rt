//! Lists of events for a new world, one of which runs out of memory. tests/alloc-faults lets each request fail in turn.
use crate::events::{Answer, Query, Step};
use change_list::Config;
use interval_class::{Atom, Interval, Intervals};
use key_class::Refusal;
use std::alloc::Global;
use std::test::Fail;
use world::{Event, Reply, run};

const EIGHT: Config = Config {
    fan: 8,
    least: 2,
    pages: 64,
    commits: 400,
};

/// Events of each kind that may run out of memory. Each is carried out if there is memory.
static STEPS: [Step; 44] = [
    Step::Place(0, (0, 3), 0),
    Step::Place(0, (1, 1), 1),
    Step::Open(Query::Misses(40, 50), 16),
    Step::Place(0, (2, 5), 2),
    Step::Place(0, (3, 3), 3),
    Step::Place(0, (20, 23), 4),
    Step::Place(0, (21, 21), 5),
    Step::Place(0, (22, 25), 6),
    Step::Place(0, (23, 23), 7),
    Step::Grow("llllrrrr"),
    Step::Turn(1),
    Step::Place(1, (0, 0), 8),
    Step::Place(1, (1, 2), 9),
    Step::Place(1, (2, 2), 10),
    Step::Place(1, (3, 4), 11),
    Step::Split(1, "llrrllrr"),
    Step::Turn(1),
    Step::Post(0, 1),
    Step::Enlarge(0, 2, (19, 30)),
    Step::Follow(Query::Overlaps(0, 31), 3, 4),
    Step::Find(1),
    Step::Seek(1),
    Step::Seek(1),
    Step::Find(6),
    Step::Move(2, 2, (30, 30)),
    Step::Move(2, 2, (30, 30)),
    Step::Find(2),
    Step::Unfind(3),
    Step::Turn(1),
    Step::Turn(1),
    Step::Turn(1),
    Step::Take(1),
    Step::Take(1),
    Step::AskMark(1),
    Step::Turn(2),
    Step::Turn(2),
    Step::Take(2),
    Step::Turn(1),
    Step::Take(1),
    Step::Close(1),
    Step::Sweep(1),
    Step::Sweep(2),
    Step::Place(3, (2, 5), 12),
    Step::Close(2),
];

fn events_of(alloc: Global, steps: &[Step]) -> Result<Vec<Event<Interval, Atom>>, Refusal> {
    let mut events = Vec::new(alloc);
    for step in steps {
        events.push(step.event(alloc)?)?;
    }
    Ok(events)
}

fn answers_of(alloc: Global, replies: Vec<Reply<Interval, ()>>) -> Result<Vec<Answer>, Refusal> {
    let mut answers = Vec::new(alloc);
    for reply in replies {
        answers.push(Answer::of(reply))?;
    }
    Ok(answers)
}

/// The answers of a new world to a list of events.
fn trace(alloc: Global, steps: &[Step]) -> Result<Vec<Answer>, Refusal> {
    let events = events_of(alloc, steps)?;
    answers_of(alloc, run::<Intervals>(alloc, EIGHT, &events)?)
}

/// The place of the first event that was refused, and why.
fn first_refused(answers: &[Answer]) -> Option<(usize, Refusal)> {
    for (place, answer) in answers.iter().enumerate() {
        if let Answer::Refused(why) = answer {
            return Some((place, *why));
        }
    }
    None
}

/// All but the one at a place.
fn all_but<T: Copy>(alloc: Global, all: &[T], left_out: usize) -> Result<Vec<T>, Refusal> {
    let mut others = Vec::new(alloc);
    for (place, one) in all.iter().enumerate() {
        if place != left_out {
            others.push(*one)?;
        }
    }
    Ok(others)
}

/// Whether the events other than the one at a place were answered as by a new world that isn't given that one.
fn is_as_without(alloc: Global, answers: &[Answer], left_out: usize) -> Result<bool, Refusal> {
    let others = trace(alloc, &all_but(alloc, &STEPS, left_out)?)?;
    Ok(all_but(alloc, answers, left_out)?.as_slice() == others.as_slice())
}

/// Must pass whichever allocation is refused: the event that needed it is refused, and all that follow are carried
/// out as if it had never come.
#[test]
fn refused_memory_ends_no_list_of_events(rt: HostRuntime) -> Result<(), Fail> {
    let answers = trace(rt.alloc(), &STEPS)?;
    match first_refused(&answers) {
        None => assert!(rt; answers.len() == STEPS.len()),
        Some((place, why)) => {
            assert!(rt; why == Refusal::OutOfMemory, "{place}");
            assert!(rt; is_as_without(rt.alloc(), &answers, place)?, "{place}");
        }
    }
    Ok(())
}

#[test]
fn a_list_of_events_may_be_empty(rt: HostRuntime) -> Result<(), Fail> {
    assert!(rt; trace(rt.alloc(), &[])?.is_empty());
    Ok(())
}
