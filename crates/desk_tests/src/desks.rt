//! A desk for each test, on which a scene is played.
ghost use Rattle.std.specs.Prelude.{◌≡◌};

use change_list::{ChangeList, Config, Write};
use desk::{Closing, Desk, Finished, Seat};
use history::{BlankHistory, Naming};
use interval_class::{Interval, Intervals};
use key_class::Refusal;
use std::alloc::Global;
use std::marker::Brand;
use std::process::Abort;
use std::sync::Wait;
use std::sync::ledger::{Blank, Ledger};
use world::Stamped;

/// What the clients of a desk do in a test.
pub trait Scene {
    fn play<L: Ledger + Naming, R: Wait + Abort>(
        &self,
        rt: &R,
        alloc: Global,
        desk: &Desk<Intervals, L>,
        seats: &mut [Seat<Intervals, L>],
    ) -> Result<(), Refusal>;
}

/// The limits of a desk with small pages.
pub fn limits(pages: u32, commits: u32) -> Config {
    Config {
        fan: 4,
        least: 2,
        pages,
        commits,
    }
}

/// The stamps of seats.
fn stamps_of<L: Ledger + Naming>(
    alloc: Global,
    seats: &[Seat<Intervals, L>],
) -> Result<Vec<Stamped<Interval>>, Refusal> {
    let mut stamps = Vec::new(alloc);
    for seat in seats {
        for stamp in seat.stamps() {
            stamps.push(*stamp)?;
        }
    }
    Ok(stamps)
}

/// Whether the stamps, ordered by number, are the commits.
fn are_the_commits(stamps: &[Stamped<Interval>], commits: &ChangeList<Interval>) -> bool {
    let mut number: u64 = 0;
    for stamp in stamps {
        number = number.wrapping_add(1);
        if stamp.number() != number || commits.commit(number) != Some(stamp.write()) {
            return false;
        }
    }
    number == commits.len() as u64
}

/// The number of commits, if the desk could be finished and the stamps of all seats are exactly these.
pub fn commits_of<L: Ledger + Naming>(
    alloc: Global,
    closing: Option<Closing<Intervals, L>>,
) -> Result<u64, Refusal> {
    let Some(closing) = closing else {
        return Err(Refusal::NotHere);
    };
    let (sum, count) = (closing.sum(), closing.commits().len() as u64);
    let (commits, seats) = closing.into_parts();
    let mut stamps = stamps_of(alloc, seats.as_slice())?;
    stamps
        .as_mut_slice()
        .sort_unstable_by_key(|stamp| stamp.number());
    if are_the_commits(stamps.as_slice(), &commits) && sum == count {
        Ok(sum)
    } else {
        Err(Refusal::NotHere)
    }
}

/// Finishes a desk. While a seat is out, that gives the desk back.
pub fn finished<L: Ledger + Naming, R: Wait>(
    rt: &R,
    desk: Desk<Intervals, L>,
    seats: Vec<Seat<Intervals, L>>,
) -> Option<Closing<Intervals, L>> {
    let mut seats = seats;
    let last = seats.pop()?;
    let Finished::SeatsOut(desk, mut seats) = desk.finish(rt, seats) else {
        return None;
    };
    seats.push(last).ok()?;
    match desk.finish(rt, seats) {
        Finished::Closing(closing) => Some(closing),
        _ => None,
    }
}

fn at_a_desk<S, L, R>(
    rt: &R,
    alloc: Global,
    blank: Blank,
    history: BlankHistory<Write<Interval>>,
    config: Config,
    seats: usize,
    scene: &S,
) -> Result<u64, Refusal>
where
    S: Scene,
    L: Ledger + Naming,
    R: Wait + Abort,
    requires name { blank.name ≡ L.name }
    requires parts { blank.parts ≡ L.parts }
    requires one_each { blank.parts ≡ seats }
    requires history { history ≡ L.history }
{
    let (desk, mut seats) = Desk::<Intervals, L>::new(alloc, blank, history, config, seats)?;
    let played = scene.play(rt, alloc, &desk, seats.as_mut_slice());
    let closing = finished(rt, desk, seats);
    played?;
    commits_of(alloc, closing)
}

/// Plays a scene at a desk with this many seats, finishes the desk, and returns the number of its commits.
///
/// # Errors
/// `NotHere` if the seats' stamps aren't the commits; a refusal of the scene; or one of `Desk::new`.
pub fn play<S: Scene, R: Wait + Abort>(
    rt: &R,
    alloc: Global,
    config: Config,
    seats: usize,
    scene: &S,
) -> Result<u64, Refusal> {
    let blank = Blank::new(seats as u64);
    let history = BlankHistory::new();
    at_a_desk::<S, Brand, R>(rt, alloc, blank, history, config, seats, scene)
}
