//! Seats, cursors and pumps at their limits.
use crate::calls::insert;
use crate::desks::{Scene, limits, play};
use desk::{Desk, Seat};
use history::Naming;
use interval_class::{Interval, Intervals};
use key_class::Refusal;
use pumps::{Gate, Pumps};
use std::alloc::Global;
use std::process::Abort;
use std::sync::Wait;
use std::sync::ledger::Ledger;
use std::test::*;
use test_support::all;

/// Opens a cursor on all rows, which stays open, and returns the number of commits at its opening.
fn open<L: Ledger + Naming, R: Wait>(
    rt: &R,
    desk: &Desk<Intervals, L>,
    seat: &mut Seat<Intervals, L>,
    room: u64,
) -> Result<u64, Refusal> {
    Ok(desk.open_cursor(rt, seat, all(), room)?.opened())
}

/// How many cursors of the greatest room a seat opens before one is refused.
fn open_all<L: Ledger + Naming, R: Wait>(
    rt: &R,
    desk: &Desk<Intervals, L>,
    seat: &mut Seat<Intervals, L>,
) -> (u64, Option<Refusal>) {
    for count in 0..1_000 {
        if let Err(why) = open(rt, desk, seat, 4_096) {
            return (count, Some(why));
        }
    }
    (1_000, None)
}

/// Each seat inserts a row and opens a cursor; then the first opens cursors until one is refused.
#[derive(Drop)]
struct Many {}

impl Scene for Many {
    fn play<L: Ledger + Naming, R: Wait + Abort>(
        &self,
        rt: &R,
        _alloc: Global,
        desk: &Desk<Intervals, L>,
        seats: &mut [Seat<Intervals, L>],
    ) -> Result<(), Refusal> {
        for seat in seats.iter_mut() {
            let number = insert(rt, desk, seat, Interval::new(1, 2)?)?;
            let opened = open(rt, desk, seat, 1)?;
            assert!(rt; number == u64::from(seat.number()) && opened == number);
        }
        let Some(seat) = seats.first_mut() else {
            return Err(Refusal::BadConfig);
        };
        let opened = open_all(rt, desk, seat);
        assert!(rt; opened == (192, Some(Refusal::CursorsFull)));
        Ok(())
    }
}

#[test]
fn limits_are_reached(rt: HostRuntime) -> Result<(), Fail> {
    assert!(rt; play(&rt, rt.alloc(), limits(64, 99), 64, &Many {})? == 64);
    Ok(())
}

/// A gate that is always open.
#[derive(Drop)]
struct AlwaysOpen {}

impl Gate for AlwaysOpen {
    fn may_turn(&self, _cursor: u64) -> bool {
        true
    }
}

fn refusal_of_pumps(count: usize) -> Option<Refusal> {
    Pumps::new(count, AlwaysOpen {}).err()
}

#[test]
fn pumps_are_one_to_sixteen(rt: HostRuntime) {
    for (count, wanted) in [
        (0, Some(Refusal::BadConfig)),
        (1, None),
        (16, None),
        (17, Some(Refusal::BadConfig)),
    ] {
        assert!(rt; refusal_of_pumps(count) == wanted, "{count}");
    }
}
