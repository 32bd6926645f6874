//! The client of a desk that docs/THREADS.md shows.
use crate::desks::{Scene, limits, play};
use desk::{Desk, Ended, Seat};
use history::Naming;
use interval_class::{Atom, Interval, Intervals};
use key_class::{Pred, Refusal, Rel};
use std::alloc::Global;
use std::process::Abort;
use std::sync::Wait;
use std::sync::ledger::Ledger;
use std::test::*;
use world::Reply;

/// Inserts a row and follows what overlaps it, until its cursor is idle. Gives how many items came, if a receipt
/// shows that they are right.
fn insert_and_follow<L: Ledger + Naming, R: Wait>(
    rt: &R,
    alloc: Global,
    desk: &Desk<Intervals, L>,
    seat: &mut Seat<Intervals, L>,
    key: Interval,
) -> Result<Option<usize>, Refusal> {
    let query = Pred::Atom(Atom {
        rel: Rel::Overlaps,
        operand: key,
    });
    let mut taker = desk.open_cursor(rt, seat, query, 16)?;
    let _stamp = desk.insert(rt, seat, key, 0)?;
    let mut taken = Vec::new(alloc);
    for _ in 0..1_000 {
        if let Reply::Refused(_) = desk.turn(rt, taker.cursor()) {
            break;
        }
        if let Some(item) = taker.take() {
            taken.push(item)?;
        }
    }
    match taker.close(rt, seat, taken.as_slice()) {
        Ended::Receipt(_) => Ok(Some(taken.len())),
        Ended::NoReceipt => Ok(None),
    }
}

#[derive(Drop)]
struct OneClient {}

impl Scene for OneClient {
    fn play<L: Ledger + Naming, R: Wait + Abort>(
        &self,
        rt: &R,
        alloc: Global,
        desk: &Desk<Intervals, L>,
        seats: &mut [Seat<Intervals, L>],
    ) -> Result<(), Refusal> {
        for seat in seats {
            let key = Interval::new(5, 8)?;
            assert!(rt; insert_and_follow(rt, alloc, desk, seat, key)? == Some(1));
        }
        Ok(())
    }
}

#[test]
fn a_client_sees_its_own_row(rt: HostRuntime) -> Result<(), Fail> {
    assert!(rt; play(&rt, rt.alloc(), limits(99, 99), 1, &OneClient {})? == 1);
    Ok(())
}
