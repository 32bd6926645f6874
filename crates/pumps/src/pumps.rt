ghost use Rattle.std.specs.Prelude.{◌≡◌, ◌↔◌, ◌⊎◌, ◌<◌, ◌≤◌, ◌+◌, min, Err, IfOk, IfErr};
ghost use Rattle.key_class.specs.Limits.{most_pumps};

use crossbeam_channel::Receiver;
use desk::Desk;
use history::Naming;
use key_class::limits::MAX_PUMPS;
use key_class::{Columned, KeyClass, Refusal};
use std::alloc::Global;
use std::marker::Model;
use std::rt::Clock;
use std::sync::Wait;
use std::sync::ledger::Ledger;
use std::thread;
use std::thread::Threads;
use std::time::Duration;
use world::Reply;

/// How often a gate is asked before an order is skipped.
const ASKS: u32 = 10_000;

/// The milliseconds between two such questions.
const PAUSE: u64 = 1;

/// An order to the pumps.
#[derive(Clone, Copy, Debug, PartialEq, Eq)]
pub enum Order {
    /// Turn the cursor with this serial this many times.
    Turn(u64, u64),
    /// Stop. It ends one pump.
    Stop,
}

/// Decides when a cursor may be turned, so that a caller can hold a cursor back.
pub trait Gate: Drop {
    /// Whether the cursor with this serial may be turned now.
    fn may_turn(&self, cursor: u64) -> bool;
}

/// Something whose cursors pumps can turn. The closures that run in threads capture a `D: Turning + Sync`: that a desk
/// is `Sync` is then proved once, where `run` hands it in (docs/CODE.md).
trait Turning {
    /// Turns a cursor. False if the turn was refused.
    fn turn_cursor<R: Wait>(&self, rt: &R, cursor: u64) -> bool;
}

impl<C: KeyClass, L: Ledger + Naming> Turning for Desk<C, L> {
    fn turn_cursor<R: Wait>(&self, rt: &R, cursor: u64) -> bool {
        !matches!(self.turn(rt, cursor), Reply::Refused(_))
    }
}

/// What pumps did. Each number stops rising at its greatest value.
#[derive(Clone, Copy, Debug, PartialEq, Eq)]
pub struct Pumped {
    /// How many turns were made that weren't refused.
    pub turns: u64,
    /// How many orders were skipped because the gate stayed shut.
    pub skipped: u64,
}

impl Pumped {
    const NOTHING: Pumped = Pumped {
        turns: 0,
        skipped: 0,
    };

    /// The sum of both.
    fn and(self, other: Pumped) -> Pumped
        ensures turns { result.turns ≡ min (self.turns + other.turns) u64.MAX }
        ensures skipped { result.skipped ≡ min (self.skipped + other.skipped) u64.MAX }
    {
        Pumped {
            turns: self.turns.saturating_add(other.turns),
            skipped: self.skipped.saturating_add(other.skipped),
        }
    }
}

/// Threads that turn cursors, where a gate lets them. Contracts see the gate.
#[derive(Drop)]
pub struct Pumps<G: Gate> {
    count: usize,
    gate: G,
}

impl<G: Gate> Model for Pumps<G> {
    ghost Value = { G };

    ghost view = { λ pumps. pumps.gate };
}

impl<G: Gate> Pumps<G> {
    /// `count` pumps with a gate.
    ///
    /// # Errors
    /// `BadConfig` if `count` isn't from 1 to 16.
    pub fn new(count: usize, gate: G) -> Result<Pumps<G>, Refusal>
        ensures gate { IfOk result (λ pumps. pumps ≡ gate) }
        ensures bad { (result ≡ Err Refusal.BadConfig)
            ↔ ((count ≡ 0) ⊎ (most_pumps < count)) }
        ensures refusals { IfErr result (λ why. why ≡ Refusal.BadConfig) }
    {
        if count == 0 || count > MAX_PUMPS {
            return Err(Refusal::BadConfig);
        }
        Ok(Pumps { count, gate })
    }

    /// The gate of these pumps.
    pub fn gate(&self) -> &G
        ensures { result.now ≡ self.now }
    {
        &self.gate
    }

    /// Asks the gate until it opens for the cursor. False if it is still shut after `ASKS` questions.
    fn opens<R: Clock>(&self, rt: &R, cursor: u64) -> bool {
        for _ in 0..ASKS {
            if self.gate.may_turn(cursor) {
                return true;
            }
            thread::sleep(rt, Duration::from_millis(PAUSE));
        }
        false
    }

    /// Turns the cursor until the order is done, the gate stays shut or a turn is refused.
    fn carry_out<D: Turning, R: Wait + Clock>(
        &self,
        rt: &R,
        desk: &D,
        cursor: u64,
        times: u64,
    ) -> Pumped
        ensures turns { result.turns ≤ times }
        ensures skipped { result.skipped ≤ 1 }
        ensures left { result.skipped ≡ 1 → result.turns < times }
    {
        for turns in 0..times {
            if !self.opens(rt, cursor) {
                return Pumped { turns, skipped: 1 };
            }
            if !desk.turn_cursor(rt, cursor) {
                return Pumped { turns, skipped: 0 };
            }
        }
        Pumped {
            turns: times,
            skipped: 0,
        }
    }

    /// One pump, which ends when it gets `Stop` or no sender is left.
    fn pump<D: Turning, R: Wait + Clock>(
        &self,
        rt: &R,
        desk: &D,
        orders: &Receiver<Order>,
    ) -> Pumped {
        let mut done = Pumped::NOTHING;
        for _ in rt.forever() {
            let Ok(Order::Turn(cursor, times)) = orders.recv(rt) else {
                break;
            };
            done = done.and(self.carry_out(rt, desk, cursor, times));
        }
        done
    }

    /// Runs the pumps over something that has cursors.
    fn run_all<D, R>(
        &self,
        rt: &R,
        alloc: Global,
        desk: &D,
        orders: &Receiver<Order>,
    ) -> Result<Pumped, Refusal>
    where
        G: Sync,
        D: Turning + Sync,
        R: Threads + Wait + Clock + Sync,
        ensures refusals { IfErr result (λ why. why ≡ Refusal.OutOfMemory) }
    {
        let pump = |_| self.pump(rt, desk, orders);
        let Ok(pumped) = thread::map_indices(rt, alloc, self.count, &pump) else {
            return Err(Refusal::OutOfMemory);
        };
        Ok(
            pumped
                .iter()
                .fold(Pumped::NOTHING, |all, one| all.and(*one)),
        )
    }

    /// Runs the pumps until all of them have ended, each in a thread of its own if the system gives one.
    ///
    /// Each order is carried out by one pump. Before each turn it asks the gate, up to 10,000 times with a
    /// millisecond between, and then skips the order. A refused turn ends the order.
    ///
    /// # Errors
    /// `OutOfMemory`. No pump has started then.
    pub fn run<C, L, R>(
        &self,
        rt: &R,
        alloc: Global,
        desk: &Desk<C, L>,
        orders: &Receiver<Order>,
    ) -> Result<Pumped, Refusal>
    where
        G: Sync,
        C: KeyClass + Send + Sync,
        C::Key: Send + Sync,
        <C::Key as Columned>::Block: Send + Sync,
        C::Atom: Send + Sync,
        L: Ledger + Naming + Send + Sync,
        R: Threads + Wait + Clock + Sync,
        ensures refusals { IfErr result (λ why. why ≡ Refusal.OutOfMemory) }
    {
        self.run_all(rt, alloc, desk, orders)
    }
}
