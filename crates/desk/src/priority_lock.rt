//! A lock with two kinds of callers: those who hold it only for a moment go first, and the others take fair turns.
use crossbeam_utils::Backoff;
use std::sync::atomic::{AtomicU32, AtomicUsize, Ordering};
use std::sync::{Mutex, MutexGuard, Wait};

/// How often a thread checks whether it may go on before it queues up: the rounds of a `Backoff`, nearly all of which
/// yield the processor. Together they take about 20 microseconds, longer than any visit holds the lock. So a reader
/// seldom sleeps, which is what we want: waking it takes longer than a visit.
const ROUNDS: u32 = 64;

/// How often in a row the lock may be taken past the threads that sleep in front of it: for about a millisecond. Each
/// time that others wait for a sleeper the lock is free until it is awake, which takes as long as hundreds of visits.
const OVERTAKINGS: u32 = 4_096;

/// A lock for two kinds of visits. Callers of `lock_first` go before callers of `lock`, which let them pass for at
/// most `ROUNDS` rounds. Without this a thread that writes in a loop would take the lock again before a sleeping
/// thread is awake. Writers don't starve each other either: after `OVERTAKINGS` in a row, newcomers wait for the
/// sleepers.
#[derive(Drop)]
pub(crate) struct PriorityLock<T> {
    lock: Mutex<T>,
    /// How many threads wait in `lock_first`.
    first: AtomicUsize,
    /// How many threads sleep in `lock`.
    asleep: AtomicUsize,
    /// How often the lock was taken past the sleepers since one of them last had it.
    overtaken: AtomicU32,
}

impl<T> PriorityLock<T> {
    pub(crate) fn new(value: T) -> PriorityLock<T> {
        PriorityLock {
            lock: Mutex::new(value),
            first: AtomicUsize::new(0),
            asleep: AtomicUsize::new(0),
            overtaken: AtomicU32::new(0),
        }
    }

    pub(crate) fn into_inner(self) -> T {
        let PriorityLock { lock, .. } = self;
        lock.into_inner()
    }

    /// Takes the lock, after the callers of `lock_first`, and after the sleepers if they were overtaken too often.
    pub(crate) fn lock<R: Wait>(&self, rt: &R) -> MutexGuard<'_, T> {
        self.give_way();
        if let Some(guard) = self.lock.try_lock() {
            if self.asleep.load(Ordering::Relaxed) > 0 {
                self.overtaken.fetch_add(1, Ordering::Relaxed);
            }
            return guard;
        }
        self.asleep.fetch_add(1, Ordering::Relaxed);
        let guard = self.lock.lock(rt);
        self.asleep.fetch_sub(1, Ordering::Relaxed);
        self.overtaken.store(0, Ordering::Relaxed);
        guard
    }

    /// Waits a while for the threads that should have the lock first.
    fn give_way(&self) {
        let backoff = Backoff::new();
        for _ in 0..ROUNDS {
            if self.first.load(Ordering::Relaxed) == 0
                && self.overtaken.load(Ordering::Relaxed) < OVERTAKINGS
            {
                return;
            }
            backoff.snooze();
        }
    }

    /// Takes the lock, ahead of the callers of `lock`.
    pub(crate) fn lock_first<R: Wait>(&self, rt: &R) -> MutexGuard<'_, T> {
        if let Some(guard) = self.lock.try_lock() {
            return guard;
        }
        self.first.fetch_add(1, Ordering::Relaxed);
        let guard = self.lock_soon(rt);
        self.first.fetch_sub(1, Ordering::Relaxed);
        guard
    }

    /// Takes the lock as soon as it is free. Spins at first, and sleeps only if that takes long.
    fn lock_soon<R: Wait>(&self, rt: &R) -> MutexGuard<'_, T> {
        let backoff = Backoff::new();
        for _ in 0..ROUNDS {
            if let Some(guard) = self.lock.try_lock() {
                return guard;
            }
            backoff.snooze();
        }
        self.lock.lock(rt)
    }
}
