//! The size of a storm.
ghost use Rattle.std.specs.Prelude.{◌≡◌, ◌↔◌, ◌+◌, ◌*◌, IsTrue};
ghost use Rattle.storm.specs.Sizes.{IsStorm, feeds_of, hosts_of};

use key_class::limits::{MAX_ROOM, MAX_SEATS};

/// The most threads that receive for subscribers.
pub(crate) const MAX_HOSTS: u32 = 4;

/// How many clients a storm has, and what they do.
#[derive(Clone, Copy, Debug, PartialEq, Eq)]
pub struct StormSize {
    /// How many threads insert and delete: 1 to 32.
    pub writers: u32,
    /// How many rows each of them inserts: 0 to 1,000.
    pub inserts: u32,
    /// How many of its rows each of them deletes: no more than it inserts.
    pub deletes: u32,
    /// How many threads follow a cursor: 0 to 32.
    pub readers: u32,
    /// How many threads look at snapshots: 0 to 32. There are at most 64 writers, readers, lookers and hosts.
    pub lookers: u32,
    /// How many subscribers the feed has: 0 to 1,000. Each of up to four has a host, a thread that receives for it; more share
    /// four.
    pub subscribers: u32,
    /// How many items a cursor's mailbox holds: 1 to 4,096.
    pub room: u32,
    /// How many threads turn cursors: 1 to 8.
    pub pumps: u32,
    /// How many leaves are swept meanwhile: 0 to 1,000.
    pub sweeps: u32,
    /// What the random keys begin with: storms of one seed draw the same ones.
    pub seed: u32,
}

impl StormSize {
    /// Whether each number is in its range.
    pub fn is_within(&self) -> bool
        ensures { IsTrue result ↔ IsStorm self.now }
    {
        self.writers >= 1
            && self.writers <= 32
            && self.inserts <= 1_000
            && self.deletes <= self.inserts
            && self.readers <= 32
            && self.lookers <= 32
            && self.subscribers <= 1_000
            && (self.writers + self.readers + self.lookers + self.hosts()) as usize <= MAX_SEATS
            && self.room >= 1
            && u64::from(self.room) <= MAX_ROOM
            && self.pumps >= 1
            && self.pumps <= 8
            && self.sweeps <= 1_000
    }

    /// How many threads receive for subscribers.
    pub fn hosts(&self) -> u32
        ensures { result ≡ hosts_of self.now }
    {
        self.subscribers.min(MAX_HOSTS)
    }

    /// How many feeds there are: one if there are subscribers.
    fn feeds(&self) -> u32
        ensures { result ≡ feeds_of self.now }
    {
        self.subscribers.min(1)
    }

    /// How many seats it takes: one for each writer, reader, looker and feed.
    pub fn seats(&self) -> usize
        requires { IsStorm self.now }
        ensures { result ≡ self.now.writers + self.now.readers + self.now.lookers
            + feeds_of self.now }
    {
        (self.writers + self.readers + self.lookers + self.feeds()) as usize
    }

    /// How many commits it makes if nothing is refused.
    pub fn commits(&self) -> u64
        requires { IsStorm self.now }
        ensures { result ≡ self.now.writers * (self.now.inserts + self.now.deletes) }
    {
        u64::from(self.writers) * u64::from(self.inserts + self.deletes)
    }
}
