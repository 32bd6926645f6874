//! Indexes that are dropped piece by piece.
ghost use Rattle.std.specs.Prelude.{◌≡◌, ◌+◌, ◌<◌, ◌≤◌, true, false, length, nat_lt};
ghost use Rattle.ids.specs.Remains.{number_of};

use std::collections::HashMap;
use std::marker::Model;

/// What is left of an index that is dropped piece by piece. As contracts see it, it is the number of hash maps.
#[derive(Drop)]
pub struct IdRemains {
    /// The hash map of an index with few ids.
    few: Option<HashMap<u64, u64>>,
    shards: Vec<HashMap<u64, u64>>,
}

impl Model for IdRemains {
    ghost use Rattle.std.specs.Prelude.{ℕ, ◌+◌, length};
    ghost use Rattle.ids.specs.Remains.{number_of};

    ghost Value = { ℕ };

    ghost view = { λ r. number_of r.few + length r.shards.items };
}

impl IdRemains {
    pub(crate) fn new(few: Option<HashMap<u64, u64>>, shards: Vec<HashMap<u64, u64>>) -> IdRemains
        ensures { result ≡ number_of few + length shards.items }
    {
        IdRemains { few, shards }
    }

    /// Drops one hash map, and returns whether there was one.
    pub fn shed(&mut self) -> bool
        ensures shed { result ≡ nat_lt 0 self.old }
        ensures fewer { result ≡ true → self.new < self.old }
        ensures few { self.old ≤ self.new + 1 }
        ensures unchanged { result ≡ false → self.new ≡ self.old }
    {
        self.few.take().is_some() || self.shards.pop().is_some()
    }
}
