//! Numbers by id in many hash maps.
ghost use Rattle.std.specs.Prelude.{◌≡◌, ◌<◌, None, IfOk, OnOk, OnErr, length};
ghost use Rattle.std.specs.FinMap as map;
ghost use Rattle.ids.specs.Shards.{numbers_in, shard_of};

use std::alloc::{AllocError, Global};
use std::collections::HashMap;
use std::marker::Model;

/// The number of shards: one for each value of the upper bits of a hash.
pub(crate) const SHARDS: usize = 1 << 12;

/// An odd constant, 2 ^ 64 over the golden ratio.
const GOLDEN: u64 = 0x9E37_79B9_7F4A_7C15;

/// Numbers by id in 4,096 hash maps ("shards"), of which a hash of the id chooses one.
#[derive(Drop)]
pub(crate) struct Shards {
    shards: Vec<HashMap<u64, u64>>,
}

impl Model for Shards {
    ghost use Rattle.std.specs.Prelude.{ℕ};
    ghost use Rattle.std.specs.Coded.{coded_ℕ};
    ghost use Rattle.std.specs.FinMap.{FinMap, code};
    ghost use Rattle.std.specs.Ordering.{nat_cmp};
    ghost use Rattle.ids.specs.Shards.{ArePlaced, numbers_in};

    ghost Value = { FinMap nat_cmp ℕ };

    ghost coded = { code coded_ℕ coded_ℕ };

    ghost view = { λ s. numbers_in s.shards.items };

    ghost invariant = { λ s. ArePlaced s.shards.items };
}

impl Shards {
    /// Shards in which no id has a number.
    ///
    /// # Errors
    /// `AllocError` if memory ran out.
    #[tactic(auto, using(crate::proofs::Placing::empty_placed))]
    pub(crate) fn new(alloc: Global) -> Result<Shards, AllocError>
        ensures { IfOk result (λ shards. shards ≡ map.empty) }
    {
        let mut shards = Vec::with_capacity(alloc, SHARDS)?;
        for _ in 0..SHARDS {
            shards.push(HashMap::new(alloc))?;
        }
        Ok(Shards { shards })
    }

    /// Shards with the numbers of one hash map.
    ///
    /// # Errors
    /// `AllocError` if memory ran out.
    pub(crate) fn from_map(alloc: Global, numbers: &HashMap<u64, u64>) -> Result<Shards, AllocError>
        ensures { IfOk result (λ shards. shards ≡ map.from_entries numbers.now.entries) }
    {
        let mut shards = Shards::new(alloc)?;
        for (id, number) in numbers.iter() {
            shards.insert(*id, *number)?;
        }
        Ok(shards)
    }

    /// The number of an id, in expected constant time.
    #[tactic(auto, using(crate::proofs::Placing::found))]
    pub(crate) fn get(&self, id: u64) -> Option<u64>
        ensures { result ≡ map.get self.now id }
    {
        self.shards[shard_of(id)].get(&id).copied()
    }

    /// Gives an id a number, and returns its former number.
    ///
    /// This takes expected constant time, and time linear in the ids of one shard if that has to grow.
    ///
    /// # Errors
    /// `AllocError` if memory ran out, which can happen only if the id has no number. The numbers are unchanged then.
    #[tactic(auto, using(crate::proofs::Placing::found, crate::proofs::Placing::inserted, crate::proofs::Placing::unchanged, crate::proofs::Placing::placed))]
    pub(crate) fn insert(&mut self, id: u64, number: u64) -> Result<Option<u64>, AllocError>
        ensures former { IfOk result (λ former. former ≡ map.get self.old id) }
        ensures ok { OnOk result (self.new ≡ map.insert self.old id number) }
        ensures err { OnErr result (self.new ≡ self.old) }
        ensures absent { OnErr result (map.get self.old id ≡ None) }
    {
        Ok(self.shards[shard_of(id)].insert(id, number)?)
    }

    /// Removes the number of an id, and returns it, in expected constant time.
    #[tactic(auto, using(crate::proofs::Placing::found, crate::proofs::Placing::removed, crate::proofs::Placing::placed))]
    pub(crate) fn remove(&mut self, id: u64) -> Option<u64>
        ensures former { result ≡ map.get self.old id }
        ensures removed { self.new ≡ map.remove self.old id }
    {
        self.shards[shard_of(id)].remove(&id)
    }

    /// The 4,096 hash maps.
    pub(crate) fn into_maps(self) -> Vec<HashMap<u64, u64>>
        ensures count { length result.items ≡ SHARDS }
        ensures same { numbers_in result.items ≡ self }
    {
        let Shards { shards } = self;
        shards
    }
}

/// The place of an id's shard: the upper bits of its product with an odd constant (Fibonacci hashing: Knuth, The Art
/// of Computer Programming, volume 3, section 6.4).
fn shard_of(id: u64) -> usize
    ensures place { result ≡ shard_of id }
    ensures within { result < SHARDS }
{
    (id.wrapping_mul(GOLDEN) >> 52) as usize
}
