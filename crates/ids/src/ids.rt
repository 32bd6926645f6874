ghost use Rattle.std.specs.Prelude.{◌≡◌, ◌<◌, ◌⊎◌, None, IfOk, OnOk, OnErr};
ghost use Rattle.std.specs.FinMap as map;

use crate::remains::IdRemains;
use crate::shards::{SHARDS, Shards};
use std::alloc::{AllocError, Global};
use std::collections::HashMap;
use std::marker::Model;

/// The greatest number of ids that one hash map has.
const FEW: usize = 1 << 10;

/// An index from ids to numbers, both of 64 bits.
///
/// It begins as one hash map. The insertion that would give that more than 1,024 ids moves them into 4,096 hash maps
/// ("shards"), of which a hash of the id chooses one, and the index keeps these from then on. A full hash map moves all
/// its entries to grow, so an insertion moves at most 1,024 entries, or those of one shard.
#[derive(Drop)]
pub struct Ids {
    alloc: Global,
    numbers: Numbers,
}

#[derive(Drop)]
enum Numbers {
    /// At most 1,024 ids.
    Few(HashMap<u64, u64>),
    Many(Shards),
}

impl Model for Ids {
    ghost use Rattle.std.specs.Prelude.{ℕ};
    ghost use Rattle.std.specs.Coded.{coded_ℕ};
    ghost use Rattle.std.specs.FinMap.{FinMap, code};
    ghost use Rattle.std.specs.Ordering.{nat_cmp};
    ghost use Rattle.ids.specs.Numbers.{IsWithinFew, numbers_of};

    ghost Value = { FinMap nat_cmp ℕ };

    ghost coded = { code coded_ℕ coded_ℕ };

    ghost view = { λ ids. numbers_of ids.numbers };

    ghost invariant = { λ ids. IsWithinFew ids.numbers };
}

impl Ids {
    /// An index in which no id has a number. It needs no memory before the first insertion.
    pub fn new(alloc: Global) -> Ids
        ensures { result ≡ map.empty }
    {
        Ids {
            alloc,
            numbers: Numbers::Few(HashMap::new(alloc)),
        }
    }

    /// The number of an id, in expected constant time.
    pub fn get(&self, id: u64) -> Option<u64>
        ensures { result ≡ map.get self.now id }
    {
        match &self.numbers {
            Numbers::Few(few) => few.get(&id).copied(),
            Numbers::Many(shards) => shards.get(id),
        }
    }

    /// Gives an id a number, and returns its former number.
    ///
    /// This takes expected constant time, or time linear in the ids of one hash map if that has to grow. The insertion
    /// that would give the only hash map more than 1,024 ids makes 4,096 of them.
    ///
    /// # Errors
    /// `AllocError` if memory ran out, which can happen only if the id has no number. The index is unchanged then.
    pub fn insert(&mut self, id: u64, number: u64) -> Result<Option<u64>, AllocError>
        ensures former { IfOk result (λ former. former ≡ map.get self.old id) }
        ensures ok { OnOk result (self.new ≡ map.insert self.old id number) }
        ensures err { OnErr result (self.new ≡ self.old) }
        ensures absent { OnErr result (map.get self.old id ≡ None) }
    {
        match &mut self.numbers {
            Numbers::Few(few) => {
                if few.len() < FEW || few.contains_key(&id) {
                    return Ok(few.insert(id, number)?);
                }
                let mut shards = Shards::from_map(self.alloc, few)?;
                let former = shards.insert(id, number)?;
                self.numbers = Numbers::Many(shards);
                Ok(former)
            }
            Numbers::Many(shards) => shards.insert(id, number),
        }
    }

    /// Removes the number of an id, and returns it, in expected constant time.
    pub fn remove(&mut self, id: u64) -> Option<u64>
        ensures former { result ≡ map.get self.old id }
        ensures removed { self.new ≡ map.remove self.old id }
    {
        match &mut self.numbers {
            Numbers::Few(few) => few.remove(&id),
            Numbers::Many(shards) => shards.remove(id),
        }
    }

    /// The index without its use: its hash maps, to be dropped one by one.
    pub fn into_remains(self) -> IdRemains
        ensures pieces { (result ≡ 1) ⊎ (result ≡ SHARDS) }
        ensures many { FEW < map.len self → result ≡ SHARDS }
    {
        let Ids { alloc, numbers } = self;
        match numbers {
            Numbers::Few(few) => IdRemains::new(Some(few), Vec::new(alloc)),
            Numbers::Many(shards) => IdRemains::new(None, shards.into_maps()),
        }
    }
}
