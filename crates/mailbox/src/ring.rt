ghost use Rattle.std.specs.Prelude.{◌≡◌, ◌≤◌, [], ◌∷◌, ◌++◌, length, IfErr, OnOk, OnErr};
ghost use Rattle.mailbox.specs.Rings.{places, items_sent, IsSameRing};

use crate::outlet::{Outlet, Taken};
use change_list::Item;
use rtrb::{Consumer, Producer, PushError, RingBuffer};
use std::alloc::{AllocError, Global};
use std::marker::Model;

/// The producer's side of a ring. The consumer has the other end, and never waits.
#[derive(Drop)]
pub struct Ring<K> {
    producer: Producer<Item<K>>,
}

impl<K> Model for Ring<K> {
    ghost use Rattle.mailbox.specs.Rings.{Ring, CountsPlaces};

    ghost Value = { Ring K };

    ghost view = { λ ring. ring.producer };

    ghost invariant = { λ ring. CountsPlaces ring.producer };
}

impl<K: Copy> Outlet<K> for Ring<K> {
    ghost use Rattle.std.specs.Prelude.{◌≡◌, []};
    ghost use Rattle.rtrb.specs.Ring.{received};
    ghost use Rattle.mailbox.specs.Rings.{places, items_sent, ring_rule, IsOtherEnd};

    type Consumer = Consumer<Item<K>>;

    ghost room_of = { λ ring. places ring };

    ghost unread = { λ ring. items_sent ring };

    ghost rule = { ring_rule };

    ghost is_end_of = { λ end ring. IsOtherEnd end ring };

    ghost fresh = { λ end. received end ≡ [] };

    fn make(alloc: Global, room: u32) -> Result<(Ring<K>, Consumer<Item<K>>), AllocError> {
        let (producer, consumer) = RingBuffer::new(alloc, room as usize)?;
        Ok((Ring { producer }, consumer))
    }

    fn offer(&mut self, item: Item<K>) -> Result<(), Item<K>>
        ensures taken { OnOk result (items_sent self.new ≡ items_sent self.old ++ item ∷ []) }
        ensures handed_back { IfErr result (λ back. back ≡ item) }
        ensures unchanged { OnErr result (items_sent self.new ≡ items_sent self.old) }
        ensures full { OnErr result (places self.old ≤ length (items_sent self.old)) }
        ensures same { IsSameRing self.old self.new }
    {
        match self.producer.push(item) {
            Ok(()) => Ok(()),
            Err(PushError::Full(back)) => Err(back),
        }
    }

    fn take(&mut self) -> Taken<K> {
        Taken::Elsewhere
    }

    fn is_emptied_elsewhere() -> bool {
        true
    }
}
