ghost use Rattle.std.specs.Prelude.{◌≡◌, ◌<◌, ◌≤◌, ◌↔◌, [], length, IfOk, IfErr, OnOk, IsOk, false};
ghost use Rattle.mailbox.specs.Outlets.{tray_rule, with_item};

use crate::outlet::{Outlet, Taken};
use change_list::Item;
use std::alloc::{AllocError, Global};
use std::collections::VecDeque;
use std::marker::Model;

/// A bounded list of items, first in first out. Its places are reserved when it is made.
#[derive(Drop)]
pub struct Tray<K> {
    items: VecDeque<Item<K>>,
    room: u32,
}

impl<K> Model for Tray<K> {
    ghost use Rattle.std.specs.Prelude.{◌≤◌};
    ghost use Rattle.std.specs.VecDeque.{deque_capacity};
    ghost use Rattle.mailbox.specs.Outlets.{Tray};

    ghost Value = { Tray K };

    ghost view = { λ tray. record { room = tray.room; held = tray.items.items } };

    ghost invariant = { λ tray. tray.room ≤ deque_capacity tray.items };
}

impl<K: Copy> Outlet<K> for Tray<K> {
    type Consumer = ();

    ghost room_of = { λ tray. tray.room };

    ghost unread = { λ tray. tray.held };

    ghost rule = { tray_rule };

    ghost is_end_of = { λ end tray. Unit {0} };

    ghost fresh = { λ end. Unit {0} };

    fn make(alloc: Global, room: u32) -> Result<(Tray<K>, ()), AllocError>
        ensures made { IfOk result (λ made. made.0 ≡ record { room = room; held = [] }) }
    {
        let items = VecDeque::with_capacity(alloc, room as usize)?;
        Ok((Tray { items, room }, ()))
    }

    fn offer(&mut self, item: Item<K>) -> Result<(), Item<K>>
        ensures takes { IsOk result ↔ (length self.old.held < self.old.room) }
        ensures taken { OnOk result (self.new ≡ with_item self.old item) }
        ensures handed_back { IfErr result (λ back. (back ≡ item) × (self.new ≡ self.old)) }
    {
        if self.items.len() >= self.room as usize {
            return Err(item);
        }
        self.items.push_back_reserved(item);
        Ok(())
    }

    fn take(&mut self) -> Taken<K> {
        match self.items.pop_front() {
            Some(item) => Taken::Item(item),
            None => Taken::Nothing,
        }
    }

    fn is_emptied_elsewhere() -> bool {
        false
    }
}
