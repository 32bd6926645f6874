ghost use Rattle.std.specs.Prelude.{◌≡◌, ℕ, List, [], ◌∷◌, ◌++◌, IfOk, IfErr, OnOk, OnErr};
ghost use Rattle.change_list.specs.declared.item.Item.{Item};
ghost use Rattle.mailbox.specs.Outlets.{Rule, Takes, MayTake, MayRefuse};

use change_list::Item;
use std::alloc::{AllocError, Global};

/// The result of taking from an outlet.
#[derive(Clone, Copy, Debug, PartialEq, Eq)]
pub enum Taken<K> {
    /// The item at the front, which is removed.
    Item(Item<K>),
    /// No item was there.
    Nothing,
    /// A ring is read by its consumer, not here.
    Elsewhere,
}

/// Where the items of a cursor go.
pub trait Outlet<K>: Drop {
    /// The other end of an outlet, which the consumer gets.
    type Consumer: Drop;

    /// How many items it has room for.
    ghost room_of: { Self → ℕ };

    /// The items that it was offered and that this side hasn't taken, in order.
    ghost unread: { Self → List (Item K) };

    /// When an offer may be taken or handed back, and where the outlet is emptied.
    ghost rule: { Rule };

    /// Whether a consumer is the other end of an outlet.
    ghost is_end_of: { Self.Consumer → Self → Type 0 };

    /// Whether a consumer has taken nothing yet.
    ghost fresh: { Self.Consumer → Type 0 };

    /// An empty outlet with room for so many items, and its other end.
    ///
    /// # Errors
    /// Memory ran out.
    fn make(alloc: Global, room: u32) -> Result<(Self, Self::Consumer), AllocError>
        ensures room { IfOk result (λ made. room_of made.0 ≡ room) }
        ensures empty { IfOk result (λ made. unread made.0 ≡ []) }
        ensures end { IfOk result (λ made. is_end_of made.1 made.0) }
        ensures fresh { IfOk result (λ made. fresh made.1) };

    /// Adds an item, or hands it back.
    fn offer(&mut self, item: Item<K>) -> Result<(), Item<K>>
        ensures taken { OnOk result (unread self.new ≡ unread self.old ++ item ∷ []) }
        ensures may_take { OnOk result (MayTake rule (room_of self.old) (unread self.old)) }
        ensures handed_back { IfErr result (λ back. back ≡ item) }
        ensures unchanged { OnErr result (unread self.new ≡ unread self.old) }
        ensures may_refuse { OnErr result (MayRefuse rule (room_of self.old) (unread self.old)) }
        ensures room { room_of self.new ≡ room_of self.old }
        ensures end { (end : Self.Consumer) → is_end_of end self.old → is_end_of end self.new };

    /// Takes the item at the front.
    fn take(&mut self) -> Taken<K>
        ensures takes { Takes rule.is_emptied_elsewhere (unread self.old) result (unread self.new) }
        ensures room { room_of self.new ≡ room_of self.old }
        ensures end { (end : Self.Consumer) → is_end_of end self.old → is_end_of end self.new };

    /// Whether outlets of this kind are emptied elsewhere, by a consumer.
    fn is_emptied_elsewhere() -> bool
        ensures { result ≡ rule.is_emptied_elsewhere };
}
