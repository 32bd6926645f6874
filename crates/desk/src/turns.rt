//! Several turns of a cursor in one call.
ghost use Rattle.desk.specs.Turns.{MakesTurns};

use crate::desk::DeskOver;
use change_list::Item;
use history::Naming;
use key_class::KeyClass;
use mailbox::Ring;
use rtrb::Consumer;
use std::sync::Wait;
use std::sync::ledger::Ledger;
use world::{Reply, World};

/// The result of some turns of a cursor.
#[derive(Drop)]
pub struct TurnsMade<K> {
    /// How many were made, not counting one that was refused.
    pub made: u64,
    /// The last reply: a refusal, if one ended the turns early. `None` if no turn was asked for.
    pub last: Option<Reply<K, Consumer<Item<K>>>>,
}

impl<C: KeyClass, L: Ledger + Naming> DeskOver<World<C, Ring<C::Key>>, L> {
    /// Makes `times` turns of a cursor, as `turn` does, until one is refused. Each takes the lock again.
    ///
    /// # Errors
    /// Those of `turn`, as the last reply.
    pub fn turns<R: Wait>(&self, rt: &R, cursor: u64, times: u64) -> TurnsMade<C::Key>
        ensures { MakesTurns C.rules cursor times result.made result.last }
    {
        let mut last = None;
        for made in 0..times {
            match self.turn(rt, cursor) {
                Reply::Refused(why) => {
                    return TurnsMade {
                        made,
                        last: Some(Reply::Refused(why)),
                    };
                }
                reply => last = Some(reply),
            }
        }
        TurnsMade { made: times, last }
    }
}
