//! Whole lists of events.
ghost use Rattle.std.specs.Prelude.{◌≡◌, ◌↔◌, length, IfOk, IfErr};
ghost use Rattle.key_class.specs.Refusals.{IsEither};
ghost use Rattle.change_list.specs.Configs.{IsWithinLimits};
ghost use Rattle.world.specs.Steps.{IsRun};
ghost use Rattle.world.specs.Traces.{AreFaithful};

use crate::event::Event;
use crate::reply::Reply;
use crate::world::World;
use change_list::Config;
use key_class::{KeyClass, Refusal};
use mailbox::Tray;
use std::alloc::Global;

/// Gives a new world these events, one after the other, and returns its replies, one for each event.
///
/// Whatever the events are, at each moment of their trace: the commits are a legal list, numbered in order; what each
/// cursor has delivered begins a listing for its query from its opening to the last commit; each mark that was taken
/// shows that everything up to its commit was delivered, and was asked for by an event of its own; and a closed
/// cursor delivers nothing more.
///
/// # Errors
/// `BadConfig` if a limit of the configuration is out of range, else `OutOfMemory`.
pub fn run<C: KeyClass>(
    alloc: Global,
    config: Config,
    events: &[Event<C::Key, C::Atom>],
) -> Result<Vec<Reply<C::Key, ()>>, Refusal>
    ensures one_each { IfOk result (λ replies. length replies.items ≡ length events.now) }
    ensures steps { IfOk result (λ replies. IsRun C.rules config events.now replies.items) }
    ensures faithful { IfOk result (λ replies. AreFaithful C.rules events.now replies.items) }
    ensures bad { (result ≡ Err Refusal.BadConfig) ↔ (¬ IsWithinLimits config) }
    ensures refusals { IfErr result (IsEither Refusal.BadConfig Refusal.OutOfMemory) }
{
    let mut world = World::<C, Tray<C::Key>>::new(alloc, config)?;
    let mut replies = Vec::with_capacity(alloc, events.len())?;
    for event in events {
        let reply = world.step(event.copy(alloc)?);
        replies.push(reply)?;
    }
    Ok(replies)
}
