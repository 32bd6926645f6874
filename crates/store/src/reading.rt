//! The next item of a cursor.
ghost use Rattle.std.specs.Prelude.{◌≡◌, None, IfOk, IfErr};
ghost use Rattle.store.specs.Worlds.{IsFilled, IsQuiet, NextsIn, RefusesNextIn};
ghost use Rattle.split.specs.Tests.{first_failing};
ghost use Rattle.world.specs.Steps.{TakesItem, cursor_tests};

use change_list::Item;
use cursor::Turned;
use key_class::{KeyClass, Refusal};
use mailbox::Tray;
use world::World;

/// Turns a cursor until it gives an item, or has nothing to give.
pub fn next_item<C: KeyClass>(
    world: &mut World<C, Tray<C::Key>>,
    c: u64,
) -> Result<Option<Item<C::Key>>, Refusal>
    requires quiet { IsQuiet world.old }
    ensures quiet { IsQuiet world.new }
    ensures ok { IfOk result (λ item. NextsIn C.rules world.old c item world.new) }
    ensures err { IfErr result (λ why. RefusesNextIn C.rules world.old c why world.new) }
{
    world.recall_soundness();
    'turning: loop {
        match world.turn_cursor(c) {
            Ok(Turned::Offered) => return Ok(Some(take_item(world, c))),
            Ok(Turned::Visited(_)) => {}
            Ok(Turned::Passed(_)) => {}
            Err(refusal) => match refusal {
                Refusal::Idle => return Ok(None),
                _ => return Err(refusal),
            },
        }
    }
}

/// Takes the item from the cursor's mailbox.
fn take_item<C: KeyClass>(world: &mut World<C, Tray<C::Key>>, c: u64) -> Item<C::Key>
    requires open { first_failing (cursor_tests world.old c) ≡ None }
    requires filled { IsFilled world.old c }
    ensures { TakesItem world.old c result world.new }
{
    let Ok(Some(item)) = world.take_front(c) else {
        unreachable!()
    };
    item
}
