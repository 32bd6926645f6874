ghost use Rattle.std.specs.Prelude.{◌≡◌, length, true, false, Ok, IfOk, IfErr, OnErr};
ghost use Rattle.split.specs.Tests.{is_leaf};
ghost use Rattle.world.specs.Resting.{Rests};
ghost use Rattle.world.specs.States.{IsSoundWorld};
ghost use Rattle.world.specs.Steps.{SweepsLeaf};
ghost use Rattle.writes.specs.Sweeping.{SweepsAll, SweepsSome};

use key_class::{KeyClass, Refusal};
use mailbox::Outlet;
use world::World;

/// Sweeps the page with a number: removes the dead rows on it that no cursor with a scan in progress needs, and
/// returns how many there were. A page that isn't a leaf has none, and neither has one that doesn't exist.
///
/// # Errors
/// `OutOfMemory`; nothing is changed then.
pub fn sweep_page<C: KeyClass, O: Outlet<C::Key>>(
    world: &mut World<C, O>,
    page: u64,
) -> Result<u64, Refusal>
    ensures rests { Rests C.rules O.rule world.old world.new }
    ensures sound { IsSoundWorld C.rules.is_cover world.new }
    ensures commits { world.new.commits ≡ world.old.commits }
    ensures pages { length world.new.search.tree.pages ≡ length world.old.search.tree.pages }
    ensures finders { world.new.finders ≡ world.old.finders }
    ensures last_finder { world.new.last_finder ≡ world.old.last_finder }
    ensures swept { is_leaf world.old.search.tree page ≡ true
        → IfOk result (λ number. SweepsLeaf world.old page number world.new) }
    ensures no_leaf { is_leaf world.old.search.tree page ≡ false → result ≡ Ok 0 }
    ensures untouched { is_leaf world.old.search.tree page ≡ false → world.new ≡ world.old }
    ensures partly { SweepsSome world.old world.new }
    ensures refused { OnErr result (world.new ≡ world.old) }
    ensures refusals { IfErr result (λ why. why ≡ Refusal.OutOfMemory) }
{
    world.recall_soundness();
    if !world.search().is_leaf(page) {
        return Ok(0);
    }
    let number = world.sweep_page(page)?;
    Ok(number)
}

/// Sweeps every leaf: removes the dead rows that no cursor with a scan in progress needs, and gives their number.
///
/// # Errors
/// `OutOfMemory`; some of those rows may have been removed by then.
pub fn sweep_all<C: KeyClass, O: Outlet<C::Key>>(world: &mut World<C, O>) -> Result<u64, Refusal>
    ensures rests { Rests C.rules O.rule world.old world.new }
    ensures commits { world.new.commits ≡ world.old.commits }
    ensures pages { length world.new.search.tree.pages ≡ length world.old.search.tree.pages }
    ensures finders { world.new.finders ≡ world.old.finders }
    ensures last_finder { world.new.last_finder ≡ world.old.last_finder }
    ensures swept { IfOk result (λ number. SweepsAll world.old number world.new) }
    ensures partly { OnErr result (SweepsSome world.old world.new) }
    ensures refusals { IfErr result (λ why. why ≡ Refusal.OutOfMemory) }
{
    let mut number = 0;
    for page in 0..world.pages() {
        number += sweep_page(world, page)?;
    }
    Ok(number)
}
