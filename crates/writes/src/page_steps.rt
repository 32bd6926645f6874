//! Single steps of an insertion.
ghost use Rattle.std.specs.Prelude.{◌≡◌, ◌<◌, length, IfOk, IfErr, OnOk, OnErr, IsPermutation};
ghost use Rattle.change_list.specs.declared.write.Write.TheVariants.{Insert};
ghost use Rattle.world.specs.Promises.{KeepsMailboxes};
ghost use Rattle.world.specs.Resting.{Rests, deaths};
ghost use Rattle.world.specs.States.{AddsCommit, IsNextStamp, IsSoundWorld};
ghost use Rattle.world.specs.Steps.{Places};
ghost use Rattle.world.specs.Visits.{IsOneEvent};
ghost use Rattle.writes.specs.PageSteps.{MayMove, MayPlace, Moves, MovesPages, IsWanting};

use key_class::{KeyClass, Refusal};
use mailbox::Outlet;
use world::{Event, Reply, Stamped, World};

/// Makes a step that changes only pages, for a seat.
///
/// # Errors
/// `PagesFull` if fewer than two pages are left, or `OutOfMemory`. Nothing is changed then.
pub(crate) fn move_pages<C: KeyClass, O: Outlet<C::Key>>(
    world: &mut World<C, O>,
    seat: u32,
    event: Event<C::Key, C::Atom>,
) -> Result<(), Refusal>
    requires may { MayMove C.rules.is_cover world.old event }
    ensures moved { OnOk result (Moves C.rules.union_of world.old event world.new) }
    ensures unchanged { OnErr result (world.new ≡ world.old) }
    ensures kept { MovesPages C.rules O.rule world.old world.new }
    ensures one_event { IsOneEvent O.Consumer C.rules O.rule seat world.old world.new }
    ensures sound { IsSoundWorld C.rules.is_cover world.new }
    ensures mailboxes { KeepsMailboxes C.rules O.rule world.old world.new }
    ensures refusals { IfErr result (IsWanting world.new.search) }
{
    match world.step_as(seat, event) {
        Reply::Refused(why) => Err(why),
        _ => Ok(()),
    }
}

/// Adds a row to a leaf, for a seat.
///
/// # Errors
/// Memory ran out; nothing is changed then.
pub(crate) fn place<C: KeyClass, O: Outlet<C::Key>>(
    world: &mut World<C, O>,
    seat: u32,
    leaf: u32,
    key: C::Key,
    tag: u64,
) -> Result<Stamped<C::Key>, Refusal>
    requires passes { MayPlace C.rules.is_cover world.old.search leaf key }
    requires room { length world.old.commits < world.old.limit }
    ensures placed { IfOk result (λ stamp.
        Places seat world.old leaf key tag stamp world.new) }
    ensures stamped { IfOk result (IsNextStamp world.old seat (Insert key tag)) }
    ensures committed { OnOk result (AddsCommit world.old (Insert key tag) world.new) }
    ensures unchanged { OnErr result (world.new ≡ world.old) }
    ensures one_event { IsOneEvent O.Consumer C.rules O.rule seat world.old world.new }
    ensures sound { IsSoundWorld C.rules.is_cover world.new }
    ensures mailboxes { KeepsMailboxes C.rules O.rule world.old world.new }
    ensures rests { Rests C.rules O.rule world.old world.new }
    ensures dead { IsPermutation (deaths world.old.search.tree) (deaths world.new.search.tree) }
    ensures finders { world.new.finders ≡ world.old.finders }
    ensures last_finder { world.new.last_finder ≡ world.old.last_finder }
    ensures refusals { IfErr result (λ why. why ≡ Refusal.OutOfMemory) }
{
    world.recall_soundness();
    let stamp = world.place_row(seat, u64::from(leaf), key, tag)?;
    Ok(stamp)
}
