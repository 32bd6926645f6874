ghost use Rattle.std.specs.Prelude.{◌≡◌, ◌≢◌, ◌↔◌, ◌≤◌, ◌+◌, length, Err, IfOk, IfErr, OnOk, OnErr};
ghost use Rattle.key_class.specs.declared.refusal.Refusal.TheVariants.{NoSuchRow, AlreadyDeleted, CommitsFull, FindersFull, OutOfMemory};
ghost use Rattle.change_list.specs.Changes.{NamesNoRow, NamesDead};
ghost use Rattle.writes.specs.Ending.{AddsDeath, KeepsDeaths};
ghost use Rattle.writes.specs.Events.{EndsByEvents};
ghost use Rattle.writes.specs.declared.ending.Ending.TheVariants as Ending;
ghost use Rattle.writes.specs.EndVisits.{LacksCommit, LacksOnlyFinder, RefusesDelete};
ghost use Rattle.world.specs.Resting.{Rests};
ghost use Rattle.world.specs.States.{AddsCommit};

use crate::ending::{Ending, check_ending, end_row};
use change_list::Write;
use key_class::{KeyClass, Refusal};
use mailbox::Outlet;
use world::World;

/// Deletes a row: a finder goes from the leaf on which the row was seen last, or from the root, to the leaf that
/// holds the row (Kornacker, Mohan, Hellerstein 1997). The finder ends in any case.
///
/// # Errors
/// `NoSuchRow` if no insert or move has the number, else `AlreadyDeleted`, else `CommitsFull`, else `FindersFull` if
/// 64 finders are open or the last serial was given; or `OutOfMemory`. Nothing is changed then, except that with
/// `OutOfMemory` a finder's serial may be used up.
pub fn delete<C: KeyClass, O: Outlet<C::Key>>(
    world: &mut World<C, O>,
    row: u64,
) -> Result<u64, Refusal>
    ensures number { IfOk result (λ n. n ≡ length world.old.commits + 1) }
    ensures committed { OnOk result (AddsCommit world.old (Write.Delete row) world.new) }
    ensures events { IfOk result (λ n.
        EndsByEvents O.Consumer C.rules O.rule world.old row Ending.Delete n world.new) }
    ensures unchanged { OnErr result (world.new.commits ≡ world.old.commits) }
    ensures rests { Rests C.rules O.rule world.old world.new }
    ensures dead { OnOk result (AddsDeath world.old row world.new) }
    ensures dead_kept { OnErr result (KeepsDeaths world.old world.new) }
    ensures pages { length world.new.search.tree.pages ≡ length world.old.search.tree.pages }
    ensures no_such_row { (result ≡ Err NoSuchRow) ↔ NamesNoRow world.old.commits row }
    ensures already_deleted { (result ≡ Err AlreadyDeleted) ↔ NamesDead world.old.commits row }
    ensures full { (result ≡ Err CommitsFull) ↔ LacksCommit world.old row }
    ensures refusals { IfErr result (RefusesDelete world.old row) }
    ensures finders_full { (result ≡ Err FindersFull) ↔ LacksOnlyFinder world.old row }
    ensures finders { world.new.finders ≡ world.old.finders }
    ensures found { OnOk result (world.new.last_finder ≡ world.old.last_finder + 1) }
    ensures unfound { IfErr result (λ why. why ≢ OutOfMemory → world.new ≡ world.old) }
    ensures last_finder { world.new.last_finder ≤ world.old.last_finder + 1 }
{
    check_ending(world, row)?;
    end_row(world, row, Ending::Delete)
}
