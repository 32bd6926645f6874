ghost use Rattle.std.specs.Prelude.{◌≡◌, ◌≢◌, ◌↔◌, ◌≤◌, ◌+◌, length, Err, IfOk, IfErr, OnOk, OnErr, IsPermutation};
ghost use Rattle.key_class.specs.declared.refusal.Refusal.TheVariants.{NoSuchRow, AlreadyDeleted, CommitsFull, FindersFull, OutOfMemory};
ghost use Rattle.change_list.specs.Changes.{NamesNoRow, NamesDead};
ghost use Rattle.writes.specs.Ending.{AddsDeath};
ghost use Rattle.writes.specs.EndVisits.{LacksCommit, LacksOnlyFinder};
ghost use Rattle.world.specs.Resting.{Rests, deaths};
ghost use Rattle.world.specs.States.{AddsCommit};
ghost use Rattle.writes.specs.Moves.{IsToldFirst, RefusesMove};

use crate::ending::{Ending, check_ending, end_row};
use crate::way_down::make_way;
use change_list::Write;
use key_class::{KeyClass, Refusal};
use mailbox::Outlet;
use std::alloc::Global;
use world::World;

/// Moves a row: gives it a new number and another key, in one commit. First a way is made to a leaf that takes the
/// key, as for an insertion; then a finder goes, as for a deletion, to the leaf that holds the row, which may be the
/// same one (Kornacker, Mohan, Hellerstein 1997). The finder ends in any case.
///
/// # Errors
/// `NoSuchRow` if no insert or move has the number, else `AlreadyDeleted`, else `CommitsFull`, else `FindersFull` if
/// 64 finders are open or the last serial was given; nothing is changed then. Else `PagesFull` if fewer than two
/// pages are left when it returns, or `OutOfMemory`. No row is moved then; the steps made on the way are kept, and
/// with `OutOfMemory` a finder's serial may be used up.
pub fn move_row<C: KeyClass, O: Outlet<C::Key>>(
    alloc: Global,
    world: &mut World<C, O>,
    row: u64,
    key: C::Key,
) -> Result<u64, Refusal>
    ensures number { IfOk result (λ n. n ≡ length world.old.commits + 1) }
    ensures committed { OnOk result (AddsCommit world.old (Write.Move row key) world.new) }
    ensures unchanged { OnErr result (world.new.commits ≡ world.old.commits) }
    ensures rests { Rests C.rules O.rule world.old world.new }
    ensures dead { OnOk result (AddsDeath world.old row world.new) }
    ensures dead_kept { OnErr result (IsPermutation
        (deaths world.old.search.tree) (deaths world.new.search.tree)) }
    ensures no_such_row { (result ≡ Err NoSuchRow) ↔ NamesNoRow world.old.commits row }
    ensures already_deleted { (result ≡ Err AlreadyDeleted) ↔ NamesDead world.old.commits row }
    ensures full { (result ≡ Err CommitsFull) ↔ LacksCommit world.old row }
    ensures finders_full { (result ≡ Err FindersFull) ↔ LacksOnlyFinder world.old row }
    ensures untouched { IfErr result (λ why. IsToldFirst why → world.new ≡ world.old) }
    ensures refusals { IfErr result (RefusesMove world.old world.new.search row) }
    ensures finders { world.new.finders ≡ world.old.finders }
    ensures found { OnOk result (world.new.last_finder ≡ world.old.last_finder + 1) }
    ensures unfound { IfErr result (λ why.
        why ≢ OutOfMemory → world.new.last_finder ≡ world.old.last_finder) }
    ensures last_finder { world.new.last_finder ≤ world.old.last_finder + 1 }
{
    check_ending(world, row)?;
    if world.is_full_of_finders() {
        return Err(Refusal::FindersFull);
    }
    let leaf = make_way(alloc, world, key)?;
    end_row(world, row, Ending::Move(u64::from(leaf), key))
}
