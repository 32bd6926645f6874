//! Ending a live row: a finder goes to the row, and ends with it.
ghost use Rattle.std.specs.Prelude.{◌≡◌, ◌≢◌, ◌↔◌, ◌<◌, length, Err, IfOk, IfErr, OnOk, OnErr};
ghost use Rattle.key_class.specs.declared.refusal.Refusal.TheVariants.{NoSuchRow, AlreadyDeleted, CommitsFull, FindersFull, OutOfMemory};
ghost use Rattle.change_list.specs.Changes.{NamesNoRow, NamesLive, NamesDead};
ghost use Rattle.writes.specs.Ending.{Ends, Leaves, MayEnd, SeeksToEnd};
ghost use Rattle.writes.specs.Events.{EndsByEvents};
ghost use Rattle.writes.specs.EndVisits.{IsFullOfFinders, LacksCommit, RefusesEnding, RefusesFinder};

use change_list::Status;
use key_class::{KeyClass, Refusal};
use mailbox::Outlet;
use world::{Event, Stamped, World};

/// How a row ends when a finder meets it.
#[derive(Clone, Copy)]
pub enum Ending<K> {
    /// It is deleted.
    Delete,
    /// It is moved: to this leaf, with this key.
    Move(u64, K),
}

/// A visit of a finder, for a seat, which ends its row in this way if it meets it.
///
/// # Errors
/// Those of the events `Seek` and `Move`; nothing is changed then.
pub(crate) fn visit<C: KeyClass, O: Outlet<C::Key>>(
    world: &mut World<C, O>,
    seat: u32,
    finder: u64,
    ending: Ending<C::Key>,
) -> Result<Option<Stamped<C::Key>>, Refusal>
    ensures { SeeksToEnd O.Consumer C.rules O.rule
        seat world.old finder ending result world.new }
{
    match ending {
        Ending::Delete => world.seek_to_delete(seat, finder),
        Ending::Move(leaf, key) => world.seek_to_move(seat, finder, leaf, key),
    }
}

/// Checks that a row may end: it is live, and there is room for one more commit.
///
/// # Errors
/// `NoSuchRow` if no insert or move has the number, else `AlreadyDeleted`, else `CommitsFull`.
pub fn check_ending<C: KeyClass, O: Outlet<C::Key>>(
    world: &World<C, O>,
    row: u64,
) -> Result<(), Refusal>
    ensures live { OnOk result (NamesLive world.now.commits row) }
    ensures room { OnOk result (length world.now.commits < world.now.limit) }
    ensures no_such_row { (result ≡ Err NoSuchRow) ↔ NamesNoRow world.now.commits row }
    ensures already_deleted { (result ≡ Err AlreadyDeleted) ↔ NamesDead world.now.commits row }
    ensures full { (result ≡ Err CommitsFull) ↔ LacksCommit world.now row }
    ensures refusals { IfErr result (RefusesEnding world.now row) }
{
    match world.status(row) {
        Status::NeverIssued => return Err(Refusal::NoSuchRow),
        Status::Dead => return Err(Refusal::AlreadyDeleted),
        Status::Live => {}
    }
    if world.commits() >= world.limit() {
        return Err(Refusal::CommitsFull);
    }
    Ok(())
}

/// Lets a finder go to the leaf of a live row and end the row there, and gives the commit's number. The finder begins
/// at that leaf, if it is known, and ends in any case.
///
/// # Errors
/// `FindersFull` if 64 finders are open or the last serial was given, or `OutOfMemory`. Nothing is changed then,
/// except that with `OutOfMemory` a finder's serial may be used up.
pub fn end_row<C: KeyClass, O: Outlet<C::Key>>(
    world: &mut World<C, O>,
    row: u64,
    ending: Ending<C::Key>,
) -> Result<u64, Refusal>
    requires live { NamesLive world.old.commits row }
    requires room { length world.old.commits < world.old.limit }
    requires may { MayEnd C.rules.is_cover world.old.search ending }
    ensures ended { IfOk result (λ n. Ends C.rules O.rule world.old row ending n world.new) }
    ensures events { IfOk result (λ n.
        EndsByEvents O.Consumer C.rules O.rule world.old row ending n world.new) }
    ensures left { OnErr result (Leaves world.old world.new) }
    ensures unfound { IfErr result (λ why. why ≢ OutOfMemory → world.new ≡ world.old) }
    ensures full { (result ≡ Err FindersFull) ↔ IsFullOfFinders world.old }
    ensures refusals { IfErr result (RefusesFinder world.old) }
{
    let finder = world.open_finder_near(row)?;
    'seeking: loop {
        match visit(world, 0, finder, ending) {
            Ok(Some(stamp)) => return Ok(stamp.number()),
            Ok(None) => {}
            Err(why) => {
                let _unfound = world.step(Event::Unfind(finder));
                return Err(why);
            }
        }
    }
}
