//! A deletion made visit by visit, and the end of a move. Between visits others may change the world.
ghost use Rattle.std.specs.Prelude.{◌≡◌, ◌↔◌, ◌+◌, Err, IfOk, IfErr, OnOk, OnErr};
ghost use Rattle.key_class.specs.declared.refusal.Refusal.TheVariants.{NoSuchRow, AlreadyDeleted, FindersFull};
ghost use Rattle.change_list.specs.Changes.{NamesNoRow, NamesLive, NamesDead};
ghost use Rattle.writes.specs.Ending.{Looks, MayEnd};
ghost use Rattle.writes.specs.declared.ending.Ending.TheVariants as Ending;
ghost use Rattle.writes.specs.EndVisits.{IsFullOfFinders, LacksFinder, RefusesCommit, RefusesFinder, RefusesFinding, RefusesSeeking, Seeks};
ghost use Rattle.world.specs.Promises.{KeepsMailboxes};
ghost use Rattle.world.specs.States.{IsSoundWorld};
ghost use Rattle.world.specs.Visits.{IsOneEvent};

use crate::ending::{Ending, visit};
use change_list::Status;
use key_class::{KeyClass, Refusal};
use mailbox::Outlet;
use world::{Stamped, World};

/// How far the search for a row to end has come.
#[derive(Clone, Copy)]
pub enum Search<K> {
    /// The finder goes on.
    On,
    /// No finder of the row has this serial.
    Lost,
    /// The row has ended.
    Ended(Stamped<K>),
}

/// The first visit of a deletion: opens a finder of the row, and gives its serial.
///
/// # Errors
/// `NoSuchRow` if no insert or move has the number, else `AlreadyDeleted`, else `FindersFull` if 64 finders are open
/// or the last serial was given, or `OutOfMemory`. Nothing is changed then.
pub fn find_row<C: KeyClass, O: Outlet<C::Key>>(
    world: &mut World<C, O>,
    row: u64,
) -> Result<u64, Refusal>
    ensures serial { IfOk result (λ finder. finder ≡ world.old.last_finder + 1) }
    ensures looks { OnOk result (Looks world.old row world.new) }
    ensures one_event { IsOneEvent O.Consumer C.rules O.rule 0 world.old world.new }
    ensures sound { IsSoundWorld C.rules.is_cover world.new }
    ensures mailboxes { KeepsMailboxes C.rules O.rule world.old world.new }
    ensures unchanged { OnErr result (world.new ≡ world.old) }
    ensures no_such_row { (result ≡ Err NoSuchRow) ↔ NamesNoRow world.old.commits row }
    ensures already_deleted { (result ≡ Err AlreadyDeleted) ↔ NamesDead world.old.commits row }
    ensures finders_full { (result ≡ Err FindersFull) ↔ LacksFinder world.old row }
    ensures refusals { IfErr result (RefusesFinding world.old row) }
{
    world.recall_soundness();
    match world.status(row) {
        Status::NeverIssued => Err(Refusal::NoSuchRow),
        Status::Dead => Err(Refusal::AlreadyDeleted),
        Status::Live => find_live_row(world, row),
    }
}

/// Opens a finder of a live row, and gives its serial.
fn find_live_row<C: KeyClass, O: Outlet<C::Key>>(
    world: &mut World<C, O>,
    row: u64,
) -> Result<u64, Refusal>
    requires live { NamesLive world.old.commits row }
    ensures serial { IfOk result (λ finder. finder ≡ world.old.last_finder + 1) }
    ensures looks { OnOk result (Looks world.old row world.new) }
    ensures one_event { IsOneEvent O.Consumer C.rules O.rule 0 world.old world.new }
    ensures sound { IsSoundWorld C.rules.is_cover world.new }
    ensures mailboxes { KeepsMailboxes C.rules O.rule world.old world.new }
    ensures unchanged { OnErr result (world.new ≡ world.old) }
    ensures full { (result ≡ Err FindersFull) ↔ IsFullOfFinders world.old }
    ensures refusals { IfErr result (RefusesFinder world.old) }
{
    let finder = world.open_finder(row)?;
    Ok(finder)
}

/// A later visit of a deletion: the next step of a finder of the row, which deletes the row if it meets it.
///
/// # Errors
/// `NoSuchRow`, `AlreadyDeleted`, `CommitsFull` if there are as many commits as allowed and the row is met, or
/// `OutOfMemory`. Nothing is changed then.
pub fn seek_row<C: KeyClass, O: Outlet<C::Key>>(
    world: &mut World<C, O>,
    seat: u32,
    finder: u64,
    row: u64,
) -> Result<Search<C::Key>, Refusal>
    ensures seeks { IfOk result (λ search.
        Seeks C.rules O.rule world.old seat finder row Ending.Delete search world.new) }
    ensures one_event { IsOneEvent O.Consumer C.rules O.rule seat world.old world.new }
    ensures sound { IsSoundWorld C.rules.is_cover world.new }
    ensures mailboxes { KeepsMailboxes C.rules O.rule world.old world.new }
    ensures unchanged { OnErr result (world.new ≡ world.old) }
    ensures no_such_row { (result ≡ Err NoSuchRow) ↔ NamesNoRow world.old.commits row }
    ensures already_deleted { (result ≡ Err AlreadyDeleted) ↔ NamesDead world.old.commits row }
    ensures refusals { IfErr result (RefusesSeeking world.old row) }
{
    world.recall_soundness();
    match world.status(row) {
        Status::NeverIssued => Err(Refusal::NoSuchRow),
        Status::Dead => Err(Refusal::AlreadyDeleted),
        Status::Live => end_step(world, seat, finder, row, Ending::Delete),
    }
}

/// A later visit of a deletion or a move: the next step of a finder of the row, which ends the row in this way if it
/// meets it.
///
/// # Errors
/// `CommitsFull` if there are as many commits as allowed and the row is met, or `OutOfMemory`. Nothing is changed
/// then.
pub fn end_step<C: KeyClass, O: Outlet<C::Key>>(
    world: &mut World<C, O>,
    seat: u32,
    finder: u64,
    row: u64,
    ending: Ending<C::Key>,
) -> Result<Search<C::Key>, Refusal>
    requires live { NamesLive world.old.commits row }
    requires may { MayEnd C.rules.is_cover world.old.search ending }
    ensures seeks { IfOk result (λ search.
        Seeks C.rules O.rule world.old seat finder row ending search world.new) }
    ensures one_event { IsOneEvent O.Consumer C.rules O.rule seat world.old world.new }
    ensures sound { IsSoundWorld C.rules.is_cover world.new }
    ensures mailboxes { KeepsMailboxes C.rules O.rule world.old world.new }
    ensures unchanged { OnErr result (world.new ≡ world.old) }
    ensures refusals { IfErr result (RefusesCommit world.old) }
{
    world.recall_soundness();
    match world.finder_row(finder) {
        None => return Ok(Search::Lost),
        Some(found) => {
            if found != row {
                return Ok(Search::Lost);
            }
        }
    }
    match visit(world, seat, finder, ending)? {
        Some(stamp) => Ok(Search::Ended(stamp)),
        None => Ok(Search::On),
    }
}
