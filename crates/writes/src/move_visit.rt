//! A move made visit by visit. Between visits others may change the world.
ghost use Rattle.std.specs.Prelude.{◌≡◌, ◌↔◌, ◌<◌, length, Err, IfOk, IfErr, OnErr};
ghost use Rattle.key_class.specs.declared.refusal.Refusal.TheVariants.{NoSuchRow, AlreadyDeleted, CommitsFull};
ghost use Rattle.change_list.specs.Changes.{NamesNoRow, NamesLive, NamesDead};
ghost use Rattle.writes.specs.PageSteps.{MayPlace};
ghost use Rattle.writes.specs.EndVisits.{LacksCommit};
ghost use Rattle.world.specs.Promises.{KeepsMailboxes};
ghost use Rattle.world.specs.States.{IsSoundWorld};
ghost use Rattle.world.specs.Visits.{IsOneEvent};
ghost use Rattle.writes.specs.Moves.{RefusesMoving, Relocates, SeeksFrom};

use crate::approach::{Approach, approach_leaf};
use crate::end_visit::{Search, end_step};
use crate::ending::{Ending, check_ending};
use key_class::{KeyClass, Refusal};
use mailbox::Outlet;
use std::alloc::Global;
use world::{Stamped, World};

/// How far a move has come.
#[derive(Clone, Copy)]
pub enum Moving<K> {
    /// The way of its key, or its finder, goes on at this page.
    On(u32),
    /// This page is full. Once it is split, the way goes on where it was.
    Split(u32),
    /// A leaf takes the key, but no finder of the row has the serial.
    Lost,
    /// The row was moved.
    Moved(Stamped<K>),
}

/// One visit of a move to a world, which makes at most one event: the next step of the way to a leaf that takes the
/// key, from the page that the way has reached; or, once it has reached that leaf, the next step of the finder, which
/// moves the row there if it meets it. The leaf is tested again at each visit, and if it no longer takes the key the
/// way begins again.
///
/// # Errors
/// `NoSuchRow` if no insert or move has the number, else `AlreadyDeleted`, else `CommitsFull`, each tested again at
/// each visit; else `PagesFull` or `OutOfMemory`. Nothing is changed then.
pub fn move_step<C: KeyClass, O: Outlet<C::Key>>(
    alloc: Global,
    world: &mut World<C, O>,
    seat: u32,
    page: u32,
    finder: u64,
    row: u64,
    key: C::Key,
) -> Result<Moving<C::Key>, Refusal>
    ensures goes { IfOk result (λ moving.
        Relocates C.rules O.rule world.old seat page finder row key moving world.new) }
    ensures one_event { IsOneEvent O.Consumer C.rules O.rule seat world.old world.new }
    ensures sound { IsSoundWorld C.rules.is_cover world.new }
    ensures mailboxes { KeepsMailboxes C.rules O.rule world.old world.new }
    ensures unchanged { OnErr result (world.new ≡ world.old) }
    ensures no_such_row { (result ≡ Err NoSuchRow) ↔ NamesNoRow world.old.commits row }
    ensures already_deleted { (result ≡ Err AlreadyDeleted) ↔ NamesDead world.old.commits row }
    ensures full { (result ≡ Err CommitsFull) ↔ LacksCommit world.old row }
    ensures refusals { IfErr result (RefusesMoving world.old row) }
{
    world.recall_soundness();
    check_ending(world, row)?;
    match approach_leaf(alloc, world, seat, page, key)? {
        Approach::On(next) => Ok(Moving::On(next)),
        Approach::Split(full) => Ok(Moving::Split(full)),
        Approach::At(leaf) => seek_from(world, seat, leaf, finder, row, key),
    }
}

/// The next step of a move's finder, once a leaf takes the key.
fn seek_from<C: KeyClass, O: Outlet<C::Key>>(
    world: &mut World<C, O>,
    seat: u32,
    leaf: u32,
    finder: u64,
    row: u64,
    key: C::Key,
) -> Result<Moving<C::Key>, Refusal>
    requires live { NamesLive world.old.commits row }
    requires room { length world.old.commits < world.old.limit }
    requires may { MayPlace C.rules.is_cover world.old.search leaf key }
    ensures seeks { IfOk result (λ moving.
        SeeksFrom C.rules O.rule world.old seat leaf finder row key moving world.new) }
    ensures one_event { IsOneEvent O.Consumer C.rules O.rule seat world.old world.new }
    ensures sound { IsSoundWorld C.rules.is_cover world.new }
    ensures mailboxes { KeepsMailboxes C.rules O.rule world.old world.new }
    ensures unchanged { OnErr result (world.new ≡ world.old) }
    ensures refusals { IfErr result (λ why. why ≡ Refusal.OutOfMemory) }
{
    match end_step(world, seat, finder, row, Ending::Move(u64::from(leaf), key))? {
        Search::On => Ok(Moving::On(leaf)),
        Search::Lost => Ok(Moving::Lost),
        Search::Ended(stamp) => Ok(Moving::Moved(stamp)),
    }
}
