//! An insertion made visit by visit. Between visits others may change the world.
ghost use Rattle.std.specs.Prelude.{◌≡◌, ◌↔◌, Err, IfOk, IfErr, OnErr};
ghost use Rattle.world.specs.Promises.{KeepsMailboxes};
ghost use Rattle.world.specs.States.{IsFullOfCommits, IsSoundWorld};
ghost use Rattle.world.specs.Visits.{IsOneEvent};
ghost use Rattle.writes.specs.PageSteps.{IsFullOrWanting};
ghost use Rattle.writes.specs.InsertVisits.{Goes};

use crate::approach::{Approach, approach_leaf};
use crate::page_steps::place;
use key_class::{KeyClass, Refusal};
use mailbox::Outlet;
use std::alloc::Global;
use world::{Stamped, World};

/// How far an insertion has come.
#[derive(Drop)]
pub enum Way<K> {
    /// Its way goes on at this page.
    On(u32),
    /// This page is full. Once it is split, the way goes on where it was.
    Split(u32),
    /// The row was placed.
    Placed(Stamped<K>),
}

/// One visit of an insertion to a world, which makes at most one event. Its way goes down until an event is due, and
/// makes that; at a leaf that takes the key it places the row.
///
/// # Errors
/// `CommitsFull` if there are as many commits as allowed, `PagesFull` or `OutOfMemory`. Nothing is changed then.
pub fn insert_step<C: KeyClass, O: Outlet<C::Key>>(
    alloc: Global,
    world: &mut World<C, O>,
    seat: u32,
    page: u32,
    key: C::Key,
    tag: u64,
) -> Result<Way<C::Key>, Refusal>
    ensures goes { IfOk result (λ way. Goes C.rules world.old seat page key tag way world.new) }
    ensures one_event { IsOneEvent O.Consumer C.rules O.rule seat world.old world.new }
    ensures sound { IsSoundWorld C.rules.is_cover world.new }
    ensures mailboxes { KeepsMailboxes C.rules O.rule world.old world.new }
    ensures unchanged { OnErr result (world.new ≡ world.old) }
    ensures full { (result ≡ Err Refusal.CommitsFull) ↔ IsFullOfCommits world.old }
    ensures refusals { IfErr result (IsFullOrWanting world.old.search) }
{
    world.recall_soundness();
    if world.limit() <= world.commits() {
        return Err(Refusal::CommitsFull);
    }
    match approach_leaf(alloc, world, seat, page, key)? {
        Approach::On(next) => Ok(Way::On(next)),
        Approach::Split(full) => Ok(Way::Split(full)),
        Approach::At(leaf) => Ok(Way::Placed(place(world, seat, leaf, key, tag)?)),
    }
}
