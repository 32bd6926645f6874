ghost use Rattle.std.specs.Prelude.{◌≡◌, ◌↔◌, ◌+◌, length, Err, IfOk, IfErr, OnOk, OnErr, IsPermutation};
ghost use Rattle.change_list.specs.declared.write.Write.TheVariants.{Insert};
ghost use Rattle.world.specs.Resting.{Rests, deaths};
ghost use Rattle.world.specs.States.{AddsCommit, IsFullOfCommits};
ghost use Rattle.writes.specs.PageSteps.{IsFullOrWanting, IsWanting, MayPlace, MovesPages};
ghost use Rattle.writes.specs.Ways.{HasCome, PlacesByWay};

use crate::approach::resumed;
use crate::page_steps::{move_pages, place};
use descent::{WayStep, next_step};
use key_class::{KeyClass, Refusal};
use mailbox::Outlet;
use std::alloc::Global;
use world::{Event, World};

/// Adds a row to a world, and gives the number of its commit. The way goes down from the root, at each page by the
/// branch whose bound the key enlarges least, to a leaf that takes the row (Guttman 1984). On the way a full root
/// grows, a full child is split and a sibling that is owed is posted, after which the way goes on at the page where
/// it was, or at the root if that page is now full; a child whose bound doesn't cover the key is enlarged (Kornacker,
/// Mohan and Hellerstein 1997). Each of these is one step of the world, which open cursors and finders survive.
///
/// # Errors
/// `CommitsFull` if there are as many commits as allowed, `PagesFull` if fewer than two pages are left when it
/// returns, or `OutOfMemory`. No row is added then; the steps made on the way are kept.
pub fn insert<C: KeyClass, O: Outlet<C::Key>>(
    alloc: Global,
    world: &mut World<C, O>,
    key: C::Key,
    tag: u64,
) -> Result<u64, Refusal>
    ensures number { IfOk result (λ number. number ≡ length world.old.commits + 1) }
    ensures committed { OnOk result (AddsCommit world.old (Insert key tag) world.new) }
    ensures way { OnOk result (PlacesByWay C.rules key world.old tag world.new) }
    ensures unchanged { OnErr result (world.new.commits ≡ world.old.commits) }
    ensures rests { Rests C.rules O.rule world.old world.new }
    ensures dead { IsPermutation (deaths world.old.search.tree) (deaths world.new.search.tree) }
    ensures finders { world.new.finders ≡ world.old.finders }
    ensures last_finder { world.new.last_finder ≡ world.old.last_finder }
    ensures full { (result ≡ Err Refusal.CommitsFull) ↔ IsFullOfCommits world.old }
    ensures refusals { IfErr result (IsFullOrWanting world.new.search) }
{
    if world.limit() <= world.commits() {
        return Err(Refusal::CommitsFull);
    }
    let leaf = make_way(alloc, world, key)?;
    let stamp = place(world, 0, leaf, key, tag)?;
    Ok(stamp.number())
}

/// Goes down to a leaf that takes the key, with the changes of pages that this needs, and gives the leaf's number.
///
/// # Errors
/// `PagesFull` if fewer than two pages are left when it returns, or `OutOfMemory`. The steps made on the way are
/// kept.
pub fn make_way<C: KeyClass, O: Outlet<C::Key>>(
    alloc: Global,
    world: &mut World<C, O>,
    key: C::Key,
) -> Result<u32, Refusal>
    ensures leaf { IfOk result (λ leaf. MayPlace C.rules.is_cover world.new.search leaf key) }
    ensures way { IfOk result (HasCome C.rules key world.old world.new) }
    ensures moved { MovesPages C.rules O.rule world.old world.new }
    ensures refusals { IfErr result (IsWanting world.new.search) }
{
    world.recall_soundness();
    let mut page = 0;
    'descending: loop {
        match next_step(alloc, world.search(), page, key)? {
            WayStep::Grow(sides) => {
                move_pages(world, 0, Event::Grow(sides))?;
                page = 0;
            }
            WayStep::Post(parent, child) => {
                move_pages(world, 0, Event::Post(u64::from(parent), u64::from(child)))?;
                page = resumed(world, page, key);
            }
            WayStep::Split(child, sides) => {
                move_pages(world, 0, Event::Split(u64::from(child), sides))?;
                page = resumed(world, page, key);
            }
            WayStep::Enlarge(parent, child) => {
                let wider = Event::Enlarge(u64::from(parent), u64::from(child), key);
                move_pages(world, 0, wider)?;
                page = child;
            }
            WayStep::Down(child) => page = child,
            WayStep::Place(leaf) => return Ok(leaf),
        }
    }
}
