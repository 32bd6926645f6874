//! The way of a key to a leaf that takes it, made visit by visit. Between visits others may change the world.
ghost use Rattle.std.specs.Prelude.{◌≡◌, ◌≢◌, ◌<◌, length, IfOk, IfErr, OnErr, IsTrue, IsFalse};
ghost use Rattle.descent.specs.NextSteps.{HasRoom};
ghost use Rattle.world.specs.Promises.{KeepsMailboxes};
ghost use Rattle.world.specs.States.{IsSoundWorld};
ghost use Rattle.world.specs.Visits.{IsOneEvent};
ghost use Rattle.writes.specs.PageSteps.{IsWanting};
ghost use Rattle.writes.specs.InsertVisits.{CoversKey, IsNextOnWay, MayGoOn, Nears, ResumesAt};

use crate::page_steps::move_pages;
use descent::{Plan, plan_at, sides_of};
use key_class::{KeyClass, Refusal};
use mailbox::Outlet;
use split::SearchTree;
use std::alloc::Global;
use world::{Event, World};

/// How far a way has come.
#[derive(Clone, Copy)]
pub enum Approach {
    /// It goes on at this page.
    On(u32),
    /// This page is full. Once it is split, the way goes on where it was.
    Split(u32),
    /// This leaf takes the key.
    At(u32),
}

/// What to do next on a way.
#[derive(Drop)]
enum NextAction<K, A> {
    /// Make the event; then the way goes on at this page.
    Make(Event<K, A>, u32),
    /// Split this page.
    Split(u32),
    /// This leaf takes the key.
    At(u32),
}

/// Whether a way for the key can go on at the page.
fn may_go_on<C: KeyClass>(search: &SearchTree<C>, page: u32, key: C::Key) -> bool
    ensures may { IsTrue result → MayGoOn C.rules.is_cover search.now page key }
    ensures may_not { IsFalse result → ¬ MayGoOn C.rules.is_cover search.now page key }
{
    let table = search.pages();
    if page as usize >= table.len() {
        return false;
    }
    let here = table.page(page);
    if !here.covers::<C>(key) {
        return false;
    }
    search.fan() > here.entry_count()
}

/// Where a way for the key that has reached the page goes on: there, or at the root if it can't go on there any more.
pub(crate) fn resumed<C: KeyClass, O: Outlet<C::Key>>(
    world: &World<C, O>,
    page: u32,
    key: C::Key,
) -> u32
    ensures resumes { ResumesAt C.rules.is_cover world.now.search page key result }
    ensures exists { result < length world.now.search.tree.pages }
    ensures covers { CoversKey C.rules.is_cover world.now.search result key }
    ensures room { result ≢ 0 → HasRoom world.now.search result }
{
    world.recall_soundness();
    if may_go_on(world.search(), page, key) {
        page
    } else {
        0
    }
}

/// What to do next on a way that goes on from the page. It follows branches down as long as there is nothing to do.
fn next_on_way<C: KeyClass>(
    alloc: Global,
    search: &SearchTree<C>,
    page: u32,
    key: C::Key,
) -> Result<NextAction<C::Key, C::Atom>, Refusal>
    requires exists { page < length search.now.tree.pages }
    requires covers { CoversKey C.rules.is_cover search.now page key }
    requires room { page ≢ 0 → HasRoom search.now page }
    ensures next { IfOk result (IsNextOnWay C.rules search.now page key) }
    ensures refusals { IfErr result (λ why. why ≡ Refusal.OutOfMemory) }
{
    let mut here = page;
    'descending: loop {
        match plan_at(search, here, key) {
            Plan::Down(child) => here = child,
            Plan::Grow => {
                let sides = sides_of(alloc, search, 0)?;
                return Ok(NextAction::Make(Event::Grow(sides), 0));
            }
            Plan::Post(parent, child) => {
                let posted = Event::Post(u64::from(parent), u64::from(child));
                return Ok(NextAction::Make(posted, 0));
            }
            Plan::Split(child) => return Ok(NextAction::Split(child)),
            Plan::Enlarge(parent, child) => {
                let wider = Event::Enlarge(u64::from(parent), u64::from(child), key);
                return Ok(NextAction::Make(wider, child));
            }
            Plan::Place(leaf) => return Ok(NextAction::At(leaf)),
        }
    }
}

/// One visit of a way to a world, which makes at most one event. From the page that the way has reached, or from the
/// root if it can't go on there any more, it goes down until an event is due, and makes that. It only reports that a
/// split is needed. At a leaf that takes the key it does nothing.
///
/// # Errors
/// `PagesFull` or `OutOfMemory`. Nothing is changed then.
pub fn approach_leaf<C: KeyClass, O: Outlet<C::Key>>(
    alloc: Global,
    world: &mut World<C, O>,
    seat: u32,
    page: u32,
    key: C::Key,
) -> Result<Approach, Refusal>
    ensures nears { IfOk result (λ way. Nears C.rules world.old page key way world.new) }
    ensures commits { world.new.commits ≡ world.old.commits }
    ensures one_event { IsOneEvent O.Consumer C.rules O.rule seat world.old world.new }
    ensures sound { IsSoundWorld C.rules.is_cover world.new }
    ensures mailboxes { KeepsMailboxes C.rules O.rule world.old world.new }
    ensures unchanged { OnErr result (world.new ≡ world.old) }
    ensures refusals { IfErr result (IsWanting world.old.search) }
{
    world.recall_soundness();
    let here = resumed(world, page, key);
    match next_on_way(alloc, world.search(), here, key)? {
        NextAction::Split(child) => Ok(Approach::Split(child)),
        NextAction::At(leaf) => Ok(Approach::At(leaf)),
        NextAction::Make(event, then) => {
            move_pages(world, seat, event)?;
            Ok(Approach::On(then))
        }
    }
}
