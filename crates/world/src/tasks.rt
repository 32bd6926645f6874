//! Work on a page without the world: a task is prepared in one visit to the world, worked on without it, and
//! published in another visit.
ghost use Rattle.std.specs.Prelude.{◌≡◌, true, IfSome, IfNone, IfOk, IfErr, OnOk, OnErr, IsTrue, ◌↔◌};
ghost use Rattle.split.specs.Tests.{IsRefusedBy};
ghost use Rattle.world.specs.declared.event.Event.TheVariants as event;
ghost use Rattle.world.specs.States.{IsAt, IsSoundWorld};
ghost use Rattle.world.specs.Steps.{Acts};
ghost use Rattle.world.specs.Tasks as model;
ghost use Rattle.world.specs.Promises.{KeepsMailboxes};
ghost use Rattle.world.specs.Tasks.{HasNoVisit, HasPage, HasVisit, IsLate, IsSplitOf, IsStaleSplit, IsStaleVisit, PreparesSplit, PreparesVisit, PublishesSplit, PublishesVisit, RefusesPreparing, RefusesSides, TurnsOrIsLate, VisitsPageNext, WorksOutSides, prepare_split_tests, worked_on};

use crate::event::Event;
use crate::reply::Reply;
use crate::world::World;
use descent::keys_of;
use key_class::{KeyClass, Refusal, Sides};
use mailbox::Outlet;
use node::{Page, same_page};
use page_table::SharedPage;
use scan::PreparedVisit;
use std::alloc::Global;
use std::marker::Model;

/// A page to be split, with its sides once they are worked out.
#[derive(Drop)]
pub struct SplitTask<C: KeyClass> {
    alloc: Global,
    number: u64,
    page: SharedPage<C::Key>,
    least: usize,
    sides: Option<Sides>,
}

impl<C: KeyClass> Model for SplitTask<C> {
    ghost use Rattle.std.specs.Prelude.{◌≤◌};
    ghost use Rattle.world.specs.Tasks as model;

    ghost Value = { model.SplitTask C.Key };

    ghost view = { λ t. record { number = t.number; page = t.page; least = t.least; sides = t.sides } };

    ghost invariant = { λ t. 1 ≤ t.least };
}

impl<C: KeyClass> SplitTask<C> {
    /// Works out the sides, by the class.
    ///
    /// # Errors
    /// TooFew if the page has too few entries, else `OutOfMemory`; the task is unchanged.
    pub fn work(&mut self) -> Result<(), Refusal>
        ensures worked { OnOk result (WorksOutSides C.rules self.old self.new) }
        ensures too_few { IfErr result (RefusesSides self.old) }
        ensures unchanged { OnErr result (self.new ≡ self.old) }
    {
        let keys = keys_of(self.alloc, self.page.get())?;
        let sides = C::pick_split(self.alloc, &keys, self.least)?;
        self.sides = Some(sides);
        Ok(())
    }
}

/// The next visit of a cursor.
#[derive(Drop)]
pub struct VisitTask<C: KeyClass> {
    cursor: u64,
    visit: PreparedVisit<C>,
}

impl<C: KeyClass> Model for VisitTask<C> {
    ghost use Rattle.key_class.specs.QueryCodes.{query_code};
    ghost use Rattle.std.specs.Coded.{codes};
    ghost use Rattle.world.specs.Tasks as model;

    ghost Value = { model.VisitTask C.Key C.Atom };

    ghost coded = { Prim.hlevel (codes, query_code) };

    ghost view = { λ t. record { cursor = t.cursor; visit = t.visit } };
}

impl<C: KeyClass> VisitTask<C> {
    /// The number of the page that it reads.
    pub fn page(&self) -> u32
        ensures { result ≡ self.now.visit.item.page }
    {
        self.visit.page_number()
    }

    /// Works out what the visit notes and where it goes on.
    ///
    /// # Errors
    /// Memory ran out; the task is unchanged.
    pub fn work(&mut self) -> Result<(), Refusal>
        ensures worked { OnOk result (self.new ≡ worked_on self.old) }
        ensures refused { IfErr result (λ why. why ≡ Refusal.OutOfMemory) }
        ensures unchanged { OnErr result (self.new ≡ self.old) }
    {
        self.visit.work()?;
        Ok(())
    }
}

impl<C: KeyClass, O: Outlet<C::Key>> World<C, O> {
    /// The number of the page that a cursor's next turn visits, which is that of the visit that `prepare_visit`
    /// gives. `None` if the cursor isn't open or its next turn is no visit. Prepares nothing, and needs no memory.
    pub fn page_to_visit(&self, c: u64) -> Option<u32>
        ensures page { IfSome result (VisitsPageNext self.now c) }
        ensures none { IfNone result (HasNoVisit self.now c) }
    {
        self.recall_soundness();
        match self.place_of(c) {
            Ok(at) => self.cursors[at].page_to_visit(),
            Err(_) => None,
        }
    }

    /// Prepares the next visit of a cursor, to be worked out without the world.
    ///
    /// # Errors
    /// NoSuchCursor, CursorClosed, NotHere if a row is to be offered or no page is left, else the page or the query
    /// has too many owners.
    pub fn prepare_visit(&self, c: u64) -> Result<VisitTask<C>, Refusal>
        ensures prepared { IfOk result (PreparesVisit self.now c) }
        ensures refused { IfErr result (RefusesPreparing self.now c) }
    {
        let at = self.place_of(c)?;
        let visit = self.cursors[at].prepare(self.allocator(), self.search.pages())?;
        Ok(VisitTask { cursor: c, visit })
    }

    /// Prepares the split of a page, to be worked out without the world.
    ///
    /// # Errors
    /// NotHere if there is no such page or it is the root, else the page has too many owners.
    pub fn prepare_split(&self, p: u64) -> Result<SplitTask<C>, Refusal>
        ensures prepared { IfOk result (PreparesSplit self.now p) }
        ensures refused { IfErr result (IsRefusedBy (prepare_split_tests self.now p)) }
    {
        let pages = self.search.pages();
        if p == 0 || p >= pages.len() as u64 {
            return Err(Refusal::NotHere);
        }
        let page = pages.share(p as u32)?;
        let least = self.search.least();
        Ok(SplitTask {
            alloc: self.allocator(),
            number: p,
            page,
            least,
            sides: None,
        })
    }

    /// The event of a split task: `Split` by its sides, if the page hasn't changed.
    ///
    /// Drops the task's share of the page, so that the world can then change its own in place.
    pub fn split_of(&self, task: SplitTask<C>) -> Option<Event<C::Key, C::Atom>>
        ensures split { IfSome result (IsSplitOf self.now task) }
        ensures stale { IfNone result (IsStaleSplit self.now task) }
    {
        let SplitTask {
            number,
            page,
            sides,
            ..
        } = task;
        let Some(sides) = sides else {
            return None;
        };
        if !self.has_page(number, page.get()) {
            return None;
        }
        Some(Event::Split(number, sides))
    }

    /// Splits the page of a task by its sides: the event `Split`, if the page hasn't changed since the task was
    /// prepared.
    ///
    /// Otherwise, or if `work` was never called, it is refused NotHere, and nothing changes.
    pub fn publish_split(&mut self, seat: u32, task: SplitTask<C>) -> Reply<C::Key, O::Consumer>
        ensures step { PublishesSplit C.rules O.rule seat self.old task result self.new }
        ensures stale { IsStaleSplit self.old task → IsLate self.old result self.new }
    {
        match self.split_of(task) {
            Some(split) => self.step_as(seat, split),
            None => Reply::Refused(Refusal::NotHere),
        }
    }

    /// Makes the visit of a task: the event `Turn`, if the visit is still the cursor's next.
    ///
    /// Otherwise, or if `work` was never called, it is refused NotHere, and nothing changes.
    pub fn publish_visit(&mut self, seat: u32, task: VisitTask<C>) -> Reply<C::Key, O::Consumer>
        ensures step { PublishesVisit C.rules O.rule seat self.old task result self.new }
        ensures stale { IsStaleVisit self.old task → IsLate self.old result self.new }
        ensures turned { TurnsOrIsLate C.rules O.rule seat self.old task.cursor result self.new }
        ensures commits { self.new.commits ≡ self.old.commits }
        ensures sound { IsSoundWorld C.rules.is_cover self.new }
        ensures mailboxes { KeepsMailboxes C.rules O.rule self.old self.new }
    {
        self.recall_soundness();
        let VisitTask { cursor, visit } = task;
        let at = match self.place_of(cursor) {
            Ok(at) => at,
            Err(_) => return Reply::Refused(Refusal::NotHere),
        };
        if !visit.is_worked() || !self.is_due(cursor, at, &visit) {
            return Reply::Refused(Refusal::NotHere);
        }
        let reply = self.publish_due(cursor, at, visit);
        self.recall_soundness();
        reply
    }

    /// Makes a visit that is the cursor's next turn.
    fn publish_due(
        &mut self,
        c: u64,
        at: usize,
        visit: PreparedVisit<C>,
    ) -> Reply<C::Key, O::Consumer>
        requires found { IsAt self.old c at }
        requires due { HasVisit self.old c visit }
        requires worked { visit.worked ≡ true }
        ensures { Acts C.rules O.rule self.old (event.Turn c) result self.new }
    {
        Reply::of_turn(self.cursors[at].turn_prepared(self.search.pages(), visit))
    }

    /// Whether the visit is the next turn of the cursor at a place.
    fn is_due(&self, c: u64, at: usize, visit: &PreparedVisit<C>) -> bool
        requires { IsAt self.now c at }
        ensures { IsTrue result ↔ HasVisit self.now c visit.now }
    {
        self.cursors[at].is_due(self.search.pages(), visit)
    }

    /// Whether the page with a number has this value.
    fn has_page(&self, number: u64, page: &Page<C::Key>) -> bool
        ensures { IsTrue result ↔ HasPage self.now number page.now }
    {
        let pages = self.search.pages();
        number < pages.len() as u64 && same_page::<C>(pages.page(number as u32), page)
    }
}
