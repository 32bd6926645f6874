//! Events of finders.
ghost use Rattle.std.specs.Prelude.{◌≡◌, None, IfOk, IfErr, OnErr};
ghost use Rattle.change_list.specs.Changes.{HasKey};
ghost use Rattle.split.specs.Tests.{first_failing};
ghost use Rattle.world.specs.declared.event.Event.TheVariants as event;
ghost use Rattle.world.specs.Beginnings.{Begins, MayBegin, OpensNear};
ghost use Rattle.world.specs.Calls.{reply_of_commit, reply_of_finder, reply_of_visit};
ghost use Rattle.world.specs.States.{Meets};
ghost use Rattle.world.specs.Steps.{Acts, FirstFails, Step, VisitsFor, find_tests, is_full_of_finders};

use crate::commit::{LeafChange, commit};
use crate::hints::page_of;
use crate::places::{let_go, place_of};
use crate::reply::{Reply, Stamped};
use crate::world::World;
use change_list::Status;
use descent::Finder;
use key_class::limits::{MAX_FINDERS, MAX_SERIAL};
use key_class::{KeyClass, Refusal};
use mailbox::Outlet;
use scan::{Sought, holds_row};

impl<C: KeyClass, O: Outlet<C::Key>> World<C, O> {
    /// Whether no further finder can be opened: 64 are open, or the last serial was given.
    pub fn is_full_of_finders(&self) -> bool
        ensures { result ≡ is_full_of_finders self.now }
    {
        self.finders.len() >= MAX_FINDERS || self.last_finder >= MAX_SERIAL
    }

    /// The key of a row, if a further finder may look for it; otherwise why none may.
    fn key_to_find(&self, row: u64) -> Result<C::Key, Refusal>
        ensures passed { IfOk result (λ key. first_failing (find_tests self.now row) ≡ None) }
        ensures made { IfOk result (HasKey self.now.commits row) }
        ensures refused { IfErr result (FirstFails (find_tests self.now row)) }
    {
        let Some(found) = self.changes.row(row) else {
            return Err(Refusal::NoSuchRow);
        };
        if let Status::Dead = self.changes.status(row) {
            return Err(Refusal::AlreadyDeleted);
        }
        if self.is_full_of_finders() {
            return Err(Refusal::FindersFull);
        }
        Ok(found.key)
    }

    /// Opens a finder of a row that begins at the page, and gives its serial.
    ///
    /// # Errors
    /// `OutOfMemory`; nothing is changed then.
    fn begin(&mut self, row: u64, key: C::Key, page: u32) -> Result<u64, Refusal>
        requires passed { first_failing (find_tests self.old row) ≡ None }
        requires made { HasKey self.old.commits row key }
        requires may { MayBegin self.old row page }
        ensures begun { IfOk result (λ f. Begins self.old row key page f self.new) }
        ensures unchanged { OnErr result (self.new ≡ self.old) }
        ensures refused { IfErr result (λ why. why ≡ Refusal.OutOfMemory) }
    {
        let counter = self.search.pages().counter();
        let serial = self.last_finder + 1;
        let finder = Finder::new(self.allocator(), serial, row as u32, key, page, counter);
        if self.finders.push(finder).is_err() {
            return Err(Refusal::OutOfMemory);
        }
        self.last_finder = serial;
        Ok(serial)
    }

    pub(crate) fn find(&mut self, row: u64) -> Result<u64, Refusal>
        ensures { Acts C.rules O.rule self.old (event.Find row)
            (reply_of_finder O.Consumer result) self.new }
    {
        let key = self.key_to_find(row)?;
        self.begin(row, key, 0)
    }

    pub(crate) fn find_near(&mut self, row: u64) -> Result<u64, Refusal>
        ensures { OpensNear C.rules O.rule self.old row result self.new }
    {
        let key = self.key_to_find(row)?;
        let page = self.last_page(row);
        self.begin(row, key, page)
    }

    /// The page on which a row was seen last, if the row is still there; else the root.
    fn last_page(&self, row: u64) -> u32
        ensures { MayBegin self.now row result }
    {
        let Ok(row) = u32::try_from(row) else {
            return 0;
        };
        let page = page_of(&self.hints, row);
        let table = self.search.pages();
        if (page as usize) < table.len() && holds_row(table.page(page).rows(), row) {
            page
        } else {
            0
        }
    }

    /// Lets a finder visit one page. If that holds its row, gives the finder's place and the page; otherwise the
    /// finder goes on.
    fn visit_for(&mut self, f: u64) -> Result<Option<(usize, u32)>, Refusal>
        ensures { VisitsFor C.rules O.rule self.old f result self.new }
    {
        let Some(at) = place_of(self.finders.as_slice(), f) else {
            return Err(Refusal::NoSuchFinder);
        };
        if let Status::Dead = self.changes.status(u64::from(self.finders[at].row())) {
            return Err(Refusal::AlreadyDeleted);
        }
        match self.finders[at].seek(self.search.pages()) {
            Ok(Sought::Here(page)) => Ok(Some((at, page))),
            Ok(Sought::Further(_)) => Ok(None),
            Err(_) => Err(Refusal::OutOfMemory),
        }
    }

    pub(crate) fn seek(&mut self, seat: u32, f: u64) -> Result<Option<Stamped<C::Key>>, Refusal>
        ensures { Step C.rules O.rule seat self.old (event.Seek f)
            (reply_of_visit O.Consumer result) self.new }
    {
        match self.visit_for(f)? {
            Some((at, page)) => Ok(Some(self.bury(seat, f, at, page)?)),
            None => Ok(None),
        }
    }

    /// Deletes the row of a finder that has met it on a page.
    fn bury(&mut self, seat: u32, f: u64, at: usize, page: u32) -> Result<Stamped<C::Key>, Refusal>
        requires { Meets self.old f at page }
        ensures { Step C.rules O.rule seat self.old (event.Seek f)
            (reply_of_commit O.Consumer result) self.new }
    {
        if self.changes.len() as u64 >= self.limit {
            return Err(Refusal::CommitsFull);
        }
        let change = LeafChange::Bury(u64::from(page), self.finders[at].row());
        let number = commit(&mut self.search, &mut self.changes, &mut self.hints, change)?;
        let_go(&mut self.finders, at);
        Ok(Stamped::new(number, seat, change.write()))
    }

    pub(crate) fn move_row(
        &mut self,
        seat: u32,
        f: u64,
        leaf: u64,
        key: C::Key,
    ) -> Result<Option<Stamped<C::Key>>, Refusal>
        ensures { Step C.rules O.rule seat self.old (event.Move f leaf key)
            (reply_of_visit O.Consumer result) self.new }
    {
        match self.visit_for(f)? {
            Some((at, page)) => Ok(Some(self.relocate(seat, f, at, page, leaf, key)?)),
            None => Ok(None),
        }
    }

    /// Moves the row of a finder that has met it on a page to a leaf, with another key.
    fn relocate(
        &mut self,
        seat: u32,
        f: u64,
        at: usize,
        page: u32,
        leaf: u64,
        key: C::Key,
    ) -> Result<Stamped<C::Key>, Refusal>
        requires { Meets self.old f at page }
        ensures { Step C.rules O.rule seat self.old (event.Move f leaf key)
            (reply_of_commit O.Consumer result) self.new }
    {
        if let Some(refusal) = self.search.place_refusal(leaf, key) {
            return Err(refusal);
        }
        if self.changes.len() as u64 >= self.limit {
            return Err(Refusal::CommitsFull);
        }
        let row = self.finders[at].row();
        let Some(found) = self.changes.row(u64::from(row)) else {
            unreachable!()
        };
        let change = LeafChange::Move(u64::from(page), row, leaf, key, found.tag);
        let number = commit(&mut self.search, &mut self.changes, &mut self.hints, change)?;
        let_go(&mut self.finders, at);
        Ok(Stamped::new(number, seat, change.write()))
    }

    pub(crate) fn unfind(&mut self, f: u64) -> Reply<C::Key, O::Consumer>
        ensures { Acts C.rules O.rule self.old (event.Unfind f) result self.new }
    {
        match place_of(self.finders.as_slice(), f) {
            Some(place) => {
                let_go(&mut self.finders, place);
                Reply::Unfound
            }
            None => Reply::Refused(Refusal::NoSuchFinder),
        }
    }
}
