//! Events that change pages.
ghost use Rattle.std.specs.Prelude.{◌≡◌};
ghost use Rattle.world.specs.declared.event.Event.TheVariants as event;
ghost use Rattle.world.specs.Calls.{reply_of_commit, reply_of_sweep};
ghost use Rattle.world.specs.Steps.{Acts, Step};

use crate::commit::{LeafChange, commit};
use crate::hints::{hint_to, note_all};
use crate::reply::{Reply, Stamped};
use crate::world::World;
use collector::horizon;
use key_class::{KeyClass, Refusal, Sides};
use mailbox::Outlet;

impl<C: KeyClass, O: Outlet<C::Key>> World<C, O> {
    pub(crate) fn enlarge(
        &mut self,
        page: u64,
        child: u64,
        key: C::Key,
    ) -> Reply<C::Key, O::Consumer>
        ensures { Acts C.rules O.rule self.old (event.Enlarge page child key) result self.new }
    {
        match self.search.enlarge(page, child, key) {
            Ok(()) => Reply::Enlarged,
            Err(refusal) => Reply::Refused(refusal),
        }
    }

    pub(crate) fn split(&mut self, page: u64, sides: &Sides) -> Reply<C::Key, O::Consumer>
        ensures { Acts C.rules O.rule self.old (event.Split page sides.now) result self.new }
    {
        match self.search.split(page, sides) {
            Ok(sibling) => {
                self.note_rows_of(sibling);
                Reply::Split(sibling)
            }
            Err(refusal) => Reply::Refused(refusal),
        }
    }

    /// Records where the rows of a page are, if there is a page with the number.
    fn note_rows_of(&mut self, page: u32)
        ensures { self.new ≡ self.old }
    {
        let table = self.search.pages();
        if (page as usize) < table.len() {
            let rows = table.page(page).rows();
            note_all(&mut self.hints, hint_to(u64::from(page)), rows);
        }
    }

    pub(crate) fn post(&mut self, parent: u64, child: u64) -> Reply<C::Key, O::Consumer>
        ensures { Acts C.rules O.rule self.old (event.Post parent child) result self.new }
    {
        match self.search.post(parent, child) {
            Ok(()) => Reply::Posted,
            Err(refusal) => Reply::Refused(refusal),
        }
    }

    pub(crate) fn grow(&mut self, sides: &Sides) -> Reply<C::Key, O::Consumer>
        ensures { Acts C.rules O.rule self.old (event.Grow sides.now) result self.new }
    {
        match self.search.grow(sides) {
            Ok((first, second)) => Reply::Grown(first, second),
            Err(refusal) => Reply::Refused(refusal),
        }
    }

    pub(crate) fn place(
        &mut self,
        seat: u32,
        page: u64,
        key: C::Key,
        tag: u64,
    ) -> Result<Stamped<C::Key>, Refusal>
        ensures { Step C.rules O.rule seat self.old (event.Place page key tag)
            (reply_of_commit O.Consumer result) self.new }
    {
        if let Some(refusal) = self.search.place_refusal(page, key) {
            return Err(refusal);
        }
        if self.changes.len() as u64 >= self.limit {
            return Err(Refusal::CommitsFull);
        }
        let change = LeafChange::Place(page, key, tag);
        let number = commit(&mut self.search, &mut self.changes, &mut self.hints, change)?;
        Ok(Stamped::new(number, seat, change.write()))
    }

    pub(crate) fn sweep(&mut self, page: u64) -> Result<u64, Refusal>
        ensures { Acts C.rules O.rule self.old (event.Sweep page)
            (reply_of_sweep O.Consumer result) self.new }
    {
        let horizon = horizon(self.cursors.as_slice(), self.changes.len() as u32);
        let count = self.search.sweep(page, horizon)?;
        Ok(count as u64)
    }
}
