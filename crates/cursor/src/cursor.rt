ghost use Rattle.std.specs.Prelude.{◌≡◌, ◌↔◌, true, false, [], IfOk, IfErr, IfSome, IfNone, IsTrue, ◌+◌, Some, None};
ghost use Rattle.cursor.specs.Preparing.{IsPrepared, IsDue, IsPageToVisit, RefusesVisit, VisitsNext};
ghost use Rattle.std.specs.Arc.{arc_value};
ghost use Rattle.key_class.specs.Queries.{query_of};
ghost use Rattle.change_list.specs.declared.item.Item.{Item};
ghost use Rattle.page_table.specs.Stacks.{IsStack, root_stack};
ghost use Rattle.mailbox.specs.Outlets.{Takes};
ghost use Rattle.cursor.specs.OpenCursors.{Turns, is_scanning, TurnsPastEnd, TurnsByTree, Lessens, new_cursor, TurnsByCommits};
ghost use Rattle.cursor.specs.Fitting.{KeepsAllFitting, TurnFits, BeginsFitting, FollowsFitting};
ghost use Rattle.cursor.specs.Offering.{IsOffered};
ghost use Rattle.cursor.specs.Sending.{TurnsTo};
ghost use Rattle.page_table.specs.TraversalLaws.{IfSound};

use change_list::{ChangeList, Item, Row, change_item};
use key_class::{KeyClass, Pred, Refusal};
use mailbox::{Outlet, Taken};
use page_table::PageTable;
use scan::{PreparedVisit, Stack};
use std::alloc::Global;
use std::collections::VecDeque;
use std::marker::Model;
use std::sync::Arc;

/// The result of a turn.
#[derive(Clone, Copy, Debug, PartialEq, Eq)]
pub enum Turned {
    /// An item went to the outlet.
    Offered,
    /// The page with the number was read.
    Visited(u32),
    /// The commit with the number doesn't match the query.
    Passed(u64),
}

/// An open cursor.
#[derive(Drop)]
pub struct Cursor<C: KeyClass, O: Outlet<C::Key>> {
    serial: u64,
    query: Arc<Pred<C::Atom>>,
    follows: bool,
    opened: u32,
    stack: Stack,
    pending: VecDeque<Row<C::Key>>,
    position: u64,
    asked: bool,
    outlet: O,
}

impl<C: KeyClass, O: Outlet<C::Key>> Model for Cursor<C, O> {
    ghost use Rattle.key_class.specs.Queries.{query_of};
    ghost use Rattle.key_class.specs.QueryCodes.{query_code};
    ghost use Rattle.std.specs.Coded.{codes};
    ghost use Rattle.std.specs.Arc.{arc_value};
    ghost use Rattle.cursor.specs.OpenCursors.{OpenCursor};

    ghost Value = { OpenCursor C.Key C.Atom };

    ghost coded = { Prim.hlevel (codes, query_code) };

    ghost view = { λ c. record { serial = c.serial; query = query_of (arc_value c.query); follows = c.follows; opened = c.opened; stack = c.stack; pending = c.pending.items; position = c.position; asked = c.asked; room = O.room_of c.outlet; unread = O.unread c.outlet } };
}

impl<C: KeyClass, O: Outlet<C::Key>> Cursor<C, O> {
    /// A cursor opened after `opened` commits, at a tree's root when the number of its latest posting was `counter`.
    /// It needs no memory.
    pub fn new(
        alloc: Global,
        serial: u64,
        query: Arc<Pred<C::Atom>>,
        opened: u32,
        counter: u32,
        outlet: O,
    ) -> Self
        ensures new { result ≡ new_cursor O.room_of O.unread
            serial query false opened (root_stack counter) outlet }
        ensures fits { BeginsFitting C.rules O.rule opened result }
    {
        let stack = Stack::at_root(alloc, counter);
        Cursor::begin(alloc, serial, query, false, opened, stack, outlet)
    }

    /// A cursor that follows commit `from`: it gives the changes after it, and no rows of a snapshot. It needs no
    /// memory.
    pub fn following(
        alloc: Global,
        serial: u64,
        query: Arc<Pred<C::Atom>>,
        from: u32,
        outlet: O,
    ) -> Self
        ensures new { result ≡ new_cursor O.room_of O.unread serial query true from [] outlet }
        ensures fits { FollowsFitting C.rules O.rule from result }
    {
        Cursor::begin(
            alloc,
            serial,
            query,
            true,
            from,
            Stack::empty(alloc),
            outlet,
        )
    }

    /// A cursor that begins after a commit, with these pages to visit.
    fn begin(
        alloc: Global,
        serial: u64,
        query: Arc<Pred<C::Atom>>,
        follows: bool,
        opened: u32,
        stack: Stack,
        outlet: O,
    ) -> Self
        ensures { result ≡ new_cursor O.room_of O.unread
            serial query follows opened stack outlet }
    {
        Cursor {
            serial,
            query,
            follows,
            opened,
            stack,
            pending: VecDeque::new(alloc),
            position: u64::from(opened),
            asked: false,
            outlet,
        }
    }

    pub fn serial(&self) -> u64
        ensures { result ≡ self.now.serial }
    {
        self.serial
    }

    /// Whether it follows a commit, so that it was opened without a snapshot.
    pub fn follows(&self) -> bool
        ensures { result ≡ self.now.follows }
    {
        self.follows
    }

    /// The number of commits at its opening, or the commit that it follows.
    pub fn opened(&self) -> u32
        ensures { result ≡ self.now.opened }
    {
        self.opened
    }

    /// The commit up to which changes were offered or passed.
    pub fn position(&self) -> u64
        ensures { result ≡ self.now.position }
    {
        self.position
    }

    /// Whether pages are left to be visited.
    pub fn is_scanning(&self) -> bool
        ensures scanning { result ≡ is_scanning self.now.stack }
        ensures over { (result ≡ false) ↔ (self.now.stack ≡ []) }
    {
        !self.stack.is_empty()
    }

    /// Asks for a mark, which is offered after everything that is due before it.
    pub fn ask_mark(&mut self)
        ensures asked { self.new ≡ record self.old { asked = true } }
        ensures fits { KeepsAllFitting C.rules O.rule self.old self.new }
    {
        self.asked = true;
    }

    /// Takes the item at the front of the outlet.
    pub fn take(&mut self) -> Taken<C::Key>
        ensures takes { Takes O.rule.is_emptied_elsewhere self.old.unread result self.new.unread }
        ensures others { self.new ≡ record self.old { unread = self.new.unread } }
        ensures fits { KeepsAllFitting C.rules O.rule self.old self.new }
    {
        self.outlet.take()
    }

    /// Offers a pending row.
    fn offer_row(&mut self, row: Row<C::Key>) -> Result<Turned, Refusal>
        ensures { IsOffered C.rules O.rule (Item.Row row) self.old result self.new }
    {
        match self.outlet.offer(Item::Row(row)) {
            Ok(()) => {
                self.pending.pop_front();
                Ok(Turned::Offered)
            }
            Err(_) => Err(Refusal::NoRoom),
        }
    }

    /// Visits a page.
    ///
    /// # Errors
    /// Memory ran out for a row to note or a page to push; the cursor is unchanged.
    fn visit(&mut self, alloc: Global, table: &PageTable<C::Key>) -> Result<Turned, Refusal>
        requires stack { IsStack table.now self.old.stack }
        requires none_pending { self.old.pending ≡ [] }
        requires scanning { is_scanning self.old.stack ≡ true }
        ensures { TurnsByTree C.rules O.rule table.now self.old result self.new }
    {
        match self
            .stack
            .visit::<C>(alloc, table, &self.query, self.opened)
        {
            Ok(Some(visited)) => {
                self.pending = visited.rows;
                Ok(Turned::Visited(visited.page))
            }
            Ok(None) => unreachable!(),
            Err(_) => Err(Refusal::OutOfMemory),
        }
    }

    /// The number of the page that the cursor's next turn visits. `None` if its next turn is no visit.
    pub fn page_to_visit(&self) -> Option<u32>
        ensures page { IfSome result (IsPageToVisit self.now) }
        ensures none { IfNone result (¬ VisitsNext self.now) }
    {
        if self.pending.len() > 0 {
            return None;
        }
        self.stack.next_page()
    }

    /// Prepares the visit that the cursor's next turn makes, if it makes one.
    ///
    /// # Errors
    /// NotHere if a row is to be offered or no page is left, else the page or the query has too many owners.
    pub fn prepare(
        &self,
        alloc: Global,
        table: &PageTable<C::Key>,
    ) -> Result<PreparedVisit<C>, Refusal>
        requires { IsStack table.now self.now.stack }
        ensures prepared { IfOk result (IsPrepared table.now self.now) }
        ensures refusals { IfErr result (RefusesVisit self.now) }
    {
        if self.pending.len() > 0 {
            return Err(Refusal::NotHere);
        }
        match self
            .stack
            .prepare::<C>(alloc, table, &self.query, self.opened)
        {
            Ok(Some(visit)) => Ok(visit),
            Ok(None) => Err(Refusal::NotHere),
            Err(_) => Err(Refusal::OutOfMemory),
        }
    }

    /// Whether the visit is what the cursor's next turn makes.
    pub fn is_due(&self, table: &PageTable<C::Key>, visit: &PreparedVisit<C>) -> bool
        requires { IsStack table.now self.now.stack }
        ensures { IsTrue result ↔ IsDue table.now self.now visit.now }
    {
        self.pending.len() == 0
            && self.opened == visit.opened()
            && self.query.same_as::<C>(visit.query())
            && self.stack.is_due::<C>(table, visit)
    }

    /// A turn that makes a visit that was worked out.
    ///
    /// # Errors
    /// Memory ran out; the cursor is unchanged.
    #[tactic(auto, using(crate::proofs::Preparing::prepared_turns, crate::proofs::Preparing::prepared_refused))]
    pub fn turn_prepared(
        &mut self,
        table: &PageTable<C::Key>,
        visit: PreparedVisit<C>,
    ) -> Result<Turned, Refusal>
        requires stack { IsStack table.now self.old.stack }
        requires due { IsDue table.now self.old visit }
        requires worked { visit.worked ≡ true }
        ensures { TurnsByTree C.rules O.rule table.now self.old result self.new }
    {
        match self.stack.visit_prepared::<C>(table.counter(), visit) {
            Ok(visited) => {
                self.pending = visited.rows;
                Ok(Turned::Visited(visited.page))
            }
            Err(_) => Err(Refusal::OutOfMemory),
        }
    }

    /// Offers the item of the next commit, or passes the commit if it doesn't match; after the last commit offers a
    /// mark, if one was asked for.
    fn follow(&mut self, changes: &ChangeList<C::Key>) -> Result<Turned, Refusal>
        requires none_pending { self.old.pending ≡ [] }
        requires scanned { self.old.stack ≡ [] }
        ensures { TurnsByCommits C.rules O.rule changes.now self.old result self.new }
    {
        if self.position >= changes.len() as u64 {
            return self.offer_mark();
        }
        let number = self.position + 1;
        match change_item::<C>(changes.as_view(), &self.query, self.position) {
            Some(item) => match self.outlet.offer(item) {
                Ok(()) => {
                    self.position = number;
                    Ok(Turned::Offered)
                }
                Err(_) => Err(Refusal::NoRoom),
            },
            None => {
                self.position = number;
                Ok(Turned::Passed(number))
            }
        }
    }

    /// Offers a mark, if one was asked for.
    fn offer_mark(&mut self) -> Result<Turned, Refusal>
        requires none_pending { self.old.pending ≡ [] }
        requires scanned { self.old.stack ≡ [] }
        ensures { TurnsPastEnd C.rules O.rule self.old result self.new }
    {
        if !self.asked {
            return Err(Refusal::Idle);
        }
        match self.outlet.offer(Item::Mark(self.position)) {
            Ok(()) => {
                self.asked = false;
                Ok(Turned::Offered)
            }
            Err(_) => Err(Refusal::NoRoom),
        }
    }

    /// A turn: the first piece of work that applies.
    fn advance(
        &mut self,
        alloc: Global,
        table: &PageTable<C::Key>,
        changes: &ChangeList<C::Key>,
    ) -> Result<Turned, Refusal>
        requires { IsStack table.now self.old.stack }
        ensures { Turns C.rules O.rule table.now changes.now self.old result self.new }
    {
        if let Some(row) = self.pending.front() {
            let row = *row;
            return self.offer_row(row);
        }
        if !self.stack.is_empty() {
            return self.visit(alloc, table);
        }
        self.follow(changes)
    }

    /// One turn, the first of these that applies: a row that was found is offered; a page is visited; the next
    /// commit's item is offered, or the commit is passed if it doesn't match; a mark that was asked for is offered.
    ///
    /// # Errors
    /// The outlet had no room, there was nothing to do, or memory ran out in a visit that notes a row or pushes a
    /// page; the cursor is unchanged.
    pub fn turn(
        &mut self,
        alloc: Global,
        table: &PageTable<C::Key>,
        changes: &ChangeList<C::Key>,
    ) -> Result<Turned, Refusal>
        requires { IsStack table.now self.old.stack }
        ensures turns { Turns C.rules O.rule table.now changes.now self.old result self.new }
        ensures sends { TurnsTo changes.now self.old self.new }
        ensures fits { TurnFits C.rules O.rule table.now changes.now self.old self.new }
        ensures less_work { Lessens C.rules O.rule table.now changes.now self.old result self.new }
        ensures stack { IfSound C.rules.is_cover table.now (IsStack table.now self.new.stack) }
    {
        self.advance(alloc, table, changes)
    }
}
