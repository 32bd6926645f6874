ghost use Rattle.std.specs.Prelude.{◌≡◌, ◌↔◌, ◌+◌, ◌*◌, ◌≤◌, None, length, IfOk, OnOk, IfErr, IfSome, IfNone, is_some, nat_lt};
ghost use Rattle.key_class.specs.Refusals.{IsEither};
ghost use Rattle.change_list.specs.Configs.{IsWithinLimits};
ghost use Rattle.change_list.specs.Changes.{commit_at, row_at, status_of, IsLegal};
ghost use Rattle.page_table.specs.Trees.{page_at};
ghost use Rattle.split.specs.Tests.{first_failing};
ghost use Rattle.world.specs.States.{new_state, IsSoundWorld, IsAt, IsFinderOf, finder_at};
ghost use Rattle.world.specs.Steps.{FirstFails, Step, cursor_tests};
ghost use Rattle.world.specs.Promises.{ServesAll, FitsAtOpening, LowersCursorWork, KeepsRowsUnder, KeepsMailboxes, AddsWritten, HandsOut};

use crate::event::Event;
use crate::places::place_of;
use crate::remains::Remains;
use crate::reply::Reply;
use change_list::{ChangeList, Config, Row, Status, View, Write};
use cursor::Cursor;
use descent::Finder;
use key_class::{KeyClass, Refusal};
use mailbox::Outlet;
use node::Page;
use segmented::SegmentedVec;
use snapshot::Snapshot;
use split::SearchTree;
use std::alloc::Global;
use std::marker::Model;

/// A tree of pages, its commits, its open cursors and finders. Each event is one atomic step.
#[derive(Drop)]
pub struct World<C: KeyClass, O: Outlet<C::Key>> {
    pub(crate) search: SearchTree<C>,
    pub(crate) limit: u64,
    pub(crate) changes: ChangeList<C::Key>,
    pub(crate) hints: SegmentedVec<u16>,
    pub(crate) cursors: Vec<Cursor<C, O>>,
    pub(crate) last: u64,
    pub(crate) finders: Vec<Finder<C>>,
    pub(crate) last_finder: u64,
}

impl<C: KeyClass, O: Outlet<C::Key>> Model for World<C, O> {
    ghost use Rattle.key_class.specs.QueryCodes.{query_code};
    ghost use Rattle.std.specs.Coded.{codes};
    ghost use Rattle.world.specs.States.{State, IsSoundWorld};

    ghost Value = { State C.Key C.Atom };

    ghost coded = { Prim.hlevel (codes, query_code) };

    ghost view = { λ w. record { search = w.search; limit = w.limit; commits = w.changes; cursors = w.cursors.items; last = w.last; finders = w.finders.items; last_finder = w.last_finder } };

    ghost invariant = { λ w. IsSoundWorld C.rules.is_cover (record { search = w.search; limit = w.limit; commits = w.changes; cursors = w.cursors.items; last = w.last; finders = w.finders.items; last_finder = w.last_finder }) };
}

impl<C: KeyClass, O: Outlet<C::Key>> World<C, O> {
    /// A world with one empty leaf.
    ///
    /// # Errors
    /// `BadConfig` if a limit of the configuration is out of range, else `OutOfMemory`.
    pub fn new(alloc: Global, config: Config) -> Result<World<C, O>, Refusal>
        ensures made { IfOk result (λ world. world ≡ new_state config) }
        ensures within { OnOk result (IsWithinLimits config) }
        ensures bad { (result ≡ Err Refusal.BadConfig) ↔ (¬ IsWithinLimits config) }
        ensures refusals { IfErr result (IsEither Refusal.BadConfig Refusal.OutOfMemory) }
    {
        if !config.is_within_limits() {
            return Err(Refusal::BadConfig);
        }
        let search = SearchTree::new(
            alloc,
            u64::from(config.fan),
            u64::from(config.least),
            u64::from(config.pages),
        )?;
        // Rows count from 1, so no row has the first place.
        let mut hints = SegmentedVec::new(alloc);
        hints.reserve()?;
        hints.push_reserved(0);
        Ok(World {
            search,
            limit: u64::from(config.commits),
            changes: ChangeList::new(alloc),
            hints,
            cursors: Vec::new(alloc),
            last: 0,
            finders: Vec::new(alloc),
            last_finder: 0,
        })
    }

    /// The allocator of its lists.
    pub(crate) fn allocator(&self) -> Global {
        *self.cursors.allocator()
    }

    /// How many commits there are.
    pub fn commits(&self) -> u64
        ensures number { result ≡ length self.now.commits }
        ensures legal { IsLegal self.now.commits }
    {
        self.changes.len() as u64
    }

    /// The commit with a number. The first has number 1.
    pub fn commit(&self, number: u64) -> Option<Write<C::Key>>
        ensures { result ≡ commit_at self.now.commits number }
    {
        self.changes.commit(number)
    }

    /// A view of the commits as they are now, which later commits don't change.
    ///
    /// # Errors
    /// `OutOfMemory`.
    pub fn view(&self) -> Result<View<C::Key>, Refusal>
        ensures list { IfOk result (λ view. view ≡ self.now.commits) }
        ensures refused { IfErr result (λ why. why ≡ Refusal.OutOfMemory) }
    {
        self.changes.view()
    }

    /// A snapshot of the world, which later commits don't change. Any number of threads can search it while the world
    /// is used.
    ///
    /// # Errors
    /// `OutOfMemory`.
    pub fn snapshot(&self) -> Result<Snapshot<C>, Refusal>
        ensures list { IfOk result (λ snapshot. snapshot ≡ self.now.commits) }
        ensures refused { IfErr result (λ why. why ≡ Refusal.OutOfMemory) }
    {
        let pages = self.search.pages().copy()?;
        let list = self.changes.view()?;
        Ok(Snapshot::new(self.allocator(), pages, list))
    }

    /// The row with a number, live or dead, as its commit made it. It takes at most two reads.
    pub fn row(&self, number: u64) -> Option<Row<C::Key>>
        ensures { result ≡ row_at self.now.commits number }
    {
        self.changes.row(number)
    }

    /// The open cursors, by rising serial.
    pub fn open_cursors(&self) -> &[Cursor<C, O>]
        ensures { result.now ≡ self.now.cursors }
    {
        self.cursors.as_slice()
    }

    /// The status of a row number.
    pub fn status(&self, row: u64) -> Status
        ensures { result ≡ status_of self.now.commits row }
    {
        self.changes.status(row)
    }

    /// The row that an open finder looks for.
    pub fn finder_row(&self, f: u64) -> Option<u64>
        ensures row { IfSome result (IsFinderOf self.now f) }
        ensures none { IfNone result (finder_at self.now f ≡ None) }
    {
        let at = place_of(self.finders.as_slice(), f)?;
        Some(u64::from(self.finders[at].row()))
    }

    /// Only the commits.
    pub fn into_commits(self) -> ChangeList<C::Key>
        ensures { result ≡ self.commits }
    {
        let World { changes, .. } = self;
        changes
    }

    /// The world without its use: what is left to be dropped piece by piece.
    pub fn into_remains(self) -> Remains<C::Key>
        ensures { length self.search.tree.pages ≤ 16 * result }
    {
        let World {
            search,
            changes,
            hints,
            ..
        } = self;
        Remains {
            pages: search.into_pages().into_remains(),
            commits: changes.into_remains(),
            hints: hints.into_remains(),
        }
    }

    /// The greatest number of commits.
    pub fn limit(&self) -> u64
        ensures { result ≡ self.now.limit }
    {
        self.limit
    }

    /// The pages with their limits.
    pub fn search(&self) -> &SearchTree<C>
        ensures { result.now ≡ self.now.search }
    {
        &self.search
    }

    /// How many pages there are.
    pub fn pages(&self) -> u64
        ensures number { result ≡ length self.now.search.tree.pages }
        ensures few { result ≤ length self.now.commits + 1 }
        ensures sound { IsSoundWorld C.rules.is_cover self.now }
    {
        self.search.pages().len() as u64
    }

    /// The page with a number. The root has number 0.
    pub fn page(&self, number: u64) -> Option<&Page<C::Key>>
        ensures exists { is_some result ≡ nat_lt number (length self.now.search.tree.pages) }
        ensures page { IfSome result (λ page. page.now ≡ page_at self.now.search.tree number) }
    {
        let table = self.search.pages();
        let number = u32::try_from(number).ok()?;
        if (number as usize) < table.len() {
            Some(table.page(number))
        } else {
            None
        }
    }

    /// The place of an open cursor, or why there is none.
    pub(crate) fn place_of(&self, c: u64) -> Result<usize, Refusal>
        ensures found { IfOk result (λ at. IsAt self.now c at) }
        ensures refused { IfErr result (FirstFails (cursor_tests self.now c)) }
    {
        if c == 0 || self.last < c {
            return Err(Refusal::NoSuchCursor);
        }
        place_of(self.cursors.as_slice(), c).ok_or(Refusal::CursorClosed)
    }

    /// Checks that a cursor is open.
    ///
    /// # Errors
    /// `NoSuchCursor` if the serial was never given, `CursorClosed` if its cursor is closed.
    pub fn check_cursor(&self, c: u64) -> Result<(), Refusal>
        ensures open { OnOk result (first_failing (cursor_tests self.now c) ≡ None) }
        ensures refused { IfErr result (FirstFails (cursor_tests self.now c)) }
    {
        self.recall_soundness();
        self.place_of(c)?;
        Ok(())
    }

    /// Makes one event, as one atomic step.
    pub fn step(&mut self, event: Event<C::Key, C::Atom>) -> Reply<C::Key, O::Consumer>
        ensures step { Step C.rules O.rule 0 self.old event result self.new }
        ensures sound { IsSoundWorld C.rules.is_cover self.new }
        ensures serves { ServesAll C.rules O.rule self.old event result self.new }
        ensures opening { FitsAtOpening C.rules O.rule result self.new }
        ensures less_work { LowersCursorWork C.rules O.rule self.old event result self.new }
        ensures rows { KeepsRowsUnder self.old event self.new }
        ensures mailboxes { KeepsMailboxes C.rules O.rule self.old self.new }
        ensures fresh { HandsOut O.fresh result }
        ensures commits { AddsWritten self.old event result self.new }
    {
        self.step_as(0, event)
    }

    /// Makes one event, as one atomic step, for a seat. A commit's reply has the seat's number.
    pub fn step_as(
        &mut self,
        seat: u32,
        event: Event<C::Key, C::Atom>,
    ) -> Reply<C::Key, O::Consumer>
        ensures step { Step C.rules O.rule seat self.old event result self.new }
        ensures sound { IsSoundWorld C.rules.is_cover self.new }
        ensures serves { ServesAll C.rules O.rule self.old event result self.new }
        ensures opening { FitsAtOpening C.rules O.rule result self.new }
        ensures less_work { LowersCursorWork C.rules O.rule self.old event result self.new }
        ensures rows { KeepsRowsUnder self.old event self.new }
        ensures mailboxes { KeepsMailboxes C.rules O.rule self.old self.new }
        ensures fresh { HandsOut O.fresh result }
        ensures commits { AddsWritten self.old event result self.new }
    {
        self.recall_soundness();
        self.answer(seat, event)
    }

    /// Proof hint, no code: brings the invariant of every world into view.
    pub fn recall_soundness(&self)
        ensures { IsSoundWorld C.rules.is_cover self.now }
    {
        let _limit = self.limit;
    }

    fn answer(&mut self, seat: u32, event: Event<C::Key, C::Atom>) -> Reply<C::Key, O::Consumer>
        ensures step { Step C.rules O.rule seat self.old event result self.new }
        ensures fresh { HandsOut O.fresh result }
    {
        match event {
            Event::Enlarge(parent, child, key) => self.enlarge(parent, child, key),
            Event::Place(page, key, tag) => Reply::of_commit(self.place(seat, page, key, tag)),
            Event::Split(page, sides) => self.split(page, &sides),
            Event::Post(parent, child) => self.post(parent, child),
            Event::Grow(sides) => self.grow(&sides),
            Event::Find(row) => Reply::of_finder(self.find(row)),
            Event::Seek(finder) => Reply::of_visit(self.seek(seat, finder)),
            Event::Move(finder, leaf, key) => {
                Reply::of_visit(self.move_row(seat, finder, leaf, key))
            }
            Event::Unfind(finder) => self.unfind(finder),
            Event::Sweep(page) => Reply::of_sweep(self.sweep(page)),
            Event::Open(query, room) => Reply::of_opening(self.open(query, room)),
            Event::Follow(query, room, commit) => {
                Reply::of_opening(self.follow(query, room, commit))
            }
            Event::Turn(cursor) => Reply::of_turn(self.turn(cursor)),
            Event::AskMark(cursor) => Reply::of_asking(self.ask_mark(cursor)),
            Event::Take(cursor) => Reply::of_taking(self.take(cursor)),
            Event::Close(cursor) => Reply::of_closing(self.close(cursor)),
        }
    }
}
