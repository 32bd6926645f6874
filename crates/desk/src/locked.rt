//! What lies under the lock, and the visits to it. A visit makes at most one event.
ghost use Rattle.std.specs.Prelude.{ℕ, ◌≡◌, ◌↔◌, ◌<◌, ◌≤◌, ◌+◌, [], length, Err, IfSome, IfNone, IfOk, IfErr, OnOk, OnErr};
ghost use mathlib.Core.List.{IsPrefix};
ghost use Rattle.rtrb.specs.Ring.{received};
ghost use Rattle.mailbox.specs.Rings.{ring_rule};
ghost use Rattle.world.specs.declared.event.Event.TheVariants as event;
ghost use Rattle.world.specs.States.{IsFullOfCommits};
ghost use Rattle.world.specs.Tasks.{VisitsPageNext};
ghost use Rattle.world.specs.Steps.{Opens, opened_cursor, following_cursor};
ghost use Rattle.writes.specs.InsertVisits.{Goes};
ghost use Rattle.writes.specs.Ending.{Looks};
ghost use Rattle.writes.specs.EndVisits.{Seeks};
ghost use Rattle.writes.specs.declared.ending.Ending.TheVariants as Ending;
ghost use Rattle.writes.specs.Moves.{Relocates};
ghost use Rattle.desk.specs.Visits.{MakesClose, Counts, CountsMoving, CountsSearch, IsHeld, IsMovingCommitted, IsSearchCommitted, IsSplitAtMost, IsSplitInTime, IsWayCommitted, MakesOneEvent, IsReplyTo, IsInsertRefused, IsDeleteRefused, IsMoveRefused, IsOpeningRefused, IsFollowingRefused};

use crate::seat::CommitsTold;
use change_list::{Item, View, Write};
use history::{History, Naming};
use key_class::{KeyClass, Pred, Refusal};
use mailbox::Ring;
use rtrb::Consumer;
use snapshot::Snapshot;
use std::alloc::Global;
use std::marker::Model;
use std::sync::Wait;
use std::sync::ledger::{Book, Ledger, Share};
use world::{Event, Reply, SplitTask, VisitTask, World};
use writes::{
    Moving, Search, Way, find_row, insert_step, move_step, seek_row, split_at_once, split_prepared,
};

/// What stands under the lock of a desk.
pub trait Guarded: Drop {
    ghost use Rattle.std.specs.Prelude.{List};

    /// What a commit is.
    type Commit;

    /// Its commits.
    ghost commits_of: { Self → List Self.Commit };

    /// Whether the world is sound, and each cursor's ring was sent only what fits the cursor.
    ghost is_held: { Self → Type 0 };
}

impl<C: KeyClass> Guarded for World<C, Ring<C::Key>> {
    ghost use Rattle.mailbox.specs.Rings.{ring_rule};
    ghost use Rattle.desk.specs.Visits.{IsHeld};

    type Commit = Write<C::Key>;

    ghost commits_of = { λ world. world.commits };

    ghost is_held = { λ world. IsHeld C.rules world };
}

/// The world, beside the history of its commits and the book of all shares.
#[derive(Drop)]
pub struct Locked<W: Guarded, L: Ledger + Naming> {
    pub(crate) world: W,
    pub(crate) history: History<W::Commit, L>,
    pub(crate) book: Book<L>,
}

impl<W: Guarded, L: Ledger + Naming> Model for Locked<W, L> {
    ghost use Rattle.std.specs.Prelude.{◌≡◌, List, length};

    ghost Value = { W };

    ghost view = { λ locked. locked.world };

    ghost invariant = { λ locked. (W.commits_of locked.world ≡ locked.history) × (length locked.history ≡ locked.book.total) × W.is_held locked.world };
}

impl<C: KeyClass, L: Ledger + Naming> Locked<World<C, Ring<C::Key>>, L> {
    pub(crate) fn new(
        world: World<C, Ring<C::Key>>,
        history: History<Write<C::Key>, L>,
        book: Book<L>,
    ) -> Self
        requires history { world.commits ≡ history }
        requires no_commits { length history ≡ book.total }
        requires no_cursors { world.cursors ≡ [] }
        ensures { result ≡ world }
    {
        world.recall_soundness();
        Locked {
            world,
            history,
            book,
        }
    }

    /// The book of all shares. It changes nothing: its clauses bring the invariant of what stands under the lock into
    /// view.
    pub fn book(&self) -> &Book<L>
        ensures held { IsHeld C.rules self.now }
        ensures total { result.now.total ≡ length self.now.commits }
    {
        &self.book
    }

    pub(crate) fn open_up(self) -> (World<C, Ring<C::Key>>, History<Write<C::Key>, L>, Book<L>)
        ensures world { result.0 ≡ self }
        ensures history { result.1 ≡ self.commits }
        ensures total { length self.commits ≡ result.2.total }
    {
        let Locked {
            world,
            history,
            book,
        } = self;
        (world, history, book)
    }

    /// A step of an insertion that has reached a page.
    pub(crate) fn insert_on<R: Wait>(
        &mut self,
        rt: &R,
        alloc: Global,
        seat: u32,
        share: &mut Share<L>,
        told: &mut CommitsTold<C, L>,
        page: u32,
        key: C::Key,
        tag: u64,
    ) -> Result<Way<C::Key>, Refusal>
        requires { 0 < share.old.parts }
        ensures goes { IfOk result (λ way.
            Goes C.rules self.old seat page key tag way self.new) }
        ensures share { IfOk result (Counts share.old.amount share.new.amount) }
        ensures parts { share.new.parts ≡ share.old.parts }
        ensures one_event { MakesOneEvent C.rules seat self.old self.new }
        ensures held { IsHeld C.rules self.old × IsHeld C.rules self.new }
        ensures unchanged { OnErr result (self.new ≡ self.old) }
        ensures uncounted { OnErr result (share.new.amount ≡ share.old.amount) }
        ensures full { (result ≡ Err Refusal.CommitsFull) ↔ IsFullOfCommits self.old }
        ensures seen { IsPrefix told.old told.new }
        ensures committed { IfOk result (IsWayCommitted C.rules told.old told.new) }
        ensures refusals { IfErr result (IsInsertRefused C.rules told.new) }
    {
        let Locked {
            world,
            history,
            book,
        } = self;
        let way = match insert_step(alloc, world, seat, page, key, tag) {
            Ok(way) => way,
            Err(why) => {
                history.show(rt, told);
                return Err(why);
            }
        };
        match way {
            Way::On(next) => Ok(Way::On(next)),
            Way::Split(full) => Ok(Way::Split(full)),
            Way::Placed(stamp) => {
                history.tell(rt, told, &Write::Insert(key, tag));
                book.add(share, 1);
                book.audit(share);
                Ok(Way::Placed(stamp))
            }
        }
    }

    /// Prepares the split of a page, to be worked out without the lock. `None` if the page can no longer be split.
    pub(crate) fn prepare_split(&self, page: u32) -> Result<Option<SplitTask<C>>, Refusal>
        ensures refusals { IfErr result (λ why. why ≡ Refusal.OutOfMemory) }
    {
        match self.world.prepare_split(u64::from(page)) {
            Ok(task) => Ok(Some(task)),
            Err(Refusal::OutOfMemory) => Err(Refusal::OutOfMemory),
            Err(_) => Ok(None),
        }
    }

    /// Splits a page by a prepared task. False if the task came too late.
    pub(crate) fn split_prepared<R: Wait>(
        &mut self,
        rt: &R,
        seat: u32,
        told: &mut CommitsTold<C, L>,
        task: SplitTask<C>,
    ) -> Result<bool, Refusal>
        ensures splits { IfOk result (IsSplitInTime C.rules seat self.old task self.new) }
        ensures commits { self.new.commits ≡ self.old.commits }
        ensures held { IsHeld C.rules self.old × IsHeld C.rules self.new }
        ensures unchanged { OnErr result (self.new ≡ self.old) }
        ensures seen { IsPrefix told.old told.new }
        ensures untold { OnOk result (told.new ≡ told.old) }
        ensures refusals { IfErr result (IsInsertRefused C.rules told.new) }
    {
        let split = split_prepared(&mut self.world, seat, task);
        if split.is_err() {
            self.history.show(rt, told);
        }
        split
    }

    /// Splits a page in this one visit.
    pub(crate) fn split_at_once<R: Wait>(
        &mut self,
        rt: &R,
        seat: u32,
        told: &mut CommitsTold<C, L>,
        page: u32,
    ) -> Result<(), Refusal>
        ensures splits { IsSplitAtMost C.rules seat self.old page self.new }
        ensures commits { self.new.commits ≡ self.old.commits }
        ensures held { IsHeld C.rules self.old × IsHeld C.rules self.new }
        ensures unchanged { OnErr result (self.new ≡ self.old) }
        ensures seen { IsPrefix told.old told.new }
        ensures untold { OnOk result (told.new ≡ told.old) }
        ensures refusals { IfErr result (IsInsertRefused C.rules told.new) }
    {
        let split = split_at_once(&mut self.world, seat, page);
        if split.is_err() {
            self.history.show(rt, told);
        }
        split
    }

    /// Opens a finder of a row, and gives its serial.
    pub(crate) fn find<R: Wait>(
        &mut self,
        rt: &R,
        told: &mut CommitsTold<C, L>,
        row: u64,
    ) -> Result<u64, Refusal>
        ensures looks { OnOk result (Looks self.old row self.new) }
        ensures serial { IfOk result (λ finder. finder ≡ self.old.last_finder + 1) }
        ensures one_event { MakesOneEvent C.rules 0 self.old self.new }
        ensures held { IsHeld C.rules self.old × IsHeld C.rules self.new }
        ensures unchanged { OnErr result (self.new ≡ self.old) }
        ensures seen { IsPrefix told.old told.new }
        ensures untold { OnOk result (told.new ≡ told.old) }
        ensures refusals { IfErr result (IsDeleteRefused C.rules told.new row) }
    {
        let found = find_row(&mut self.world, row);
        if found.is_err() {
            self.history.show(rt, told);
        }
        found
    }

    /// A step of a finder of a row.
    pub(crate) fn seek<R: Wait>(
        &mut self,
        rt: &R,
        seat: u32,
        share: &mut Share<L>,
        told: &mut CommitsTold<C, L>,
        finder: u64,
        row: u64,
    ) -> Result<Search<C::Key>, Refusal>
        requires { 0 < share.old.parts }
        ensures seeks { IfOk result (λ search.
            Seeks C.rules ring_rule self.old seat finder row Ending.Delete search self.new) }
        ensures share { IfOk result (CountsSearch share.old.amount share.new.amount) }
        ensures parts { share.new.parts ≡ share.old.parts }
        ensures one_event { MakesOneEvent C.rules seat self.old self.new }
        ensures held { IsHeld C.rules self.old × IsHeld C.rules self.new }
        ensures unchanged { OnErr result (self.new ≡ self.old) }
        ensures uncounted { OnErr result (share.new.amount ≡ share.old.amount) }
        ensures seen { IsPrefix told.old told.new }
        ensures committed { IfOk result (IsSearchCommitted C.rules told.old told.new) }
        ensures refusals { IfErr result (IsDeleteRefused C.rules told.new row) }
    {
        let Locked {
            world,
            history,
            book,
        } = self;
        let search = match seek_row(world, seat, finder, row) {
            Ok(search) => search,
            Err(why) => {
                history.show(rt, told);
                return Err(why);
            }
        };
        match search {
            Search::On => Ok(Search::On),
            Search::Lost => Ok(Search::Lost),
            Search::Ended(stamp) => {
                history.tell(rt, told, &Write::Delete(row));
                book.add(share, 1);
                book.audit(share);
                Ok(Search::Ended(stamp))
            }
        }
    }

    /// A step of a move whose way has reached a page.
    pub(crate) fn move_step<R: Wait>(
        &mut self,
        rt: &R,
        alloc: Global,
        seat: u32,
        share: &mut Share<L>,
        told: &mut CommitsTold<C, L>,
        page: u32,
        finder: u64,
        row: u64,
        key: C::Key,
    ) -> Result<Moving<C::Key>, Refusal>
        requires { 0 < share.old.parts }
        ensures moves { IfOk result (λ moving.
            Relocates C.rules ring_rule self.old seat page finder row key moving self.new) }
        ensures share { IfOk result (CountsMoving share.old.amount share.new.amount) }
        ensures parts { share.new.parts ≡ share.old.parts }
        ensures one_event { MakesOneEvent C.rules seat self.old self.new }
        ensures held { IsHeld C.rules self.old × IsHeld C.rules self.new }
        ensures unchanged { OnErr result (self.new ≡ self.old) }
        ensures uncounted { OnErr result (share.new.amount ≡ share.old.amount) }
        ensures seen { IsPrefix told.old told.new }
        ensures committed { IfOk result (IsMovingCommitted C.rules told.old told.new) }
        ensures refusals { IfErr result (IsMoveRefused C.rules told.new row) }
    {
        let Locked {
            world,
            history,
            book,
        } = self;
        let moving = match move_step(alloc, world, seat, page, finder, row, key) {
            Ok(moving) => moving,
            Err(why) => {
                history.show(rt, told);
                return Err(why);
            }
        };
        match moving {
            Moving::On(next) => Ok(Moving::On(next)),
            Moving::Split(full) => Ok(Moving::Split(full)),
            Moving::Lost => Ok(Moving::Lost),
            Moving::Moved(stamp) => {
                history.tell(rt, told, &Write::Move(row, key));
                book.add(share, 1);
                book.audit(share);
                Ok(Moving::Moved(stamp))
            }
        }
    }

    /// Ends a finder.
    pub(crate) fn unfind(&mut self, finder: u64) -> Reply<C::Key, Consumer<Item<C::Key>>>
        ensures step { IsReplyTo C.rules (event.Unfind finder) self.old self.new result }
        ensures held { IsHeld C.rules self.old × IsHeld C.rules self.new }
    {
        self.world.step(Event::Unfind(finder))
    }

    /// Opens a cursor: its serial, the number of commits, and the consumer's end of its ring. The seat is told the
    /// commits, and its share is at most their number.
    pub(crate) fn open<R: Wait>(
        &mut self,
        rt: &R,
        share: &mut Share<L>,
        told: &mut CommitsTold<C, L>,
        query: Pred<C::Atom>,
        room: u64,
    ) -> Result<(u64, u64, Consumer<Item<C::Key>>), Refusal>
        ensures opens { IfOk result
            (λ made. Opens self.old (opened_cursor self.old query room) made.0 self.new) }
        ensures opened { IfOk result (λ made. made.1 ≡ length self.old.commits) }
        ensures audited { IfOk result (λ made. share.new.amount ≤ made.1) }
        ensures fresh { IfOk result (λ made. received made.2 ≡ []) }
        ensures share { share.new.amount ≡ share.old.amount }
        ensures parts { share.new.parts ≡ share.old.parts }
        ensures one_event { MakesOneEvent C.rules 0 self.old self.new }
        ensures held { IsHeld C.rules self.old × IsHeld C.rules self.new }
        ensures unchanged { OnErr result (self.new ≡ self.old) }
        ensures seen { IsPrefix told.old told.new }
        ensures whole { told.new ≡ self.old.commits }
        ensures refusals { IfErr result (IsOpeningRefused C.rules told.new query room) }
    {
        let Locked {
            world,
            history,
            book,
        } = self;
        book.audit(share);
        history.show(rt, told);
        let opened = world.commits();
        let (cursor, end) = world.open_cursor(query, room)?;
        Ok((cursor, opened, end))
    }

    /// Opens a cursor that follows a commit: its serial, and the consumer's end of its ring. The seat is told the
    /// commits, and its share is at most their number.
    pub(crate) fn follow<R: Wait>(
        &mut self,
        rt: &R,
        share: &mut Share<L>,
        told: &mut CommitsTold<C, L>,
        query: Pred<C::Atom>,
        room: u64,
        commit: u64,
    ) -> Result<(u64, Consumer<Item<C::Key>>), Refusal>
        ensures opens { IfOk result
            (λ made. Opens self.old (following_cursor self.old query room commit) made.0 self.new) }
        ensures there { OnOk result (commit ≤ length self.old.commits) }
        ensures future { (result ≡ Err Refusal.FromFuture) → length self.old.commits < commit }
        ensures audited { share.new.amount ≤ length self.old.commits }
        ensures fresh { IfOk result (λ made. received made.1 ≡ []) }
        ensures share { share.new.amount ≡ share.old.amount }
        ensures parts { share.new.parts ≡ share.old.parts }
        ensures one_event { MakesOneEvent C.rules 0 self.old self.new }
        ensures held { IsHeld C.rules self.old × IsHeld C.rules self.new }
        ensures unchanged { OnErr result (self.new ≡ self.old) }
        ensures seen { IsPrefix told.old told.new }
        ensures whole { told.new ≡ self.old.commits }
        ensures refusals { IfErr result (IsFollowingRefused C.rules told.new query room commit) }
    {
        let Locked {
            world,
            history,
            book,
        } = self;
        book.audit(share);
        history.show(rt, told);
        let (cursor, end) = world.follow_commit(query, room, commit)?;
        Ok((cursor, end))
    }

    /// A cursor's turn.
    pub(crate) fn turn(&mut self, cursor: u64) -> Reply<C::Key, Consumer<Item<C::Key>>>
        ensures step { IsReplyTo C.rules (event.Turn cursor) self.old self.new result }
        ensures held { IsHeld C.rules self.old × IsHeld C.rules self.new }
    {
        self.world.step(Event::Turn(cursor))
    }

    /// A cursor's turn, unless it would visit a page: then nothing is done, and the page's number is given.
    pub(crate) fn turn_unless_visit(
        &mut self,
        cursor: u64,
    ) -> Result<Reply<C::Key, Consumer<Item<C::Key>>>, u32>
        ensures step { IfOk result (IsReplyTo C.rules (event.Turn cursor) self.old self.new) }
        ensures page { IfErr result (VisitsPageNext self.old cursor) }
        ensures unchanged { OnErr result (self.new ≡ self.old) }
        ensures held { IsHeld C.rules self.old × IsHeld C.rules self.new }
    {
        match self.world.page_to_visit(cursor) {
            Some(page) => Err(page),
            None => Ok(self.world.step(Event::Turn(cursor))),
        }
    }

    /// Prepares the visit that a cursor's next turn makes, to be worked out without the lock. `None` if its next turn
    /// is no visit.
    pub(crate) fn prepare_visit(&self, cursor: u64) -> Option<VisitTask<C>>
        ensures { IfSome result (λ task. task.cursor ≡ cursor) }
    {
        self.world.prepare_visit(cursor).ok()
    }

    /// Publishes a prepared visit as its cursor's turn. `None`, without effect, if it came too late.
    pub(crate) fn turn_prepared(
        &mut self,
        cursor: u64,
        task: VisitTask<C>,
    ) -> Option<Reply<C::Key, Consumer<Item<C::Key>>>>
        requires { task.cursor ≡ cursor }
        ensures step { IfSome result (IsReplyTo C.rules (event.Turn cursor) self.old self.new) }
        ensures late { IfNone result (self.new ≡ self.old) }
        ensures held { IsHeld C.rules self.old × IsHeld C.rules self.new }
    {
        match self.world.publish_visit(0, task) {
            Reply::Refused(Refusal::NotHere) => None,
            reply => Some(reply),
        }
    }

    /// Asks a cursor for a mark.
    pub(crate) fn ask_mark(&mut self, cursor: u64) -> Reply<C::Key, Consumer<Item<C::Key>>>
        ensures step { IsReplyTo C.rules (event.AskMark cursor) self.old self.new result }
        ensures held { IsHeld C.rules self.old × IsHeld C.rules self.new }
    {
        self.world.step(Event::AskMark(cursor))
    }

    /// Sweeps a leaf.
    pub(crate) fn sweep(&mut self, leaf: u64) -> Reply<C::Key, Consumer<Item<C::Key>>>
        ensures step { IsReplyTo C.rules (event.Sweep leaf) self.old self.new result }
        ensures held { IsHeld C.rules self.old × IsHeld C.rules self.new }
    {
        self.world.step(Event::Sweep(leaf))
    }

    /// Closes a cursor.
    pub(crate) fn close(&mut self, cursor: u64) -> Reply<C::Key, Consumer<Item<C::Key>>>
        ensures step { IsReplyTo C.rules (event.Close cursor) self.old self.new result }
        ensures held { IsHeld C.rules self.old × IsHeld C.rules self.new }
    {
        self.world.step(Event::Close(cursor))
    }

    /// Closes a cursor, and gives a view of the commits, if there is memory for one. The seat is told the commits,
    /// and its share is at most their number.
    pub(crate) fn close_with_view<R: Wait>(
        &mut self,
        rt: &R,
        share: &mut Share<L>,
        told: &mut CommitsTold<C, L>,
        cursor: u64,
    ) -> Option<View<C::Key>>
        ensures closed { MakesClose C.rules self.old cursor self.new }
        ensures view { IfSome result (λ view. view ≡ self.old.commits) }
        ensures number { share.new.amount ≤ length self.old.commits }
        ensures share { share.new.amount ≡ share.old.amount }
        ensures parts { share.new.parts ≡ share.old.parts }
        ensures seen { IsPrefix told.old told.new }
        ensures whole { told.new ≡ self.old.commits }
        ensures held { IsHeld C.rules self.old × IsHeld C.rules self.new }
    {
        let Locked {
            world,
            history,
            book,
        } = self;
        book.audit(share);
        history.show(rt, told);
        let view = world.view().ok();
        let _closed = world.step(Event::Close(cursor));
        view
    }

    /// A snapshot of the commits with the tree, if there is memory for one. The seat is told the commits, and its
    /// share is at most their number.
    pub(crate) fn snapshot<R: Wait>(
        &mut self,
        rt: &R,
        share: &mut Share<L>,
        told: &mut CommitsTold<C, L>,
    ) -> Result<Snapshot<C>, Refusal>
        ensures shows { IfOk result (λ snapshot. snapshot ≡ self.old.commits) }
        ensures refusals { IfErr result (λ why. why ≡ Refusal.OutOfMemory) }
        ensures unchanged { self.new ≡ self.old }
        ensures number { share.new.amount ≤ length self.old.commits }
        ensures share { share.new.amount ≡ share.old.amount }
        ensures parts { share.new.parts ≡ share.old.parts }
        ensures seen { IsPrefix told.old told.new }
        ensures whole { told.new ≡ self.old.commits }
        ensures held { IsHeld C.rules self.old × IsHeld C.rules self.new }
    {
        let Locked {
            world,
            history,
            book,
        } = self;
        book.audit(share);
        history.show(rt, told);
        world.snapshot()
    }

    /// How many commits there are.
    pub(crate) fn commits(&self) -> u64
        ensures number { result ≡ length self.now.commits }
        ensures held { IsHeld C.rules self.now }
    {
        self.world.commits()
    }
}
