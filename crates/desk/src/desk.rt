//! The desk: a world under a lock, and the calls of its clients. Each call takes the lock once or more, and makes at
//! most one event each time.
ghost use mathlib.Core.List.{IsPrefix};
ghost use Rattle.key_class.specs.Limits.{most_seats};
ghost use Rattle.std.specs.Prelude.{◌≡◌, ◌↔◌, ◌<◌, ◌≤◌, ◌+◌, ℕ, [], ◌∷◌, ◌++◌, length, Some, Err, true, false, IfSome, IfOk, IfErr, OnOk, OnErr};
ghost use Rattle.key_class.specs.Queries.{query_of};
ghost use Rattle.change_list.specs.declared.write.Write.TheVariants.{Insert, Delete, Move};
ghost use Rattle.world.specs.declared.event.Event.TheVariants as event;
ghost use Rattle.desk.specs.Seats.{AreFresh, IsLastOf, IsStampOf};
ghost use Rattle.desk.specs.Visits.{CountsMoving, CountsSearch, IsDelete, IsMove, IsVisit, IsCommitted, IsMovingCommitted, IsSearchCommitted, CountsOne, IsBadDesk, IsFinderEnded, SplitsFull, WasFull, OutOfMemoryOr, OpensFor, IsReplied, FollowsFor, ClosesWithView, IsInsertRefused, IsDeleteRefused, IsMoveRefused, IsOpeningRefused, IsFollowingRefused, ShowsCommits, CountsCommits};
ghost use Rattle.desk.specs.Weaving.{SeatStands};
ghost use Rattle.key_class.specs.Refusals.{IsEither};
ghost use Rattle.std.specs.Vec.{vec_capacity};

use crate::latches::Latches;
use crate::locked::{Guarded, Locked};
use crate::priority_lock::PriorityLock;
use crate::seat::{CommitsTold, Seat};
use crate::taker::Taker;
use change_list::{Config, Item, View, Write};
use history::{BlankHistory, Naming};
use key_class::limits::MAX_SEATS;
use key_class::{KeyClass, Pred, Refusal};
use mailbox::Ring;
use rtrb::Consumer;
use snapshot::Snapshot;
use std::alloc::{AllocError, Global};
use std::marker::Model;
use std::sync::atomic::{AtomicBool, Ordering};
use std::sync::ledger::{Blank, Ledger, Share};
use std::sync::{Condvar, Wait};
use world::{Reply, SplitTask, Stamped, VisitTask, World};
use writes::{Moving, Search, Way};

/// A world under a lock, shared by as many seats as the ledger has parts.
#[derive(Drop)]
pub struct DeskOver<W: Guarded, L: Ledger + Naming> {
    pub(crate) alloc: Global,
    pub(crate) locked: PriorityLock<Locked<W, L>>,
    /// Signalled at each commit; waiters sleep on it under the lock.
    grown: Condvar,
    pub(crate) latches: Latches,
    pub(crate) seats: usize,
}

/// A desk over a world of a class.
pub type Desk<C, L> = DeskOver<World<C, Ring<<C as KeyClass>::Key>>, L>;

impl<W: Guarded, L: Ledger + Naming> Model for DeskOver<W, L> {
    ghost use Rattle.std.specs.Prelude.{◌≡◌, ◌<◌, ℕ};

    ghost Value = { ℕ };

    ghost view = { λ d. d.seats };

    ghost invariant = { λ d. (d.seats ≡ L.parts) × (0 < d.seats) };
}

/// How many prepared tasks may come too late before the event is made in one visit instead, so that a call makes
/// progress.
const PUBLICATIONS: u32 = 4;

/// Works out the sides of a prepared split. `None` if its page has too few entries.
fn worked_split<C: KeyClass>(task: SplitTask<C>) -> Result<Option<SplitTask<C>>, Refusal>
    ensures refusals { IfErr result (λ why. why ≡ Refusal.OutOfMemory) }
{
    let mut task = task;
    match task.work() {
        Ok(()) => Ok(Some(task)),
        Err(Refusal::OutOfMemory) => Err(Refusal::OutOfMemory),
        Err(_) => Ok(None),
    }
}

/// Tests the entries that a prepared visit reads. `None` if memory ran out.
fn worked_visit<C: KeyClass>(task: VisitTask<C>) -> Option<VisitTask<C>>
    ensures { IfSome result (λ worked. worked.cursor ≡ task.cursor) }
{
    let mut task = task;
    match task.work() {
        Ok(()) => Some(task),
        Err(_) => None,
    }
}

/// Seats that share all parts of a ledger, and have been told of no commit yet.
fn seats_of<C: KeyClass, L: Ledger + Naming>(
    alloc: Global,
    all: Share<L>,
    told: &CommitsTold<C, L>,
    seats: usize,
) -> Result<Vec<Seat<C, L>>, AllocError>
    requires share { (all.parts ≡ seats) × (all.amount ≡ 0) × (seats ≤ most_seats) }
    requires told { told.now ≡ [] }
    ensures seats { IfOk result (λ made. length made.items ≡ seats) }
    ensures fresh { IfOk result (λ made. AreFresh seats made.items) }
{
    let mut all = all;
    let mut made = Vec::with_capacity(alloc, seats)?;
    for i in 0..seats {
        let share = all.split_off(1, 0);
        made.push_reserved(Seat::new(alloc, i as u32 + 1, share, told.again()));
    }
    Ok(made)
}

impl<C: KeyClass, L: Ledger + Naming> DeskOver<World<C, Ring<C::Key>>, L> {
    /// A desk with one empty leaf, and its seats, numbered from 1. Each commit is added to the history handed in, and
    /// seats are told beginnings of it.
    ///
    /// # Errors
    /// `BadConfig` if a limit of the configuration or the number of seats (1 to 64) is out of range, else
    /// `OutOfMemory`.
    pub fn new(
        alloc: Global,
        blank: Blank,
        history: BlankHistory<Write<C::Key>>,
        config: Config,
        seats: usize,
    ) -> Result<(Desk<C, L>, Vec<Seat<C, L>>), Refusal>
        requires name { blank.name ≡ L.name }
        requires parts { blank.parts ≡ L.parts }
        requires one_each { blank.parts ≡ seats }
        requires history { history ≡ L.history }
        ensures desk { IfOk result (λ made. made.0 ≡ seats) }
        ensures seats { IfOk result (λ made. length made.1.items ≡ seats) }
        ensures fresh { IfOk result (λ made. AreFresh seats made.1.items) }
        ensures bad { (result ≡ Err Refusal.BadConfig) ↔ IsBadDesk seats config }
        ensures refusals { IfErr result (IsEither Refusal.BadConfig Refusal.OutOfMemory) }
    {
        if seats == 0 || seats > MAX_SEATS {
            return Err(Refusal::BadConfig);
        }
        let world = World::<C, Ring<C::Key>>::new(alloc, config)?;
        let (book, all) = blank.open::<L>();
        let history = history.open::<L>();
        let Ok(made) = seats_of(alloc, all, history.all(), seats) else {
            return Err(Refusal::OutOfMemory);
        };
        let locked = PriorityLock::new(Locked::new(world, history, book));
        Ok((
            DeskOver {
                alloc,
                locked,
                grown: Condvar::new(),
                latches: Latches::new(),
                seats,
            },
            made,
        ))
    }

    /// Inserts a row for a seat.
    ///
    /// # Errors
    /// `CommitsFull`, `PagesFull`, or `OutOfMemory`. No commit is made then.
    #[tactic(auto, using(crate::proofs::Answering::answers_on, crate::proofs::Answering::last_of))]
    pub fn insert<R: Wait>(
        &self,
        rt: &R,
        seat: &mut Seat<C, L>,
        key: C::Key,
        tag: u64,
    ) -> Result<Stamped<C::Key>, Refusal>
        ensures stamp { IfOk result (IsStampOf seat.old.number (Insert key tag)) }
        ensures stamps { IfOk result (λ s. seat.new.stamps ≡ seat.old.stamps ++ s ∷ []) }
        ensures number { IfOk result (λ s. length seat.new.stamps ≤ s.number) }
        ensures seat { seat.new.number ≡ seat.old.number }
        ensures seen { IsPrefix seat.old.told seat.new.told }
        ensures last { IfOk result (IsLastOf seat.new.told) }
        ensures refused { OnErr result (seat.new ≡ record seat.old { told = seat.new.told }) }
        ensures committed { IfOk result (IsCommitted C.rules seat.old.told seat.new.told) }
        ensures refusals { IfErr result (OutOfMemoryOr (IsInsertRefused C.rules seat.new.told)) }
    {
        if seat.stamps.try_reserve(1).is_err() {
            return Err(Refusal::OutOfMemory);
        }
        let number = seat.number;
        let stamped = self.insert_for(rt, number, &mut seat.share, &mut seat.told, key, tag)?;
        self.keep(&mut seat.stamps, stamped);
        Ok(stamped)
    }

    /// Keeps the stamp of a commit made for a seat, and wakes the threads that wait for a commit.
    fn keep(&self, stamps: &mut Vec<Stamped<C::Key>>, stamped: Stamped<C::Key>)
        requires room { length stamps.old.items < vec_capacity stamps.old }
        ensures { stamps.new.items ≡ stamps.old.items ++ stamped ∷ [] }
    {
        self.grown.notify_all();
        stamps.push_reserved(stamped);
    }

    /// Visits the lock until the row is placed or a visit is refused.
    #[tactic(auto, using(crate::proofs::Answering::same_told, crate::proofs::Answering::told_on, crate::proofs::Answering::committed_on))]
    fn insert_for<R: Wait>(
        &self,
        rt: &R,
        number: u32,
        share: &mut Share<L>,
        told: &mut CommitsTold<C, L>,
        key: C::Key,
        tag: u64,
    ) -> Result<Stamped<C::Key>, Refusal>
        requires { 0 < share.old.parts }
        ensures stamp { IfOk result (IsStampOf number (Insert key tag)) }
        ensures share { IfOk result (CountsOne share.old.amount share.new.amount) }
        ensures parts { share.new.parts ≡ share.old.parts }
        ensures refused { OnErr result (share.new.amount ≡ share.old.amount) }
        ensures seen { IsPrefix told.old told.new }
        ensures committed { IfOk result (IsCommitted C.rules told.old told.new) }
        ensures refusals { IfErr result (OutOfMemoryOr (IsInsertRefused C.rules told.new)) }
    {
        let alloc = self.alloc;
        let mut page = 0;
        for _ in rt.forever() {
            let way = self
                .locked
                .lock(rt)
                .insert_on(rt, alloc, number, share, told, page, key, tag)?;
            match way {
                Way::On(next) => page = next,
                Way::Split(full) => self.split_for(rt, number, told, full)?,
                Way::Placed(stamped) => return Ok(stamped),
            }
        }
        unreachable!()
    }

    /// Splits a page on an insertion's way. The sides are worked out without the lock, under the page's latch; if the
    /// page keeps changing meanwhile, it is split in one visit.
    #[tactic(auto, using(crate::proofs::Answering::same_told, crate::proofs::Answering::told_on, crate::proofs::Answering::committed_on))]
    fn split_for<R: Wait>(
        &self,
        rt: &R,
        number: u32,
        told: &mut CommitsTold<C, L>,
        page: u32,
    ) -> Result<(), Refusal>
        requires full { WasFull C.rules page }
        ensures seen { IsPrefix told.old told.new }
        ensures untold { OnOk result (told.new ≡ told.old) }
        ensures refusals { IfErr result (OutOfMemoryOr (IsInsertRefused C.rules told.new)) }
    {
        let _latch = self.latches.of(page).lock(rt);
        for _ in 0..PUBLICATIONS {
            let Some(task) = self.locked.lock(rt).prepare_split(page)? else {
                return Ok(());
            };
            let Some(task) = worked_split(task)? else {
                return Ok(());
            };
            if self.locked.lock(rt).split_prepared(rt, number, told, task)? {
                return Ok(());
            }
        }
        self.locked.lock(rt).split_at_once(rt, number, told, page)
    }

    /// Deletes a row for a seat.
    ///
    /// # Errors
    /// `NoSuchRow`, `AlreadyDeleted`, `CommitsFull`, `FindersFull` once the serials of finders are used up, or
    /// `OutOfMemory`. No commit is made then.
    #[tactic(auto, using(crate::proofs::Answering::answers_on, crate::proofs::Answering::last_of))]
    pub fn delete<R: Wait>(
        &self,
        rt: &R,
        seat: &mut Seat<C, L>,
        row: u64,
    ) -> Result<Stamped<C::Key>, Refusal>
        ensures stamp { IfOk result (IsStampOf seat.old.number (Delete row)) }
        ensures stamps { IfOk result (λ s. seat.new.stamps ≡ seat.old.stamps ++ s ∷ []) }
        ensures number { IfOk result (λ s. length seat.new.stamps ≤ s.number) }
        ensures seat { seat.new.number ≡ seat.old.number }
        ensures seen { IsPrefix seat.old.told seat.new.told }
        ensures last { IfOk result (IsLastOf seat.new.told) }
        ensures refused { OnErr result (seat.new ≡ record seat.old { told = seat.new.told }) }
        ensures committed { IfOk result (IsCommitted C.rules seat.old.told seat.new.told) }
        ensures refusals { IfErr result
            (OutOfMemoryOr (IsDeleteRefused C.rules seat.new.told row)) }
    {
        if seat.stamps.try_reserve(1).is_err() {
            return Err(Refusal::OutOfMemory);
        }
        let number = seat.number;
        let stamped = self.delete_for(rt, number, &mut seat.share, &mut seat.told, row)?;
        self.keep(&mut seat.stamps, stamped);
        Ok(stamped)
    }

    /// Visits the lock until the row is deleted or a visit is refused.
    #[tactic(auto, using(crate::proofs::Answering::same_told, crate::proofs::Answering::told_on, crate::proofs::Answering::committed_on))]
    fn delete_for<R: Wait>(
        &self,
        rt: &R,
        number: u32,
        share: &mut Share<L>,
        told: &mut CommitsTold<C, L>,
        row: u64,
    ) -> Result<Stamped<C::Key>, Refusal>
        requires { 0 < share.old.parts }
        ensures stamp { IfOk result (IsStampOf number (Delete row)) }
        ensures share { IfOk result (CountsOne share.old.amount share.new.amount) }
        ensures parts { share.new.parts ≡ share.old.parts }
        ensures refused { OnErr result (share.new.amount ≡ share.old.amount) }
        ensures seen { IsPrefix told.old told.new }
        ensures committed { IfOk result (IsCommitted C.rules told.old told.new) }
        ensures refusals { IfErr result (OutOfMemoryOr (IsDeleteRefused C.rules told.new row)) }
    {
        let mut finder = self.find_for(rt, told, row)?;
        for _ in rt.forever() {
            let search = self.seek_for(rt, number, share, told, finder, row)?;
            match search {
                Search::On => {}
                Search::Lost => finder = self.find_for(rt, told, row)?,
                Search::Ended(stamped) => return Ok(stamped),
            }
        }
        unreachable!()
    }

    /// Opens a finder of a row, and gives its serial.
    fn find_for<R: Wait>(
        &self,
        rt: &R,
        told: &mut CommitsTold<C, L>,
        row: u64,
    ) -> Result<u64, Refusal>
        ensures seen { IsPrefix told.old told.new }
        ensures untold { OnOk result (told.new ≡ told.old) }
        ensures refusals { IfErr result (IsDeleteRefused C.rules told.new row) }
    {
        self.locked.lock(rt).find(rt, told, row)
    }

    /// Ends a finder.
    fn end_finder<R: Wait>(&self, rt: &R, finder: u64)
        ensures { IsFinderEnded C.rules finder }
    {
        let _reply = self.locked.lock(rt).unfind(finder);
    }

    /// One step of a finder. A refusal ends the finder.
    fn seek_for<R: Wait>(
        &self,
        rt: &R,
        number: u32,
        share: &mut Share<L>,
        told: &mut CommitsTold<C, L>,
        finder: u64,
        row: u64,
    ) -> Result<Search<C::Key>, Refusal>
        requires { 0 < share.old.parts }
        ensures ended { OnErr result (IsFinderEnded C.rules finder) }
        ensures stamp { IfOk result (IsDelete number row) }
        ensures share { IfOk result (CountsSearch share.old.amount share.new.amount) }
        ensures parts { share.new.parts ≡ share.old.parts }
        ensures refused { OnErr result (share.new.amount ≡ share.old.amount) }
        ensures seen { IsPrefix told.old told.new }
        ensures committed { IfOk result (IsSearchCommitted C.rules told.old told.new) }
        ensures refusals { IfErr result (IsDeleteRefused C.rules told.new row) }
    {
        let search = self
            .locked
            .lock(rt)
            .seek(rt, number, share, told, finder, row);
        if search.is_err() {
            self.end_finder(rt, finder);
        }
        search
    }

    /// Moves a row for a seat: one commit ends it and begins another with its tag and this key.
    ///
    /// # Errors
    /// `NoSuchRow`, `AlreadyDeleted`, `CommitsFull`, `PagesFull`, `FindersFull` once the serials of finders are used up, or
    /// `OutOfMemory`. No commit is made then.
    #[tactic(auto, using(crate::proofs::Answering::answers_on, crate::proofs::Answering::last_of))]
    pub fn move_row<R: Wait>(
        &self,
        rt: &R,
        seat: &mut Seat<C, L>,
        row: u64,
        key: C::Key,
    ) -> Result<Stamped<C::Key>, Refusal>
        ensures stamp { IfOk result (IsStampOf seat.old.number (Move row key)) }
        ensures stamps { IfOk result (λ s. seat.new.stamps ≡ seat.old.stamps ++ s ∷ []) }
        ensures number { IfOk result (λ s. length seat.new.stamps ≤ s.number) }
        ensures seat { seat.new.number ≡ seat.old.number }
        ensures seen { IsPrefix seat.old.told seat.new.told }
        ensures last { IfOk result (IsLastOf seat.new.told) }
        ensures refused { OnErr result (seat.new ≡ record seat.old { told = seat.new.told }) }
        ensures committed { IfOk result (IsCommitted C.rules seat.old.told seat.new.told) }
        ensures refusals { IfErr result
            (OutOfMemoryOr (IsMoveRefused C.rules seat.new.told row)) }
    {
        if seat.stamps.try_reserve(1).is_err() {
            return Err(Refusal::OutOfMemory);
        }
        let number = seat.number;
        let stamped = self.move_for(rt, number, &mut seat.share, &mut seat.told, row, key)?;
        self.keep(&mut seat.stamps, stamped);
        Ok(stamped)
    }

    /// Visits the lock until the row is moved or a visit is refused.
    #[tactic(auto, using(crate::proofs::Answering::same_told, crate::proofs::Answering::told_on, crate::proofs::Answering::committed_on))]
    fn move_for<R: Wait>(
        &self,
        rt: &R,
        number: u32,
        share: &mut Share<L>,
        told: &mut CommitsTold<C, L>,
        row: u64,
        key: C::Key,
    ) -> Result<Stamped<C::Key>, Refusal>
        requires { 0 < share.old.parts }
        ensures stamp { IfOk result (IsStampOf number (Move row key)) }
        ensures share { IfOk result (CountsOne share.old.amount share.new.amount) }
        ensures parts { share.new.parts ≡ share.old.parts }
        ensures refused { OnErr result (share.new.amount ≡ share.old.amount) }
        ensures seen { IsPrefix told.old told.new }
        ensures committed { IfOk result (IsCommitted C.rules told.old told.new) }
        ensures refusals { IfErr result (OutOfMemoryOr (IsMoveRefused C.rules told.new row)) }
    {
        let mut page = 0;
        // serials start at 1, so no finder has this one
        let mut finder = 0;
        for _ in rt.forever() {
            let moving = self.move_on(rt, number, share, told, page, finder, row, key)?;
            match moving {
                Moving::On(next) => page = next,
                Moving::Split(full) => self.split_moving(rt, number, told, full, finder)?,
                Moving::Lost => finder = self.find_for(rt, told, row)?,
                Moving::Moved(stamped) => return Ok(stamped),
            }
        }
        unreachable!()
    }

    /// One step of a move. A refusal ends its finder.
    fn move_on<R: Wait>(
        &self,
        rt: &R,
        number: u32,
        share: &mut Share<L>,
        told: &mut CommitsTold<C, L>,
        page: u32,
        finder: u64,
        row: u64,
        key: C::Key,
    ) -> Result<Moving<C::Key>, Refusal>
        requires { 0 < share.old.parts }
        ensures ended { OnErr result (IsFinderEnded C.rules finder) }
        ensures full { IfOk result (λ moving. SplitsFull C.rules moving) }
        ensures stamp { IfOk result (IsMove number row key) }
        ensures share { IfOk result (CountsMoving share.old.amount share.new.amount) }
        ensures parts { share.new.parts ≡ share.old.parts }
        ensures refused { OnErr result (share.new.amount ≡ share.old.amount) }
        ensures seen { IsPrefix told.old told.new }
        ensures committed { IfOk result (IsMovingCommitted C.rules told.old told.new) }
        ensures refusals { IfErr result (IsMoveRefused C.rules told.new row) }
    {
        let alloc = self.alloc;
        let moving = self
            .locked
            .lock(rt)
            .move_step(rt, alloc, number, share, told, page, finder, row, key);
        if moving.is_err() {
            self.end_finder(rt, finder);
        }
        moving
    }

    /// Splits a page on a move's way. A refusal ends the move's finder.
    fn split_moving<R: Wait>(
        &self,
        rt: &R,
        number: u32,
        told: &mut CommitsTold<C, L>,
        page: u32,
        finder: u64,
    ) -> Result<(), Refusal>
        requires full { WasFull C.rules page }
        ensures seen { IsPrefix told.old told.new }
        ensures untold { OnOk result (told.new ≡ told.old) }
        ensures refusals { IfErr result (OutOfMemoryOr (IsInsertRefused C.rules told.new)) }
        ensures ended { OnErr result (IsFinderEnded C.rules finder) }
    {
        let split = self.split_for(rt, number, told, page);
        if split.is_err() {
            self.end_finder(rt, finder);
        }
        split
    }

    /// Opens a cursor at the present commits, and gives its taker: the end of the ring from which its items are
    /// taken.
    ///
    /// # Errors
    /// `BadConfig` if the room (1 to 4,096) or the query's depth (at most 32) is out of range, `CursorsFull`, or
    /// `OutOfMemory`.
    pub fn open_cursor<'d, R: Wait>(
        &'d self,
        rt: &R,
        seat: &mut Seat<C, L>,
        query: Pred<C::Atom>,
        room: u64,
    ) -> Result<Taker<'d, C, L>, Refusal>
        ensures seat { seat.new ≡ record seat.old { told = seat.new.told } }
        ensures seen { IsPrefix seat.old.told seat.new.told }
        ensures query { IfOk result (λ t. t.query ≡ query_of query) }
        ensures follows { IfOk result (λ t. t.follows ≡ false) }
        ensures opened { IfOk result (λ t. t.opened ≡ length seat.new.told) }
        ensures share { IfOk result (λ t. length seat.old.stamps ≤ t.opened) }
        ensures taken { IfOk result (λ t. t.end.taken ≡ []) }
        ensures opens { IfOk result (λ t. IsVisit C.rules (OpensFor seat.new.told query room t)) }
        ensures refusals { IfErr result
            (OutOfMemoryOr (IsOpeningRefused C.rules seat.new.told query room)) }
    {
        let Ok(copy) = query.copy(self.alloc) else {
            return Err(Refusal::OutOfMemory);
        };
        match self
            .locked
            .lock(rt)
            .open(rt, &mut seat.share, &mut seat.told, copy, room)
        {
            Ok((cursor, opened, items)) => {
                Ok(Taker::new(self, cursor, query, false, opened, items))
            }
            Err(why) => Err(why),
        }
    }

    /// Opens a cursor that follows a commit, and gives its taker. The cursor gives the changes after that commit, and
    /// no rows of a snapshot.
    ///
    /// # Errors
    /// `BadConfig` as in `open_cursor`, `FromFuture` if there are fewer commits than that, `CursorsFull`, or
    /// `OutOfMemory`.
    pub fn open_from<'d, R: Wait>(
        &'d self,
        rt: &R,
        seat: &mut Seat<C, L>,
        query: Pred<C::Atom>,
        room: u64,
        commit: u64,
    ) -> Result<Taker<'d, C, L>, Refusal>
        ensures seat { seat.new ≡ record seat.old { told = seat.new.told } }
        ensures seen { IsPrefix seat.old.told seat.new.told }
        ensures query { IfOk result (λ t. t.query ≡ query_of query) }
        ensures follows { IfOk result (λ t. t.follows ≡ true) }
        ensures opened { IfOk result (λ t. t.opened ≡ commit) }
        ensures there { OnOk result (commit ≤ length seat.new.told) }
        ensures taken { IfOk result (λ t. t.end.taken ≡ []) }
        ensures opens { IfOk result (λ t.
            IsVisit C.rules (FollowsFor seat.new.told query room commit t)) }
        ensures future { (result ≡ Err Refusal.FromFuture) → length seat.new.told < commit }
        ensures refusals { IfErr result
            (OutOfMemoryOr (IsFollowingRefused C.rules seat.new.told query room commit)) }
    {
        let Ok(copy) = query.copy(self.alloc) else {
            return Err(Refusal::OutOfMemory);
        };
        match self
            .locked
            .lock(rt)
            .follow(rt, &mut seat.share, &mut seat.told, copy, room, commit)
        {
            Ok((cursor, items)) => Ok(Taker::new(self, cursor, query, true, commit, items)),
            Err(why) => Err(why),
        }
    }

    /// One turn of a cursor, which puts at most one item into its ring and takes none out. A visit to a page is
    /// worked out without the lock, under the page's latch.
    ///
    /// # Errors
    /// `NoSuchCursor`, `CursorClosed`, `NoRoom` if its ring is full, `Idle`, or `OutOfMemory`, as a reply.
    pub fn turn<R: Wait>(&self, rt: &R, cursor: u64) -> Reply<C::Key, Consumer<Item<C::Key>>>
        ensures visit { IsReplied C.rules (event.Turn cursor) result }
    {
        let turned = self.locked.lock(rt).turn_unless_visit(cursor);
        let page = match turned {
            Ok(reply) => return reply,
            Err(page) => page,
        };
        match self.visit_for(rt, cursor, page) {
            Some(reply) => reply,
            None => self.locked.lock(rt).turn(cursor),
        }
    }

    /// A turn that visits a page. `None` if the cursor's next turn no longer visits one, or if what the visit reads
    /// kept changing.
    fn visit_for<R: Wait>(
        &self,
        rt: &R,
        cursor: u64,
        page: u32,
    ) -> Option<Reply<C::Key, Consumer<Item<C::Key>>>>
        ensures visit { IfSome result (IsReplied C.rules (event.Turn cursor)) }
    {
        let _latch = self.latches.of(page).lock(rt);
        for _ in 0..PUBLICATIONS {
            let task = worked_visit(self.prepare_visit(rt, cursor)?)?;
            match self.publish_visit(rt, cursor, task) {
                Some(reply) => return Some(reply),
                None => {}
            }
        }
        None
    }

    /// Prepares the visit that a cursor's next turn makes. `None` if its next turn is no visit.
    fn prepare_visit<R: Wait>(&self, rt: &R, cursor: u64) -> Option<VisitTask<C>>
        ensures { IfSome result (λ task. task.cursor ≡ cursor) }
    {
        self.locked.lock(rt).prepare_visit(cursor)
    }

    /// Publishes a prepared visit as its cursor's turn. `None` if it came too late.
    fn publish_visit<R: Wait>(
        &self,
        rt: &R,
        cursor: u64,
        task: VisitTask<C>,
    ) -> Option<Reply<C::Key, Consumer<Item<C::Key>>>>
        requires { task.cursor ≡ cursor }
        ensures { IfSome result (IsReplied C.rules (event.Turn cursor)) }
    {
        let turned = self.locked.lock(rt).turn_prepared(cursor, task);
        match turned {
            Some(reply) => Some(reply),
            None => None,
        }
    }

    /// Asks a cursor for a mark.
    ///
    /// # Errors
    /// `NoSuchCursor` or `CursorClosed`, as a reply.
    pub fn ask_mark<R: Wait>(&self, rt: &R, cursor: u64) -> Reply<C::Key, Consumer<Item<C::Key>>>
        ensures visit { IsReplied C.rules (event.AskMark cursor) result }
    {
        self.locked.lock(rt).ask_mark(cursor)
    }

    /// Removes from a leaf the dead rows that no open scan needs.
    ///
    /// # Errors
    /// `NotHere` if there is no such leaf, or `OutOfMemory`, as a reply.
    pub fn sweep<R: Wait>(&self, rt: &R, leaf: u64) -> Reply<C::Key, Consumer<Item<C::Key>>>
        ensures visit { IsReplied C.rules (event.Sweep leaf) result }
    {
        self.locked.lock(rt).sweep(leaf)
    }

    /// Closes a cursor.
    pub(crate) fn close_cursor<R: Wait>(
        &self,
        rt: &R,
        cursor: u64,
    ) -> Reply<C::Key, Consumer<Item<C::Key>>>
        ensures visit { IsReplied C.rules (event.Close cursor) result }
    {
        self.locked.lock(rt).close(cursor)
    }

    /// Closes a cursor for a seat, and gives a view of the commits as they then stood, if there was memory for one.
    pub(crate) fn close_with_view<R: Wait>(
        &self,
        rt: &R,
        seat: &mut Seat<C, L>,
        cursor: u64,
    ) -> Option<View<C::Key>>
        ensures seat { seat.new ≡ record seat.old { told = seat.new.told } }
        ensures seen { IsPrefix seat.old.told seat.new.told }
        ensures view { IfSome result (λ view. view ≡ seat.new.told) }
        ensures stamps { IfSome result (λ view. SeatStands view seat.old) }
        ensures visit { IsVisit C.rules (ClosesWithView C.rules cursor seat.new.told result) }
        ensures share { IfSome result (λ view. length seat.old.stamps ≤ length view) }
    {
        self.locked
            .lock(rt)
            .close_with_view(rt, &mut seat.share, &mut seat.told, cursor)
    }

    /// A snapshot of the commits, which later commits don't change. Any number of threads can search it without the
    /// lock. The seat is told its commits: they begin with all that it was told before, and its stamps stand in them.
    ///
    /// Takes the lock once, and makes no event.
    ///
    /// # Errors
    /// `OutOfMemory`.
    pub fn snapshot<R: Wait>(&self, rt: &R, seat: &mut Seat<C, L>) -> Result<Snapshot<C>, Refusal>
        ensures seat { seat.new ≡ record seat.old { told = seat.new.told } }
        ensures seen { IsPrefix seat.old.told seat.new.told }
        ensures list { IfOk result (λ snapshot. snapshot ≡ seat.new.told) }
        ensures visit { IsVisit C.rules (ShowsCommits seat.new.told result) }
        ensures share { IfOk result (λ snapshot. length seat.old.stamps ≤ length snapshot) }
        ensures stamps { IfOk result (λ snapshot. SeatStands snapshot seat.old) }
        ensures refusals { IfErr result (λ why. why ≡ Refusal.OutOfMemory) }
    {
        self.locked
            .lock_first(rt)
            .snapshot(rt, &mut seat.share, &mut seat.told)
    }

    /// Waits until there are more than `commits` commits, and gives how many there then are. The thread sleeps, and
    /// each commit wakes it.
    ///
    /// Makes no event. If no such commit comes, it doesn't return.
    pub fn wait_past<R: Wait>(&self, rt: &R, commits: u64) -> u64
        ensures past { commits < result }
        ensures visit { IsVisit C.rules (CountsCommits result) }
    {
        let locked = self.grown.wait_while(
            rt,
            self.locked.lock(rt),
            |locked| locked.commits() <= commits,
        );
        locked.commits()
    }

    /// Waits until there are more than `commits` commits or the flag is raised, and gives how many commits there then
    /// are. Whoever raises the flag must call `wake` after it.
    ///
    /// Makes no event.
    pub fn wait_past_unless<R: Wait>(&self, rt: &R, commits: u64, is_over: &AtomicBool) -> u64
        ensures visit { IsVisit C.rules (CountsCommits result) }
    {
        let locked = self.grown.wait_while(
            rt,
            self.locked.lock(rt),
            |locked| locked.commits() <= commits && !is_over.load(Ordering::SeqCst),
        );
        locked.commits()
    }

    /// Wakes the threads that wait for a commit, so that they check their flags. It takes the lock: otherwise it
    /// could miss a thread that has checked its flag but isn't asleep yet.
    pub fn wake<R: Wait>(&self, rt: &R) {
        let _locked = self.locked.lock(rt);
        self.grown.notify_all();
    }
}
