ghost use Rattle.std.specs.Prelude.{◌≡◌, ◌≢◌, ◌+◌, ◌*◌, ◌≤◌, ◌<◌, ◌↔◌, length, IfOk, IfErr, OnOk, OnErr, Err, IsPermutation};
ghost use Rattle.key_class.specs.declared.refusal.Refusal.TheVariants.{BadConfig, FromFuture, OutOfMemory, CommitsFull, NoSuchRow, AlreadyDeleted, FindersFull, CursorsFull};
ghost use Rattle.key_class.specs.Refusals.{IsEither};
ghost use Rattle.key_class.specs.Queries.{query_of, depth_of};
ghost use Rattle.change_list.specs.Configs.{IsWithinLimits};
ghost use Rattle.change_list.specs.declared.write.Write.TheVariants.{Insert, Delete, Move};
ghost use Rattle.change_list.specs.Changes.{IsLegal, NamesNoRow, NamesDead, commit_at, row_at, status_of};
ghost use Rattle.writes.specs.Moves.{IsToldFirst};
ghost use Rattle.snapshot.specs.Finds.{AreFirst, AreWritten};
ghost use Rattle.store.specs.Worlds.{HasCursor};
ghost use Rattle.store.specs.States.{new_store, Commits, Keeps, cursor_of, IsOpenedFor, IsFollowerFor, IsBadOpening, IsFromFuture, HasNoFollowerFor, HasFewPages, HasNoCommitLeft, HasNoCommitFor, HasNoFinderFor, HasNoCursorFor, RefusesRow, RefusesCursor, RefusesFollower, AddsDead, MayRefuseDelete, MayRefuseMove, LacksCursor, Closes, DrainsInto, SweepsStore, SweepsStorePart, SweepsOnePage, dead_on_pages, page_after, Nexts, RefusesNext, ChangesCursor, with_asking, matching_rows};

use crate::reading::next_item;
use change_list::{Config, Item, Row, Status, Write};
use key_class::limits::MAX_ROOM;
use key_class::{KeyClass, Pred, Refusal};
use mailbox::Tray;
use search::BoundedQuery;
use snapshot::{
    Snapshot, first_rows, number_of_rows, rows_in_any_order, rows_in_order, write_rows,
};
use std::alloc::Global;
use std::marker::Model;
use world::{Remains, World};

/// A store of rows over a tree of pages, with its commits and its open cursors.
#[derive(Drop)]
pub struct Store<C: KeyClass> {
    alloc: Global,
    pub(crate) world: World<C, Tray<C::Key>>,
}

impl<C: KeyClass> Model for Store<C> {
    ghost use Rattle.key_class.specs.QueryCodes.{query_code};
    ghost use Rattle.std.specs.Coded.{codes};
    ghost use Rattle.store.specs.States.{StoreState};
    ghost use Rattle.mailbox.specs.Outlets.{tray_rule};
    ghost use Rattle.store.specs.Worlds.{store_state, IsQuiet};

    ghost Value = { StoreState C.Key C.Atom };

    ghost coded = { Prim.hlevel (codes, query_code) };

    ghost view = { λ s. store_state C.rules tray_rule s.world };

    ghost invariant = { λ s. IsQuiet s.world };
}

impl<C: KeyClass> Store<C> {
    /// An empty store.
    ///
    /// # Errors
    /// `BadConfig` if a limit of the configuration is out of range, or `OutOfMemory`.
    pub fn new(alloc: Global, config: Config) -> Result<Store<C>, Refusal>
        ensures ok { IfOk result (λ store. store ≡ new_store config) }
        ensures bad { (result ≡ Err BadConfig) ↔ (¬ IsWithinLimits config) }
        ensures refusals { IfErr result (IsEither BadConfig OutOfMemory) }
    {
        let world = World::new(alloc, config)?;
        Ok(Store { alloc, world })
    }

    /// How many commits there are.
    pub fn commits(&self) -> u64
        ensures number { result ≡ length self.now.commits }
        ensures legal { IsLegal self.now.commits }

        // There is at most one page more than there are commits.
        ensures few_pages { HasFewPages self.now }
    {
        self.world.recall_soundness();
        self.world.commits()
    }

    /// Proof hint, no code: brings what holds of every store into view.
    fn recall_soundness(&self)
        ensures legal { IsLegal self.now.commits }
        ensures few_pages { HasFewPages self.now }
    {
        let _commits = self.commits();
    }

    /// The commit with a number. The first has number 1.
    pub fn commit(&self, number: u64) -> Option<Write<C::Key>>
        ensures { result ≡ commit_at self.now.commits number }
    {
        self.world.commit(number)
    }

    /// The row with a number, live or dead, as its commit made it. It takes at most two reads.
    pub fn row(&self, number: u64) -> Option<Row<C::Key>>
        ensures { result ≡ row_at self.now.commits number }
    {
        self.world.row(number)
    }

    /// The status of the row with a number.
    pub fn status(&self, number: u64) -> Status
        ensures { result ≡ status_of self.now.commits number }
    {
        self.world.status(number)
    }

    /// A snapshot of the commits, which later commits don't change. Any number of threads can search it while the
    /// store is used.
    ///
    /// # Errors
    /// `OutOfMemory`.
    pub fn snapshot(&self) -> Result<Snapshot<C>, Refusal>
        ensures list { IfOk result (λ snapshot. snapshot ≡ self.now.commits) }
        ensures refused { IfErr result (λ why. why ≡ OutOfMemory) }
    {
        self.world.snapshot()
    }

    /// Adds a row.
    pub fn insert(&mut self, key: C::Key, tag: u64) -> Result<u64, Refusal>
        ensures number { IfOk result (λ n. n ≡ length self.old.commits + 1) }
        ensures ok { OnOk result (Commits C.rules.is_match self.old (Insert key tag) self.new) }
        ensures dead { OnOk result (IsPermutation self.old.dead self.new.dead) }
        ensures finders { self.new.finders ≡ self.old.finders }
        ensures err { OnErr result (Keeps C.rules.is_match self.old self.new) }
        ensures full { (result ≡ Err CommitsFull) ↔ HasNoCommitLeft self.old }
        ensures refusals { IfErr result (RefusesRow self.new) }
        ensures legal { IsLegal self.new.commits }
        ensures few_pages { HasFewPages self.new }
    {
        let inserted = writes::insert(self.alloc, &mut self.world, key, tag);
        self.recall_soundness();
        inserted
    }

    /// Deletes a row, and gives the commit's number.
    ///
    /// # Errors
    /// `NoSuchRow` if no insert or move has the number, else `AlreadyDeleted`, else `CommitsFull`, else `FindersFull`
    /// once the last finder of the store's life was opened; or `OutOfMemory`. Nothing is changed then, except that
    /// with `OutOfMemory` a finder may be used up.
    pub fn delete(&mut self, row: u64) -> Result<u64, Refusal>
        ensures number { IfOk result (λ n. n ≡ length self.old.commits + 1) }
        ensures ok { OnOk result (Commits C.rules.is_match self.old (Delete row) self.new) }
        ensures dead { OnOk result (AddsDead self.old row self.new) }
        ensures err { OnErr result (Keeps C.rules.is_match self.old self.new) }
        ensures no_such_row { (result ≡ Err NoSuchRow) ↔ NamesNoRow self.old.commits row }
        ensures already_deleted { (result ≡ Err AlreadyDeleted)
            ↔ NamesDead self.old.commits row }
        ensures full { (result ≡ Err CommitsFull) ↔ HasNoCommitFor self.old row }
        ensures finders_full { (result ≡ Err FindersFull) ↔ HasNoFinderFor self.old row }
        ensures refusals { IfErr result (MayRefuseDelete self.old) }
        ensures found { OnOk result (self.new.finders ≡ self.old.finders + 1) }
        ensures unfound { IfErr result (λ why. why ≢ OutOfMemory → self.new ≡ self.old) }
        ensures finders { self.new.finders ≤ self.old.finders + 1 }
        ensures legal { IsLegal self.new.commits }
        ensures few_pages { HasFewPages self.new }
    {
        let deleted = writes::delete(&mut self.world, row);
        self.recall_soundness();
        deleted
    }

    /// Moves a row: one commit ends it and makes another, with this key and its tag. Gives the commit's number, which
    /// is the new row's.
    ///
    /// # Errors
    /// `NoSuchRow` if no insert or move has the number, else `AlreadyDeleted`, else `CommitsFull`, else `FindersFull`
    /// once the last finder of the store's life was opened; nothing is changed then. Else `PagesFull` if fewer than
    /// two pages are left when it returns, or `OutOfMemory`. No row is moved then, but pages may have been made, and
    /// with `OutOfMemory` a finder may be used up.
    pub fn move_row(&mut self, row: u64, key: C::Key) -> Result<u64, Refusal>
        ensures number { IfOk result (λ n. n ≡ length self.old.commits + 1) }
        ensures ok { OnOk result (Commits C.rules.is_match self.old (Move row key) self.new) }
        ensures dead { OnOk result (AddsDead self.old row self.new) }
        ensures err { OnErr result (Keeps C.rules.is_match self.old self.new) }
        ensures no_such_row { (result ≡ Err NoSuchRow) ↔ NamesNoRow self.old.commits row }
        ensures already_deleted { (result ≡ Err AlreadyDeleted)
            ↔ NamesDead self.old.commits row }
        ensures full { (result ≡ Err CommitsFull) ↔ HasNoCommitFor self.old row }
        ensures finders_full { (result ≡ Err FindersFull) ↔ HasNoFinderFor self.old row }
        ensures refusals { IfErr result (MayRefuseMove self.old self.new) }
        ensures untouched { IfErr result (λ why. IsToldFirst why → self.new ≡ self.old) }
        ensures found { OnOk result (self.new.finders ≡ self.old.finders + 1) }
        ensures unfound { IfErr result (λ why.
            why ≢ OutOfMemory → self.new.finders ≡ self.old.finders) }
        ensures finders { self.new.finders ≤ self.old.finders + 1 }
        ensures legal { IsLegal self.new.commits }
        ensures few_pages { HasFewPages self.new }
    {
        let moved = writes::move_row(self.alloc, &mut self.world, row, key);
        self.recall_soundness();
        moved
    }

    /// Opens a cursor at the present commits, and gives its serial.
    ///
    /// # Errors
    /// `BadConfig` if the room isn't from 1 to 4,096 or the query is deeper than 32, else `CursorsFull`, else
    /// `OutOfMemory`.
    pub fn open(&mut self, query: Pred<C::Atom>, room: u64) -> Result<u64, Refusal>
        ensures ok { IfOk result (λ c. IsOpenedFor C.rules.is_match self.old query c self.new) }
        ensures err { OnErr result (self.new ≡ self.old) }
        ensures bad { (result ≡ Err BadConfig) ↔ IsBadOpening (query_of query) room }
        ensures full { (result ≡ Err CursorsFull)
            ↔ HasNoCursorFor self.old (query_of query) room }
        ensures refusals { IfErr result RefusesCursor }
    {
        if room == 0 || room > MAX_ROOM {
            return Err(Refusal::BadConfig);
        }
        match self.world.open_cursor(query, 1) {
            Ok((serial, ())) => Ok(serial),
            Err(refusal) => Err(refusal),
        }
    }

    /// Opens a cursor that follows a commit, and gives its serial. The cursor gives the changes after that commit,
    /// and no rows of a snapshot. With a mark's number it goes on where the mark was given.
    ///
    /// # Errors
    /// `BadConfig` if the room isn't from 1 to 4,096 or the query is deeper than 32, else `FromFuture` if there are
    /// fewer commits than that, else `CursorsFull`, else `OutOfMemory`.
    pub fn open_from(
        &mut self,
        query: Pred<C::Atom>,
        room: u64,
        commit: u64,
    ) -> Result<u64, Refusal>
        ensures ok { IfOk result
            (λ c. IsFollowerFor C.rules.is_match self.old query commit c self.new) }
        ensures err { OnErr result (self.new ≡ self.old) }
        ensures bad { (result ≡ Err BadConfig) ↔ IsBadOpening (query_of query) room }
        ensures future { (result ≡ Err FromFuture)
            ↔ IsFromFuture self.old (query_of query) room commit }
        ensures full { (result ≡ Err CursorsFull)
            ↔ HasNoFollowerFor self.old (query_of query) room commit }
        ensures refusals { IfErr result RefusesFollower }
    {
        if room == 0 || room > MAX_ROOM {
            return Err(Refusal::BadConfig);
        }
        match self.world.follow_commit(query, 1, commit) {
            Ok((serial, ())) => Ok(serial),
            Err(refusal) => Err(refusal),
        }
    }

    /// The next item of a cursor, or `None` if nothing is left and no mark is asked for.
    ///
    /// # Errors
    /// `NoSuchCursor` if the serial was never given, `CursorClosed` if its cursor is closed; or `OutOfMemory`, as
    /// long as a page is left to be read.
    pub fn next(&mut self, c: u64) -> Result<Option<Item<C::Key>>, Refusal>
        ensures ok { IfOk result (λ item. Nexts C.rules.is_match self.old c item self.new) }
        ensures err { IfErr result (λ why. RefusesNext C.rules.is_match self.old c why self.new) }
    {
        next_item(&mut self.world, c)
    }

    /// Checks that a cursor is open.
    fn check(&self, c: u64) -> Result<(), Refusal>
        ensures open { OnOk result (HasCursor self.now c) }
        ensures refused { IfErr result (λ why. cursor_of self.now c ≡ Err why) }
    {
        self.world.check_cursor(c)
    }

    /// Appends a cursor's items to a list, until nothing is left to give.
    ///
    /// # Errors
    /// `NoSuchCursor`, `CursorClosed`; or `OutOfMemory`, for the list or as long as a page is left to be read. What
    /// was given before stays in the list.
    pub fn drain(&mut self, c: u64, into: &mut Vec<Item<C::Key>>) -> Result<(), Refusal>
        ensures { DrainsInto C.rules self.old c into.old.items into.new.items result self.new }
    {
        self.check(c)?;
        'draining: loop {
            let Ok(()) = into.try_reserve(1) else {
                return Err(Refusal::OutOfMemory);
            };
            match self.next(c)? {
                None => return Ok(()),
                Some(item) => into.push_reserved(item),
            }
        }
    }

    /// Removes the dead rows that no cursor with a scan in progress needs, and gives their number.
    ///
    /// # Errors
    /// `OutOfMemory`; some of those rows may have been removed by then.
    pub fn sweep_all(&mut self) -> Result<u64, Refusal>
        ensures ok { IfOk result (λ n. SweepsStore C.rules.is_match self.old n self.new) }
        ensures err { OnErr result (SweepsStorePart C.rules.is_match self.old self.new) }
        ensures refusals { IfErr result (λ e. e ≡ OutOfMemory) }
    {
        self.world.recall_soundness();
        writes::sweep_all(&mut self.world)
    }

    /// Sweeps one page, and returns the number of the page to be swept next, which is 0 after the last. Who calls it
    /// at each write, with the number that the call before returned and 0 at first, sweeps all pages in rotation and
    /// needs no `sweep_all`. Nothing is removed from a page that isn't a leaf or doesn't exist.
    ///
    /// # Errors
    /// `OutOfMemory`; nothing is changed then.
    ///
    /// It takes the time of one page.
    pub fn sweep_next(&mut self, page: u64) -> Result<u64, Refusal>
        ensures next { IfOk result (λ next. next ≡ page_after self.old page) }
        ensures swept { OnOk result (SweepsOnePage self.old page self.new) }
        ensures rest { SweepsStorePart C.rules.is_match self.old self.new }

        // both lists have the same dead rows
        ensures dead { IsPermutation self.new.dead (dead_on_pages self.new) }
        ensures err { OnErr result (self.new ≡ self.old) }
        ensures refusals { IfErr result (λ e. e ≡ OutOfMemory) }
    {
        self.world.recall_soundness();
        writes::sweep_page(&mut self.world, page)?;
        let next = page.saturating_add(1);
        Ok(if next < self.world.pages() { next } else { 0 })
    }

    /// The store without its use: what is left to be dropped piece by piece, where dropping it at once would take long.
    pub fn into_remains(self) -> Remains<C::Key>
        ensures { length self.dead_by_page ≤ 16 * result }
    {
        self.world.into_remains()
    }

    /// Asks a cursor for a mark.
    pub fn ask_mark(&mut self, c: u64) -> Result<(), Refusal>
        ensures ok { OnOk result (ChangesCursor with_asking self.old c self.new) }
        ensures err { IfErr result (λ why. LacksCursor self.old c why self.new) }
    {
        self.world.ask_cursor(c)?;
        Ok(())
    }

    /// Closes a cursor.
    ///
    /// # Errors
    /// `NoSuchCursor` if the serial was never given, `CursorClosed` if its cursor is closed.
    pub fn close(&mut self, c: u64) -> Result<(), Refusal>
        ensures ok { OnOk result (Closes self.old c self.new) }
        ensures err { IfErr result (λ why. LacksCursor self.old c why self.new) }
    {
        self.world.recall_soundness();
        self.world.close_cursor(c)?;
        Ok(())
    }

    /// The live rows that match, by rising number.
    ///
    /// # Errors
    /// `BadConfig` if the query is deeper than 32, else `OutOfMemory`.
    pub fn find(&self, query: &Pred<C::Atom>) -> Result<Vec<Row<C::Key>>, Refusal>
        ensures ok { IfOk result (λ rows. rows.items
            ≡ matching_rows C.rules self.now query.now) }
        ensures depth { (result ≡ Err BadConfig) ↔ (32 < depth_of (query_of query.now)) }
        ensures refusals { IfErr result (IsEither BadConfig OutOfMemory) }
    {
        let query = BoundedQuery::new(query)?;
        self.world.recall_soundness();
        let rows = rows_in_order::<C>(self.alloc, self.world.search().pages(), &query)?;
        Ok(rows)
    }

    /// The live rows that match, in any order: `find` without its sort.
    ///
    /// # Errors
    /// `BadConfig` if the query is deeper than 32, else `OutOfMemory`.
    pub fn find_any(&self, query: &Pred<C::Atom>) -> Result<Vec<Row<C::Key>>, Refusal>
        ensures ok { IfOk result (λ rows. IsPermutation rows.items
            (matching_rows C.rules self.now query.now)) }
        ensures depth { (result ≡ Err BadConfig) ↔ (32 < depth_of (query_of query.now)) }
        ensures refusals { IfErr result (IsEither BadConfig OutOfMemory) }
    {
        let query = BoundedQuery::new(query)?;
        self.world.recall_soundness();
        let rows = rows_in_any_order::<C>(self.alloc, self.world.search().pages(), &query)?;
        Ok(rows)
    }

    /// Writes the live rows that match, in any order, into a slice from its first place on, as many as fit. Gives how
    /// many match. It needs no memory.
    ///
    /// # Errors
    /// `BadConfig` if the query is deeper than 32. The slice is unchanged then.
    pub fn find_into(&self, query: &Pred<C::Atom>, into: &mut [Row<C::Key>]) -> Result<u64, Refusal>
        ensures ok { IfOk result
            (AreWritten (matching_rows C.rules self.now query.now) into.old into.new) }
        ensures unchanged { OnErr result (into.new ≡ into.old) }
        ensures depth { (result ≡ Err BadConfig) ↔ (32 < depth_of (query_of query.now)) }
        ensures refusals { IfErr result (λ why. why ≡ BadConfig) }
    {
        let query = BoundedQuery::new(query)?;
        self.world.recall_soundness();
        Ok(write_rows::<C>(self.world.search().pages(), &query, into))
    }

    /// At most `limit` of the live rows that match, in any order.
    ///
    /// # Errors
    /// `BadConfig` if the query is deeper than 32, else `OutOfMemory`.
    pub fn first(&self, query: &Pred<C::Atom>, limit: usize) -> Result<Vec<Row<C::Key>>, Refusal>
        ensures ok { IfOk result (λ rows. AreFirst
            (matching_rows C.rules self.now query.now) limit rows.items) }
        ensures depth { (result ≡ Err BadConfig) ↔ (32 < depth_of (query_of query.now)) }
        ensures refusals { IfErr result (IsEither BadConfig OutOfMemory) }
    {
        let query = BoundedQuery::new(query)?;
        self.world.recall_soundness();
        let rows = first_rows::<C>(self.alloc, self.world.search().pages(), &query, limit)?;
        Ok(rows)
    }

    /// How many live rows match. It needs no memory.
    ///
    /// # Errors
    /// `BadConfig` if the query is deeper than 32.
    pub fn count(&self, query: &Pred<C::Atom>) -> Result<u64, Refusal>
        ensures ok { IfOk result (λ n. n
            ≡ length (matching_rows C.rules self.now query.now)) }
        ensures depth { (result ≡ Err BadConfig) ↔ (32 < depth_of (query_of query.now)) }
        ensures refusals { IfErr result (λ why. why ≡ BadConfig) }
    {
        let query = BoundedQuery::new(query)?;
        self.world.recall_soundness();
        Ok(number_of_rows::<C>(self.world.search().pages(), &query))
    }
}
