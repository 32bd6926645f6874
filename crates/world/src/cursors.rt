//! Events of cursors.
ghost use Rattle.std.specs.Prelude.{◌≡◌, ◌+◌, false, [], IfOk, IfErr, OnOk, OnErr};
ghost use Rattle.std.specs.Arc.{arc_value};
ghost use Rattle.key_class.specs.Queries.{query_of};
ghost use Rattle.world.specs.declared.event.Event.TheVariants as event;
ghost use Rattle.split.specs.Tests.{first_failing};
ghost use Rattle.world.specs.Calls.{reply_of_asking, reply_of_closing, reply_of_opening, reply_of_taking, reply_of_turn};
ghost use Rattle.world.specs.States.{IsAtWork};
ghost use Rattle.world.specs.Steps.{Acts, Opens, follow_tests, is_bad_opening, is_full_of_cursors, open_tests};

use crate::places::let_go;
use crate::world::World;
use change_list::Item;
use cursor::{Cursor, Turned};
use key_class::limits::{MAX_CURSORS, MAX_DEPTH, MAX_ROOM, MAX_SERIAL};
use key_class::{KeyClass, Pred, Refusal};
use mailbox::{Outlet, Taken};
use std::alloc::Global;
use std::sync::Arc;

/// Whether the room or the query's depth is out of range.
fn is_bad_opening<C: KeyClass>(query: &Pred<C::Atom>, room: u64) -> bool
    ensures { result ≡ is_bad_opening query.now room }
{
    room == 0 || room > MAX_ROOM || !query.is_within_depth(MAX_DEPTH)
}

/// What a new cursor owns: its query, its mailbox and the mailbox's other end.
///
/// # Errors
/// `OutOfMemory`.
fn furnish<C: KeyClass, O: Outlet<C::Key>>(
    alloc: Global,
    query: Pred<C::Atom>,
    room: u32,
) -> Result<(Arc<Pred<C::Atom>>, O, O::Consumer), Refusal>
    ensures query { IfOk result (λ made. query_of (arc_value made.0) ≡ query_of query) }
    ensures room { IfOk result (λ made. O.room_of made.1 ≡ room) }
    ensures unread { IfOk result (λ made. O.unread made.1 ≡ []) }
    ensures fresh { IfOk result (λ made. O.fresh made.2) }
    ensures refusals { IfErr result (λ why. why ≡ Refusal.OutOfMemory) }
{
    let Ok((outlet, end)) = O::make(alloc, room) else {
        return Err(Refusal::OutOfMemory);
    };
    match Arc::new(alloc, query) {
        Ok(query) => Ok((query, outlet, end)),
        Err(_) => Err(Refusal::OutOfMemory),
    }
}

impl<C: KeyClass, O: Outlet<C::Key>> World<C, O> {
    /// Whether there is no room or no serial for one more cursor.
    fn is_full_of_cursors(&self) -> bool
        ensures { result ≡ is_full_of_cursors self.now }
    {
        self.cursors.len() >= MAX_CURSORS || self.last >= MAX_SERIAL
    }

    /// Why a cursor with the query and the room can't be opened.
    fn open_refusal(&self, query: &Pred<C::Atom>, room: u64) -> Option<Refusal>
        ensures { result ≡ first_failing (open_tests self.now query.now room) }
    {
        if is_bad_opening::<C>(query, room) {
            return Some(Refusal::BadConfig);
        }
        if self.is_full_of_cursors() {
            return Some(Refusal::CursorsFull);
        }
        None
    }

    /// Why no cursor that follows a commit can be opened with the query and the room.
    fn follow_refusal(&self, query: &Pred<C::Atom>, room: u64, commit: u64) -> Option<Refusal>
        ensures { result ≡ first_failing (follow_tests self.now query.now room commit) }
    {
        if is_bad_opening::<C>(query, room) {
            return Some(Refusal::BadConfig);
        }
        if commit > self.commits() {
            return Some(Refusal::FromFuture);
        }
        if self.is_full_of_cursors() {
            return Some(Refusal::CursorsFull);
        }
        None
    }

    /// Adds a new cursor after those that are open.
    ///
    /// # Errors
    /// `OutOfMemory`; nothing is changed then.
    fn add_cursor(&mut self, cursor: Cursor<C, O>) -> Result<(), Refusal>
        requires serial { cursor.serial ≡ self.old.last + 1 }
        requires at_work { IsAtWork self.old.search.tree self.old.commits cursor }
        requires room { is_full_of_cursors self.old ≡ false }
        ensures added { OnOk result (Opens self.old cursor cursor.serial self.new) }
        ensures unchanged { OnErr result (self.new ≡ self.old) }
        ensures refusals { IfErr result (λ why. why ≡ Refusal.OutOfMemory) }
    {
        let serial = cursor.serial();
        if self.cursors.push(cursor).is_err() {
            return Err(Refusal::OutOfMemory);
        }
        self.last = serial;
        Ok(())
    }

    pub(crate) fn open(
        &mut self,
        query: Pred<C::Atom>,
        room: u64,
    ) -> Result<(u64, O::Consumer), Refusal>
        ensures step { Acts C.rules O.rule self.old (event.Open query room)
            (reply_of_opening O.Consumer result) self.new }
        ensures fresh { IfOk result (λ made. O.fresh made.1) }
    {
        if let Some(refusal) = self.open_refusal(&query, room) {
            return Err(refusal);
        }
        let alloc = self.allocator();
        let Ok((query, outlet, end)) = furnish::<C, O>(alloc, query, room as u32) else {
            return Err(Refusal::OutOfMemory);
        };
        let opened = self.changes.len() as u32;
        let counter = self.search.pages().counter();
        let serial = self.last + 1;
        let cursor = Cursor::new(alloc, serial, query, opened, counter, outlet);
        match self.add_cursor(cursor) {
            Ok(()) => Ok((serial, end)),
            Err(_) => Err(Refusal::OutOfMemory),
        }
    }

    pub(crate) fn follow(
        &mut self,
        query: Pred<C::Atom>,
        room: u64,
        commit: u64,
    ) -> Result<(u64, O::Consumer), Refusal>
        ensures step { Acts C.rules O.rule self.old (event.Follow query room commit)
            (reply_of_opening O.Consumer result) self.new }
        ensures fresh { IfOk result (λ made. O.fresh made.1) }
    {
        if let Some(refusal) = self.follow_refusal(&query, room, commit) {
            return Err(refusal);
        }
        let alloc = self.allocator();
        let Ok((query, outlet, end)) = furnish::<C, O>(alloc, query, room as u32) else {
            return Err(Refusal::OutOfMemory);
        };
        let serial = self.last + 1;
        let cursor = Cursor::following(alloc, serial, query, commit as u32, outlet);
        match self.add_cursor(cursor) {
            Ok(()) => Ok((serial, end)),
            Err(_) => Err(Refusal::OutOfMemory),
        }
    }

    pub(crate) fn turn(&mut self, c: u64) -> Result<Turned, Refusal>
        ensures { Acts C.rules O.rule self.old (event.Turn c)
            (reply_of_turn O.Consumer result) self.new }
    {
        let at = self.place_of(c)?;
        let alloc = self.allocator();
        self.cursors[at].turn(alloc, self.search.pages(), &self.changes)
    }

    pub(crate) fn ask_mark(&mut self, c: u64) -> Result<(), Refusal>
        ensures { Acts C.rules O.rule self.old (event.AskMark c)
            (reply_of_asking O.Consumer result) self.new }
    {
        let at = self.place_of(c)?;
        self.cursors[at].ask_mark();
        Ok(())
    }

    pub(crate) fn take(&mut self, c: u64) -> Result<Option<Item<C::Key>>, Refusal>
        ensures { Acts C.rules O.rule self.old (event.Take c)
            (reply_of_taking O.Consumer result) self.new }
    {
        let at = self.place_of(c)?;
        match self.cursors[at].take() {
            Taken::Item(item) => Ok(Some(item)),
            Taken::Nothing => Ok(None),
            Taken::Elsewhere => Err(Refusal::NotHere),
        }
    }

    pub(crate) fn close(&mut self, c: u64) -> Result<(), Refusal>
        ensures { Acts C.rules O.rule self.old (event.Close c)
            (reply_of_closing O.Consumer result) self.new }
    {
        let at = self.place_of(c)?;
        let_go(&mut self.cursors, at);
        Ok(())
    }
}
