//! Events as methods, each with an answer of its own type, for code that knows which event it makes.
ghost use Rattle.std.specs.Prelude.{IfOk};
ghost use Rattle.world.specs.Beginnings.{OpensNear};
ghost use Rattle.world.specs.Calls.{AsksCursor, ClosesCursor, OpensCursor, OpensFinder, OpensFollower, PlacesRow, DeletesMet, MovesMet, SweepsPage, TakesFront, TurnsCursor};
ghost use Rattle.world.specs.States.{IsSoundWorld};

use crate::reply::Stamped;
use crate::world::World;
use change_list::Item;
use cursor::Turned;
use key_class::{KeyClass, Pred, Refusal};
use mailbox::Outlet;

impl<C: KeyClass, O: Outlet<C::Key>> World<C, O> {
    /// Adds a row to a leaf, for a seat.
    ///
    /// # Errors
    /// Those of the event `Place`; nothing is changed then.
    pub fn place_row(
        &mut self,
        seat: u32,
        leaf: u64,
        key: C::Key,
        tag: u64,
    ) -> Result<Stamped<C::Key>, Refusal>
        ensures { PlacesRow O.Consumer C.rules O.rule
            seat self.old leaf key tag result self.new }
    {
        self.recall_soundness();
        self.place(seat, leaf, key, tag)
    }

    /// Opens a finder of a row, and gives its serial.
    ///
    /// # Errors
    /// Those of the event `Find`; nothing is changed then.
    pub fn open_finder(&mut self, row: u64) -> Result<u64, Refusal>
        ensures { OpensFinder O.Consumer C.rules O.rule self.old row result self.new }
    {
        self.recall_soundness();
        self.find(row)
    }

    /// Opens a finder of a row, and gives its serial. It begins at the page on which the row is, if that is known,
    /// else at the root.
    ///
    /// # Errors
    /// Those of the event `Find`; nothing is changed then.
    pub fn open_finder_near(&mut self, row: u64) -> Result<u64, Refusal>
        ensures opens { OpensNear C.rules O.rule self.old row result self.new }
        ensures sound { IsSoundWorld C.rules.is_cover self.new }
    {
        let opened = self.find_near(row);
        self.recall_soundness();
        opened
    }

    /// Lets a finder visit a page, for a seat. If the page holds the row, the row is deleted and the finder ends;
    /// otherwise the answer is `None`.
    ///
    /// # Errors
    /// Those of the event `Seek`; nothing is changed then.
    pub fn seek_to_delete(
        &mut self,
        seat: u32,
        finder: u64,
    ) -> Result<Option<Stamped<C::Key>>, Refusal>
        ensures { DeletesMet O.Consumer C.rules O.rule seat self.old finder result self.new }
    {
        self.recall_soundness();
        self.seek(seat, finder)
    }

    /// Lets a finder visit a page, for a seat. If the page holds the row, the row is moved to the leaf and the finder
    /// ends; otherwise the answer is `None`.
    ///
    /// # Errors
    /// Those of the event `Move`; nothing is changed then.
    pub fn seek_to_move(
        &mut self,
        seat: u32,
        finder: u64,
        leaf: u64,
        key: C::Key,
    ) -> Result<Option<Stamped<C::Key>>, Refusal>
        ensures { MovesMet O.Consumer C.rules O.rule
            seat self.old finder leaf key result self.new }
    {
        self.recall_soundness();
        self.move_row(seat, finder, leaf, key)
    }

    /// Sweeps a leaf, and gives how many dead rows were removed.
    ///
    /// # Errors
    /// Those of the event `Sweep`; nothing is changed then.
    pub fn sweep_page(&mut self, page: u64) -> Result<u64, Refusal>
        ensures { SweepsPage O.Consumer C.rules O.rule self.old page result self.new }
    {
        self.recall_soundness();
        self.sweep(page)
    }

    /// Opens a cursor: its serial, and the other end of its mailbox, from which nothing has been taken yet.
    ///
    /// # Errors
    /// Those of the event `Open`; nothing is changed then.
    pub fn open_cursor(
        &mut self,
        query: Pred<C::Atom>,
        room: u64,
    ) -> Result<(u64, O::Consumer), Refusal>
        ensures opens { OpensCursor O.Consumer C.rules O.rule
            self.old query room result self.new }
        ensures fresh { IfOk result (λ made. O.fresh made.1) }
    {
        self.recall_soundness();
        self.open(query, room)
    }

    /// Opens a cursor that follows a commit, without a snapshot: its serial, and the other end of its mailbox, from
    /// which nothing has been taken yet.
    ///
    /// # Errors
    /// Those of the event `Follow`; nothing is changed then.
    pub fn follow_commit(
        &mut self,
        query: Pred<C::Atom>,
        room: u64,
        commit: u64,
    ) -> Result<(u64, O::Consumer), Refusal>
        ensures opens { OpensFollower O.Consumer C.rules O.rule
            self.old query room commit result self.new }
        ensures fresh { IfOk result (λ made. O.fresh made.1) }
    {
        self.recall_soundness();
        self.follow(query, room, commit)
    }

    /// Turns a cursor once.
    ///
    /// # Errors
    /// Those of the event `Turn`; nothing is changed then.
    pub fn turn_cursor(&mut self, c: u64) -> Result<Turned, Refusal>
        ensures { TurnsCursor O.Consumer C.rules O.rule self.old c result self.new }
    {
        self.recall_soundness();
        self.turn(c)
    }

    /// Asks a cursor for a mark.
    ///
    /// # Errors
    /// Those of the event `AskMark`; nothing is changed then.
    pub fn ask_cursor(&mut self, c: u64) -> Result<(), Refusal>
        ensures { AsksCursor O.Consumer C.rules O.rule self.old c result self.new }
    {
        self.recall_soundness();
        self.ask_mark(c)
    }

    /// Takes the front of a cursor's mailbox, if this side may empty it. `None` if it is empty.
    ///
    /// # Errors
    /// Those of the event `Take`; nothing is changed then.
    pub fn take_front(&mut self, c: u64) -> Result<Option<Item<C::Key>>, Refusal>
        ensures { TakesFront O.Consumer C.rules O.rule self.old c result self.new }
    {
        self.recall_soundness();
        self.take(c)
    }

    /// Closes a cursor.
    ///
    /// # Errors
    /// Those of the event `Close`; nothing is changed then.
    pub fn close_cursor(&mut self, c: u64) -> Result<(), Refusal>
        ensures { ClosesCursor O.Consumer C.rules O.rule self.old c result self.new }
    {
        self.recall_soundness();
        self.close(c)
    }
}
