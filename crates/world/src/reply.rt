//! The world's replies to events.
ghost use Rattle.std.specs.Prelude.{◌≡◌};
ghost use Rattle.world.specs.Calls as call;

use change_list::{Item, Write};
use cursor::Turned;
use key_class::Refusal;
use std::marker::Model;

/// A commit, as a reply tells it. Only a world can make one.
#[derive(Clone, Copy)]
pub struct Stamped<K> {
    number: u64,
    seat: u32,
    write: Write<K>,
}

impl<K> Model for Stamped<K> {
    ghost use Rattle.world.specs.Stamps.{Stamp};

    ghost Value = { Stamp K };

    ghost view = { λ s. record { number = s.number; seat = s.seat; write = s.write } };

    ghost inverse = { λ s. record { number = s.number; seat = s.seat; write = s.write } };
}

impl<K: Copy> Stamped<K> {
    pub(crate) fn new(number: u64, seat: u32, write: Write<K>) -> Stamped<K>
        ensures { result ≡ record { number = number; seat = seat; write = write } }
    {
        Stamped {
            number,
            seat,
            write,
        }
    }

    /// The commit's number. The first is 1.
    pub fn number(&self) -> u64
        ensures { result ≡ self.now.number }
    {
        self.number
    }

    /// The seat for which it was made.
    pub fn seat(&self) -> u32
        ensures { result ≡ self.now.seat }
    {
        self.seat
    }

    /// What it changed.
    pub fn write(&self) -> Write<K>
        ensures { result ≡ self.now.write }
    {
        self.write
    }
}

/// The world's reply to an event.
#[derive(Drop)]
pub enum Reply<K, E> {
    Enlarged,
    /// A commit was made.
    Committed(Stamped<K>),
    /// The number of the page that took the right side.
    Split(u32),
    Posted,
    /// The numbers of the two pages that took the root's entries.
    Grown(u32, u32),
    /// The finder's serial.
    Finder(u64),
    /// The page that the finder visited doesn't hold its row.
    Seeking,
    Unfound,
    /// How many dead rows were removed.
    Swept(u64),
    /// The cursor's serial, and the other end of its mailbox.
    Opened(u64, E),
    /// An item went to the mailbox.
    Offered,
    /// The page that was read.
    Visited(u32),
    /// The commit with this number doesn't match the query.
    Passed(u64),
    Asked,
    Taken(Item<K>),
    /// The mailbox is empty.
    Nothing,
    Closed,
    /// Nothing was changed.
    Refused(Refusal),
}

impl<K: Copy, E> Reply<K, E> {
    /// The reply to an event that commits.
    pub(crate) fn of_commit(answer: Result<Stamped<K>, Refusal>) -> Reply<K, E>
        ensures { result ≡ call.reply_of_commit E answer }
    {
        match answer {
            Ok(stamp) => Reply::Committed(stamp),
            Err(refusal) => Reply::Refused(refusal),
        }
    }

    /// The reply to a visit of a finder, which commits if it meets its row.
    pub(crate) fn of_visit(answer: Result<Option<Stamped<K>>, Refusal>) -> Reply<K, E>
        ensures { result ≡ call.reply_of_visit E answer }
    {
        match answer {
            Ok(Some(stamp)) => Reply::Committed(stamp),
            Ok(None) => Reply::Seeking,
            Err(refusal) => Reply::Refused(refusal),
        }
    }

    /// The reply to an event that opens a finder.
    pub(crate) fn of_finder(answer: Result<u64, Refusal>) -> Reply<K, E>
        ensures { result ≡ call.reply_of_finder E answer }
    {
        match answer {
            Ok(serial) => Reply::Finder(serial),
            Err(refusal) => Reply::Refused(refusal),
        }
    }

    /// The reply to a sweep.
    pub(crate) fn of_sweep(answer: Result<u64, Refusal>) -> Reply<K, E>
        ensures { result ≡ call.reply_of_sweep E answer }
    {
        match answer {
            Ok(count) => Reply::Swept(count),
            Err(refusal) => Reply::Refused(refusal),
        }
    }

    /// The reply to an event that opens a cursor.
    pub(crate) fn of_opening(answer: Result<(u64, E), Refusal>) -> Reply<K, E>
        ensures { result ≡ call.reply_of_opening E answer }
    {
        match answer {
            Ok((serial, end)) => Reply::Opened(serial, end),
            Err(refusal) => Reply::Refused(refusal),
        }
    }

    /// The reply to a turn.
    pub(crate) fn of_turn(answer: Result<Turned, Refusal>) -> Reply<K, E>
        ensures { result ≡ call.reply_of_turn E answer }
    {
        match answer {
            Ok(Turned::Offered) => Reply::Offered,
            Ok(Turned::Visited(page)) => Reply::Visited(page),
            Ok(Turned::Passed(commit)) => Reply::Passed(commit),
            Err(refusal) => Reply::Refused(refusal),
        }
    }

    /// The reply to an event that asks for a mark.
    pub(crate) fn of_asking(answer: Result<(), Refusal>) -> Reply<K, E>
        ensures { result ≡ call.reply_of_asking E answer }
    {
        match answer {
            Ok(()) => Reply::Asked,
            Err(refusal) => Reply::Refused(refusal),
        }
    }

    /// The reply to an event that takes an item.
    pub(crate) fn of_taking(answer: Result<Option<Item<K>>, Refusal>) -> Reply<K, E>
        ensures { result ≡ call.reply_of_taking E answer }
    {
        match answer {
            Ok(Some(item)) => Reply::Taken(item),
            Ok(None) => Reply::Nothing,
            Err(refusal) => Reply::Refused(refusal),
        }
    }

    /// The reply to an event that closes a cursor.
    pub(crate) fn of_closing(answer: Result<(), Refusal>) -> Reply<K, E>
        ensures { result ≡ call.reply_of_closing E answer }
    {
        match answer {
            Ok(()) => Reply::Closed,
            Err(refusal) => Reply::Refused(refusal),
        }
    }
}
