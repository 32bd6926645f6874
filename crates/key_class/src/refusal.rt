ghost use Rattle.std.specs.Prelude.{◌≡◌, Some};
ghost use Rattle.key_class.specs.Refusals.{number_of, name_of, refusal_text};
ghost use Rattle.key_class.specs.declared.refusal.Refusal.TheVariants.{OutOfMemory};

use std::alloc::{AllocError, AllocFailed};
use std::fmt;
use thiserror::Error;

/// Why a call was refused. Each refusal has a number and a name, and changes nothing.
#[derive(Clone, Copy, Debug, PartialEq, Eq)]
pub enum Refusal {
    /// The call ran out of memory.
    OutOfMemory,
    /// A limit of the configuration, a room, a query's depth, or the number of seats or pumps is out of range.
    BadConfig,
    /// Fewer pages are left than the step needs.
    PagesFull,
    /// The commit list has the configured length.
    CommitsFull,
    /// The most cursors are open, or the last serial was given.
    CursorsFull,
    /// The most finders are open, or the last serial was given.
    FindersFull,
    /// The page or entry named doesn't exist or doesn't fit the step.
    NotHere,
    /// The page has as many entries as it may have.
    NodeFull,
    /// The page has too few entries to be split.
    TooFew,
    /// The page's cover doesn't cover the key.
    Uncovered,
    /// The page's sibling isn't posted yet.
    Owed,
    /// No parent has a branch to the page yet.
    Unhung,
    /// There isn't a side for each entry, or a side has too few of them.
    BadSides,
    /// No insert or move has that number.
    NoSuchRow,
    /// The row was deleted or moved.
    AlreadyDeleted,
    /// The serial was never given.
    NoSuchCursor,
    /// The serial was given and its cursor is closed.
    CursorClosed,
    /// The mailbox didn't take the item.
    NoRoom,
    /// The cursor has nothing to do.
    Idle,
    /// No open finder has the serial.
    NoSuchFinder,
    /// The query's text is wrong at that byte.
    QueryText(u64),
    /// The line is wrong at that byte.
    Line(u64),
    /// The commit to follow is greater than the number of commits.
    FromFuture,
    /// The feed has the most subscriptions, or the last serial was given.
    FeedFull,
    /// No subscription with the serial is open at a feed.
    NotSubscribed,
    /// The changes after the revision are no longer known.
    Compacted,
    /// The snapshot is of another map.
    OtherStore,
}

impl<T: Drop> From<AllocFailed<T>> for Refusal {
    ghost from_gives = { λ _ e. e ≡ OutOfMemory };

    fn from(_e: AllocFailed<T>) -> Refusal {
        Refusal::OutOfMemory
    }
}

impl From<AllocError> for Refusal {
    ghost from_gives = { λ _ e. e ≡ OutOfMemory };

    fn from(_e: AllocError) -> Refusal {
        Refusal::OutOfMemory
    }
}

impl Refusal {
    /// The number that stands for it in an answer.
    pub fn number(self) -> u8
        ensures { result ≡ number_of self }
    {
        match self {
            Refusal::OutOfMemory => 1,
            Refusal::BadConfig => 2,
            Refusal::PagesFull => 3,
            Refusal::CommitsFull => 4,
            Refusal::CursorsFull => 5,
            Refusal::FindersFull => 6,
            Refusal::NotHere => 7,
            Refusal::NodeFull => 8,
            Refusal::TooFew => 9,
            Refusal::Uncovered => 10,
            Refusal::Owed => 11,
            Refusal::Unhung => 12,
            Refusal::BadSides => 13,
            Refusal::NoSuchRow => 14,
            Refusal::AlreadyDeleted => 15,
            Refusal::NoSuchCursor => 16,
            Refusal::CursorClosed => 17,
            Refusal::NoRoom => 18,
            Refusal::Idle => 19,
            Refusal::NoSuchFinder => 20,
            Refusal::QueryText(_) => 21,
            Refusal::Line(_) => 22,
            Refusal::FromFuture => 23,
            Refusal::FeedFull => 24,
            Refusal::NotSubscribed => 25,
            // The library for C has 26 to 29 for refusals of its own.
            Refusal::Compacted => 30,
            Refusal::OtherStore => 31,
        }
    }

    /// The name that follows the number in an answer.
    pub fn name(self) -> &'static str
        ensures { result.now ≡ name_of self }
    {
        match self {
            Refusal::OutOfMemory => "OutOfMemory",
            Refusal::BadConfig => "BadConfig",
            Refusal::PagesFull => "PagesFull",
            Refusal::CommitsFull => "CommitsFull",
            Refusal::CursorsFull => "CursorsFull",
            Refusal::FindersFull => "FindersFull",
            Refusal::NotHere => "NotHere",
            Refusal::NodeFull => "NodeFull",
            Refusal::TooFew => "TooFew",
            Refusal::Uncovered => "Uncovered",
            Refusal::Owed => "Owed",
            Refusal::Unhung => "Unhung",
            Refusal::BadSides => "BadSides",
            Refusal::NoSuchRow => "NoSuchRow",
            Refusal::AlreadyDeleted => "AlreadyDeleted",
            Refusal::NoSuchCursor => "NoSuchCursor",
            Refusal::CursorClosed => "CursorClosed",
            Refusal::NoRoom => "NoRoom",
            Refusal::Idle => "Idle",
            Refusal::NoSuchFinder => "NoSuchFinder",
            Refusal::QueryText(_) => "QueryText",
            Refusal::Line(_) => "Line",
            Refusal::FromFuture => "FromFuture",
            Refusal::FeedFull => "FeedFull",
            Refusal::NotSubscribed => "NotSubscribed",
            Refusal::Compacted => "Compacted",
            Refusal::OtherStore => "OtherStore",
        }
    }
}

/// The number and the name, and the place of a text's fault, as `22 Line 9`.
impl fmt::Display for Refusal {
    ghost output = { λ refusal. Some (refusal_text refusal) };

    fn fmt<W: fmt::Write>(&self, f: &mut fmt::Formatter<W>) -> fmt::Result {
        let number = self.number();
        let name = self.name();
        match self {
            Refusal::QueryText(place) | Refusal::Line(place) => {
                write!(f, "{number} {name} {place}")
            }
            _ => write!(f, "{number} {name}"),
        }
    }
}

/// Why a session or a program ended.
#[derive(Debug, Drop, Error)]
pub enum Fault {
    #[error("out of memory")]
    OutOfMemory,
    #[error("read failed")]
    Read,
    #[error("write failed")]
    Write,
    #[error("refused {0}")]
    Refused(Refusal),
}
