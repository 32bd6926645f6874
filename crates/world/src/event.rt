//! What a world can be asked to do in one step.
ghost use Rattle.std.specs.Prelude.{IfOk};
ghost use Rattle.world.specs.Steps.{IsCopy};

use key_class::{Pred, Sides};
use std::alloc::{AllocError, Global};

/// What a world can be asked to do in one step. Pages, rows and cursors are given by their numbers; a number that
/// doesn't fit is refused.
#[derive(Drop)]
pub enum Event<K, A> {
    /// Widens the branch of an inner page to a child, and the child's cover, by a key: parent, child, key.
    Enlarge(u64, u64, K),
    /// Adds a row to a leaf: page, key, tag.
    Place(u64, K, u64),
    /// Splits a full page by sides: page, sides.
    Split(u64, Sides),
    /// Gives the right sibling of a page that was split a branch in the parent: parent, page that was split.
    Post(u64, u64),
    /// Grows a full root by sides.
    Grow(Sides),
    /// Opens a finder, which looks for the leaf that holds a live row: row.
    Find(u64),
    /// Lets a finder visit one page. If that page holds its row, the row is deleted and the finder ends.
    Seek(u64),
    /// Lets a finder visit one page. If that page holds its row, the row is moved to a leaf, and the finder ends:
    /// finder, leaf, key.
    Move(u64, u64, K),
    /// Ends a finder.
    Unfind(u64),
    /// Removes from a leaf the dead rows that no scan needs.
    Sweep(u64),
    /// Opens a cursor at the present commits: query, room of its mailbox in items (1 to 4,096).
    Open(Pred<A>, u64),
    /// Opens a cursor that follows a commit, without a snapshot: query, room of its mailbox, number of the commit.
    Follow(Pred<A>, u64, u64),
    /// Lets a cursor do one piece of its work.
    Turn(u64),
    /// Asks a cursor for a mark.
    AskMark(u64),
    /// Takes the front of a cursor's mailbox.
    Take(u64),
    /// Closes a cursor.
    Close(u64),
}

impl<K: Copy, A: Copy> Event<K, A> {
    /// An equal event, with a copy of its query.
    pub fn copy(&self, alloc: Global) -> Result<Event<K, A>, AllocError>
        ensures { IfOk result (λ copy. IsCopy self.now copy) }
    {
        Ok(match self {
            Event::Enlarge(parent, child, key) => Event::Enlarge(*parent, *child, *key),
            Event::Place(page, key, tag) => Event::Place(*page, *key, *tag),
            Event::Split(page, sides) => Event::Split(*page, sides.copy(alloc)?),
            Event::Post(parent, child) => Event::Post(*parent, *child),
            Event::Grow(sides) => Event::Grow(sides.copy(alloc)?),
            Event::Find(row) => Event::Find(*row),
            Event::Seek(finder) => Event::Seek(*finder),
            Event::Move(finder, leaf, key) => Event::Move(*finder, *leaf, *key),
            Event::Unfind(finder) => Event::Unfind(*finder),
            Event::Sweep(page) => Event::Sweep(*page),
            Event::Open(query, room) => Event::Open(query.copy(alloc)?, *room),
            Event::Follow(query, room, commit) => {
                Event::Follow(query.copy(alloc)?, *room, *commit)
            }
            Event::Turn(cursor) => Event::Turn(*cursor),
            Event::AskMark(cursor) => Event::AskMark(*cursor),
            Event::Take(cursor) => Event::Take(*cursor),
            Event::Close(cursor) => Event::Close(*cursor),
        })
    }
}
