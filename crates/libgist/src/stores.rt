//! The calls of a store, generic over the class. What each promises is one definition in specs/Calls.
ghost use Rattle.std.specs.Prelude.{◌≡◌};
ghost use Rattle.libgist.specs.Calls.{IsInserting, InsertsOne, IsDeleting, IsMovingTo, IsTaking, IsSweep, IsTelling, IsTellingStanding, IsOpening, IsFollowing, IsAsking, IsClosing};
ghost use Rattle.libgist.specs.Shown.{shown_item};

use crate::crossing::Crossing;
use crate::denied::{Denied, passed_on};
use crate::figures::{Figures, ShownStanding};
use crate::shown;
use crate::words::{KeyWords, NewRow, ShownItem};
use change_list::Item;
use key_class::{KeyClass, Pred, Refusal};
use std::alloc::Global;
use store::Store;

/// The room of a cursor. It has no effect, since a store takes each item at once.
const ROOM: u64 = 1;

/// Adds a row, if the ends of its key are in order.
fn insert_one<C: Crossing>(store: &mut Store<C>, row: &NewRow) -> Result<u64, Denied>
    ensures { InsertsOne C.rules C.key_of row.now store.old result store.new }
{
    match C::key(row.key) {
        Some(key) => passed_on(store.insert(key, row.tag)),
        None => Err(Denied::BadEnds),
    }
}

/// Adds rows one after the other, until one is refused, and gives how many were added.
pub fn insert<C: Crossing>(store: &mut Store<C>, rows: &[NewRow]) -> Result<u64, Denied>
    ensures { IsInserting C.rules C.key_of rows.now store.old result store.new }
{
    for place in 0..rows.len() {
        match insert_one(store, &rows[place]) {
            Ok(_) => {}
            Err(why) if place == 0 => return Err(why),
            Err(_) => return Ok(place as u64),
        }
    }
    Ok(rows.len() as u64)
}

/// Deletes rows one after the other, until one is refused, and gives how many were deleted.
pub fn delete<C: KeyClass>(store: &mut Store<C>, rows: &[u64]) -> Result<u64, Denied>
    ensures { IsDeleting C.rules rows.now store.old result store.new }
{
    for place in 0..rows.len() {
        match passed_on(store.delete(rows[place])) {
            Ok(_) => {}
            Err(why) if place == 0 => return Err(why),
            Err(_) => return Ok(place as u64),
        }
    }
    Ok(rows.len() as u64)
}

/// Moves a row to a key, if the key's ends are in order.
pub fn move_row<C: Crossing>(store: &mut Store<C>, row: u64, words: KeyWords) -> Result<u64, Denied>
    ensures { IsMovingTo C.rules C.key_of row words store.old result store.new }
{
    match C::key(words) {
        Some(key) => passed_on(store.move_row(row, key)),
        None => Err(Denied::BadEnds),
    }
}

/// Removes the dead rows that no scan needs.
pub fn sweep<C: KeyClass>(store: &mut Store<C>) -> Result<u64, Refusal>
    ensures { IsSweep C.rules store.old result store.new }
{
    store.sweep_all()
}

/// The figures of a store, in the layout that C reads.
pub fn stats<C: KeyClass>(store: &Store<C>) -> Result<Figures, Denied>
    ensures { IsTelling store.now result store.now }
{
    let stats = store.stats();
    Ok(Figures {
        commits: stats.commits,
        commit_limit: stats.commit_limit,
        pages: stats.pages,
        page_limit: stats.page_limit,
        cursors: stats.cursors,
        horizon: stats.horizon,
    })
}

/// Tells where the open cursor at a place stands, by rising number, the first at place 0.
pub fn standing<C: KeyClass>(store: &Store<C>, place: u64) -> Result<ShownStanding, Denied>
    ensures { IsTellingStanding place store.now result store.now }
{
    let Some(standing) = store.standing(place) else {
        return Ok(ShownStanding {
            cursor: 0,
            opened: 0,
            lag: 0,
            is_scanning: false,
        });
    };
    Ok(ShownStanding {
        cursor: standing.serial,
        opened: standing.opened,
        lag: standing.lag,
        is_scanning: standing.is_scanning,
    })
}

/// Opens a cursor on a query, at the present commits.
pub fn open<C: KeyClass>(
    alloc: Global,
    store: &mut Store<C>,
    query: &Pred<C::Atom>,
) -> Result<u64, Refusal>
    ensures { IsOpening C.rules query.now store.old result store.new }
{
    let copy = query.copy(alloc)?;
    store.open(copy, ROOM)
}

/// Opens a cursor on a query that follows a commit.
pub fn follow<C: KeyClass>(
    alloc: Global,
    store: &mut Store<C>,
    query: &Pred<C::Atom>,
    commit: u64,
) -> Result<u64, Refusal>
    ensures { IsFollowing C.rules query.now commit store.old result store.new }
{
    let copy = query.copy(alloc)?;
    store.open_from(copy, ROOM, commit)
}

/// An item of a store, in the layout that C reads.
fn item<C: Crossing>(store: &Store<C>, item: Item<C::Key>) -> ShownItem
    ensures { result ≡ shown_item C.words_of store.now.commits item }
{
    let ended = shown::ended_in::<C>(&item);
    shown::item::<C>(item, store.row(ended))
}

/// Gives a cursor's next items, until the buffer is full, nothing is left or the next is refused, and how many they
/// are.
pub fn next<C: Crossing>(
    store: &mut Store<C>,
    cursor: u64,
    items: &mut [ShownItem],
) -> Result<u64, Refusal>
    ensures { IsTaking C.rules C.words_of cursor items.old items.new store.old result store.new }
{
    for place in 0..items.len() {
        match store.next(cursor) {
            Ok(Some(given)) => items[place] = item(store, given),
            Ok(None) => return Ok(place as u64),
            Err(why) if place == 0 => return Err(why),
            Err(_) => return Ok(place as u64),
        }
    }
    Ok(items.len() as u64)
}

/// Asks a cursor for a mark.
pub fn mark<C: KeyClass>(store: &mut Store<C>, cursor: u64) -> Result<(), Refusal>
    ensures { IsAsking cursor store.old result store.new }
{
    store.ask_mark(cursor)
}

/// Closes a cursor.
pub fn close<C: KeyClass>(store: &mut Store<C>, cursor: u64) -> Result<(), Refusal>
    ensures { IsClosing cursor store.old result store.new }
{
    store.close(cursor)
}
