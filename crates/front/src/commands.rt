ghost use Rattle.std.specs.Prelude.{◌≤◌, None, Some};
ghost use Rattle.key_class.specs.Limits.{most_depth};
ghost use Rattle.key_class.specs.Queries.{query_of, depth_of};
ghost use Rattle.front.specs.Told.{RepliesInsert, RepliesDelete, RepliesMove, RepliesOpen, RepliesNext, RepliesMark, RepliesFind, RepliesSweep, RepliesClose};
ghost use Rattle.front.specs.AsTold.{Tells};

use crate::answer::Answer;
use key_class::{KeyClass, Pred};
use store::Store;

/// Adds a row.
pub fn insert<C: KeyClass>(store: &mut Store<C>, key: C::Key, tag: u64) -> Answer<C::Key>
    ensures { Tells C.rules store.old store.new (RepliesInsert key tag result) }
{
    match store.insert(key, tag) {
        Ok(number) => Answer::Committed(number),
        Err(why) => Answer::Refused(why),
    }
}

/// Deletes a row.
pub fn delete<C: KeyClass>(store: &mut Store<C>, row: u64) -> Answer<C::Key>
    ensures { Tells C.rules store.old store.new (RepliesDelete row result) }
{
    match store.delete(row) {
        Ok(number) => Answer::Committed(number),
        Err(why) => Answer::Refused(why),
    }
}

/// Moves a row.
pub fn move_row<C: KeyClass>(store: &mut Store<C>, row: u64, key: C::Key) -> Answer<C::Key>
    ensures { Tells C.rules store.old store.new (RepliesMove row key result) }
{
    match store.move_row(row, key) {
        Ok(number) => Answer::Committed(number),
        Err(why) => Answer::Refused(why),
    }
}

/// Opens a cursor at the present commits.
pub fn open<C: KeyClass>(store: &mut Store<C>, room: u64, query: Pred<C::Atom>) -> Answer<C::Key>
    requires { depth_of (query_of query) ≤ most_depth }
    ensures { Tells C.rules store.old store.new (RepliesOpen room None (query_of query) result) }
{
    match store.open(query, room) {
        Ok(cursor) => Answer::Opened(cursor),
        Err(why) => Answer::Refused(why),
    }
}

/// Opens a cursor that follows a commit.
pub fn open_from<C: KeyClass>(
    store: &mut Store<C>,
    room: u64,
    commit: u64,
    query: Pred<C::Atom>,
) -> Answer<C::Key>
    requires { depth_of (query_of query) ≤ most_depth }
    ensures { Tells C.rules store.old store.new
        (RepliesOpen room (Some commit) (query_of query) result) }
{
    match store.open_from(query, room, commit) {
        Ok(cursor) => Answer::Opened(cursor),
        Err(why) => Answer::Refused(why),
    }
}

/// Gives a cursor's next item.
pub fn next<C: KeyClass>(store: &mut Store<C>, cursor: u64) -> Answer<C::Key>
    ensures { Tells C.rules store.old store.new (RepliesNext C.rules cursor result) }
{
    match store.next(cursor) {
        Ok(Some(item)) => Answer::Given(item),
        Ok(None) => Answer::Empty,
        Err(why) => Answer::Refused(why),
    }
}

/// Asks a cursor for a mark.
pub fn mark<C: KeyClass>(store: &mut Store<C>, cursor: u64) -> Answer<C::Key>
    ensures { Tells C.rules store.old store.new (RepliesMark cursor result) }
{
    match store.ask_mark(cursor) {
        Ok(()) => Answer::Asked,
        Err(why) => Answer::Refused(why),
    }
}

/// Finds the rows that match.
pub fn find<C: KeyClass>(store: &mut Store<C>, query: &Pred<C::Atom>) -> Answer<C::Key>
    requires { depth_of (query_of query.now) ≤ most_depth }
    ensures { Tells C.rules store.old store.new (RepliesFind C.rules (query_of query.now) result) }
{
    match store.find(query) {
        Ok(rows) => Answer::Found(rows),
        Err(why) => Answer::Refused(why),
    }
}

/// Removes the dead rows that no scan needs.
pub fn sweep<C: KeyClass>(store: &mut Store<C>) -> Answer<C::Key>
    ensures { Tells C.rules store.old store.new (RepliesSweep result) }
{
    match store.sweep_all() {
        Ok(number) => Answer::Swept(number),
        Err(why) => Answer::Refused(why),
    }
}

/// Closes a cursor.
pub fn close<C: KeyClass>(store: &mut Store<C>, cursor: u64) -> Answer<C::Key>
    ensures { Tells C.rules store.old store.new (RepliesClose cursor result) }
{
    match store.close(cursor) {
        Ok(()) => Answer::Closed,
        Err(why) => Answer::Refused(why),
    }
}
