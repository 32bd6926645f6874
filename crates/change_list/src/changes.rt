ghost use Rattle.std.specs.Prelude.{◌≡◌, ◌<◌, ◌^◌, [], length};
ghost use Rattle.key_class.specs.Queries.{query_of};
ghost use Rattle.change_list.specs.Changes.{item_at};
ghost use Rattle.change_list.specs.Asked.{deletion_for, move_between, move_for};
ghost use Rattle.change_list.specs.Listings.{AreChanges};
ghost use Rattle.change_list.specs.Records.{BeginsUnasked};
ghost use Rattle.key_class.specs.Rules.{satisfies};

use crate::item::{Item, Row};
use crate::recorded::Recorded;
use crate::view::View;
use crate::write::Write;
use key_class::{KeyClass, Pred};

/// The item of commit `place + 1`, if the query asks for one of the commit's keys.
pub fn change_item<C: KeyClass>(
    commits: &View<C::Key>,
    query: &Pred<C::Atom>,
    place: u64,
) -> Option<Item<C::Key>>
    ensures { result ≡ item_at (satisfies C.rules (query_of query.now)) commits.now place }
{
    if place >= commits.len() as u64 {
        return None;
    }
    let number = place + 1;
    match commits.get(number) {
        Some(Write::Insert(key, tag)) => query.matches::<C>(key).then_some(Item::Inserted(Row {
            row: number,
            key,
            tag,
        })),
        Some(Write::Delete(row)) => delete_item::<C>(commits, query, number, row),
        Some(Write::Move(row, key)) => move_item::<C>(commits, query, number, row, key),
        None => None,
    }
}

/// The place, from `place` on, of the next commit that may have an item. It skips inserts of keys that the query
/// doesn't ask for, at most up to the end of the segment.
pub fn next_asked<C: KeyClass>(commits: &View<C::Key>, query: &Pred<C::Atom>, place: u64) -> u64
    requires exists { place < length commits.now }
    requires countable { length commits.now < 2 ^ 64 }
    ensures { AreChanges (satisfies C.rules (query_of query.now)) place result commits.now [] }
{
    let run = commits.run(place as usize);
    place + count_unasked::<C>(run, query) as u64
}

/// How many of the first commits insert keys that the query doesn't ask for.
fn count_unasked<C: KeyClass>(commits: &[Recorded<C::Key>], query: &Pred<C::Atom>) -> usize
    ensures { BeginsUnasked (satisfies C.rules (query_of query.now)) commits.now result }
{
    let mut passed = 0;
    while passed < commits.len() && commits[passed].is_unasked::<C>(query) {
        passed += 1;
    }
    passed
}

/// The item of a delete, if the query asks for its row's key.
fn delete_item<C: KeyClass>(
    commits: &View<C::Key>,
    query: &Pred<C::Atom>,
    number: u64,
    row: u64,
) -> Option<Item<C::Key>>
    ensures { result ≡ deletion_for C.rules query.now commits.now number row }
{
    let dead = commits.row(row)?;
    query
        .matches::<C>(dead.key)
        .then_some(Item::Deleted(number, dead.row))
}

/// The item of a move, if the query asks for its row's old or new key.
fn move_item<C: KeyClass>(
    commits: &View<C::Key>,
    query: &Pred<C::Atom>,
    number: u64,
    row: u64,
    key: C::Key,
) -> Option<Item<C::Key>>
    ensures { result ≡ move_for C.rules query.now commits.now number row key }
{
    let old = commits.row(row)?;
    let new = Row {
        row: number,
        key,
        tag: old.tag,
    };
    item_between::<C>(query, old.key, new, old.row)
}

/// The item of a move from an old key to a new row, which ended the row with a number.
fn item_between<C: KeyClass>(
    query: &Pred<C::Atom>,
    old: C::Key,
    new: Row<C::Key>,
    row: u64,
) -> Option<Item<C::Key>>
    ensures { result ≡ move_between C.rules query.now old new row }
{
    let was_asked = query.matches::<C>(old);
    let is_asked = query.matches::<C>(new.key);
    match (was_asked, is_asked) {
        (true, true) => Some(Item::Moved(new, row)),
        (true, false) => Some(Item::Deleted(new.row, row)),
        (false, true) => Some(Item::Inserted(new)),
        (false, false) => None,
    }
}
