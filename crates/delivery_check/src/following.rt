ghost use Rattle.std.specs.Prelude.{◌≡◌, ◌≤◌, ◌↔◌, length, IsTrue};
ghost use Rattle.key_class.specs.Queries.{query_of};
ghost use Rattle.change_list.specs.Configs.{IsFrom};
ghost use Rattle.delivery_check.specs.Following.{IsNextPlace, IsFollowedFor, IsItemFor};
ghost use Rattle.key_class.specs.Rules.{satisfies};

use crate::sameness::is_same_item;
use change_list::{Item, View, change_item};
use key_class::{KeyClass, Pred};

/// The first place, from another on, whose commit has an item; the number of commits if there is none.
fn next_place<C: KeyClass>(
    commits: &View<C::Key>,
    query: &Pred<C::Atom>,
    from: u64,
    count: u64,
) -> u64
    requires from { from ≤ count }
    requires count { count ≡ length commits.now }
    ensures { IsNextPlace (satisfies C.rules (query_of query.now)) commits.now from result }
{
    for place in from..count {
        if change_item::<C>(commits, query, place).is_some() {
            return place;
        }
    }
    count
}

/// Whether the commit at a place has this item.
fn has_item<C: KeyClass>(
    commits: &View<C::Key>,
    query: &Pred<C::Atom>,
    place: u64,
    item: Item<C::Key>,
) -> bool
    ensures { IsTrue result ↔ IsItemFor C.rules query.now commits.now place item }
{
    match change_item::<C>(commits, query, place) {
        None => false,
        Some(change) => is_same_item::<C>(change, item),
    }
}

/// Whether a number is from the first to the last, both included.
fn is_from(first: u64, last: u64, number: u64) -> bool
    ensures { IsTrue result ↔ IsFrom first last number }
{
    first <= number && number <= last
}

/// Whether the items may be given after the rows of the snapshot.
pub(crate) fn is_followed<C: KeyClass>(
    commits: &View<C::Key>,
    query: &Pred<C::Atom>,
    opened: u64,
    items: &[Item<C::Key>],
) -> bool
    requires { opened ≤ length commits.now }
    ensures { IsTrue result ↔ IsFollowedFor C.rules query.now opened commits.now items.now }
{
    let count = commits.len() as u64;
    let mut position = opened;
    let mut next = next_place::<C>(commits, query, opened, count);
    for item in items {
        match item {
            Item::Mark(number) => {
                if !is_from(position, next, *number) {
                    return false;
                }
            }
            _ => {
                if !has_item::<C>(commits, query, next, *item) {
                    return false;
                }
                position = next + 1;
                next = next_place::<C>(commits, query, position, count);
            }
        }
    }
    true
}
