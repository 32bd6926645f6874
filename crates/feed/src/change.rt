ghost use Rattle.std.specs.Prelude.{◌≡◌, ◌<◌, length, option_map};
ghost use Rattle.key_class.specs.Queries.{query_of};
ghost use Rattle.key_class.specs.Rules.{satisfies};
ghost use Rattle.change_list.specs.Changes.{moved};
ghost use Rattle.feed.specs.Changing.{IsChangeOf, TellsItem, asked_row};

use change_list::{Item, Row, Write};
use key_class::{Columned, KeyClass, Pred};
use snapshot::Snapshot;

/// What a commit changes, read once for all the queries that it may concern.
#[derive(Clone, Copy)]
pub(crate) struct Change<K> {
    /// The number of the commit.
    pub(crate) number: u64,
    /// The row that it ends, if any.
    pub(crate) ended: Option<Row<K>>,
    /// The row that it makes, if any.
    pub(crate) made: Option<Row<K>>,
}

impl<K: Columned> Change<K> {
    /// What commit `place + 1` changes.
    pub(crate) fn at<C: KeyClass<Key = K>>(snapshot: &Snapshot<C>, place: u64) -> Change<K>
        requires { place < length snapshot.now }
        ensures { IsChangeOf snapshot.now place result }
    {
        // brings into view that there is such a commit, so that its number is in range
        let _count = snapshot.commits();
        let number = place + 1;
        match snapshot.commit(number) {
            Some(Write::Insert(key, tag)) => Change {
                number,
                ended: None,
                made: Some(Row {
                    row: number,
                    key,
                    tag,
                }),
            },
            Some(Write::Delete(row)) => Change {
                number,
                ended: snapshot.row(row),
                made: None,
            },
            Some(Write::Move(row, key)) => {
                let ended = snapshot.row(row);
                Change {
                    number,
                    ended,
                    made: moved(ended, number, key),
                }
            }
            None => Change {
                number,
                ended: None,
                made: None,
            },
        }
    }

    /// The item that this change is to a query, if any. The query sees only those of the two rows whose keys satisfy
    /// it.
    pub(crate) fn item<C: KeyClass<Key = K>>(&self, query: &Pred<C::Atom>) -> Option<Item<K>>
        ensures { TellsItem (satisfies C.rules (query_of query.now)) self.now result }
    {
        let ended = asked::<C>(query, self.ended);
        let made = asked::<C>(query, self.made);
        match (ended, made) {
            (Some(old), Some(new)) => Some(Item::Moved(new, old.row)),
            (Some(old), None) => Some(Item::Deleted(self.number, old.row)),
            (None, Some(new)) => Some(Item::Inserted(new)),
            (None, None) => None,
        }
    }
}

/// The row that a move makes: its number and its key are new, its tag is the old row's.
fn moved<K: Copy>(old: Option<Row<K>>, number: u64, key: K) -> Option<Row<K>>
    ensures { result ≡ option_map (moved number key) old }
{
    let old = old?;
    Some(Row {
        row: number,
        key,
        tag: old.tag,
    })
}

/// The row, if its key satisfies the query.
fn asked<C: KeyClass>(query: &Pred<C::Atom>, row: Option<Row<C::Key>>) -> Option<Row<C::Key>>
    ensures { result ≡ asked_row (satisfies C.rules (query_of query.now)) row }
{
    let row = row?;
    query.matches::<C>(row.key).then_some(row)
}
