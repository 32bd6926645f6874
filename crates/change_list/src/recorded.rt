ghost use Rattle.std.specs.Prelude.{◌≡◌};
ghost use Rattle.key_class.specs.Queries.{query_of};
ghost use Rattle.key_class.specs.Rules.{satisfies};
ghost use Rattle.change_list.specs.Records.{is_unasked, origin_of, write_of};

use crate::write::Write;
use key_class::{Columned, KeyClass, Pred};

/// A commit as a list stores it.
///
/// A move has the number of the insert from which its row descends by moves, and whose tag it has. So a row's tag is
/// found in two reads, however often it was moved.
#[derive(Clone, Copy)]
pub(crate) enum Recorded<K> {
    Insert(K, u64),
    Delete(u64),
    /// The new key, the number of the row that is moved, and the number of that insert.
    Move(K, u32, u32),
}

impl<K: Copy> Recorded<K> {
    /// What the commit changes.
    pub(crate) fn write(self) -> Write<K>
        ensures { result ≡ write_of self }
    {
        match self {
            Recorded::Insert(key, tag) => Write::Insert(key, tag),
            Recorded::Delete(row) => Write::Delete(row),
            Recorded::Move(key, row, _) => Write::Move(u64::from(row), key),
        }
    }

    /// The number of the insert from which the commit's row descends by moves; `number` is the commit's own.
    pub(crate) fn origin(self, number: u32) -> u32
        ensures { result ≡ origin_of number self }
    {
        match self {
            Recorded::Insert(_, _) => number,
            Recorded::Delete(_) => number,
            Recorded::Move(_, _, origin) => origin,
        }
    }
}

impl<K: Columned> Recorded<K> {
    /// Whether the commit inserts a key that the query doesn't ask for, so that it has no item.
    pub(crate) fn is_unasked<C: KeyClass<Key = K>>(&self, query: &Pred<C::Atom>) -> bool
        ensures { result ≡ is_unasked (satisfies C.rules (query_of query.now)) self.now }
    {
        match self {
            Recorded::Insert(key, _) => !query.matches::<C>(*key),
            Recorded::Delete(_) | Recorded::Move(_, _, _) => false,
        }
    }
}
