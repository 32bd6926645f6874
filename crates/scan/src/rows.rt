ghost use Rattle.std.specs.Prelude.{◌≡◌, ◌≢◌, [], IfOk, OnErr};
ghost use Rattle.scan.specs.Finding.{holds};
ghost use Rattle.scan.specs.Scanning.{is_seen, seen};
ghost use Rattle.scan.specs.QueryVisits.{seen_by};

use change_list::Row;
use key_class::{Columned, KeyClass, Pred};
use node::{OfRow, Rows};
use row_version::Entry;
use search::{KeyTest, OneAtom, row_of};
use std::alloc::{AllocError, Global};
use std::collections::VecDeque;

/// The rows that are live after the first `commit` commits and match, in order.
///
/// # Errors
/// Memory ran out, and there is such a row.
pub(crate) fn seen_rows<C: KeyClass>(
    alloc: Global,
    entries: &Rows<C::Key>,
    query: &Pred<C::Atom>,
    commit: u32,
) -> Result<VecDeque<Row<C::Key>>, AllocError>
    ensures seen { IfOk result (λ v. v.items ≡ seen_by C.rules query.now commit entries.now) }
    ensures memory { OnErr result (seen_by C.rules query.now commit entries.now ≢ []) }
{
    match query {
        Pred::Atom(atom) => {
            accepted_rows::<C, OneAtom<C::Atom>>(alloc, entries, &OneAtom { atom: *atom }, commit)
        }
        _ => accepted_rows::<C, Pred<C::Atom>>(alloc, entries, query, commit),
    }
}

/// The rows that are live after the first `commit` commits and pass the test.
///
/// # Errors
/// Memory ran out, and there is such a row.
fn accepted_rows<C: KeyClass, T: KeyTest<C>>(
    alloc: Global,
    entries: &Rows<C::Key>,
    test: &T,
    commit: u32,
) -> Result<VecDeque<Row<C::Key>>, AllocError>
    ensures seen { IfOk result (λ v. v.items ≡ seen (T.accepts test.now) commit entries.now) }
    ensures memory { OnErr result (seen (T.accepts test.now) commit entries.now ≢ []) }
{
    let mut rows = VecDeque::new(alloc);
    for place in 0..entries.len() {
        let entry = entries.get(place);
        if is_seen::<C, T>(&entry, test, commit) {
            rows.push_back(row_of(&entry))?;
        }
    }
    Ok(rows)
}

/// Whether an entry's row is live after the first `commit` commits and passes the test.
fn is_seen<C: KeyClass, T: KeyTest<C>>(entry: &Entry<C::Key>, test: &T, commit: u32) -> bool
    ensures { result ≡ is_seen (T.accepts test.now) commit entry.now }
{
    test.is_accepted(entry.key()) && entry.visible_at(commit)
}

/// Whether one of the entries is that of the row.
pub fn holds_row<K: Columned>(entries: &Rows<K>, row: u32) -> bool
    ensures { result ≡ holds row entries.now }
{
    entries.any(&OfRow { row })
}
