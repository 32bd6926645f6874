//! The exported calls of snapshots and queries. Next to each export that takes pointers is a function that takes
//! references instead.
ghost use Rattle.std.specs.Prelude.{◌≡◌, ◌≢◌, None};
ghost use Rattle.libgist.specs.Asked.{AnswersChanges, AnswersCommit, AnswersCommits, AnswersCount, AnswersFind, AnswersFindAny, AnswersFindOfEach, AnswersRow};
ghost use Rattle.std.specs.Borrow.{sem};
ghost use Rattle.libgist.specs.Classes.{FromHandle, FromHandles};
ghost use Rattle.libgist.specs.Loans.{Loan, is_lent, lasts, are_lent, both_last, state_of};
ghost use Rattle.libgist.specs.Making.{Makes, IsTakenFrom, IsPrepared, asked_of};
ghost use Rattle.libgist.specs.Told.{Tells, TellsFault};

use crate::any_snapshot;
use crate::handle::Handle;
use crate::lent::Lent;
use crate::making::{self, settle};
use crate::telling::{no_handle, tell, tell_both, tell_fault};
use crate::words::{KeyWords, ShownItem, ShownRow};
use std::alloc::Global;

/// How many commits a snapshot has.
#[unsafe(no_mangle)]
pub unsafe extern "C" fn gist_commits(snapshot: *const Handle, commits: &mut u64) -> u32
    ghost loan: { Loan }
    requires* { sem 𝓛 (is_lent snapshot loan) }
    ensures* back { sem 𝓛 (lasts loan) }
    ensures told { Tells result commits.old commits.new
        (FromHandle AnswersCommits (state_of loan)) }
{
    tell_commits(&*(snapshot as *const Lent), commits)
}

fn tell_commits(snapshot: &Lent, commits: &mut u64) -> u32
    ensures told { Tells result commits.old commits.new (FromHandle AnswersCommits
        snapshot.now.inside.state) }
{
    tell(any_snapshot::commits(snapshot), commits)
}

/// Gives the row with a number, and whether it is live.
#[unsafe(no_mangle)]
pub unsafe extern "C" fn gist_row_of(
    snapshot: *const Handle,
    number: u64,
    row: &mut ShownRow,
    lives: &mut bool,
) -> u32
    ghost loan: { Loan }
    requires* { sem 𝓛 (is_lent snapshot loan) }
    ensures* back { sem 𝓛 (lasts loan) }
    ensures told { Tells result (row.old, lives.old) (row.new, lives.new) (FromHandle (AnswersRow
        number) (state_of loan)) }
{
    tell_row(&*(snapshot as *const Lent), number, row, lives)
}

fn tell_row(snapshot: &Lent, number: u64, row: &mut ShownRow, lives: &mut bool) -> u32
    ensures told { Tells result (row.old, lives.old) (row.new, lives.new) (FromHandle (AnswersRow
        number) snapshot.now.inside.state) }
{
    tell_both(any_snapshot::row_of(snapshot, number), row, lives)
}

/// Gives the commit with a number; kind 0 if there is none.
#[unsafe(no_mangle)]
pub unsafe extern "C" fn gist_commit_of(
    snapshot: *const Handle,
    number: u64,
    commit: &mut ShownItem,
) -> u32
    ghost loan: { Loan }
    requires* { sem 𝓛 (is_lent snapshot loan) }
    ensures* back { sem 𝓛 (lasts loan) }
    ensures told { Tells result commit.old commit.new (FromHandle (AnswersCommit number) (state_of
        loan)) }
{
    tell_commit(&*(snapshot as *const Lent), number, commit)
}

fn tell_commit(snapshot: &Lent, number: u64, commit: &mut ShownItem) -> u32
    ensures told { Tells result commit.old commit.new (FromHandle (AnswersCommit number)
        snapshot.now.inside.state) }
{
    tell(any_snapshot::commit(snapshot, number), commit)
}

/// Finds the live rows that have a relation to each of many keys. Writes them into a buffer, key after key, as long
/// as a key's rows fit. Gives how many keys were answered, and where each key's rows end.
#[unsafe(no_mangle)]
pub unsafe extern "C" fn gist_find_each(
    snapshot: *const Handle,
    relation: u32,
    keys: &[KeyWords],
    rows: &mut [ShownRow],
    ends: &mut [u64],
    answered: &mut u64,
) -> u32
    ghost loan: { Loan }
    requires* { sem 𝓛 (is_lent snapshot loan) }
    ensures* back { sem 𝓛 (lasts loan) }
    ensures found { Tells result answered.old answered.new (FromHandle (AnswersFindOfEach relation
        keys.now ends.old ends.new rows.old rows.new) (state_of loan)) }
    ensures unfilled { result ≢ 0 → (rows.new ≡ rows.old) × (ends.new ≡ ends.old) }
{
    find_each(
        &*(snapshot as *const Lent),
        relation,
        keys,
        rows,
        ends,
        answered,
    )
}

fn find_each(
    snapshot: &Lent,
    relation: u32,
    keys: &[KeyWords],
    rows: &mut [ShownRow],
    ends: &mut [u64],
    answered: &mut u64,
) -> u32
    ensures found { Tells result answered.old answered.new (FromHandle (AnswersFindOfEach relation
        keys.now ends.old ends.new rows.old rows.new) snapshot.now.inside.state) }
    ensures unfilled { result ≢ 0 → (rows.new ≡ rows.old) × (ends.new ≡ ends.old) }
{
    tell(
        any_snapshot::find_each(snapshot, relation, keys, rows, ends),
        answered,
    )
}

/// Writes the live rows that match into a buffer, by rising number, as many as fit, and gives how many there are in
/// all.
#[unsafe(no_mangle)]
pub unsafe extern "C" fn gist_find(
    snapshot: *const Handle,
    query: *const Handle,
    rows: &mut [ShownRow],
    found: &mut u64,
) -> u32
    ghost loans: { Loan × Loan }
    requires* { sem 𝓛 (are_lent snapshot query loans) }
    ensures* back { sem 𝓛 (both_last loans) }
    ensures found { Tells result found.old found.new (FromHandles (AnswersFind rows.old rows.new)
        (state_of loans.1) (state_of loans.0)) }
    ensures unfilled { result ≢ 0 → rows.new ≡ rows.old }
{
    find_rows(
        &*(snapshot as *const Lent),
        &*(query as *const Lent),
        rows,
        found,
    )
}

fn find_rows(snapshot: &Lent, query: &Lent, rows: &mut [ShownRow], found: &mut u64) -> u32
    ensures found { Tells result found.old found.new (FromHandles (AnswersFind rows.old rows.new)
        query.now.inside.state snapshot.now.inside.state) }
    ensures unfilled { result ≢ 0 → rows.new ≡ rows.old }
{
    tell(any_snapshot::find(query, snapshot, rows), found)
}

/// Writes the live rows that match into a buffer, in any order, as many as fit, and gives how many there are in all.
#[unsafe(no_mangle)]
pub unsafe extern "C" fn gist_find_any(
    snapshot: *const Handle,
    query: *const Handle,
    rows: &mut [ShownRow],
    found: &mut u64,
) -> u32
    ghost loans: { Loan × Loan }
    requires* { sem 𝓛 (are_lent snapshot query loans) }
    ensures* back { sem 𝓛 (both_last loans) }
    ensures found { Tells result found.old found.new (FromHandles (AnswersFindAny rows.old rows.new)
        (state_of loans.1) (state_of loans.0)) }
    ensures unfilled { result ≢ 0 → rows.new ≡ rows.old }
{
    find_any_rows(
        &*(snapshot as *const Lent),
        &*(query as *const Lent),
        rows,
        found,
    )
}

fn find_any_rows(snapshot: &Lent, query: &Lent, rows: &mut [ShownRow], found: &mut u64) -> u32
    ensures found { Tells result found.old found.new (FromHandles (AnswersFindAny rows.old rows.new)
        query.now.inside.state snapshot.now.inside.state) }
    ensures unfilled { result ≢ 0 → rows.new ≡ rows.old }
{
    tell(any_snapshot::find_any(query, snapshot, rows), found)
}

/// Gives how many live rows match.
#[unsafe(no_mangle)]
pub unsafe extern "C" fn gist_count(
    snapshot: *const Handle,
    query: *const Handle,
    count: &mut u64,
) -> u32
    ghost loans: { Loan × Loan }
    requires* { sem 𝓛 (are_lent snapshot query loans) }
    ensures* back { sem 𝓛 (both_last loans) }
    ensures counted { Tells result count.old count.new (FromHandles AnswersCount (state_of loans.1)
        (state_of loans.0)) }
{
    count_rows(&*(snapshot as *const Lent), &*(query as *const Lent), count)
}

fn count_rows(snapshot: &Lent, query: &Lent, count: &mut u64) -> u32
    ensures counted { Tells result count.old count.new (FromHandles AnswersCount
        query.now.inside.state snapshot.now.inside.state) }
{
    tell(any_snapshot::count(query, snapshot), count)
}

/// Writes the matching items of the commits after `from` into a buffer, until it is full. Gives how many were
/// written, and up to which commit they are complete.
#[unsafe(no_mangle)]
pub unsafe extern "C" fn gist_changes(
    snapshot: *const Handle,
    query: *const Handle,
    from: u64,
    items: &mut [ShownItem],
    given: &mut u64,
    upto: &mut u64,
) -> u32
    ghost loans: { Loan × Loan }
    requires* { sem 𝓛 (are_lent snapshot query loans) }
    ensures* back { sem 𝓛 (both_last loans) }
    ensures given { Tells result (given.old, upto.old) (given.new, upto.new) (FromHandles
        (AnswersChanges from items.old items.new) (state_of loans.1) (state_of loans.0)) }
    ensures unfilled { result ≢ 0 → items.new ≡ items.old }
{
    give_changes(
        &*(snapshot as *const Lent),
        &*(query as *const Lent),
        from,
        items,
        given,
        upto,
    )
}

fn give_changes(
    snapshot: &Lent,
    query: &Lent,
    from: u64,
    items: &mut [ShownItem],
    given: &mut u64,
    upto: &mut u64,
) -> u32
    ensures given { Tells result (given.old, upto.old) (given.new, upto.new) (FromHandles
        (AnswersChanges from items.old items.new) query.now.inside.state snapshot.now.inside.state) }
    ensures unfilled { result ≢ 0 → items.new ≡ items.old }
{
    tell_both(
        any_snapshot::changes(query.alloc(), query, snapshot, from, items),
        given,
        upto,
    )
}

/// Takes a snapshot of a store, for an empty handle.
#[unsafe(no_mangle)]
pub unsafe extern "C" fn gist_take(store: *const Handle, snapshot: &mut Handle) -> u32
    ghost loan: { Loan }
    requires* { sem 𝓛 (is_lent store loan) }
    ensures* back { sem 𝓛 (lasts loan) }
    ensures taken { Makes (IsTakenFrom (state_of loan))
        snapshot.old.inside.state snapshot.new.inside.state result }
{
    take_snapshot(&*(store as *const Lent), snapshot)
}

fn take_snapshot(store: &Lent, snapshot: &mut Handle) -> u32
    ensures taken { Makes (IsTakenFrom store.now.inside.state)
        snapshot.old.inside.state snapshot.new.inside.state result }
{
    if snapshot.is_open() {
        return 2;
    }
    match store.held() {
        None => settle(store.alloc(), no_handle(), snapshot),
        Some(held) => settle(store.alloc(), making::snapshot(held), snapshot),
    }
}

/// Drops the snapshot of a handle, if it has one, and leaves the handle empty.
#[unsafe(no_mangle)]
pub extern "C" fn gist_drop(alloc: Global, snapshot: &mut Handle)
    ensures { snapshot.new.inside.state ≡ None }
{
    drop(snapshot.take(alloc));
}

/// Parses the text of a query, for an empty handle. If the text is refused, `fault` gets the place of the first wrong
/// byte.
#[unsafe(no_mangle)]
pub extern "C" fn gist_prepare(
    alloc: Global,
    query: &mut Handle,
    class: u32,
    text: &[u8],
    fault: &mut u64,
) -> u32
    ensures { Makes (TellsFault fault.old fault.new (IsPrepared class text.now))
        query.old.inside.state query.new.inside.state result }
{
    if query.is_open() {
        return 2;
    }
    let prepared = making::query(alloc, class, text);
    tell_fault(&prepared, fault);
    settle(alloc, prepared, query)
}

/// Makes the query for the keys that have a relation to a key, for an empty handle.
#[unsafe(no_mangle)]
pub extern "C" fn gist_ask(
    alloc: Global,
    query: &mut Handle,
    class: u32,
    relation: u32,
    key: KeyWords,
) -> u32
    ensures { Makes (λ made. made ≡ asked_of class relation key)
        query.old.inside.state query.new.inside.state result }
{
    if query.is_open() {
        return 2;
    }
    settle(alloc, making::asked(class, relation, key), query)
}

/// Drops the query of a handle, if it has one, and leaves the handle empty.
#[unsafe(no_mangle)]
pub extern "C" fn gist_forget(alloc: Global, query: &mut Handle)
    ensures { query.new.inside.state ≡ None }
{
    drop(query.take(alloc));
}
