//! The exported calls of stores.
ghost use Rattle.std.specs.Prelude.{◌≡◌, ◌≢◌, None};
ghost use Rattle.libgist.specs.Asked.{AnswersFollowing, AnswersOpening, AnswersStanding, AnswersStats};
ghost use Rattle.libgist.specs.Calls.{Passing, IsInserting, IsDeleting, IsMovingTo, IsTaking, IsSweep, IsAsking, IsClosing};
ghost use Rattle.std.specs.Borrow.{sem};
ghost use Rattle.libgist.specs.Classes.{FromHandle, OnHandle, OnHandles, InStore};
ghost use Rattle.libgist.specs.Configs.{config_of};
ghost use Rattle.libgist.specs.Loans.{Loan, is_lent, lasts, state_of};
ghost use Rattle.libgist.specs.Making.{Makes, IsCreation};
ghost use Rattle.libgist.specs.Told.{TellsCode, Tells};

use crate::any_store;
use crate::figures::{Figures, ShownStanding};
use crate::handle::Handle;
use crate::lent::Lent;
use crate::limits::{Limits, config};
use crate::making::{self, settle};
use crate::telling::{code, no_handle, tell};
use crate::words::{KeyWords, NewRow, ShownItem};
use std::alloc::Global;

/// Makes an empty store of a class, for an empty handle.
#[unsafe(no_mangle)]
pub extern "C" fn gist_create(alloc: Global, store: &mut Handle, class: u32, limits: &Limits) -> u32
    ensures { Makes (IsCreation class (config_of limits.now))
        store.old.inside.state store.new.inside.state result }
{
    if store.is_open() {
        return 2;
    }
    settle(alloc, making::store(alloc, class, config(limits)), store)
}

/// Drops the store of a handle, if it has one, and leaves the handle empty.
#[unsafe(no_mangle)]
pub extern "C" fn gist_destroy(alloc: Global, store: &mut Handle)
    ensures { store.new.inside.state ≡ None }
{
    drop(store.take(alloc));
}

/// Adds rows one after the other, until one is refused, and gives how many were added.
#[unsafe(no_mangle)]
pub extern "C" fn gist_insert(
    alloc: Global,
    store: &mut Handle,
    rows: &[NewRow],
    added: &mut u64,
) -> u32
    ensures { Tells result added.old added.new (OnHandle (InStore (λ K A class. IsInserting
        class.rules class.key_of rows.now)) store.old.inside.state store.new.inside.state) }
{
    match store.take(alloc) {
        None => tell(no_handle(), added),
        Some(mut held) => {
            let answer = any_store::insert(&mut held, rows);
            store.put(held);
            tell(answer, added)
        }
    }
}

/// Moves a row to a key, and gives the number of the row that it makes.
#[unsafe(no_mangle)]
pub extern "C" fn gist_move(
    alloc: Global,
    store: &mut Handle,
    row: u64,
    key: KeyWords,
    moved: &mut u64,
) -> u32
    ensures { Tells result moved.old moved.new (OnHandle (InStore (λ K A class. IsMovingTo
        class.rules class.key_of row key)) store.old.inside.state store.new.inside.state) }
{
    match store.take(alloc) {
        None => tell(no_handle(), moved),
        Some(mut held) => {
            let answer = any_store::move_row(&mut held, row, key);
            store.put(held);
            tell(answer, moved)
        }
    }
}

/// Deletes rows one after the other, until one is refused, and gives how many were deleted.
#[unsafe(no_mangle)]
pub extern "C" fn gist_delete(
    alloc: Global,
    store: &mut Handle,
    rows: &[u64],
    deleted: &mut u64,
) -> u32
    ensures { Tells result deleted.old deleted.new (OnHandle (InStore (λ K A class. IsDeleting
        class.rules rows.now)) store.old.inside.state store.new.inside.state) }
{
    match store.take(alloc) {
        None => tell(no_handle(), deleted),
        Some(mut held) => {
            let answer = any_store::delete(&mut held, rows);
            store.put(held);
            tell(answer, deleted)
        }
    }
}

/// Removes the dead rows that no scan needs, and gives how many there were.
#[unsafe(no_mangle)]
pub extern "C" fn gist_sweep(alloc: Global, store: &mut Handle, removed: &mut u64) -> u32
    ensures { Tells result removed.old removed.new
        (OnHandle (InStore (λ K A class. Passing (IsSweep class.rules)))
        store.old.inside.state store.new.inside.state) }
{
    match store.take(alloc) {
        None => tell(no_handle(), removed),
        Some(mut held) => {
            let answer = any_store::sweep(&mut held);
            store.put(held);
            tell(answer, removed)
        }
    }
}

/// Gives the figures of a store: its progress, and what it still has room for.
#[unsafe(no_mangle)]
pub unsafe extern "C" fn gist_stats(store: *const Handle, figures: &mut Figures) -> u32
    ghost loan: { Loan }
    requires* { sem 𝓛 (is_lent store loan) }
    ensures* back { sem 𝓛 (lasts loan) }
    ensures told { Tells result figures.old figures.new (FromHandle AnswersStats (state_of loan)) }
{
    tell_stats(&*(store as *const Lent), figures)
}

fn tell_stats(store: &Lent, figures: &mut Figures) -> u32
    ensures told { Tells result figures.old figures.new (FromHandle AnswersStats
        store.now.inside.state) }
{
    match store.held() {
        None => tell(no_handle(), figures),
        Some(held) => tell(any_store::stats(held), figures),
    }
}

/// Tells where the open cursor at a place stands, or that fewer are open.
#[unsafe(no_mangle)]
pub unsafe extern "C" fn gist_standing_of(
    store: *const Handle,
    place: u64,
    standing: &mut ShownStanding,
) -> u32
    ghost loan: { Loan }
    requires* { sem 𝓛 (is_lent store loan) }
    ensures* back { sem 𝓛 (lasts loan) }
    ensures told { Tells result standing.old standing.new (FromHandle (AnswersStanding place)
        (state_of loan)) }
{
    tell_standing(&*(store as *const Lent), place, standing)
}

fn tell_standing(store: &Lent, place: u64, standing: &mut ShownStanding) -> u32
    ensures told { Tells result standing.old standing.new (FromHandle (AnswersStanding place)
        store.now.inside.state) }
{
    match store.held() {
        None => tell(no_handle(), standing),
        Some(held) => tell(any_store::standing(held, place), standing),
    }
}

/// Opens a cursor on a query, at the present commits.
#[unsafe(no_mangle)]
pub unsafe extern "C" fn gist_open(
    store: &mut Handle,
    query: *const Handle,
    cursor: &mut u64,
) -> u32
    ghost loan: { Loan }
    requires* { sem 𝓛 (is_lent query loan) }
    ensures* back { sem 𝓛 (lasts loan) }
    ensures opened { Tells result cursor.old cursor.new (OnHandles AnswersOpening (state_of loan)
        store.old.inside.state store.new.inside.state) }
{
    open_on(store, &*(query as *const Lent), cursor)
}

fn open_on(store: &mut Handle, query: &Lent, cursor: &mut u64) -> u32
    ensures opened { Tells result cursor.old cursor.new (OnHandles AnswersOpening
        query.now.inside.state store.old.inside.state store.new.inside.state) }
{
    match query.held() {
        None => tell(no_handle(), cursor),
        Some(asked) => match store.take(query.alloc()) {
            None => tell(no_handle(), cursor),
            Some(mut held) => {
                let answer = any_store::open(query.alloc(), asked, &mut held);
                store.put(held);
                tell(answer, cursor)
            }
        },
    }
}

/// Opens a cursor on a query that follows a commit: it gives the changes after it.
#[unsafe(no_mangle)]
pub unsafe extern "C" fn gist_follow(
    store: &mut Handle,
    query: *const Handle,
    commit: u64,
    cursor: &mut u64,
) -> u32
    ghost loan: { Loan }
    requires* { sem 𝓛 (is_lent query loan) }
    ensures* back { sem 𝓛 (lasts loan) }
    ensures opened { Tells result cursor.old cursor.new (OnHandles (AnswersFollowing commit)
        (state_of loan) store.old.inside.state store.new.inside.state) }
{
    follow_on(store, &*(query as *const Lent), commit, cursor)
}

fn follow_on(store: &mut Handle, query: &Lent, commit: u64, cursor: &mut u64) -> u32
    ensures opened { Tells result cursor.old cursor.new (OnHandles (AnswersFollowing commit)
        query.now.inside.state store.old.inside.state store.new.inside.state) }
{
    match query.held() {
        None => tell(no_handle(), cursor),
        Some(asked) => match store.take(query.alloc()) {
            None => tell(no_handle(), cursor),
            Some(mut held) => {
                let answer = any_store::follow(query.alloc(), asked, &mut held, commit);
                store.put(held);
                tell(answer, cursor)
            }
        },
    }
}

/// Gives a cursor's next items, until the buffer is full, nothing is left or the next is refused, and how many they
/// are.
#[unsafe(no_mangle)]
pub extern "C" fn gist_next(
    alloc: Global,
    store: &mut Handle,
    cursor: u64,
    items: &mut [ShownItem],
    given: &mut u64,
) -> u32
    ensures given { Tells result given.old given.new (OnHandle (InStore (λ K A class. Passing
        (IsTaking class.rules class.words_of cursor items.old items.new))) store.old.inside.state
        store.new.inside.state) }
    ensures unfilled { result ≢ 0 → items.new ≡ items.old }
{
    match store.take(alloc) {
        None => tell(no_handle(), given),
        Some(mut held) => {
            let answer = any_store::next(&mut held, cursor, items);
            store.put(held);
            tell(answer, given)
        }
    }
}

/// Asks a cursor for a mark.
#[unsafe(no_mangle)]
pub extern "C" fn gist_mark(alloc: Global, store: &mut Handle, cursor: u64) -> u32
    ensures { TellsCode result (OnHandle
        (InStore (λ K A class. Passing (IsAsking cursor)))
        store.old.inside.state store.new.inside.state) }
{
    match store.take(alloc) {
        None => code(no_handle()),
        Some(mut held) => {
            let answer = any_store::mark(&mut held, cursor);
            store.put(held);
            code(answer)
        }
    }
}

/// Closes a cursor.
#[unsafe(no_mangle)]
pub extern "C" fn gist_close(alloc: Global, store: &mut Handle, cursor: u64) -> u32
    ensures { TellsCode result (OnHandle
        (InStore (λ K A class. Passing (IsClosing cursor)))
        store.old.inside.state store.new.inside.state) }
{
    match store.take(alloc) {
        None => code(no_handle()),
        Some(mut held) => {
            let answer = any_store::close(&mut held, cursor);
            store.put(held);
            code(answer)
        }
    }
}
