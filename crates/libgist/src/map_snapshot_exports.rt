//! The exported calls of snapshots of maps. Next to each export that takes pointers is a function that takes
//! references instead.
ghost use Rattle.std.specs.Prelude.{◌≡◌, ◌≢◌, None};
ghost use Rattle.std.specs.Borrow.{sem};
ghost use Rattle.libgist.specs.Classes.{FromHandle, FromHandles};
ghost use Rattle.libgist.specs.Loans.{Loan, is_lent, lasts, are_lent, both_last, state_of};
ghost use Rattle.libgist.specs.Making.{Makes};
ghost use Rattle.libgist.specs.MapMaking.{IsMapTakenFrom};
ghost use Rattle.libgist.specs.MapReading.{AnswersEntries, AnswersMapChanges, AnswersMapCount, AnswersMapFind, AnswersMapFindAny, AnswersSnapshotFigures};
ghost use Rattle.libgist.specs.Told.{Tells};

use crate::any_map_snapshot;
use crate::figures::MapFigures;
use crate::handle::Handle;
use crate::lent::Lent;
use crate::making::{self, settle};
use crate::telling::{no_handle, tell, tell_both};
use crate::words::{ShownEntry, ShownMapItem};
use std::alloc::Global;

/// Takes a snapshot of a map, for an empty handle.
#[unsafe(no_mangle)]
pub unsafe extern "C" fn gist_map_snapshot_create(map: *const Handle, snapshot: &mut Handle) -> u32
    ghost loan: { Loan }
    requires* { sem 𝓛 (is_lent map loan) }
    ensures* back { sem 𝓛 (lasts loan) }
    ensures taken { Makes (IsMapTakenFrom (state_of loan))
        snapshot.old.inside.state snapshot.new.inside.state result }
{
    take_map(&*(map as *const Lent), snapshot)
}

fn take_map(map: &Lent, snapshot: &mut Handle) -> u32
    ensures taken { Makes (IsMapTakenFrom map.now.inside.state)
        snapshot.old.inside.state snapshot.new.inside.state result }
{
    if snapshot.is_open() {
        return 2;
    }
    match map.held() {
        None => settle(map.alloc(), no_handle(), snapshot),
        Some(held) => settle(map.alloc(), making::map_snapshot(held), snapshot),
    }
}

/// Drops the snapshot of a handle, if it has one, and leaves the handle empty.
#[unsafe(no_mangle)]
pub extern "C" fn gist_map_snapshot_free(alloc: Global, snapshot: &mut Handle)
    ensures { snapshot.new.inside.state ≡ None }
{
    drop(snapshot.take(alloc));
}

/// Returns where the map was.
#[unsafe(no_mangle)]
pub unsafe extern "C" fn gist_map_snapshot_state(
    snapshot: *const Handle,
    state: &mut MapFigures,
) -> u32
    ghost loan: { Loan }
    requires* { sem 𝓛 (is_lent snapshot loan) }
    ensures* back { sem 𝓛 (lasts loan) }
    ensures told { Tells result state.old state.new (FromHandle AnswersSnapshotFigures
        (state_of loan)) }
{
    tell_snapshot(&*(snapshot as *const Lent), state)
}

fn tell_snapshot(snapshot: &Lent, state: &mut MapFigures) -> u32
    ensures told { Tells result state.old state.new (FromHandle AnswersSnapshotFigures
        snapshot.now.inside.state) }
{
    tell(any_map_snapshot::figures(snapshot), state)
}

/// Writes the entries that match into a buffer, in the order of their last put, as many as fit, and returns how many
/// there are in all.
#[unsafe(no_mangle)]
pub unsafe extern "C" fn gist_map_snapshot_find(
    snapshot: *const Handle,
    query: *const Handle,
    entries: &mut [ShownEntry],
    found: &mut u64,
) -> u32
    ghost loans: { Loan × Loan }
    requires* { sem 𝓛 (are_lent snapshot query loans) }
    ensures* back { sem 𝓛 (both_last loans) }
    ensures found { Tells result found.old found.new (FromHandles (AnswersMapFind entries.old
        entries.new) (state_of loans.1) (state_of loans.0)) }
    ensures unfilled { result ≢ 0 → entries.new ≡ entries.old }
{
    find_entries(
        &*(snapshot as *const Lent),
        &*(query as *const Lent),
        entries,
        found,
    )
}

fn find_entries(snapshot: &Lent, query: &Lent, entries: &mut [ShownEntry], found: &mut u64) -> u32
    ensures found { Tells result found.old found.new (FromHandles (AnswersMapFind entries.old
        entries.new) query.now.inside.state snapshot.now.inside.state) }
    ensures unfilled { result ≢ 0 → entries.new ≡ entries.old }
{
    tell(any_map_snapshot::find(query, snapshot, entries), found)
}

/// Writes the entries that match into a buffer, in any order, as many as fit, and returns how many there are in all.
#[unsafe(no_mangle)]
pub unsafe extern "C" fn gist_map_snapshot_find_any(
    snapshot: *const Handle,
    query: *const Handle,
    entries: &mut [ShownEntry],
    found: &mut u64,
) -> u32
    ghost loans: { Loan × Loan }
    requires* { sem 𝓛 (are_lent snapshot query loans) }
    ensures* back { sem 𝓛 (both_last loans) }
    ensures found { Tells result found.old found.new (FromHandles (AnswersMapFindAny entries.old
        entries.new) (state_of loans.1) (state_of loans.0)) }
    ensures unfilled { result ≢ 0 → entries.new ≡ entries.old }
{
    find_any_entries(
        &*(snapshot as *const Lent),
        &*(query as *const Lent),
        entries,
        found,
    )
}

fn find_any_entries(
    snapshot: &Lent,
    query: &Lent,
    entries: &mut [ShownEntry],
    found: &mut u64,
) -> u32
    ensures found { Tells result found.old found.new (FromHandles (AnswersMapFindAny entries.old
        entries.new) query.now.inside.state snapshot.now.inside.state) }
    ensures unfilled { result ≢ 0 → entries.new ≡ entries.old }
{
    tell(any_map_snapshot::find_any(query, snapshot, entries), found)
}

/// Returns how many entries match.
#[unsafe(no_mangle)]
pub unsafe extern "C" fn gist_map_snapshot_count(
    snapshot: *const Handle,
    query: *const Handle,
    count: &mut u64,
) -> u32
    ghost loans: { Loan × Loan }
    requires* { sem 𝓛 (are_lent snapshot query loans) }
    ensures* back { sem 𝓛 (both_last loans) }
    ensures counted { Tells result count.old count.new (FromHandles AnswersMapCount
        (state_of loans.1) (state_of loans.0)) }
{
    count_entries(&*(snapshot as *const Lent), &*(query as *const Lent), count)
}

fn count_entries(snapshot: &Lent, query: &Lent, count: &mut u64) -> u32
    ensures counted { Tells result count.old count.new (FromHandles AnswersMapCount
        query.now.inside.state snapshot.now.inside.state) }
{
    tell(any_map_snapshot::count(query, snapshot), count)
}

/// Writes all entries into a buffer, in the order of their last put, as many as fit, and returns how many there are.
#[unsafe(no_mangle)]
pub unsafe extern "C" fn gist_map_snapshot_entries(
    snapshot: *const Handle,
    entries: &mut [ShownEntry],
    count: &mut u64,
) -> u32
    ghost loan: { Loan }
    requires* { sem 𝓛 (is_lent snapshot loan) }
    ensures* back { sem 𝓛 (lasts loan) }
    ensures told { Tells result count.old count.new (FromHandle (AnswersEntries entries.old
        entries.new) (state_of loan)) }
    ensures unfilled { result ≢ 0 → entries.new ≡ entries.old }
{
    tell_entries(&*(snapshot as *const Lent), entries, count)
}

fn tell_entries(snapshot: &Lent, entries: &mut [ShownEntry], count: &mut u64) -> u32
    ensures told { Tells result count.old count.new (FromHandle (AnswersEntries entries.old
        entries.new) snapshot.now.inside.state) }
    ensures unfilled { result ≢ 0 → entries.new ≡ entries.old }
{
    tell(any_map_snapshot::entries(snapshot, entries), count)
}

/// Writes the items of the revisions after `from` into a buffer, until it is full. Returns how many were written, and up
/// to which revision they are complete.
#[unsafe(no_mangle)]
pub unsafe extern "C" fn gist_map_snapshot_changes(
    snapshot: *const Handle,
    query: *const Handle,
    from: u64,
    items: &mut [ShownMapItem],
    given: &mut u64,
    upto: &mut u64,
) -> u32
    ghost loans: { Loan × Loan }
    requires* { sem 𝓛 (are_lent snapshot query loans) }
    ensures* back { sem 𝓛 (both_last loans) }
    ensures given { Tells result (given.old, upto.old) (given.new, upto.new) (FromHandles
        (AnswersMapChanges from items.old items.new) (state_of loans.1) (state_of loans.0)) }
    ensures unfilled { result ≢ 0 → items.new ≡ items.old }
{
    give_items(
        &*(snapshot as *const Lent),
        &*(query as *const Lent),
        from,
        items,
        given,
        upto,
    )
}

fn give_items(
    snapshot: &Lent,
    query: &Lent,
    from: u64,
    items: &mut [ShownMapItem],
    given: &mut u64,
    upto: &mut u64,
) -> u32
    ensures given { Tells result (given.old, upto.old) (given.new, upto.new) (FromHandles
        (AnswersMapChanges from items.old items.new) query.now.inside.state
        snapshot.now.inside.state) }
    ensures unfilled { result ≢ 0 → items.new ≡ items.old }
{
    tell_both(
        any_map_snapshot::changes(query.alloc(), query, snapshot, from, items),
        given,
        upto,
    )
}
