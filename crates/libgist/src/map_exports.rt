//! The exported calls of maps.
ghost use Rattle.std.specs.Prelude.{◌≡◌, None};
ghost use Rattle.std.specs.Borrow.{sem};
ghost use Rattle.libgist.specs.Calls.{Passing};
ghost use Rattle.libgist.specs.Classes.{FromHandle, OnHandle};
ghost use Rattle.libgist.specs.Configs.{map_config_of};
ghost use Rattle.libgist.specs.Loans.{Loan, is_lent, lasts, state_of};
ghost use Rattle.libgist.specs.Making.{Makes};
ghost use Rattle.libgist.specs.MapMaking.{IsMapCreation, IsRestoring};
ghost use Rattle.libgist.specs.Maps.{AnswersKey, AnswersMapFigures, InMap, IsPutting, IsRemoving};
ghost use Rattle.libgist.specs.Told.{Tells};

use crate::any_map;
use crate::figures::MapFigures;
use crate::handle::Handle;
use crate::lent::Lent;
use crate::limits::{MapLimits, map_config};
use crate::making::{self, settle};
use crate::telling::{no_handle, tell, tell_both};
use crate::words::{KeyWords, ShownEntry};
use std::alloc::Global;

/// Makes a map of a class without entries, at revision 0, for an empty handle.
#[unsafe(no_mangle)]
pub extern "C" fn gist_map_create(
    alloc: Global,
    map: &mut Handle,
    class: u32,
    config: &MapLimits,
) -> u32
    ensures { Makes (IsMapCreation class (map_config_of config.now))
        map.old.inside.state map.new.inside.state result }
{
    if map.is_open() {
        return 2;
    }
    settle(alloc, making::map(alloc, class, map_config(config)), map)
}

/// Makes a map of a class with these entries, at a revision, for an empty handle.
#[unsafe(no_mangle)]
pub extern "C" fn gist_map_restore(
    alloc: Global,
    map: &mut Handle,
    class: u32,
    config: &MapLimits,
    revision: u64,
    entries: &[ShownEntry],
) -> u32
    ensures { Makes (IsRestoring class (map_config_of config.now) revision entries.now)
        map.old.inside.state map.new.inside.state result }
{
    if map.is_open() {
        return 2;
    }
    let restored = making::restored(alloc, class, map_config(config), revision, entries);
    settle(alloc, restored, map)
}

/// Drops the map of a handle, if it has one, and leaves the handle empty.
#[unsafe(no_mangle)]
pub extern "C" fn gist_map_free(alloc: Global, map: &mut Handle)
    ensures { map.new.inside.state ≡ None }
{
    drop(map.take(alloc));
}

/// Puts a key under an id, and returns the revision.
#[unsafe(no_mangle)]
pub extern "C" fn gist_map_put(
    alloc: Global,
    map: &mut Handle,
    id: u64,
    key: KeyWords,
    revision: &mut u64,
) -> u32
    ensures { Tells result revision.old revision.new (OnHandle (InMap (λ K A class. IsPutting
        class.key_of id key)) map.old.inside.state map.new.inside.state) }
{
    match map.take(alloc) {
        None => tell(no_handle(), revision),
        Some(mut held) => {
            let answer = any_map::put(&mut held, id, key);
            map.put(held);
            tell(answer, revision)
        }
    }
}

/// Removes the key of an id, and returns the revision, or 0 if the id has no key.
#[unsafe(no_mangle)]
pub extern "C" fn gist_map_remove(
    alloc: Global,
    map: &mut Handle,
    id: u64,
    revision: &mut u64,
) -> u32
    ensures { Tells result revision.old revision.new (OnHandle
        (InMap (λ K A class. Passing (IsRemoving id)))
        map.old.inside.state map.new.inside.state) }
{
    match map.take(alloc) {
        None => tell(no_handle(), revision),
        Some(mut held) => {
            let answer = any_map::remove(&mut held, id);
            map.put(held);
            tell(answer, revision)
        }
    }
}

/// Returns the key of an id, and whether it has one.
#[unsafe(no_mangle)]
pub unsafe extern "C" fn gist_map_get(
    map: *const Handle,
    id: u64,
    key: &mut KeyWords,
    has_key: &mut bool,
) -> u32
    ghost loan: { Loan }
    requires* { sem 𝓛 (is_lent map loan) }
    ensures* back { sem 𝓛 (lasts loan) }
    ensures told { Tells result (key.old, has_key.old) (key.new, has_key.new) (FromHandle
        (AnswersKey id) (state_of loan)) }
{
    tell_key(&*(map as *const Lent), id, key, has_key)
}

fn tell_key(map: &Lent, id: u64, key: &mut KeyWords, has_key: &mut bool) -> u32
    ensures told { Tells result (key.old, has_key.old) (key.new, has_key.new) (FromHandle
        (AnswersKey id) map.now.inside.state) }
{
    match map.held() {
        None => tell_both(no_handle(), key, has_key),
        Some(held) => tell_both(any_map::get(held, id), key, has_key),
    }
}

/// Returns where a map is: its revisions, how many entries it has, and its identity.
#[unsafe(no_mangle)]
pub unsafe extern "C" fn gist_map_state_of(map: *const Handle, state: &mut MapFigures) -> u32
    ghost loan: { Loan }
    requires* { sem 𝓛 (is_lent map loan) }
    ensures* back { sem 𝓛 (lasts loan) }
    ensures told { Tells result state.old state.new (FromHandle AnswersMapFigures
        (state_of loan)) }
{
    tell_map(&*(map as *const Lent), state)
}

fn tell_map(map: &Lent, state: &mut MapFigures) -> u32
    ensures told { Tells result state.old state.new (FromHandle AnswersMapFigures
        map.now.inside.state) }
{
    match map.held() {
        None => tell(no_handle(), state),
        Some(held) => tell(any_map::figures(held), state),
    }
}
