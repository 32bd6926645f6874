//! The calls of a map, generic over the class. What each promises is one definition in specs/Maps.
ghost use Rattle.std.specs.Prelude.{◌≡◌, ◌↔◌, ◌⊎◌, Err, IfOk, IfErr};
ghost use Rattle.key_class.specs.declared.refusal.Refusal.TheVariants.{OutOfMemory};
ghost use Rattle.revisions.specs.Maps.{entries_of, key_at};
ghost use Rattle.map.specs.Configs.{IsMapConfig};
ghost use Rattle.map.specs.Kept.{new_map};
ghost use Rattle.libgist.specs.declared.denied.Denied.TheVariants.{By, BadEnds, BadLimits};
ghost use Rattle.libgist.specs.MapMaking.{AreTold, HasBadEnds, IsMapOfWords, RefusesRestoring};
ghost use Rattle.libgist.specs.MapShown.{key_shown, map_figures};
ghost use Rattle.libgist.specs.Maps.{IsPutting, IsRemoving};

use crate::crossing::Crossing;
use crate::denied::{Denied, passed_on};
use crate::figures::MapFigures;
use crate::map_shown;
use crate::words::{KeyWords, ShownEntry};
use key_class::{KeyClass, Refusal};
use map::{Map, MapConfig, MapEntry};
use std::alloc::Global;

/// A map without entries.
pub fn empty<C: KeyClass>(alloc: Global, config: MapConfig) -> Result<Map<C>, Denied>
    ensures ok { IfOk result (λ map. map ≡ new_map config 0) }
    ensures bad { (result ≡ Err BadLimits) ↔ (¬ IsMapConfig config) }
    ensures refusals { IfErr result (λ why. (why ≡ BadLimits) ⊎ (why ≡ By OutOfMemory)) }
{
    match Map::new(alloc, config) {
        Ok(map) => Ok(map),
        Err(Refusal::BadConfig) => Err(Denied::BadLimits),
        Err(why) => Err(Denied::By(why)),
    }
}

/// The entries that C hands in, if the ends of their keys are in order.
fn entries<C: Crossing>(
    alloc: Global,
    words: &[ShownEntry],
) -> Result<Vec<MapEntry<C::Key>>, Denied>
    ensures ok { IfOk result (λ entries. AreTold C.key_of words.now entries.items) }
    ensures bad_ends { result ≡ Err BadEnds → HasBadEnds C.key_of words.now }
    ensures refusals { IfErr result (λ why. (why ≡ BadEnds) ⊎ (why ≡ By OutOfMemory)) }
{
    let Ok(mut entries) = Vec::with_capacity(alloc, words.len()) else {
        return Err(Denied::By(Refusal::OutOfMemory));
    };
    'reading: for shown in words {
        let Some(key) = C::key(shown.key) else {
            return Err(Denied::BadEnds);
        };
        let Ok(()) = entries.push(MapEntry { id: shown.id, key }) else {
            return Err(Denied::By(Refusal::OutOfMemory));
        };
    }
    Ok(entries)
}

/// A map at a revision, with the entries that C hands in.
///
/// # Errors
/// `BadLimits` if a limit is out of range, else `BadEnds` if the ends of a key are out of order; `BadConfig` if an id
/// comes twice, `CommitsFull` or `PagesFull` if there are too many entries, or `OutOfMemory`.
pub fn restored<C: Crossing>(
    alloc: Global,
    config: MapConfig,
    revision: u64,
    words: &[ShownEntry],
) -> Result<Map<C>, Denied>
    ensures ok { IfOk result (IsMapOfWords C.key_of words.now config revision) }
    ensures bad_limits { (result ≡ Err BadLimits) ↔ (¬ IsMapConfig config) }
    ensures bad_ends { result ≡ Err BadEnds → HasBadEnds C.key_of words.now }
    ensures refusals { IfErr result (RefusesRestoring C.key_of words.now) }
{
    if !config.is_within_limits() {
        return Err(Denied::BadLimits);
    }
    let entries = entries::<C>(alloc, words)?;
    match Map::restore(alloc, config, revision, &entries) {
        Ok(map) => Ok(map),
        Err(why) => Err(Denied::By(why)),
    }
}

/// Puts a key under an id, if the key's ends are in order.
pub fn put<C: Crossing>(map: &mut Map<C>, id: u64, words: KeyWords) -> Result<u64, Denied>
    ensures { IsPutting C.key_of id words map.old result map.new }
{
    match C::key(words) {
        Some(key) => passed_on(map.put(id, key)),
        None => Err(Denied::BadEnds),
    }
}

/// Removes the key of an id, and gives the revision, or 0 if the id has none.
pub fn remove<C: KeyClass>(map: &mut Map<C>, id: u64) -> Result<u64, Refusal>
    ensures { IsRemoving id map.old result map.new }
{
    match map.remove(id)? {
        Some(revision) => Ok(revision),
        None => Ok(0),
    }
}

/// The key of an id, in the layout that C reads, and whether it has one.
pub fn get<C: Crossing>(map: &Map<C>, id: u64) -> (KeyWords, bool)
    ensures { result ≡ key_shown C.words_of (key_at id (entries_of map.now.map)) }
{
    map_shown::key::<C>(map.get(id))
}

/// Where a map is.
pub fn figures<C: KeyClass>(map: &Map<C>) -> MapFigures
    ensures { result ≡ map_figures map.now.config.identity map.now.map }
{
    MapFigures {
        revision: map.revision(),
        oldest: map.oldest(),
        len: map.len(),
        identity: map.identity(),
    }
}
