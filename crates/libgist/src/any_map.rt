//! The calls of a map behind a handle, of any class.
ghost use Rattle.libgist.specs.Calls.{Passing};
ghost use Rattle.libgist.specs.Maps.{AnswersKey, AnswersMapFigures, InMap, IsPutting, IsRemoving};

use crate::by_class::{in_held, of_class};
use crate::denied::{Denied, passed_on};
use crate::figures::MapFigures;
use crate::held::{AnyMap, Held};
use crate::maps;
use crate::words::KeyWords;

/// Puts a key under an id.
pub fn put(held: &mut Held, id: u64, key: KeyWords) -> Result<u64, Denied>
    ensures { InMap (λ K A class. IsPutting class.key_of id key) held.old result held.new }
{
    in_held!(held, Map, AnyMap, map => maps::put(map, id, key))
}

/// Removes the key of an id.
pub fn remove(held: &mut Held, id: u64) -> Result<u64, Denied>
    ensures { InMap (λ K A class. Passing (IsRemoving id)) held.old result held.new }
{
    in_held!(held, Map, AnyMap, map => passed_on(maps::remove(map, id)))
}

/// The key of an id, and whether it has one.
pub fn get(held: &Held, id: u64) -> Result<(KeyWords, bool), Denied>
    ensures { AnswersKey id held.now result }
{
    in_held!(held, Map, AnyMap, map => Ok(maps::get(map, id)))
}

/// Where the map is.
pub fn figures(held: &Held) -> Result<MapFigures, Denied>
    ensures { AnswersMapFigures held.now result }
{
    in_held!(held, Map, AnyMap, map => Ok(maps::figures(map)))
}
