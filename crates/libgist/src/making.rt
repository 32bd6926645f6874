//! Making what an empty handle is to own.
ghost use Rattle.std.specs.Prelude.{◌≡◌, ◌↔◌, ◌⊎◌, None, Err, IfOk, IfErr, IfSome};
ghost use Rattle.key_class.specs.declared.refusal.Refusal.TheVariants.{OutOfMemory};
ghost use Rattle.change_list.specs.Configs.{IsWithinLimits};
ghost use Rattle.store.specs.States.{new_store};
ghost use Rattle.libgist.specs.declared.denied.Denied.TheVariants.{By, BadLimits};
ghost use Rattle.libgist.specs.Feeding.{IsBeginning};
ghost use Rattle.libgist.specs.MapMaking.{IsMapBeginning, IsMapCreation, IsMapTaken, IsRestoring};
ghost use Rattle.libgist.specs.Making.{Settles, IsCreation, IsTaken, IsPrepared, asked_of};

use crate::crossing::Crossing;
use crate::denied::{Denied, passed_on};
use crate::following::Following;
use crate::handle::Handle;
use crate::held::{
    AnyFeed, AnyMap, AnyMapFeed, AnyMapSnapshot, AnyQuery, AnySnapshot, AnyStore, Held,
};
use crate::map_following::MapFollowing;
use crate::maps;
use crate::relations::atom;
use crate::words::{KeyWords, ShownEntry};
use box_class::Boxes;
use change_list::Config;
use interval_class::Intervals;
use key_class::{KeyClass, Pred, Refusal};
use map::MapConfig;
use query_text::{ClassText, parse};
use set_class::Sets;
use std::alloc::Global;
use store::Store;

/// Gives an empty handle what was made. The result is 0, or the number of the refusal.
pub fn settle(alloc: Global, made: Result<Held, Denied>, handle: &mut Handle) -> u32
    requires { handle.old.inside.state ≡ None }
    ensures { Settles made result handle.new.inside.state }
{
    match made {
        Ok(it) => match boxed(alloc, it) {
            Some(held) => {
                handle.put(held);
                0
            }
            None => 1,
        },
        Err(why) => why.number(),
    }
}

/// What was made in a box, if there is memory for that.
fn boxed(alloc: Global, it: Held) -> Option<Box<Held>>
    ensures { IfSome result (λ held. held.value ≡ it) }
{
    Box::new(alloc, it).ok()
}

/// An empty store of a class.
fn empty<C: KeyClass>(alloc: Global, config: Config) -> Result<Store<C>, Denied>
    ensures ok { IfOk result (λ store. store ≡ new_store config) }
    ensures bad { (result ≡ Err BadLimits) ↔ (¬ IsWithinLimits config) }
    ensures refusals { IfErr result (λ why. (why ≡ BadLimits) ⊎ (why ≡ By OutOfMemory)) }
{
    match Store::new(alloc, config) {
        Ok(store) => Ok(store),
        Err(Refusal::BadConfig) => Err(Denied::BadLimits),
        Err(why) => Err(Denied::By(why)),
    }
}

/// An empty store of the class with a number: 1 for intervals, 2 for boxes, 3 for sets.
///
/// # Errors
/// `BadConfig` if no class has the number, else `BadLimits` if a limit is out of range, or `OutOfMemory`.
pub fn store(alloc: Global, class: u32, config: Config) -> Result<Held, Denied>
    ensures { IsCreation class config result }
{
    match class {
        1 => Ok(Held::Store(AnyStore::Intervals(empty::<Intervals>(alloc, config)?))),
        2 => Ok(Held::Store(AnyStore::Boxes(empty::<Boxes>(alloc, config)?))),
        3 => Ok(Held::Store(AnyStore::Sets(empty::<Sets>(alloc, config)?))),
        _ => Err(Denied::By(Refusal::BadConfig)),
    }
}

/// A snapshot of a store.
///
/// # Errors
/// `NoHandle` if what is held is no store, or `OutOfMemory`.
pub fn snapshot(held: &Held) -> Result<Held, Denied>
    ensures { IsTaken held.now result }
{
    match held {
        Held::Store(any) => {
            let taken = match any {
                AnyStore::Intervals(store) => AnySnapshot::Intervals(store.snapshot()?),
                AnyStore::Boxes(store) => AnySnapshot::Boxes(store.snapshot()?),
                AnyStore::Sets(store) => AnySnapshot::Sets(store.snapshot()?),
            };
            Ok(Held::Snapshot(taken))
        }
        _ => Err(Denied::NoHandle),
    }
}

/// Parses the text of a query, for the class with a number.
///
/// # Errors
/// `BadConfig` if no class has the number, `QueryText` if the text is no query, or `OutOfMemory`.
pub fn query(alloc: Global, class: u32, text: &[u8]) -> Result<Held, Denied>
    ensures { IsPrepared class text.now result }
{
    match class {
        1 => Ok(Held::Query(AnyQuery::Intervals(parse::<Intervals>(alloc, text)?))),
        2 => Ok(Held::Query(AnyQuery::Boxes(parse::<Boxes>(alloc, text)?))),
        3 => Ok(Held::Query(AnyQuery::Sets(parse::<Sets>(alloc, text)?))),
        _ => Err(Denied::By(Refusal::BadConfig)),
    }
}

/// The query for the keys that have a relation to a key; class and relation are given by their numbers.
///
/// # Errors
/// `BadConfig` if no class or no relation has the number, else `BadEnds` if the key's ends are out of order.
pub fn asked(class: u32, relation: u32, key: KeyWords) -> Result<Held, Denied>
    ensures { result ≡ asked_of class relation key }
{
    match class {
        1 => match atom::<Intervals>(relation, key) {
            Ok(wanted) => Ok(Held::Query(AnyQuery::Intervals(Pred::Atom(wanted)))),
            Err(why) => Err(why),
        },
        2 => match atom::<Boxes>(relation, key) {
            Ok(wanted) => Ok(Held::Query(AnyQuery::Boxes(Pred::Atom(wanted)))),
            Err(why) => Err(why),
        },
        3 => match atom::<Sets>(relation, key) {
            Ok(wanted) => Ok(Held::Query(AnyQuery::Sets(Pred::Atom(wanted)))),
            Err(why) => Err(why),
        },
        _ => Err(Denied::By(Refusal::BadConfig)),
    }
}

/// A feed without subscriptions, of the class with a number.
///
/// # Errors
/// `BadConfig` if no class has the number, or `OutOfMemory`.
pub fn feed(alloc: Global, class: u32) -> Result<Held, Denied>
    ensures { IsBeginning class result }
{
    match class {
        1 => Ok(Held::Feed(AnyFeed::Intervals(Following::new(alloc)?))),
        2 => Ok(Held::Feed(AnyFeed::Boxes(Following::new(alloc)?))),
        3 => Ok(Held::Feed(AnyFeed::Sets(Following::new(alloc)?))),
        _ => Err(Denied::By(Refusal::BadConfig)),
    }
}

/// A map without entries, of the class with a number.
///
/// # Errors
/// `BadConfig` if no class has the number, else `BadLimits` if a limit is out of range, or `OutOfMemory`.
pub fn map(alloc: Global, class: u32, config: MapConfig) -> Result<Held, Denied>
    ensures { IsMapCreation class config result }
{
    match class {
        1 => Ok(Held::Map(AnyMap::Intervals(maps::empty::<Intervals>(alloc, config)?))),
        2 => Ok(Held::Map(AnyMap::Boxes(maps::empty::<Boxes>(alloc, config)?))),
        3 => Ok(Held::Map(AnyMap::Sets(maps::empty::<Sets>(alloc, config)?))),
        _ => Err(Denied::By(Refusal::BadConfig)),
    }
}

/// A map at a revision with the entries that C hands in, of the class with a number.
///
/// # Errors
/// `BadConfig` if no class has the number, else as [`maps::restored`].
pub fn restored(
    alloc: Global,
    class: u32,
    config: MapConfig,
    revision: u64,
    words: &[ShownEntry],
) -> Result<Held, Denied>
    ensures { IsRestoring class config revision words.now result }
{
    match class {
        1 => Ok(Held::Map(AnyMap::Intervals(maps::restored::<Intervals>(
            alloc, config, revision, words,
        )?))),
        2 => Ok(Held::Map(AnyMap::Boxes(maps::restored::<Boxes>(alloc, config, revision, words)?))),
        3 => Ok(Held::Map(AnyMap::Sets(maps::restored::<Sets>(alloc, config, revision, words)?))),
        _ => Err(Denied::By(Refusal::BadConfig)),
    }
}

/// A snapshot of a map.
///
/// # Errors
/// `NoHandle` if what is held is no map, or `OutOfMemory`.
pub fn map_snapshot(held: &Held) -> Result<Held, Denied>
    ensures { IsMapTaken held.now result }
{
    match held {
        Held::Map(any) => {
            let taken = match any {
                AnyMap::Intervals(map) => AnyMapSnapshot::Intervals(map.snapshot()?),
                AnyMap::Boxes(map) => AnyMapSnapshot::Boxes(map.snapshot()?),
                AnyMap::Sets(map) => AnyMapSnapshot::Sets(map.snapshot()?),
            };
            Ok(Held::MapSnapshot(taken))
        }
        _ => Err(Denied::NoHandle),
    }
}

/// A feed of the map with an identity, without subscriptions, of the class with a number.
///
/// # Errors
/// `BadConfig` if no class has the number, or `OutOfMemory`.
pub fn map_feed(alloc: Global, class: u32, identity: u64) -> Result<Held, Denied>
    ensures { IsMapBeginning class identity result }
{
    match class {
        1 => Ok(Held::MapFeed(AnyMapFeed::Intervals(MapFollowing::new(alloc, identity)?))),
        2 => Ok(Held::MapFeed(AnyMapFeed::Boxes(MapFollowing::new(alloc, identity)?))),
        3 => Ok(Held::MapFeed(AnyMapFeed::Sets(MapFollowing::new(alloc, identity)?))),
        _ => Err(Denied::By(Refusal::BadConfig)),
    }
}
