//! The calls of a map's snapshot, generic over the class. What each promises is one definition in specs/MapReading.
ghost use Rattle.std.specs.Prelude.{◌≡◌};
ghost use Rattle.libgist.specs.MapReading.{IsMapChanges, IsMapCount, IsMapEntries, IsMapFind, IsMapFindAny};
ghost use Rattle.libgist.specs.MapShown.{map_figures};

use crate::buffers::write_as;
use crate::crossing::Crossing;
use crate::figures::MapFigures;
use crate::map_shown::{AsShownEntry, AsShownMapItem};
use crate::words::{ShownEntry, ShownMapItem};
use key_class::{KeyClass, Pred, Refusal};
use map::{MapEntry, MapItem, MapSnapshot};
use std::alloc::Global;

/// Where the map was.
pub fn figures<C: KeyClass>(snapshot: &MapSnapshot<C>) -> MapFigures
    ensures { result ≡ map_figures snapshot.now.identity snapshot.now.map }
{
    MapFigures {
        revision: snapshot.revision(),
        oldest: snapshot.oldest(),
        len: snapshot.len(),
        identity: snapshot.identity(),
    }
}

/// Writes the entries that match into a buffer, in the order of their last put, as many as fit, and gives how many
/// there are in all.
pub fn find<C: Crossing>(
    snapshot: &MapSnapshot<C>,
    query: &Pred<C::Atom>,
    entries: &mut [ShownEntry],
) -> Result<u64, Refusal>
    ensures { IsMapFind C.rules C.words_of query.now snapshot.now.map entries.old entries.new
        result }
{
    let found = snapshot.find(query)?;
    write_as::<MapEntry<C::Key>, ShownEntry, AsShownEntry<C>>(entries, &found);
    Ok(found.len() as u64)
}

/// The same in any order. It needs no memory.
pub fn find_any<C: Crossing>(
    snapshot: &MapSnapshot<C>,
    query: &Pred<C::Atom>,
    entries: &mut [ShownEntry],
) -> Result<u64, Refusal>
    ensures { IsMapFindAny C.rules C.words_of query.now snapshot.now.map entries.old entries.new
        result }
{
    snapshot.find_as::<ShownEntry, AsShownEntry<C>>(query, entries)
}

/// How many entries match.
pub fn count<C: KeyClass>(snapshot: &MapSnapshot<C>, query: &Pred<C::Atom>) -> Result<u64, Refusal>
    ensures { IsMapCount C.rules query.now snapshot.now.map result }
{
    snapshot.count(query)
}

/// Writes all entries into a buffer, in the order of their last put, as many as fit, and gives how many there are.
pub fn entries<C: Crossing>(
    snapshot: &MapSnapshot<C>,
    buffer: &mut [ShownEntry],
) -> Result<u64, Refusal>
    ensures { IsMapEntries C.words_of snapshot.now.map buffer.old buffer.new result }
{
    let all = snapshot.entries()?;
    write_as::<MapEntry<C::Key>, ShownEntry, AsShownEntry<C>>(buffer, &all);
    Ok(all.len() as u64)
}

/// Writes the items of the revisions after `from` into a buffer, until it is full. Gives how many were written, and up
/// to which revision they are complete.
pub fn changes<C: Crossing>(
    alloc: Global,
    snapshot: &MapSnapshot<C>,
    query: &Pred<C::Atom>,
    from: u64,
    items: &mut [ShownMapItem],
) -> Result<(u64, u64), Refusal>
    ensures { IsMapChanges C.rules C.words_of query.now snapshot.now.map from items.old items.new
        result }
{
    let mut given = Vec::new(alloc);
    let upto = snapshot.changes(query, from, &mut given, items.len())?;
    write_as::<MapItem<C::Key>, ShownMapItem, AsShownMapItem<C>>(items, &given);
    Ok((given.len() as u64, upto))
}
