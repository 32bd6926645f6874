//! The calls of a lent snapshot of a map, of any class.
ghost use Rattle.std.specs.Prelude.{◌≡◌, OnErr};
ghost use Rattle.libgist.specs.Classes.{FromHandle, FromHandles};
ghost use Rattle.libgist.specs.MapReading.{AnswersEntries, AnswersMapChanges, AnswersMapCount, AnswersMapFind, AnswersMapFindAny, AnswersSnapshotFigures};

use crate::by_class::{in_lent, in_lent_by, of_class, of_one_class};
use crate::denied::{Denied, passed_on};
use crate::figures::MapFigures;
use crate::held::{AnyMapSnapshot, AnyQuery, Held};
use crate::lent::Lent;
use crate::map_reading;
use crate::words::{ShownEntry, ShownMapItem};
use std::alloc::Global;

/// Where the map was.
pub fn figures(lent: &Lent) -> Result<MapFigures, Denied>
    ensures { FromHandle AnswersSnapshotFigures lent.now.inside.state result }
{
    in_lent!(lent, MapSnapshot, AnyMapSnapshot, snapshot => Ok(map_reading::figures(snapshot)))
}

/// Finds the entries that match, in the order of their last put.
pub fn find(asked: &Lent, lent: &Lent, entries: &mut [ShownEntry]) -> Result<u64, Denied>
    ensures answered { FromHandles (AnswersMapFind entries.old entries.new)
        asked.now.inside.state lent.now.inside.state result }
    ensures unfilled { OnErr result (entries.new ≡ entries.old) }
{
    in_lent_by!(asked, query, lent, MapSnapshot, AnyMapSnapshot, snapshot => {
        passed_on(map_reading::find(snapshot, query, entries))
    })
}

/// Finds the entries that match, in any order.
pub fn find_any(asked: &Lent, lent: &Lent, entries: &mut [ShownEntry]) -> Result<u64, Denied>
    ensures answered { FromHandles (AnswersMapFindAny entries.old entries.new)
        asked.now.inside.state lent.now.inside.state result }
    ensures unfilled { OnErr result (entries.new ≡ entries.old) }
{
    in_lent_by!(asked, query, lent, MapSnapshot, AnyMapSnapshot, snapshot => {
        passed_on(map_reading::find_any(snapshot, query, entries))
    })
}

/// Counts the entries that match.
pub fn count(asked: &Lent, lent: &Lent) -> Result<u64, Denied>
    ensures { FromHandles AnswersMapCount asked.now.inside.state lent.now.inside.state result }
{
    in_lent_by!(asked, query, lent, MapSnapshot, AnyMapSnapshot, snapshot => {
        passed_on(map_reading::count(snapshot, query))
    })
}

/// Gives all entries.
pub fn entries(lent: &Lent, buffer: &mut [ShownEntry]) -> Result<u64, Denied>
    ensures answered { FromHandle (AnswersEntries buffer.old buffer.new)
        lent.now.inside.state result }
    ensures unfilled { OnErr result (buffer.new ≡ buffer.old) }
{
    in_lent!(lent, MapSnapshot, AnyMapSnapshot, snapshot => {
        passed_on(map_reading::entries(snapshot, buffer))
    })
}

/// Gives the matching items of the revisions after `from`.
pub fn changes(
    alloc: Global,
    asked: &Lent,
    lent: &Lent,
    from: u64,
    items: &mut [ShownMapItem],
) -> Result<(u64, u64), Denied>
    ensures answered { FromHandles (AnswersMapChanges from items.old items.new)
        asked.now.inside.state lent.now.inside.state result }
    ensures unfilled { OnErr result (items.new ≡ items.old) }
{
    in_lent_by!(asked, query, lent, MapSnapshot, AnyMapSnapshot, snapshot => {
        passed_on(map_reading::changes(alloc, snapshot, query, from, items))
    })
}
