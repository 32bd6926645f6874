//! The calls of a snapshot of any class.
ghost use Rattle.std.specs.Prelude.{◌≡◌, ◌↔◌, IsTrue, map};
ghost use Rattle.change_list.specs.declared.write.Status.TheVariants.{Live};
ghost use Rattle.search.specs.Fills.{written_over};
ghost use Rattle.libgist.specs.Reading.{IsFind, IsFindAny, IsCount, IsChanges, IsRowOf};
ghost use Rattle.libgist.specs.Shown.{shown_commit, shown_item};

use crate::buffers::write_as;
use crate::crossing::Crossing;
use crate::shown::{self, AsShown};
use crate::words::{ShownItem, ShownRow};
use change_list::{Item, Row, Status};
use key_class::{KeyClass, Pred, Refusal};
use search::{BoundedQuery, Slots};
use snapshot::Snapshot;
use std::alloc::Global;
use std::marker::PhantomData;

/// Writes the live rows that match into a buffer, as many as fit, and gives how many there are in all.
pub fn find<C: Crossing>(
    snapshot: &Snapshot<C>,
    query: &Pred<C::Atom>,
    rows: &mut [ShownRow],
) -> Result<u64, Refusal>
    ensures { IsFind C.rules C.words_of query.now snapshot.now rows.old rows.new result }
{
    let found = snapshot.find(query)?;
    write_as::<Row<C::Key>, ShownRow, AsShown<C>>(rows, &found);
    Ok(found.len() as u64)
}

/// Writes the live rows that match into a buffer, in any order, as many as fit, and gives how many there are in all. It
/// needs no memory.
pub fn find_any<C: Crossing>(
    snapshot: &Snapshot<C>,
    query: &Pred<C::Atom>,
    rows: &mut [ShownRow],
) -> Result<u64, Refusal>
    ensures { IsFindAny C.rules C.words_of query.now snapshot.now rows.old rows.new result }
{
    let query = BoundedQuery::new(query)?;
    let mut slots = Slots::<ShownRow, AsShown<C>> {
        places: rows,
        filled: 0,
        found: 0,
        form: PhantomData,
    };
    let _never_stops = snapshot.search(&query, &mut slots);
    Ok(slots.total())
}

/// How many live rows match.
pub fn count<C: KeyClass>(snapshot: &Snapshot<C>, query: &Pred<C::Atom>) -> Result<u64, Refusal>
    ensures { IsCount C.rules query.now snapshot.now result }
{
    snapshot.count(query)
}

/// An item of a snapshot, in the layout that C reads.
pub fn item<C: Crossing>(snapshot: &Snapshot<C>, item: Item<C::Key>) -> ShownItem
    ensures { result ≡ shown_item C.words_of snapshot.now item }
{
    let ended = shown::ended_in::<C>(&item);
    shown::item::<C>(item, snapshot.row(ended))
}

/// Writes as many items as fit into a buffer, in the layout that C reads.
fn write_items<C: Crossing>(
    snapshot: &Snapshot<C>,
    buffer: &mut [ShownItem],
    items: &[Item<C::Key>],
)
    ensures { buffer.new ≡ written_over (map (shown_item C.words_of snapshot.now) items.now)
        buffer.old }
{
    let fitting = items.len().min(buffer.len());
    for place in 0..fitting {
        buffer[place] = item(snapshot, items[place]);
    }
}

/// Writes the matching items of the commits after `from` into a buffer, until it is full. Gives how many were
/// written, and up to which commit they are complete.
pub fn changes<C: Crossing>(
    alloc: Global,
    snapshot: &Snapshot<C>,
    query: &Pred<C::Atom>,
    from: u64,
    items: &mut [ShownItem],
) -> Result<(u64, u64), Refusal>
    ensures { IsChanges C.rules C.words_of query.now snapshot.now from items.old items.new result }
{
    let mut given = Vec::new(alloc);
    let upto = snapshot.changes(query, from, &mut given, items.len())?;
    write_items(snapshot, items, &given);
    Ok((given.len() as u64, upto))
}

/// Whether it is the status of a live row.
fn is_live(status: Status) -> bool
    ensures { IsTrue result ↔ (status ≡ Live) }
{
    match status {
        Status::Live => true,
        Status::Dead | Status::NeverIssued => false,
    }
}

/// The row with a number, and whether it lives.
pub fn row_of<C: Crossing>(snapshot: &Snapshot<C>, number: u64) -> Result<(ShownRow, bool), Refusal>
    ensures { IsRowOf C.words_of snapshot.now number result }
{
    let Some(row) = snapshot.row(number) else {
        return Err(Refusal::NoSuchRow);
    };
    let lives = is_live(snapshot.status(number)?);
    Ok((shown::row::<C>(row), lives))
}

/// The commit with a number, in the layout that C reads; kind 0 if there is none.
pub fn commit<C: Crossing>(snapshot: &Snapshot<C>, number: u64) -> ShownItem
    ensures { result ≡ shown_commit C.words_of snapshot.now number }
{
    let write = snapshot.commit(number);
    let ended = shown::ended_by::<C>(write);
    shown::commit::<C>(number, snapshot.row(number), snapshot.row(ended), write)
}
