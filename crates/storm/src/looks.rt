//! Checks that a looker found exactly what it should.
ghost use Rattle.std.specs.Prelude.{◌≡◌, ◌↔◌, ◌≤◌, [], IsTrue, IfOk, IfErr, length, map};
ghost use Rattle.std.specs.List.{list_any};
ghost use Rattle.std.specs.List.Sorted.{IsNonDecreasingBy};
ghost use Rattle.change_list.specs.Listings.{is_mark};
ghost use Rattle.change_list.specs.declared.item.Item.TheVariants as item;
ghost use Rattle.storm.specs.Looking.{TellsChanges, TellsFound, TellsLook, TellsLooks, TellsWholeLooker};

use crate::judge::{Verdict, is_given, is_mark};
use change_list::{Item, Row, View};
use key_class::{KeyClass, Pred, Refusal};
use std::alloc::Global;

/// What a looker found in a snapshot.
#[derive(Drop)]
pub struct Look<K> {
    /// How many commits the snapshot had.
    pub commits: u64,
    /// The rows that it found, in the order found.
    pub rows: Vec<Row<K>>,
    /// The changes since the look before, or since the beginning for the first look.
    pub changes: Vec<Item<K>>,
}

fn has_mark<K: Copy>(items: &[Item<K>]) -> bool
    ensures { result ≡ list_any is_mark items.now }
{
    items.iter().any(|item| is_mark(*item))
}

/// Whether the numbers of the rows never fall.
fn are_rising<K>(rows: &[Row<K>]) -> bool
    ensures { IsTrue result ↔ IsNonDecreasingBy (λ row. row.row) rows.now }
{
    for place in 1..rows.len() {
        if rows[place].row < rows[place - 1].row {
            return false;
        }
    }
    true
}

/// The rows as items of a snapshot.
fn row_items<K: Copy>(alloc: Global, rows: &[Row<K>]) -> Result<Vec<Item<K>>, Refusal>
    ensures items { IfOk result (λ items. items.items ≡ map item.Row rows.now) }
    ensures refusals { IfErr result (λ why. why ≡ Refusal.OutOfMemory) }
{
    let mut items = Vec::new(alloc);
    for row in rows {
        if items.push(Item::Row(*row)).is_err() {
            return Err(Refusal::OutOfMemory);
        }
    }
    Ok(items)
}

/// Whether rows are the matching ones that are live after this many commits, by rising number.
fn are_found<C: KeyClass>(
    alloc: Global,
    commits: &View<C::Key>,
    query: &Pred<C::Atom>,
    number: u64,
    rows: &[Row<C::Key>],
) -> Result<bool, Refusal>
    requires { number ≤ length commits.now }
    ensures told { IfOk result (TellsFound C.rules query.now number commits.now rows.now) }
    ensures refusals { IfErr result (λ why. why ≡ Refusal.OutOfMemory) }
{
    if !are_rising(rows) {
        return Ok(false);
    }
    let items = row_items(alloc, rows)?;
    is_given::<C>(
        alloc,
        commits,
        query,
        false,
        number,
        number,
        items.as_slice(),
    )
}

/// Whether items are the changes after one commit up to another.
pub(crate) fn are_changes<C: KeyClass>(
    alloc: Global,
    commits: &View<C::Key>,
    query: &Pred<C::Atom>,
    from: u64,
    upto: u64,
    items: &[Item<C::Key>],
) -> Result<bool, Refusal>
    ensures told { IfOk result (TellsChanges C.rules query.now from upto commits.now items.now) }
    ensures refusals { IfErr result (λ why. why ≡ Refusal.OutOfMemory) }
{
    if has_mark(items) {
        return Ok(false);
    }
    is_given::<C>(alloc, commits, query, true, from, upto, items)
}

/// Whether what was found in a snapshot is right, after a look at `from` commits.
fn is_true_look<C: KeyClass>(
    alloc: Global,
    commits: &View<C::Key>,
    query: &Pred<C::Atom>,
    from: u64,
    look: &Look<C::Key>,
) -> Result<bool, Refusal>
    ensures told { IfOk result (TellsLook C.rules query.now from commits.now look.now) }
    ensures refusals { IfErr result (λ why. why ≡ Refusal.OutOfMemory) }
{
    let number = look.commits;
    if number > commits.len() as u64 {
        return Ok(false);
    }
    if !are_found::<C>(alloc, commits, query, number, look.rows.as_slice())? {
        return Ok(false);
    }
    are_changes::<C>(alloc, commits, query, from, number, look.changes.as_slice())
}

/// Whether each look is right after the one before, and the last had all commits.
fn are_true_looks<C: KeyClass>(
    alloc: Global,
    commits: &View<C::Key>,
    query: &Pred<C::Atom>,
    looks: &[Look<C::Key>],
) -> Result<bool, Refusal>
    ensures told { IfOk result (TellsLooks C.rules query.now commits.now looks.now) }
    ensures refusals { IfErr result (λ why. why ≡ Refusal.OutOfMemory) }
{
    let mut from = 0;
    for look in looks {
        if !is_true_look::<C>(alloc, commits, query, from, look)? {
            return Ok(false);
        }
        from = look.commits;
    }
    Ok(from == commits.len() as u64)
}

/// How a looker with a query fared, by the commits of the whole storm. It is whole if each search found exactly the
/// matching rows that were live after the snapshot's commits, if between two snapshots it took exactly the changes
/// between them, and if the last snapshot had all commits.
///
/// # Errors
/// `OutOfMemory`.
pub fn looker_judged<C: KeyClass>(
    alloc: Global,
    commits: &View<C::Key>,
    query: &Pred<C::Atom>,
    looks: &[Look<C::Key>],
) -> Result<Verdict, Refusal>
    ensures whole { IfOk result (TellsWholeLooker C.rules query.now commits.now looks.now) }
    ensures no_snapshot { IfOk result (λ v. (v ≡ Verdict.Missing) ↔ (looks.now ≡ [])) }
    ensures refusals { IfErr result (λ why. why ≡ Refusal.OutOfMemory) }
{
    if looks.is_empty() {
        return Ok(Verdict::Missing);
    }
    if are_true_looks::<C>(alloc, commits, query, looks)? {
        Ok(Verdict::Whole)
    } else {
        Ok(Verdict::NotWhole)
    }
}
