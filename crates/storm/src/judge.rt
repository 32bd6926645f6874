//! Checks that a reader got exactly what it should.
ghost use Rattle.std.specs.Prelude.{◌≡◌, ◌↔◌, IsTrue, IfOk, IfErr};
ghost use Rattle.std.specs.List.{list_all};
ghost use Rattle.change_list.specs.Listings.{is_mark, without_marks};
ghost use Rattle.storm.specs.Judging.{Begins, HasNoReceipt, TellsGiven, TellsListing, TellsWhole, is_whole};

use change_list::{Item, View, Write};
use delivery_check::is_delivered;
use desk::Ended;
use key_class::{KeyClass, Pred, Refusal};
use std::alloc::Global;

/// How a reader, a looker or a subscriber fared.
#[derive(Clone, Copy, Debug, PartialEq, Eq)]
pub enum Verdict {
    /// A reader took a listing of all commits, and a mark of them. A looker found what there was, up to all commits. A
    /// subscriber received all changes, and then the end of its stream, after all commits.
    Whole,
    /// It took, found or received something else.
    NotWhole,
    /// A reader's cursor was closed without a receipt. A looker got no snapshot. A subscriber's stream has no end.
    Missing,
}

/// Whether every verdict is `Whole`.
pub(crate) fn are_whole(verdicts: &[Verdict]) -> bool
    ensures { result ≡ list_all is_whole verdicts.now }
{
    verdicts
        .iter()
        .all(|verdict| matches!(verdict, Verdict::Whole))
}

/// What a reader took, and what closing its cursor gave.
#[derive(Drop)]
pub struct Reading<K> {
    /// The number of commits at its cursor's opening.
    pub opened: u64,
    pub items: Vec<Item<K>>,
    pub ended: Ended<K>,
}

pub(crate) fn is_mark<K: Copy>(item: Item<K>) -> bool
    ensures { result ≡ is_mark item }
{
    matches!(item, Item::Mark(_))
}

/// The items without the marks.
fn without_marks<K: Copy>(alloc: Global, items: &[Item<K>]) -> Result<Vec<Item<K>>, Refusal>
    ensures items { IfOk result (λ left. left.items ≡ without_marks items.now) }
    ensures refusals { IfErr result (λ why. why ≡ Refusal.OutOfMemory) }
{
    let mut left = Vec::new(alloc);
    for item in items {
        if !is_mark(*item) && left.push(*item).is_err() {
            return Err(Refusal::OutOfMemory);
        }
    }
    Ok(left)
}

/// Whether items, marks left out, are all that a cursor gives from one commit up to another: the rows of the snapshot
/// at the first, unless the cursor follows that commit, and then the later changes in commit order.
pub(crate) fn is_given<C: KeyClass>(
    alloc: Global,
    commits: &View<C::Key>,
    query: &Pred<C::Atom>,
    follows: bool,
    from: u64,
    upto: u64,
    items: &[Item<C::Key>],
) -> Result<bool, Refusal>
    ensures given { IfOk result
        (TellsGiven C.rules query.now follows from upto commits.now items.now) }
    ensures refusals { IfErr result (λ why. why ≡ Refusal.OutOfMemory) }
{
    let mut left = without_marks(alloc, items)?;
    if left.push(Item::Mark(upto)).is_err() {
        return Err(Refusal::OutOfMemory);
    }
    is_delivered::<C>(alloc, commits, query, follows, from, left.as_slice())
}

/// Whether items, marks left out, are a listing of all commits for a query since an opening: the rows of its
/// snapshot, each once and in any order, and then the later changes in commit order.
///
/// # Errors
/// `OutOfMemory`.
pub fn is_listing<C: KeyClass>(
    alloc: Global,
    commits: &View<C::Key>,
    query: &Pred<C::Atom>,
    opened: u64,
    items: &[Item<C::Key>],
) -> Result<bool, Refusal>
    ensures listing { IfOk result (TellsListing C.rules query.now opened commits.now items.now) }
    ensures refusals { IfErr result (λ why. why ≡ Refusal.OutOfMemory) }
{
    let count = commits.len() as u64;
    is_given::<C>(alloc, commits, query, false, opened, count, items)
}

fn is_same_commit<C: KeyClass>(a: Option<Write<C::Key>>, b: Option<Write<C::Key>>) -> bool
    ensures { IsTrue result ↔ (a ≡ b) }
{
    match (a, b) {
        (Some(Write::Insert(key, tag)), Some(Write::Insert(other, mark))) => {
            key == other && tag == mark
        }
        (Some(Write::Delete(row)), Some(Write::Delete(other))) => row == other,
        (Some(Write::Move(row, key)), Some(Write::Move(other, same))) => {
            row == other && key == same
        }
        (None, None) => true,
        _ => false,
    }
}

/// Whether the commits begin with those of another list.
pub fn begins<C: KeyClass>(first: &View<C::Key>, commits: &View<C::Key>) -> bool
    ensures { IsTrue result ↔ Begins first.now commits.now }
{
    for place in 0..first.len() as u64 {
        if !is_same_commit::<C>(first.get(place + 1), commits.get(place + 1)) {
            return false;
        }
    }
    true
}

/// How a reader of a query fared, by the commits of the whole storm.
///
/// # Errors
/// `OutOfMemory`.
pub fn judged<C: KeyClass>(
    alloc: Global,
    commits: &View<C::Key>,
    query: &Pred<C::Atom>,
    reading: &Reading<C::Key>,
) -> Result<Verdict, Refusal>
    ensures whole { IfOk result (TellsWhole C.rules query.now commits.now reading.now) }
    ensures no_receipt { IfOk result (λ v. (v ≡ Verdict.Missing)
        ↔ HasNoReceipt reading.now) }
    ensures refusals { IfErr result (λ why. why ≡ Refusal.OutOfMemory) }
{
    let Ended::Receipt(receipt) = &reading.ended else {
        return Ok(Verdict::Missing);
    };
    let Some((Item::Mark(number), before)) = reading.items.as_slice().split_last() else {
        return Ok(Verdict::NotWhole);
    };
    if *number != commits.len() as u64 || !begins::<C>(receipt.list(), commits) {
        return Ok(Verdict::NotWhole);
    }
    if is_listing::<C>(alloc, commits, query, reading.opened, before)? {
        Ok(Verdict::Whole)
    } else {
        Ok(Verdict::NotWhole)
    }
}
