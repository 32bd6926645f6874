ghost use Rattle.std.specs.Prelude.{◌≡◌, ◌≤◌, ◌↔◌, [], ◌∷◌, length, IsTrue, IfOk, IfErr, Contains, IsPermutation};
ghost use Rattle.std.specs.Bool.{OnTrue};
ghost use Rattle.key_class.specs.declared.refusal.Refusal.TheVariants as Refusal;
ghost use Rattle.change_list.specs.Changes.{IsLegal};
ghost use Rattle.change_list.specs.Roomy.{NamesEarlier};
ghost use Rattle.delivery_check.specs.Remaining.{rows_in, slots_for, IsInSlot, TakesRows};
ghost use Rattle.change_list.specs.Asked.{snapshot_for};

use crate::sameness::is_same_row;
use change_list::{Item, Row, View, Write};
use key_class::{Columned, KeyClass, Pred, Refusal};
use std::alloc::Global;
use std::marker::Model;

/// The rows of a snapshot that haven't been given yet.
#[derive(Drop)]
pub(crate) struct Remaining<K> {
    /// At place n - 1 row n, if it remains.
    slots: Vec<Option<Row<K>>>,
}

impl<K> Model for Remaining<K> {
    ghost use Rattle.std.specs.Prelude.{List};
    ghost use Rattle.change_list.specs.declared.item.Row.{Row};
    ghost use Rattle.delivery_check.specs.Remaining.{rows_in, IsPlaced};

    ghost Value = { List (Row K) };

    ghost view = { λ remaining. rows_in remaining.slots.items };

    ghost invariant = { λ remaining. IsPlaced remaining.slots.items };
}

impl<K: Columned> Remaining<K> {
    /// Takes a row, if it remains.
    #[tactic(auto, using(crate::proofs::Slots::taken, crate::proofs::Slots::stands_placed, crate::proofs::Slots::placed_set))]
    pub(crate) fn take<C: KeyClass<Key = K>>(&mut self, row: Row<K>) -> bool
        ensures told { IsTrue result ↔ Contains self.old row }
        ensures taken { OnTrue result (IsPermutation self.old (row ∷ self.new)) }
    {
        if !has_row::<C>(self.slots.as_slice(), row) {
            return false;
        }
        self.slots[(row.row - 1) as usize] = None;
        true
    }

    /// Whether no row remains.
    pub(crate) fn is_empty(&self) -> bool
        ensures { IsTrue result ↔ (self.now ≡ []) }
    {
        are_empty(self.slots.as_slice())
    }
}

/// Whether a row is in the slot of its number.
fn has_row<C: KeyClass>(slots: &[Option<Row<C::Key>>], row: Row<C::Key>) -> bool
    ensures { IsTrue result ↔ IsInSlot slots.now row }
{
    if row.row == 0 {
        return false;
    }
    let Some(slot) = slots.get((row.row - 1) as usize) else {
        return false;
    };
    match slot {
        Some(found) => is_same_row::<C>(*found, row),
        None => false,
    }
}

/// Whether all slots are empty.
fn are_empty<K: Copy>(slots: &[Option<Row<K>>]) -> bool
    ensures { IsTrue result ↔ (rows_in slots.now ≡ []) }
{
    for slot in slots {
        if slot.is_some() {
            return false;
        }
    }
    true
}

/// The rows of a query's snapshot after so many commits.
///
/// # Errors
/// `OutOfMemory`.
pub(crate) fn snapshot<C: KeyClass>(
    alloc: Global,
    commits: &View<C::Key>,
    query: &Pred<C::Atom>,
    opened: u64,
) -> Result<Remaining<C::Key>, Refusal>
    requires opened { opened ≤ length commits.now }
    requires legal { IsLegal commits.now }
    ensures rows { IfOk result (λ v. v ≡ snapshot_for C.rules query.now opened commits.now) }
    ensures refusals { IfErr result (λ why. why ≡ Refusal.OutOfMemory) }
{
    let mut slots = Vec::new(alloc);
    for place in 0..opened {
        let number = place + 1;
        match commits.get(number) {
            Some(write) => slots = with_slot::<C>(slots, query, write, commits.row(number))?,
            None => unreachable!(),
        }
    }
    Ok(Remaining { slots })
}

/// The slots with one more for a further commit, given the row that it makes. The slot of a row that it ends is
/// emptied.
///
/// # Errors
/// `OutOfMemory`.
fn with_slot<C: KeyClass>(
    slots: Vec<Option<Row<C::Key>>>,
    query: &Pred<C::Atom>,
    write: Write<C::Key>,
    made: Option<Row<C::Key>>,
) -> Result<Vec<Option<Row<C::Key>>>, Refusal>
    requires { NamesEarlier (length slots.items) write }
    ensures ok { IfOk result (λ v. v.items
        ≡ slots_for C.rules query.now slots.items write made) }
    ensures refusals { IfErr result (λ why. why ≡ Refusal.OutOfMemory) }
{
    let mut slots = slots;
    if let Write::Delete(row) | Write::Move(row, _) = write {
        slots[(row - 1) as usize] = None;
    }
    slots.push(made.filter(|row| query.matches::<C>(row.key)))?;
    Ok(slots)
}

/// Takes the rows with which the items begin. Gives how many there are, or `None` if one of them doesn't remain.
pub(crate) fn take_rows<C: KeyClass>(
    remaining: &mut Remaining<C::Key>,
    items: &[Item<C::Key>],
) -> Option<usize>
    ensures { TakesRows remaining.old items.now result remaining.new }
{
    for (place, item) in items.iter().enumerate() {
        let Item::Row(row) = item else {
            return Some(place);
        };
        if !remaining.take::<C>(*row) {
            return None;
        }
    }
    Some(items.len())
}
