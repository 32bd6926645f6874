//! A change of leaves, together with its commit.
ghost use Rattle.std.specs.Prelude.{◌≡◌, ◌+◌, ◌<◌, ◌++◌, ◌∷◌, [], length, IfOk, IfErr, OnOk, OnErr};
ghost use Rattle.change_list.specs.Changes.{MayFollow};
ghost use Rattle.world.specs.Hints.{hint_to, page_of_change};
ghost use Rattle.world.specs.Writing.{ChangesNext, IsOfEarlier, TakesChange, with_change, write_of_change};

use crate::hints::hint_to;
use change_list::{ChangeList, Write};
use key_class::{KeyClass, Refusal};
use row_version::Entry;
use segmented::SegmentedVec;
use split::SearchTree;
use std::alloc::Global;
use std::mem;

/// What a commit changes on leaves.
#[derive(Clone, Copy)]
pub(crate) enum LeafChange<K> {
    /// A leaf gets a row: the leaf, the key, the tag.
    Place(u64, K, u64),
    /// A row of a leaf dies: the leaf, the row.
    Bury(u64, u32),
    /// A row of a leaf dies, and a leaf gets a new one: the leaf, the row, the other leaf, the key, the tag.
    Move(u64, u32, u64, K, u64),
}

impl<K: Copy> LeafChange<K> {
    /// The commit that records this change of leaves.
    pub(crate) fn write(self) -> Write<K>
        ensures { result ≡ write_of_change self }
    {
        match self {
            LeafChange::Place(_, key, tag) => Write::Insert(key, tag),
            LeafChange::Bury(_, row) => Write::Delete(u64::from(row)),
            LeafChange::Move(_, row, _, key, _) => Write::Move(u64::from(row), key),
        }
    }

    /// The page that gets a row; the root if none does.
    fn page(self) -> u64
        ensures { result ≡ page_of_change self }
    {
        match self {
            LeafChange::Place(leaf, _, _) => leaf,
            LeafChange::Bury(_, _) => 0,
            LeafChange::Move(_, _, other, _, _) => other,
        }
    }
}

/// Changes leaves, as the commit with that number will record.
///
/// # Errors
/// Memory ran out; nothing is changed then.
fn change_leaves<C: KeyClass>(
    search: &mut SearchTree<C>,
    number: u32,
    change: LeafChange<C::Key>,
) -> Result<(), Refusal>
    requires takes { TakesChange C.rules.is_cover search.old change }
    requires counted { 0 < number }
    requires earlier { IsOfEarlier number change }
    ensures changed { OnOk result (search.new ≡ with_change search.old number change) }
    ensures unchanged { OnErr result (search.new ≡ search.old) }
    ensures refused { IfErr result (λ why. why ≡ Refusal.OutOfMemory) }
{
    match change {
        LeafChange::Place(leaf, key, tag) => {
            search.add(leaf, Entry::new(key, number, tag))?;
            Ok(())
        }
        LeafChange::Bury(leaf, row) => search.bury(leaf, row, number),
        LeafChange::Move(leaf, row, other, key, tag) => {
            search.relocate(leaf, row, number, other, Entry::new(key, number, tag))
        }
    }
}

/// Changes leaves, and adds the commit that records it: both or neither. Gives the commit's number.
///
/// # Errors
/// Memory ran out; nothing is changed then.
fn change_and_tell<C: KeyClass>(
    alloc: Global,
    search: &mut SearchTree<C>,
    commits: &mut ChangeList<C::Key>,
    change: LeafChange<C::Key>,
) -> Result<u64, Refusal>
    requires follows { MayFollow commits.old (write_of_change change) }
    requires few { length commits.old < 4294967295 }
    requires takes { TakesChange C.rules.is_cover search.old change }
    ensures number { IfOk result (λ n. n ≡ length commits.old + 1) }
    ensures changed { OnOk result (ChangesNext search.old commits.old change search.new) }
    ensures committed { OnOk result (commits.new ≡ commits.old ++ write_of_change change ∷ []) }
    ensures pages_kept { OnErr result (search.new ≡ search.old) }
    ensures commits_kept { OnErr result (commits.new ≡ commits.old) }
    ensures refused { IfErr result (λ why. why ≡ Refusal.OutOfMemory) }
{
    let number = commits.len() as u64 + 1;
    match mem::replace(commits, ChangeList::new(alloc)).reserve(change.write()) {
        Err(list) => {
            *commits = list;
            Err(Refusal::OutOfMemory)
        }
        Ok(roomy) => match change_leaves(search, number as u32, change) {
            Ok(()) => {
                *commits = roomy.push();
                Ok(number)
            }
            Err(refusal) => {
                *commits = roomy.into_list();
                Err(refusal)
            }
        },
    }
}

/// Changes leaves, adds the commit that records it, and notes on which page the commit's row is: all or nothing.
/// Gives the commit's number.
///
/// # Errors
/// Memory ran out; nothing is changed then.
pub(crate) fn commit<C: KeyClass>(
    search: &mut SearchTree<C>,
    commits: &mut ChangeList<C::Key>,
    hints: &mut SegmentedVec<u16>,
    change: LeafChange<C::Key>,
) -> Result<u64, Refusal>
    requires follows { MayFollow commits.old (write_of_change change) }
    requires few { length commits.old < 4294967295 }
    requires takes { TakesChange C.rules.is_cover search.old change }
    ensures number { IfOk result (λ n. n ≡ length commits.old + 1) }
    ensures changed { OnOk result (ChangesNext search.old commits.old change search.new) }
    ensures committed { OnOk result (commits.new ≡ commits.old ++ write_of_change change ∷ []) }
    ensures noted { OnOk result (hints.new.items
        ≡ hints.old.items ++ hint_to (page_of_change change) ∷ []) }
    ensures pages_kept { OnErr result (search.new ≡ search.old) }
    ensures commits_kept { OnErr result (commits.new ≡ commits.old) }
    ensures refused { IfErr result (λ why. why ≡ Refusal.OutOfMemory) }
{
    hints.reserve()?;
    let alloc = hints.allocator();
    let number = change_and_tell(alloc, search, commits, change)?;
    hints.push_reserved(hint_to(change.page()));
    Ok(number)
}
