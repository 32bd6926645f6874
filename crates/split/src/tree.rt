ghost use Rattle.std.specs.Prelude.{◌≡◌, ◌≢◌, ◌+◌, ◌*◌, ◌<◌, ◌≤◌, length, true, IfOk, IfErr, OnOk, OnErr};
ghost use Rattle.key_class.specs.Limits.{most_pages};
ghost use Rattle.page_table.specs.Trees.{page_at};
ghost use Rattle.page_table.specs.Keeping.{KeepsRows, EachEntry, StandsIn, KeepsRowsInOrder, GainsEntry, KeepsRowsAtEveryMemo};
ghost use Rattle.page_table.specs.Soundness.{IsSound};
ghost use Rattle.split.specs.SearchTrees.{PostsSibling, AreNextTwo, divided, with_death, empty_tree, with_entry, without_unneeded, with_growth, extended, with_move};
ghost use Rattle.split.specs.Tests.{first_failing, IsRefusedBy, is_leaf, config_tests, split_tests, post_tests, grow_tests, sweep_tests, CountsSides, RefusesPlace, PlacePasses, NoneFails, RefusesEnlarge, refusal_to_place, refusal_to_enlarge, sides_well, EnlargePasses, WantsMemoryToSweep};
ghost use Rattle.page_table.specs.LeafChanges.{CountsUnneeded};

use crate::steps;
use key_class::limits::{MAX_FAN, MAX_PAGES, MIN_FAN, MIN_LEAST};
use key_class::{KeyClass, Refusal, Side, Sides};
use page_table::PageTable;
use row_version::Entry;
use std::alloc::{AllocError, Global};
use std::marker::Model;

/// A sound tree of pages, with its limits.
#[derive(Drop)]
pub struct SearchTree<C: KeyClass> {
    alloc: Global,
    table: PageTable<C::Key>,
    fan: usize,
    least: usize,
    limit: usize,
}

impl<C: KeyClass> Model for SearchTree<C> {
    ghost use Rattle.split.specs.SearchTrees as model;
    ghost use Rattle.split.specs.SearchTrees.{IsSearchTree};

    ghost Value = { model.SearchTree C.Key };

    ghost view = { λ t. record { tree = t.table; fan = t.fan; least = t.least; limit = t.limit } };

    ghost invariant = { λ t. IsSearchTree C.rules.is_cover t.table t.fan t.least t.limit };
}

impl<C: KeyClass> SearchTree<C> {
    /// The tree of a new world: one empty leaf. A page has at most `fan` entries (4 to 64), each half of a split page
    /// at least `least` (2 to half of the fan), and there are at most `limit` pages (1 to 65,536).
    ///
    /// # Errors
    /// BadConfig if a limit is out of range, else `OutOfMemory`.
    pub fn new(alloc: Global, fan: u64, least: u64, limit: u64) -> Result<SearchTree<C>, Refusal>
        ensures made { IfOk result (λ t. t ≡ empty_tree fan least limit) }
        ensures passed { OnOk result (NoneFails (config_tests fan least limit)) }
        ensures refused { IfErr result (IsRefusedBy (config_tests fan least limit)) }
    {
        if fan < u64::from(MIN_FAN)
            || u64::from(MAX_FAN) < fan
            || least < u64::from(MIN_LEAST)
            || fan / 2 < least
            || limit < 1
            || u64::from(MAX_PAGES) < limit
        {
            return Err(Refusal::BadConfig);
        }
        let table = PageTable::new(alloc, fan as usize)?;
        Ok(SearchTree {
            alloc,
            table,
            fan: fan as usize,
            least: least as usize,
            limit: limit as usize,
        })
    }

    /// The pages.
    pub fn pages(&self) -> &PageTable<C::Key>
        ensures table { result.now ≡ self.now.tree }
        ensures sound { IsSound C.rules.is_cover self.now.fan self.now.tree }
        ensures few { length self.now.tree.pages ≤ most_pages }
    {
        &self.table
    }

    /// Only the pages.
    pub fn into_pages(self) -> PageTable<C::Key>
        ensures { result ≡ self.tree }
    {
        let SearchTree { table, .. } = self;
        table
    }

    /// The most entries of a page.
    pub fn fan(&self) -> usize
        ensures { result ≡ self.now.fan }
    {
        self.fan
    }

    /// The fewest entries of each half of a split page.
    pub fn least(&self) -> usize
        ensures least { result ≡ self.now.least }
        ensures two_least { 2 ≤ self.now.least }
        ensures two_parts { 2 * self.now.least ≤ self.now.fan }
    {
        self.least
    }

    /// How many more pages can be made.
    pub fn pages_left(&self) -> usize
        ensures { result + length self.now.tree.pages ≡ self.now.limit }
    {
        self.limit - self.table.len()
    }

    /// Widens the parent's branch to the child, and the child's cover, by the key.
    ///
    /// # Errors
    /// NotHere if the parent is no inner page or has no branch to the child, Uncovered if its cover doesn't cover the
    /// key, else `OutOfMemory`. Nothing is changed then.
    pub fn enlarge(&mut self, parent: u64, child: u64, key: C::Key) -> Result<(), Refusal>
        ensures passed { OnOk result (EnlargePasses C.rules.is_cover self.old parent child key) }
        ensures enlarged { OnOk result (self.new ≡ extended C.rules self.old parent child key) }
        ensures refused { IfErr result (RefusesEnlarge C.rules.is_cover self.old parent child key) }
        ensures unchanged { OnErr result (self.new ≡ self.old) }

        // Only bounds have changed.
        ensures same_rows { KeepsRowsInOrder self.old.tree self.new.tree }
        ensures kept { KeepsRows self.old.tree self.new.tree }
        ensures entries { EachEntry (StandsIn self.old.tree) self.new.tree }
        ensures sound { IsSound C.rules.is_cover self.new.fan self.new.tree }
    {
        if let Some(refusal) = self.enlarge_refusal(parent, child, key) {
            return Err(refusal);
        }
        steps::enlarge::<C>(&mut self.table, parent as u32, child as u32, key)?;
        Ok(())
    }

    /// Splits a full page by sides: it keeps its left entries, and the next page gets the right ones. The page owes
    /// that one a posting. Gives the number of the new page.
    ///
    /// # Errors
    /// The first of these that applies: NotHere if the page is the root or doesn't exist, Owed, Unhung, TooFew if it
    /// isn't full, BadSides, PagesFull; else `OutOfMemory`. Nothing is changed then.
    pub fn split(&mut self, page: u64, sides: &Sides) -> Result<u32, Refusal>
        ensures passed { OnOk result (NoneFails (split_tests self.old page sides.now)) }
        ensures sibling { IfOk result (λ sibling. sibling ≡ length self.old.tree.pages) }
        ensures split { OnOk result (self.new ≡ divided C.rules self.old page sides.now) }
        ensures refused { IfErr result (IsRefusedBy (split_tests self.old page sides.now)) }
        ensures unchanged { OnErr result (self.new ≡ self.old) }

        // At every memo, not only those up to the counter.
        ensures same_rows { KeepsRowsAtEveryMemo self.old.tree self.new.tree }
        ensures kept { KeepsRows self.old.tree self.new.tree }
        ensures entries { EachEntry (StandsIn self.old.tree) self.new.tree }
        ensures sound { IsSound C.rules.is_cover self.new.fan self.new.tree }
    {
        if let Some(refusal) = self.split_refusal(page, sides) {
            return Err(refusal);
        }
        let sibling = steps::split::<C>(self.alloc, &mut self.table, page as u32, sides)?;
        Ok(sibling)
    }

    /// Posts the right sibling of a child that owes it: the parent gets branches to both, and the child owes nothing
    /// any more and has the number of the posting.
    ///
    /// # Errors
    /// NotHere if the parent is no inner page, has no branch to the child, or the child owes nothing, NodeFull if the
    /// parent is full; else `OutOfMemory`. Nothing is changed then.
    pub fn post(&mut self, parent: u64, child: u64) -> Result<(), Refusal>
        ensures passed { OnOk result (NoneFails (post_tests self.old parent child)) }
        ensures posted { OnOk result (PostsSibling self.old parent child self.new) }
        ensures refused { IfErr result (IsRefusedBy (post_tests self.old parent child)) }
        ensures unchanged { OnErr result (self.new ≡ self.old) }

        ensures kept { KeepsRows self.old.tree self.new.tree }
        ensures entries { EachEntry (StandsIn self.old.tree) self.new.tree }
        ensures sound { IsSound C.rules.is_cover self.new.fan self.new.tree }
    {
        if let Some(refusal) = self.post_refusal(parent, child) {
            return Err(refusal);
        }
        let Some(sibling) = self.table.page(child as u32).right() else {
            unreachable!()
        };
        steps::post(&mut self.table, parent as u32, child as u32, sibling)?;
        Ok(())
    }

    /// Grows a full root by sides: the next two pages get its entries, and the root, one level higher, gets branches
    /// to both. Gives the numbers of the new pages.
    ///
    /// # Errors
    /// The first of these that applies: TooFew if the root isn't full, BadSides, PagesFull if fewer than two pages
    /// are left; else `OutOfMemory`. Nothing is changed then.
    pub fn grow(&mut self, sides: &Sides) -> Result<(u32, u32), Refusal>
        ensures passed { OnOk result (NoneFails (grow_tests self.old sides.now)) }
        ensures pages { IfOk result (AreNextTwo self.old.tree) }
        ensures grown { OnOk result (self.new ≡ with_growth C.rules self.old sides.now) }
        ensures refused { IfErr result (IsRefusedBy (grow_tests self.old sides.now)) }
        ensures unchanged { OnErr result (self.new ≡ self.old) }

        // At every memo, not only those up to the counter.
        ensures same_rows { KeepsRowsAtEveryMemo self.old.tree self.new.tree }
        ensures kept { KeepsRows self.old.tree self.new.tree }
        ensures entries { EachEntry (StandsIn self.old.tree) self.new.tree }
        ensures sound { IsSound C.rules.is_cover self.new.fan self.new.tree }
    {
        if let Some(refusal) = self.grow_refusal(sides) {
            return Err(refusal);
        }
        let pages = steps::grow::<C>(self.alloc, &mut self.table, self.fan, sides)?;
        Ok(pages)
    }

    /// Appends a row to a leaf.
    ///
    /// # Errors
    /// The first of these that applies: NotHere if the page is no leaf, Uncovered if its cover doesn't cover the key,
    /// NodeFull; else `OutOfMemory`. Nothing is changed then.
    pub fn place(&mut self, leaf: u64, entry: Entry<C::Key>) -> Result<(), Refusal>
        ensures passed { OnOk result (PlacePasses C.rules.is_cover self.old leaf entry.key) }
        ensures placed { OnOk result (self.new ≡ with_entry self.old leaf entry) }
        ensures refused { IfErr result (RefusesPlace C.rules.is_cover self.old leaf entry.key) }
        ensures unchanged { OnErr result (self.new ≡ self.old) }

        // Below the root there is this entry once more, and nothing else has changed.
        ensures once { OnOk result (GainsEntry self.old.tree entry self.new.tree) }
        ensures sound { IsSound C.rules.is_cover self.new.fan self.new.tree }
    {
        if let Some(refusal) = self.place_refusal(leaf, entry.key()) {
            return Err(refusal);
        }
        self.table.place(leaf as u32, entry)?;
        Ok(())
    }

    /// Appends a row to a leaf that takes it.
    ///
    /// # Errors
    /// Memory ran out; nothing is changed then.
    pub fn add(&mut self, leaf: u64, entry: Entry<C::Key>) -> Result<(), AllocError>
        requires passes { PlacePasses C.rules.is_cover self.old leaf entry.key }
        ensures placed { OnOk result (self.new ≡ with_entry self.old leaf entry) }
        ensures unchanged { OnErr result (self.new ≡ self.old) }

        // Below the root there is this entry once more, and nothing else has changed.
        ensures once { OnOk result (GainsEntry self.old.tree entry self.new.tree) }
        ensures sound { IsSound C.rules.is_cover self.new.fan self.new.tree }
    {
        self.table.place(leaf as u32, entry)?;
        Ok(())
    }

    /// Marks a row of a leaf as ended by that commit. Commits count from 1.
    ///
    /// # Errors
    /// Memory ran out; nothing is changed then.
    pub fn bury(&mut self, leaf: u64, row: u32, commit: u32) -> Result<(), Refusal>
        requires leaf { is_leaf self.old.tree leaf ≡ true }
        requires counted { 0 < commit }
        ensures buried { OnOk result (self.new ≡ with_death self.old leaf row commit) }
        ensures refused { IfErr result (λ why. why ≡ Refusal.OutOfMemory) }
        ensures unchanged { OnErr result (self.new ≡ self.old) }
        ensures sound { IsSound C.rules.is_cover self.new.fan self.new.tree }
    {
        self.table.bury(leaf as u32, row, commit)?;
        Ok(())
    }

    /// Marks a row of a leaf as ended by that commit, and appends another row to a leaf that takes it: both or
    /// neither. Commits count from 1.
    ///
    /// # Errors
    /// Memory ran out; nothing is changed then.
    pub fn relocate(
        &mut self,
        from: u64,
        row: u32,
        commit: u32,
        to: u64,
        entry: Entry<C::Key>,
    ) -> Result<(), Refusal>
        requires leaf { is_leaf self.old.tree from ≡ true }
        requires passes { PlacePasses C.rules.is_cover self.old to entry.key }
        requires counted { 0 < commit }
        requires other { entry.row ≢ row }
        ensures moved { OnOk result (self.new ≡ with_move self.old from row commit to entry) }
        ensures refused { IfErr result (λ why. why ≡ Refusal.OutOfMemory) }
        ensures unchanged { OnErr result (self.new ≡ self.old) }
        ensures sound { IsSound C.rules.is_cover self.new.fan self.new.tree }
    {
        self.table
            .relocate(from as u32, row, commit, to as u32, entry)?;
        Ok(())
    }

    /// Removes from a leaf the dead rows that no scan opened at commit `horizon` or later needs, and gives their
    /// number.
    ///
    /// # Errors
    /// NotHere if the page is no leaf, else `OutOfMemory`, but only if there is something to remove. Nothing is
    /// changed then.
    pub fn sweep(&mut self, leaf: u64, horizon: u32) -> Result<usize, Refusal>
        ensures passed { OnOk result (NoneFails (sweep_tests self.old leaf)) }
        ensures swept { OnOk result (self.new ≡ without_unneeded self.old leaf horizon) }
        ensures count { IfOk result (CountsUnneeded horizon self.old.tree leaf) }
        ensures refused { IfErr result (IsRefusedBy (sweep_tests self.old leaf)) }
        ensures memory { IfErr result (WantsMemoryToSweep horizon self.old.tree leaf) }
        ensures unchanged { OnErr result (self.new ≡ self.old) }
        ensures sound { IsSound C.rules.is_cover self.new.fan self.new.tree }
    {
        if !self.is_leaf(leaf) {
            return Err(Refusal::NotHere);
        }
        Ok(self.table.sweep(leaf as u32, horizon)?)
    }

    /// Whether the page with this number is a leaf.
    pub fn is_leaf(&self, page: u64) -> bool
        ensures { result ≡ is_leaf self.now.tree page }
    {
        page < self.table.len() as u64 && self.table.page(page as u32).level() == 0
    }

    /// Why a row with the key can't be placed on the page, if it can't.
    pub fn place_refusal(&self, page: u64, key: C::Key) -> Option<Refusal>
        ensures { result ≡ refusal_to_place C.rules.is_cover self.now page key }
    {
        if page >= self.table.len() as u64 {
            return Some(Refusal::NotHere);
        }
        let leaf = self.table.page(page as u32);
        if leaf.level() != 0 {
            return Some(Refusal::NotHere);
        }
        if !leaf.covers::<C>(key) {
            return Some(Refusal::Uncovered);
        }
        if self.fan <= leaf.entry_count() {
            return Some(Refusal::NodeFull);
        }
        None
    }

    fn enlarge_refusal(&self, parent: u64, child: u64, key: C::Key) -> Option<Refusal>
        ensures { result ≡ refusal_to_enlarge C.rules.is_cover self.now parent child key }
    {
        if parent >= self.table.len() as u64 {
            return Some(Refusal::NotHere);
        }
        let parent = self.table.page(parent as u32);
        if parent.level() == 0 || !parent.names(child) {
            return Some(Refusal::NotHere);
        }
        if !parent.covers::<C>(key) {
            return Some(Refusal::Uncovered);
        }
        None
    }

    fn split_refusal(&self, page: u64, sides: &Sides) -> Option<Refusal>
        ensures { result ≡ first_failing (split_tests self.now page sides.now) }
    {
        let pages = self.table.len();
        if page == 0 || page >= pages as u64 {
            return Some(Refusal::NotHere);
        }
        let page = self.table.page(page as u32);
        if page.is_owed() {
            return Some(Refusal::Owed);
        }
        if !page.is_hung() {
            return Some(Refusal::Unhung);
        }
        let entries = page.entry_count();
        if entries < self.fan {
            return Some(Refusal::TooFew);
        }
        if !parts_well(sides, entries, self.least) {
            return Some(Refusal::BadSides);
        }
        if self.limit <= pages {
            return Some(Refusal::PagesFull);
        }
        None
    }

    fn post_refusal(&self, parent: u64, child: u64) -> Option<Refusal>
        ensures { result ≡ first_failing (post_tests self.now parent child) }
    {
        if parent >= self.table.len() as u64 {
            return Some(Refusal::NotHere);
        }
        let parent = self.table.page(parent as u32);
        if parent.level() == 0 || !parent.names(child) {
            return Some(Refusal::NotHere);
        }
        if !self.is_owed(child) {
            return Some(Refusal::NotHere);
        }
        if self.fan <= parent.entry_count() {
            return Some(Refusal::NodeFull);
        }
        None
    }

    fn is_owed(&self, page: u64) -> bool
        ensures { result ≡ (page_at self.now.tree page).owed }
    {
        page < self.table.len() as u64 && self.table.page(page as u32).is_owed()
    }

    fn grow_refusal(&self, sides: &Sides) -> Option<Refusal>
        ensures { result ≡ first_failing (grow_tests self.now sides.now) }
    {
        let entries = self.table.page(0).entry_count();
        if entries < self.fan {
            return Some(Refusal::TooFew);
        }
        if !parts_well(sides, entries, self.least) {
            return Some(Refusal::BadSides);
        }
        if self.limit < self.table.len() + 2 {
            return Some(Refusal::PagesFull);
        }
        None
    }
}

/// Whether there is a side for each entry, and each side has at least `least` entries.
fn parts_well(sides: &Sides, entries: usize, least: usize) -> bool
    ensures { result ≡ sides_well least entries sides.now }
{
    let (lefts, rights) = counts(sides);
    sides.len() == entries && least <= lefts && least <= rights
}

/// How many of the sides are left, and how many right.
fn counts(sides: &Sides) -> (usize, usize)
    ensures { CountsSides sides.now result }
{
    let mut lefts = 0;
    let mut rights = 0;
    for place in 0..sides.len() {
        match sides.side(place) {
            Side::Left => lefts += 1,
            Side::Right => rights += 1,
        }
    }
    (lefts, rights)
}
