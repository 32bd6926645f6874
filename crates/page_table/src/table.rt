ghost use Rattle.std.specs.Prelude.{◌≡◌, ◌≢◌, ◌+◌, ◌*◌, ◌<◌, ◌≤◌, ◌^◌, length, true, IfOk, OnOk, OnErr};
ghost use Rattle.std.specs.Borrow.{LendsIfOk, sem};
ghost use Rattle.page_table.specs.Trees.{Tree, page_at, replaced, added, new_tree};
ghost use Rattle.node.specs.Pages as model;
ghost use Rattle.page_table.specs.contracts.table.PageTable.{the_row};
ghost use Rattle.node.specs.contracts.page.Page.{the_row as page_row};
ghost use Rattle.node.specs.Pages.{entries_of, has_unneeded};
ghost use Rattle.node.specs.Changes.{risen, split_left, with_row};
ghost use Rattle.page_table.specs.LeafChanges.{after_place, after_sweep, CountsUnneeded, after_bury, after_move, with_dead};
ghost use Rattle.page_table.specs.PageChanges.{with_rise, with_posting, with_wider, with_part};

use crate::change::{MoveRow, Posting, Widening};
use crate::places::{Places, Single};
use crate::remains::PageRemains;
use crate::shared::Shared;
use crate::shared_page::SharedPage;
use crate::top::{TOP, Top, change_pages, change_three, filler, put_next, shared};
use key_class::{Columned, KeyClass, Sides};
use node::{Branches, Page};
use row_version::Entry;
use std::alloc::{AllocError, Global};
use std::marker::Model;

/// Pages by number, and the number of the latest posting.
///
/// The pages are in chunks of chunks, which tables share until one of them writes to a page: then the two chunks that
/// lead there are copied.
#[derive(Drop)]
pub struct PageTable<K: Columned> {
    chunks: Vec<Shared<Top<K>>>,
    /// How many pages there are. What is in the places after them doesn't count.
    count: usize,
    counter: u32,
    /// A chunk of empty pages, used to fill a new chunk's places.
    filler: Shared<Top<K>>,
}

impl<K: Columned> Model for PageTable<K> {
    ghost use Rattle.page_table.specs.Trees.{Tree};
    ghost use Rattle.page_table.specs.Chunks.{HasFiller, first_pages};

    ghost Value = { Tree K };

    ghost view = { λ t. record { pages = first_pages t.count t.chunks.items; counter = t.counter } };

    ghost invariant = { λ t. HasFiller t.filler t.chunks.items t.count };
}

impl<K: Columned> PageTable<K> {
    /// The table of a new world: page 0, an empty leaf with room for `fan` rows.
    ///
    /// # Errors
    /// Memory ran out.
    #[tactic(auto, unfolding(crate::specs::Trees::new_tree))]
    pub fn new(alloc: Global, fan: usize) -> Result<PageTable<K>, AllocError>
        ensures { IfOk result (λ table. table ≡ new_tree) }
    {
        let root = Page::leaf(alloc, fan)?;
        let filler = filler(alloc)?;
        let mut chunks = Vec::new(alloc);
        put_next(&mut chunks, &filler, 0, root)?;
        Ok(PageTable {
            chunks,
            count: 1,
            counter: 0,
            filler,
        })
    }

    /// How many pages there are.
    pub fn len(&self) -> usize
        ensures { result ≡ length self.now.pages }
    {
        self.count
    }

    /// The number of the latest posting, 0 before the first.
    pub fn counter(&self) -> u32
        ensures { result ≡ self.now.counter }
    {
        self.counter
    }

    pub fn page(&self, number: u32) -> &Page<K>
        requires { number < length self.now.pages }
        ensures { result.now ≡ page_at self.now number }
    {
        &self.slot(number).get().page
    }

    /// Another owner of a page.
    ///
    /// # Errors
    /// It has too many owners.
    pub fn share(&self, number: u32) -> Result<SharedPage<K>, AllocError>
        requires { number < length self.now.pages }
        ensures { IfOk result (λ shared. shared ≡ page_at self.now number) }
    {
        let page = self.slot(number).share()?;
        Ok(SharedPage { page })
    }

    /// A copy of the table, which shares its chunks until one of the tables writes to them.
    ///
    /// # Errors
    /// Memory ran out, or a chunk has too many owners.
    pub fn copy(&self) -> Result<PageTable<K>, AllocError>
        ensures { IfOk result (λ copy. copy ≡ self.now) }
    {
        let chunks = shared(*self.chunks.allocator(), self.chunks.as_slice())?;
        let count = self.count;
        let counter = self.counter;
        let filler = self.filler.share()?;
        Ok(PageTable {
            chunks,
            count,
            counter,
            filler,
        })
    }

    /// The table without its use: what is left to be dropped piece by piece.
    pub fn into_remains(self) -> PageRemains<K>
        ensures { length self.pages ≤ 16 * result }
    {
        let PageTable { chunks, .. } = self;
        PageRemains::new(chunks)
    }

    fn slot(&self, number: u32) -> &Shared<Single<Page<K>>>
        requires { number < length self.now.pages }
        ensures { result.now ≡ page_at self.now number }
    {
        let number = number as usize;
        Top::slot(&self.chunks[number / TOP], number % TOP)
    }

    /// A page, for writing. If tasks or other tables hold it too, it is copied first.
    ///
    /// # Errors
    /// Memory ran out; the table is unchanged.
    pub fn page_mut(&mut self, number: u32) -> Result<&mut Page<K>, AllocError>
        requires { number < length self.old.pages }
        ensures* lends { sem 𝓛 (LendsIfOk (the_row K.row K.Block.row K.Clone K.Block.Block K.Block.Clone) (page_row K.row K.Block.row K.Clone K.Block.Block K.Block.Clone) self.entry result (λ page. replaced self.old number page) self.old) }
        ensures value { IfOk result (λ page. page.now ≡ page_at self.old number) }
    {
        self.chunks[number as usize / TOP]
            .get_mut()?
            .page_mut(number as usize % TOP)
    }

    /// Adds a page under the next number, and gives that.
    ///
    /// # Errors
    /// Memory ran out; the table is unchanged.
    pub fn fresh(&mut self, page: Page<K>) -> Result<u32, AllocError>
        requires { length self.old.pages < 2 ^ 32 }
        ensures number { IfOk result (λ number. number ≡ length self.old.pages) }
        ensures added { OnOk result (self.new ≡ added self.old page) }
        ensures unchanged { OnErr result (self.new ≡ self.old) }
    {
        let number = self.count;
        self.append(page)?;
        Ok(number as u32)
    }

    /// Adds a page after the others.
    ///
    /// # Errors
    /// Memory ran out, or no number is left; the table is unchanged.
    fn append(&mut self, page: Page<K>) -> Result<(), AllocError>
        ensures added { OnOk result (self.new ≡ added self.old page) }
        ensures unchanged { OnErr result (self.new ≡ self.old) }
    {
        let Some(count) = self.count.checked_add(1) else {
            return Err(AllocError);
        };
        put_next(&mut self.chunks, &self.filler, self.count, page)?;
        self.count = count;
        Ok(())
    }

    /// Removes the last page.
    fn forget_last(&mut self)
        requires { 0 < length self.old.pages }
        ensures { (t : Tree K) (page : model.Page K)
            → self.old ≡ added t page → self.new ≡ t }
    {
        self.count -= 1;
    }

    /// Makes a page the left half of a split: it owes a posting to the right half, the page given, which gets the
    /// next number. Gives that number.
    ///
    /// # Errors
    /// Memory ran out; the table is unchanged.
    pub fn part<C: KeyClass<Key = K>>(
        &mut self,
        page: u32,
        sides: &Sides,
        right: Page<K>,
    ) -> Result<u32, AllocError>
        requires exists { page < length self.old.pages }
        requires one_a_place { entries_of (page_at self.old page) ≡ length sides.now }
        requires numbered { length self.old.pages < 2 ^ 32 }
        ensures number { IfOk result (λ number. number ≡ length self.old.pages) }
        ensures parted { OnOk result
            (self.new ≡ with_part C.rules self.old page sides.now right) }
        ensures unchanged { OnErr result (self.new ≡ self.old) }
    {
        let number = self.fresh(right)?;
        match self.keep_left::<C>(page, sides, number) {
            Ok(()) => Ok(number),
            Err(error) => {
                self.forget_last();
                Err(error)
            }
        }
    }

    /// Makes a page the left half of a split: it owes a posting to the sibling.
    ///
    /// # Errors
    /// Memory ran out; the table is unchanged.
    fn keep_left<C: KeyClass<Key = K>>(
        &mut self,
        page: u32,
        sides: &Sides,
        sibling: u32,
    ) -> Result<(), AllocError>
        requires exists { page < length self.old.pages }
        requires one_a_place { entries_of (page_at self.old page) ≡ length sides.now }
        ensures parted { OnOk result
            (self.new ≡ replaced self.old page
            (split_left C.rules.union_of (page_at self.old page) sides.now sibling)) }
        ensures unchanged { OnErr result (self.new ≡ self.old) }
    {
        self.page_mut(page)?.keep_left::<C>(sides, sibling);
        Ok(())
    }

    /// Adds two pages under the next numbers, and raises page 0 above them, with these branches.
    ///
    /// # Errors
    /// Memory ran out; the table is unchanged.
    pub fn raise(
        &mut self,
        left: Page<K>,
        right: Page<K>,
        branches: Branches<K>,
    ) -> Result<(), AllocError>
        requires exists { 0 < length self.old.pages }
        requires low { (page_at self.old 0).level + 1 < 2 ^ 32 }
        ensures raised { OnOk result (self.new ≡ with_rise self.old branches left right) }
        ensures unchanged { OnErr result (self.new ≡ self.old) }
    {
        self.append(left)?;
        match self.raise_beside(right, branches) {
            Ok(()) => Ok(()),
            Err(error) => {
                self.forget_last();
                Err(error)
            }
        }
    }

    /// Adds a page under the next number, and makes page 0 a root that has grown, with these branches.
    ///
    /// # Errors
    /// Memory ran out; the table is unchanged.
    fn raise_beside(&mut self, right: Page<K>, branches: Branches<K>) -> Result<(), AllocError>
        requires exists { 0 < length self.old.pages }
        requires low { (page_at self.old 0).level + 1 < 2 ^ 32 }
        ensures raised { OnOk result
            (self.new ≡ added (replaced self.old 0 (risen (page_at self.old 0) branches)) right) }
        ensures unchanged { OnErr result (self.new ≡ self.old) }
    {
        self.append(right)?;
        match self.raise_root(branches) {
            Ok(()) => Ok(()),
            Err(error) => {
                self.forget_last();
                Err(error)
            }
        }
    }

    /// Makes page 0 a root that has grown, with these branches.
    ///
    /// # Errors
    /// Memory ran out; the table is unchanged.
    fn raise_root(&mut self, branches: Branches<K>) -> Result<(), AllocError>
        requires exists { 0 < length self.old.pages }
        requires low { (page_at self.old 0).level + 1 < 2 ^ 32 }
        ensures raised { OnOk result
            (self.new ≡ replaced self.old 0 (risen (page_at self.old 0) branches)) }
        ensures unchanged { OnErr result (self.new ≡ self.old) }
    {
        let alloc = *self.chunks.allocator();
        self.page_mut(0)?.rise(alloc, branches);
        Ok(())
    }

    /// Widens the parent's branch to the child, and the child's cover, by the key.
    ///
    /// # Errors
    /// Memory ran out; the table is unchanged.
    pub fn widen<C: KeyClass<Key = K>>(
        &mut self,
        parent: u32,
        child: u32,
        key: K,
    ) -> Result<(), AllocError>
        requires parent_exists { parent < length self.old.pages }
        requires child_exists { child < length self.old.pages }
        requires apart { parent ≢ child }
        ensures widened { OnOk result (self.new ≡ with_wider C.rules self.old parent child key) }
        ensures unchanged { OnErr result (self.new ≡ self.old) }
    {
        change_pages(
            &mut self.chunks,
            parent as usize,
            child as usize,
            &Widening::<C> { child, key },
        )
    }

    /// Gives the parent branches to the child and its right sibling, which is thereby hung. The child owes nothing
    /// any more and has the number of the posting, which is the next one.
    ///
    /// # Errors
    /// Memory ran out; the table is unchanged.
    pub fn post(&mut self, parent: u32, child: u32, sibling: u32) -> Result<(), AllocError>
        requires parent_exists { parent < length self.old.pages }
        requires child_exists { child < length self.old.pages }
        requires sibling_exists { sibling < length self.old.pages }
        requires child_apart { parent ≢ child }
        requires sibling_apart { parent ≢ sibling }
        requires siblings_apart { child ≢ sibling }
        requires counted { self.old.counter + 1 < 2 ^ 32 }
        ensures posted { OnOk result (self.new ≡ with_posting self.old parent child sibling) }
        ensures unchanged { OnErr result (self.new ≡ self.old) }
    {
        let number = self.counter + 1;
        let posting = Posting {
            child,
            sibling,
            number,
        };
        change_three(
            &mut self.chunks,
            parent as usize,
            child as usize,
            sibling as usize,
            &posting,
        )?;
        self.counter = number;
        Ok(())
    }

    /// Appends a row to a leaf.
    ///
    /// # Errors
    /// Memory ran out; the table is unchanged.
    #[tactic(auto, unfolding(crate::specs::Trees::after_rows))]
    pub fn place(&mut self, leaf: u32, entry: Entry<K>) -> Result<(), AllocError>
        requires { leaf < length self.old.pages }
        ensures placed { OnOk result (self.new ≡ after_place self.old leaf entry) }
        ensures unchanged { OnErr result (self.new ≡ self.old) }
    {
        self.page_mut(leaf)?.place(entry)
    }

    /// Marks a row of a leaf as ended by that commit. Commits count from 1.
    ///
    /// # Errors
    /// Memory ran out; the table is unchanged.
    #[tactic(auto, unfolding(crate::specs::Trees::after_rows))]
    pub fn bury(&mut self, leaf: u32, row: u32, commit: u32) -> Result<(), AllocError>
        requires exists { leaf < length self.old.pages }
        requires counted { 0 < commit }
        ensures buried { OnOk result (self.new ≡ after_bury self.old leaf row commit) }
        ensures unchanged { OnErr result (self.new ≡ self.old) }
    {
        self.page_mut(leaf)?.bury(row, commit);
        Ok(())
    }

    /// Marks a row of a leaf as ended by that commit, and appends another row to a leaf: both or neither. Commits
    /// count from 1.
    ///
    /// # Errors
    /// Memory ran out; the table is unchanged.
    pub fn relocate(
        &mut self,
        from: u32,
        row: u32,
        commit: u32,
        to: u32,
        entry: Entry<K>,
    ) -> Result<(), AllocError>
        requires from_exists { from < length self.old.pages }
        requires to_exists { to < length self.old.pages }
        requires counted { 0 < commit }
        requires other { entry.row ≢ row }
        ensures moved { OnOk result (self.new ≡ after_move self.old from row commit to entry) }
        ensures unchanged { OnErr result (self.new ≡ self.old) }
    {
        if from == to {
            let page = self.page_mut(from)?;
            return move_within(page, row, commit, entry);
        }
        change_pages(
            &mut self.chunks,
            from as usize,
            to as usize,
            &MoveRow { row, commit, entry },
        )
    }

    /// Removes from a leaf the dead rows that no scan opened at commit `horizon` or later needs, and gives their
    /// number.
    ///
    /// # Errors
    /// Memory ran out, and there is such a row; the table is unchanged.
    #[tactic(auto, unfolding(crate::specs::Trees::after_rows))]
    pub fn sweep(&mut self, leaf: u32, horizon: u32) -> Result<usize, AllocError>
        requires { leaf < length self.old.pages }
        ensures swept { OnOk result (self.new ≡ after_sweep self.old leaf horizon) }
        ensures count { IfOk result (CountsUnneeded horizon self.old leaf) }
        ensures unchanged { OnErr result (self.new ≡ self.old) }
        ensures memory { OnErr result (has_unneeded horizon (page_at self.old leaf) ≡ true) }
    {
        if !self.page(leaf).has_unneeded(horizon) {
            return Ok(0);
        }
        Ok(self.page_mut(leaf)?.sweep(horizon))
    }
}

/// Marks a row of a page as ended by that commit, and appends another row to the same page.
#[tactic(auto, using(crate::proofs::Moving::marked_around))]
fn move_within<K: Columned>(
    page: &mut Page<K>,
    row: u32,
    commit: u32,
    entry: Entry<K>,
) -> Result<(), AllocError>
    requires counted { 0 < commit }
    requires other { entry.row ≢ row }
    ensures moved { OnOk result (page.new ≡ with_row (with_dead page.old row commit) entry) }
    ensures stays { OnErr result (page.new ≡ page.old) }
{
    page.place(entry)?;
    page.bury(row, commit);
    Ok(())
}
