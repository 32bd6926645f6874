ghost use Rattle.std.specs.Prelude.{Bool, ◌≡◌, ◌≢◌, ◌<◌, ◌≤◌, ◌↔◌, ℕ, ◌+◌, ◌++◌, [], length, map, reverse, take, true, option_to_list, IfOk, OnOk, OnErr, MatchOption, IsTrue, false};
ghost use Rattle.std.specs.Arc.{arc_value};
ghost use Rattle.smallvec.specs.SmallVec.{HasRoomFor};
ghost use Rattle.page_table.specs.Stacks.{IsStack, root_stack};
ghost use Rattle.page_table.specs.Trees.{page_at};
ghost use Rattle.scan.specs.Finding.{stack_at, LacksNext, KeepsFinding, SeekLowersWork, PushesCovering, SeeksNext};
ghost use Rattle.scan.specs.Scanning.{IsNext, IsNextPage, GoesOn, PushesSome, with_memo, children_on, HasWanted, KeepsWanted, item_of_child};
ghost use Rattle.scan.specs.QueryVisits.{GoesOnBy, Prepares, GrowsBy, Tallies, IsStillNext, VisitPushes, VisitsBy, PushesBy, MakesVisit, VisitLowersWork};
ghost use Rattle.search.specs.Picks.{HasBitsFor, picked};

use crate::prepared::PreparedVisit;
use crate::rows::{holds_row, seen_rows};
use change_list::Row;
use key_class::{Columned, KeyClass, Pred};
use node::{Branches, same_page};
use page_table::PageTable;
use search::{BranchTest, Covering, OneAtom, wanted_bits};
use smallvec::SmallVec;
use std::alloc::{AllocError, Global};
use std::collections::VecDeque;
use std::marker::Model;
use std::sync::Arc;

/// How many bits a number has. Each says whether one branch passes a test.
const BITS: usize = 64;

/// A page still to be visited, and the counter when its number was read.
#[derive(Clone, Copy, Default)]
pub struct StackItem {
    pub(crate) page: u32,
    pub(crate) memo: u32,
}

impl Model for StackItem {
    ghost use Rattle.page_table.specs.Stacks as model;

    ghost Value = { model.StackItem };

    ghost view = { λ i. record { page = i.page; memo = i.memo } };

    ghost inverse = { λ i. record { page = i.page; memo = i.memo } };
}

/// The page that a visit read, and the rows that it noted, in order.
#[derive(Drop)]
pub struct Visited<K> {
    pub page: u32,
    pub rows: VecDeque<Row<K>>,
}

/// What a visit of a finder met.
#[derive(Clone, Copy, Debug, PartialEq, Eq)]
pub enum Sought {
    /// The page with that number holds the row.
    Here(u32),
    /// The page with that number doesn't.
    Further(u32),
}

/// The pages that a traversal still has to visit, the next one last.
#[derive(Drop)]
pub struct Stack {
    items: SmallVec<StackItem, 32>,
}

impl Model for Stack {
    ghost use Rattle.std.specs.Prelude.{List};
    ghost use Rattle.page_table.specs.Stacks as model;

    ghost Value = { List model.StackItem };

    ghost view = { λ s. s.items.items };
}

impl Stack {
    /// A traversal that begins at the root, with the table's counter. It needs no memory.
    pub fn at_root(alloc: Global, counter: u32) -> Stack
        ensures { result ≡ root_stack counter }
    {
        Stack::at_page(alloc, 0, counter)
    }

    /// A traversal that begins at a page, with the table's counter. It needs no memory.
    pub fn at_page(alloc: Global, page: u32, counter: u32) -> Stack
        ensures { result ≡ stack_at page counter }
    {
        let mut items = SmallVec::new(alloc);
        items.push_reserved(StackItem {
            page,
            memo: counter,
        });
        Stack { items }
    }

    /// A traversal that visits nothing. It needs no memory.
    pub fn empty(alloc: Global) -> Stack
        ensures { result ≡ [] }
    {
        Stack {
            items: SmallVec::new(alloc),
        }
    }

    /// Whether nothing is left to be visited.
    pub fn is_empty(&self) -> bool
        ensures { IsTrue result ↔ (self.now ≡ []) }
    {
        self.items.len() == 0
    }

    /// The number of the page to be visited next. `None` if nothing is left to be visited.
    pub fn next_page(&self) -> Option<u32>
        ensures { MatchOption result (self.now ≡ []) (IsNextPage self.now) }
    {
        match self.last() {
            Some(item) => Some(item.page),
            None => None,
        }
    }

    /// Visits the page of the last item, if there is one: notes its rows that match and were live after the first
    /// `opened` commits, and goes on to its right link and the children whose bounds are consistent with the query.
    ///
    /// # Errors
    /// Memory ran out for a row to note or a page to push; the stack is unchanged.
    pub fn visit<C: KeyClass>(
        &mut self,
        alloc: Global,
        table: &PageTable<C::Key>,
        query: &Pred<C::Atom>,
        opened: u32,
    ) -> Result<Option<Visited<C::Key>>, AllocError>
        requires { IsStack table.now self.old }
        ensures visited { VisitsBy C.rules query.now opened table.now self.old result self.new }
        ensures lost_nothing { Tallies C.rules query.now opened table.now self.old result self.new }
        ensures less_work { VisitLowersWork C.rules.is_cover table.now self.old result self.new }
        ensures refused { OnErr result (self.new ≡ self.old) }
        ensures memory { OnErr result (GrowsBy C.rules query.now opened table.now self.old) }
    {
        let Some(item) = self.last() else {
            return Ok(None);
        };
        let page = table.page(item.page);
        let rows = seen_rows::<C>(alloc, page.rows(), query, opened)?;
        if page.branches().is_empty() {
            self.leave::<C>(table, item);
        } else {
            self.go_on_by_query::<C>(table, item, query)?;
        }
        Ok(Some(Visited {
            page: item.page,
            rows,
        }))
    }

    /// Prepares the visit of the last item's page, if there is one, to be worked out without the table. Changes
    /// nothing.
    ///
    /// # Errors
    /// The page or the query has too many owners.
    pub fn prepare<C: KeyClass>(
        &self,
        alloc: Global,
        table: &PageTable<C::Key>,
        query: &Arc<Pred<C::Atom>>,
        opened: u32,
    ) -> Result<Option<PreparedVisit<C>>, AllocError>
        requires { IsStack table.now self.now }
        ensures prepared { IfOk result (Prepares (arc_value query.now) self.now table.now opened) }
        ensures refused { OnErr result (self.now ≢ []) }
    {
        let Some(item) = self.last() else {
            return Ok(None);
        };
        let page = table.share(item.page)?;
        let query = Arc::try_clone(query)?;
        Ok(Some(PreparedVisit {
            alloc,
            item,
            page,
            query,
            opened,
            found: None,
        }))
    }

    /// Whether the visit is that of the last item, and its page hasn't changed.
    pub fn is_due<C: KeyClass>(&self, table: &PageTable<C::Key>, visit: &PreparedVisit<C>) -> bool
        requires { IsStack table.now self.now }
        ensures { IsTrue result ↔ IsStillNext self.now table.now visit.now }
    {
        let Some(item) = self.last() else {
            return false;
        };
        item.page == visit.item.page
            && item.memo == visit.item.memo
            && same_page::<C>(table.page(item.page), visit.page.get())
    }

    /// Makes a visit that was worked out, as `visit` with its query and opening would.
    ///
    /// # Errors
    /// Memory ran out for a page to push; the stack is unchanged.
    pub fn visit_prepared<C: KeyClass>(
        &mut self,
        counter: u32,
        visit: PreparedVisit<C>,
    ) -> Result<Visited<C::Key>, AllocError>
        requires next { IsNext self.old visit.item }
        requires worked { visit.worked ≡ true }
        ensures visited { IfOk result (MakesVisit C.rules counter visit self.old self.new) }
        ensures refused { OnErr result (self.new ≡ self.old) }
        ensures memory { OnErr result (VisitPushes C.rules counter visit self.old) }
    {
        let PreparedVisit {
            item,
            page,
            found,
            ..
        } = visit;
        let Some(found) = found else { unreachable!() };
        make_room(&mut self.items, found.children.len())?;
        self.items.pop();
        push_link(&mut self.items, page.get().followed(item.memo), item.memo);
        push_pages(&mut self.items, &found.children, counter);
        Ok(Visited {
            page: item.page,
            rows: found.rows,
        })
    }

    /// Visits the page of the last item, if there is one, for the row with that number and key. If the page doesn't
    /// hold the row, goes on to its right link and the children whose bounds cover the key.
    ///
    /// # Errors
    /// Memory ran out for a page to push, and the page doesn't hold the row; the stack is unchanged.
    pub fn seek<C: KeyClass>(
        &mut self,
        table: &PageTable<C::Key>,
        key: C::Key,
        row: u32,
    ) -> Result<Option<Sought>, AllocError>
        requires { IsStack table.now self.old }
        ensures sought { IfOk result (SeeksNext C.rules key row table.now self.old self.new) }
        ensures lost_nothing { KeepsFinding C.rules key row table.now self.old result self.new }
        ensures less_work { SeekLowersWork C.rules.is_cover table.now self.old result self.new }
        ensures refused { OnErr result (self.new ≡ self.old) }
        ensures refused_further { OnErr result (LacksNext row table.now self.old) }
        ensures memory { OnErr result (PushesCovering C.rules.is_cover key table.now self.old) }
    {
        let Some(item) = self.last() else {
            return Ok(None);
        };
        if holds_row(table.page(item.page).rows(), row) {
            return Ok(Some(Sought::Here(item.page)));
        }
        self.go_on::<C, Covering<C::Key>>(table, item, &Covering { key })?;
        Ok(Some(Sought::Further(item.page)))
    }

    /// The item to be visited next.
    fn last(&self) -> Option<StackItem>
        ensures { MatchOption result (self.now ≡ []) (IsNext self.now) }
    {
        let count = self.items.len();
        if count == 0 {
            return None;
        }
        Some(self.items.as_slice()[count - 1])
    }

    /// Goes on from a page without branches, as most are: to its right link, if that is followed.
    fn leave<C: KeyClass>(&mut self, table: &PageTable<C::Key>, item: StackItem)
        requires next { IsNext self.old item }
        requires exists { item.page < length table.now.pages }
        requires leaf { (page_at table.now item.page).branches ≡ [] }
        ensures { (wanted : C.Key → Bool) → GoesOn wanted table.now self.old item self.new }
    {
        // The last item was taken off, so there is room for one.
        let _count = self.items.len();
        self.items.pop();
        let right = table.page(item.page).followed(item.memo);
        push_link(&mut self.items, right, item.memo);
    }

    /// Goes on to the children whose bounds are consistent with the query.
    fn go_on_by_query<C: KeyClass>(
        &mut self,
        table: &PageTable<C::Key>,
        item: StackItem,
        query: &Pred<C::Atom>,
    ) -> Result<(), AllocError>
        requires next { IsNext self.old item }
        requires exists { item.page < length table.now.pages }
        ensures ok { OnOk result (GoesOnBy C.rules query.now table.now self.old item self.new) }
        ensures refused { OnErr result (self.new ≡ self.old) }
        ensures memory { OnErr result (PushesBy C.rules query.now table.now self.old) }
    {
        match query {
            Pred::Atom(atom) => {
                self.go_on::<C, OneAtom<C::Atom>>(table, item, &OneAtom { atom: *atom })
            }
            _ => self.go_on::<C, Pred<C::Atom>>(table, item, query),
        }
    }

    /// Replaces the last item, that of a page, by what follows the page. A page of a store never has more branches
    /// than a number has bits.
    fn go_on<C: KeyClass, T: BranchTest<C>>(
        &mut self,
        table: &PageTable<C::Key>,
        item: StackItem,
        test: &T,
    ) -> Result<(), AllocError>
        requires next { IsNext self.old item }
        requires exists { item.page < length table.now.pages }
        ensures ok { OnOk result (GoesOn (T.wants test.now) table.now self.old item self.new) }
        ensures refused { OnErr result (self.new ≡ self.old) }
        ensures memory { OnErr result (PushesSome (T.wants test.now) table.now self.old) }
    {
        if table.page(item.page).branches().len() <= BITS {
            return self.go_on_by_bits::<C, T>(table, item, test);
        }
        self.go_on_one_by_one::<C, T>(table, item, test)
    }

    /// Goes on from a page that has at most as many branches as a number has bits.
    fn go_on_by_bits<C: KeyClass, T: BranchTest<C>>(
        &mut self,
        table: &PageTable<C::Key>,
        item: StackItem,
        test: &T,
    ) -> Result<(), AllocError>
        requires next { IsNext self.old item }
        requires exists { item.page < length table.now.pages }
        requires few { length (page_at table.now item.page).branches ≤ 64 }
        ensures ok { OnOk result (GoesOn (T.wants test.now) table.now self.old item self.new) }
        ensures refused { OnErr result (self.new ≡ self.old) }
        ensures memory { OnErr result (PushesSome (T.wants test.now) table.now self.old) }
    {
        let page = table.page(item.page);
        let branches = page.branches();
        let wanted = wanted_bits::<C, T>(branches, test);
        make_room(&mut self.items, wanted.count_ones() as usize)?;
        self.items.pop();
        push_link(&mut self.items, page.followed(item.memo), item.memo);
        let memo = table.counter();
        push_picked::<C::Key>(&mut self.items, branches, wanted, memo);
        Ok(())
    }

    /// Goes on from a page with any number of branches.
    fn go_on_one_by_one<C: KeyClass, T: BranchTest<C>>(
        &mut self,
        table: &PageTable<C::Key>,
        item: StackItem,
        test: &T,
    ) -> Result<(), AllocError>
        requires next { IsNext self.old item }
        requires exists { item.page < length table.now.pages }
        ensures ok { OnOk result (GoesOn (T.wants test.now) table.now self.old item self.new) }
        ensures refused { OnErr result (self.new ≡ self.old) }
        ensures memory { OnErr result (PushesSome (T.wants test.now) table.now self.old) }
    {
        let page = table.page(item.page);
        let branches = page.branches();
        let count = up_to_wanted::<C, T>(branches, test);
        make_room(&mut self.items, count)?;
        self.items.pop();
        push_link(&mut self.items, page.followed(item.memo), item.memo);
        push_children::<C, T>(&mut self.items, branches, count, test, table.counter());
        Ok(())
    }
}

/// How many branches there are up to the last that passes the test.
fn up_to_wanted<C: KeyClass, T: BranchTest<C>>(branches: &Branches<C::Key>, test: &T) -> usize
    ensures within { result ≤ length branches.now }
    ensures same { KeepsWanted (T.wants test.now) branches.now (take result branches.now) }
    ensures wanted { HasWanted (T.wants test.now) branches.now (take result branches.now) }
{
    let mut count = branches.len();
    while count > 0 {
        if test.is_wanted(branches.get(count - 1).key) {
            return count;
        }
        count -= 1;
    }
    0
}

/// Makes room for `more` further items, which is mostly there.
///
/// # Errors
/// Memory ran out, and there are further items; the list is unchanged.
#[inline]
fn make_room(items: &mut SmallVec<StackItem, 32>, more: usize) -> Result<(), AllocError>
    ensures items { items.new.items ≡ items.old.items }
    ensures room { OnOk result (HasRoomFor items.new more) }
    ensures refused { OnErr result (items.new ≡ items.old) }
    ensures some { OnErr result (0 < more) }
{
    if more <= items.capacity() - items.len() {
        return Ok(());
    }
    reserve_more(items, more)
}

/// Makes room for `more` further items. It is apart from `make_room` so that this one is inlined.
///
/// # Errors
/// Memory ran out; the list is unchanged.
#[cold]
fn reserve_more(items: &mut SmallVec<StackItem, 32>, more: usize) -> Result<(), AllocError>
    ensures items { items.new.items ≡ items.old.items }
    ensures room { OnOk result (HasRoomFor items.new more) }
    ensures refused { OnErr result (items.new ≡ items.old) }
{
    items.reserve(more)
}

/// Pushes a right link, if it is followed, with the memo of its page.
fn push_link(items: &mut SmallVec<StackItem, 32>, right: Option<u32>, memo: u32)
    requires { HasRoomFor items.old 1 }
    ensures pushed { items.new.items ≡ items.old.items ++ with_memo memo (option_to_list right) }
    ensures room { (more : ℕ) → HasRoomFor items.old (more + 1) → HasRoomFor items.new more }
{
    if let Some(page) = right {
        items.push_reserved(StackItem { page, memo });
    }
}

/// Pushes pages with a memo.
fn push_pages(items: &mut SmallVec<StackItem, 32>, pages: &[u32], memo: u32)
    requires { HasRoomFor items.old (length pages.now) }
    ensures { items.new.items ≡ items.old.items ++ with_memo memo pages.now }
{
    for place in 0..pages.len() {
        items.push_reserved(StackItem {
            page: pages[place],
            memo,
        });
    }
}

/// Pushes the children whose branches, of the first `count`, pass the test, from the last to the first.
fn push_children<C: KeyClass, T: BranchTest<C>>(
    items: &mut SmallVec<StackItem, 32>,
    branches: &Branches<C::Key>,
    count: usize,
    test: &T,
    memo: u32,
)
    requires within { count ≤ length branches.now }
    requires room { HasRoomFor items.old count }
    ensures { items.new.items
        ≡ children_on (T.wants test.now) memo (take count branches.now) items.old.items }
{
    let mut place = count;
    while place > 0 {
        place -= 1;
        let branch = branches.get(place);
        if test.is_wanted(branch.key) {
            items.push_reserved(StackItem {
                page: branch.child,
                memo,
            });
        }
    }
}

/// Pushes the children of the picked branches, the last one first.
fn push_picked<K: Columned>(
    items: &mut SmallVec<StackItem, 32>,
    branches: &Branches<K>,
    mut bits: u64,
    memo: u32,
)
    requires few { length branches.now ≤ 64 }
    requires within { HasBitsFor branches.now bits }
    requires room { HasRoomFor items.old (length (picked bits branches.now)) }
    ensures { items.new.items
        ≡ items.old.items ++ map (item_of_child memo) (reverse (picked bits branches.now)) }
{
    while bits != 0 {
        let place = 63 - bits.leading_zeros();
        let page = branches.get(place as usize).child;
        items.push_reserved(StackItem { page, memo });
        bits -= 1 << place;
    }
}
