ghost use Rattle.std.specs.Prelude.{◌<◌, ◌≤◌, length, IfErr, OnErr, OnOk};
ghost use Rattle.search.specs.Picks.{HasBitsFor};
ghost use Rattle.search.specs.Searches.{IsSearchable, rows_below};
ghost use Rattle.search.specs.Sinks.{TakesAll, TakesSome};

use crate::page_test::PageTest;
use crate::picks::{found_bits, wanted_bits};
use crate::row_sink::{RowSink, Stop};
use key_class::KeyClass;
use node::Branches;
use page_table::PageTable;

/// From how many pages on a search reads ahead: smaller trees are in the cache.
const MANY_PAGES: usize = 1024;

/// How many rows a sink is told to expect at most: most rows of the children don't match.
const AT_ONCE: usize = 64;

/// A search for the live rows that a test accepts (Guttman, R-Trees, 1984, as generalized by Hellerstein, Naughton and
/// Pfeffer, 1995).
#[derive(Drop)]
pub struct Search<'a, C: KeyClass, T> {
    pub table: &'a PageTable<C::Key>,
    pub test: &'a T,
}

impl<'a, C: KeyClass, T: PageTest<C>> Search<'a, C, T> {
    /// Gives a sink all rows of the tree that it looks for, in any order.
    ///
    /// # Errors
    /// The sink takes no more rows; it has some of them.
    pub fn all<S: RowSink<C::Key>>(&self, sink: &mut S) -> Result<(), Stop>
        requires { IsSearchable C.rules.is_cover self.now.table.now }
        ensures all { OnOk result (TakesAll S.takes
            (rows_below (T.accepts self.now.test.now) self.now.table.now 0) sink.old sink.new) }
        ensures some { OnErr result (TakesSome S.takes
            (rows_below (T.accepts self.now.test.now) self.now.table.now 0) sink.old sink.new) }
        ensures why { IfErr result (S.stops sink.new) }
    {
        self.below(0, sink)
    }

    /// Gives a sink what is below a page: the page's own rows, what is below its children, and what is below its right
    /// sibling while that has no branch of its own.
    fn below<S: RowSink<C::Key>>(&self, number: u32, sink: &mut S) -> Result<(), Stop>
        requires exists { number < length self.now.table.now.pages }
        requires searchable { IsSearchable C.rules.is_cover self.now.table.now }
        ensures all { OnOk result (TakesAll S.takes
            (rows_below (T.accepts self.now.test.now) self.now.table.now number) sink.old sink.new) }
        ensures some { OnErr result (TakesSome S.takes
            (rows_below (T.accepts self.now.test.now) self.now.table.now number) sink.old sink.new) }
        ensures why { IfErr result (S.stops sink.new) }
    {
        let page = self.table.page(number);
        let rows = page.rows();
        sink.take_picked(rows, found_bits::<C, T>(rows, self.test))?;
        let branches = page.branches();
        let mut wanted = wanted_bits::<C, T>(branches, self.test);
        sink.expect(self.expected(branches, wanted))?;
        'children: while wanted != 0 {
            let place = 63 - wanted.leading_zeros();
            self.below(branches.get(place as usize).child, sink)?;
            wanted -= 1 << place;
        }
        match page.followed(self.table.counter()) {
            Some(right) => self.below(right, sink),
            None => Ok(()),
        }
    }

    /// About how many rows may come next, if the tree is too large for the cache.
    fn expected(&self, branches: &Branches<C::Key>, wanted: u64) -> usize
        requires few { length branches.now ≤ 64 }
        requires within { HasBitsFor branches.now wanted }
    {
        if self.table.len() < MANY_PAGES {
            return 0;
        }
        self.rows_of_children(branches, wanted).min(AT_ONCE)
    }

    /// How many rows the children of the picked branches have. That reads the heads of their pages, all at once.
    fn rows_of_children(&self, branches: &Branches<C::Key>, mut wanted: u64) -> usize
        requires few { length branches.now ≤ 64 }
        requires within { HasBitsFor branches.now wanted }
    {
        let mut rows = 0;
        'children: while wanted != 0 {
            let place = 63 - wanted.leading_zeros();
            let child = branches.get(place as usize).child;
            if (child as usize) < self.table.len() {
                rows = self.table.page(child).rows().len().wrapping_add(rows);
            }
            wanted -= 1 << place;
        }
        rows
    }
}
