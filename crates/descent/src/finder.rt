ghost use Rattle.std.specs.Prelude.{◌≡◌, ◌↔◌, false, [], OnErr, IsTrue};
ghost use Rattle.page_table.specs.Stacks.{IsStack};
ghost use Rattle.descent.specs.Finders.{is_at_row, SeeksItsRow, KeepsSeeking, FinderLowersWork, begun_finder, FinderPushes};
ghost use Rattle.page_table.specs.TraversalLaws.{IfSound};

use key_class::KeyClass;
use page_table::PageTable;
use scan::{Sought, Stack};
use std::alloc::{AllocError, Global};
use std::marker::Model;

/// An open finder, on its way to the leaf that holds a row.
#[derive(Drop)]
pub struct Finder<C: KeyClass> {
    serial: u64,
    row: u32,
    key: C::Key,
    stack: Stack,
}

impl<C: KeyClass> Model for Finder<C> {
    ghost use Rattle.descent.specs.Finders.{OpenFinder};

    ghost Value = { OpenFinder C.Key };

    ghost view = { λ f. record { serial = f.serial; row = f.row; key = f.key; stack = f.stack } };
}

impl<C: KeyClass> Finder<C> {
    /// A finder of the row with that number and key, beginning at a page when the number of the tree's latest posting
    /// was `counter`. It needs no memory.
    pub fn new(alloc: Global, serial: u64, row: u32, key: C::Key, page: u32, counter: u32) -> Self
        ensures { result ≡ begun_finder serial row key page counter }
    {
        Finder {
            serial,
            row,
            key,
            stack: Stack::at_page(alloc, page, counter),
        }
    }

    pub fn serial(&self) -> u64
        ensures { result ≡ self.now.serial }
    {
        self.serial
    }

    /// The number of the row that it looks for.
    pub fn row(&self) -> u32
        ensures { result ≡ self.now.row }
    {
        self.row
    }

    /// Whether nothing is left to be visited.
    pub fn is_over(&self) -> bool
        ensures { IsTrue result ↔ (self.now.stack ≡ []) }
    {
        self.stack.is_empty()
    }

    /// Visits the next page. If that holds the row, nothing changes; otherwise goes on to the page's right link and
    /// to the children whose bounds cover the row's key.
    ///
    /// # Errors
    /// Memory ran out for a page to push, and the page doesn't hold the row; the finder is unchanged.
    pub fn seek(&mut self, table: &PageTable<C::Key>) -> Result<Sought, AllocError>
        requires stack { IsStack table.now self.old.stack }
        requires unfinished { ¬ (self.old.stack ≡ []) }
        ensures sought { SeeksItsRow C.rules.is_cover table.now self.old result self.new }
        ensures refused { OnErr result (self.new ≡ self.old) }
        ensures refused_further { OnErr result (is_at_row table.now self.old ≡ false) }
        ensures memory { OnErr result (FinderPushes C.rules.is_cover table.now self.old) }
        ensures seeking { KeepsSeeking C.rules.is_cover table.now self.old self.new }
        ensures stack { IfSound C.rules.is_cover table.now (IsStack table.now self.new.stack) }
        ensures less_work { FinderLowersWork C.rules.is_cover table.now self.old result self.new }
    {
        let Some(sought) = self.stack.seek::<C>(table, self.key, self.row)? else {
            unreachable!()
        };
        Ok(sought)
    }
}
