//! Which entries of a page a search takes, as bits: eight are tested at once.
ghost use Rattle.std.specs.Prelude.{◌≡◌, ◌≤◌, filter, length};
ghost use Rattle.key_class.specs.Bits.{bits_of};
ghost use Rattle.row_version.specs.VersionBlocks.{versions_of};
ghost use Rattle.search.specs.Live.{is_found, is_live};
ghost use Rattle.search.specs.Picks.{HasBitsFor, picked};

use crate::branch_test::BranchTest;
use crate::key_test::KeyTest;
use blocks::BlockTest;
use key_class::{Columned, KeyClass, equal_bits};
use node::{Branch, BranchBlock, Branches, RowBlock, Rows};
use row_version::{Entry, VersionBlock};
use std::marker::PhantomData;

/// Which of eight versions are those of live rows, as bits; the lowest bit is the first version's.
fn live_bits(versions: &VersionBlock) -> u64
    ensures { result ≡ bits_of (λ version. is_live version.died) (versions_of versions.now) }
{
    equal_bits(&versions.died, 0)
}

/// A test of rows: whether they are live and their keys are accepted.
#[derive(Drop)]
struct Found<'a, C, T> {
    test: &'a T,
    of: PhantomData<C>,
}

impl<'a, C: KeyClass, T: KeyTest<C>> BlockTest<Entry<C::Key>, RowBlock<<C::Key as Columned>::Block>>
    for Found<'a, C, T> {
    ghost passes = { λ by entry. is_found (T.accepts by.test.now) entry };

    fn tested(&self, block: &RowBlock<<C::Key as Columned>::Block>) -> u64 {
        let accepted = self.test.accepted_block(&block.keys);
        // Most blocks have no accepted key, so that their versions are not read.
        if accepted == 0 {
            return 0;
        }
        live_bits(&block.versions) & accepted
    }
}

/// A test of branches by their bounds.
#[derive(Drop)]
pub struct ByBounds<'a, C, T> {
    pub test: &'a T,
    pub of: PhantomData<C>,
}

impl<'a, C: KeyClass, T: BranchTest<C>> BlockTest<
    Branch<C::Key>,
    BranchBlock<<C::Key as Columned>::Block>,
> for ByBounds<'a, C, T> {
    ghost passes = { λ by branch. T.wants by.test.now branch.key };

    fn tested(&self, block: &BranchBlock<<C::Key as Columned>::Block>) -> u64 {
        self.test.wanted_block(&block.keys)
    }
}

/// The live rows whose keys a test accepts, as bits; the lowest bit is the first row's.
pub(crate) fn found_bits<C: KeyClass, T: KeyTest<C>>(rows: &Rows<C::Key>, test: &T) -> u64
    requires few { length rows.now ≤ 64 }
    ensures within { HasBitsFor rows.now result }
    ensures found { picked result rows.now ≡ filter (is_found (T.accepts test.now)) rows.now }
{
    rows.bits(&Found::<C, T> {
        test,
        of: PhantomData,
    })
}

/// The branches whose bounds a test wants, as bits; the lowest bit is the first branch's.
pub fn wanted_bits<C: KeyClass, T: BranchTest<C>>(branches: &Branches<C::Key>, test: &T) -> u64
    requires few { length branches.now ≤ 64 }
    ensures within { HasBitsFor branches.now result }
    ensures wanted { picked result branches.now
        ≡ filter (λ branch. T.wants test.now branch.key) branches.now }
{
    branches.bits(&ByBounds::<C, T> {
        test,
        of: PhantomData,
    })
}
