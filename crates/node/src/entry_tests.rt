//! Tests of eight entries at once.
ghost use Rattle.std.specs.Prelude.{◌≡◌, nat_eq, not};
ghost use Rattle.key_class.specs.Bits.{bits_of};
ghost use Rattle.row_version.specs.Entries.{is_needed};

use crate::branch::Branch;
use crate::branch_block::BranchBlock;
use crate::row_block::RowBlock;
use blocks::BlockTest;
use key_class::{Block, equal_bits};
use row_version::Entry;

/// Passes the entries of a row.
#[derive(Clone, Copy)]
pub struct OfRow {
    pub row: u32,
}

impl<K: Copy, B: Block<K>> BlockTest<Entry<K>, RowBlock<B>> for OfRow {
    ghost passes = { λ test entry. nat_eq entry.row test.row };

    fn tested(&self, block: &RowBlock<B>) -> u64 {
        block.versions.of_row(self.row)
    }
}

/// Passes the dead rows that no scan opened at commit `horizon` or later needs.
#[derive(Clone, Copy)]
pub struct Unneeded {
    pub horizon: u32,
}

impl<K: Copy, B: Block<K>> BlockTest<Entry<K>, RowBlock<B>> for Unneeded {
    ghost passes = { λ test entry. not (is_needed test.horizon entry) };

    fn tested(&self, block: &RowBlock<B>) -> u64 {
        block.versions.unneeded(self.horizon)
    }
}

/// Passes the branches to a child.
#[derive(Clone, Copy)]
pub struct ToChild {
    pub child: u64,
}

impl<K: Copy, B: Block<K>> BlockTest<Branch<K>, BranchBlock<B>> for ToChild {
    ghost passes = { λ test branch. nat_eq branch.child test.child };

    fn tested(&self, block: &BranchBlock<B>) -> u64 {
        equal_children(&block.children, self.child)
    }
}

/// Which of eight children have a number, as bits; the lowest bit is the first child's.
fn equal_children(children: &[u32; 8], number: u64) -> u64
    ensures { result ≡ bits_of (λ child. nat_eq child number) children.now }
{
    match u32::try_from(number) {
        Ok(number) => equal_bits(children, number),
        // No child has so high a number.
        Err(_) => 0,
    }
}
