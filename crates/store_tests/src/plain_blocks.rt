//! Values in blocks of eight, of a class that keeps them in no columns, and versions of rows.
ghost use Rattle.std.specs.Prelude.{nat_le};

use crate::ceilings::{Ceiling, Ceilings};
use blocks::{BlockTest, Blocks};
use interval_class::Interval;
use key_class::{Block, KeyClass, Plain};
use row_version::Entry;
use std::alloc::{AllocError, Global};

/// Passes the bounds that cover a key.
#[derive(Clone, Copy)]
struct CoveringBounds {
    key: Ceiling,
}

impl BlockTest<Ceiling, Plain<Ceiling>> for CoveringBounds {
    ghost passes = { λ test bound. nat_le test.key.number bound.number };

    fn tested(&self, block: &Plain<Ceiling>) -> u64 {
        Ceilings::covering_block(block, self.key)
    }
}

/// Passes the bounds from a number on.
fn from(number: u8) -> CoveringBounds {
    CoveringBounds {
        key: Ceiling { number },
    }
}

/// The numbers from 0 up to `count`.
fn ceilings(alloc: Global, count: u8) -> Result<Blocks<Ceiling, Plain<Ceiling>>, AllocError> {
    let mut ceilings = Blocks::new(alloc);
    for number in 0..count {
        ceilings.push(Ceiling { number })?;
    }
    Ok(ceilings)
}

/// The place of the first of 20 numbers, from a place on, that is at least a number; and whether there is any.
fn first_from(
    ceilings: &Blocks<Ceiling, Plain<Ceiling>>,
    place: usize,
    number: u8,
) -> (Option<usize>, bool) {
    let test = from(number);
    (ceilings.first_from(place, &test), ceilings.any(&test))
}

/// The sum of the numbers.
fn sum(ceilings: &Blocks<Ceiling, Plain<Ceiling>>) -> u64 {
    let mut sum: u64 = 0;
    for place in 0..ceilings.len() {
        sum = sum.saturating_add(u64::from(ceilings.get(place).number));
    }
    sum
}

/// Halves the numbers from `number` on.
fn halve_from(ceilings: &mut Blocks<Ceiling, Plain<Ceiling>>, number: u8) {
    ceilings.rewrite_where(
        &from(number),
        |ceiling| Ceiling {
            number: ceiling.number / 2,
        },
    );
}

/// Removes the numbers from `number` on.
fn remove_from(ceilings: &mut Blocks<Ceiling, Plain<Ceiling>>, number: u8) {
    ceilings.remove_where(&from(number));
}

#[test]
fn blocks_have_keys_without_columns(rt: HostRuntime) -> Result<(), AllocError> {
    let mut ceilings = ceilings(rt.alloc(), 20)?;
    for (place, number, first, any) in [
        (0, 17, Some(17), true),
        (9, 3, Some(9), true),
        (20, 0, None, true),
        (0, 20, None, false),
    ] {
        assert!(rt;
            first_from(&ceilings, place, number) == (first, any),
            "{place} {number}"
        );
    }
    // Blocks without columns are copies of none.
    assert!(rt; !ceilings.is_copy_of(&ceilings));
    // 15 to 19 become 7, 8, 8, 9 and 9; then 9 to 14 go, and both nines.
    halve_from(&mut ceilings, 15);
    remove_from(&mut ceilings, 9);
    assert!(rt; ceilings.len() == 12 && sum(&ceilings) == 59);
    Ok(())
}

#[test]
fn a_key_adds_to_eight_bounds(rt: HostRuntime) {
    let mut bounds = Plain::filled(Ceiling { number: 3 });
    bounds.set(2, Ceiling { number: 9 });
    bounds.set(7, Ceiling { number: 4 });
    assert!(rt; Ceilings::gains_block(&bounds, Ceiling { number: 5 }) == [2, 2, 0, 2, 2, 2, 2, 1]);
}

/// Whether an entry of row 5, which commit 8 deleted, is visible at a commit, and needed at that horizon.
fn is_seen_and_needed(commit: u32) -> (bool, bool) {
    let dead = Entry::new(Ceiling { number: 0 }, 5, 9).died_at(8);
    (dead.visible_at(commit), dead.is_needed(commit))
}

#[test]
fn a_dead_row_is_visible_before_its_end(rt: HostRuntime) {
    for (commit, wanted) in [
        (4, (false, true)),
        (5, (true, true)),
        (7, (true, true)),
        (8, (false, false)),
    ] {
        assert!(rt; is_seen_and_needed(commit) == wanted, "{commit}");
    }
    assert!(rt; size_of::<Entry<Interval>>() == 32);
}
