//! Eight sets are tested at once.
ghost use Rattle.std.specs.Prelude.{◌≡◌, ◌&&◌};
ghost use Rattle.std.specs.Simd.Lanes.{Each1};
ghost use Rattle.key_class.specs.Bits.{bits_of};
ghost use Rattle.set_class.specs.Blocks.{sets_of};
ghost use Rattle.set_class.specs.Sets.{is_cover, is_meeting};
ghost use mir.Val.{Fits};
ghost use mir.Syntax.{w64};

use crate::block::SetBlock;
use crate::elements::Elements;
use crate::methods::{lower, upper};
use std::simd::prelude::*;

/// Which of eight keys have an element in common with the operand.
pub fn meeting(keys: &SetBlock, operand: Elements) -> u64
    ensures { result ≡ bits_of (λ key. is_meeting key operand) (sets_of keys.now) }
{
    are_in_range(&keys.lowers);
    are_in_range(&keys.uppers);
    let common_low = u64x8::from_array(keys.lowers) & u64x8::splat(lower(operand));
    let common_high = u64x8::from_array(keys.uppers) & u64x8::splat(upper(operand));
    (common_low | common_high)
        .simd_ne(u64x8::splat(0))
        .to_bitmask()
}

/// Which of eight keys have no element but those of the operand.
pub fn inside(keys: &SetBlock, operand: Elements) -> u64
    ensures { result ≡ bits_of (λ key. is_cover operand key) (sets_of keys.now) }
{
    are_in_range(&keys.lowers);
    are_in_range(&keys.uppers);
    let extra_low = u64x8::from_array(keys.lowers) & !u64x8::splat(lower(operand));
    let extra_high = u64x8::from_array(keys.uppers) & !u64x8::splat(upper(operand));
    (extra_low | extra_high)
        .simd_eq(u64x8::splat(0))
        .to_bitmask()
}

/// Which of eight keys have all elements of the operand.
pub fn holding(keys: &SetBlock, operand: Elements) -> u64
    ensures { result ≡ bits_of (λ key. is_cover key operand) (sets_of keys.now) }
{
    are_in_range(&keys.lowers);
    are_in_range(&keys.uppers);
    let missing_low = !u64x8::from_array(keys.lowers) & u64x8::splat(lower(operand));
    let missing_high = !u64x8::from_array(keys.uppers) & u64x8::splat(upper(operand));
    (missing_low | missing_high)
        .simd_eq(u64x8::splat(0))
        .to_bitmask()
}

/// Which of eight keys have the elements of the operand and no others.
pub fn alike(keys: &SetBlock, operand: Elements) -> u64
    ensures { result
        ≡ bits_of (λ key. is_cover operand key && is_cover key operand) (sets_of keys.now) }
{
    are_in_range(&keys.lowers);
    are_in_range(&keys.uppers);
    let same_low = u64x8::from_array(keys.lowers).simd_eq(u64x8::splat(lower(operand)));
    let same_high = u64x8::from_array(keys.uppers).simd_eq(u64x8::splat(upper(operand)));
    (same_low & same_high).to_bitmask()
}

/// Nothing is left of this call: it tells proofs the numbers' range.
#[inline(always)]
fn are_in_range(numbers: &[u64])
    ensures { Each1 (Fits w64) numbers.now }
{}
