//! Tests of eight boxes at once.
ghost use Rattle.std.specs.Prelude.{◌≡◌, ◌&&◌, int_le};
ghost use Rattle.std.specs.Simd.Lanes.{Each1};
ghost use Rattle.key_class.specs.Bits.{bits_of};
ghost use Rattle.box_class.specs.Blocks.{boxes_of};
ghost use mir.Val.{SFits};
ghost use mir.Syntax.{w32};

use crate::block::BoxBlock;
use std::simd::prelude::*;

/// Which of eight keys begin at `x_most` or before it and end at `x_least` or after it, and the same along y.
pub fn reaching(keys: &BoxBlock, x_most: &i32, x_least: &i32, y_most: &i32, y_least: &i32) -> u64
    ensures { result ≡ bits_of (λ key.
        (int_le key.x1 x_most.now && int_le x_least.now key.x2)
        && (int_le key.y1 y_most.now && int_le y_least.now key.y2)) (boxes_of keys.now) }
{
    are_in_range(&keys.lefts);
    are_in_range(&keys.rights);
    are_in_range(&keys.lows);
    are_in_range(&keys.highs);
    let left = i32x8::from_array(keys.lefts).simd_le(i32x8::splat(*x_most));
    let right = i32x8::from_array(keys.rights).simd_ge(i32x8::splat(*x_least));
    let low = i32x8::from_array(keys.lows).simd_le(i32x8::splat(*y_most));
    let high = i32x8::from_array(keys.highs).simd_ge(i32x8::splat(*y_least));
    ((left & right) & (low & high)).to_bitmask()
}

/// Which of eight keys begin at `x_least` or after it and end at `x_most` or before it, and the same along y.
pub fn between(keys: &BoxBlock, x_least: &i32, x_most: &i32, y_least: &i32, y_most: &i32) -> u64
    ensures { result ≡ bits_of (λ key.
        (int_le x_least.now key.x1 && int_le key.x2 x_most.now)
        && (int_le y_least.now key.y1 && int_le key.y2 y_most.now)) (boxes_of keys.now) }
{
    are_in_range(&keys.lefts);
    are_in_range(&keys.rights);
    are_in_range(&keys.lows);
    are_in_range(&keys.highs);
    let left = i32x8::from_array(keys.lefts).simd_ge(i32x8::splat(*x_least));
    let right = i32x8::from_array(keys.rights).simd_le(i32x8::splat(*x_most));
    let low = i32x8::from_array(keys.lows).simd_ge(i32x8::splat(*y_least));
    let high = i32x8::from_array(keys.highs).simd_le(i32x8::splat(*y_most));
    ((left & right) & (low & high)).to_bitmask()
}

/// A proof hint, which costs nothing when it runs: each number is in its type's range.
#[inline(always)]
fn are_in_range(numbers: &[i32])
    ensures { Each1 (SFits w32) numbers.now }
{
    for number in numbers {
        is_in_range(number);
    }
}

/// A proof hint, which costs nothing when it runs: the number is in its type's range.
#[inline(always)]
fn is_in_range(number: &i32)
    ensures { SFits w32 number.now }
{
    let _value = *number;
}
