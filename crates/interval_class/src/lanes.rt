//! Tests of eight intervals at once.
ghost use Rattle.std.specs.Prelude.{◌≡◌, ◌&&◌, int_le};
ghost use Rattle.std.specs.Simd.Lanes.{Each1};
ghost use Rattle.key_class.specs.Bits.{bits_of};
ghost use Rattle.interval_class.specs.Blocks.{intervals_of};
ghost use mir.Val.{SFits};
ghost use mir.Syntax.{w64};

use crate::block::IntervalBlock;
use std::simd::prelude::*;

/// Which of eight keys begin at `most` or before it, and end at `least` or after it.
pub fn reaching(keys: &IntervalBlock, most: &i64, least: &i64) -> u64
    ensures { result
        ≡ bits_of (λ key. int_le key.lo most.now && int_le least.now key.hi) (intervals_of keys.now) }
{
    are_in_range(&keys.lows);
    are_in_range(&keys.highs);
    let begin = i64x8::from_array(keys.lows).simd_le(i64x8::splat(*most));
    let reach = i64x8::from_array(keys.highs).simd_ge(i64x8::splat(*least));
    (begin & reach).to_bitmask()
}

/// Which of eight keys begin at `least` or after it, and end at `most` or before it.
pub fn between(keys: &IntervalBlock, least: &i64, most: &i64) -> u64
    ensures { result
        ≡ bits_of (λ key. int_le least.now key.lo && int_le key.hi most.now) (intervals_of keys.now) }
{
    are_in_range(&keys.lows);
    are_in_range(&keys.highs);
    let begin = i64x8::from_array(keys.lows).simd_ge(i64x8::splat(*least));
    let end = i64x8::from_array(keys.highs).simd_le(i64x8::splat(*most));
    (begin & end).to_bitmask()
}

/// A proof hint, which costs nothing when it runs: each number is in its type's range.
#[inline(always)]
fn are_in_range(numbers: &[i64])
    ensures { Each1 (SFits w64) numbers.now }
{
    for number in numbers {
        is_in_range(number);
    }
}

/// A proof hint, which costs nothing when it runs: the number is in its type's range.
#[inline(always)]
fn is_in_range(number: &i64)
    ensures { SFits w64 number.now }
{
    let _value = *number;
}
