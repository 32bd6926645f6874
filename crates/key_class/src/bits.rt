ghost use Rattle.std.specs.Prelude.{◌≡◌, ◌∷◌, [], nat_eq};
ghost use Rattle.std.specs.Simd.Lanes.{mask_l};
ghost use Rattle.key_class.specs.Bits.{bits_of};

use std::simd::prelude::*;

/// Eight answers as the bits of a number; the lowest bit is the first answer.
pub fn eight_bits(answers: [bool; 8]) -> u64
    ensures { result ≡ mask_l answers }
{
    let [first, second, third, fourth, fifth, sixth, seventh, eighth] = answers;
    four_bits(first, second, third, fourth) + 16 * four_bits(fifth, sixth, seventh, eighth)
}

fn four_bits(first: bool, second: bool, third: bool, fourth: bool) -> u64
    ensures { result ≡ mask_l (first ∷ second ∷ third ∷ fourth ∷ []) }
{
    let low = u64::from(first) + 2 * u64::from(second);
    let high = u64::from(third) + 2 * u64::from(fourth);
    low + 4 * high
}

/// Which of eight numbers are equal to another, as bits; the lowest bit is the first number's.
pub fn equal_bits(numbers: &[u32; 8], number: u32) -> u64
    ensures { result ≡ bits_of (λ each. nat_eq each number) numbers.now }
{
    u32x8::from_array(*numbers)
        .simd_eq(u32x8::splat(number))
        .to_bitmask()
}
