ghost use Rattle.std.specs.Prelude.{◌≡◌, Bool};
ghost use Rattle.key_class.specs.Bits.{bits_of};

use key_class::Block;

/// A test of values, made of eight at once.
pub trait BlockTest<T: Copy, B: Block<T>> {
    ghost passes: { Self → T → Bool };

    /// Which of eight values pass, as bits; the lowest bit is the first value's.
    fn tested(&self, block: &B) -> u64
        ensures { result ≡ bits_of (passes self.now) (B.items block.now) };
}
