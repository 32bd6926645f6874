use rand_core::Rng;
use rand_pcg::Pcg32;

/// How many random pages of each class are split.
pub const PAGES: usize = 20_000;

/// A source of random pages.
#[derive(Drop)]
pub struct Source {
    generator: Pcg32,
}

/// What the keys of a random page have in common.
#[derive(Clone, Copy)]
pub struct Shape {
    /// How many keys there are.
    pub count: u64,
    /// The least number of entries for a side.
    pub least: usize,
    /// The start of the range of their numbers.
    pub start: u64,
    /// The bits in which their numbers differ.
    pub mask: u64,
    /// The bits in which the two ends of a key differ, where they are near to each other.
    pub near: Option<u64>,
    /// One of this many keys is a single point; none is if this is 0.
    pub points: u64,
    /// One of this many keys repeats an earlier one.
    pub repeats: u64,
}

impl Source {
    pub fn new(seed: u64) -> Source {
        Source {
            generator: Pcg32::new(seed, 0),
        }
    }

    pub fn number(&mut self) -> u64 {
        self.generator.next_u64()
    }

    pub fn below(&mut self, bound: u64) -> u64 {
        self.number().checked_rem(bound).unwrap_or(0)
    }

    /// True once in `count` times on average; never if `count` is 0.
    pub fn is_one_of(&mut self, count: u64) -> bool {
        count > 0 && self.below(count) == 0
    }

    /// The lowest bits of a number, at most `most` of them.
    fn low_bits(&mut self, most: u64) -> u64 {
        ones(self.below(most.saturating_add(1)))
    }

    /// A start for numbers that differ in these bits, within signed numbers of so many bits: 0, the least number, the
    /// number for which they end at the greatest, or any.
    fn start(&mut self, mask: u64, bits: u64) -> u64 {
        let greatest = ones(bits.saturating_sub(1));
        match self.below(4) {
            0 => 0,
            1 => greatest.wrapping_add(1),
            2 => greatest.wrapping_sub(mask),
            _ => self.number(),
        }
    }

    fn near(&mut self, bits: u64) -> Option<u64> {
        match self.below(2) {
            0 => None,
            _ => Some(self.low_bits(bits.saturating_sub(1))),
        }
    }

    /// A shape for a page of 2 to 64 keys with numbers of so many bits, close together or far apart, some of them
    /// points or repeated.
    pub fn shape(&mut self, bits: u64) -> Shape {
        let most = if self.is_one_of(2) { 32 } else { 4 };
        let least = self.below(most).saturating_add(1);
        let fewest = least.saturating_mul(2);
        let further = self.below(65u64.saturating_sub(fewest));
        let mask = self.low_bits(bits);
        Shape {
            count: fewest.saturating_add(further),
            least: least as usize,
            start: self.start(mask, bits),
            mask,
            near: self.near(bits),
            points: self.below(6),
            repeats: self.below(6),
        }
    }

    /// One of the keys so far, if one is to be repeated.
    pub fn repeated<K: Copy>(&mut self, shape: Shape, keys: &[K]) -> Option<K> {
        if !self.is_one_of(shape.repeats) {
            return None;
        }
        let place = self.below(keys.len() as u64) as usize;
        keys.get(place).copied()
    }
}

/// A number whose lowest `count` bits are set.
fn ones(count: u64) -> u64 {
    let mut bits = 0;
    for _ in 0..count {
        bits = u64::wrapping_mul(bits, 2).wrapping_add(1);
    }
    bits
}
