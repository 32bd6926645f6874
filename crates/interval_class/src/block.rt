//! Intervals in columns.
ghost use Rattle.std.specs.Prelude.{ℕ, ◌≤ℤ◌, pos, slice_index_or};

use crate::interval::Interval;
use key_class::{Block, Columned};

/// Eight intervals: their lower ends are in one column and their upper ends in another.
#[derive(Clone, Copy)]
pub struct IntervalBlock {
    pub lows: [i64; 8],
    pub highs: [i64; 8],
    pub ghost ordered: { (k : ℕ) → slice_index_or lows k (pos 0) ≤ℤ slice_index_or highs k (pos 0) },
}

impl Block<Interval> for IntervalBlock {
    ghost use Rattle.interval_class.specs.Blocks.{intervals_of};
    ghost use Rattle.std.specs.Prelude.{refl};

    ghost items = { intervals_of };

    fn filled(item: Interval) -> IntervalBlock {
        IntervalBlock {
            lows: [item.lo; 8],
            highs: [item.hi; 8],
        }
    }

    fn get(&self, place: usize) -> Interval {
        Interval {
            lo: self.lows[place],
            hi: self.highs[place],
        }
    }

    fn set(&mut self, place: usize, item: Interval) {
        self.lows[place] = item.lo;
        self.highs[place] = item.hi;
    }

    fn is_copy_of(&self, other: &IntervalBlock) -> bool {
        (self.lows == other.lows) & (self.highs == other.highs)
    }

    ghost eight = { λ block. refl };
}

impl Columned for Interval {
    type Block = IntervalBlock;
}
