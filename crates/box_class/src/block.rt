//! Boxes in columns.
ghost use Rattle.std.specs.Prelude.{ℕ, ◌≤ℤ◌, pos, slice_index_or};

use crate::boxes::BoxKey;
use key_class::{Block, Columned};

/// Eight boxes: each of their four ends has a column.
#[derive(Clone, Copy)]
pub struct BoxBlock {
    pub lefts: [i32; 8],
    pub lows: [i32; 8],
    pub rights: [i32; 8],
    pub highs: [i32; 8],
    pub ghost x_ordered: { (k : ℕ) → slice_index_or lefts k (pos 0) ≤ℤ slice_index_or rights k (pos 0) },
    pub ghost y_ordered: { (k : ℕ) → slice_index_or lows k (pos 0) ≤ℤ slice_index_or highs k (pos 0) },
}

impl Block<BoxKey> for BoxBlock {
    ghost use Rattle.box_class.specs.Blocks.{boxes_of};
    ghost use Rattle.std.specs.Prelude.{refl};

    ghost items = { boxes_of };

    fn filled(item: BoxKey) -> BoxBlock {
        BoxBlock {
            lefts: [item.x1; 8],
            lows: [item.y1; 8],
            rights: [item.x2; 8],
            highs: [item.y2; 8],
        }
    }

    fn get(&self, place: usize) -> BoxKey {
        BoxKey {
            x1: self.lefts[place],
            y1: self.lows[place],
            x2: self.rights[place],
            y2: self.highs[place],
        }
    }

    fn set(&mut self, place: usize, item: BoxKey) {
        self.lefts[place] = item.x1;
        self.lows[place] = item.y1;
        self.rights[place] = item.x2;
        self.highs[place] = item.y2;
    }

    fn is_copy_of(&self, other: &BoxBlock) -> bool {
        (self.lefts == other.lefts)
            & (self.lows == other.lows)
            & (self.rights == other.rights)
            & (self.highs == other.highs)
    }

    ghost eight = { λ block. refl };
}

impl Columned for BoxKey {
    type Block = BoxBlock;
}
