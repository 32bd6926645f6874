//! Sets in columns.
use crate::elements::Elements;
use crate::methods::{lower, upper};
use key_class::{Block, Columned};

/// Eight sets: the lower halves of their masks are in one column and the upper halves in another.
#[derive(Clone, Copy)]
pub struct SetBlock {
    pub lowers: [u64; 8],
    pub uppers: [u64; 8],
}

impl Block<Elements> for SetBlock {
    ghost use Rattle.set_class.specs.Blocks.{sets_of};
    ghost use Rattle.std.specs.Prelude.{refl};

    ghost items = { sets_of };

    fn filled(item: Elements) -> SetBlock {
        SetBlock {
            lowers: [lower(item); 8],
            uppers: [upper(item); 8],
        }
    }

    fn get(&self, place: usize) -> Elements {
        let upper = u128::from(self.uppers[place]);
        let lower = u128::from(self.lowers[place]);
        Elements {
            mask: upper * (1 << 64) + lower,
        }
    }

    fn set(&mut self, place: usize, item: Elements) {
        self.lowers[place] = lower(item);
        self.uppers[place] = upper(item);
    }

    fn is_copy_of(&self, other: &SetBlock) -> bool {
        (self.lowers == other.lowers) & (self.uppers == other.uppers)
    }

    ghost eight = { λ block. refl };
}

impl Columned for Elements {
    type Block = SetBlock;
}
