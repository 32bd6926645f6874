ghost use Rattle.std.specs.Prelude.{◌≡◌, length};

use crate::block::Block;
use std::alloc::AllocError;

/// Eight values in a row: the block of keys without columns, which are tested one by one.
#[derive(Copy)]
pub struct Plain<T> {
    pub values: [T; 8],
    pub ghost eight: { length values ≡ 8 },
}

impl<T: Copy> Block<T> for Plain<T> {
    ghost items = { λ block. block.values };

    fn filled(item: T) -> Plain<T> {
        Plain { values: [item; 8] }
    }

    fn get(&self, place: usize) -> T {
        self.values[place]
    }

    fn set(&mut self, place: usize, item: T) {
        self.values[place] = item;
    }

    ghost eight = { λ block. block.eight };
}

impl<T: Copy> Clone for Plain<T> {
    ghost is_clone = { λ block copy. copy ≡ block };

    fn clone(&self) -> Result<Plain<T>, AllocError> {
        Ok(*self)
    }
}
