//! Versions in columns.
ghost use Rattle.std.specs.Prelude.{◌≡◌, nat_eq, not};
ghost use Rattle.key_class.specs.Bits.{bits_of};
ghost use Rattle.row_version.specs.Entries.{lives_at};
ghost use Rattle.row_version.specs.VersionBlocks.{versions_of};

use crate::version::Version;
use key_class::{Block, equal_bits};
use std::simd::prelude::*;

/// Eight versions: their rows, the commits that ended them and their tags have a column each.
#[derive(Clone, Copy)]
pub struct VersionBlock {
    pub rows: [u32; 8],
    // 0 for a row that is live
    pub died: [u32; 8],
    pub tags: [u64; 8],
}

impl Block<Version> for VersionBlock {
    ghost use Rattle.row_version.specs.VersionBlocks.{versions_of};
    ghost use Rattle.std.specs.Prelude.{refl};

    ghost items = { versions_of };

    fn filled(version: Version) -> VersionBlock {
        VersionBlock {
            rows: [version.row; 8],
            died: [version.died; 8],
            tags: [version.tag; 8],
        }
    }

    fn get(&self, place: usize) -> Version {
        Version {
            tag: self.tags[place],
            row: self.rows[place],
            died: self.died[place],
        }
    }

    fn set(&mut self, place: usize, version: Version) {
        self.rows[place] = version.row;
        self.died[place] = version.died;
        self.tags[place] = version.tag;
    }

    fn is_copy_of(&self, other: &VersionBlock) -> bool {
        (self.rows == other.rows) & (self.died == other.died) & (self.tags == other.tags)
    }

    ghost eight = { λ block. refl };
}

impl VersionBlock {
    /// Which of the versions are the row's, as bits; the lowest bit is the first version's.
    pub fn of_row(&self, row: u32) -> u64
        ensures { result ≡ bits_of (λ version. nat_eq version.row row) (versions_of self.now) }
    {
        equal_bits(&self.rows, row)
    }

    /// Which of the versions no scan opened at commit `horizon` or later needs, as bits; the lowest bit is the first
    /// version's.
    pub fn unneeded(&self, horizon: u32) -> u64
        ensures { result ≡ bits_of (λ version. not (lives_at horizon version.died))
            (versions_of self.now) }
    {
        let died = u32x8::from_array(self.died);
        let dead = died.simd_ne(u32x8::splat(0)).to_bitmask();
        let past = died.simd_le(u32x8::splat(horizon)).to_bitmask();
        dead & past
    }
}
