//! Generations that were replaced.
use ids::IdRemains;
use key_class::Columned;
use segmented::SegmentRemains;
use store::Remains;

/// How many pieces are dropped at once.
const AT_ONCE: u32 = 4;

/// What is left of a generation that was replaced, and of the flags of its rows, which is dropped piece by piece.
#[derive(Drop)]
pub(crate) struct Retired<K: Columned> {
    pub(crate) store: Remains<K>,
    pub(crate) numbers: IdRemains,
    pub(crate) flags: SegmentRemains<bool>,
}

impl<K: Columned> Retired<K> {
    /// Drops some pieces, and returns whether some may be left.
    pub(crate) fn shed_some(&mut self) -> bool {
        for _ in 0..AT_ONCE {
            if !self.shed() {
                return false;
            }
        }
        true
    }

    /// Drops a piece, at most 16 pages, 256 commits, 4,096 flags or one hash map, and returns whether there was one.
    fn shed(&mut self) -> bool {
        self.store.shed() || self.numbers.shed() || self.flags.shed()
    }
}
