use key_class::Block;
use row_version::{Entry, VersionBlock};

/// Eight entries of a leaf: their keys as `B` keeps them, then the rest of each.
#[derive(Clone, Copy)]
pub struct RowBlock<B> {
    pub keys: B,
    pub versions: VersionBlock,
}

impl<K: Copy, B: Block<K>> Block<Entry<K>> for RowBlock<B> {
    ghost use Rattle.node.specs.EntryBlocks.{entries_in};
    ghost use Rattle.row_version.specs.VersionBlocks.{versions_of};

    ghost items = { λ b. entries_in (B.items b.keys) (versions_of b.versions) };

    fn filled(entry: Entry<K>) -> RowBlock<B> {
        RowBlock {
            keys: B::filled(entry.key()),
            versions: VersionBlock::filled(entry.version()),
        }
    }

    fn get(&self, place: usize) -> Entry<K> {
        Entry::of(self.keys.get(place), self.versions.get(place))
    }

    fn set(&mut self, place: usize, entry: Entry<K>) {
        self.keys.set(place, entry.key());
        self.versions.set(place, entry.version());
    }

    fn is_copy_of(&self, other: &RowBlock<B>) -> bool {
        self.keys.is_copy_of(&other.keys) && self.versions.is_copy_of(&other.versions)
    }

    ghost use Rattle.node.specs.EntryBlocks.{eight_entries};

    ghost eight = { λ b. eight_entries (B.items b.keys) b.versions (B.eight b.keys) };
}
