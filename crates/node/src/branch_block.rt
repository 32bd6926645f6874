use crate::branch::Branch;
use key_class::Block;

/// Eight branches of an inner page: their keys as `B` keeps them, then their children.
#[derive(Clone, Copy)]
pub struct BranchBlock<B> {
    pub keys: B,
    pub children: [u32; 8],
}

impl<K: Copy, B: Block<K>> Block<Branch<K>> for BranchBlock<B> {
    ghost use Rattle.node.specs.EntryBlocks.{branches_in};

    ghost items = { λ b. branches_in (B.items b.keys) b.children };

    fn filled(branch: Branch<K>) -> BranchBlock<B> {
        BranchBlock {
            keys: B::filled(branch.key),
            children: [branch.child; 8],
        }
    }

    fn get(&self, place: usize) -> Branch<K> {
        Branch {
            key: self.keys.get(place),
            child: self.children[place],
        }
    }

    fn set(&mut self, place: usize, branch: Branch<K>) {
        self.keys.set(place, branch.key);
        self.children[place] = branch.child;
    }

    fn is_copy_of(&self, other: &BranchBlock<B>) -> bool {
        self.keys.is_copy_of(&other.keys) && self.children == other.children
    }

    ghost use Rattle.node.specs.EntryBlocks.{eight_branches};

    ghost eight = { λ b. eight_branches (B.items b.keys) b.children (B.eight b.keys) };
}
