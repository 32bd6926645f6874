ghost use Rattle.std.specs.Prelude.{◌≡◌, Bool};
ghost use Rattle.key_class.specs.Bits.{bits_of};
ghost use Rattle.key_class.specs.Queries.{query_of, consistent_with_query};

use key_class::{Block, Columned, KeyClass, Pred, eight_bits};

/// Which branches a traversal follows, by their bounds.
pub trait BranchTest<C: KeyClass> {
    ghost wants: { Self → C.Key → Bool };

    fn is_wanted(&self, bound: C::Key) -> bool
        ensures { result ≡ wants self.now bound };

    /// Which of eight bounds are wanted, as bits; the lowest bit is the first bound's.
    fn wanted_block(&self, bounds: &<C::Key as Columned>::Block) -> u64
        ensures { result ≡ bits_of (wants self.now) (C.Key.Block.items bounds.now) }
    {
        eight_bits([
            self.is_wanted(bounds.get(0)),
            self.is_wanted(bounds.get(1)),
            self.is_wanted(bounds.get(2)),
            self.is_wanted(bounds.get(3)),
            self.is_wanted(bounds.get(4)),
            self.is_wanted(bounds.get(5)),
            self.is_wanted(bounds.get(6)),
            self.is_wanted(bounds.get(7)),
        ])
    }
}

/// Follows the branches whose bounds cover a key.
#[derive(Clone, Copy)]
pub struct Covering<K> {
    pub key: K,
}

impl<C: KeyClass> BranchTest<C> for Covering<C::Key> {
    ghost wants = { λ test bound. C.rules.is_cover bound test.key };

    fn is_wanted(&self, bound: C::Key) -> bool {
        C::covers(bound, self.key)
    }

    fn wanted_block(&self, bounds: &<C::Key as Columned>::Block) -> u64 {
        C::covering_block(bounds, self.key)
    }
}

impl<C: KeyClass> BranchTest<C> for Pred<C::Atom> {
    ghost wants = { λ query bound. consistent_with_query C.rules.is_consistent (query_of query) bound };

    fn is_wanted(&self, bound: C::Key) -> bool {
        self.consistent::<C>(bound)
    }
}
