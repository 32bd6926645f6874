ghost use Rattle.std.specs.Prelude.{◌≡◌, Bool};
ghost use Rattle.key_class.specs.Bits.{bits_of};
ghost use Rattle.key_class.specs.Queries.{query_of, matches_query};

use crate::branch_test::BranchTest;
use key_class::{Block, Columned, KeyClass, Pred, eight_bits};

/// Which rows a scan notes, by their keys.
pub trait KeyTest<C: KeyClass> {
    ghost accepts: { Self → C.Key → Bool };

    fn is_accepted(&self, key: C::Key) -> bool
        ensures { result ≡ accepts self.now key };

    /// Which of eight keys are accepted, as bits; the lowest bit is the first key's.
    fn accepted_block(&self, keys: &<C::Key as Columned>::Block) -> u64
        ensures { result ≡ bits_of (accepts self.now) (C.Key.Block.items keys.now) }
    {
        eight_bits([
            self.is_accepted(keys.get(0)),
            self.is_accepted(keys.get(1)),
            self.is_accepted(keys.get(2)),
            self.is_accepted(keys.get(3)),
            self.is_accepted(keys.get(4)),
            self.is_accepted(keys.get(5)),
            self.is_accepted(keys.get(6)),
            self.is_accepted(keys.get(7)),
        ])
    }
}

/// A query of a single atom, which needs no recursion.
#[derive(Clone, Copy)]
pub struct OneAtom<A> {
    pub atom: A,
}

impl<C: KeyClass> KeyTest<C> for OneAtom<C::Atom> {
    ghost accepts = { λ test key. C.rules.is_match test.atom key };

    fn is_accepted(&self, key: C::Key) -> bool {
        C::matches(&self.atom, key)
    }

    fn accepted_block(&self, keys: &<C::Key as Columned>::Block) -> u64 {
        C::matches_block(&self.atom, keys)
    }
}

impl<C: KeyClass> BranchTest<C> for OneAtom<C::Atom> {
    ghost wants = { λ test bound. C.rules.is_consistent test.atom bound };

    fn is_wanted(&self, bound: C::Key) -> bool {
        C::consistent(&self.atom, bound)
    }

    fn wanted_block(&self, bounds: &<C::Key as Columned>::Block) -> u64 {
        C::consistent_block(&self.atom, bounds)
    }
}

impl<C: KeyClass> KeyTest<C> for Pred<C::Atom> {
    ghost accepts = { λ query key. matches_query C.rules.is_match (query_of query) key };

    fn is_accepted(&self, key: C::Key) -> bool {
        self.matches::<C>(key)
    }
}
