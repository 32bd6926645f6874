ghost use Rattle.page_table.specs.TraversalLaws.{Prunes};

use crate::branch_test::BranchTest;
use crate::key_test::{KeyTest, OneAtom};
use key_class::{KeyClass, Pred};

/// What a search looks for: rows whose keys it accepts, below bounds that it wants.
pub trait PageTest<C: KeyClass>: KeyTest<C> + BranchTest<C> {
    /// Each bound that covers an accepted key is wanted.
    ghost prunes: { (test : Self) → Prunes C.rules.is_cover (Self.accepts test) (Self.wants test) };
}

impl<C: KeyClass> PageTest<C> for OneAtom<C::Atom> {
    ghost prunes = { λ test bound key covers matches. C.lawful.consistent_above_match test.atom bound key covers matches };
}

impl<C: KeyClass> PageTest<C> for Pred<C::Atom> {
    ghost use Rattle.key_class.specs.Queries.{query_of};
    ghost use Rattle.key_class.specs.QueryLaws.{consistent_above_match};

    ghost prunes = { λ query bound key covers matches. consistent_above_match C.rules.is_match C.rules.is_consistent C.rules.is_cover C.lawful.consistent_above_match (query_of query) bound key covers matches };
}
