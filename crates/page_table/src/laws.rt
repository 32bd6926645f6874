ghost use Rattle.page_table.specs.Trees.{Tree};
ghost use Rattle.page_table.specs.Keeping.{KeepsRows};
ghost use Rattle.page_table.specs.TraversalLaws.{IsChain, PagesFollowChains, RowsFollowChains, MeetsEachPageOnce, CoversRowsBelow, VisitsLoseNothing, VisitsLowerWork, VisitsKeepStacks, StacksSurvive, LeavesChangeAlone, EachSound, LeafChangesKeepSound};

use key_class::KeyClass;

/// A theorem, no code: which pages and rows are under a page and a memo in a sound tree.
pub fn traversals_follow_chains<C: KeyClass>()
    ensures chain { EachSound C.rules.is_cover IsChain }
    ensures pages { EachSound C.rules.is_cover PagesFollowChains }
    ensures rows { EachSound C.rules.is_cover RowsFollowChains }
    ensures once { EachSound C.rules.is_cover MeetsEachPageOnce }
{}

/// A theorem, no code: what is left to be visited after a visit of a page in a sound tree.
pub fn visits_lose_nothing<C: KeyClass>()
    ensures pruned { EachSound C.rules.is_cover (CoversRowsBelow C.rules.is_cover) }
    ensures rows { EachSound C.rules.is_cover (VisitsLoseNothing C.rules.is_cover) }
    ensures work { EachSound C.rules.is_cover VisitsLowerWork }
    ensures stack { EachSound C.rules.is_cover VisitsKeepStacks }
{}

/// A theorem, no code: what a step leaves to a traversal that is under way.
pub fn traversals_survive_steps<C: KeyClass>()
    ensures stacks { (t t' : Tree C.Key) → KeepsRows t t' → StacksSurvive t t' }
    ensures leaves { EachSound C.rules.is_cover LeavesChangeAlone }
    ensures sound { LeafChangesKeepSound C.rules.is_cover }
{}
