ghost use Rattle.std.specs.Prelude.{[], ℕ, List, IsPermutation};
ghost use Rattle.change_list.specs.declared.item.Row.{Row};
ghost use Rattle.page_table.specs.Stacks.{IsStack, root_stack};
ghost use Rattle.page_table.specs.Trees.{Tree, new_tree};
ghost use Rattle.page_table.specs.Weights.{Same};
ghost use Rattle.scan.specs.Agreement.{Agrees};
ghost use Rattle.scan.specs.Finding.{IsFinder};
ghost use Rattle.scan.specs.ScanLaws.{PlacesLeaveScans, MovesKeepEntries, PlacesLeaveFinders, FindersBegin, SweepsLeaveFinders, MovesLeaveScans, SweepsKeepEntries, SweepsLeaveScans, BurialsKeepEntries, RowMovesKeepEntries, MovesLeaveFinders, BurialsLeaveScans, BurialsLeaveFinders, PlacesKeepEntries, ScansFindSnapshots};
ghost use Rattle.page_table.specs.TraversalLaws.{EachSound};

use key_class::KeyClass;

/// A theorem, no code: the entries of a sound tree agree with the commits after every step.
pub fn entries_follow_commits<C: KeyClass>()
    ensures new { Agrees (new_tree {K = C.Key}) [] }
    ensures moved { MovesKeepEntries C.Key }
    ensures placed { PlacesKeepEntries C.rules.is_cover }
    ensures buried { BurialsKeepEntries C.rules.is_cover }
    ensures row_moved { RowMovesKeepEntries C.rules.is_cover }
    ensures swept { SweepsKeepEntries C.rules.is_cover }
{}

/// A theorem, no code: a scan that opens at the latest commit has its snapshot to find.
pub fn scans_begin_with_snapshots<C: KeyClass>()
    ensures stack { EachSound C.rules.is_cover (λ t. IsStack t (root_stack t.counter)) }
    ensures rows { ScansFindSnapshots C.rules.is_cover }
    ensures arranged { (xs ys : List (Row C.Key)) → Same xs ys → IsPermutation xs ys }
{}

/// A theorem, no code: which steps leave a scan what it still has to find.
pub fn scans_survive_steps<C: KeyClass>()
    ensures moved { MovesLeaveScans C.Key }
    ensures placed { PlacesLeaveScans C.rules.is_cover }
    ensures buried { BurialsLeaveScans C.rules.is_cover }
    ensures swept { SweepsLeaveScans C.rules.is_cover }
{}

/// A theorem, no code: how a finder of a live row begins, and which steps it survives.
pub fn finders_survive_steps<C: KeyClass>()
    ensures unfinished { (t : Tree C.Key) (row : ℕ) → ¬ IsFinder row t [] }
    ensures begun { FindersBegin C.rules.is_cover }
    ensures moved { MovesLeaveFinders C.Key }
    ensures placed { PlacesLeaveFinders C.rules.is_cover }
    ensures buried { BurialsLeaveFinders C.rules.is_cover }
    ensures swept { SweepsLeaveFinders C.rules.is_cover }
{}
