ghost use Rattle.feed.specs.GoingOn.{ChangesGoOn};
ghost use Rattle.feed.specs.Reaches.{SatisfiedOverlap};

use crate::reach::Reach;

/// A theorem, no code: what one call of a feed gives to a subscription, followed by what a later call gives over a
/// list that begins with the first call's, is together the changes of its query.
pub fn changes_go_on<K>()
    ensures { ChangesGoOn K }
{}

/// A theorem, no code: a key that satisfies a query overlaps one of the keys under which the query is looked for.
pub fn matching_keys_are_reached<C: Reach>()
    ensures { SatisfiedOverlap C.rules.is_match C.reach_of C.overlap_with C.rules.size_of }
{}
