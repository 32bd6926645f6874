ghost use Rattle.revisions.specs.Laws.{EntriesStay, KeepsRevision, ItemsGoOn, ItemsKeepUp, ItemsStay, RestoresEntries, StayApart};

/// A theorem, no code: a map that forgets changes up to a revision keeps the revision, the entries of each later
/// revision, and the items of later revisions. Restored with the entries of a revision and changed as the map was since
/// then, a map has the same entries in the same order.
pub fn maps_forget<K>()
    ensures revision { KeepsRevision K }
    ensures entries { EntriesStay K }
    ensures items { ItemsStay K }
    ensures restored { RestoresEntries K }
{}

/// A theorem, no code: the entries that match at a revision, changed by the items up to a later one, are what a find
/// gives then. The items up to a revision and those after it are together the items.
pub fn maps_go_on<K>()
    ensures keeps_up { ItemsKeepUp K }
    ensures apart { StayApart K }
    ensures on { ItemsGoOn K }
{}
