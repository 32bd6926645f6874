ghost use Rattle.change_list.specs.Resuming.{BeginningsGoOn, ListingsGoOn, ListingsStay};

/// A theorem, no code: a client can go on from a mark. What it was given up to commit n is a listing, and followed by
/// the changes after n, which a cursor that follows n gives, it is a listing up to a later commit.
pub fn listings_go_on<K>()
    ensures whole { ListingsGoOn K }
    ensures begun { BeginningsGoOn K }
    ensures stays { ListingsStay K }
{}
