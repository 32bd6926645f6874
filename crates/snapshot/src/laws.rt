ghost use Rattle.snapshot.specs.Snapshots.{SnapshotsGoOn};

/// A theorem, no code: what a client found in a snapshot, followed by the changes after it up to a later commit, is a
/// listing up to that commit.
pub fn snapshots_go_on<K>()
    ensures { SnapshotsGoOn K }
{}
