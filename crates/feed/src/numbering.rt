ghost use Rattle.std.specs.Prelude.{◌≡◌, ◌<◌, ◌≤◌, length};
ghost use Rattle.feed.specs.Numberings.{MayNumber, commit_of, last_revision};

use key_class::KeyClass;
use snapshot::Snapshot;

/// How the commits of a store are numbered as revisions: its first `begun` commits make the rows that there were at
/// revision `oldest`, and each later commit makes the next revision.
#[derive(Clone, Copy, Debug, PartialEq, Eq)]
pub struct Numbering {
    /// The oldest revision after which every change is a commit of the store.
    pub oldest: u64,
    /// The number of first commits, which are no changes.
    pub begun: u64,
}

impl Numbering {
    /// The last revision of a snapshot.
    pub(crate) fn last_revision<C: KeyClass>(self, snapshot: &Snapshot<C>) -> u64
        requires { MayNumber self snapshot.now }
        ensures { result ≡ last_revision self snapshot.now }
    {
        self.oldest + (snapshot.commits() - self.begun)
    }

    /// The place of the commit of a snapshot that makes the next revision after one.
    pub(crate) fn place_after<C: KeyClass>(self, snapshot: &Snapshot<C>, revision: u64) -> u64
        requires numbered { MayNumber self snapshot.now }
        requires known { self.oldest ≤ revision }
        requires within { revision < last_revision self snapshot.now }
        ensures is { result ≡ commit_of self revision }
        ensures within { result < length snapshot.now }
    {
        // brings into view that there is such a commit, so that its place is in range
        let _count = snapshot.commits();
        self.begun + (revision - self.oldest)
    }
}
