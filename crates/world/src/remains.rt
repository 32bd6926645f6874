//! Worlds that are dropped piece by piece.
ghost use Rattle.std.specs.Prelude.{◌≡◌, ◌+◌, ◌<◌, ◌≤◌, true, false, nat_lt};

use change_list::CommitRemains;
use key_class::Columned;
use page_table::PageRemains;
use segmented::SegmentRemains;
use std::marker::Model;

/// What is left of a world that is dropped piece by piece. As contracts see it, it is the greatest number of pieces.
#[derive(Drop)]
pub struct Remains<K: Columned> {
    pub(crate) pages: PageRemains<K>,
    pub(crate) commits: CommitRemains<K>,
    pub(crate) hints: SegmentRemains<u16>,
}

impl<K: Columned> Model for Remains<K> {
    ghost use Rattle.std.specs.Prelude.{ℕ, ◌+◌};

    ghost Value = { ℕ };

    ghost view = { λ r. r.pages + r.commits + r.hints };
}

impl<K: Columned> Remains<K> {
    /// Drops a piece, at most 16 pages, 256 commits or 4,096 numbers beside them, and returns whether there was one. What
    /// a snapshot shares stays.
    pub fn shed(&mut self) -> bool
        ensures shed { result ≡ nat_lt 0 self.old }
        ensures fewer { result ≡ true → self.new < self.old }
        ensures few { self.old ≤ self.new + 257 }
        ensures unchanged { result ≡ false → self.new ≡ self.old }
    {
        self.pages.shed() || self.commits.shed() || self.hints.shed()
    }
}
