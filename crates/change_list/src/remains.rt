//! Lists of commits that are dropped piece by piece.
ghost use Rattle.std.specs.Prelude.{◌≡◌, ◌+◌, ◌<◌, ◌≤◌, true, false, nat_lt};

use crate::groups::{Group, Segment};
use crate::recorded::Recorded;
use crate::shared_list::SharedList;
use segmented::{SegmentRemains, SegmentedVec};
use std::marker::Model;

/// What is left of a list of commits that is dropped piece by piece. As contracts see it, it is the greatest number
/// of pieces.
#[derive(Drop)]
pub struct CommitRemains<K> {
    /// Groups of 256 segments.
    groups: Vec<Group<Recorded<K>>>,
    /// Segments of 256 commits, of a group that was taken apart.
    segments: Vec<Segment<Recorded<K>>>,
    /// Flags, one for each commit.
    ended: SegmentRemains<bool>,
}

impl<K> Model for CommitRemains<K> {
    ghost use Rattle.std.specs.Prelude.{◌≡◌, ℕ, ◌+◌, ◌*◌, length, All};

    ghost Value = { ℕ };

    ghost view = { λ r. 257 * length r.groups.items + length r.segments.items + r.ended };

    ghost invariant = { λ r. All (λ group. length group ≡ 256) r.groups.items };
}

impl<K: Drop> CommitRemains<K> {
    pub(crate) fn new(
        commits: SharedList<Recorded<K>>,
        ended: SegmentedVec<bool>,
    ) -> CommitRemains<K> {
        let (groups, segments) = commits.into_groups();
        CommitRemains {
            groups,
            segments,
            ended: ended.into_remains(),
        }
    }

    /// Drops a piece, at most 256 commits or 4,096 flags, and returns whether there was one. Commits that a snapshot
    /// shares stay.
    pub fn shed(&mut self) -> bool
        ensures shed { result ≡ nat_lt 0 self.old }
        ensures fewer { result ≡ true → self.new < self.old }
        ensures few { self.old ≤ self.new + 257 }
        ensures unchanged { result ≡ false → self.new ≡ self.old }
    {
        if self.segments.pop().is_some() || self.ended.shed() {
            return true;
        }
        let Some(group) = self.groups.pop() else {
            return false;
        };
        if let Some(segments) = group.into_items() {
            self.segments = segments;
        }
        true
    }
}
