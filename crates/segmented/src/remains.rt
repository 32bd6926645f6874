//! Vectors that are dropped a segment at a time.
ghost use Rattle.std.specs.Prelude.{◌≡◌, ◌-◌, length, nat_lt};

use std::marker::Model;

/// What is left of a vector that is dropped a segment at a time. As contracts see it, it is the number of segments.
#[derive(Drop)]
pub struct SegmentRemains<T> {
    segments: Vec<Vec<T>>,
}

impl<T> Model for SegmentRemains<T> {
    ghost use Rattle.std.specs.Prelude.{ℕ, length};

    ghost Value = { ℕ };

    ghost view = { λ r. length r.segments.items };
}

impl<T: Copy> SegmentRemains<T> {
    pub(crate) fn new(segments: Vec<Vec<T>>) -> SegmentRemains<T>
        ensures { result ≡ length segments.items }
    {
        SegmentRemains { segments }
    }

    /// Drops a segment, and returns whether there was one.
    pub fn shed(&mut self) -> bool
        ensures shed { result ≡ nat_lt 0 self.old }
        ensures left { self.new ≡ self.old - 1 }
    {
        self.segments.pop().is_some()
    }
}
