ghost use Rattle.std.specs.Prelude.{◌≡◌, ◌+◌, ◌≤◌, true, All, ◌≤ℤ◌};
ghost use Rattle.box_class.specs.Boxes.{is_cover, size_of, extent_of};

use crate::area::Area;
use crate::boxes::BoxKey;
use crate::methods::distance;

/// How far the common bound of two of these keys may reach.
#[derive(Clone, Copy, Debug)]
pub struct Extent {
    /// Covers all keys.
    pub bound: BoxKey,
    /// The greatest distance of a key's first and last column.
    pub across: u32,
    /// The greatest distance of a key's first and last row.
    pub along: u32,
}

impl Extent {
    /// The extent of keys within a bound that covers them.
    pub fn of_keys(keys: &[BoxKey], bound: BoxKey) -> Extent
        requires { All (λ key. is_cover bound key ≡ true) keys.now }
        ensures bound { result.bound ≡ bound }
        ensures across { result.across + 1 ≤ extent_of bound.x1 bound.x2 }
        ensures along { result.along + 1 ≤ extent_of bound.y1 bound.y2 }
    {
        let mut across = 0;
        let mut along = 0;
        for key in keys {
            across = across.max(distance(key.x1, key.x2));
            along = along.max(distance(key.y1, key.y2));
        }
        Extent {
            bound,
            across,
            along,
        }
    }

    /// At most this is the area of the key's common bound with another, less the key's own.
    pub fn most_beside<A: Area>(self, key: BoxKey) -> A::Waste
        requires covered { is_cover self.bound key ≡ true }
        requires across { self.across + 1 ≤ extent_of self.bound.x1 self.bound.x2 }
        requires along { self.along + 1 ≤ extent_of self.bound.y1 self.bound.y2 }
        requires small { size_of self.bound ≤ A.limit }
    {
        A::beside(self.columns(key), self.rows(key), key)
    }

    /// The most columns of a common bound of the key and another. Either both of its ends are those of one of them,
    /// or one end is the key's and the other is at most the bound's.
    fn columns(self, key: BoxKey) -> u64
        requires covered { is_cover self.bound key ≡ true }
        requires across { self.across + 1 ≤ extent_of self.bound.x1 self.bound.x2 }
        ensures { result ≤ extent_of self.bound.x1 self.bound.x2 }
    {
        let before = distance(self.bound.x1, key.x2);
        let behind = distance(key.x1, self.bound.x2);
        u64::from(before.max(behind).max(self.across)) + 1
    }

    /// The most rows of a common bound of the key and another.
    fn rows(self, key: BoxKey) -> u64
        requires covered { is_cover self.bound key ≡ true }
        requires along { self.along + 1 ≤ extent_of self.bound.y1 self.bound.y2 }
        ensures { result ≤ extent_of self.bound.y1 self.bound.y2 }
    {
        let below = distance(self.bound.y1, key.y2);
        let above = distance(key.y1, self.bound.y2);
        u64::from(below.max(above).max(self.along)) + 1
    }
}
