ghost use Rattle.std.specs.Prelude.{◌≡◌, ◌<◌, ◌++◌, ◌∷◌, [], Some, length, slice_get, All, IfOk};

use crate::frozen::Frozen;
use std::alloc::{AllocError, Global};
use std::marker::Model;

/// Elements that lists share.
pub(crate) type Segment<T> = Frozen<T>;

/// Segments that lists share.
pub(crate) type Group<T> = Frozen<Segment<T>>;

/// How many segments a full group has.
const GROUP: usize = 256;

/// Segments in full groups, and a last group that isn't full. It is immutable: adding a segment makes a new value,
/// which shares all full groups.
#[derive(Drop)]
pub(crate) struct Groups<T> {
    full: Frozen<Group<T>>,
    last: Group<T>,
}

impl<T> Model for Groups<T> {
    ghost use Rattle.std.specs.Prelude.{List};
    ghost use Rattle.change_list.specs.Segments.{joined, IsSegmented};

    ghost Value = { List (List T) };

    ghost view = { λ groups. joined groups.full groups.last };

    ghost invariant = { λ groups. IsSegmented groups.full groups.last };
}

impl<T: Drop> Groups<T> {
    /// No segments, which takes no memory.
    pub(crate) fn empty() -> Groups<T>
        ensures { result ≡ [] }
    {
        Groups {
            full: Frozen::empty(),
            last: Frozen::empty(),
        }
    }

    /// The segment at a place, counted from 0.
    pub(crate) fn segment(&self, place: usize) -> &Segment<T>
        requires { place < length self.now }
        ensures { slice_get self.now place ≡ Some result.now }
    {
        let full = self.full.as_slice();
        let group = place / GROUP;
        if group < full.len() {
            return &full[group].as_slice()[place % GROUP];
        }
        &self.last.as_slice()[place - full.len() * GROUP]
    }

    /// The full groups, and the segments of the last one, as far as they have no other owner.
    pub(crate) fn into_parts(self, alloc: Global) -> (Vec<Group<T>>, Vec<Segment<T>>)
        ensures { All (λ group. length group ≡ 256) result.0.items }
    {
        let Groups { full, last } = self;
        let groups = full.into_items().unwrap_or(Vec::new(alloc));
        let segments = last.into_items().unwrap_or(Vec::new(alloc));
        (groups, segments)
    }

    /// Another owner of the same groups.
    ///
    /// # Errors
    /// They have too many owners.
    pub(crate) fn share(&self) -> Result<Groups<T>, AllocError>
        ensures { IfOk result (λ shared. shared ≡ self.now) }
    {
        let full = self.full.share()?;
        let last = self.last.share()?;
        Ok(Groups { full, last })
    }

    /// These segments and one more.
    ///
    /// # Errors
    /// Memory ran out, or a segment or a group has too many owners.
    pub(crate) fn with(&self, alloc: Global, segment: Segment<T>) -> Result<Groups<T>, AllocError>
        ensures { IfOk result (λ groups. groups ≡ self.now ++ segment ∷ []) }
    {
        let last = self.last.with(alloc, segment)?;
        if last.as_slice().len() < GROUP {
            let full = self.full.share()?;
            return Ok(Groups { full, last });
        }
        let full = self.full.with(alloc, last)?;
        Ok(Groups {
            full,
            last: Frozen::empty(),
        })
    }
}
