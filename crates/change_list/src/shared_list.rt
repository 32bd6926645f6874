ghost use Rattle.std.specs.Prelude.{◌≡◌, ◌<◌, ◌≤◌, ◌/◌, ◌%◌, [], length, drop, slice_get, All, IfOk, IfErr};
ghost use Rattle.std.specs.Vec.{vec_capacity};
ghost use Rattle.change_list.specs.Segments.{IsReady, IsRun, IsSegmented, joined, joined_with, with_next};

use crate::groups::{Group, Groups, Segment};
use std::alloc::{AllocError, Global};
use std::marker::Model;

/// How many elements a segment has.
const SEGMENT: usize = 256;

/// A list that grows at its end. Copies share its full segments.
#[derive(Drop)]
pub(crate) struct SharedList<T> {
    full: Groups<T>,
    tail: Vec<T>,
    count: usize,
}

impl<T> Model for SharedList<T> {
    ghost use Rattle.std.specs.Prelude.{List, ◌≡◌, length};
    ghost use Rattle.change_list.specs.Segments.{joined, IsSegmented};

    ghost Value = { List T };

    ghost view = { λ l. joined l.full l.tail.items };

    ghost invariant = { λ l. IsSegmented l.full l.tail.items × (l.count ≡ length (joined l.full l.tail.items)) };
}

/// A list with memory reserved for one more element.
#[derive(Drop)]
pub(crate) struct RoomySharedList<T> {
    full: Groups<T>,
    tail: Vec<T>,
    count: usize,
    next: T,
    /// The full segments including the one that the element completes, if it completes one.
    filled: Option<Groups<T>>,
}

impl<T> Model for RoomySharedList<T> {
    ghost use Rattle.std.specs.Prelude.{◌≡◌, ◌<◌, length};
    ghost use Rattle.std.specs.Vec.{vec_capacity};
    ghost use Rattle.change_list.specs.Segments.{joined, IsSegmented, IsReady, Growing};

    ghost Value = { Growing T };

    ghost view = { λ r. record { list = joined r.full r.tail.items; next = r.next } };

    ghost invariant = { λ r. IsSegmented r.full r.tail.items × (r.count ≡ length (joined r.full r.tail.items)) × IsReady r.full r.tail.items r.next r.filled × (length r.tail.items < vec_capacity r.tail) × (r.count < 4294967295) };
}

impl<T: Drop> SharedList<T> {
    /// The full groups of its full segments, and the segments of the last group, as far as they have no other owner.
    pub(crate) fn into_groups(self) -> (Vec<Group<T>>, Vec<Segment<T>>)
        ensures { All (λ group. length group ≡ 256) result.0.items }
    {
        let SharedList { full, tail, .. } = self;
        full.into_parts(*tail.allocator())
    }
}

impl<T: Copy> SharedList<T> {
    /// A list without elements.
    pub(crate) fn new(alloc: Global) -> SharedList<T>
        ensures { result ≡ [] }
    {
        SharedList {
            full: Groups::empty(),
            tail: Vec::new(alloc),
            count: 0,
        }
    }

    pub(crate) fn len(&self) -> usize
        ensures { result ≡ length self.now }
    {
        self.count
    }

    /// The element at a place, counted from 0.
    #[tactic(auto, using(crate::proofs::Joining::at_segment, crate::proofs::Joining::at_tail, crate::proofs::Joining::full_segments))]
    pub(crate) fn get(&self, place: usize) -> Option<T>
        ensures { result ≡ slice_get self.now place }
    {
        let segment = place / SEGMENT;
        let full = self.segments();
        if segment < full {
            return at(self.full.segment(segment).as_slice(), place % SEGMENT);
        }
        at(self.tail.as_slice(), place - full * SEGMENT)
    }

    /// The elements from a place up to the end of its segment.
    pub(crate) fn run(&self, place: usize) -> &[T]
        requires { place < length self.now }
        ensures { IsRun self.now place result.now }
    {
        let segment = place / SEGMENT;
        let full = self.segments();
        if segment < full {
            return behind(self.full.segment(segment).as_slice(), place % SEGMENT);
        }
        behind(self.tail.as_slice(), place - full * SEGMENT)
    }

    /// How many full segments of 256 elements it has.
    pub(crate) fn segments(&self) -> usize
        ensures { result ≡ length self.now / 256 }
    {
        self.count / SEGMENT
    }

    /// How many elements come after the full segments.
    pub(crate) fn tail_len(&self) -> usize
        ensures { result ≡ length self.now % 256 }
    {
        self.count % SEGMENT
    }

    /// A copy of the list, which shares its full segments.
    ///
    /// # Errors
    /// Memory ran out.
    pub(crate) fn copy(&self) -> Result<SharedList<T>, AllocError>
        ensures { IfOk result (λ copy. copy ≡ self.now) }
    {
        let full = self.full.share()?;
        let tail = Vec::from_slice(*self.tail.allocator(), self.tail.as_slice())?;
        let count = self.count;
        Ok(SharedList { full, tail, count })
    }

    /// Reserves memory for one more element.
    ///
    /// # Errors
    /// Memory ran out; gives the list back.
    pub(crate) fn reserve(self, next: T) -> Result<RoomySharedList<T>, SharedList<T>>
        requires few { length self < 4294967295 }
        ensures list { IfOk result (λ roomy. roomy.list ≡ self) }
        ensures next { IfOk result (λ roomy. roomy.next ≡ next) }
        ensures err { IfErr result (λ list. list ≡ self) }
    {
        let SharedList {
            full,
            mut tail,
            count,
        } = self;
        if tail.try_reserve(1).is_err() {
            return Err(SharedList { full, tail, count });
        }
        match filled(*tail.allocator(), &full, tail.as_slice(), next) {
            Ok(filled) => Ok(RoomySharedList {
                full,
                tail,
                count,
                next,
                filled,
            }),
            Err(_) => Err(SharedList { full, tail, count }),
        }
    }
}

impl<T: Copy> RoomySharedList<T> {
    /// Adds the element. It needs no memory.
    pub(crate) fn push(self) -> SharedList<T>
        ensures { result ≡ with_next self }
    {
        let RoomySharedList {
            full,
            tail,
            count,
            next,
            filled,
        } = self;
        let (full, tail) = longer(full, tail, next, filled);
        let count = count + 1;
        SharedList { full, tail, count }
    }

    /// The list, without the element.
    pub(crate) fn into_list(self) -> SharedList<T>
        ensures { result ≡ self.list }
    {
        let RoomySharedList {
            full,
            tail,
            count,
            ..
        } = self;
        SharedList { full, tail, count }
    }
}

/// The elements after the first `place`.
fn behind<T>(elements: &[T], place: usize) -> &[T]
    requires { place ≤ length elements.now }
    ensures { result.now ≡ drop place elements.now }
{
    elements.split_at(place).1
}

/// Segments and a tail with one more element.
#[tactic(auto, using(crate::proofs::Joining::joined_filled, crate::proofs::Joining::segmented_filled, crate::proofs::Joining::joined_longer, crate::proofs::Joining::segmented_longer))]
fn longer<T: Copy>(
    full: Groups<T>,
    tail: Vec<T>,
    next: T,
    filled: Option<Groups<T>>,
) -> (Groups<T>, Vec<T>)
    requires segmented { IsSegmented full tail.items }
    requires ready { IsReady full tail.items next filled }
    requires element { length tail.items < vec_capacity tail }
    ensures list { joined result.0 result.1.items ≡ joined_with full tail.items next }
    ensures segmented { IsSegmented result.0 result.1.items }
{
    let mut tail = tail;
    match filled {
        Some(full) => {
            tail.clear();
            return (full, tail);
        }
        None => {
            tail.push_reserved(next);
            return (full, tail);
        }
    }
}

/// The segments including the one that an element completes, if the tail is one element short of a segment.
///
/// # Errors
/// Memory ran out.
fn filled<T: Copy>(
    alloc: Global,
    full: &Groups<T>,
    tail: &[T],
    next: T,
) -> Result<Option<Groups<T>>, AllocError>
    requires { length tail.now < 256 }
    ensures { IfOk result (IsReady full.now tail.now next) }
{
    if tail.len() + 1 < SEGMENT {
        return Ok(None);
    }
    let segment = Segment::new(alloc, tail, next)?;
    Ok(Some(full.with(alloc, segment)?))
}

/// The element at a place, counted from 0.
fn at<T: Copy>(elements: &[T], place: usize) -> Option<T>
    ensures { result ≡ slice_get elements.now place }
{
    elements.get(place).copied()
}
