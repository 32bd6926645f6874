ghost use Rattle.std.specs.Prelude.{◌≡◌, ◌<◌, ◌*◌, ◌++◌, ◌∷◌, [], length, slice_get, slice_set, OnOk, OnErr};

use crate::remains::SegmentRemains;
use std::alloc::{AllocError, Global};
use std::marker::Model;

/// How many elements a segment has room for.
const SEGMENT: usize = 4_096;

/// How many segments there may be: those of 2 ^ 32 elements.
const MAX_SEGMENTS: usize = 1_048_576;

/// A vector in segments of 4,096 elements. It grows by a segment, and its elements are never moved.
///
/// Only the directory of its segments moves when it grows. Such resizable arrays are compared in: Brodnik, Carlsson,
/// Demaine, Munro and Sedgewick, Resizable Arrays in Optimal Time and Space, 1999; Sitarski, Hashed Array Trees, 1996.
#[derive(Drop)]
pub struct SegmentedVec<T> {
    /// Each segment but the last is full.
    segments: Vec<Vec<T>>,
    len: usize,
}

impl<T> Model for SegmentedVec<T> {
    ghost use Rattle.std.specs.Prelude.{◌*◌, length};
    ghost use Rattle.segmented.specs.Segments.{IsSegmented, Segmented, joined};

    ghost Value = { Segmented T };

    ghost view = { λ v. record { items = joined v.segments.items; capacity = 4096 * length v.segments.items } };

    ghost invariant = { λ v. IsSegmented v.segments.items v.len };
}

impl<T: Copy> SegmentedVec<T> {
    /// An empty vector. It needs no memory.
    pub fn new(alloc: Global) -> SegmentedVec<T>
        ensures items { result.items ≡ [] }
        ensures capacity { result.capacity ≡ 0 }
    {
        SegmentedVec {
            segments: Vec::new(alloc),
            len: 0,
        }
    }

    /// The allocator of its segments.
    pub fn allocator(&self) -> Global {
        *self.segments.allocator()
    }

    /// How many elements it has.
    pub fn len(&self) -> usize
        ensures { result ≡ length self.now.items }
    {
        self.len
    }

    /// The element at a place, counted from 0, in constant time.
    pub fn get(&self, place: usize) -> Option<T>
        ensures { result ≡ slice_get self.now.items place }
    {
        let segment = self.segments.get(place / SEGMENT)?;
        at(segment, place % SEGMENT)
    }

    /// Replaces the element at a place, counted from 0, in constant time.
    pub fn set(&mut self, place: usize, value: T)
        requires within { place < length self.old.items }
        ensures items { self.new.items ≡ slice_set self.old.items place value }
        ensures capacity { self.new.capacity ≡ self.old.capacity }
    {
        self.segments[place / SEGMENT][place % SEGMENT] = value;
    }

    /// Makes room for one more element: if there is none, it adds a segment.
    ///
    /// # Errors
    /// `AllocError` if memory ran out, or if there are 2 ^ 32 elements; the vector is unchanged.
    pub fn reserve(&mut self) -> Result<(), AllocError>
        ensures items { self.new.items ≡ self.old.items }
        ensures room { OnOk result (length self.new.items < self.new.capacity) }
        ensures spare { length self.old.items < self.old.capacity → self.new ≡ self.old }
        ensures unchanged { OnErr result (self.new ≡ self.old) }
    {
        let count = self.segments.len();
        if self.len < SEGMENT * count {
            return Ok(());
        }
        if count == MAX_SEGMENTS {
            return Err(AllocError);
        }
        let segment = Vec::with_capacity(self.allocator(), SEGMENT)?;
        self.segments.push(segment)?;
        Ok(())
    }

    /// Adds an element at the end, for which there is room, in constant time.
    pub fn push_reserved(&mut self, value: T)
        requires room { length self.old.items < self.old.capacity }
        ensures items { self.new.items ≡ self.old.items ++ value ∷ [] }
        ensures capacity { self.new.capacity ≡ self.old.capacity }
    {
        self.segments[self.len / SEGMENT].push_reserved(value);
        self.len += 1;
    }

    /// The vector without its use: what is left to be dropped a segment at a time.
    pub fn into_remains(self) -> SegmentRemains<T>
        ensures { self.capacity ≡ 4096 * result }
    {
        let SegmentedVec { segments, .. } = self;
        SegmentRemains::new(segments)
    }
}

/// The element at a place, counted from 0.
fn at<T: Copy>(elements: &[T], place: usize) -> Option<T>
    ensures { result ≡ slice_get elements.now place }
{
    elements.get(place).copied()
}
