ghost use Rattle.std.specs.Prelude.{◌≡◌, ◌<◌, ◌≤◌, ◌↔◌, ◌++◌, ◌∷◌, [], ◌*◌, ◌%◌, ◌^◌, length, take, drop, filter, not, slice_index_or, slice_set, IfOk, OnOk, OnErr, IsTrue, MatchOption, vec_len, vec_capacity};
ghost use Rattle.std.specs.List.{AllZip, list_any};
ghost use Rattle.key_class.specs.Bits.{bits_of};
ghost use Rattle.blocks.specs.Firsts.{IsFirstFrom, NonePassFrom};
ghost use Rattle.blocks.specs.Rewriting.{Becomes};
ghost use Rattle.blocks.specs.Values.{IsBlockOf, values_of};

use crate::test::BlockTest;
use key_class::Block;
use std::alloc::{AllocError, Global};
use std::marker::{Model, PhantomData};

/// How many values a block has.
const SIZE: usize = 8;

/// A list of values, kept in blocks of eight. What the last block has after the last value doesn't count.
#[derive(Drop)]
pub struct Blocks<T: Copy, B: Block<T>> {
    blocks: Vec<B>,
    count: usize,
    of: PhantomData<T>,
}

impl<T: Copy, B: Block<T>> Model for Blocks<T, B> {
    ghost use Rattle.std.specs.Prelude.{List, length, take};
    ghost use Rattle.blocks.specs.Values.{AreBlocksFor, values_of};

    ghost Value = { List T };

    ghost view = { λ l. take l.count (values_of B.items l.blocks.items) };

    ghost invariant = { λ l. AreBlocksFor l.count (length l.blocks.items) };
}

impl<T: Copy, B: Block<T>> Blocks<T, B> {
    /// An empty list. It needs no memory.
    pub fn new(alloc: Global) -> Blocks<T, B>
        ensures { result ≡ [] }
    {
        Blocks {
            blocks: Vec::new(alloc),
            count: 0,
            of: PhantomData,
        }
    }

    /// An empty list with room for `capacity` values.
    ///
    /// # Errors
    /// Memory ran out.
    pub fn with_capacity(alloc: Global, capacity: usize) -> Result<Blocks<T, B>, AllocError>
        ensures { IfOk result (λ list. list ≡ []) }
    {
        let blocks = Vec::with_capacity(alloc, capacity.div_ceil(SIZE))?;
        Ok(Blocks {
            blocks,
            count: 0,
            of: PhantomData,
        })
    }

    pub fn len(&self) -> usize
        ensures { result ≡ length self.now }
    {
        self.count
    }

    pub fn is_empty(&self) -> bool
        ensures { IsTrue result ↔ (self.now ≡ []) }
    {
        self.len() == 0
    }

    pub fn get(&self, place: usize) -> T
        requires { place < length self.now }
        ensures { result ≡ slice_index_or self.now place result }
    {
        self.blocks[place / SIZE].get(place % SIZE)
    }

    /// The block in which the values from place `8 * number` on lie.
    pub fn block(&self, number: usize) -> &B
        requires { 8 * number < length self.now }
        ensures { IsBlockOf self.now number (B.items result.now) }
    {
        &self.blocks[number]
    }

    pub fn set(&mut self, place: usize, value: T)
        requires { place < length self.old }
        ensures { self.new ≡ slice_set self.old place value }
    {
        self.blocks[place / SIZE].set(place % SIZE, value);
    }

    /// Adds a value at the end. A full list gets a third more room, so one with three quarters of a page then has exactly a
    /// page.
    ///
    /// # Errors
    /// Memory ran out; the list is unchanged.
    pub fn push(&mut self, value: T) -> Result<(), AllocError>
        ensures pushed { OnOk result (self.new ≡ self.old ++ value ∷ []) }
        ensures unchanged { OnErr result (self.new ≡ self.old) }
    {
        let place = self.count;
        let Some(count) = place.checked_add(1) else {
            return Err(AllocError);
        };
        if place % SIZE == 0 {
            reserve_one(&mut self.blocks)?;
            self.blocks.push_reserved(B::filled(value));
        } else {
            self.blocks[place / SIZE].set(place % SIZE, value);
        }
        self.count = count;
        Ok(())
    }

    /// Keeps only the first `count` values.
    pub fn truncate(&mut self, count: usize)
        ensures { self.new ≡ take count self.old }
    {
        if count < self.count {
            self.blocks.truncate(count.div_ceil(SIZE));
            self.count = count;
        }
    }

    /// A copy of the list, with the same room.
    ///
    /// # Errors
    /// Memory ran out.
    pub fn copied(&self) -> Result<Blocks<T, B>, AllocError>
        ensures { IfOk result (λ copy. copy ≡ self.now) }
    {
        let mut blocks = Vec::with_capacity(*self.blocks.allocator(), self.blocks.capacity())?;
        blocks.extend_from_slice(self.blocks.as_slice())?;
        Ok(Blocks {
            blocks,
            count: self.count,
            of: PhantomData,
        })
    }

    /// Whether all blocks are copies of another list's. Such lists are the same.
    pub fn is_copy_of(&self, other: &Blocks<T, B>) -> bool
        ensures { IsTrue result → self.now ≡ other.now }
    {
        if self.count != other.count {
            return false;
        }
        for number in 0..self.blocks.len() {
            if !self.blocks[number].is_copy_of(&other.blocks[number]) {
                return false;
            }
        }
        true
    }

    /// Which of at most 64 values pass a test, as bits; the lowest bit is the first value's.
    pub fn bits<S: BlockTest<T, B>>(&self, test: &S) -> u64
        requires { length self.now ≤ 64 }
        ensures { result ≡ bits_of (S.passes test.now) self.now }
    {
        let bits = all_bits::<T, B, S>(&self.blocks, test);
        first_bits(bits, self.count)
    }

    /// The first place from `from` on whose value passes a test. Eight values are tested at once.
    pub fn first_from<S: BlockTest<T, B>>(&self, from: usize, test: &S) -> Option<usize>
        ensures { MatchOption result
            (NonePassFrom (S.passes test.now) self.now from)
            (IsFirstFrom (S.passes test.now) self.now from) }
    {
        let count = self.len();
        match first_in_blocks::<T, B, S>(&self.blocks, from, test) {
            Some(place) if place < count => Some(place),
            _ => None,
        }
    }

    /// Whether a value passes a test.
    pub fn any<S: BlockTest<T, B>>(&self, test: &S) -> bool
        ensures { result ≡ list_any (S.passes test.now) self.now }
    {
        self.first_from(0, test).is_some()
    }

    /// Changes each value that passes a test. Eight are tested at once.
    pub fn rewrite_where<S: BlockTest<T, B>, F: Fn(T) -> T>(&mut self, test: &S, change: F)
        requires { F.IsAlwaysCallable change }
        ensures { AllZip (Becomes (S.passes test.now) (F.post change)) self.old self.new }
    {
        // A number of this type counts the values, so the place behind one has such a number, too.
        let _count = self.len();
        let mut from = 0;
        while let Some(place) = self.first_from(from, test) {
            self.set(place, change(self.get(place)));
            from = place + 1;
        }
    }

    /// Removes the values that pass a test. Eight are tested at once, and nothing is written before the first that passes.
    pub fn remove_where<S: BlockTest<T, B>>(&mut self, test: &S)
        ensures { self.new ≡ filter (λ value. not (S.passes test.now value)) self.old }
    {
        let Some(first) = self.first_from(0, test) else {
            return;
        };
        let end = self.len().div_ceil(SIZE);
        let mut kept = first;
        let mut number = first / SIZE;
        let mut skipped = first % SIZE;
        while number < end {
            let mut left = self.failing(number, test) >> skipped;
            while left != 0 {
                let passed = left.trailing_zeros();
                skipped += passed as usize;
                self.set(kept, self.get(SIZE * number + skipped));
                kept += 1;
                skipped += 1;
                left = left >> passed >> 1;
            }
            number += 1;
            skipped = 0;
        }
        self.truncate(kept);
    }

    /// Which values of a block don't pass a test, as bits; the lowest bit is the first value's.
    fn failing<S: BlockTest<T, B>>(&self, number: usize, test: &S) -> u64
        requires { 8 * number < length self.now }
        ensures { result ≡ bits_of (λ value. not (S.passes test.now value))
            (take 8 (drop (8 * number) self.now)) }
    {
        // What the last block has after the last value has no bit.
        let failing = 255 - test.tested(&self.blocks[number]);
        first_bits(failing, self.len() - SIZE * number)
    }
}

/// Makes room for one more block.
///
/// # Errors
/// Memory ran out.
fn reserve_one<B: Copy>(blocks: &mut Vec<B>) -> Result<(), AllocError>
    ensures items { blocks.new.items ≡ blocks.old.items }
    ensures room { OnOk result (vec_len blocks.new < vec_capacity blocks.new) }
{
    if blocks.len() < blocks.capacity() {
        return Ok(());
    }
    blocks.reserve_exact(blocks.capacity().div_ceil(3).max(1))
}

/// Which values of some blocks pass a test, including what the last block has after the last value.
fn all_bits<T: Copy, B: Block<T>, S: BlockTest<T, B>>(blocks: &[B], test: &S) -> u64
    requires { length blocks.now ≤ 8 }
    ensures { result ≡ bits_of (S.passes test.now) (values_of B.items blocks.now) }
{
    let mut bits = 0;
    let mut number = blocks.len();
    while number > 0 {
        number -= 1;
        bits = 256 * bits + test.tested(&blocks[number]);
    }
    bits
}

/// The lowest bits of a number.
fn first_bits(bits: u64, count: usize) -> u64
    ensures { result ≡ bits % 2 ^ count }
{
    if count < 64 {
        bits % (1 << count)
    } else {
        bits
    }
}

/// The first place from `from` on whose value passes a test, where what the last block has after the last value
/// counts, too.
fn first_in_blocks<T: Copy, B: Block<T>, S: BlockTest<T, B>>(
    blocks: &[B],
    from: usize,
    test: &S,
) -> Option<usize>
    requires { length blocks.now ≤ 2 ^ 61 }
    ensures { MatchOption result
        (NonePassFrom (S.passes test.now) (values_of B.items blocks.now) from)
        (IsFirstFrom (S.passes test.now) (values_of B.items blocks.now) from) }
{
    let mut number = from / SIZE;
    let mut skipped = from % SIZE;
    while number < blocks.len() {
        let passing = test.tested(&blocks[number]) >> skipped;
        if passing != 0 {
            return Some(SIZE * number + skipped + passing.trailing_zeros() as usize);
        }
        number += 1;
        skipped = 0;
    }
    None
}
