//! Calls of a segmented vector, random ones of them compared with those of a `Vec`.
use crate::{SegmentRemains, SegmentedVec};
use std::alloc::{AllocError, Global};
use std::test::Fail;

/// How many elements a segment has room for.
const SEGMENT: usize = 4_096;

/// Adds an element, for which memory is allocated if it is needed.
fn push(list: &mut SegmentedVec<u16>, value: u16) -> Result<(), AllocError> {
    list.reserve()?;
    list.push_reserved(value);
    Ok(())
}

/// A vector of the numbers from 0 on, each as its lowest 16 bits.
fn numbers(alloc: Global, count: usize) -> Result<SegmentedVec<u16>, AllocError> {
    let mut list = SegmentedVec::new(alloc);
    for number in 0..count {
        push(&mut list, (number % 65_536) as u16)?;
    }
    Ok(list)
}

/// How many pieces are dropped until nothing is left, up to a limit.
fn pieces(remains: &mut SegmentRemains<u16>, limit: usize) -> usize {
    for piece in 0..limit {
        if !remains.shed() {
            return piece;
        }
    }
    limit
}

#[test]
fn an_element_is_the_one_that_was_stored_last(rt: HostRuntime) -> Result<(), Fail> {
    let mut list = SegmentedVec::new(rt.alloc());
    assert!(rt; list.len() == 0 && list.get(0) == None);
    list.reserve()?;
    assert!(rt; list.len() == 0 && list.get(0) == None);
    list.push_reserved(7);
    assert!(rt; list.len() == 1 && list.get(0) == Some(7) && list.get(1) == None);
    list.set(0, 9);
    assert!(rt; list.len() == 1 && list.get(0) == Some(9));
    let other = SegmentedVec::<u16>::new(list.allocator());
    assert!(rt; other.len() == 0);
    Ok(())
}

#[test]
fn elements_are_kept_across_segments(rt: HostRuntime) -> Result<(), Fail> {
    let mut list = numbers(rt.alloc(), 2 * SEGMENT)?;
    assert!(rt; list.len() == 2 * SEGMENT);
    assert!(rt; list.get(SEGMENT - 1) == Some(4_095) && list.get(SEGMENT) == Some(4_096));
    assert!(rt; list.get(2 * SEGMENT) == None && list.get(usize::MAX) == None);
    push(&mut list, 3)?;
    assert!(rt; list.get(2 * SEGMENT) == Some(3) && list.get(0) == Some(0));
    Ok(())
}

#[test]
fn each_segment_is_a_piece(rt: HostRuntime) -> Result<(), Fail> {
    let mut none = numbers(rt.alloc(), 0)?.into_remains();
    assert!(rt; pieces(&mut none, 9) == 0 && !none.shed());
    let mut full = numbers(rt.alloc(), 2 * SEGMENT)?.into_remains();
    assert!(rt; pieces(&mut full, 9) == 2 && !full.shed());
    let mut more = numbers(rt.alloc(), 2 * SEGMENT + 1)?.into_remains();
    assert!(rt; pieces(&mut more, 9) == 3 && !more.shed());
    Ok(())
}

/// A random number: the next of SplitMix64 (Steele, Lea and Flood, 2014).
fn next_random(state: &mut u64) -> u64 {
    *state = state.wrapping_add(0x9E37_79B9_7F4A_7C15);
    let mixed = (*state ^ (*state >> 30)).wrapping_mul(0xBF58_476D_1CE4_E5B9);
    let mixed = (mixed ^ (mixed >> 27)).wrapping_mul(0x94D0_49BB_1331_11EB);
    mixed ^ (mixed >> 31)
}

/// Stores a value in both lists: at a place, or at the end if the lists end before it.
fn store(
    list: &mut SegmentedVec<u16>,
    plain: &mut Vec<u16>,
    place: usize,
    value: u16,
) -> Result<(), AllocError> {
    if place < list.len() && place < plain.len() {
        list.set(place, value);
        plain[place] = value;
        return Ok(());
    }
    push(list, value)?;
    plain.push(value)?;
    Ok(())
}

/// The number of the first of so many random calls after which the lists differ.
fn first_difference(alloc: Global, count: usize) -> Result<Option<usize>, AllocError> {
    let mut list = SegmentedVec::new(alloc);
    let mut plain = Vec::new(alloc);
    let mut state = 1;
    for call in 0..count {
        let random = next_random(&mut state);
        let place = (random % 20_000) as usize;
        store(&mut list, &mut plain, place, (random >> 48) as u16)?;
        let read = (next_random(&mut state) % 20_000) as usize;
        if list.len() != plain.len() || list.get(read) != plain.get(read).copied() {
            return Ok(Some(call));
        }
    }
    Ok(None)
}

#[test]
fn random_calls_are_answered_as_by_a_vector(rt: HostRuntime) -> Result<(), Fail> {
    assert!(rt; first_difference(rt.alloc(), 100_000)? == None);
    Ok(())
}

/// Whether an element is added, at the second try if memory ran out, and whether the list is unchanged before that.
fn is_added(list: &mut SegmentedVec<u16>, number: usize) -> bool {
    let value = (number % 65_536) as u16;
    match push(list, value) {
        Ok(()) => true,
        Err(AllocError) => list.len() == number && push(list, value).is_ok(),
    }
}

/// The first number that isn't added, or isn't at its place.
fn first_lost(list: &mut SegmentedVec<u16>, count: usize) -> Option<usize> {
    for number in 0..count {
        if !is_added(list, number) || list.get(number) != Some((number % 65_536) as u16) {
            return Some(number);
        }
    }
    None
}

/// Must pass whichever allocation is refused.
#[test]
fn refused_memory_leaves_a_vector_as_it_was(rt: HostRuntime) -> Result<(), Fail> {
    let mut list = SegmentedVec::new(rt.alloc());
    assert!(rt; first_lost(&mut list, 3 * SEGMENT) == None);
    assert!(rt; list.len() == 3 * SEGMENT && list.get(SEGMENT) == Some(4_096));
    Ok(())
}
