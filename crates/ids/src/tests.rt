//! Calls of an index, random ones of them compared with those of a `BTreeMap`.
use crate::Ids;
use std::alloc::{AllocError, Global};
use std::collections::BTreeMap;
use std::test::Fail;

/// The inverse, modulo 2 ^ 64, of the constant that the hash of an id multiplies by.
const INVERSE: u64 = 0xF1DE_83E1_9937_733D;

#[derive(Clone, Copy)]
enum Call {
    Get(u64),
    Insert(u64, u64),
    Remove(u64),
}

static CALLS: [(Call, Option<u64>); 12] = [
    (Call::Get(7), None),
    (Call::Remove(7), None),
    (Call::Insert(7, 1), None),
    (Call::Insert(u64::MAX, u64::MAX), None),
    (Call::Insert(0, 5), None),
    (Call::Get(7), Some(1)),
    (Call::Insert(7, 3), Some(1)),
    (Call::Get(7), Some(3)),
    (Call::Remove(7), Some(3)),
    (Call::Get(7), None),
    (Call::Get(u64::MAX), Some(u64::MAX)),
    (Call::Get(0), Some(5)),
];

fn answer(ids: &mut Ids, call: Call) -> Result<Option<u64>, AllocError> {
    match call {
        Call::Get(id) => Ok(ids.get(id)),
        Call::Insert(id, number) => ids.insert(id, number),
        Call::Remove(id) => Ok(ids.remove(id)),
    }
}

fn answer_of_tree(tree: &mut BTreeMap<u64, u64>, call: Call) -> Result<Option<u64>, AllocError> {
    match call {
        Call::Get(id) => Ok(tree.get(&id).copied()),
        Call::Insert(id, number) => Ok(tree.insert(id, number)?),
        Call::Remove(id) => Ok(tree.remove(&id)),
    }
}

/// The place of the first call with another answer than the table's.
fn first_wrong(alloc: Global) -> Result<Option<usize>, AllocError> {
    let mut ids = Ids::new(alloc);
    for (place, (call, expected)) in CALLS.iter().enumerate() {
        if answer(&mut ids, *call)? != *expected {
            return Ok(Some(place));
        }
    }
    Ok(None)
}

#[test]
fn an_id_has_the_number_that_it_got_last(rt: HostRuntime) -> Result<(), Fail> {
    assert!(rt; first_wrong(rt.alloc())? == None);
    Ok(())
}

/// A random number: the next of SplitMix64 (Steele, Lea and Flood, 2014).
fn next_random(state: &mut u64) -> u64 {
    *state = state.wrapping_add(0x9E37_79B9_7F4A_7C15);
    let mixed = (*state ^ (*state >> 30)).wrapping_mul(0xBF58_476D_1CE4_E5B9);
    let mixed = (mixed ^ (mixed >> 27)).wrapping_mul(0x94D0_49BB_1331_11EB);
    mixed ^ (mixed >> 31)
}

/// An id in a shard.
fn id_in_shard(shard: u64, number: u64) -> u64 {
    (shard.wrapping_shl(52) ^ number).wrapping_mul(INVERSE)
}

/// A call on one of 4,096 ids in four shards, or on one of 4,096 ids in as many shards.
fn random_call(state: &mut u64) -> Call {
    let random = next_random(state);
    let number = random % 4_096;
    let id = if random >> 63 == 0 {
        id_in_shard(number % 4, number)
    } else {
        id_in_shard(number, 0)
    };
    match (random >> 60) % 4 {
        0 => Call::Get(id),
        1 => Call::Remove(id),
        _ => Call::Insert(id, random),
    }
}

/// The place of the first of so many random calls that a tree answers differently.
fn first_difference(
    alloc: Global,
    mut state: u64,
    count: usize,
) -> Result<Option<usize>, AllocError> {
    let mut ids = Ids::new(alloc);
    let mut tree = BTreeMap::new(alloc);
    for place in 0..count {
        let call = random_call(&mut state);
        if answer(&mut ids, call)? != answer_of_tree(&mut tree, call)? {
            return Ok(Some(place));
        }
    }
    Ok(None)
}

#[test]
fn random_calls_are_answered_as_by_a_tree(rt: HostRuntime) -> Result<(), Fail> {
    for (state, count) in [(1, 100_000), (2, 5_000), (3, 5_000), (4, 5_000)] {
        assert!(rt; first_difference(rt.alloc(), state, count)? == None);
    }
    Ok(())
}

/// One of many ids in sixteen shards.
fn nth_id(number: u64) -> u64 {
    id_in_shard(number % 16, number)
}

/// Whether each of the first ids has its number.
fn have_numbers(ids: &Ids, count: u64) -> bool {
    (0..count).all(|number| ids.get(nth_id(number)) == Some(number))
}

/// Whether an id gets a number, loses it, gets another one and keeps it.
fn comes_and_goes(ids: &mut Ids, id: u64, number: u64) -> Result<bool, AllocError> {
    let inserted = ids.insert(id, 7)?.is_none() && ids.get(id) == Some(7);
    let removed = ids.remove(id) == Some(7) && ids.get(id).is_none();
    let replaced = ids.insert(id, 8)?.is_none() && ids.insert(id, number)? == Some(8);
    Ok(inserted && removed && replaced)
}

/// The first id that doesn't get its number, or takes another's, while the ids become many.
fn first_wrong_at_border(alloc: Global) -> Result<Option<u64>, AllocError> {
    let mut ids = Ids::new(alloc);
    for number in 0..1_022 {
        ids.insert(nth_id(number), number)?;
    }
    for number in 1_022..1_027 {
        if !comes_and_goes(&mut ids, nth_id(number), number)? || !have_numbers(&ids, number + 1) {
            return Ok(Some(number));
        }
    }
    Ok(None)
}

#[test]
fn few_ids_become_many(rt: HostRuntime) -> Result<(), Fail> {
    assert!(rt; first_wrong_at_border(rt.alloc())? == None);
    Ok(())
}

/// How many pieces there are of an index of so many ids, each of which got a number twice.
fn pieces(alloc: Global, count: u64) -> Result<Option<usize>, AllocError> {
    let mut ids = Ids::new(alloc);
    for id in 0..count {
        ids.insert(id, 0)?;
        ids.insert(id, id)?;
    }
    let mut remains = ids.into_remains();
    for shed in 0..5_000 {
        if !remains.shed() {
            return Ok(Some(shed));
        }
    }
    Ok(None)
}

#[test]
fn few_ids_are_one_piece_and_many_are_4096(rt: HostRuntime) -> Result<(), Fail> {
    for (count, expected) in [(0, 1), (1, 1), (1_024, 1), (1_025, 4_096), (5_000, 4_096)] {
        assert!(rt; pieces(rt.alloc(), count)? == Some(expected));
    }
    Ok(())
}

/// Whether an id without a number gets one, at the second try if memory ran out, and whether it has none before that.
fn gets_number(ids: &mut Ids, id: u64, number: u64) -> bool {
    match ids.insert(id, number) {
        Ok(former) => former.is_none(),
        Err(AllocError) => ids.get(id).is_none() && matches!(ids.insert(id, number), Ok(None)),
    }
}

/// The first id that doesn't get its number, or takes another's.
fn first_lost(ids: &mut Ids, count: u64) -> Option<u64> {
    for number in 0..count {
        if !gets_number(ids, nth_id(number), number) || !have_numbers(ids, number) {
            return Some(number);
        }
    }
    None
}

/// Must pass whichever allocation is refused.
#[test]
fn refused_memory_leaves_an_index_as_it_was(rt: HostRuntime) -> Result<(), Fail> {
    let mut ids = Ids::new(rt.alloc());
    assert!(rt; first_lost(&mut ids, 1_100) == None);
    Ok(())
}
