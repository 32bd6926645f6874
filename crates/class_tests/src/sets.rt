use crate::picks::{has_too_few, splits, splits_again};
use key_class::Refusal;
use set_class::{Elements, Sets};
use std::alloc::Global;
use std::test::Fail;

/// Sets by their elements, the least number of entries for a side, and the side of each set.
struct Split {
    sets: &'static [&'static [u8]],
    least: usize,
    sides: &'static str,
}

static SPLITS: [Split; 5] = [
    Split {
        sets: &[&[1], &[1, 2], &[9], &[9, 10]],
        least: 2,
        sides: "llrr",
    },
    Split {
        sets: &[&[], &[], &[], &[]],
        least: 2,
        sides: "llrr",
    },
    Split {
        sets: &[
            &[0, 127],
            &[127],
            &[],
            &[0, 1, 2, 64],
            &[1],
            &[],
            &[1, 2, 3],
            &[],
        ],
        least: 4,
        sides: "lllrrlrr",
    },
    Split {
        sets: &[&[3, 5, 126], &[0, 3, 127], &[0, 1, 126], &[3, 5], &[]],
        least: 2,
        sides: "lrrrl",
    },
    Split {
        sets: &[&[7], &[7]],
        least: 1,
        sides: "lr",
    },
];

fn keys(alloc: Global, sets: &[&[u8]]) -> Result<Vec<Elements>, Fail> {
    let mut keys = Vec::new(alloc);
    for numbers in sets {
        keys.push(Elements::new(numbers)?)?;
    }
    Ok(keys)
}

fn is_split(alloc: Global, split: &Split) -> Result<bool, Fail> {
    let keys = keys(alloc, split.sets)?;
    Ok(splits::<Sets>(alloc, &keys, split.least, split.sides))
}

#[test]
fn splits_by_what_a_bound_gains(rt: HostRuntime) -> Result<(), Fail> {
    for split in &SPLITS {
        assert!(rt; is_split(rt.alloc(), split)?, "{}", split.sides);
    }
    Ok(())
}

/// One of sixty-four sets.
fn set_at(place: u32) -> Result<Elements, Refusal> {
    let mut set = Elements::empty();
    for number in 0..128u8 {
        if u32::from(number)
            .wrapping_mul(7)
            .wrapping_add(place.wrapping_mul(13))
            % 31
            < place % 5
        {
            set = set.with(number)?;
        }
    }
    Ok(set)
}

/// The first `count` of sixty-four sets.
fn first_of_sixty_four(alloc: Global, count: u32) -> Result<Vec<Elements>, Fail> {
    let mut keys = Vec::new(alloc);
    for place in 0..count {
        keys.push(set_at(place)?)?;
    }
    Ok(keys)
}

fn has_too_few_of(alloc: Global, count: u32, least: usize) -> Result<bool, Fail> {
    let keys = first_of_sixty_four(alloc, count)?;
    Ok(has_too_few::<Sets>(alloc, &keys, least))
}

#[test]
fn splits_sixty_four_sets(rt: HostRuntime) -> Result<(), Fail> {
    let keys = first_of_sixty_four(rt.alloc(), 64)?;
    let wanted = "lrrlllrrrrrllrrlrllrrrllllrrrlrlrrllllrrrlllrlrrllrlrllllrrrrllr";
    for least in [12, 30] {
        assert!(rt; splits::<Sets>(rt.alloc(), &keys, least, wanted), "{least}");
    }
    for (count, least) in [(0, 1), (1, 1), (3, 2), (64, 33), (64, usize::MAX)] {
        assert!(rt;
            has_too_few_of(rt.alloc(), count, least)?,
            "{count} {least}"
        );
    }
    Ok(())
}

/// Must pass whichever allocation is refused.
#[test]
fn answers_want_of_memory(rt: HostRuntime) -> Result<(), Fail> {
    let keys = [
        Elements::new(&[1])?,
        Elements::new(&[1, 2])?,
        Elements::new(&[9])?,
        Elements::new(&[9, 10])?,
    ];
    let before = keys;
    assert!(rt; splits_again::<Sets>(rt.alloc(), &keys, 2, "llrr"));
    assert!(rt; keys == before);
    Ok(())
}
