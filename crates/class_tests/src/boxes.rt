use crate::picks::{has_too_few, splits, splits_again};
use box_class::{BoxKey, Boxes};
use key_class::Refusal;
use std::alloc::Global;
use std::test::Fail;

/// A box by its ends x1, y1, x2, y2.
fn key(ends: [i32; 4]) -> Result<BoxKey, Refusal> {
    let [x1, y1, x2, y2] = ends;
    BoxKey::new(x1, y1, x2, y2)
}

const LOW: i32 = i32::MIN;

const HIGH: i32 = i32::MAX;

const PLANE: [i32; 4] = [LOW, LOW, HIGH, HIGH];

const FIRST: [i32; 4] = [LOW, LOW, LOW, LOW];

const LAST: [i32; 4] = [HIGH, HIGH, HIGH, HIGH];

/// Boxes by their ends x1, y1, x2, y2, the least number of entries for a side, and the side of each box.
struct Split {
    boxes: &'static [[i32; 4]],
    least: usize,
    sides: &'static str,
}

static SPLITS: [Split; 6] = [
    Split {
        boxes: &[
            [0, 0, 0, 0],
            [1, 1, 1, 1],
            [10, 10, 10, 10],
            [11, 11, 11, 11],
        ],
        least: 2,
        sides: "llrr",
    },
    Split {
        boxes: &[[0, 0, 0, 0], [0, 0, 0, 0], [0, 0, 0, 0], [0, 0, 0, 0]],
        least: 2,
        sides: "lrlr",
    },
    Split {
        boxes: &[
            [1, 3, 9, 10],
            [1, 3, 9, 10],
            [1, 3, 9, 10],
            [1, 3, 9, 10],
            [1, 3, 9, 10],
            [1, 3, 9, 10],
        ],
        least: 3,
        sides: "lrlrlr",
    },
    Split {
        boxes: &[
            [0, 2, 7, 6],
            [3, 2, 10, 9],
            [0, 3, 7, 9],
            [1, 2, 6, 8],
            [0, 2, 4, 9],
            [0, 2, 6, 6],
        ],
        least: 2,
        sides: "rlrlrr",
    },
    Split {
        boxes: &[
            [0, 1, 8, 5],
            [0, 1, 8, 5],
            [0, 2, 7, 8],
            [3, 1, 11, 8],
            [3, 1, 10, 9],
        ],
        least: 1,
        sides: "lllrr",
    },
    Split {
        boxes: &[
            [3, 2, 10, 8],
            [1, 1, 7, 6],
            [0, 3, 6, 10],
            [2, 3, 6, 9],
            [1, 3, 6, 9],
        ],
        least: 1,
        sides: "llrrr",
    },
];

/// A box that is moved, and whose points are then each enlarged to a square of `scale` by `scale` points.
fn placed(ends: [i32; 4], moved: i32, scale: i32) -> Result<BoxKey, Fail> {
    let [x1, y1, x2, y2] = ends;
    let first = |at: i32| at.wrapping_add(moved).wrapping_mul(scale);
    let last = |at: i32| first(at.wrapping_add(1)).wrapping_sub(1);
    Ok(BoxKey::new(first(x1), first(y1), last(x2), last(y2))?)
}

/// Boxes that are moved and enlarged.
fn all_placed(
    alloc: Global,
    boxes: &[[i32; 4]],
    moved: i32,
    scale: i32,
) -> Result<Vec<BoxKey>, Fail> {
    let mut keys = Vec::new(alloc);
    for ends in boxes {
        keys.push(placed(*ends, moved, scale)?)?;
    }
    Ok(keys)
}

/// Whether boxes that are moved and enlarged are put on the expected sides.
fn is_split(alloc: Global, split: &Split, moved: i32, scale: i32) -> Result<bool, Fail> {
    let keys = all_placed(alloc, split.boxes, moved, scale)?;
    Ok(splits::<Boxes>(alloc, &keys, split.least, split.sides))
}

#[test]
fn splits_as_guttman_does(rt: HostRuntime) -> Result<(), Fail> {
    // As they are; below 0; and so large that most areas don't fit into 64 bits.
    for (moved, scale) in [(0, 1), (-20, 1), (-6, 300_000_000)] {
        for split in &SPLITS {
            assert!(rt;
                is_split(rt.alloc(), split, moved, scale)?,
                "{moved} {}",
                split.sides
            );
        }
    }
    Ok(())
}

/// The least number of entries for a side, and the sides of sixty-four boxes.
static SIXTY_FOUR: [(usize, &str); 3] = [
    (
        12,
        "lrlrlrlrlrllrlrlrlrlrllrlrlrlrlrllrlrlrlrlrllrlrlrlrlrllrlrlrlrl",
    ),
    (
        31,
        "lrlrlrlrlrllrlrlrlrlrllrlrlrlrlrllrlrlrlrlrrlrlrlrlrlrrlrlrlrlrl",
    ),
    (
        32,
        "lrlrlrlrlrllrlrlrlrlrllrlrlrlrlrrlrlrlrlrlrrlrlrlrlrlrrlrlrlrlrl",
    ),
];

/// The ends of one of sixty-four boxes.
fn ends_at(place: u8) -> [i32; 4] {
    let place = i32::from(place);
    let (x, y) = (place * 37 % 101 - 50, place * 53 % 97 - 50);
    [x, y, x + place * 29 % 13, y + place * 31 % 17]
}

fn sixty_four(alloc: Global, scale: i32) -> Result<Vec<BoxKey>, Fail> {
    let mut keys = Vec::new(alloc);
    for place in 0..64 {
        keys.push(placed(ends_at(place), 0, scale)?)?;
    }
    Ok(keys)
}

#[test]
fn splits_sixty_four_boxes(rt: HostRuntime) -> Result<(), Fail> {
    for scale in [1, 1 << 25] {
        let keys = sixty_four(rt.alloc(), scale)?;
        for (least, wanted) in &SIXTY_FOUR {
            assert!(rt;
                splits::<Boxes>(rt.alloc(), &keys, *least, wanted),
                "{scale} {least}"
            );
        }
    }
    Ok(())
}

/// Boxes at the ends of the range of numbers.
static ENDS: [[i32; 4]; 9] = [
    PLANE,
    FIRST,
    LAST,
    [LOW, HIGH, LOW, HIGH],
    [HIGH, LOW, HIGH, LOW],
    PLANE,
    [0, 0, 0, 0],
    [LOW, 0, HIGH, 0],
    [0, LOW, 0, HIGH],
];

/// Which of the boxes at the ends, the least number of entries for a side, and the side of each box.
static ENDS_SPLIT: [(usize, usize, usize, &str); 3] = [
    (0, 9, 3, "rlrllrrrr"),
    (0, 9, 4, "rlrllrrrl"),
    (1, 5, 1, "lrlr"),
];

/// The boxes at the ends from one to another.
fn ends(alloc: Global, first: usize, last: usize) -> Result<Vec<BoxKey>, Fail> {
    let mut keys = Vec::new(alloc);
    for (place, ends) in ENDS.iter().enumerate() {
        if first <= place && place < last {
            keys.push(key(*ends)?)?;
        }
    }
    Ok(keys)
}

fn splits_ends(
    alloc: Global,
    first: usize,
    last: usize,
    least: usize,
    wanted: &str,
) -> Result<bool, Fail> {
    Ok(splits::<Boxes>(alloc, &ends(alloc, first, last)?, least, wanted))
}

fn has_too_few_ends(alloc: Global, count: usize, least: usize) -> Result<bool, Fail> {
    Ok(has_too_few::<Boxes>(alloc, &ends(alloc, 0, count)?, least))
}

#[test]
fn splits_at_the_ends(rt: HostRuntime) -> Result<(), Fail> {
    for (first, last, least, wanted) in &ENDS_SPLIT {
        assert!(rt;
            splits_ends(rt.alloc(), *first, *last, *least, wanted)?,
            "{wanted}"
        );
    }
    let plane = key(PLANE)?;
    assert!(rt; splits::<Boxes>(rt.alloc(), &[plane; 4], 2, "lrlr"));
    for (count, least) in [(0, 1), (1, 1), (5, 3), (9, 5), (9, usize::MAX)] {
        assert!(rt;
            has_too_few_ends(rt.alloc(), count, least)?,
            "{count} {least}"
        );
    }
    Ok(())
}

/// Must pass whichever allocation is refused.
#[test]
fn answers_want_of_memory(rt: HostRuntime) -> Result<(), Fail> {
    let keys = [
        key([0, 0, 0, 0])?,
        key([1, 1, 1, 1])?,
        key([10, 10, 10, 10])?,
        key([11, 11, 11, 11])?,
    ];
    let before = keys;
    assert!(rt; splits_again::<Boxes>(rt.alloc(), &keys, 2, "llrr"));
    assert!(rt; keys == before);
    Ok(())
}
