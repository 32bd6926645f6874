//! Guttman's quadratic split of boxes, written naively from its description, to compare with the class.
use crate::letters::{OPEN, count, needy_side, put, put_rest};
use crate::picks::splits_as;
use crate::random_pages::{PAGES, Shape, Source};
use box_class::{BoxKey, Boxes};
use std::alloc::Global;
use std::test::Fail;

/// The ends x1, y1, x2, y2 of a box.
type Ends = [i32; 4];

/// The least box over two.
fn over(a: Ends, b: Ends) -> Ends {
    let [left, low, right, high] = a;
    let [other_left, other_low, other_right, other_high] = b;
    [
        left.min(other_left),
        low.min(other_low),
        right.max(other_right),
        high.max(other_high),
    ]
}

fn points_along(first: i32, last: i32) -> i128 {
    i128::from(last)
        .wrapping_sub(i128::from(first))
        .wrapping_add(1)
}

/// The number of points in a box.
fn size(ends: Ends) -> i128 {
    let [x1, y1, x2, y2] = ends;
    points_along(x1, x2).wrapping_mul(points_along(y1, y2))
}

/// The area of the least box over two, without the areas of both.
fn waste(a: Ends, b: Ends) -> i128 {
    size(over(a, b)).wrapping_sub(size(a)).wrapping_sub(size(b))
}

/// By how much a box enlarges a bound.
fn gain(bound: Ends, ends: Ends) -> i128 {
    size(over(bound, ends)).wrapping_sub(size(bound))
}

/// The pair that wastes most; among equals the one with the lower first place, then with the lower second place.
fn seeds(boxes: &[Ends]) -> (usize, usize) {
    let mut pair = (0, 0);
    let mut most = i128::MIN;
    for (first, one) in boxes.iter().enumerate() {
        for (second, other) in boxes.iter().enumerate().skip(first.saturating_add(1)) {
            let here = waste(*one, *other);
            if here > most {
                pair = (first, second);
                most = here;
            }
        }
    }
    pair
}

/// The least box over those of a side.
fn bound_of(boxes: &[Ends], letters: &[u8], side: u8) -> Option<Ends> {
    let mut bound = None;
    for (ends, letter) in boxes.iter().zip(letters) {
        if *letter == side {
            bound = Some(bound.map_or(*ends, |bound| over(bound, *ends)));
        }
    }
    bound
}

/// By how much the enlargements of the two bounds differ for a box.
fn difference(left: Ends, right: Ends, ends: Ends) -> i128 {
    gain(left, ends)
        .wrapping_sub(gain(right, ends))
        .wrapping_abs()
}

/// The open entry whose enlargements differ most; among equals the one with the lowest place.
fn most_decided(boxes: &[Ends], letters: &[u8], left: Ends, right: Ends) -> Option<usize> {
    let mut found = None;
    let mut most = -1;
    for (place, (ends, letter)) in boxes.iter().zip(letters).enumerate() {
        if *letter != OPEN {
            continue;
        }
        let here = difference(left, right, *ends);
        if here > most {
            found = Some(place);
            most = here;
        }
    }
    found
}

/// The side of a box: the bound that it enlarges less, then the smaller bound, then the side with fewer entries, then
/// left.
fn side_of(letters: &[u8], left: Ends, right: Ends, ends: Ends) -> u8 {
    let to_left = (gain(left, ends), size(left), count(letters, b'l'));
    let to_right = (gain(right, ends), size(right), count(letters, b'r'));
    if to_right < to_left { b'r' } else { b'l' }
}

/// Puts one more entry on a side, or all open ones if one side needs them.
fn put_next(boxes: &[Ends], letters: &mut [u8], least: usize) {
    if let Some(side) = needy_side(letters, least) {
        return put_rest(letters, side);
    }
    let Some(left) = bound_of(boxes, letters, b'l') else {
        return;
    };
    let Some(right) = bound_of(boxes, letters, b'r') else {
        return;
    };
    let Some(place) = most_decided(boxes, letters, left, right) else {
        return;
    };
    if let Some(ends) = boxes.get(place) {
        put(letters, place, side_of(letters, left, right, *ends));
    }
}

fn plain_letters(alloc: Global, boxes: &[Ends], least: usize) -> Result<Vec<u8>, Fail> {
    let mut letters = vec![in alloc; OPEN; boxes.len()]?;
    let (first, second) = seeds(boxes);
    put(&mut letters, first, b'l');
    put(&mut letters, second, b'r');
    for _ in boxes {
        put_next(boxes, &mut letters, least);
    }
    Ok(letters)
}

fn end(source: &mut Source, shape: Shape) -> i32 {
    let number = shape.start.wrapping_add(source.number() & shape.mask);
    u32::try_from(number & u64::from(u32::MAX))
        .unwrap_or(0)
        .cast_signed()
}

/// Two ends in their order.
fn both_ends(source: &mut Source, shape: Shape) -> (i32, i32) {
    let first = end(source, shape);
    if source.is_one_of(shape.points) {
        return (first, first);
    }
    let second = match shape.near {
        Some(bits) => first.saturating_add(i32::try_from(source.number() & bits).unwrap_or(0)),
        None => end(source, shape),
    };
    (first.min(second), first.max(second))
}

fn random_ends(source: &mut Source, shape: Shape) -> Ends {
    let (x1, x2) = both_ends(source, shape);
    let (y1, y2) = both_ends(source, shape);
    [x1, y1, x2, y2]
}

fn random_boxes(alloc: Global, source: &mut Source, shape: Shape) -> Result<Vec<Ends>, Fail> {
    let mut boxes = Vec::new(alloc);
    for _ in 0..shape.count {
        let ends = match source.repeated(shape, &boxes) {
            Some(ends) => ends,
            None => random_ends(source, shape),
        };
        boxes.push(ends)?;
    }
    Ok(boxes)
}

fn keys(alloc: Global, boxes: &[Ends]) -> Result<Vec<BoxKey>, Fail> {
    let mut keys = Vec::new(alloc);
    for [x1, y1, x2, y2] in boxes {
        keys.push(BoxKey::new(*x1, *y1, *x2, *y2)?)?;
    }
    Ok(keys)
}

/// Whether the class puts the boxes of the next random page on the same sides as the naive split.
fn splits_next(alloc: Global, source: &mut Source) -> Result<bool, Fail> {
    let shape = source.shape(32);
    let boxes = random_boxes(alloc, source, shape)?;
    let letters = plain_letters(alloc, &boxes, shape.least)?;
    let keys = keys(alloc, &boxes)?;
    Ok(splits_as::<Boxes>(alloc, &keys, shape.least, &letters))
}

#[test]
fn splits_random_boxes_by_the_rule(rt: HostRuntime) -> Result<(), Fail> {
    let mut source = Source::new(1);
    for page in 0..PAGES {
        assert!(rt; splits_next(rt.alloc(), &mut source)?, "page {page}");
    }
    Ok(())
}
