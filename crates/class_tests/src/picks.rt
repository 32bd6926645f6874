use key_class::{KeyClass, Refusal, Side, Sides};
use std::alloc::Global;

/// Whether sides are the expected letters: l for left, r for right.
pub fn are(sides: &Sides, letters: &str) -> bool {
    have_letters(sides, letters.as_bytes())
}

fn have_letters(sides: &Sides, letters: &[u8]) -> bool {
    if sides.len() != letters.len() {
        return false;
    }
    for place in 0..sides.len() {
        let letter = match sides.side(place) {
            Side::Left => b'l',
            Side::Right => b'r',
        };
        if letter != letters[place] {
            return false;
        }
    }
    true
}

/// Whether a class puts keys on these sides.
pub fn splits<C: KeyClass>(alloc: Global, keys: &[C::Key], least: usize, wanted: &str) -> bool {
    splits_as::<C>(alloc, keys, least, wanted.as_bytes())
}

/// The same, with the letters as bytes.
pub fn splits_as<C: KeyClass>(alloc: Global, keys: &[C::Key], least: usize, wanted: &[u8]) -> bool {
    if least < 1 {
        return false;
    }
    match C::pick_split(alloc, keys, least) {
        Ok(sides) => have_letters(&sides, wanted),
        Err(_) => false,
    }
}

/// The same. A refused allocation must be answered as such, and the split succeed when it is asked for again.
pub fn splits_again<C: KeyClass>(
    alloc: Global,
    keys: &[C::Key],
    least: usize,
    wanted: &str,
) -> bool {
    if least < 1 {
        return false;
    }
    match C::pick_split(alloc, keys, least) {
        Ok(sides) => are(&sides, wanted),
        Err(Refusal::OutOfMemory) => splits::<C>(alloc, keys, least, wanted),
        Err(_) => false,
    }
}

/// Whether a class has too few keys for two sides of `least` keys.
pub fn has_too_few<C: KeyClass>(alloc: Global, keys: &[C::Key], least: usize) -> bool {
    least >= 1 && C::pick_split(alloc, keys, least).err() == Some(Refusal::TooFew)
}
