/// Entries get letters as their sides are worked out: l for left, r for right, and this one while the entry is open.
pub const OPEN: u8 = b'-';

/// How many entries have a letter.
pub fn count(letters: &[u8], letter: u8) -> usize {
    let mut count = 0;
    for other in letters {
        if *other == letter {
            count = usize::saturating_add(count, 1);
        }
    }
    count
}

/// Puts an entry on a side.
pub fn put(letters: &mut [u8], place: usize, side: u8) {
    if let Some(letter) = letters.get_mut(place) {
        *letter = side;
    }
}

/// Puts all open entries on a side.
pub fn put_rest(letters: &mut [u8], side: u8) {
    for letter in letters.iter_mut() {
        if *letter == OPEN {
            *letter = side;
        }
    }
}

/// The side, if any, that needs all open entries to reach the least number.
pub fn needy_side(letters: &[u8], least: usize) -> Option<u8> {
    let open = count(letters, OPEN);
    if count(letters, b'l').saturating_add(open) == least {
        return Some(b'l');
    }
    if count(letters, b'r').saturating_add(open) == least {
        return Some(b'r');
    }
    None
}
