//! Comparing texts, and appending to a text in an array that has room.
ghost use Rattle.std.specs.Prelude.{◌≡◌, ◌+◌, ◌≤◌, ◌++◌, length};
ghost use Rattle.std.specs.Str.{bytes_eq};

use arrayvec::ArrayVec;
use itoa::{Buffer, Integer};

/// Whether two texts have the same bytes. It reads only up to the first difference.
#[inline]
pub fn same_bytes(text: &[u8], other: &[u8]) -> bool
    ensures { result ≡ bytes_eq text.now other.now }
{
    match (text, other) {
        ([first, ..], [expected, ..]) => *first == *expected && text == other,
        _ => text == other,
    }
}

/// Appends bytes to a text.
pub fn append<const CAPACITY: usize>(text: &mut ArrayVec<u8, CAPACITY>, bytes: &[u8])
    requires room { length text.old.items + length bytes.now ≤ CAPACITY }
    ensures { text.new.items ≡ text.old.items ++ bytes.now }
{
    match text.try_extend_from_slice(bytes) {
        Ok(()) => {}
        Err(_) => unreachable!(),
    }
}

/// Appends the digits of a number to a text.
pub fn append_number<I: Integer, const CAPACITY: usize>(
    text: &mut ArrayVec<u8, CAPACITY>,
    number: I,
)
    requires room { length text.old.items + I.MAX_STR_LEN ≤ CAPACITY }
    ensures digits { text.new.items ≡ text.old.items ++ I.text number }
    ensures short { length text.new.items ≤ length text.old.items + I.MAX_STR_LEN }
{
    append(text, Buffer::new().format(number).as_bytes());
}
