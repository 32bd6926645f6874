//! Lines that are written from their end to their beginning, as digits are computed from the last to the first.
ghost use Rattle.std.specs.Prelude.{◌≡◌, ◌+◌, ◌≤◌, [], ◌∷◌, ◌++◌, length, decimal};
ghost use Rattle.std.specs.Fmt.{signed_decimal};

use itoa::write_digits;
use std::marker::Model;

/// How many bytes fit: some lines of rows, which are then written together.
pub const LINE: usize = 4_096;

/// The bytes of one or more lines, or of their end. What is put in comes in front of what is there.
#[derive(Drop)]
pub struct PrintBuffer {
    bytes: [u8; LINE],
    start: usize,
}

impl Model for PrintBuffer {
    ghost use Rattle.std.specs.Prelude.{ℕ, ◌≤◌, List, drop};

    ghost Value = { List ℕ };

    ghost view = { λ l. drop l.start l.bytes };

    ghost invariant = { λ l. l.start ≤ 4096 };
}

impl PrintBuffer {
    /// A buffer with no bytes.
    pub fn new() -> PrintBuffer
        ensures { result ≡ [] }
    {
        PrintBuffer {
            bytes: [0; LINE],
            start: LINE,
        }
    }

    /// Removes all bytes.
    #[inline]
    pub fn clear(&mut self)
        ensures { self.new ≡ [] }
    {
        self.start = LINE;
    }

    #[inline]
    pub fn as_slice(&self) -> &[u8]
        ensures { result.now ≡ self.now }
    {
        &self.bytes[self.start..]
    }

    /// Puts a byte in front of the others.
    #[inline]
    pub fn put_byte(&mut self, byte: u8)
        requires room { length self.old + 1 ≤ 4096 }
        ensures { self.new ≡ byte ∷ self.old }
    {
        self.start -= 1;
        self.bytes[self.start] = byte;
    }

    /// Puts bytes in front of the others.
    #[inline]
    pub fn put(&mut self, bytes: &[u8])
        requires room { length self.old + length bytes.now ≤ 4096 }
        ensures { self.new ≡ bytes.now ++ self.old }
    {
        let end = self.start;
        self.start -= bytes.len();
        self.bytes[self.start..end].copy_from_slice(bytes);
    }

    /// Puts the digits of a number in front of the bytes.
    #[inline]
    pub fn put_number(&mut self, number: u64)
        requires room { length self.old + 20 ≤ 4096 }
        ensures digits { self.new ≡ decimal number ++ self.old }
        ensures short { length self.new ≤ length self.old + 20 }
    {
        self.start = write_digits(number, &mut self.bytes, self.start);
    }

    /// Puts a number, with a minus if it is below 0, in front of the bytes.
    #[inline]
    pub fn put_signed(&mut self, number: i64)
        requires room { length self.old + 20 ≤ 4096 }
        ensures digits { self.new ≡ signed_decimal number ++ self.old }
        ensures short { length self.new ≤ length self.old + 20 }
    {
        self.start = write_digits(number.unsigned_abs(), &mut self.bytes, self.start);
        if number < 0 {
            self.put_byte(b'-');
        }
    }
}
