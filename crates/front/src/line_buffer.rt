ghost use Rattle.std.specs.Prelude.{◌≡◌, ◌≤◌, ◌+◌, ◌-◌, ◌<◌, Ok, [], true, false, length, take, drop, IfOk, IfErr, IfSome, IsNone};
ghost use Rattle.std.specs.Io.KnownBytes.{IsAtEnd};
ghost use Rattle.front.specs.Lines.{HasNoFeed, IsFirstFeed, IsFirstLine};
ghost use Rattle.front.specs.Buffered.{Buffered, AreMovedToFront, FailsToRead, FillsFrom, ReadsMore};

use crate::retrying::read_retrying;
use key_class::Fault;
use key_class::limits::MAX_LINE;
use memchr::memchr;
use std::alloc::{AllocError, Global};
use std::io::Read;
use std::marker::Model;

/// How many bytes are held: those of the longest line and one more, which is its line feed or shows that the line is
/// too long.
const ROOM: usize = 4_097;

/// The bytes that were read but whose lines aren't answered yet.
#[derive(Drop)]
pub struct LineBuffer {
    bytes: Vec<u8>,
    start: usize,
    end: usize,
    /// The line is too long: its first bytes were dropped.
    overlong: bool,
}

impl Model for LineBuffer {
    ghost use Rattle.std.specs.Prelude.{ℕ, ◌≡◌, ◌≤◌, ◌-◌, length, take, drop};
    ghost use Rattle.front.specs.Buffered.{Buffered};

    ghost Value = { Buffered };

    ghost view = { λ b. record { rest = take (b.end - b.start) (drop b.start b.bytes.items); overlong = b.overlong } };

    ghost invariant = { λ b. (length b.bytes.items ≡ 4097) × (b.start ≤ b.end) × (b.end ≤ 4097) };
}

impl LineBuffer {
    /// An empty buffer.
    pub fn new(alloc: Global) -> Result<LineBuffer, AllocError>
        ensures { IfOk result (λ b. b ≡ record { rest = []; overlong = false }) }
    {
        let bytes = vec![in alloc; 0; ROOM]?;
        Ok(LineBuffer {
            bytes,
            start: 0,
            end: 0,
            overlong: false,
        })
    }

    /// Whether the line is too long, so that its first bytes were dropped.
    pub fn is_overlong(&self) -> bool
        ensures { result ≡ self.now.overlong }
    {
        self.overlong
    }

    /// All bytes that are held.
    pub fn rest(&self) -> &[u8]
        ensures { result.now ≡ self.now.rest }
    {
        &self.bytes[self.start..self.end]
    }

    /// The first line that is held, without its line feed, if that has been read.
    pub fn line(&self) -> Option<&[u8]>
        ensures line { IfSome result (λ l. IsFirstLine self.now.rest l.now) }
        ensures none { IsNone result → HasNoFeed self.now.rest }
    {
        let rest = self.rest();
        let at = feed_of(rest)?;
        Some(&rest[..at])
    }

    /// Drops the first `count` bytes: a whole line with its line feed.
    pub fn pass(&mut self, count: usize)
        requires { count ≤ length self.old.rest }
        ensures { self.new ≡ record { rest = drop count self.old.rest; overlong = false } }
    {
        self.start += count;
        self.overlong = false;
    }

    /// Reads at least one more byte, and appends what was read to what is held; false if the reader has no more.
    /// Bytes of a line that is too long are dropped.
    ///
    /// # Errors
    /// `Read` if the reader failed other than by a signal. It then still has all that it had.
    pub fn fill<R: Read>(&mut self, reader: &mut R) -> Result<bool, Fault>
        ensures ok { IfOk result (FillsFrom R.remaining reader.old reader.new self.old self.new) }
        ensures err { IfErr result (FailsToRead R.remaining reader.old reader.new) }
    {
        let held = match moved_to_front(&mut self.bytes, self.start, self.end) {
            Some(held) => held,
            None => {
                self.overlong = true;
                0
            }
        };
        self.start = 0;
        self.end = held;
        let count = read_behind(&mut self.bytes, held, reader)?;
        self.end = held + count;
        Ok(count > 0)
    }
}

/// Moves the bytes from `start` to `end` to the front, so that there is room after them, and gives their number. `None`
/// if they fill the whole buffer.
fn moved_to_front(bytes: &mut [u8], start: usize, end: usize) -> Option<usize>
    requires order { start ≤ end }
    requires within { end ≤ length bytes.old }
    ensures some { IfSome result (AreMovedToFront start end bytes.old bytes.new) }
    ensures none { IsNone result → end - start ≡ length bytes.old }
{
    let held = end - start;
    if held == bytes.len() {
        return None;
    }
    bytes.copy_within(start..end, 0);
    Some(held)
}

/// Reads bytes into the room after the first `held`, and gives how many were read.
///
/// # Errors
/// `Read` if the reader failed other than by a signal. It then still has all that it had.
fn read_behind<R: Read>(bytes: &mut [u8], held: usize, reader: &mut R) -> Result<usize, Fault>
    requires { held < length bytes.old }
    ensures ok { IfOk result (ReadsMore R.remaining reader.old reader.new held bytes.new) }
    ensures within { IfOk result (λ n. held + n ≤ length bytes.new) }
    ensures end { result ≡ Ok 0 → IsAtEnd (R.remaining reader.new) }
    ensures held { take held bytes.new ≡ take held bytes.old }
    ensures err { IfErr result (FailsToRead R.remaining reader.old reader.new) }
{
    match read_retrying(reader, &mut bytes[held..]) {
        Ok(count) => Ok(count),
        Err(_) => Err(Fault::Read),
    }
}

/// The place of the first line feed.
fn feed_of(bytes: &[u8]) -> Option<usize>
    ensures some { IfSome result (IsFirstFeed bytes.now) }
    ensures none { IsNone result → HasNoFeed bytes.now }
{
    memchr(b'\n', bytes)
}
