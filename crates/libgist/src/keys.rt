//! Keys of each class as 16 bytes.
ghost use Rattle.std.specs.Prelude.{◌≡◌};
ghost use Rattle.query_text.specs.IntervalTexts.{interval_of};
ghost use Rattle.query_text.specs.BoxTexts.{box_of};
ghost use Rattle.libgist.specs.IntervalKeys.{interval_told, interval_words};
ghost use Rattle.libgist.specs.BoxKeys.{box_told, box_words, lower_half, upper_half, word_of};
ghost use Rattle.libgist.specs.SetKeys.{set_told, set_words};

use crate::crossing::Crossing;
use crate::words::KeyWords;
use box_class::{BoxKey, Boxes};
use interval_class::{Interval, Intervals};
use set_class::{Elements, Sets};

/// The interval with these ends, or `None` if they are out of order.
fn interval(lo: i64, hi: i64) -> Option<Interval>
    ensures { result ≡ interval_of lo hi }
{
    match Interval::new(lo, hi) {
        Ok(key) => Some(key),
        Err(_) => None,
    }
}

impl Crossing for Intervals {
    ghost key_of = { interval_told };

    ghost words_of = { interval_words };

    fn key(words: KeyWords) -> Option<Interval>
        ensures { result ≡ interval_told words }
    {
        interval(words.first.cast_signed(), words.second.cast_signed())
    }

    fn words(key: Interval) -> KeyWords
        ensures { result ≡ interval_words key }
    {
        KeyWords {
            first: key.lo.cast_unsigned(),
            second: key.hi.cast_unsigned(),
        }
    }
}

/// The box with these ends, or `None` if they are out of order.
fn box_key(x1: i32, y1: i32, x2: i32, y2: i32) -> Option<BoxKey>
    ensures { result ≡ box_of x1 y1 x2 y2 }
{
    match BoxKey::new(x1, y1, x2, y2) {
        Ok(key) => Some(key),
        Err(_) => None,
    }
}

/// The lower 32 bits of a word, as a signed number.
fn lower_half(word: u64) -> i32
    ensures { result ≡ lower_half word }
{
    ((word % (1 << 32)) as u32).cast_signed()
}

/// The upper 32 bits of a word, as a signed number.
fn upper_half(word: u64) -> i32
    ensures { result ≡ upper_half word }
{
    ((word / (1 << 32)) as u32).cast_signed()
}

/// The word with these two halves.
fn word(lower: i32, upper: i32) -> u64
    ensures { result ≡ word_of lower upper }
{
    u64::from(upper.cast_unsigned()) * (1 << 32) + u64::from(lower.cast_unsigned())
}

impl Crossing for Boxes {
    ghost key_of = { box_told };

    ghost words_of = { box_words };

    fn key(words: KeyWords) -> Option<BoxKey>
        ensures { result ≡ box_told words }
    {
        box_key(
            lower_half(words.first),
            upper_half(words.first),
            lower_half(words.second),
            upper_half(words.second),
        )
    }

    fn words(key: BoxKey) -> KeyWords
        ensures { result ≡ box_words key }
    {
        KeyWords {
            first: word(key.x1, key.y1),
            second: word(key.x2, key.y2),
        }
    }
}

impl Crossing for Sets {
    ghost key_of = { set_told };

    ghost words_of = { set_words };

    fn key(words: KeyWords) -> Option<Elements>
        ensures { result ≡ set_told words }
    {
        Some(Elements {
            mask: u128::from(words.second) * (1 << 64) + u128::from(words.first),
        })
    }

    fn words(key: Elements) -> KeyWords
        ensures { result ≡ set_words key }
    {
        KeyWords {
            first: (key.mask % (1 << 64)) as u64,
            second: (key.mask / (1 << 64)) as u64,
        }
    }
}
