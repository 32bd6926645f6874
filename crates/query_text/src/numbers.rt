ghost use Rattle.std.specs.Prelude.{◌≡◌, ◌↔◌, pos, ◌≤◌, ◌<◌, ◌^◌, ◌-◌, ◌+◌, ◌*◌, length, IsTrue, IfSome, Some, None};
ghost use Rattle.std.specs.Option.{option_map};
ghost use Rattle.query_text.specs.Tokens.{word, number, token_in, number_value, number_within, decimal_value_after, least_i32, most_i32, least_i64, most_i64, FitsOrNone, u64_number};

use crate::lexeme::{Kind, Lexeme};

/// A number of this many digits is always below 2^64, so its digits needn't be checked one by one.
const FEW: usize = 17;

fn digit_value(digit: u8) -> u64
    ensures is { result ≡ digit - 48 }
    ensures small { result ≤ 207 }
{
    u64::from(digit).saturating_sub(u64::from(b'0'))
}

/// The number of these few digits.
fn few_digits(digits: &[u8]) -> u64
    requires few { length digits.now ≤ 17 }
    ensures { result ≡ decimal_value_after 0 digits.now }
{
    let mut value = 0;
    for digit in digits {
        value = value * 10 + digit_value(*digit);
    }
    value
}

/// The number with one more digit, unless it is 2^64 or more.
fn with_digit(value: u64, digit: u8) -> Option<u64>
    ensures { FitsOrNone (λ n. n) (value * 10 + (digit - 48)) result }
{
    value.checked_mul(10)?.checked_add(digit_value(digit))
}

/// The number of these digits, unless it is 2^64 or more.
fn magnitude(digits: &[u8]) -> Option<u64>
    ensures { FitsOrNone (λ n. n) (decimal_value_after 0 digits.now) result }
{
    if digits.len() <= FEW {
        return Some(few_digits(digits));
    }
    let mut value = 0;
    for digit in digits {
        let Some(next) = with_digit(value, *digit) else {
            return None;
        };
        value = next;
    }
    Some(value)
}

/// The number of at most three bytes without a minus.
pub fn short_number(bytes: &[u8]) -> Option<u64>
    ensures { IfSome result (λ n. number_value bytes.now ≡ pos n) }
{
    match bytes {
        [tens, digit] if *tens != b'-' => Some(digit_value(*tens) * 10 + digit_value(*digit)),
        [hundreds, tens, digit] if *hundreds != b'-' => Some(
            (digit_value(*hundreds) * 10 + digit_value(*tens)) * 10 + digit_value(*digit),
        ),
        [digit] => Some(digit_value(*digit)),
        _ => None,
    }
}

/// The number in these bytes, if it is an unsigned one of 64 bits.
fn natural(bytes: &[u8]) -> Option<u64>
    ensures { option_map pos result ≡ u64_number (number (number_value bytes.now)) }
{
    match bytes {
        [b'-', digits @ ..] => match magnitude(digits)? {
            0 => Some(0),
            _ => None,
        },
        _ => magnitude(bytes),
    }
}

/// The number in these bytes, if it is a signed one of 64 bits.
fn integer(bytes: &[u8]) -> Option<i64>
    ensures { result ≡ number_within least_i64 most_i64 (number (number_value bytes.now)) }
{
    match bytes {
        [b'-', digits @ ..] => 0_i64.checked_sub_unsigned(magnitude(digits)?),
        _ => i64::try_from(magnitude(bytes)?).ok(),
    }
}

impl Lexeme {
    /// Its number, if it is an unsigned one of 64 bits. Leading zeros are ignored, and `-0` is 0.
    pub fn unsigned(self, text: &[u8]) -> Option<u64>
        ensures { option_map pos result ≡ u64_number (token_in text.now self) }
    {
        match self.kind {
            Kind::Number => natural(self.bytes(text)),
            _ => None,
        }
    }

    /// Its number, if it is a signed one of 64 bits.
    pub fn signed(self, text: &[u8]) -> Option<i64>
        ensures { result ≡ number_within least_i64 most_i64 (token_in text.now self) }
    {
        match self.kind {
            Kind::Number => integer(self.bytes(text)),
            _ => None,
        }
    }

    /// Its number, if it is a signed one of 32 bits.
    pub fn signed_32(self, text: &[u8]) -> Option<i32>
        ensures { result ≡ number_within least_i32 most_i32 (token_in text.now self) }
    {
        i32::try_from(self.signed(text)?).ok()
    }
}
