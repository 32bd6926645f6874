ghost use Rattle.std.specs.Prelude.{◌≡◌, ◌<◌, [], ◌∷◌, length, IfOk, MatchOption};
ghost use Rattle.query_text.specs.Tokens.{least_i32, most_i32, least_i64, most_i64};
ghost use Rattle.query_text.specs.Keys.{GivesRead, expected_at, number_at, is_open_bracket, is_close_bracket, is_open_brace};

use crate::lexeme::{Kind, Lexeme};

/// The first lexeme and the others, unless there is none.
pub fn first_of(lexemes: &[Lexeme]) -> Option<(Lexeme, &[Lexeme])>
    ensures { MatchOption result (lexemes.now ≡ []) (λ r. lexemes.now ≡ r.0 ∷ r.1.now) }
{
    match lexemes {
        [] => None,
        [first, rest @ ..] => Some((*first, rest)),
    }
}

/// The place of an opening bracket at the front, and the lexemes after it.
pub fn open_bracket<'a>(text: &[u8], lexemes: &'a [Lexeme]) -> Result<(usize, &'a [Lexeme]), usize>
    ensures gives { GivesRead (expected_at is_open_bracket) text.now lexemes.now result }
    ensures shorter { IfOk result (λ r. length r.1.now < length lexemes.now) }
{
    match lexemes {
        [] => Err(text.len()),
        [first, rest @ ..] => match first.kind {
            Kind::OpenBracket => Ok((first.place, rest)),
            _ => Err(first.place),
        },
    }
}

/// The same for a closing bracket.
pub fn close_bracket<'a>(text: &[u8], lexemes: &'a [Lexeme]) -> Result<(usize, &'a [Lexeme]), usize>
    ensures gives { GivesRead (expected_at is_close_bracket) text.now lexemes.now result }
    ensures shorter { IfOk result (λ r. length r.1.now < length lexemes.now) }
{
    match lexemes {
        [] => Err(text.len()),
        [first, rest @ ..] => match first.kind {
            Kind::CloseBracket => Ok((first.place, rest)),
            _ => Err(first.place),
        },
    }
}

/// The same for an opening brace.
pub fn open_brace<'a>(text: &[u8], lexemes: &'a [Lexeme]) -> Result<(usize, &'a [Lexeme]), usize>
    ensures gives { GivesRead (expected_at is_open_brace) text.now lexemes.now result }
    ensures shorter { IfOk result (λ r. length r.1.now < length lexemes.now) }
{
    match lexemes {
        [] => Err(text.len()),
        [first, rest @ ..] => match first.kind {
            Kind::OpenBrace => Ok((first.place, rest)),
            _ => Err(first.place),
        },
    }
}

/// A signed number of 64 bits at the front, and the lexemes after it.
pub fn signed<'a>(text: &[u8], lexemes: &'a [Lexeme]) -> Result<(i64, &'a [Lexeme]), usize>
    ensures gives { GivesRead (number_at least_i64 most_i64) text.now lexemes.now result }
    ensures shorter { IfOk result (λ r. length r.1.now < length lexemes.now) }
{
    match lexemes {
        [] => Err(text.len()),
        [first, rest @ ..] => match first.signed(text) {
            Some(n) => Ok((n, rest)),
            None => Err(first.place),
        },
    }
}

/// The same with 32 bits.
pub fn signed_32<'a>(text: &[u8], lexemes: &'a [Lexeme]) -> Result<(i32, &'a [Lexeme]), usize>
    ensures gives { GivesRead (number_at least_i32 most_i32) text.now lexemes.now result }
    ensures shorter { IfOk result (λ r. length r.1.now < length lexemes.now) }
{
    match lexemes {
        [] => Err(text.len()),
        [first, rest @ ..] => match first.signed_32(text) {
            Some(n) => Ok((n, rest)),
            None => Err(first.place),
        },
    }
}
