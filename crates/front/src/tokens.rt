//! Readers of what is at the front of a line's lexemes.
ghost use Rattle.std.specs.Prelude.{◌≡◌, [], Ok, Err, OnOk, IfErr};
ghost use Rattle.query_text.specs.Keys.{GivesRead};
ghost use Rattle.query_text.specs.declared.lexeme.Lexeme.{Lexeme};
ghost use Rattle.query_text.specs.Tokens.{token_in};
ghost use Rattle.front.specs.Requests.{is_from, natural_at, one_number, start_at, BeginAt, IsRead};

use query_text::{Kind, Lexeme, first_of, same_bytes};

/// A number from 0 to 2^64 - 1 at the front, and the lexemes after it.
///
/// # Errors
/// The place of the fault in the text; the text's length if the number is missing at its end.
pub fn natural<'a>(text: &[u8], lexemes: &'a [Lexeme]) -> Result<(u64, &'a [Lexeme]), usize>
    ensures { GivesRead natural_at text.now lexemes.now result }
{
    match lexemes {
        [] => Err(text.len()),
        [first, rest @ ..] => match first.unsigned(text) {
            Some(number) => Ok((number, rest)),
            None => Err(first.place),
        },
    }
}

/// Whether a lexeme is the word `from`.
fn is_from(text: &[u8], lexeme: Lexeme) -> bool
    ensures { result ≡ is_from (token_in text.now lexeme) }
{
    match lexeme.kind {
        Kind::Word => same_bytes(lexeme.bytes(text), b"from"),
        _ => false,
    }
}

/// The commit that a cursor follows, if the word `from` and a number are at the front, and the lexemes after them.
///
/// # Errors
/// The place of the fault in the text; the text's length if the number is missing at its end.
pub fn start<'a>(text: &[u8], lexemes: &'a [Lexeme]) -> Result<(Option<u64>, &'a [Lexeme]), usize>
    ensures { GivesRead start_at text.now lexemes.now result }
{
    match lexemes {
        [] => Ok((None, lexemes)),
        [first, rest @ ..] => {
            if is_from(text, *first) {
                let commit = natural(text, rest)?;
                Ok((Some(commit.0), commit.1))
            } else {
                Ok((None, lexemes))
            }
        }
    }
}

/// Checks that no lexeme is left.
///
/// # Errors
/// The place of the first lexeme that is left.
pub fn end(lexemes: &[Lexeme]) -> Result<(), usize>
    ensures ok { OnOk result (lexemes.now ≡ []) }
    ensures err { IfErr result (BeginAt lexemes.now) }
{
    match first_of(lexemes) {
        None => Ok(()),
        Some((first, _)) => Err(first.place),
    }
}

/// A number from 0 to 2^64 - 1 with nothing after it.
///
/// # Errors
/// The place of the first fault.
pub fn lone_number(text: &[u8], lexemes: &[Lexeme]) -> Result<u64, usize>
    ensures { IsRead (one_number (λ m. m)) text.now lexemes.now result }
{
    let number = natural(text, lexemes)?;
    end(number.1)?;
    Ok(number.0)
}
