ghost use Rattle.std.specs.Prelude.{◌≡◌, ℕ, ◌+◌, ◌<◌, ◌≤◌, List, [], length, OnOk, OnErr, IsOk, IsTrue, false, take_while, drop, ◌&&◌, vec_capacity};
ghost use Rattle.query_text.specs.Tokens.{placed, is_letter, is_digit, starts_with_digit, beginning, space, Cuts};
ghost use Rattle.query_text.specs.Scanning.{lexeme, seen_first, FitsIn, kind_glues};
ghost use Rattle.query_text.specs.OneMeaning.{AtMostOne};

use crate::lexeme::{Kind, Lexeme};
use std::alloc::AllocError;

/// What a text begins with.
#[derive(Clone, Copy, Debug)]
pub enum Leading {
    Nothing,
    Space,
    NoToken,
    Found(Kind, usize),
}

fn letters(bytes: &[u8]) -> usize
    ensures { result ≡ length (take_while is_letter bytes.now) }
{
    bytes.iter().take_while(|b| b.is_ascii_lowercase()).count()
}

fn digits(bytes: &[u8]) -> usize
    ensures { result ≡ length (take_while is_digit bytes.now) }
{
    bytes.iter().take_while(|b| b.is_ascii_digit()).count()
}

/// Where the digits end that begin at a place.
fn digits_end(text: &[u8], start: usize) -> usize
    requires { start ≤ length text.now }
    ensures counts { result ≡ start + length (take_while is_digit (drop start text.now)) }
    ensures within { result ≤ length text.now }
{
    let mut end = start;
    'digits: while starts_with_digit(behind(text, end)) {
        end += 1;
    }
    end
}

fn starts_with_space(bytes: &[u8]) -> bool
    ensures { IsTrue result → beginning bytes.now ≡ space }
{
    match bytes {
        [first, ..] => *first == b' ',
        [] => false,
    }
}

fn starts_with_digit(bytes: &[u8]) -> bool
    ensures { result ≡ starts_with_digit bytes.now }
{
    match bytes {
        [] => false,
        [first, ..] => first.is_ascii_digit(),
    }
}

fn front_of(bytes: &[u8]) -> Leading
    ensures is { beginning bytes.now ≡ seen_first bytes.now result }
    ensures fits { FitsIn result bytes.now }
{
    let [first, rest @ ..] = bytes else {
        return Leading::Nothing;
    };
    // Most bytes of a line are spaces, digits and letters, so these are tested first.
    if *first == b' ' {
        return Leading::Space;
    }
    if matches!(*first, b'0'..=b'9') {
        return Leading::Found(Kind::Number, digits(rest) + 1);
    }
    if matches!(*first, b'a'..=b'z') {
        return Leading::Found(Kind::Word, letters(rest) + 1);
    }
    match *first {
        b'(' => Leading::Found(Kind::OpenBracket, 1),
        b')' => Leading::Found(Kind::CloseBracket, 1),
        b'{' => Leading::Found(Kind::OpenBrace, 1),
        b'}' => Leading::Found(Kind::CloseBrace, 1),
        b'-' if starts_with_digit(rest) => Leading::Found(Kind::Number, digits(rest) + 1),
        _ => Leading::NoToken,
    }
}

/// Whether a space is needed between this kind and a word or a number.
fn is_glued(kind: Kind) -> bool
    ensures { result ≡ kind_glues kind }
{
    match kind {
        Kind::Word | Kind::Number => true,
        _ => false,
    }
}

fn lacks_space(glued: bool, kind: Kind) -> bool
    ensures { result ≡ (glued && kind_glues kind) }
{
    glued && is_glued(kind)
}

fn behind(bytes: &[u8], n: usize) -> &[u8]
    requires { n ≤ length bytes.now }
    ensures { result.now ≡ drop n bytes.now }
{
    &bytes[n..]
}

/// Appends the lexemes of the text to an empty list with room for one lexeme a byte.
fn cut(text: &[u8], lexemes: &mut Vec<Lexeme>)
    requires empty { lexemes.old.items ≡ [] }
    requires room { length text.now ≤ vec_capacity lexemes.old }
    ensures cut { Cuts false 0 text.now (placed text.now lexemes.new.items) }
    ensures capacity { vec_capacity lexemes.new ≡ vec_capacity lexemes.old }
{
    let mut place = 0;
    let mut glued = false;
    'cut: loop {
        let rest = behind(text, place);
        // Most tokens of a line are numbers, so these are cut first, together with the space after them.
        if starts_with_digit(rest) {
            if glued {
                lexemes.push_reserved(fault_at(place));
                return;
            }
            let end = digits_end(text, place + 1);
            lexemes.push_reserved(Lexeme {
                kind: Kind::Number,
                place,
                len: end - place,
            });
            if starts_with_space(behind(text, end)) {
                place = end + 1;
            } else {
                place = end;
                glued = true;
            }
        } else {
            match front_of(rest) {
                Leading::Nothing => return,
                Leading::Space => {
                    place += 1;
                    glued = false;
                }
                Leading::NoToken => {
                    lexemes.push_reserved(fault_at(place));
                    return;
                }
                Leading::Found(kind, len) => {
                    if lacks_space(glued, kind) {
                        lexemes.push_reserved(fault_at(place));
                        return;
                    }
                    lexemes.push_reserved(Lexeme { kind, place, len });
                    place += len;
                    glued = is_glued(kind);
                }
            }
        }
    }
}

fn fault_at(place: usize) -> Lexeme
    ensures { result ≡ lexeme Kind.Fault place 0 }
{
    Lexeme {
        kind: Kind::Fault,
        place,
        len: 0,
    }
}

/// Replaces the lexemes in the list by those of a text, up to the first fault. A list with room for one lexeme a byte
/// never needs memory.
///
/// # Errors
/// Memory ran out; the list is unchanged.
pub fn scan(text: &[u8], lexemes: &mut Vec<Lexeme>) -> Result<(), AllocError>
    ensures cut { OnOk result (Cuts false 0 text.now (placed text.now lexemes.new.items)) }
    ensures succeeds { length text.now ≤ vec_capacity lexemes.old → IsOk result }
    ensures capacity { vec_capacity lexemes.old ≤ vec_capacity lexemes.new }
    ensures err { OnErr result (lexemes.new.items ≡ lexemes.old.items) }
{
    lexemes.reserve(text.len().saturating_sub(lexemes.len()))?;
    lexemes.clear();
    cut(text, lexemes);
    Ok(())
}

/// A theorem, no code: a text is cut into tokens in one way only.
pub fn one_cut_for_text()
    ensures { (bytes : List ℕ) → AtMostOne (Cuts false 0 bytes) }
{}
