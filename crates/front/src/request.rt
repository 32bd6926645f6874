ghost use Rattle.std.specs.Prelude.{◌≡◌};
ghost use Rattle.query_text.specs.Tokens.{token_in};
ghost use Rattle.front.specs.Requests.{verb_of, verb_of_word, key_and_tag, number_and_key, room_and_query, asked_from, IsAsked};

use crate::tokens::{end, lone_number, natural, start};
use query_text::{ClassText, Kind, Lexeme, same_bytes};

/// The word that a command begins with.
#[derive(Clone, Copy, Debug)]
pub enum Verb {
    Insert,
    Delete,
    Move,
    Open,
    Next,
    Mark,
    Find,
    Sweep,
    Close,
    /// Any other token.
    Other,
}

/// What a line asks. A query is still its lexemes.
#[derive(Clone, Copy, Debug)]
pub enum Request<'a, K> {
    Insert(K, u64),
    Delete(u64),
    Move(u64, K),
    /// Its room, the commit that it follows, if any, and its query.
    Open(u64, Option<u64>, &'a [Lexeme]),
    Next(u64),
    Mark(u64),
    Find(&'a [Lexeme]),
    Sweep,
    Close(u64),
}

fn verb_of_word(word: &[u8]) -> Verb
    ensures { result ≡ verb_of_word word.now }
{
    match word {
        b"find" => Verb::Find,
        b"next" => Verb::Next,
        _ if same_bytes(word, b"insert") => Verb::Insert,
        _ if same_bytes(word, b"delete") => Verb::Delete,
        _ if same_bytes(word, b"move") => Verb::Move,
        _ if same_bytes(word, b"open") => Verb::Open,
        _ if same_bytes(word, b"mark") => Verb::Mark,
        _ if same_bytes(word, b"sweep") => Verb::Sweep,
        _ if same_bytes(word, b"close") => Verb::Close,
        _ => Verb::Other,
    }
}

/// The verb that a lexeme spells at the front of a line.
pub fn read_verb(text: &[u8], lexeme: Lexeme) -> Verb
    ensures { result ≡ verb_of (token_in text.now lexeme) }
{
    match lexeme.kind {
        Kind::Word => verb_of_word(lexeme.bytes(text)),
        _ => Verb::Other,
    }
}

fn insert<'a, C: ClassText>(
    text: &[u8],
    lexemes: &'a [Lexeme],
) -> Result<Request<'a, C::Key>, usize>
    ensures { IsAsked (key_and_tag C.texts.key_at) text.now lexemes.now result }
{
    let key = C::read_key(text, lexemes)?;
    let tag = natural(text, key.1)?;
    end(tag.1)?;
    Ok(Request::Insert(key.0, tag.0))
}

fn move_row<'a, C: ClassText>(
    text: &[u8],
    lexemes: &'a [Lexeme],
) -> Result<Request<'a, C::Key>, usize>
    ensures { IsAsked (number_and_key C.texts.key_at) text.now lexemes.now result }
{
    let row = natural(text, lexemes)?;
    let key = C::read_key(text, row.1)?;
    end(key.1)?;
    Ok(Request::Move(row.0, key.0))
}

fn open<'a, K: Copy>(text: &[u8], lexemes: &'a [Lexeme]) -> Result<Request<'a, K>, usize>
    ensures { IsAsked room_and_query text.now lexemes.now result }
{
    let room = natural(text, lexemes)?;
    let start = start(text, room.1)?;
    Ok(Request::Open(room.0, start.0, start.1))
}

/// What the lexemes after a verb ask.
///
/// # Errors
/// The place of the first fault.
pub fn read_request<'a, C: ClassText>(
    text: &[u8],
    first: Lexeme,
    rest: &'a [Lexeme],
) -> Result<Request<'a, C::Key>, usize>
    ensures { IsAsked (asked_from C.texts text.now first) text.now rest.now result }
{
    match read_verb(text, first) {
        Verb::Insert => insert::<C>(text, rest),
        Verb::Delete => Ok(Request::Delete(lone_number(text, rest)?)),
        Verb::Move => move_row::<C>(text, rest),
        Verb::Open => open(text, rest),
        Verb::Next => Ok(Request::Next(lone_number(text, rest)?)),
        Verb::Mark => Ok(Request::Mark(lone_number(text, rest)?)),
        Verb::Find => Ok(Request::Find(rest)),
        Verb::Sweep => {
            end(rest)?;
            Ok(Request::Sweep)
        }
        Verb::Close => Ok(Request::Close(lone_number(text, rest)?)),
        Verb::Other => Err(first.place),
    }
}
