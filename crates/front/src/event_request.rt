//! What an event line asks.
ghost use Rattle.std.specs.Prelude.{◌≡◌, Ok, Err};
ghost use Rattle.std.specs.List.{list_all};
ghost use Rattle.query_text.specs.Tokens.{token_in};
ghost use Rattle.world.specs.declared.event.Event.TheVariants as event;
ghost use Rattle.front.specs.EventLines.{event_verb_of, event_verb_of_word, is_side, two_numbers_and_key, page_key_and_tag, page_and_sides, two_pages, only_sides, cursor_asked, event_from, IsEventAsked, GivesSides};

use crate::tokens::{end, lone_number, natural, start};
use query_text::{ClassText, Kind, Lexeme, same_bytes};

/// The word that an event line begins with.
#[derive(Clone, Copy, Debug)]
pub enum EventVerb {
    Enlarge,
    Place,
    Split,
    Post,
    Grow,
    Find,
    Seek,
    Move,
    Unfind,
    Sweep,
    Open,
    Turn,
    AskMark,
    Take,
    Close,
    /// Any other token.
    Other,
}

/// What an event line asks. Sides are still the letters of their word, and a query still its lexemes.
#[derive(Clone, Copy, Debug)]
pub enum EventRequest<'a, K> {
    Enlarge(u64, u64, K),
    Place(u64, K, u64),
    Split(u64, &'a [u8]),
    Post(u64, u64),
    Grow(&'a [u8]),
    Find(u64),
    Seek(u64),
    Move(u64, u64, K),
    Unfind(u64),
    Sweep(u64),
    /// Its room, the commit that it follows, if any, and its query.
    Open(u64, Option<u64>, &'a [Lexeme]),
    Turn(u64),
    AskMark(u64),
    Take(u64),
    Close(u64),
}

fn verb_of_word(word: &[u8]) -> EventVerb
    ensures { result ≡ event_verb_of_word word.now }
{
    if same_bytes(word, b"enlarge") {
        EventVerb::Enlarge
    } else if same_bytes(word, b"place") {
        EventVerb::Place
    } else if same_bytes(word, b"split") {
        EventVerb::Split
    } else if same_bytes(word, b"post") {
        EventVerb::Post
    } else if same_bytes(word, b"grow") {
        EventVerb::Grow
    } else if same_bytes(word, b"find") {
        EventVerb::Find
    } else if same_bytes(word, b"seek") {
        EventVerb::Seek
    } else if same_bytes(word, b"move") {
        EventVerb::Move
    } else if same_bytes(word, b"unfind") {
        EventVerb::Unfind
    } else if same_bytes(word, b"sweep") {
        EventVerb::Sweep
    } else if same_bytes(word, b"open") {
        EventVerb::Open
    } else if same_bytes(word, b"turn") {
        EventVerb::Turn
    } else if same_bytes(word, b"askmark") {
        EventVerb::AskMark
    } else if same_bytes(word, b"take") {
        EventVerb::Take
    } else if same_bytes(word, b"close") {
        EventVerb::Close
    } else {
        EventVerb::Other
    }
}

/// The verb that a lexeme spells at the front of an event line.
fn read_verb(text: &[u8], lexeme: Lexeme) -> EventVerb
    ensures { result ≡ event_verb_of (token_in text.now lexeme) }
{
    match lexeme.kind {
        Kind::Word => verb_of_word(lexeme.bytes(text)),
        _ => EventVerb::Other,
    }
}

/// Whether all letters of a word are letters of sides.
fn are_sides(word: &[u8]) -> bool
    ensures { result ≡ list_all is_side word.now }
{
    word.iter().all(|letter| *letter == b'l' || *letter == b'r')
}

/// The letters of sides at the front, and the lexemes after them.
///
/// # Errors
/// The place of the fault in the text; the text's length if the sides are missing at its end.
fn sides<'a>(text: &'a [u8], lexemes: &'a [Lexeme]) -> Result<(&'a [u8], &'a [Lexeme]), usize>
    ensures { GivesSides text.now lexemes.now result }
{
    match lexemes {
        [] => Err(text.len()),
        [first, rest @ ..] => match first.kind {
            Kind::Word => {
                let letters = first.bytes(text);
                if are_sides(letters) {
                    Ok((letters, rest))
                } else {
                    Err(first.place)
                }
            }
            _ => Err(first.place),
        },
    }
}

fn enlarge<'a, C: ClassText>(
    text: &'a [u8],
    lexemes: &'a [Lexeme],
) -> Result<EventRequest<'a, C::Key>, usize>
    ensures { IsEventAsked C.Atom (two_numbers_and_key C.texts.key_at event.Enlarge)
        text.now lexemes.now result }
{
    let parent = natural(text, lexemes)?;
    let child = natural(text, parent.1)?;
    let key = C::read_key(text, child.1)?;
    end(key.1)?;
    Ok(EventRequest::Enlarge(parent.0, child.0, key.0))
}

fn place<'a, C: ClassText>(
    text: &'a [u8],
    lexemes: &'a [Lexeme],
) -> Result<EventRequest<'a, C::Key>, usize>
    ensures { IsEventAsked C.Atom (page_key_and_tag C.texts.key_at) text.now lexemes.now result }
{
    let page = natural(text, lexemes)?;
    let key = C::read_key(text, page.1)?;
    let tag = natural(text, key.1)?;
    end(tag.1)?;
    Ok(EventRequest::Place(page.0, key.0, tag.0))
}

fn move_row<'a, C: ClassText>(
    text: &'a [u8],
    lexemes: &'a [Lexeme],
) -> Result<EventRequest<'a, C::Key>, usize>
    ensures { IsEventAsked C.Atom (two_numbers_and_key C.texts.key_at event.Move)
        text.now lexemes.now result }
{
    let finder = natural(text, lexemes)?;
    let leaf = natural(text, finder.1)?;
    let key = C::read_key(text, leaf.1)?;
    end(key.1)?;
    Ok(EventRequest::Move(finder.0, leaf.0, key.0))
}

fn split<'a, C: ClassText>(
    text: &'a [u8],
    lexemes: &'a [Lexeme],
) -> Result<EventRequest<'a, C::Key>, usize>
    ensures { IsEventAsked C.Atom page_and_sides text.now lexemes.now result }
{
    let page = natural(text, lexemes)?;
    let letters = sides(text, page.1)?;
    end(letters.1)?;
    Ok(EventRequest::Split(page.0, letters.0))
}

fn post<'a, C: ClassText>(
    text: &'a [u8],
    lexemes: &'a [Lexeme],
) -> Result<EventRequest<'a, C::Key>, usize>
    ensures { IsEventAsked C.Atom two_pages text.now lexemes.now result }
{
    let parent = natural(text, lexemes)?;
    let child = natural(text, parent.1)?;
    end(child.1)?;
    Ok(EventRequest::Post(parent.0, child.0))
}

fn grow<'a, C: ClassText>(
    text: &'a [u8],
    lexemes: &'a [Lexeme],
) -> Result<EventRequest<'a, C::Key>, usize>
    ensures { IsEventAsked C.Atom only_sides text.now lexemes.now result }
{
    let letters = sides(text, lexemes)?;
    end(letters.1)?;
    Ok(EventRequest::Grow(letters.0))
}

fn open<'a, C: ClassText>(
    text: &'a [u8],
    lexemes: &'a [Lexeme],
) -> Result<EventRequest<'a, C::Key>, usize>
    ensures { IsEventAsked C.Atom cursor_asked text.now lexemes.now result }
{
    let room = natural(text, lexemes)?;
    let start = start(text, room.1)?;
    Ok(EventRequest::Open(room.0, start.0, start.1))
}

/// What the lexemes after a verb ask.
///
/// # Errors
/// The place of the first fault.
pub fn read_event<'a, C: ClassText>(
    text: &'a [u8],
    first: Lexeme,
    rest: &'a [Lexeme],
) -> Result<EventRequest<'a, C::Key>, usize>
    ensures { IsEventAsked C.Atom (event_from C.texts text.now first) text.now rest.now result }
{
    match read_verb(text, first) {
        EventVerb::Enlarge => enlarge::<C>(text, rest),
        EventVerb::Place => place::<C>(text, rest),
        EventVerb::Split => split::<C>(text, rest),
        EventVerb::Post => post::<C>(text, rest),
        EventVerb::Grow => grow::<C>(text, rest),
        EventVerb::Find => Ok(EventRequest::Find(lone_number(text, rest)?)),
        EventVerb::Seek => Ok(EventRequest::Seek(lone_number(text, rest)?)),
        EventVerb::Move => move_row::<C>(text, rest),
        EventVerb::Unfind => Ok(EventRequest::Unfind(lone_number(text, rest)?)),
        EventVerb::Sweep => Ok(EventRequest::Sweep(lone_number(text, rest)?)),
        EventVerb::Open => open::<C>(text, rest),
        EventVerb::Turn => Ok(EventRequest::Turn(lone_number(text, rest)?)),
        EventVerb::AskMark => Ok(EventRequest::AskMark(lone_number(text, rest)?)),
        EventVerb::Take => Ok(EventRequest::Take(lone_number(text, rest)?)),
        EventVerb::Close => Ok(EventRequest::Close(lone_number(text, rest)?)),
        EventVerb::Other => Err(first.place),
    }
}
