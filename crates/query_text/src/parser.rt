ghost use Rattle.std.specs.Prelude.{◌≡◌, ℕ, List, ◌<◌, length, Result, Ok, Err, IfOk, IfErr, true, false, []};
ghost use Rattle.key_class.specs.Queries.{query_of};
ghost use Rattle.query_text.specs.Tokens.{Placed};
ghost use Rattle.query_text.specs.Grammar.{unit, conjunction, whole, SpellsQuery, RefusesTokens, SpellOrAreRefused, SpellsText, RefusesText, SpellsOrIsRefused, IfQueryText, IsParseRefusal, LexemesAreRefused, LexemesSpell, SpellAndAreRefused, SpellsAndIsRefused};
ghost use Rattle.query_text.specs.Parsing.{ReadsUnit, RefusesUnit, ReadsOn, Lifts, LosesTop, RefusedIn, SpellsToEnd};
ghost use Rattle.query_text.specs.declared.terminal.Terminal.TheVariants as terminal;
ghost use Rattle.query_text.specs.declared.lexeme.Lexeme.{Lexeme};
ghost use Rattle.query_text.specs.declared.parser.ParseError.TheVariants.{Memory};
ghost use Rattle.query_text.specs.OneMeaning.{AtMostOne};

use crate::class::ClassText;
use crate::lexeme::Lexeme;
use crate::reader::first_of;
use crate::scanner::scan;
use crate::terminal::Terminal;
use key_class::limits::{MAX_DEPTH, MAX_LINE};
use key_class::{Pred, Refusal};
use std::alloc::{AllocError, AllocFailed, Global};

/// Why there is no query.
#[derive(Clone, Copy, Debug)]
pub enum ParseError {
    Memory,
    At(usize),
}

impl From<AllocError> for ParseError {
    ghost from_gives = { λ _ e. e ≡ Memory };

    fn from(_e: AllocError) -> ParseError {
        ParseError::Memory
    }
}

impl<T: Drop> From<AllocFailed<T>> for ParseError {
    ghost from_gives = { λ _ e. e ≡ Memory };

    fn from(_e: AllocFailed<T>) -> ParseError {
        ParseError::Memory
    }
}

/// What waits for a further unit, conjunction or query of the text.
#[derive(Drop)]
pub enum Pending<A> {
    Not,
    Bracket,
    /// The left part of an `and`.
    And(Pred<A>),
    /// The left part of an `or`.
    Or(Pred<A>),
}

/// The conjunction that ends with a unit.
fn conjunction_of<C: ClassText>(
    alloc: Global,
    stack: &mut Vec<Pending<C::Atom>>,
    last: Pred<C::Atom>,
) -> Result<Pred<C::Atom>, AllocError>
    ensures { IfOk result (Lifts C.texts unit conjunction stack.old.items stack.new.items last) }
{
    let mut part = last;
    'nots: loop {
        match stack.pop() {
            Some(Pending::Not) => part = Pred::Not(Box::new(alloc, part)?),
            Some(Pending::And(left)) => {
                return Ok(Pred::And(Box::new(alloc, left)?, Box::new(alloc, part)?));
            }
            Some(Pending::Or(left)) => {
                stack.push_reserved(Pending::Or(left));
                return Ok(part);
            }
            Some(Pending::Bracket) => {
                stack.push_reserved(Pending::Bracket);
                return Ok(part);
            }
            None => return Ok(part),
        }
    }
}

/// The query that ends with a conjunction.
fn query_of_conjunction<C: ClassText>(
    alloc: Global,
    stack: &mut Vec<Pending<C::Atom>>,
    last: Pred<C::Atom>,
) -> Result<Pred<C::Atom>, AllocError>
    ensures { IfOk result (Lifts C.texts conjunction whole stack.old.items stack.new.items last) }
{
    let Some(top) = stack.pop() else {
        return Ok(last);
    };
    match top {
        Pending::Or(left) => Ok(Pred::Or(Box::new(alloc, left)?, Box::new(alloc, last)?)),
        other => {
            stack.push_reserved(other);
            Ok(last)
        }
    }
}

/// The atom of the next unit. The `not`s and brackets before it become pending.
fn read_unit<'a, C: ClassText>(
    text: &[u8],
    stack: &mut Vec<Pending<C::Atom>>,
    lexemes: &'a [Lexeme],
) -> Result<(Pred<C::Atom>, &'a [Lexeme]), ParseError>
    ensures read { ReadsUnit C.texts text.now lexemes.now stack.old.items stack.new.items result }
    ensures refused { IfErr result (RefusesUnit C.texts text.now lexemes.now stack.old.items) }
    ensures shorter { IfOk result (λ r. length r.1.now < length lexemes.now) }
{
    let mut rest = lexemes;
    'units: loop {
        let Some((first, behind)) = first_of(rest) else {
            return Err(ParseError::At(text.len()));
        };
        match first.terminal(text) {
            Terminal::Not => {
                stack.push(Pending::Not)?;
                rest = behind;
            }
            Terminal::Open => {
                stack.push(Pending::Bracket)?;
                rest = behind;
            }
            Terminal::Relation(rel) => {
                return match C::read_key(text, behind) {
                    Ok(read) => Ok((Pred::Atom(C::atom(rel, read.0)), read.1)),
                    Err(place) => Err(ParseError::At(place)),
                };
            }
            _ => return Err(ParseError::At(first.place)),
        }
    }
}

/// Drops the top of a stack. False if it is empty.
fn drops_top<T: Drop>(stack: &mut Vec<T>) -> bool
    ensures dropped { result ≡ true → LosesTop stack.old.items stack.new.items }
    ensures empty { result ≡ false → stack.old.items ≡ [] }
{
    stack.pop().is_some()
}

/// What follows a unit: another unit, or the text's end.
#[derive(Drop)]
pub enum Next<'a, A> {
    More(&'a [Lexeme]),
    End(Pred<A>),
}

/// What follows a unit, once the brackets that it closes are closed.
fn read_behind<'a, C: ClassText>(
    alloc: Global,
    text: &[u8],
    stack: &mut Vec<Pending<C::Atom>>,
    read: Pred<C::Atom>,
    lexemes: &'a [Lexeme],
) -> Result<Next<'a, C::Atom>, ParseError>
    ensures { ReadsOn C.texts text.now lexemes.now stack.old.items stack.new.items read result }
{
    let mut part = read;
    let mut rest = lexemes;
    'brackets: loop {
        let last = conjunction_of::<C>(alloc, stack, part)?;
        let Some((first, behind)) = first_of(rest) else {
            let found = query_of_conjunction::<C>(alloc, stack, last)?;
            if drops_top(stack) {
                return Err(ParseError::At(text.len()));
            }
            return Ok(Next::End(found));
        };
        match first.terminal(text) {
            Terminal::And => {
                stack.push(Pending::And(last))?;
                return Ok(Next::More(behind));
            }
            Terminal::Or => {
                let found = query_of_conjunction::<C>(alloc, stack, last)?;
                stack.push(Pending::Or(found))?;
                return Ok(Next::More(behind));
            }
            Terminal::Close => {
                part = query_of_conjunction::<C>(alloc, stack, last)?;
                if !drops_top(stack) {
                    return Err(ParseError::At(first.place));
                }
                rest = behind;
            }
            _ => return Err(ParseError::At(first.place)),
        }
    }
}

/// The query that the lexemes spell up to their end, of any depth.
fn query<C: ClassText>(
    alloc: Global,
    text: &[u8],
    lexemes: &[Lexeme],
) -> Result<Pred<C::Atom>, ParseError>
    ensures spells { IfOk result (λ q. SpellsToEnd C.texts text.now lexemes.now (query_of q)) }
    ensures refused { IfErr result (RefusedIn C.texts text.now lexemes.now) }
{
    let mut stack = Vec::new(alloc);
    let mut rest = lexemes;
    'units: loop {
        let (atom, behind) = read_unit::<C>(text, &mut stack, rest)?;
        match read_behind::<C>(alloc, text, &mut stack, atom, behind)? {
            Next::More(next) => rest = next,
            Next::End(found) => return Ok(found),
        }
    }
}

/// The query that lexemes spell up to their end. They may be the last ones of a text: places count from the text's
/// first byte.
///
/// # Errors
/// `QueryText` with the place of the first wrong lexeme, which for a query deeper than [`MAX_DEPTH`] is the first
/// lexeme; or `OutOfMemory`.
pub fn parse_tokens<C: ClassText>(
    alloc: Global,
    text: &[u8],
    lexemes: &[Lexeme],
) -> Result<Pred<C::Atom>, Refusal>
    ensures spells { IfOk result (λ q. LexemesSpell C.texts text.now lexemes.now (query_of q)) }
    ensures refuses { IfQueryText result (LexemesAreRefused C.texts text.now lexemes.now) }
    ensures refusals { IfErr result IsParseRefusal }
{
    let Some((first, _)) = first_of(lexemes) else {
        return Err(Refusal::QueryText(text.len() as u64));
    };
    match query::<C>(alloc, text, lexemes) {
        Ok(found) => {
            if found.is_within_depth(MAX_DEPTH) {
                Ok(found)
            } else {
                Err(Refusal::QueryText(first.place as u64))
            }
        }
        Err(ParseError::Memory) => Err(Refusal::OutOfMemory),
        Err(ParseError::At(place)) => Err(Refusal::QueryText(place as u64)),
    }
}

/// The query that a text spells.
///
/// # Errors
/// `QueryText` with the place of the first wrong byte, which for a text of more than [`MAX_LINE`] bytes is
/// [`MAX_LINE`]; or `OutOfMemory`.
pub fn parse<C: ClassText>(alloc: Global, text: &[u8]) -> Result<Pred<C::Atom>, Refusal>
    ensures spells { IfOk result (λ q. SpellsText C.texts text.now (query_of q)) }
    ensures refuses { IfQueryText result (RefusesText C.texts text.now) }
    ensures refusals { IfErr result IsParseRefusal }
{
    if text.len() > MAX_LINE {
        return Err(Refusal::QueryText(MAX_LINE as u64));
    }
    let mut lexemes = Vec::new(alloc);
    scan(text, &mut lexemes)?;
    parse_tokens::<C>(alloc, text, &lexemes)
}

/// A theorem, no code: each text spells a query or is refused at a place, never both, and there is only one such
/// query or place.
pub fn one_meaning_for_text<C: ClassText>()
    ensures some_meaning { (text : List ℕ) → SpellsOrIsRefused C.texts text }
    ensures one_query { (text : List ℕ) → AtMostOne (SpellsText C.texts text) }
    ensures one_place { (text : List ℕ) → AtMostOne (RefusesText C.texts text) }
    ensures not_both { (text : List ℕ) → ¬ SpellsAndIsRefused C.texts text }
{}

/// A theorem, no code: the same of the tokens of a text of so many bytes.
pub fn one_meaning_for_tokens<C: ClassText>()
    ensures some_meaning { (n : ℕ) (ts : List Placed) → SpellOrAreRefused C.texts n ts }
    ensures one_query { (n : ℕ) (ts : List Placed) → AtMostOne (SpellsQuery C.texts n ts) }
    ensures one_place { (n : ℕ) (ts : List Placed) → AtMostOne (RefusesTokens C.texts n ts) }
    ensures not_both { (n : ℕ) (ts : List Placed) → ¬ SpellAndAreRefused C.texts n ts }
{}
