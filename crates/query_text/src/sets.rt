ghost use Rattle.std.specs.Prelude.{◌≡◌, ℕ, List, ◌<◌, ◌≤◌, length, ◌++◌, IfSome, IfOk, refl};
ghost use Rattle.set_class.specs.Sets.{IsElementOf};
ghost use Rattle.set_class.specs.declared.elements.Elements.{Elements};
ghost use Rattle.query_text.specs.Tokens.{token_in};
ghost use Rattle.query_text.specs.Keys.{GivesRead};
ghost use Rattle.query_text.specs.SetTexts.{element_of, set_at, element_text, elements_below, spaced, IsGreatest, HasJust, IsElementUnder, elements_of, set_behind_brace, set_named, set_texts};
ghost use Rattle.query_text.specs.KeyLengths.{set_leaves_fewer};

use crate::class::ClassText;
use crate::lexeme::{Kind, Lexeme};
use crate::line::PrintBuffer;
use crate::numbers::short_number;
use crate::reader::{first_of, open_brace};
use key_class::Rel;
use set_class::{Atom, Elements, Sets};

/// The element that a lexeme spells.
fn element(text: &[u8], lexeme: Lexeme) -> Option<u8>
    ensures element { result ≡ element_of (token_in text.now lexeme) }
    ensures small { IfSome result (λ e. e ≤ 127) }
{
    let Lexeme { kind, place, len } = lexeme;
    let Kind::Number = kind else {
        return None;
    };
    let number = match short_number(lexeme.bytes(text)) {
        Some(number) => number,
        None => Lexeme { kind, place, len }.unsigned(text)?,
    };
    match number {
        0..=127 => Some(number as u8),
        _ => None,
    }
}

/// The set of the elements before a closing brace.
fn elements<'a>(text: &[u8], lexemes: &'a [Lexeme]) -> Result<(Elements, &'a [Lexeme]), usize>
    ensures gives { GivesRead set_behind_brace text.now lexemes.now result }
    ensures shorter { IfOk result (λ r. length r.1.now < length lexemes.now) }
{
    let mut mask = 0;
    let mut rest = lexemes;
    'elements: loop {
        let Some((first, behind)) = first_of(rest) else {
            return Err(text.len());
        };
        match first.kind {
            Kind::CloseBrace => return Ok((Elements { mask }, behind)),
            _ => {
                let Some(found) = element(text, first) else {
                    return Err(first.place);
                };
                mask = mask | 1 << found;
                rest = behind;
            }
        }
    }
}

/// The greatest element of a mask that has one.
fn greatest(mask: u128) -> u8
    requires { 0 < mask }
    ensures { IsGreatest mask result }
{
    (127 - mask.leading_zeros()) as u8
}

/// Puts an element into a line, with a space in front unless it is the first of its set.
fn put_element(line: &mut PrintBuffer, element: u8, is_first: bool)
    requires room { length line.old ≤ 4002 }
    ensures { line.new ≡ element_text element is_first ++ line.old }
{
    line.put_number(u64::from(element));
    if !is_first {
        line.put_byte(b' ');
    }
}

/// Puts the elements of a mask into a line, the greatest first, so that they end up in rising order.
fn put_elements(line: &mut PrintBuffer, mask: u128)
    requires room { length line.old ≤ 3601 }
    ensures { line.new ≡ spaced (elements_below 128 mask) ++ line.old }
{
    let mut rest = mask;
    'elements: while rest > 0 {
        let element = greatest(rest);
        rest -= 1 << element;
        put_element(line, element, rest == 0);
    }
}

impl ClassText for Sets {
    ghost texts = { set_texts };

    #[tactic(auto, unfolding(crate::specs::SetTexts::set_at))]
    fn read_key<'a>(text: &[u8], lexemes: &'a [Lexeme]) -> Result<(Elements, &'a [Lexeme]), usize> {
        let (_, rest) = open_brace(text, lexemes)?;
        elements(text, rest)
    }

    fn put_text(key: Elements, line: &mut PrintBuffer) {
        line.put_byte(b'}');
        put_elements(line, key.mask);
        line.put_byte(b'{');
    }

    fn atom(rel: Rel, operand: Elements) -> Atom {
        Atom { rel, operand }
    }

    fn parts(atom: &Atom) -> (Rel, Elements) {
        (atom.rel, atom.operand)
    }

    ghost key_leaves_fewer = { set_leaves_fewer };

    ghost key_text_is_apart = { λ k. refl };

    ghost atom_of_parts = { λ a. refl };
}

/// A theorem, no code: a set has exactly the elements that its text names.
pub fn set_texts_name_their_elements()
    ensures read { (named : List ℕ) → HasJust named (IsElementOf (set_named named)) }
    ensures written { (set : Elements) → HasJust (elements_of set) (IsElementUnder 128 set) }
{}
