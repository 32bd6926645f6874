ghost use Rattle.std.specs.Prelude.{◌≡◌, ◌+◌, ◌<◌, ◌≤◌, ◌++◌, length, refl, IfOk};
ghost use Rattle.query_text.specs.BoxTexts.{box_at, box_texts, point_at, point_text};
ghost use Rattle.query_text.specs.Keys.{GivesRead};
ghost use Rattle.query_text.specs.KeyLengths.{box_leaves_fewer};

use crate::class::ClassText;
use crate::lexeme::Lexeme;
use crate::line::PrintBuffer;
use crate::reader::{close_bracket, open_bracket, signed_32};
use box_class::{Atom, BoxKey, Boxes};
use key_class::Rel;

/// The numbers of a point at the front, and the lexemes after them.
#[tactic(auto, unfolding(crate::specs::BoxTexts::point_at))]
fn point<'a>(text: &[u8], lexemes: &'a [Lexeme]) -> Result<((i32, i32), &'a [Lexeme]), usize>
    ensures gives { GivesRead point_at text.now lexemes.now result }
    ensures shorter { IfOk result (λ r. length r.1.now < length lexemes.now) }
{
    let (x, rest) = signed_32(text, lexemes)?;
    let (y, rest) = signed_32(text, rest)?;
    Ok(((x, y), rest))
}

/// Puts the numbers of a point into a line.
fn put_point(line: &mut PrintBuffer, x: i32, y: i32)
    requires room { length line.old + 41 ≤ 4096 }
    ensures numbers { line.new ≡ point_text x y ++ line.old }
    ensures short { length line.new ≤ length line.old + 41 }
{
    line.put_signed(i64::from(y));
    line.put_byte(b' ');
    line.put_signed(i64::from(x));
}

impl ClassText for Boxes {
    ghost texts = { box_texts };

    #[tactic(auto, unfolding(crate::specs::BoxTexts::box_at))]
    fn read_key<'a>(text: &[u8], lexemes: &'a [Lexeme]) -> Result<(BoxKey, &'a [Lexeme]), usize> {
        let (place, rest) = open_bracket(text, lexemes)?;
        let ((x1, y1), rest) = point(text, rest)?;
        let ((x2, y2), rest) = point(text, rest)?;
        let (_, rest) = close_bracket(text, rest)?;
        match BoxKey::new(x1, y1, x2, y2) {
            Ok(key) => Ok((key, rest)),
            Err(_) => Err(place),
        }
    }

    #[inline]
    fn put_text(key: BoxKey, line: &mut PrintBuffer) {
        line.put_byte(b')');
        put_point(line, key.x2, key.y2);
        line.put_byte(b' ');
        put_point(line, key.x1, key.y1);
        line.put_byte(b'(');
    }

    fn atom(rel: Rel, operand: BoxKey) -> Atom {
        Atom { rel, operand }
    }

    fn parts(atom: &Atom) -> (Rel, BoxKey) {
        (atom.rel, atom.operand)
    }

    ghost key_leaves_fewer = { box_leaves_fewer };

    ghost key_text_is_apart = { λ k. refl };

    ghost atom_of_parts = { λ a. refl };
}
