ghost use Rattle.std.specs.Prelude.{refl};
ghost use Rattle.query_text.specs.IntervalTexts.{interval_at, interval_texts};
ghost use Rattle.query_text.specs.KeyLengths.{interval_leaves_fewer};

use crate::class::ClassText;
use crate::lexeme::Lexeme;
use crate::line::PrintBuffer;
use crate::reader::{close_bracket, open_bracket, signed};
use interval_class::{Atom, Interval, Intervals};
use key_class::Rel;

impl ClassText for Intervals {
    ghost texts = { interval_texts };

    #[tactic(auto, unfolding(crate::specs::IntervalTexts::interval_at))]
    fn read_key<'a>(text: &[u8], lexemes: &'a [Lexeme]) -> Result<(Interval, &'a [Lexeme]), usize> {
        let (place, rest) = open_bracket(text, lexemes)?;
        let (lo, rest) = signed(text, rest)?;
        let (hi, rest) = signed(text, rest)?;
        let (_, rest) = close_bracket(text, rest)?;
        match Interval::new(lo, hi) {
            Ok(key) => Ok((key, rest)),
            Err(_) => Err(place),
        }
    }

    #[inline]
    fn put_text(key: Interval, line: &mut PrintBuffer) {
        line.put_byte(b')');
        line.put_signed(key.hi);
        line.put_byte(b' ');
        line.put_signed(key.lo);
        line.put_byte(b'(');
    }

    fn atom(rel: Rel, operand: Interval) -> Atom {
        Atom { rel, operand }
    }

    fn parts(atom: &Atom) -> (Rel, Interval) {
        (atom.rel, atom.operand)
    }

    ghost key_leaves_fewer = { interval_leaves_fewer };

    ghost key_text_is_apart = { λ k. refl };

    ghost atom_of_parts = { λ a. refl };
}
