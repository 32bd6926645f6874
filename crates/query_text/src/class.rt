ghost use Rattle.std.specs.Prelude.{◌≡◌, ℕ, ◌+◌, ◌<◌, ◌≤◌, true, List, ◌++◌, length, IfOk};
ghost use Rattle.key_class.specs.declared.sides.Rel.{Rel};
ghost use Rattle.query_text.specs.Tokens.{Placed};
ghost use Rattle.query_text.specs.Keys.{LeavesFewer, GivesRead, ReadsBack};
ghost use Rattle.query_text.specs.ClassTexts.{Texts};
ghost use Rattle.query_text.specs.Printing.{begins_apart};

use crate::lexeme::Lexeme;
use crate::line::PrintBuffer;
use key_class::{KeyClass, Rel};

/// A class of keys that have texts.
pub trait ClassText: KeyClass {
    /// How keys are written and read, and how atoms are made of them.
    ghost texts: { Texts Self.Key Self.Atom };

    /// The key at the front of a text's lexemes, and the lexemes after it.
    ///
    /// # Errors
    /// The place of the first fault: of a lexeme that can't stand there, of a number outside its type, of the text's
    /// end, or of the opening bracket of a key whose ends are out of order.
    fn read_key<'a>(text: &[u8], lexemes: &'a [Lexeme]) -> Result<(Self::Key, &'a [Lexeme]), usize>
        ensures gives { GivesRead texts.key_at text.now lexemes.now result }
        ensures shorter { IfOk result (λ r. length r.1.now < length lexemes.now) };

    /// Puts the key's text into a line, in front of what is there. No key's text has more than 403 bytes.
    fn put_text(key: Self::Key, line: &mut PrintBuffer)
        requires room { length line.old ≤ 3600 }
        ensures text { line.new ≡ texts.key_text key ++ line.old }
        ensures short { length line.new ≤ length line.old + 403 }
        ensures read_back { ReadsBack texts.key_at (texts.key_text key) key };

    fn atom(rel: Rel, key: Self::Key) -> Self::Atom
        ensures { result ≡ texts.atom_of rel key };

    /// The relation and the key that an atom was made of.
    fn parts(atom: &Self::Atom) -> (Rel, Self::Key)
        ensures rel { result.0 ≡ texts.rel_of atom.now }
        ensures operand { result.1 ≡ texts.operand_of atom.now };

    ghost key_leaves_fewer: { (len : ℕ) (ts : List Placed) → LeavesFewer (length ts) (texts.key_at len ts) };

    ghost key_text_is_apart: { (k : Self.Key) → begins_apart (texts.key_text k) ≡ true };

    ghost atom_of_parts: { (a : Self.Atom) → texts.atom_of (texts.rel_of a) (texts.operand_of a) ≡ a };
}
