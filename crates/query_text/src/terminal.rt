ghost use Rattle.std.specs.Prelude.{◌≡◌};
ghost use Rattle.query_text.specs.Tokens.{token_in};
ghost use Rattle.query_text.specs.Grammar.{terminal_of, keyword_of};

use crate::lexeme::{Kind, Lexeme};
use crate::text::same_bytes;
use key_class::Rel;

/// What a token is in the grammar of queries.
#[derive(Clone, Copy, Debug)]
pub enum Terminal {
    And,
    Or,
    Not,
    Relation(Rel),
    Open,
    Close,
    /// A token that only keys may have, or none may.
    Other,
}

fn keyword(word: &[u8]) -> Terminal
    ensures { result ≡ keyword_of word.now }
{
    if same_bytes(word, b"and") {
        Terminal::And
    } else if same_bytes(word, b"or") {
        Terminal::Or
    } else if same_bytes(word, b"not") {
        Terminal::Not
    } else if same_bytes(word, b"overlaps") {
        Terminal::Relation(Rel::Overlaps)
    } else if same_bytes(word, b"within") {
        Terminal::Relation(Rel::Within)
    } else if same_bytes(word, b"holds") {
        Terminal::Relation(Rel::Holds)
    } else if same_bytes(word, b"same") {
        Terminal::Relation(Rel::Same)
    } else {
        Terminal::Other
    }
}

impl Lexeme {
    pub fn terminal(self, text: &[u8]) -> Terminal
        ensures { result ≡ terminal_of (token_in text.now self) }
    {
        match self.kind {
            Kind::OpenBracket => Terminal::Open,
            Kind::CloseBracket => Terminal::Close,
            Kind::Word => keyword(self.bytes(text)),
            _ => Terminal::Other,
        }
    }
}
