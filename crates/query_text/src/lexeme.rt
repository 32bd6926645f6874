ghost use Rattle.std.specs.Prelude.{◌≡◌, take, drop};

/// What a lexeme is.
#[derive(Clone, Copy, Debug, PartialEq, Eq)]
pub enum Kind {
    /// `(`
    OpenBracket,
    /// `)`
    CloseBracket,
    /// `{`
    OpenBrace,
    /// `}`
    CloseBrace,
    /// Letters from `a` to `z`.
    Word,
    /// Digits, perhaps after a `-`.
    Number,
    /// No token can stand here, or the space before it is missing.
    Fault,
}

/// A token's kind, and where its bytes are in the text that it was cut from.
#[derive(Clone, Copy, Debug)]
pub struct Lexeme {
    pub kind: Kind,
    /// How many bytes come before it.
    pub place: usize,
    /// How many bytes it has; a fault has none.
    pub len: usize,
}

impl Lexeme {
    /// Its bytes.
    pub fn bytes(self, text: &[u8]) -> &[u8]
        ensures { result.now ≡ take self.len (drop self.place text.now) }
    {
        let rest = &text[self.place.min(text.len())..];
        &rest[..self.len.min(rest.len())]
    }
}
