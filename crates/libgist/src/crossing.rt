ghost use Rattle.std.specs.Prelude.{◌≡◌, Option};
ghost use Rattle.libgist.specs.declared.words.KeyWords.{KeyWords};

use crate::words::KeyWords;
use query_text::ClassText;

/// A class whose keys cross to C and back as two words of 8 bytes.
pub trait Crossing: ClassText {
    /// The key of two words, if its ends are in order.
    ghost key_of: { KeyWords → Option Self.Key };

    /// The words of a key.
    ghost words_of: { Self.Key → KeyWords };

    fn key(words: KeyWords) -> Option<Self::Key>
        ensures { result ≡ key_of words };

    fn words(key: Self::Key) -> KeyWords
        ensures { result ≡ words_of key };
}
