//! The whole history, kept by whoever holds the lock.
ghost use Rattle.std.specs.Prelude.{◌≡◌, ◌++◌, ◌∷◌, [], length};
ghost use mathlib.Core.List.{IsPrefix};
ghost use Rattle.history.specs.Rules.{word_of};

use crate::past::Past;
use crate::rule::{Law, Naming};
use logbook::{Seen, Start, Word};
use std::marker::Model;
use std::sync::Wait;

/// No history gets as long as this: appending a value a nanosecond would take a century.
const MOST: u64 = 1 << 62;

/// A history with no values, and no name yet.
///
/// Contracts see which history it is.
#[derive(Drop)]
pub struct BlankHistory<K> {
    word: Word<K, u64, Law>,
    seen: Seen<K, u64, Law>,
}

impl<K> Model for BlankHistory<K> {
    ghost use Rattle.std.specs.Prelude.{◌≡◌, []};
    ghost use Rattle.logbook.specs.Pages.{Book};
    ghost use Rattle.history.specs.Rules.{word_of};

    ghost Value = { Book };

    ghost view = { λ h. h.seen.book };

    ghost invariant = { λ h. (h.seen.log ≡ []) × (h.word ≡ word_of h.seen.book) };
}

impl<K> BlankHistory<K> {
    pub fn new() -> BlankHistory<K> {
        let (seen, mut first, _second) = Seen::open(Start::alone(), 0, 0);
        BlankHistory {
            word: Word::tracked(0, &mut first),
            seen,
        }
    }

    /// Gives the history a name.
    pub fn open<J: Naming>(self) -> History<K, J>
        requires { self ≡ J.history }
        ensures { result ≡ [] }
    {
        let BlankHistory { word, seen } = self;
        History {
            word,
            all: Past::new(seen),
        }
    }
}

/// A whole history. Contracts see its values. At run time it is only their number, twice.
///
/// Only the owner adds to a history, because only the owner has its word. But no clause of `logbook` says that, so it
/// isn't proved: if a history were longer than its owner knows, `audit`, `show` and `tell` would wait forever rather
/// than give a wrong answer.
#[derive(Drop)]
pub struct History<K, J: Naming> {
    word: Word<K, u64, Law>,
    all: Past<K, J>,
}

impl<K, J: Naming> Model for History<K, J> {
    ghost use Rattle.std.specs.Prelude.{◌≡◌, List};
    ghost use Rattle.history.specs.Rules.{word_of};

    ghost Value = { List K };

    ghost view = { λ h. h.all };

    ghost invariant = { λ h. h.word ≡ word_of J.history };
}

impl<K, J: Naming> History<K, J> {
    /// All of it, as it is now.
    pub fn all(&self) -> &Past<K, J>
        ensures { result.now ≡ self.now }
    {
        &self.all
    }

    /// Proves that what a client was told begins the whole history.
    pub fn audit<R: Wait>(&self, rt: &R, past: &Past<K, J>)
        ensures { IsPrefix past.now self.now }
    {
        if !past.begins(&self.all) {
            for _ in rt.forever() {}
            unreachable!()
        }
    }

    /// Tells a client the whole history.
    pub fn show<R: Wait>(&self, rt: &R, past: &mut Past<K, J>)
        ensures seen { IsPrefix past.old past.new }
        ensures whole { past.new ≡ self.now }
    {
        self.audit(rt, past);
        *past = self.all.again();
    }

    /// Adds a value, and tells a client the whole history with it. What the client had been told begins the history
    /// without it.
    pub fn tell<R: Wait>(&mut self, rt: &R, past: &mut Past<K, J>, value: &K)
        ensures seen { IsPrefix past.old self.old }
        ensures whole { past.new ≡ self.new }
        ensures added { self.new ≡ self.old ++ value.now ∷ [] }
    {
        self.audit(rt, past);
        self.add(rt, value);
        *past = self.all.again();
    }

    fn add<R: Wait>(&mut self, rt: &R, value: &K)
        ensures { self.new ≡ self.old ++ value.now ∷ [] }
    {
        if self.all.len() >= MOST || !self.all.add(&self.word, value) {
            for _ in rt.forever() {}
            unreachable!()
        }
    }
}
