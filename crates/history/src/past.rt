//! What a client was told of a history: a beginning of it.
ghost use Rattle.std.specs.Prelude.{◌≡◌, ◌+◌, ◌<◌, ◌^◌, ◌++◌, ◌∷◌, ◌⊎◌, [], length, MatchBool, IsTrue, ◌↔◌};
ghost use mathlib.Core.List.{IsPrefix};
ghost use Rattle.history.specs.Pasts.{IsPastOf, IsLonger};
ghost use Rattle.history.specs.Rules.{word_of};

use crate::rule::{Add, Law, Naming, Nothing};
use logbook::{Offer, Seen, Word};
use std::marker::{Model, PhantomData};

/// A beginning of a history: the history as it once was. Contracts see its values. At run time it is only their
/// number.
#[derive(Drop)]
pub struct Past<K, J: Naming> {
    count: u64,
    seen: Seen<K, u64, Law>,
    of: PhantomData<J>,
}

impl<K, J: Naming> Model for Past<K, J> {
    ghost use Rattle.std.specs.Prelude.{◌≡◌, List, length};

    ghost Value = { List K };

    ghost view = { λ p. p.seen.log };

    ghost invariant = { λ p. (p.count ≡ length p.seen.log) × (p.seen.book ≡ J.history) };
}

impl<K, J: Naming> Past<K, J> {
    /// The past of a history that has no value yet.
    pub(crate) fn new(seen: Seen<K, u64, Law>) -> Past<K, J>
        requires empty { seen.log ≡ [] }
        requires history { seen.book ≡ J.history }
        ensures { result ≡ [] }
    {
        Past {
            count: 0,
            seen,
            of: PhantomData,
        }
    }

    /// How many values it has.
    pub fn len(&self) -> u64
        ensures { result ≡ length self.now }
    {
        self.count
    }

    /// A copy.
    pub fn again(&self) -> Past<K, J>
        ensures { result ≡ self.now }
    {
        Past {
            count: self.count,
            seen: self.seen.again(),
            of: PhantomData,
        }
    }

    /// Whether this past begins the other one, of the same history. If not, the other begins this one.
    pub fn begins(&self, other: &Past<K, J>) -> bool
        ensures tells { IsTrue result ↔ IsPastOf self.now other.now }
        ensures either { MatchBool result
            (IsPrefix self.now other.now)
            (IsPrefix other.now self.now) }
    {
        let mut both = self.seen.again();
        both.learn(&other.seen);
        self.count <= other.count
    }

    /// Extends this past to another one of the same history, if that is longer.
    pub fn learn(&mut self, other: &Past<K, J>)
        ensures one { (self.new ≡ self.old) ⊎ (self.new ≡ other.now) }
        ensures mine { IsPrefix self.old self.new }
        ensures others { IsPrefix other.now self.new }
    {
        if self.begins(other) {
            *self = other.again();
        }
    }

    /// Appends a value to this past and to the history, if both have the same length; the word holds the history's.
    /// False if the history is longer: then this past is extended to the length found.
    pub(crate) fn add(&mut self, word: &Word<K, u64, Law>, value: &K) -> bool
        requires word { word.now ≡ word_of J.history }
        requires room { length self.old < 2 ^ 62 }
        ensures { MatchBool result
            (self.new ≡ self.old ++ value.now ∷ [])
            (IsLonger self.old self.new) }
    {
        let mut offer: Offer<K, u64, Law, Nothing> = self.seen.plain::<Nothing, K, Add>(value);
        let mut pen = self.seen.no_pen();
        let count = self.count;
        let found = word.compare_exchange::<Add, Nothing>(
            count,
            count + 1,
            &mut self.seen,
            &mut offer,
            &mut pen,
        );
        self.count = if found == count { count + 1 } else { found };
        found == count
    }
}
