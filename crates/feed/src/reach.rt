ghost use Rattle.std.specs.Prelude.{◌≡◌, Option};
ghost use Rattle.feed.specs.Reaches.{MatchesItself, MatchesOverlap};

use key_class::KeyClass;

/// A class whose atoms tell where the keys are that match them.
pub trait Reach: KeyClass {
    /// The key that every matching key overlaps, or none if there is no such key.
    ghost reach_of: { Self.Atom → Option Self.Key };

    /// The atom for the keys that overlap this one.
    ghost overlap_with: { Self.Key → Self.Atom };

    /// The atom for this key itself.
    ghost same_with: { Self.Key → Self.Atom };

    fn reach(atom: &Self::Atom) -> Option<Self::Key>
        ensures { result ≡ reach_of atom.now };

    fn overlapping(key: Self::Key) -> Self::Atom
        ensures { result ≡ overlap_with key };

    fn same(key: Self::Key) -> Self::Atom
        ensures { result ≡ same_with key };

    /// A key that matches an atom overlaps the atom's reach.
    ghost reaches: { MatchesOverlap Self.rules.is_match reach_of overlap_with };

    /// A key matches the atom that asks for it.
    ghost sames: { MatchesItself Self.rules.is_match same_with };
}
