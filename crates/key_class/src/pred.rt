ghost use Rattle.std.specs.Prelude.{◌≡◌, ◌≤◌, ◌↔◌, IsTrue, IfOk, ◌+◌, ◌<◌};
ghost use Rattle.key_class.specs.Queries.{query_of, matches_query, consistent_with_query, depth_of};
ghost use Rattle.key_class.specs.QueryLaws.{BoundsAdmitMatches, NoneSatisfiesBelow};

use crate::class::KeyClass;
use std::alloc::{AllocError, Global};

/// A query composed of atoms.
#[derive(Drop)]
pub enum Pred<A> {
    /// The key has a relation to an operand.
    Atom(A),
    /// Both parts match.
    And(Box<Pred<A>>, Box<Pred<A>>),
    /// At least one part matches.
    Or(Box<Pred<A>>, Box<Pred<A>>),
    /// The part doesn't match.
    Not(Box<Pred<A>>),
}

impl<A> Pred<A> {
    /// Whether the depth is at most `limit`. It reads only `limit` levels, so it is safe for a query of any depth.
    pub fn is_within_depth(&self, limit: u32) -> bool
        ensures { IsTrue result ↔ (depth_of (query_of self.now) ≤ limit) }
    {
        if limit == 0 {
            return false;
        }
        match self {
            Pred::Atom(_) => true,
            Pred::And(left, right) | Pred::Or(left, right) => {
                left.is_within_depth(limit - 1) && right.is_within_depth(limit - 1)
            }
            Pred::Not(part) => part.is_within_depth(limit - 1),
        }
    }
}

impl<A: Copy> Pred<A> {
    /// A copy of the query.
    ///
    /// # Errors
    /// Memory ran out; this query is unchanged.
    pub fn copy(&self, alloc: Global) -> Result<Pred<A>, AllocError>
        ensures { IfOk result (λ copy. query_of copy ≡ query_of self.now) }
    {
        match self {
            Pred::Atom(atom) => Ok(Pred::Atom(*atom)),
            Pred::And(left, right) => {
                let left = left.copy(alloc)?;
                let right = right.copy(alloc)?;
                let left = Box::new(alloc, left)?;
                let right = Box::new(alloc, right)?;
                Ok(Pred::And(left, right))
            }
            Pred::Or(left, right) => {
                let left = left.copy(alloc)?;
                let right = right.copy(alloc)?;
                let left = Box::new(alloc, left)?;
                let right = Box::new(alloc, right)?;
                Ok(Pred::Or(left, right))
            }
            Pred::Not(part) => {
                let part = part.copy(alloc)?;
                let part = Box::new(alloc, part)?;
                Ok(Pred::Not(part))
            }
        }
    }
}

impl<A: Copy + Eq> Pred<A> {
    /// Whether a row's key matches.
    pub fn matches<C: KeyClass<Atom = A>>(&self, key: C::Key) -> bool
        ensures { result ≡ matches_query C.rules.is_match (query_of self.now) key }
    {
        match self {
            Pred::Atom(atom) => C::matches(atom, key),
            Pred::And(left, right) => left.matches::<C>(key) && right.matches::<C>(key),
            Pred::Or(left, right) => left.matches::<C>(key) || right.matches::<C>(key),
            Pred::Not(part) => !part.matches::<C>(key),
        }
    }

    /// Whether a key below a bound may match.
    pub fn consistent<C: KeyClass<Atom = A>>(&self, bound: C::Key) -> bool
        ensures { result ≡ consistent_with_query C.rules.is_consistent (query_of self.now) bound }
    {
        match self {
            Pred::Atom(atom) => C::consistent(atom, bound),
            Pred::And(left, right) => left.consistent::<C>(bound) && right.consistent::<C>(bound),
            Pred::Or(left, right) => left.consistent::<C>(bound) || right.consistent::<C>(bound),
            Pred::Not(_) => true,
        }
    }

    /// Whether both are the same query.
    pub fn same_as<C: KeyClass<Atom = A>>(&self, other: &Pred<A>) -> bool
        ensures { IsTrue result ↔ (query_of self.now ≡ query_of other.now) }
    {
        match (self, other) {
            (Pred::Atom(a), Pred::Atom(b)) => a == b,
            (Pred::And(a, b), Pred::And(c, d)) => a.same_as::<C>(c) && b.same_as::<C>(d),
            (Pred::Or(a, b), Pred::Or(c, d)) => a.same_as::<C>(c) && b.same_as::<C>(d),
            (Pred::Not(a), Pred::Not(b)) => a.same_as::<C>(b),
            _ => false,
        }
    }
}

/// A theorem, no code: a bound that covers a matching key is consistent with the query, so below a bound that isn't
/// consistent no key matches.
pub fn bounds_miss_no_match<C: KeyClass>()
    ensures consistent { BoundsAdmitMatches C.rules }
    ensures no_match { NoneSatisfiesBelow C.rules }
{}
