ghost use Rattle.std.specs.Prelude.{max, nat_eq, nat_le};

use key_class::{Columned, KeyClass, Plain, Refusal, Sides};
use std::alloc::Global;

/// A key that is kept in no columns.
#[derive(Clone, Copy, PartialEq, Eq)]
pub struct Ceiling {
    pub number: u8,
}

impl Columned for Ceiling {
    type Block = Plain<Ceiling>;
}

/// A class of numbers, where each covers itself and every lesser one. An atom matches only its own number.
#[derive(Clone, Copy)]
pub struct Ceilings;

impl KeyClass for Ceilings {
    type Key = Ceiling;

    type Atom = u8;

    ghost rules = { record {
      is_match = λ atom key. nat_eq atom key.number;
      is_consistent = λ atom bound. nat_le atom bound.number;
      union_of = λ a b. record { number = max a.number b.number };
      is_cover = λ bound key. nat_le key.number bound.number;
      size_of = λ key. key.number;
      picks = λ keys least sides. ⊥;
    } };

    fn matches(atom: &u8, key: Ceiling) -> bool {
        *atom == key.number
    }

    fn consistent(atom: &u8, bound: Ceiling) -> bool {
        *atom <= bound.number
    }

    fn union(a: Ceiling, b: Ceiling) -> Ceiling {
        Ceiling {
            number: a.number.max(b.number),
        }
    }

    fn covers(bound: Ceiling, key: Ceiling) -> bool {
        key.number <= bound.number
    }

    fn size(key: Ceiling) -> u128 {
        u128::from(key.number)
    }

    fn penalty(bound: Ceiling, key: Ceiling) -> u128 {
        u128::from(bound.number.max(key.number) - bound.number)
    }

    /// Never called, since no page is split here.
    fn pick_split(_: Global, keys: &[Ceiling], least: usize) -> Result<Sides, Refusal> {
        if keys.len() / 2 < least {
            Err(Refusal::TooFew)
        } else {
            Err(Refusal::OutOfMemory)
        }
    }

    ghost use Rattle.std.proofs.Common.{rules};

    ghost lawful = { record {
      bounds = record {
        itself = Prim.search rules;
        through = Prim.search rules;
        left = Prim.search rules;
        right = Prim.search rules;
        least = Prim.search rules;
      };
      consistent_above_match = Prim.search rules;
      covered_adds_nothing = Prim.search rules;
      equal_keys_are_same = Prim.search rules;
      equal_atoms_are_same = Prim.search rules;
    } };
}
