ghost use Rattle.feed.specs.Atoms.{set_reach, overlapping_set, same_set};
ghost use Rattle.feed.specs.AtomLaws.{set_itself, set_overlaps};

use crate::reach::Reach;
use key_class::Rel;
use set_class::{Atom, Elements, Sets};

impl Reach for Sets {
    ghost reach_of = { set_reach };

    ghost overlap_with = { overlapping_set };

    ghost same_with = { same_set };

    /// The empty set overlaps nothing, but it is within any set, and any set holds it. So `within` has no reach, and
    /// neither do `holds` and `same` of the empty set.
    fn reach(atom: &Atom) -> Option<Elements> {
        match atom.rel {
            Rel::Overlaps => Some(atom.operand),
            Rel::Within => None,
            Rel::Holds | Rel::Same => {
                if atom.operand.mask == 0 {
                    None
                } else {
                    Some(atom.operand)
                }
            }
        }
    }

    fn overlapping(key: Elements) -> Atom {
        Atom {
            rel: Rel::Overlaps,
            operand: key,
        }
    }

    fn same(key: Elements) -> Atom {
        Atom {
            rel: Rel::Same,
            operand: key,
        }
    }

    ghost reaches = { set_overlaps };

    ghost sames = { set_itself };
}
