ghost use Rattle.feed.specs.Atoms.{box_reach, overlapping_box, same_box};
ghost use Rattle.feed.specs.AtomLaws.{box_itself, box_overlaps};

use crate::reach::Reach;
use box_class::{Atom, BoxKey, Boxes};
use key_class::Rel;

impl Reach for Boxes {
    ghost reach_of = { box_reach };

    ghost overlap_with = { overlapping_box };

    ghost same_with = { same_box };

    fn reach(atom: &Atom) -> Option<BoxKey> {
        Some(atom.operand)
    }

    fn overlapping(key: BoxKey) -> Atom {
        Atom {
            rel: Rel::Overlaps,
            operand: key,
        }
    }

    fn same(key: BoxKey) -> Atom {
        Atom {
            rel: Rel::Same,
            operand: key,
        }
    }

    ghost reaches = { box_overlaps };

    ghost sames = { box_itself };
}
