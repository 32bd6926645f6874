ghost use Rattle.feed.specs.Atoms.{interval_reach, overlapping_interval, same_interval};
ghost use Rattle.feed.specs.AtomLaws.{interval_itself, interval_overlaps};

use crate::reach::Reach;
use interval_class::{Atom, Interval, Intervals};
use key_class::Rel;

impl Reach for Intervals {
    ghost reach_of = { interval_reach };

    ghost overlap_with = { overlapping_interval };

    ghost same_with = { same_interval };

    fn reach(atom: &Atom) -> Option<Interval> {
        Some(atom.operand)
    }

    fn overlapping(key: Interval) -> Atom {
        Atom {
            rel: Rel::Overlaps,
            operand: key,
        }
    }

    fn same(key: Interval) -> Atom {
        Atom {
            rel: Rel::Same,
            operand: key,
        }
    }

    ghost reaches = { interval_overlaps };

    ghost sames = { interval_itself };
}
