//! The reach of the atoms of each class.
use box_class::{BoxKey, Boxes};
use feed::{Reach, matching_keys_are_reached};
use interval_class::{Interval, Intervals};
use key_class::{KeyClass, Refusal, Rel};
use set_class::{Elements, Sets};
use std::test::Fail;

const RELATIONS: [Rel; 4] = [Rel::Overlaps, Rel::Within, Rel::Holds, Rel::Same];

/// How many of some keys match an atom. `None` unless each that does overlaps the atom's reach, if it has one, and
/// matches the atom that asks for the key itself.
fn matching<C: Reach>(atom: &C::Atom, keys: &[C::Key]) -> Option<usize> {
    let mut count: usize = 0;
    for key in keys {
        if !C::matches(&C::same(*key), *key) {
            return None;
        }
        if C::matches(atom, *key) {
            if let Some(reach) = C::reach(atom)
                && !C::matches(&C::overlapping(*key), reach)
            {
                return None;
            }
            count = count.saturating_add(1);
        }
    }
    Some(count)
}

fn interval(lo: i64, hi: i64) -> Result<Interval, Refusal> {
    Interval::new(lo, hi)
}

#[test]
fn intervals_reach_their_operands(rt: HostRuntime) -> Result<(), Fail> {
    matching_keys_are_reached::<Intervals>();
    let operand = interval(3, 5)?;
    let keys = [
        interval(1, 3)?,
        interval(4, 4)?,
        interval(0, 9)?,
        interval(3, 5)?,
        interval(6, 7)?,
    ];
    for (rel, wanted) in RELATIONS.iter().zip(&[4, 2, 2, 1]) {
        let atom = interval_class::Atom { rel: *rel, operand };
        assert!(rt; Intervals::reach(&atom) == Some(operand));
        assert!(rt; matching::<Intervals>(&atom, &keys) == Some(*wanted));
    }
    Ok(())
}

#[test]
fn boxes_reach_their_operands(rt: HostRuntime) -> Result<(), Fail> {
    matching_keys_are_reached::<Boxes>();
    let operand = BoxKey::new(3, 3, 5, 5)?;
    let keys = [
        BoxKey::new(1, 1, 3, 3)?,
        BoxKey::new(4, 4, 4, 4)?,
        BoxKey::new(0, 0, 9, 9)?,
        BoxKey::new(3, 3, 5, 5)?,
        BoxKey::new(3, 6, 5, 7)?,
    ];
    for (rel, wanted) in RELATIONS.iter().zip(&[4, 2, 2, 1]) {
        let atom = box_class::Atom { rel: *rel, operand };
        assert!(rt; Boxes::reach(&atom) == Some(operand));
        assert!(rt; matching::<Boxes>(&atom, &keys) == Some(*wanted));
    }
    Ok(())
}

/// The reach of a relation to a set.
fn set_reach(rel: Rel, operand: Elements) -> Option<Elements> {
    Sets::reach(&set_class::Atom { rel, operand })
}

#[test]
fn sets_reach_their_operands(rt: HostRuntime) -> Result<(), Fail> {
    matching_keys_are_reached::<Sets>();
    let operand = Elements::new(&[3, 5, 70])?;
    let keys = [
        Elements::new(&[1, 3])?,
        Elements::new(&[5, 70])?,
        Elements::new(&[3, 5, 70, 127])?,
        operand,
        Elements::empty(),
        Elements::new(&[71])?,
    ];
    for (rel, wanted) in RELATIONS.iter().zip(&[4, 3, 2, 1]) {
        let atom = set_class::Atom { rel: *rel, operand };
        assert!(rt; matching::<Sets>(&atom, &keys) == Some(*wanted));
    }
    for rel in [Rel::Overlaps, Rel::Holds, Rel::Same] {
        assert!(rt; set_reach(rel, operand) == Some(operand));
    }
    assert!(rt; set_reach(Rel::Within, operand).is_none());
    Ok(())
}

#[test]
fn the_empty_set_reaches_nothing(rt: HostRuntime) -> Result<(), Fail> {
    let nothing = Elements::empty();
    for rel in [Rel::Within, Rel::Holds, Rel::Same] {
        assert!(rt; set_reach(rel, nothing).is_none());
        let atom = set_class::Atom {
            rel,
            operand: nothing,
        };
        assert!(rt; Sets::matches(&atom, nothing));
    }
    assert!(rt; set_reach(Rel::Overlaps, nothing) == Some(nothing));
    Ok(())
}
