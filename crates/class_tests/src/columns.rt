//! Blocks of eight keys in columns.
use box_class::BoxKey;
use interval_class::Interval;
use key_class::{Block, Columned, Refusal};
use set_class::Elements;

/// Whether a block of eight times a key is a copy of itself, and none of one that has one of the other keys at its end.
fn tells_copies<K: Columned>(key: K, others: &[K]) -> bool {
    let block = <K as Columned>::Block::filled(key);
    for other in others {
        let mut changed = block;
        changed.set(7, *other);
        if block.is_copy_of(&changed) {
            return false;
        }
    }
    block.is_copy_of(&block)
}

#[test]
fn copies_have_the_same_columns(rt: HostRuntime) -> Result<(), Refusal> {
    let lengths = [Interval::new(1, 4)?, Interval::new(2, 3)?];
    assert!(rt; tells_copies(Interval::new(1, 3)?, &lengths));
    let boxes = [
        BoxKey::new(0, 2, 5, 6)?,
        BoxKey::new(1, 0, 5, 6)?,
        BoxKey::new(1, 2, 3, 6)?,
        BoxKey::new(1, 2, 5, 4)?,
    ];
    assert!(rt; tells_copies(BoxKey::new(1, 2, 5, 6)?, &boxes));
    let sets = [Elements::new(&[2, 100])?, Elements::new(&[1, 101])?];
    assert!(rt; tells_copies(Elements::new(&[1, 100])?, &sets));
    Ok(())
}
