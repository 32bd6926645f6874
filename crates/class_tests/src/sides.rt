use crate::picks::are;
use key_class::{Side, Sides};
use std::test::Fail;

#[test]
fn copies_sides(rt: HostRuntime) -> Result<(), Fail> {
    let mut sides = Sides::new(rt.alloc());
    sides.push(Side::Right)?;
    sides.push(Side::Left)?;
    let copy = sides.copy(rt.alloc())?;
    assert!(rt; are(&copy, "rl") && are(&sides, "rl"));
    Ok(())
}
