//! The keys under which whole queries are looked for.
use feed::reaches;
use interval_class::{Atom, Interval, Intervals};
use key_class::{Pred, Refusal, Rel};
use set_class::{Elements, Sets};
use std::alloc::Global;
use std::test::Fail;
use test_support::overlapping;

fn both<A>(alloc: Global, left: Pred<A>, right: Pred<A>) -> Result<Pred<A>, Refusal>
where
    A: Drop,
{
    let left = Box::new(alloc, left)?;
    Ok(Pred::And(left, Box::new(alloc, right)?))
}

fn either<A>(alloc: Global, left: Pred<A>, right: Pred<A>) -> Result<Pred<A>, Refusal>
where
    A: Drop,
{
    let left = Box::new(alloc, left)?;
    Ok(Pred::Or(left, Box::new(alloc, right)?))
}

fn negated<A>(alloc: Global, part: Pred<A>) -> Result<Pred<A>, Refusal>
where
    A: Drop,
{
    Ok(Pred::Not(Box::new(alloc, part)?))
}

/// The ends of the intervals under which a query is looked for.
fn ends(alloc: Global, query: &Pred<Atom>) -> Result<Option<Vec<(i64, i64)>>, Refusal> {
    let Some(keys) = reaches::<Intervals>(alloc, query)? else {
        return Ok(None);
    };
    let mut ends = Vec::new(alloc);
    for key in &keys {
        ends.push((key.lo, key.hi))?;
    }
    Ok(Some(ends))
}

/// Whether a query is looked for under the intervals with these ends.
fn has_ends(alloc: Global, query: &Pred<Atom>, wanted: &[(i64, i64)]) -> Result<bool, Refusal> {
    Ok(ends(alloc, query)?.is_some_and(|found| found.as_slice() == wanted))
}

#[test]
fn an_atom_is_looked_for_under_its_operand(rt: HostRuntime) -> Result<(), Fail> {
    assert!(rt; has_ends(rt.alloc(), &overlapping(1, 5)?, &[(1, 5)])?);
    Ok(())
}

/// Whether a query with both parts is looked for under the intervals with these ends.
fn and_has_ends(
    alloc: Global,
    left: Pred<Atom>,
    right: Pred<Atom>,
    wanted: &[(i64, i64)],
) -> Result<bool, Refusal> {
    has_ends(alloc, &both(alloc, left, right)?, wanted)
}

#[test]
fn an_or_is_looked_for_under_both_parts(rt: HostRuntime) -> Result<(), Fail> {
    let query = either(rt.alloc(), overlapping(1, 5)?, overlapping(7, 8)?)?;
    assert!(rt; has_ends(rt.alloc(), &query, &[(1, 5), (7, 8)])?);
    Ok(())
}

#[test]
fn an_or_with_a_not_is_looked_for_everywhere(rt: HostRuntime) -> Result<(), Fail> {
    let any = negated(rt.alloc(), overlapping(2, 2)?)?;
    let query = either(rt.alloc(), overlapping(1, 5)?, any)?;
    assert!(rt; ends(rt.alloc(), &query)?.is_none());
    Ok(())
}

#[test]
fn an_and_is_looked_for_under_its_narrower_part(rt: HostRuntime) -> Result<(), Fail> {
    let (one, other) = (overlapping(1, 5)?, overlapping(4, 7)?);
    assert!(rt; and_has_ends(rt.alloc(), one, other, &[(4, 7)])?);
    let (one, other) = (overlapping(0, 3)?, overlapping(4, 7)?);
    assert!(rt; and_has_ends(rt.alloc(), one, other, &[(0, 3)])?);
    Ok(())
}

#[test]
fn an_or_may_be_the_narrower_part(rt: HostRuntime) -> Result<(), Fail> {
    let ends = either(rt.alloc(), overlapping(0, 0)?, overlapping(9, 9)?)?;
    assert!(rt; and_has_ends(rt.alloc(), overlapping(0, 3)?, ends, &[(0, 0), (9, 9)])?);
    Ok(())
}

#[test]
fn an_and_with_a_not_is_looked_for_under_its_other_part(rt: HostRuntime) -> Result<(), Fail> {
    let any = negated(rt.alloc(), overlapping(2, 2)?)?;
    assert!(rt; and_has_ends(rt.alloc(), any, overlapping(0, 3)?, &[(0, 3)])?);
    Ok(())
}

#[test]
fn a_not_is_looked_for_everywhere(rt: HostRuntime) -> Result<(), Fail> {
    let query = negated(rt.alloc(), overlapping(1, 5)?)?;
    assert!(rt; ends(rt.alloc(), &query)?.is_none());
    Ok(())
}

fn set_query(rel: Rel, mask: u128) -> Pred<set_class::Atom> {
    Pred::Atom(set_class::Atom {
        rel,
        operand: Elements { mask },
    })
}

/// The sets under which a query is looked for that asks for what is within a set and holds another.
fn within_and_holding(
    alloc: Global,
    within: u128,
    held: u128,
) -> Result<Option<Vec<Elements>>, Refusal> {
    let query = both(
        alloc,
        set_query(Rel::Within, within),
        set_query(Rel::Holds, held),
    )?;
    Ok(reaches::<Sets>(alloc, &query)?)
}

#[test]
fn a_query_of_sets_needs_an_element(rt: HostRuntime) -> Result<(), Fail> {
    let keys = within_and_holding(rt.alloc(), 7, 2)?;
    assert!(rt; keys.is_some_and(|found| found.as_slice() == [Elements { mask: 2 }].as_slice()));
    assert!(rt; within_and_holding(rt.alloc(), 7, 0)?.is_none());
    Ok(())
}
