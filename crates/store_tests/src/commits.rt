//! Lists of commits in segments, and views of them.
use change_list::{ChangeList, View, Write, next_asked};
use interval_class::{Interval, Intervals};
use key_class::Refusal;
use std::alloc::Global;
use std::test::Fail;
use test_support::overlapping;

/// The greatest number of commits of a list.
const MOST_COMMITS: usize = 4_294_967_295;

/// The insert that is a commit.
fn insert(number: u32) -> Result<Write<Interval>, Refusal> {
    let at = i64::from(number);
    Ok(Write::Insert(Interval::new(at, at)?, u64::from(number)))
}

/// Appends an insert.
fn append(list: &mut ChangeList<Interval>, number: u32) -> Result<(), Refusal> {
    if list.len() >= MOST_COMMITS {
        return Err(Refusal::CommitsFull);
    }
    let at = i64::from(number);
    let key = Interval::new(at, at)?;
    Ok(list.push(Write::Insert(key, u64::from(number)))?)
}

/// A list of inserts whose keys and tags are their numbers.
fn of_inserts(alloc: Global, count: u32) -> Result<ChangeList<Interval>, Refusal> {
    let mut list = ChangeList::new(alloc);
    for number in 1..=count {
        append(&mut list, number)?;
    }
    Ok(list)
}

/// The segments and the length of the tail of a list, and those of a view.
fn parts(list: &ChangeList<Interval>, view: &View<Interval>) -> ((usize, usize), (usize, usize)) {
    (
        (list.segments(), list.tail_len()),
        (view.segments(), view.tail_len()),
    )
}

/// Whether a list and a view have so many commits, each the insert of its number.
fn have_inserts(
    list: &ChangeList<Interval>,
    view: &View<Interval>,
    count: u32,
) -> Result<bool, Refusal> {
    for number in 1..=count {
        let write = Some(insert(number)?);
        let place = u64::from(number);
        if list.commit(place) != write || view.get(place) != write {
            return Ok(false);
        }
    }
    Ok(view.get(0).is_none() && view.get(u64::from(count) + 1).is_none())
}

/// Whether a list of so many commits, and a view of it, have so many segments and such a tail, and each commit.
fn is_cut(alloc: Global, count: u32, segments: usize, tail: usize) -> Result<bool, Refusal> {
    let list = of_inserts(alloc, count)?;
    let view = list.view()?;
    let wanted = (segments, tail);
    Ok(parts(&list, &view) == (wanted, wanted) && have_inserts(&list, &view, count)?)
}

#[test]
fn segments_have_256_commits(rt: HostRuntime) -> Result<(), Fail> {
    for (count, segments, tail) in [
        (0, 0, 0),
        (255, 0, 255),
        (256, 1, 0),
        (257, 1, 1),
        (600, 2, 88),
    ] {
        assert!(rt; is_cut(rt.alloc(), count, segments, tail)?, "{count}");
    }
    Ok(())
}

/// How many commits a view of 256, and the list after one more, have.
fn lengths_of_view_and_list(list: &mut ChangeList<Interval>) -> Result<(usize, usize), Refusal> {
    let view = list.view()?;
    append(list, 257)?;
    Ok((view.len(), list.len()))
}

#[test]
fn a_view_stays_as_it_was(rt: HostRuntime) -> Result<(), Fail> {
    let mut list = of_inserts(rt.alloc(), 256)?;
    assert!(rt; lengths_of_view_and_list(&mut list)? == (256, 257));
    Ok(())
}

/// The next place from which a query for keys that overlap 300 may have an item.
fn next_place(list: &ChangeList<Interval>, place: u64) -> Result<u64, Refusal> {
    if place >= list.len() as u64 {
        return Err(Refusal::FromFuture);
    }
    let query = overlapping(300, 300)?;
    Ok(next_asked::<Intervals>(list.as_view(), &query, place))
}

#[test]
fn inserts_that_nobody_asks_for_are_passed(rt: HostRuntime) -> Result<(), Fail> {
    let list = of_inserts(rt.alloc(), 600)?;
    for (place, next) in [(0, 256), (255, 256), (256, 299), (299, 299), (300, 512)] {
        assert!(rt; next_place(&list, place)? == next, "{place}");
    }
    Ok(())
}
