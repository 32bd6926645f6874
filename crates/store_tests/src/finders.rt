//! Finders that begin near their rows, and deletes while other finders are open.
use crate::events::{Step, Trial, make_all, new_world};
use change_list::Config;
use key_class::Refusal;
use std::alloc::Global;
use std::test::Fail;
use writes::delete;

const CONFIG: Config = Config {
    fan: 4,
    least: 2,
    pages: 9,
    commits: 20,
};

/// The root grows above pages 1 and 2, page 2 is filled, and splits into 2 and 3.
static GROWTH: [Step; 9] = [
    Step::Place(0, (1, 1), 0),
    Step::Place(0, (2, 2), 0),
    Step::Place(0, (3, 3), 0),
    Step::Place(0, (4, 4), 0),
    Step::Grow("llrr"),
    Step::Place(2, (3, 3), 0),
    Step::Place(2, (4, 4), 0),
    Step::Split(2, "lrlr"),
    Step::Post(0, 2),
];

fn grown(alloc: Global) -> Result<Trial, Refusal> {
    let mut world = new_world(alloc, CONFIG)?;
    make_all(alloc, &mut world, &GROWTH)?;
    Ok(world)
}

/// How many pages a finder visits until it meets its row, which it deletes. 0 if it doesn't in nine visits.
fn visits(world: &mut Trial, finder: u64) -> Result<u64, Refusal> {
    for count in 1..10 {
        if world.seek_to_delete(7, finder)?.is_some() {
            return Ok(count);
        }
    }
    Ok(0)
}

/// How many pages a new finder near a row visits.
fn visits_near(world: &mut Trial, row: u64) -> Result<u64, Refusal> {
    let finder = world.open_finder_near(row)?;
    visits(world, finder)
}

/// A row, and how many pages its finder visits. Rows that the root held when it grew are sought from the root, until
/// their page is split and they leave it.
static VISITS: [(u64, Result<u64, Refusal>); 7] = [
    (1, Ok(2)),
    (3, Ok(2)),
    (4, Ok(1)),
    (5, Ok(1)),
    (6, Ok(1)),
    (4, Err(Refusal::AlreadyDeleted)),
    (11, Err(Refusal::NoSuchRow)),
];

/// The first of the rows whose finder visits another number of pages.
fn first_wrong(world: &mut Trial) -> Option<u64> {
    for (row, wanted) in &VISITS {
        if visits_near(world, *row) != *wanted {
            return Some(*row);
        }
    }
    None
}

fn first_wrong_of_new(alloc: Global) -> Result<Option<u64>, Refusal> {
    let mut world = grown(alloc)?;
    Ok(first_wrong(&mut world))
}

#[test]
fn a_finder_begins_where_its_row_stands(rt: HostRuntime) -> Result<(), Fail> {
    let wrong = first_wrong_of_new(rt.alloc())?;
    assert!(rt; wrong.is_none(), "{wrong:?}");
    Ok(())
}

/// The results of two deletes.
type Deletes = (Result<u64, Refusal>, Result<u64, Refusal>);

static FINDERS: [Step; 64] = [Step::Find(1); 64];

/// The results of a delete while 64 finders are open, and while 63 are.
fn deletes_beside_finders(alloc: Global, world: &mut Trial) -> Result<Deletes, Refusal> {
    make_all(alloc, world, &FINDERS)?;
    let refused = delete(world, 2);
    make_all(alloc, world, &[Step::Unfind(9)])?;
    Ok((refused, delete(world, 2)))
}

fn deletes_of_new(alloc: Global) -> Result<Deletes, Refusal> {
    let mut world = grown(alloc)?;
    deletes_beside_finders(alloc, &mut world)
}

#[test]
fn a_delete_needs_a_finder(rt: HostRuntime) -> Result<(), Fail> {
    let deletes = deletes_of_new(rt.alloc())?;
    assert!(rt; deletes == (Err(Refusal::FindersFull), Ok(7)));
    Ok(())
}
