//! Splits and visits that are published while they are fresh, or stale.
use crate::events::{Answer, Query, Step, Trial, answer_of, make_all, new_world};
use change_list::Config;
use interval_class::Intervals;
use key_class::Refusal;
use std::alloc::Global;
use std::test::Fail;
use world::{SplitTask, VisitTask};

const EIGHT: Config = Config {
    fan: 8,
    least: 2,
    pages: 64,
    commits: 400,
};

/// Eight rows, and a root above two leaves: pages 1 and 2 have four rows each.
static TWO_LEAVES: [Step; 9] = [
    Step::Place(0, (0, 0), 0),
    Step::Place(0, (1, 1), 0),
    Step::Place(0, (2, 2), 0),
    Step::Place(0, (3, 3), 0),
    Step::Place(0, (4, 4), 0),
    Step::Place(0, (5, 5), 0),
    Step::Place(0, (6, 6), 0),
    Step::Place(0, (7, 7), 0),
    Step::Grow("llllrrrr"),
];

/// A world, with the tasks that will be published.
#[derive(Drop)]
struct Scene {
    world: Trial,
    splits: Vec<SplitTask<Intervals>>,
    visits: Vec<VisitTask<Intervals>>,
}

/// A call, with a number as its answer: 0 if nothing else is said.
#[derive(Clone, Copy)]
enum Call {
    Make(Step),
    /// Prepares a split of a page, and works on it or not.
    PrepareSplit(u64, bool),
    /// Publishes the split that was prepared last. Answered by the new page.
    PublishSplit,
    /// Prepares a visit for a cursor, and works on it or not.
    PrepareVisit(u64, bool),
    /// Publishes the visit that was prepared last. Answered by the page that is visited.
    PublishVisit,
    /// Answered by the page that a cursor visits next.
    PageToVisit(u64),
    /// Answered by the number of pages.
    Pages,
    /// Answered by the number of rows of a page.
    Rows(u64),
    CheckCursor(u64),
}

fn prepare_split(scene: &mut Scene, page: u64, is_worked: bool) -> Result<u64, Refusal> {
    let mut task = scene.world.prepare_split(page)?;
    if is_worked {
        task.work()?;
    }
    scene.splits.push(task)?;
    Ok(0)
}

fn publish_split(scene: &mut Scene) -> Result<u64, Refusal> {
    let Some(task) = scene.splits.pop() else {
        return Err(Refusal::Idle);
    };
    match Answer::of(scene.world.publish_split(0, task)) {
        Answer::Split(sibling) => Ok(u64::from(sibling)),
        Answer::Refused(why) => Err(why),
        _ => Err(Refusal::Idle),
    }
}

fn prepare_visit(scene: &mut Scene, cursor: u64, is_worked: bool) -> Result<u64, Refusal> {
    let mut task = scene.world.prepare_visit(cursor)?;
    if is_worked {
        task.work()?;
    }
    scene.visits.push(task)?;
    Ok(0)
}

fn publish_visit(scene: &mut Scene) -> Result<u64, Refusal> {
    let Some(task) = scene.visits.pop() else {
        return Err(Refusal::Idle);
    };
    match Answer::of(scene.world.publish_visit(0, task)) {
        Answer::Visited(page) => Ok(u64::from(page)),
        Answer::Refused(why) => Err(why),
        _ => Err(Refusal::Idle),
    }
}

fn make(alloc: Global, world: &mut Trial, step: Step) -> Result<u64, Refusal> {
    match answer_of(alloc, world, step)? {
        Answer::Refused(why) => Err(why),
        _ => Ok(0),
    }
}

fn row_count(world: &Trial, page: u64) -> Result<u64, Refusal> {
    match world.page(page) {
        Some(page) => Ok(page.rows().len() as u64),
        None => Err(Refusal::NotHere),
    }
}

fn answer(alloc: Global, scene: &mut Scene, call: Call) -> Result<u64, Refusal> {
    match call {
        Call::Make(step) => make(alloc, &mut scene.world, step),
        Call::PrepareSplit(page, is_worked) => prepare_split(scene, page, is_worked),
        Call::PublishSplit => publish_split(scene),
        Call::PrepareVisit(cursor, is_worked) => prepare_visit(scene, cursor, is_worked),
        Call::PublishVisit => publish_visit(scene),
        Call::PageToVisit(cursor) => {
            Ok(u64::from(scene.world.page_to_visit(cursor).ok_or(Refusal::Idle)?))
        }
        Call::Pages => Ok(scene.world.pages()),
        Call::Rows(page) => row_count(&scene.world, page),
        Call::CheckCursor(cursor) => {
            scene.world.check_cursor(cursor)?;
            Ok(0)
        }
    }
}

/// A world of two leaves.
fn two_leaves(alloc: Global) -> Result<Trial, Refusal> {
    let mut world = new_world(alloc, EIGHT)?;
    make_all(alloc, &mut world, &TWO_LEAVES)?;
    Ok(world)
}

fn new_scene(alloc: Global) -> Result<Scene, Refusal> {
    Ok(Scene {
        world: two_leaves(alloc)?,
        splits: Vec::new(alloc),
        visits: Vec::new(alloc),
    })
}

/// The place of the first call with another answer.
fn first_wrong(
    alloc: Global,
    scene: &mut Scene,
    calls: &[(Call, Result<u64, Refusal>)],
) -> Option<usize> {
    for (place, (call, wanted)) in calls.iter().enumerate() {
        if answer(alloc, scene, *call) != *wanted {
            return Some(place);
        }
    }
    None
}

/// The place of the first call with another answer, in a world of two leaves.
fn first_wrong_of_new(
    alloc: Global,
    calls: &[(Call, Result<u64, Refusal>)],
) -> Result<Option<usize>, Refusal> {
    let mut scene = new_scene(alloc)?;
    Ok(first_wrong(alloc, &mut scene, calls))
}

/// Opens a cursor on all rows.
const OPEN: Call = Call::Make(Step::Open(Query::Overlaps(0, 9), 16));

/// Places a row on page 1.
const PLACE: Call = Call::Make(Step::Place(1, (1, 1), 7));

static SPLITS: [(Call, Result<u64, Refusal>); 22] = [
    (Call::PrepareSplit(1, true), Ok(0)),
    (PLACE, Ok(0)),
    // The page has one more entry since.
    (Call::PublishSplit, Err(Refusal::NotHere)),
    (Call::Pages, Ok(3)),
    (Call::Rows(1), Ok(5)),
    // Without work nothing is published.
    (Call::PrepareSplit(1, false), Ok(0)),
    (Call::PublishSplit, Err(Refusal::NotHere)),
    // A fresh task is answered like its event.
    (Call::PrepareSplit(1, true), Ok(0)),
    (Call::PublishSplit, Err(Refusal::TooFew)),
    (PLACE, Ok(0)),
    (PLACE, Ok(0)),
    (PLACE, Ok(0)),
    (Call::PrepareSplit(1, true), Ok(0)),
    (Call::PrepareSplit(1, true), Ok(0)),
    (Call::PublishSplit, Ok(3)),
    (Call::Rows(3), Ok(4)),
    // The page was split since.
    (Call::PublishSplit, Err(Refusal::NotHere)),
    (Call::Rows(1), Ok(4)),
    (Call::Pages, Ok(4)),
    // Page 0 is never split, nor a page that doesn't exist.
    (Call::PrepareSplit(0, false), Err(Refusal::NotHere)),
    (Call::PrepareSplit(9, false), Err(Refusal::NotHere)),
    (Call::PublishSplit, Err(Refusal::Idle)),
];

static VISITS: [(Call, Result<u64, Refusal>); 22] = [
    (OPEN, Ok(0)),
    (OPEN, Ok(0)),
    (Call::PageToVisit(1), Ok(0)),
    (Call::PrepareVisit(1, true), Ok(0)),
    // Another cursor's turn comes between.
    (Call::Make(Step::Turn(2)), Ok(0)),
    (Call::PublishVisit, Ok(0)),
    (Call::PageToVisit(1), Ok(1)),
    (Call::PrepareVisit(1, false), Ok(0)),
    (Call::PublishVisit, Err(Refusal::NotHere)),
    (Call::PrepareVisit(1, true), Ok(0)),
    // The cursor's own turn comes between.
    (Call::Make(Step::Turn(1)), Ok(0)),
    (Call::PublishVisit, Err(Refusal::NotHere)),
    // Rows are pending.
    (Call::PrepareVisit(1, false), Err(Refusal::NotHere)),
    (Call::PageToVisit(1), Err(Refusal::Idle)),
    (Call::PrepareVisit(2, true), Ok(0)),
    (Call::Make(Step::Close(2)), Ok(0)),
    // The cursor is closed.
    (Call::PublishVisit, Err(Refusal::NotHere)),
    (Call::CheckCursor(2), Err(Refusal::CursorClosed)),
    (Call::PrepareVisit(2, false), Err(Refusal::CursorClosed)),
    (Call::PageToVisit(2), Err(Refusal::Idle)),
    // No cursor has this serial.
    (Call::PrepareVisit(3, false), Err(Refusal::NoSuchCursor)),
    (Call::PageToVisit(3), Err(Refusal::Idle)),
];

#[test]
fn tasks_are_published_or_stale(rt: HostRuntime) -> Result<(), Fail> {
    let wrong = first_wrong_of_new(rt.alloc(), &SPLITS)?;
    assert!(rt; wrong.is_none(), "split {wrong:?}");
    let wrong = first_wrong_of_new(rt.alloc(), &VISITS)?;
    assert!(rt; wrong.is_none(), "visit {wrong:?}");
    Ok(())
}
