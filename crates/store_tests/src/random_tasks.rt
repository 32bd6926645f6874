//! Random events, with splits and visits whose tasks are published later, compared with a world that gets only events.
use crate::events::{Answer, Query, Step, Trial, answer_of, new_world};
use change_list::Config;
use interval_class::Intervals;
use key_class::Refusal;
use node::same_page;
use rand_core::Rng;
use rand_pcg::Pcg32;
use std::alloc::Global;
use std::test::Fail;
use world::{SplitTask, VisitTask};

const CONFIG: Config = Config {
    fan: 4,
    least: 2,
    pages: 64,
    commits: 400,
};

/// How many events and publications a list has.
const STEPS: usize = 2_000;

/// A world with tasks, and one with events alone.
#[derive(Drop)]
struct Twins {
    alloc: Global,
    generator: Pcg32,
    world: Trial,
    twin: Trial,
    /// The greatest serials of cursors and finders.
    cursors: u64,
    finders: u64,
    /// The tasks, each with its page or its cursor.
    splits: Vec<(u64, SplitTask<Intervals>)>,
    visits: Vec<(u64, VisitTask<Intervals>)>,
    /// How many publications were answered like events, and how many were stale.
    published: u64,
    stale: u64,
}

impl Twins {
    fn new(alloc: Global, seed: u64) -> Result<Twins, Refusal> {
        Ok(Twins {
            alloc,
            generator: Pcg32::new(seed, 0),
            world: new_world(alloc, CONFIG)?,
            twin: new_world(alloc, CONFIG)?,
            cursors: 0,
            finders: 0,
            splits: Vec::new(alloc),
            visits: Vec::new(alloc),
            published: 0,
            stale: 0,
        })
    }

    fn below(&mut self, bound: u64) -> u64 {
        u64::from(self.generator.next_u32())
            .checked_rem(bound)
            .unwrap_or(0)
    }

    /// A number up to the last one given, or in one of eight draws up to twice as much.
    fn up_to(&mut self, last: u64) -> u64 {
        let bound = if self.below(8) == 0 {
            last.saturating_mul(2)
        } else {
            last
        };
        self.below(bound.saturating_add(1))
    }

    fn commit(&mut self) -> u64 {
        let commits = self.world.commits();
        self.up_to(commits)
    }

    fn page(&mut self) -> u64 {
        let pages = self.world.pages();
        self.up_to(pages)
    }

    /// The number of a page that names the child, or of any page.
    fn parent(&mut self, child: u64) -> u64 {
        for number in 0..self.world.pages() {
            if let Some(page) = self.world.page(number)
                && page.names(child)
            {
                return number;
            }
        }
        self.up_to(2)
    }

    /// The lower end of a page's cover, or any point.
    fn point(&mut self, page: u64) -> i64 {
        let drawn = i64::from(self.generator.next_u32() % 32);
        let cover = self.world.page(page).and_then(|page| page.cover());
        match cover {
            Some(cover) if drawn > 7 => cover.lo,
            _ => drawn,
        }
    }

    fn letters(&mut self) -> &'static str {
        match self.below(4) {
            0 => "lrlr",
            1 => "rrll",
            2 => "llr",
            _ => "llrr",
        }
    }

    fn node_step(&mut self, page: u64) -> Step {
        let point = self.point(page);
        match self.below(16) {
            0..9 => Step::Place(page, (point, point), 7),
            9 => Step::Enlarge(self.parent(page), page, (point, 31)),
            10 => Step::Grow(self.letters()),
            11 => Step::Split(page, self.letters()),
            12 => Step::Sweep(page),
            _ => Step::Post(self.parent(page), page),
        }
    }

    fn finder_step(&mut self, page: u64) -> Step {
        let finder = self.up_to(self.finders);
        let point = self.point(page);
        match self.below(8) {
            0..2 => Step::Find(self.commit()),
            2..4 => Step::Move(finder, page, (point, point)),
            4 => Step::Unfind(finder),
            _ => Step::Seek(finder),
        }
    }

    fn cursor_step(&mut self) -> Step {
        let cursor = self.up_to(self.cursors);
        let point = self.point(0);
        match self.below(16) {
            0 => Step::Open(Query::Overlaps(point, 31), 8),
            1 => Step::Follow(Query::Misses(point, 31), 8, self.commit()),
            2 => Step::Close(cursor),
            3 => Step::AskMark(cursor),
            4..12 => Step::Turn(cursor),
            _ => Step::Take(cursor),
        }
    }

    fn step(&mut self) -> Step {
        let page = self.page();
        match self.below(4) {
            0 => self.finder_step(page),
            1 => self.cursor_step(),
            _ => self.node_step(page),
        }
    }

    fn note(&mut self, answer: Answer) {
        match answer {
            Answer::Opened(serial) => self.cursors = serial,
            Answer::Finder(serial) => self.finders = serial,
            _ => {}
        }
    }

    /// Whether both worlds give the same answer to an event.
    fn are_answered_alike(&mut self, step: Step) -> Result<bool, Refusal> {
        let answer = answer_of(self.alloc, &mut self.world, step)?;
        self.note(answer);
        Ok(answer == answer_of(self.alloc, &mut self.twin, step)?)
    }

    fn prepare_split(&mut self) -> Result<bool, Refusal> {
        let page = self.page();
        if let Ok(mut task) = self.world.prepare_split(page)
            && self.splits.len() < 4
            && task.work().is_ok()
        {
            self.splits.push((page, task))?;
        }
        Ok(true)
    }

    fn prepare_visit(&mut self) -> Result<bool, Refusal> {
        let cursor = self.up_to(self.cursors);
        if let Ok(mut task) = self.world.prepare_visit(cursor)
            && self.visits.len() < 4
        {
            task.work()?;
            self.visits.push((cursor, task))?;
        }
        Ok(true)
    }

    /// The twin's answer to the event of a split of a page.
    fn split_twin(&mut self, page: u64) -> Result<Answer, Refusal> {
        let mut task = self.twin.prepare_split(page)?;
        task.work()?;
        match self.twin.split_of(task) {
            Some(event) => Ok(Answer::of(self.twin.step(event))),
            None => Err(Refusal::Idle),
        }
    }

    /// Whether the oldest split is stale, or answered like its event by the twin.
    fn publish_split(&mut self) -> Result<bool, Refusal> {
        if self.splits.is_empty() {
            return Ok(true);
        }
        let (page, task) = self.splits.remove(0);
        let answer = Answer::of(self.world.publish_split(0, task));
        if answer == Answer::Refused(Refusal::NotHere) {
            self.stale = self.stale.saturating_add(1);
            return Ok(true);
        }
        self.published = self.published.saturating_add(1);
        Ok(answer == self.split_twin(page)?)
    }

    /// Whether the oldest visit is stale, or answered like a turn of the twin.
    fn publish_visit(&mut self) -> Result<bool, Refusal> {
        if self.visits.is_empty() {
            return Ok(true);
        }
        let (cursor, task) = self.visits.remove(0);
        let answer = Answer::of(self.world.publish_visit(0, task));
        if answer == Answer::Refused(Refusal::NotHere) {
            self.stale = self.stale.saturating_add(1);
            return Ok(true);
        }
        self.published = self.published.saturating_add(1);
        Ok(answer == answer_of(self.alloc, &mut self.twin, Step::Turn(cursor))?)
    }

    /// Whether the next event or publication is answered as it is due.
    fn goes_on(&mut self) -> Result<bool, Refusal> {
        match self.below(16) {
            0 => self.prepare_split(),
            1 => self.publish_split(),
            2 => self.prepare_visit(),
            3 => self.publish_visit(),
            _ => {
                let step = self.step();
                self.are_answered_alike(step)
            }
        }
    }

    fn has_same_page(&self, number: u64) -> bool {
        match (self.world.page(number), self.twin.page(number)) {
            (Some(page), Some(other)) => same_page::<Intervals>(page, other),
            _ => false,
        }
    }

    fn has_same_pages(&self) -> bool {
        self.world.pages() == self.twin.pages()
            && (0..self.world.pages()).all(|number| self.has_same_page(number))
    }

    /// The place of the first answer that isn't as it is due. The last one if the pages aren't the same in the end.
    fn first_wrong(&mut self) -> Result<Option<usize>, Refusal> {
        for place in 0..STEPS {
            if !self.goes_on()? {
                return Ok(Some(place));
            }
        }
        Ok((!self.has_same_pages()).then_some(STEPS))
    }

    fn outcome(&mut self) -> Result<(Option<usize>, u64, u64), Refusal> {
        let wrong = self.first_wrong()?;
        Ok((wrong, self.published, self.stale))
    }
}

/// The place of the first wrong answer in a random list, and how many publications were fresh and stale.
fn outcome(alloc: Global, seed: u64) -> Result<(Option<usize>, u64, u64), Refusal> {
    let mut twins = Twins::new(alloc, seed)?;
    twins.outcome()
}

#[test]
fn tasks_do_what_their_events_do(rt: HostRuntime) -> Result<(), Fail> {
    for seed in 1..=16 {
        let (wrong, published, stale) = outcome(rt.alloc(), seed)?;
        assert!(rt; wrong.is_none(), "{seed} {wrong:?}");
        assert!(rt; published > 20 && stale > 2, "{seed} {published} {stale}");
    }
    Ok(())
}
