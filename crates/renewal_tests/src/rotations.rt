//! Sweeps of one page at each change, in rotation: they leave few dead rows, and what a store answers is that of a
//! store without them.
use change_list::Config;
use interval_class::{Interval, Intervals};
use key_class::Refusal;
use rand_core::Rng;
use rand_pcg::Pcg32;
use std::alloc::Global;
use std::test::Fail;
use store::Store;
use test_support::all;

const CONFIG: Config = Config {
    fan: 16,
    least: 6,
    pages: 1_024,
    commits: 10_000,
};

/// How many changes a round has.
const CHANGES: u64 = 1_500;

/// A store whose pages are swept in rotation, and one that isn't swept.
#[derive(Drop)]
struct Twins {
    alloc: Global,
    generator: Pcg32,
    swept: Store<Intervals>,
    unswept: Store<Intervals>,
    /// The page that is swept next.
    page: u64,
}

fn new_store(alloc: Global) -> Result<Store<Intervals>, Refusal> {
    Store::new(alloc, CONFIG)
}

/// How many items a cursor on all rows delivers.
fn delivered(alloc: Global, store: &mut Store<Intervals>, cursor: u64) -> Result<usize, Refusal> {
    let mut items = Vec::new(alloc);
    store.drain(cursor, &mut items)?;
    Ok(items.len())
}

/// Whether two stores find the same rows.
fn find_alike(one: &Store<Intervals>, other: &Store<Intervals>) -> Result<bool, Refusal> {
    Ok(one.find(&all())?.as_slice() == other.find(&all())?.as_slice())
}

impl Twins {
    fn new(alloc: Global) -> Result<Twins, Refusal> {
        Ok(Twins {
            alloc,
            generator: Pcg32::new(7, 0),
            swept: new_store(alloc)?,
            unswept: new_store(alloc)?,
            page: 0,
        })
    }

    fn below(&mut self, bound: u64) -> u64 {
        u64::from(self.generator.next_u32())
            .checked_rem(bound)
            .unwrap_or(0)
    }

    fn key(&mut self) -> Result<Interval, Refusal> {
        let at = i64::from(self.generator.next_u32() % 10_000);
        Interval::new(at, at)
    }

    /// Makes a random change in both stores, and sweeps the next page of one. Whether they answered alike.
    fn change(&mut self) -> Result<bool, Refusal> {
        let key = self.key()?;
        let commits = self.swept.commits();
        let row = self.below(commits.saturating_add(1));
        let alike = match self.below(4) {
            0 => self.swept.delete(row) == self.unswept.delete(row),
            1 => self.swept.move_row(row, key) == self.unswept.move_row(row, key),
            _ => self.swept.insert(key, row) == self.unswept.insert(key, row),
        };
        self.page = self.swept.sweep_next(self.page)?;
        Ok(alike)
    }

    /// Whether both stores answer a round of changes alike.
    fn change_alike(&mut self) -> Result<bool, Refusal> {
        for _ in 0..CHANGES {
            if !self.change()? {
                return Ok(false);
            }
        }
        find_alike(&self.swept, &self.unswept)
    }

    /// How many dead rows a round of changes leaves, and how many pages there are.
    fn dead_rows_and_pages(&mut self) -> Result<(u64, u64), Refusal> {
        let left = self.swept.sweep_all()?;
        Ok((left, self.swept.stats().pages))
    }

    /// How many items a cursor of each store delivers whose scan begins before a round of changes.
    fn deliveries(&mut self) -> Result<(usize, usize), Refusal> {
        let cursor = self.swept.open(all(), 1)?;
        let other = self.unswept.open(all(), 1)?;
        let _alike = self.change_alike()?;
        Ok((
            delivered(self.alloc, &mut self.swept, cursor)?,
            delivered(self.alloc, &mut self.unswept, other)?,
        ))
    }
}

#[test]
fn sweeps_in_rotation_leave_few_dead_rows(rt: HostRuntime) -> Result<(), Fail> {
    let mut twins = Twins::new(rt.alloc())?;
    for round in 0..4 {
        assert!(rt; twins.change_alike()?, "round {round}");
        let (dead, pages) = twins.dead_rows_and_pages()?;
        assert!(rt;
            dead <= pages,
            "round {round}: {dead} dead rows on {pages} pages"
        );
    }
    Ok(())
}

#[test]
fn sweeps_in_rotation_keep_what_a_scan_needs(rt: HostRuntime) -> Result<(), Fail> {
    let mut twins = Twins::new(rt.alloc())?;
    for round in 0..4 {
        let (swept, unswept) = twins.deliveries()?;
        assert!(rt;
            swept == unswept && swept > 0,
            "round {round}: {swept} and {unswept}"
        );
    }
    Ok(())
}
