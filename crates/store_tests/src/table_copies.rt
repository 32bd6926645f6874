//! Pages that change while a copy of their table exists, at the ends of its chunks.
use interval_class::{Interval, Intervals};
use key_class::Refusal;
use node::{Page, same_page};
use page_table::PageTable;
use row_version::Entry;
use std::alloc::Global;
use std::test::Fail;

/// How many pages the table has: more than its largest chunk.
const PAGES: u32 = 65_600;

fn add_leaves(alloc: Global, table: &mut PageTable<Interval>) -> Result<(), Refusal> {
    for _ in 1..PAGES {
        if table.len() > 70_000 {
            return Err(Refusal::PagesFull);
        }
        table.fresh(Page::leaf(alloc, 1)?)?;
    }
    Ok(())
}

/// A table of empty leaves.
fn leaves(alloc: Global) -> Result<PageTable<Interval>, Refusal> {
    let mut table = PageTable::new(alloc, 1)?;
    add_leaves(alloc, &mut table)?;
    Ok(table)
}

/// Places row 1 on a page.
fn place(table: &mut PageTable<Interval>, page: u32) -> Result<(), Refusal> {
    if page as usize >= table.len() {
        return Err(Refusal::NotHere);
    }
    Ok(table.place(page, Entry::new(Interval::new(1, 2)?, 1, 6))?)
}

/// Moves row 1 to another page, as row 2.
fn relocate(table: &mut PageTable<Interval>, from: u32, to: u32) -> Result<(), Refusal> {
    if from as usize >= table.len() || to as usize >= table.len() {
        return Err(Refusal::NotHere);
    }
    let entry = Entry::new(Interval::new(3, 4)?, 2, 6);
    if entry.row() == 1 {
        return Err(Refusal::NotHere);
    }
    Ok(table.relocate(from, 1, 2, to, entry)?)
}

/// Adds a branch to a sibling next to its child, in their parent.
fn post(
    table: &mut PageTable<Interval>,
    parent: u32,
    child: u32,
    sibling: u32,
) -> Result<(), Refusal> {
    let pages = table.len();
    if parent as usize >= pages || child as usize >= pages || sibling as usize >= pages {
        return Err(Refusal::NotHere);
    }
    if parent == child || parent == sibling || child == sibling || table.counter() > 9 {
        return Err(Refusal::NotHere);
    }
    Ok(table.post(parent, child, sibling)?)
}

/// Changes the last page of a chunk, the one before it, and the first of the next chunk.
fn change(table: &mut PageTable<Interval>, last: u32) -> Result<(), Refusal> {
    let (before, next) = (last.wrapping_sub(1), last.wrapping_add(1));
    place(table, before)?;
    place(table, last)?;
    relocate(table, last, next)?;
    post(table, before, last, next)
}

fn is_same(table: &PageTable<Interval>, copy: &PageTable<Interval>, page: u32) -> bool {
    if page as usize >= table.len() || page as usize >= copy.len() {
        return false;
    }
    same_page::<Intervals>(table.page(page), copy.page(page))
}

/// How many pages of a table differ from its copy.
fn count_changed(table: &PageTable<Interval>, copy: &PageTable<Interval>) -> u32 {
    let mut count: u32 = 0;
    for page in 0..PAGES {
        if !is_same(table, copy, page) {
            count = count.wrapping_add(1);
        }
    }
    count
}

/// How many pages differ from a copy that was made before the changes, if those at the end of the chunk do.
fn changed(table: &mut PageTable<Interval>, last: u32) -> Result<Option<u32>, Refusal> {
    let copy = table.copy()?;
    change(table, last)?;
    let is_here = !is_same(table, &copy, last) && !is_same(table, &copy, last.wrapping_add(1));
    Ok(is_here.then_some(count_changed(table, &copy)))
}

#[test]
fn pages_change_beside_a_copy(rt: HostRuntime) -> Result<(), Fail> {
    let mut table = leaves(rt.alloc())?;
    for last in [31, 1_023, 65_535] {
        let count = changed(&mut table, last)?;
        assert!(rt; count == Some(3), "{last} {count:?}");
    }
    Ok(())
}
