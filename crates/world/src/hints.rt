//! Hints: for each row number the page on which the row was seen last.
//!
//! A hint is a guess: the row may have gone to another page since, so the page is always checked first. A wrong hint
//! costs time, never correctness. There are no more pages than 16 bits can number, and a hint has just 16 bits, since
//! there is one for each commit.
ghost use Rattle.std.specs.Prelude.{◌≡◌, slice_index_or};
ghost use Rattle.world.specs.Hints.{hint_to, with_hint, with_hints};

use key_class::Columned;
use node::Rows;
use segmented::SegmentedVec;

/// A page's number, as a hint stores it.
pub(crate) fn hint_to(page: u64) -> u16
    ensures { result ≡ hint_to page }
{
    u16::try_from(page).unwrap_or(0)
}

/// Records that a row is on a page.
fn note_row(hints: &mut SegmentedVec<u16>, page: u16, row: u32)
    ensures { hints.new.items ≡ with_hint page row hints.old.items }
{
    let row = row as usize;
    if row < hints.len() {
        hints.set(row, page);
    }
}

/// Records that these rows are on a page.
pub(crate) fn note_all<K: Columned>(hints: &mut SegmentedVec<u16>, page: u16, rows: &Rows<K>)
    ensures { hints.new.items ≡ with_hints page rows.now hints.old.items }
{
    for place in 0..rows.len() {
        note_row(hints, page, rows.get(place).row());
    }
}

/// The page on which a row was seen last; the root if nothing is known.
pub(crate) fn page_of(hints: &SegmentedVec<u16>, row: u32) -> u32
    ensures { result ≡ slice_index_or hints.now.items row 0 }
{
    u32::from(hints.get(row as usize).unwrap_or(0))
}
