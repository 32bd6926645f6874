//! What a search finds in a tree that agrees with some commits.
ghost use Rattle.std.specs.Prelude.{◌≡◌, length, IfOk, IsPermutation};
ghost use Rattle.key_class.specs.Rules.{satisfies};
ghost use Rattle.page_table.specs.Weights.{Same};
ghost use Rattle.search.specs.Searches.{IsSearchable};
ghost use Rattle.snapshot.specs.Finds.{AreFirst, AreWritten, OfCommits};

use change_list::Row;
use key_class::KeyClass;
use page_table::PageTable;
use search::{AsRow, AtMost, BoundedQuery, Counter, Slots, Stop, find_all, sort_by_number};
use std::alloc::{AllocError, Global};
use std::marker::PhantomData;

/// How many rows a search reserves memory for at first.
const AT_FIRST: usize = 32;

/// The live rows that match, by rising number: a search, then a sort.
///
/// # Errors
/// Memory ran out.
pub fn rows_in_order<C: KeyClass>(
    alloc: Global,
    table: &PageTable<C::Key>,
    query: &BoundedQuery<C::Atom>,
) -> Result<Vec<Row<C::Key>>, AllocError>
    requires { IsSearchable C.rules.is_cover table.now }
    ensures { IfOk result (λ v.
        OfCommits (satisfies C.rules query.now) table.now (λ all. v.items ≡ all)) }
{
    let rows = found_rows::<C>(alloc, table, query)?;
    sort_by_number(alloc, rows)
}

/// The live rows that match, in any order.
///
/// # Errors
/// Memory ran out.
pub fn rows_in_any_order<C: KeyClass>(
    alloc: Global,
    table: &PageTable<C::Key>,
    query: &BoundedQuery<C::Atom>,
) -> Result<Vec<Row<C::Key>>, AllocError>
    requires { IsSearchable C.rules.is_cover table.now }
    ensures { IfOk result (λ v.
        OfCommits (satisfies C.rules query.now) table.now (IsPermutation v.items)) }
{
    found_rows::<C>(alloc, table, query)
}

/// How many live rows match. It needs no memory.
pub fn number_of_rows<C: KeyClass>(table: &PageTable<C::Key>, query: &BoundedQuery<C::Atom>) -> u64
    requires { IsSearchable C.rules.is_cover table.now }
    ensures { OfCommits (satisfies C.rules query.now) table.now (λ all. result ≡ length all) }
{
    let mut counter = Counter { rows: 0 };
    let _never_stops = find_all::<C, Counter>(table, query, &mut counter);
    counter.total()
}

/// At most so many of the live rows that match, in any order.
///
/// # Errors
/// Memory ran out.
pub fn first_rows<C: KeyClass>(
    alloc: Global,
    table: &PageTable<C::Key>,
    query: &BoundedQuery<C::Atom>,
    limit: usize,
) -> Result<Vec<Row<C::Key>>, AllocError>
    requires { IsSearchable C.rules.is_cover table.now }
    ensures { IfOk result (λ v. OfCommits (satisfies C.rules query.now) table.now
        (λ all. AreFirst all limit v.items)) }
{
    let mut list = AtMost {
        rows: Vec::new(alloc),
        most: limit,
    };
    match find_all::<C, AtMost<C::Key>>(table, query, &mut list) {
        Ok(()) => Ok(list.rows),
        Err(Stop::Enough) => Ok(list.rows),
        Err(Stop::OutOfMemory) => Err(AllocError),
    }
}

/// Writes the live rows that match, in any order, into a slice from its first place on, as many as fit. Gives how many
/// match. It needs no memory.
pub fn write_rows<C: KeyClass>(
    table: &PageTable<C::Key>,
    query: &BoundedQuery<C::Atom>,
    into: &mut [Row<C::Key>],
) -> u64
    requires { IsSearchable C.rules.is_cover table.now }
    ensures { OfCommits (satisfies C.rules query.now) table.now
        (λ all. AreWritten all into.old into.new result) }
{
    let mut slots = Slots::<Row<C::Key>, AsRow> {
        places: into,
        filled: 0,
        found: 0,
        form: PhantomData,
    };
    let _never_stops = find_all::<C, Slots<Row<C::Key>, AsRow>>(table, query, &mut slots);
    slots.total()
}

/// The live rows that match, in the order in which a search comes to them.
fn found_rows<C: KeyClass>(
    alloc: Global,
    table: &PageTable<C::Key>,
    query: &BoundedQuery<C::Atom>,
) -> Result<Vec<Row<C::Key>>, AllocError>
    requires { IsSearchable C.rules.is_cover table.now }
    ensures { IfOk result (λ v. OfCommits (satisfies C.rules query.now) table.now (Same v.items)) }
{
    let mut rows = Vec::with_capacity(alloc, AT_FIRST)?;
    match find_all::<C, Vec<Row<C::Key>>>(table, query, &mut rows) {
        Ok(()) => Ok(rows),
        Err(_) => Err(AllocError),
    }
}
