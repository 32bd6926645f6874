//! The chunks that a table holds directly.
ghost use Rattle.std.specs.Prelude.{◌≡◌, ◌≢◌, ◌+◌, length, All, IfOk, OnOk, OnErr};
ghost use Rattle.page_table.specs.Trees.{no_page};
ghost use Rattle.page_table.specs.Chunks.{ArePlaces, Becomes, HasFiller, HasPlaces, IsFull1024, PutsNext, StaysTo, both_changed, joined, pages_of_1024, three_changed};

use crate::change::{PageChange, Reversed, Rotated};
use crate::chunk::Chunk;
use crate::places::{Places, Single, change_all, change_both};
use crate::shared::Shared;
use key_class::Columned;
use node::Page;
use std::alloc::{AllocError, Global};

/// How many pages each of them has.
pub(crate) const TOP: usize = 1024;

/// How many pages a lower chunk has, and how many lower chunks an upper one has. Copying a chunk raises the reference
/// count of each of its places. Pages are seldom in the cache and chunks often are, so the lower chunks, which have
/// pages, are the smaller ones.
const LOWER: usize = 16;

pub(crate) const UPPER: usize = 64;

pub(crate) type Lower<K> = Chunk<Single<Page<K>>, 1, LOWER>;

pub(crate) type Top<K> = Chunk<Lower<K>, LOWER, UPPER>;

/// Changes two pages at once.
///
/// # Errors
/// Memory ran out, or both are the same page; the pages are unchanged.
pub(crate) fn change_pages<K: Columned, C: PageChange<Page<K>, ()>>(
    chunks: &mut Vec<Shared<Top<K>>>,
    upper: usize,
    lower: usize,
    change: &C,
) -> Result<(), AllocError>
    requires upper_exists { HasPlaces chunks.old.items (upper + 1) }
    requires lower_exists { HasPlaces chunks.old.items (lower + 1) }
    requires may { C.may change.now }
    ensures changed { OnOk result
        (Becomes (joined pages_of_1024) (ArePlaces pages_of_1024 IsFull1024 1024 (length chunks.old.items)) chunks.new.items
        (both_changed no_page
        (λ x y. C.upper_after change.now x y tt)
        (λ x y. C.lower_after change.now x y tt)
        upper lower (joined pages_of_1024 chunks.old.items))) }
    ensures unchanged { OnErr result (chunks.new.items ≡ chunks.old.items) }
{
    change_both::<Page<K>, Top<K>, (), C, TOP>(chunks.as_mut_slice(), upper, lower, &mut (), change)
}

/// Changes three pages at once.
///
/// # Errors
/// Memory ran out; the pages are unchanged.
pub(crate) fn change_three<K: Columned, C: PageChange<Page<K>, Page<K>>>(
    chunks: &mut Vec<Shared<Top<K>>>,
    upper: usize,
    lower: usize,
    beside: usize,
    change: &C,
) -> Result<(), AllocError>
    requires upper_exists { HasPlaces chunks.old.items (upper + 1) }
    requires lower_exists { HasPlaces chunks.old.items (lower + 1) }
    requires beside_exists { HasPlaces chunks.old.items (beside + 1) }
    requires lower_apart { upper ≢ lower }
    requires upper_beside { upper ≢ beside }
    requires lower_beside { lower ≢ beside }
    requires may { C.may change.now }
    ensures changed { OnOk result
        (Becomes (joined pages_of_1024) (ArePlaces pages_of_1024 IsFull1024 1024 (length chunks.old.items)) chunks.new.items
        (three_changed no_page
        (C.upper_after change.now) (C.lower_after change.now) (C.beside_after change.now)
        upper lower beside (joined pages_of_1024 chunks.old.items))) }
    ensures unchanged { OnErr result (chunks.new.items ≡ chunks.old.items) }
{
    let places = chunks.as_mut_slice();
    if upper <= beside && lower <= beside {
        change_all::<Page<K>, Top<K>, C, TOP>(places, upper, lower, beside, change)
    } else if upper <= lower {
        let change = Rotated { change };
        change_all::<Page<K>, Top<K>, Rotated<C>, TOP>(places, beside, upper, lower, &change)
    } else {
        let change = Reversed { change };
        change_all::<Page<K>, Top<K>, Reversed<C>, TOP>(places, beside, lower, upper, &change)
    }
}

/// A chunk of empty pages.
///
/// # Errors
/// Memory ran out.
pub(crate) fn filler<K: Columned>(alloc: Global) -> Result<Shared<Top<K>>, AllocError>
    ensures full { IfOk result IsFull1024 }
    ensures size { IfOk result (λ chunk. length (pages_of_1024 chunk) ≡ 1024) }
{
    let page = Page::leaf(alloc, 0)?;
    let page = Shared::new(alloc, Single { page })?;
    let pages = Shared::new(alloc, Chunk::new(lower_places(&page)?))?;
    let chunks = Chunk::new(upper_places(&pages)?);
    Ok(Shared::new(alloc, chunks)?)
}

/// As many owners of a value as a lower chunk has places.
///
/// # Errors
/// It has too many owners.
fn lower_places<T: Drop>(child: &Shared<T>) -> Result<[Shared<T>; LOWER], AllocError>
    ensures length { IfOk result (λ places. length places ≡ 16) }
    ensures each { IfOk result (All (λ place. place ≡ child.now)) }
{
    [child; LOWER].try_map(
        |child: &Shared<T>| -> Result<Shared<T>, AllocError>
            ensures { IfOk result (λ shared. shared ≡ child.now) }
        { child.share() },
    )
}

/// As many owners of a value as an upper chunk has places.
///
/// # Errors
/// It has too many owners.
fn upper_places<T: Drop>(child: &Shared<T>) -> Result<[Shared<T>; UPPER], AllocError>
    ensures length { IfOk result (λ places. length places ≡ 64) }
    ensures each { IfOk result (All (λ place. place ≡ child.now)) }
{
    [child; UPPER].try_map(
        |child: &Shared<T>| -> Result<Shared<T>, AllocError>
            ensures { IfOk result (λ shared. shared ≡ child.now) }
        { child.share() },
    )
}

/// Puts a page after the first `count`. If there is no place for it, a chunk is added.
///
/// # Errors
/// Memory ran out; the first pages are unchanged.
pub(crate) fn put_next<K: Columned>(
    chunks: &mut Vec<Shared<Top<K>>>,
    filler: &Shared<Top<K>>,
    count: usize,
    page: Page<K>,
) -> Result<(), AllocError>
    requires { HasFiller filler.now chunks.old.items count }
    ensures put { OnOk result (PutsNext count chunks.old.items page chunks.new.items) }
    ensures stays { OnErr result (StaysTo count chunks.old.items chunks.new.items) }
{
    make_place(chunks, filler, count)?;
    *chunks[count / TOP].get_mut()?.page_mut(count % TOP)? = page;
    Ok(())
}

/// Makes sure that there is a place after the first `count` pages.
///
/// # Errors
/// Memory ran out; the pages are unchanged.
fn make_place<K: Columned>(
    chunks: &mut Vec<Shared<Top<K>>>,
    filler: &Shared<Top<K>>,
    count: usize,
) -> Result<(), AllocError>
    requires { HasFiller filler.now chunks.old.items count }
    ensures made { OnOk result (HasPlaces chunks.new.items (count + 1)) }
    ensures stays { StaysTo count chunks.old.items chunks.new.items }
{
    if count / TOP == chunks.len() {
        chunks.push(filler.share()?)?;
    }
    Ok(())
}

/// The same chunks, each with one more owner.
pub(crate) fn shared<T: Drop>(
    alloc: Global,
    chunks: &[Shared<T>],
) -> Result<Vec<Shared<T>>, AllocError>
    ensures { IfOk result (λ made. made.items ≡ chunks.now) }
{
    let mut made = Vec::with_capacity(alloc, chunks.len())?;
    for chunk in chunks {
        made.push(chunk.share()?)?;
    }
    Ok(made)
}
