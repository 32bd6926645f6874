//! Places for pages, which tables share until one of them writes.
ghost use Rattle.std.specs.Prelude.{◌≡◌, ◌≢◌, ◌<◌, ◌≤◌, ℕ, List, length, slice_index_or, slice_set, IfOk, OnOk, OnErr};
ghost use Rattle.std.specs.Borrow.{Array, LendsBoth, LendsIfOk, sem};
ghost use Rattle.node.specs.Pages as model;
ghost use Rattle.node.specs.contracts.page.Page.{the_row as page_row};
ghost use Rattle.page_table.specs.Trees.{no_page};
ghost use Rattle.page_table.specs.contracts.shared.Shared.{the_row as shared_row};
ghost use Rattle.page_table.specs.Chunks.{ArePlaces, Becomes, IsPage, alone, both_changed, joined, put_in, three_changed};
ghost use Rattle.page_table.specs.PlaceLaws.{page_put, page_stays};

use crate::change::{PageChange, Reversed, Rotated};
use crate::chunk::Chunk;
use crate::shared::{Copied, Shared};
use key_class::Columned;
use node::Page;
use std::alloc::AllocError;
use std::marker::Model;

/// What is kept in places.
pub(crate) trait PageLike: Copied {
    /// What a place without one is read as.
    ghost no_page: { Self };
}

impl<K: Columned> Copied for Page<K> {
    ghost same = { λ page copy same. same };
}

impl<K: Columned> PageLike for Page<K> {
    ghost no_page = { no_page };
}

/// Places for pages, and the pages in them, numbered from 0.
pub(crate) trait Places<P: PageLike>: Copied {
    ghost pages: { Self → List P };

    /// Whether each place has as many pages as it has room for.
    ghost is_full: { Self → Type 0 };

    ghost none: { Self };

    ghost put: { Self → ℕ → P → Self };

    /// A page, with its owners.
    fn slot(this: &Shared<Self>, place: usize) -> &Shared<Single<P>>
        requires full { is_full this.now }
        requires exists { place < length (pages this.now) }
        ensures { result.now ≡ slice_index_or (pages this.now) place P.no_page };

    /// A page, for writing. If the page or its chunk has other owners, it is copied first.
    ///
    /// # Errors
    /// Memory ran out; the pages are unchanged.
    fn page_mut(&mut self, place: usize) -> Result<&mut P, AllocError>
        requires full { is_full self.old }
        requires exists { place < length (pages self.old) }
        ensures* lends { sem 𝓛
            (LendsIfOk Self.row P.row self.entry result (put self.old place) self.old) }
        ensures value { IfOk result
            (λ page. page.now ≡ slice_index_or (pages self.old) place P.no_page) };

    /// Changes two pages at once, together with something else.
    ///
    /// # Errors
    /// Memory ran out, or both are the same page; everything is unchanged.
    fn change_two<B, C: PageChange<P, B>>(
        &mut self,
        upper: usize,
        lower: usize,
        beside: &mut B,
        change: &C,
    ) -> Result<(), AllocError>
        requires full { is_full self.old }
        requires upper { upper < length (pages self.old) }
        requires lower { lower < length (pages self.old) }
        requires may { C.may change.now }
        ensures changed { OnOk result
            (Becomes pages is_full self.new
            (both_changed P.no_page
            (λ x y. C.upper_after change.now x y beside.old)
            (λ x y. C.lower_after change.now x y beside.old)
            upper lower (pages self.old))) }
        ensures beside { OnOk result
            (beside.new ≡ C.beside_after change.now
            (slice_index_or (pages self.old) upper P.no_page)
            (slice_index_or (pages self.old) lower P.no_page) beside.old) }
        ensures unchanged { OnErr result (self.new ≡ self.old) }
        ensures beside_stays { OnErr result (beside.new ≡ beside.old) };

    /// Changes three pages at once. The third has a higher number than the two others.
    ///
    /// # Errors
    /// Memory ran out, or two of them are the same page; the pages are unchanged.
    fn change_three<C: PageChange<P, P>>(
        &mut self,
        upper: usize,
        lower: usize,
        beside: usize,
        change: &C,
    ) -> Result<(), AllocError>
        requires full { is_full self.old }
        requires upper { upper ≤ beside }
        requires lower { lower ≤ beside }
        requires beside { beside < length (pages self.old) }
        requires may { C.may change.now }
        ensures changed { OnOk result
            (Becomes pages is_full self.new
            (three_changed P.no_page
            (C.upper_after change.now) (C.lower_after change.now) (C.beside_after change.now)
            upper lower beside (pages self.old))) }
        ensures unchanged { OnErr result (self.new ≡ self.old) };

    ghost put_pages: { (places : Self) (i : ℕ) (page : P) → is_full places → i < length (pages places) → pages (put places i page) ≡ slice_set (pages places) i page };

    ghost put_full: { (places : Self) (i : ℕ) (page : P) → is_full places → i < length (pages places) → is_full (put places i page) };

    ghost put_stays: { (places : Self) (i : ℕ) (page : P) → is_full places → i < length (pages places) → page ≡ slice_index_or (pages places) i P.no_page → put places i page ≡ places };
}

/// A single page, as a place of its own.
#[derive(Drop)]
pub(crate) struct Single<P> {
    pub(crate) page: P,
}

impl<P> Model for Single<P> {
    ghost Value = { P };

    ghost view = { λ s. s.page };
}

impl<P: PageLike> Clone for Single<P> {
    ghost is_clone = { λ single copy. copy ≡ single };

    fn clone(&self) -> Result<Single<P>, AllocError> {
        let page = self.page.clone()?;
        Ok(Single { page })
    }
}

impl<P: PageLike> Copied for Single<P> {
    ghost same = { λ value copy same. same };
}

impl<P: PageLike> Places<P> for Single<P> {
    ghost pages = { alone };

    ghost is_full = { IsPage };

    ghost none = { P.no_page };

    ghost put = { λ old i page. page };

    fn slot(this: &Shared<Single<P>>, _place: usize) -> &Shared<Single<P>> {
        this
    }

    fn page_mut(&mut self, _place: usize) -> Result<&mut P, AllocError> {
        Ok(&mut self.page)
    }

    /// Always refused, since there is only one page.
    fn change_two<B, C: PageChange<P, B>>(
        &mut self,
        _upper: usize,
        _lower: usize,
        _beside: &mut B,
        _change: &C,
    ) -> Result<(), AllocError> {
        Err(AllocError)
    }

    /// Always refused, since there is only one page.
    fn change_three<C: PageChange<P, P>>(
        &mut self,
        _upper: usize,
        _lower: usize,
        _beside: usize,
        _change: &C,
    ) -> Result<(), AllocError> {
        Err(AllocError)
    }

    ghost put_pages = { page_put };

    ghost put_full = { λ places i page full l. tt };

    ghost put_stays = { page_stays P.no_page };
}

/// Changes two of the pages in places of `SIZE` pages each at once, together with something else.
///
/// # Errors
/// Memory ran out, or both are the same page; everything is unchanged.
pub(crate) fn change_both<P: PageLike, T: Places<P>, B, C: PageChange<P, B>, const SIZE: usize>(
    places: &mut [Shared<T>],
    upper: usize,
    lower: usize,
    beside: &mut B,
    change: &C,
) -> Result<(), AllocError>
    requires full { ArePlaces T.pages T.is_full SIZE (length places.old) places.old }
    requires upper { upper < length (joined T.pages places.old) }
    requires lower { lower < length (joined T.pages places.old) }
    requires may { C.may change.now }
    ensures changed { OnOk result
        (Becomes (joined T.pages) (ArePlaces T.pages T.is_full SIZE (length places.old)) places.new
        (both_changed P.no_page
        (λ x y. C.upper_after change.now x y beside.old)
        (λ x y. C.lower_after change.now x y beside.old)
        upper lower (joined T.pages places.old))) }
    ensures beside { OnOk result
        (beside.new ≡ C.beside_after change.now
        (slice_index_or (joined T.pages places.old) upper P.no_page)
        (slice_index_or (joined T.pages places.old) lower P.no_page) beside.old) }
    ensures unchanged { OnErr result (places.new ≡ places.old) }
    ensures beside_stays { OnErr result (beside.new ≡ beside.old) }
{
    let above = upper / SIZE;
    let below = lower / SIZE;
    if above == below {
        return places[above]
            .get_mut()?
            .change_two(upper % SIZE, lower % SIZE, beside, change);
    }
    let (over, under) = two_of(places, above, below);
    change_parted(over, under, upper % SIZE, lower % SIZE, beside, change)
}

/// Changes two pages in different places at once, together with something else. If the places have other owners, they
/// are copied first.
///
/// # Errors
/// Memory ran out; everything is unchanged.
fn change_parted<P: PageLike, T: Places<P>, B, C: PageChange<P, B>>(
    above: &mut Shared<T>,
    below: &mut Shared<T>,
    upper: usize,
    lower: usize,
    beside: &mut B,
    change: &C,
) -> Result<(), AllocError>
    requires above_full { T.is_full above.old }
    requires below_full { T.is_full below.old }
    requires upper { upper < length (T.pages above.old) }
    requires lower { lower < length (T.pages below.old) }
    requires may { C.may change.now }
    ensures above { OnOk result
        (Becomes T.pages T.is_full above.new
        (slice_set (T.pages above.old) upper
        (C.upper_after change.now
        (slice_index_or (T.pages above.old) upper P.no_page)
        (slice_index_or (T.pages below.old) lower P.no_page) beside.old))) }
    ensures below { OnOk result
        (Becomes T.pages T.is_full below.new
        (slice_set (T.pages below.old) lower
        (C.lower_after change.now
        (slice_index_or (T.pages above.old) upper P.no_page)
        (slice_index_or (T.pages below.old) lower P.no_page) beside.old))) }
    ensures beside { OnOk result
        (beside.new ≡ C.beside_after change.now
        (slice_index_or (T.pages above.old) upper P.no_page)
        (slice_index_or (T.pages below.old) lower P.no_page) beside.old) }
    ensures above_stays { OnErr result (above.new ≡ above.old) }
    ensures below_stays { OnErr result (below.new ≡ below.old) }
    ensures beside_stays { OnErr result (beside.new ≡ beside.old) }
{
    let over = page_of(above, upper)?;
    let under = page_of(below, lower)?;
    change.change(over, under, beside)
}

/// A page of a place, for writing. If the page or what holds it has other owners, it is copied first.
///
/// # Errors
/// Memory ran out; the pages are unchanged.
fn page_of<P: PageLike, T: Places<P>>(
    place: &mut Shared<T>,
    number: usize,
) -> Result<&mut P, AllocError>
    requires full { T.is_full place.old }
    requires exists { number < length (T.pages place.old) }
    ensures* lends { sem 𝓛
        (LendsIfOk (shared_row T.row) P.row place.entry result
        (T.put place.old number) place.old) }
    ensures value { IfOk result
        (λ page. page.now ≡ slice_index_or (T.pages place.old) number P.no_page) }
{
    place.get_mut()?.page_mut(number)
}

/// Changes three of the pages in places of `SIZE` pages each at once. The third has a higher number than the two
/// others.
///
/// # Errors
/// Memory ran out, or two of them are the same page; the pages are unchanged.
pub(crate) fn change_all<P: PageLike, T: Places<P>, C: PageChange<P, P>, const SIZE: usize>(
    places: &mut [Shared<T>],
    upper: usize,
    lower: usize,
    beside: usize,
    change: &C,
) -> Result<(), AllocError>
    requires full { ArePlaces T.pages T.is_full SIZE (length places.old) places.old }
    requires upper { upper ≤ beside }
    requires lower { lower ≤ beside }
    requires beside { beside < length (joined T.pages places.old) }
    requires may { C.may change.now }
    ensures changed { OnOk result
        (Becomes (joined T.pages) (ArePlaces T.pages T.is_full SIZE (length places.old)) places.new
        (three_changed P.no_page
        (C.upper_after change.now) (C.lower_after change.now) (C.beside_after change.now)
        upper lower beside (joined T.pages places.old))) }
    ensures unchanged { OnErr result (places.new ≡ places.old) }
{
    let above = upper / SIZE;
    let below = lower / SIZE;
    let last = beside / SIZE;
    let (in_upper, in_lower, in_beside) = (upper % SIZE, lower % SIZE, beside % SIZE);
    if above == last {
        if below == last {
            return places[last]
                .get_mut()?
                .change_three(in_upper, in_lower, in_beside, change);
        }
        let (over, under) = two_of(places, last, below);
        return change_pair(
            over,
            under,
            in_beside,
            in_upper,
            in_lower,
            &Rotated { change },
        );
    }
    if below == last {
        let (over, under) = two_of(places, last, above);
        return change_pair(
            over,
            under,
            in_beside,
            in_lower,
            in_upper,
            &Reversed { change },
        );
    }
    let (front, back) = places.split_at_mut(last);
    let page = page_of(&mut back[0], in_beside)?;
    change_both::<P, T, P, C, SIZE>(front, upper, lower, page, change)
}

/// Changes two pages of one place, together with a page of another place. If the places have other owners, they are
/// copied first.
///
/// # Errors
/// Memory ran out, or the two are the same page; the pages are unchanged.
fn change_pair<P: PageLike, T: Places<P>, C: PageChange<P, P>>(
    over: &mut Shared<T>,
    under: &mut Shared<T>,
    upper: usize,
    lower: usize,
    beside: usize,
    change: &C,
) -> Result<(), AllocError>
    requires over_full { T.is_full over.old }
    requires under_full { T.is_full under.old }
    requires upper { upper < length (T.pages over.old) }
    requires lower { lower < length (T.pages over.old) }
    requires beside { beside < length (T.pages under.old) }
    requires may { C.may change.now }
    ensures over { OnOk result
        (Becomes T.pages T.is_full over.new
        (both_changed P.no_page
        (λ x y. C.upper_after change.now x y (slice_index_or (T.pages under.old) beside P.no_page))
        (λ x y. C.lower_after change.now x y (slice_index_or (T.pages under.old) beside P.no_page))
        upper lower (T.pages over.old))) }
    ensures under { OnOk result
        (Becomes T.pages T.is_full under.new
        (slice_set (T.pages under.old) beside
        (C.beside_after change.now
        (slice_index_or (T.pages over.old) upper P.no_page)
        (slice_index_or (T.pages over.old) lower P.no_page)
        (slice_index_or (T.pages under.old) beside P.no_page)))) }
    ensures over_stays { OnErr result (over.new ≡ over.old) }
    ensures under_stays { OnErr result (under.new ≡ under.old) }
{
    let page = page_of(under, beside)?;
    over.get_mut()?.change_two(upper, lower, page, change)
}

/// Mutable references to two places at once.
fn two_of<T>(places: &mut [T], first: usize, second: usize) -> (&mut T, &mut T)
    requires first { first < length places.old }
    requires second { second < length places.old }
    requires apart { first ≢ second }
    ensures* lends { sem 𝓛 (LendsBoth (Array T.row 0) T.row T.row places.entry result (λ x y. slice_set (slice_set places.old second y) first x)) }
    ensures first { result.0.now ≡ slice_index_or places.old first result.0.now }
    ensures second { result.1.now ≡ slice_index_or places.old second result.1.now }
{
    if first < second {
        let (front, back) = places.split_at_mut(second);
        (&mut front[first], &mut back[0])
    } else {
        let (front, back) = places.split_at_mut(first);
        (&mut back[0], &mut front[second])
    }
}
