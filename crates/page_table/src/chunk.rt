//! Chunks of places, which tables share until one of them writes.
ghost use Rattle.std.specs.Prelude.{◌≡◌, ◌<◌, [], length, slice_index_or, slice_set, IfOk};
ghost use Rattle.std.specs.Borrow.{LendsIfOk, sem};
ghost use Rattle.page_table.specs.contracts.chunk.Chunk.{the_row};
ghost use Rattle.page_table.specs.Chunks.{ArePlaces, joined, put_in};
ghost use Rattle.page_table.specs.PlaceLaws.{put_becomes, put_stays as put_in_stays};

use crate::change::PageChange;
use crate::places::{PageLike, Places, Single, change_all, change_both};
use crate::shared::{Copied, Shared};
use arrayvec::ArrayVec;
use std::alloc::{AllocError, Global};
use std::marker::Model;

/// Places, each with room for `SIZE` pages.
#[derive(Drop)]
pub(crate) struct Chunk<T, const SIZE: usize, const LEN: usize> {
    children: ArrayVec<Shared<T>, LEN>,
}

impl<T, const SIZE: usize, const LEN: usize> Model for Chunk<T, SIZE, LEN> {
    ghost use Rattle.std.specs.Prelude.{◌≡◌, List, length};

    ghost Value = { List T };

    ghost view = { λ c. c.children.items };

    ghost invariant = { λ c. length c.children.items ≡ LEN };
}

impl<T: Drop, const SIZE: usize, const LEN: usize> Chunk<T, SIZE, LEN> {
    /// Its places.
    pub(crate) fn into_children(self) -> [Shared<T>; LEN]
        ensures { result ≡ self }
    {
        let Chunk { children } = self;
        match children.into_inner() {
            Ok(children) => children,
            Err(_) => unreachable!(),
        }
    }
}

impl<T: Copied, const SIZE: usize, const LEN: usize> Clone for Chunk<T, SIZE, LEN> {
    ghost is_clone = { λ chunk copy. copy ≡ chunk };

    /// A copy: the same places, each with one more owner.
    #[cold]
    fn clone(&self) -> Result<Chunk<T, SIZE, LEN>, AllocError> {
        match self.children.as_slice().first_chunk::<LEN>() {
            Some(children) => Ok(Chunk {
                children: ArrayVec::from_array_in((), children.clone()?),
            }),
            None => unreachable!(),
        }
    }
}

impl<T: Copied, const SIZE: usize, const LEN: usize> Copied for Chunk<T, SIZE, LEN> {
    ghost same = { λ value copy same. same };
}

impl<T: Copied, const SIZE: usize, const LEN: usize> Chunk<T, SIZE, LEN> {
    /// A chunk of these places.
    pub(crate) fn new(children: [Shared<T>; LEN]) -> Chunk<T, SIZE, LEN>
        ensures { result ≡ children }
    {
        Chunk {
            children: ArrayVec::from_array_in((), children),
        }
    }

    pub(crate) fn child(&self, place: usize) -> &Shared<T>
        requires { place < length self.now }
        ensures { result.now ≡ slice_index_or self.now place result.now }
    {
        &self.children[place]
    }

    /// The content of a place, for writing. If it has other owners, it is copied first.
    ///
    /// # Errors
    /// Memory ran out; the places are unchanged.
    pub(crate) fn child_mut(&mut self, place: usize) -> Result<&mut T, AllocError>
        requires { place < length self.old }
        ensures* lends { sem 𝓛
            (LendsIfOk (the_row T.row SIZE.row LEN.row) T.row self.entry result (slice_set self.old place) self.old) }
        ensures value { IfOk result
            (λ child. child.now ≡ slice_index_or self.old place child.now) }
    {
        match self.children.get_mut(place) {
            Some(child) => child.get_mut(),
            None => Err(AllocError),
        }
    }
}

impl<P: PageLike, T: Places<P>, const SIZE: usize, const LEN: usize> Places<P>
    for Chunk<T, SIZE, LEN> {
    ghost pages = { joined T.pages };

    ghost is_full = { ArePlaces T.pages T.is_full SIZE LEN };

    ghost none = { [] };

    ghost put = { put_in T.put T.none SIZE };

    fn slot(this: &Shared<Chunk<T, SIZE, LEN>>, place: usize) -> &Shared<Single<P>> {
        T::slot(this.get().child(place / SIZE), place % SIZE)
    }

    fn page_mut(&mut self, place: usize) -> Result<&mut P, AllocError> {
        self.child_mut(place / SIZE)?.page_mut(place % SIZE)
    }

    fn change_two<B, C: PageChange<P, B>>(
        &mut self,
        upper: usize,
        lower: usize,
        beside: &mut B,
        change: &C,
    ) -> Result<(), AllocError> {
        change_both::<P, T, B, C, SIZE>(self.children.as_mut_slice(), upper, lower, beside, change)
    }

    fn change_three<C: PageChange<P, P>>(
        &mut self,
        upper: usize,
        lower: usize,
        beside: usize,
        change: &C,
    ) -> Result<(), AllocError> {
        change_all::<P, T, C, SIZE>(self.children.as_mut_slice(), upper, lower, beside, change)
    }

    ghost put_pages = { λ places i page full l. (put_becomes T.pages T.is_full T.none T.put SIZE T.put_pages T.put_full LEN places full i l page).pages };

    ghost put_full = { λ places i page full l. (put_becomes T.pages T.is_full T.none T.put SIZE T.put_pages T.put_full LEN places full i l page).full };

    ghost put_stays = { λ places i page full l. put_in_stays T.pages T.is_full T.none T.put SIZE T.put_pages T.put_full LEN places full i l P.no_page T.put_stays page };
}
