//! Changes of several pages in one step.
ghost use Rattle.std.specs.Prelude.{◌≡◌, ◌<◌, OnOk, OnErr};
ghost use Rattle.node.specs.Pages as model;
ghost use Rattle.node.specs.Changes.{post_parent, post_child, post_sibling, enlarge_parent, enlarge_child, with_row};
ghost use Rattle.page_table.specs.LeafChanges.{with_dead};

use key_class::{Columned, KeyClass};
use node::Page;
use row_version::Entry;
use std::alloc::AllocError;

/// A change of an upper and a lower page at once, together with something else: another page, or nothing. The new
/// value of each may depend on all of them.
pub(crate) trait PageChange<P, B> {
    ghost may: { Self → Type 0 };

    ghost upper_after: { Self → P → P → B → P };

    ghost lower_after: { Self → P → P → B → P };

    ghost beside_after: { Self → P → P → B → B };

    fn change(&self, upper: &mut P, lower: &mut P, beside: &mut B) -> Result<(), AllocError>
        requires { may self.now }
        ensures upper { OnOk result
            (upper.new ≡ upper_after self.now upper.old lower.old beside.old) }
        ensures lower { OnOk result
            (lower.new ≡ lower_after self.now upper.old lower.old beside.old) }
        ensures beside { OnOk result
            (beside.new ≡ beside_after self.now upper.old lower.old beside.old) }
        ensures upper_stays { OnErr result (upper.new ≡ upper.old) }
        ensures lower_stays { OnErr result (lower.new ≡ lower.old) }
        ensures beside_stays { OnErr result (beside.new ≡ beside.old) };
}

/// Widens the upper page's branch to the child, and the lower page's cover, by the key.
#[derive(Drop)]
pub(crate) struct Widening<C: KeyClass> {
    pub(crate) child: u32,
    pub(crate) key: C::Key,
}

impl<C: KeyClass> PageChange<Page<C::Key>, ()> for Widening<C> {
    ghost may = { λ change. Unit {0} };

    ghost upper_after = { λ change upper lower beside. enlarge_parent C.rules.union_of change.child change.key upper };

    ghost lower_after = { λ change upper lower beside. enlarge_child C.rules.union_of change.key lower };

    ghost beside_after = { λ change upper lower beside. beside };

    fn change(
        &self,
        upper: &mut Page<C::Key>,
        lower: &mut Page<C::Key>,
        _beside: &mut (),
    ) -> Result<(), AllocError> {
        lower.widen_cover::<C>(self.key);
        upper.widen_branch::<C>(self.child, self.key);
        Ok(())
    }
}

/// Gives the upper page branches to the lower one, the child, and to its sibling, which is thereby hung. The child
/// owes nothing any more and has the number of the posting.
#[derive(Drop)]
pub(crate) struct Posting {
    pub(crate) child: u32,
    pub(crate) sibling: u32,
    pub(crate) number: u32,
}

impl<K: Columned> PageChange<Page<K>, Page<K>> for Posting {
    ghost may = { λ change. Unit {0} };

    ghost upper_after = { λ change upper lower beside. post_parent upper change.child lower.cover change.sibling beside.cover };

    ghost lower_after = { λ change upper lower beside. post_child lower change.number };

    ghost beside_after = { λ change upper lower beside. post_sibling beside };

    fn change(
        &self,
        upper: &mut Page<K>,
        lower: &mut Page<K>,
        beside: &mut Page<K>,
    ) -> Result<(), AllocError> {
        upper.name_both((self.child, lower.cover()), (self.sibling, beside.cover()))?;
        lower.settle(self.number);
        beside.hang();
        Ok(())
    }
}

/// Marks a row of the upper page as ended by a commit, and appends another row to the lower page.
#[derive(Drop)]
pub(crate) struct MoveRow<K> {
    pub(crate) row: u32,
    pub(crate) commit: u32,
    pub(crate) entry: Entry<K>,
}

impl<K: Columned> PageChange<Page<K>, ()> for MoveRow<K> {
    ghost may = { λ change. 0 < change.commit };

    ghost upper_after = { λ change upper lower beside. with_dead upper change.row change.commit };

    ghost lower_after = { λ change upper lower beside. with_row lower change.entry };

    ghost beside_after = { λ change upper lower beside. beside };

    fn change(
        &self,
        upper: &mut Page<K>,
        lower: &mut Page<K>,
        _beside: &mut (),
    ) -> Result<(), AllocError> {
        lower.place(self.entry)?;
        upper.bury(self.row, self.commit);
        Ok(())
    }
}

/// Applies a change of three pages to them in another order: the second, the third, then the first.
#[derive(Drop)]
pub(crate) struct Rotated<'a, C> {
    pub(crate) change: &'a C,
}

impl<'a, P, C: PageChange<P, P>> PageChange<P, P> for Rotated<'a, C> {
    ghost may = { λ rotated. C.may rotated.change.now };

    ghost upper_after = { λ rotated upper lower beside. C.beside_after rotated.change.now lower beside upper };

    ghost lower_after = { λ rotated upper lower beside. C.upper_after rotated.change.now lower beside upper };

    ghost beside_after = { λ rotated upper lower beside. C.lower_after rotated.change.now lower beside upper };

    fn change(&self, upper: &mut P, lower: &mut P, beside: &mut P) -> Result<(), AllocError> {
        self.change.change(lower, beside, upper)
    }
}

/// Applies a change of three pages to them in reverse order.
#[derive(Drop)]
pub(crate) struct Reversed<'a, C> {
    pub(crate) change: &'a C,
}

impl<'a, P, C: PageChange<P, P>> PageChange<P, P> for Reversed<'a, C> {
    ghost may = { λ reversed. C.may reversed.change.now };

    ghost upper_after = { λ reversed upper lower beside. C.beside_after reversed.change.now beside lower upper };

    ghost lower_after = { λ reversed upper lower beside. C.lower_after reversed.change.now beside lower upper };

    ghost beside_after = { λ reversed upper lower beside. C.upper_after reversed.change.now beside lower upper };

    fn change(&self, upper: &mut P, lower: &mut P, beside: &mut P) -> Result<(), AllocError> {
        self.change.change(beside, lower, upper)
    }
}
