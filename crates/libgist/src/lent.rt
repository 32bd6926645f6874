//! Handles lent for reading, by any number of calls at once.
ghost use Rattle.std.specs.Prelude.{◌≡◌, ◌≢◌, Option, Some, None, IfSome, IfNone};
ghost use Rattle.std.specs.Coded.{coded_option};
ghost use Rattle.libgist.specs.Owning.{HeldState, held_coded, is_held, lent, shown_at};

use crate::handle::Handle;
use crate::held::Held;
use std::alloc::Global;
use std::marker::Model;

/// The pointer of an `Inside`, while that is lent.
#[repr(C)]
pub struct LentInside {
    at: *mut u8,
    alloc: Global,
    pub ghost state: { Option HeldState } by { coded_option held_coded },
}

impl Model for LentInside {
    ghost also_owns = { λ inside. lent inside.at inside.state };

    ghost also_shares = { λ inside _ κ. shown_at inside.at inside.state κ };
}

// SAFETY: it only gives shared access to what is `Sync`, so threads may share it.
unsafe impl Sync for LentInside {}

impl LentInside {
    pub(crate) fn alloc(&self) -> &Global
        ensures { result.now ≡ self.now.alloc }
    {
        &self.alloc
    }

    pub(crate) fn held(&self) -> &Held
        requires { self.now.state ≢ None }
        ensures { self.now.state ≡ Some result.now }
    {
        unsafe { &*(self.at as *const Held) }
    }
}

/// A handle lent for reading: nobody changes or drops what it owns until the loan ends.
#[repr(C)]
pub struct Lent {
    is_open: bool,
    pub(crate) inside: LentInside,
    ghost sound: { is_open ≡ is_held inside.state },
}

impl Lent {
    /// Lends a handle that the caller may change. While the loan lasts it is only read.
    pub fn of(handle: &mut Handle) -> &Lent
        ensures { result.now.inside.state ≡ handle.old.inside.state }
    {
        unsafe { &*(handle as *mut Handle as *const Lent) }
    }

    /// The allocator of what the handle owns.
    pub(crate) fn alloc(&self) -> Global {
        *self.inside.alloc()
    }

    pub(crate) fn held(&self) -> Option<&Held>
        ensures some { IfSome result (λ held. self.now.inside.state ≡ Some held.now) }
        ensures none { IfNone result (self.now.inside.state ≡ None) }
    {
        if !self.is_open {
            return None;
        }
        Some(self.inside.held())
    }
}

/// Compile-time check that `T: Sync`.
fn may_be_shared<T: Sync>() {}

/// Compile-time check that threads may read a lent handle, and what it owns, at once.
pub fn lent_handles_may_be_shared() {
    may_be_shared::<Lent>();
}
