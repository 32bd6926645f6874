ghost use Rattle.std.specs.Prelude.{◌≡◌, Some, None, IfSome, IfNone};
ghost use Rattle.libgist.specs.Owning.{is_held};

use crate::held::Held;
use crate::inside::Inside;
use crate::parts::Parts;
use std::alloc::Global;
use std::mem;

/// A handle of a store, a snapshot, a query or a feed, of a map, its snapshot or its feed; or an empty one.
#[repr(C)]
#[derive(Drop)]
pub struct Handle {
    is_open: bool,
    pub(crate) inside: Inside,
    ghost sound: { is_open ≡ is_held inside.state },
}

impl Handle {
    /// An empty handle.
    fn empty(alloc: Global) -> Handle
        ensures { result.inside.state ≡ None }
    {
        Handle {
            is_open: false,
            inside: Inside::empty(alloc),
        }
    }

    /// A handle that owns what the box holds.
    fn of(held: Box<Held>) -> Handle
        ensures { result.inside.state ≡ Some held.value }
    {
        Handle {
            is_open: true,
            inside: Inside::of_parts(Parts::of(held)),
        }
    }

    /// Whether the handle isn't empty.
    pub(crate) fn is_open(&self) -> bool
        ensures { result ≡ is_held self.now.inside.state }
    {
        self.is_open
    }

    /// Takes out what the handle owns, and leaves the handle empty.
    pub(crate) fn take(&mut self, alloc: Global) -> Option<Box<Held>>
        ensures some { IfSome result (λ held. self.old.inside.state ≡ Some held.value) }
        ensures none { IfNone result (self.old.inside.state ≡ None) }
        ensures left { self.new.inside.state ≡ None }
    {
        let Handle { is_open, inside } = mem::replace(self, Handle::empty(alloc));
        if !is_open {
            return None;
        }
        Some(inside.into_parts().into_box())
    }

    /// Gives an empty handle something to own.
    pub(crate) fn put(&mut self, held: Box<Held>)
        requires { self.old.inside.state ≡ None }
        ensures { self.new.inside.state ≡ Some held.value }
    {
        *self = Handle::of(held);
    }
}

/// Compile-time check that `T: Send`.
pub(crate) fn may_cross<T: Send>() {}

/// Compile-time check that a handle, with what it owns, may be moved to another thread.
pub fn handles_may_cross() {
    may_cross::<Handle>();
}
