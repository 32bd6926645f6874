ghost use Rattle.std.specs.Prelude.{◌≡◌, ◌≢◌, Option, Some, None};
ghost use Rattle.std.specs.Coded.{coded_option};
ghost use Rattle.libgist.specs.Owning.{HeldState, held_coded, owned};

use crate::held::Held;
use crate::parts::Parts;
use std::alloc::Global;
use std::marker::Model;

/// The pointer of the box that a handle owns, or null. Its type doesn't mention the Rust types, so that C can hold
/// it. Dropping it frees nothing: see `into_parts`.
#[repr(C)]
#[derive(Drop)]
pub struct Inside {
    at: *mut u8,
    alloc: Global,
    pub ghost state: { Option HeldState } by { coded_option held_coded },
}

impl Model for Inside {
    ghost also_owns = { λ inside. owned inside.alloc inside.at inside.state };
}

// SAFETY: what it owns is `Send` (`Held`), so the pointer to it may be sent too.
unsafe impl Send for Inside {}

impl Inside {
    /// A null pointer, which owns nothing.
    pub(crate) fn empty(alloc: Global) -> Inside
        ensures { result.state ≡ None }
    {
        Inside {
            at: std::ptr::null_mut(),
            alloc,
        }
    }

    /// Takes over a box that was taken apart.
    pub(crate) fn of_parts(parts: Parts<Held, Global>) -> Inside
        ensures { result.state ≡ Some parts.value }
    {
        let Parts { ptr, alloc } = parts;
        Inside {
            at: ptr as *mut u8,
            alloc,
        }
    }

    /// The parts of its box, from which the box can be put together again.
    pub(crate) fn into_parts(self) -> Parts<Held, Global>
        requires { self.state ≢ None }
        ensures { self.state ≡ Some result.value }
    {
        let Inside { at, alloc } = self;
        Parts {
            ptr: at as *mut Held,
            alloc,
        }
    }
}
