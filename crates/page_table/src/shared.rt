//! Copy on write: values that several owners share until one of them writes.
ghost use Rattle.std.specs.Prelude.{◌≡◌, IfOk, IfSome};
ghost use Rattle.std.specs.Borrow.{LendsIfOk, sem};
ghost use Rattle.page_table.specs.contracts.shared.Shared.{the_row};

use std::alloc::{AllocError, Global};
use std::marker::Model;
use std::sync::Arc;

/// A type whose clone is an equal value.
pub(crate) trait Copied: Clone + Drop {
    ghost same: { (value copy : Self) → Self.is_clone value copy → copy ≡ value };
}

/// A value that may have several owners. An owner that writes to it while there are others gets its own copy first.
#[derive(Drop)]
pub(crate) struct Shared<T> {
    inner: Arc<T>,
}

impl<T> Model for Shared<T> {
    ghost use Rattle.std.specs.Arc.{arc_value};

    ghost Value = { T };

    ghost view = { λ s. arc_value s.inner };
}

impl<T> Shared<T> {
    /// A value with a single owner.
    ///
    /// # Errors
    /// Memory ran out.
    pub(crate) fn new(alloc: Global, value: T) -> Result<Shared<T>, AllocError>
    where
        T: Drop,
        ensures { IfOk result (λ shared. shared ≡ value) }
    {
        let inner = Arc::new(alloc, value)?;
        Ok(Shared { inner })
    }

    pub(crate) fn get(&self) -> &T
        ensures { result.now ≡ self.now }
    {
        &self.inner
    }

    /// Another owner of the same value.
    ///
    /// # Errors
    /// It has too many owners.
    pub(crate) fn share(&self) -> Result<Shared<T>, AllocError>
        ensures { IfOk result (λ shared. shared ≡ self.now) }
    {
        let inner = Arc::try_clone(&self.inner)?;
        Ok(Shared { inner })
    }

    /// The value, if it has no other owner.
    pub(crate) fn into_inner(self) -> Option<T>
        ensures { IfSome result (λ value. value ≡ self) }
    {
        let Shared { inner } = self;
        Arc::into_inner(inner)
    }
}

impl<T: Drop> Clone for Shared<T> {
    ghost is_clone = { λ shared copy. copy ≡ shared };

    /// Another owner of the same value.
    fn clone(&self) -> Result<Shared<T>, AllocError> {
        self.share()
    }
}

impl<T: Copied> Shared<T> {
    /// The value, for writing. If it has other owners, it is copied first.
    ///
    /// # Errors
    /// Memory ran out; the value is unchanged.
    pub(crate) fn get_mut(&mut self) -> Result<&mut T, AllocError>
        ensures* lends { sem 𝓛 (LendsIfOk (the_row T.row) T.row self.entry result (λ value. value) self.old) }
        ensures value { IfOk result (λ value. value.now ≡ self.old) }
    {
        if Arc::strong_count(&self.inner) > 1 {
            self.part()?;
        }
        match Arc::get_mut(&mut self.inner) {
            Some(value) => Ok(value),
            None => Err(AllocError),
        }
    }

    /// Replaces the shared value by a copy of its own. It is a separate function, so that a sole owner doesn't pay
    /// for the copy's place on the stack.
    ///
    /// # Errors
    /// Memory ran out.
    #[cold]
    #[inline(never)]
    fn part(&mut self) -> Result<(), AllocError>
        ensures { self.new ≡ self.old }
    {
        let _copy = Arc::make_mut(&mut self.inner)?;
        Ok(())
    }
}
