ghost use Rattle.std.specs.Prelude.{◌≡◌, ◌++◌, ◌∷◌, [], IfOk, IfSome};

use std::alloc::{AllocError, Global};
use std::marker::Model;
use std::sync::Arc;

/// An immutable list, so that it can have many owners.
#[derive(Drop)]
pub(crate) struct Frozen<T> {
    /// `None` if it is empty, which takes no memory.
    items: Option<Arc<Vec<T>>>,
}

impl<T> Model for Frozen<T> {
    ghost use Rattle.std.specs.Prelude.{List};
    ghost use Rattle.change_list.specs.Segments.{items_in};

    ghost Value = { List T };

    ghost view = { λ list. items_in list.items };
}

impl<T> Frozen<T> {
    pub(crate) fn empty() -> Frozen<T>
        ensures { result ≡ [] }
    {
        Frozen { items: None }
    }

    pub(crate) fn as_slice(&self) -> &[T]
        ensures { result.now ≡ self.now }
    {
        match &self.items {
            Some(items) => items.as_slice(),
            None => &[],
        }
    }

    /// Another owner of the same list.
    ///
    /// # Errors
    /// It has too many owners.
    pub(crate) fn share(&self) -> Result<Frozen<T>, AllocError>
        ensures { IfOk result (λ shared. shared ≡ self.now) }
    {
        match &self.items {
            Some(items) => Ok(Frozen {
                items: Some(Arc::try_clone(items)?),
            }),
            None => Ok(Frozen::empty()),
        }
    }

    /// The items, if there are any and they have no other owner.
    pub(crate) fn into_items(self) -> Option<Vec<T>>
        ensures { IfSome result (λ items. items.items ≡ self) }
    {
        let Frozen { items } = self;
        Arc::into_inner(items?)
    }
}

impl<T: Copy> Frozen<T> {
    /// A list of some items and one more.
    ///
    /// # Errors
    /// Memory ran out.
    pub(crate) fn new(alloc: Global, before: &[T], last: T) -> Result<Frozen<T>, AllocError>
        ensures { IfOk result (λ list. list ≡ before.now ++ last ∷ []) }
    {
        let mut items = Vec::with_capacity(alloc, before.len().saturating_add(1))?;
        items.extend_from_slice(before)?;
        items.push(last)?;
        let items = Arc::new(alloc, items)?;
        Ok(Frozen { items: Some(items) })
    }
}

impl<T: Drop> Frozen<Frozen<T>> {
    /// A list of these lists and one more. Each of them gets one more owner.
    ///
    /// # Errors
    /// Memory ran out, or a list has too many owners.
    pub(crate) fn with(
        &self,
        alloc: Global,
        last: Frozen<T>,
    ) -> Result<Frozen<Frozen<T>>, AllocError>
        ensures { IfOk result (λ lists. lists ≡ self.now ++ last ∷ []) }
    {
        let before = self.as_slice();
        let mut items = Vec::with_capacity(alloc, before.len().saturating_add(1))?;
        for list in before {
            items.push(list.share()?)?;
        }
        items.push(last)?;
        let items = Arc::new(alloc, items)?;
        Ok(Frozen { items: Some(items) })
    }
}
