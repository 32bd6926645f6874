//! Tables of pages that are dropped piece by piece.
ghost use Rattle.std.specs.Prelude.{◌≡◌, ◌+◌, ◌*◌, ◌<◌, ◌≤◌, true, false, length, nat_lt};

use crate::shared::Shared;
use crate::top::{Lower, Top, UPPER};
use key_class::Columned;
use std::array::IntoIter;
use std::marker::Model;

/// What is left of a table of pages that is dropped piece by piece. As contracts see it, it is the greatest number of
/// pieces.
#[derive(Drop)]
pub struct PageRemains<K: Columned> {
    /// Chunks of 1,024 pages.
    chunks: Vec<Shared<Top<K>>>,
    /// Chunks of 16 pages, of one that was taken apart.
    parts: Option<IntoIter<Shared<Lower<K>>, UPPER>>,
}

impl<K: Columned> Model for PageRemains<K> {
    ghost use Rattle.std.specs.Prelude.{ℕ, ◌+◌, ◌*◌, length};
    ghost use Rattle.page_table.specs.Remains.{number_left};

    ghost Value = { ℕ };

    ghost view = { λ r. 65 * length r.chunks.items + number_left r.parts };
}

impl<K: Columned> PageRemains<K> {
    pub(crate) fn new(chunks: Vec<Shared<Top<K>>>) -> PageRemains<K>
        ensures { result ≡ 65 * length chunks.items }
    {
        PageRemains {
            chunks,
            parts: None,
        }
    }

    /// Drops a piece, at most 16 pages, and returns whether there was one. Pages that other tables share stay.
    pub fn shed(&mut self) -> bool
        ensures shed { result ≡ nat_lt 0 self.old }
        ensures fewer { result ≡ true → self.new < self.old }
        ensures few { self.old ≤ self.new + 65 }
        ensures unchanged { result ≡ false → self.new ≡ self.old }
    {
        if let Some(parts) = &mut self.parts {
            if parts.next().is_some() {
                return true;
            }
        }
        let Some(chunk) = self.chunks.pop() else {
            return false;
        };
        if let Some(chunk) = chunk.into_inner() {
            self.parts = Some(chunk.into_children().into_iter());
        }
        true
    }
}
