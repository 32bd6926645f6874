ghost use Rattle.std.specs.Prelude.{◌≡◌, ◌<◌, ◌^◌, ◌∷◌, [], IfErr, OnErr, OnOk};
ghost use Rattle.change_list.specs.declared.item.Row.{Row};
ghost use Rattle.search.specs.Fills.{fills, fills_more, fills_none, slots_never_stop};
ghost use Rattle.search.specs.Sinks.{TakesSome};

use crate::row_sink::{RowSink, Stop};
use change_list::Row;
use key_class::Columned;
use std::marker::PhantomData;

/// A form in which rows are written.
pub trait RowForm<K, T> {
    ghost form_of: { Row K → T };

    fn form(row: Row<K>) -> T
        ensures { result ≡ form_of row };
}

/// Rows as they are.
pub struct AsRow;

impl<K> RowForm<K, Row<K>> for AsRow {
    ghost form_of = { λ row. row };

    fn form(row: Row<K>) -> Row<K>
        ensures { result ≡ row }
    {
        row
    }
}

/// The places of a slice, from the first on, into which rows are written in a form. Rows that don't fit are only counted,
/// modulo 2 ^ 64.
#[derive(Drop)]
pub struct Slots<'a, T, F> {
    pub places: &'a mut [T],
    /// How many places have a row.
    pub filled: usize,
    /// How many rows came.
    pub found: u64,
    pub form: PhantomData<F>,
}

impl<T, F> Slots<'_, T, F> {
    /// How many rows came.
    pub fn total(&self) -> u64
        ensures total { result ≡ self.now.found }
        ensures within { result < 2 ^ 64 }
    {
        self.found
    }
}

impl<'a, K: Columned, T: Copy, F: RowForm<K, T>> RowSink<K> for Slots<'a, T, F> {
    ghost takes = { fills F.form_of };

    ghost stops = { slots_never_stop };

    fn take(&mut self, row: Row<K>) -> Result<(), Stop>
        ensures all { OnOk result (fills F.form_of self.old (row ∷ []) self.new) }
        ensures some { OnErr result (TakesSome (fills F.form_of) (row ∷ []) self.old self.new) }
        ensures why { IfErr result (slots_never_stop self.new) }
    {
        if self.filled < self.places.len() {
            self.places[self.filled] = F::form(row);
            self.filled += 1;
        }
        self.found = self.found.wrapping_add(1);
        Ok(())
    }

    fn expect(&mut self, _rows: usize) -> Result<(), Stop>
        ensures none { fills F.form_of self.old [] self.new }
        ensures why { IfErr result (slots_never_stop self.new) }
    {
        Ok(())
    }

    ghost takes_none = { fills_none F.form_of };

    ghost takes_more = { fills_more F.form_of };
}
