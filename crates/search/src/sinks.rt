//! A list and a counter as sinks.
ghost use Rattle.std.specs.Prelude.{◌≡◌, ◌<◌, ◌≤◌, ◌^◌, ◌∷◌, [], IfErr, OnErr, OnOk, length, map};
ghost use Rattle.search.specs.Live.{row_of};
ghost use Rattle.search.specs.Picks.{HasBitsFor, picked};
ghost use Rattle.search.specs.Sinks.{TakesSome, appends, appends_more, appends_none, lacks_memory};
ghost use Rattle.search.specs.Counts.{counts, counts_more, counts_none, never_stops};

use crate::row_sink::{RowSink, Stop};
use change_list::Row;
use key_class::Columned;
use node::Rows;

impl<K: Columned> RowSink<K> for Vec<Row<K>> {
    ghost takes = { appends };

    ghost stops = { lacks_memory };

    fn take(&mut self, row: Row<K>) -> Result<(), Stop>
        ensures all { OnOk result (appends self.old (row ∷ []) self.new) }
        ensures some { OnErr result (TakesSome appends (row ∷ []) self.old self.new) }
        ensures why { IfErr result (lacks_memory self.new) }
    {
        if self.push(row).is_err() {
            return Err(Stop::OutOfMemory);
        }
        Ok(())
    }

    fn expect(&mut self, rows: usize) -> Result<(), Stop>
        ensures none { appends self.old [] self.new }
        ensures why { IfErr result (lacks_memory self.new) }
    {
        if self.reserve(rows).is_err() {
            return Err(Stop::OutOfMemory);
        }
        Ok(())
    }

    ghost takes_none = { appends_none };

    ghost takes_more = { appends_more };
}

/// Counts the rows, modulo 2 ^ 64.
#[derive(Drop)]
pub struct Counter {
    pub rows: u64,
}

impl Counter {
    /// The number of rows.
    pub fn total(&self) -> u64
        ensures total { result ≡ self.now.rows }
        ensures within { result < 2 ^ 64 }
    {
        self.rows
    }
}

impl<K: Columned> RowSink<K> for Counter {
    ghost takes = { counts };

    ghost stops = { never_stops };

    fn take(&mut self, _row: Row<K>) -> Result<(), Stop>
        ensures all { OnOk result (counts self.old (_row ∷ []) self.new) }
        ensures some { OnErr result (TakesSome counts (_row ∷ []) self.old self.new) }
        ensures why { IfErr result (never_stops self.new) }
    {
        self.rows = self.rows.wrapping_add(1);
        Ok(())
    }

    fn expect(&mut self, _rows: usize) -> Result<(), Stop>
        ensures none { counts {K = K} self.old [] self.new }
        ensures why { IfErr result (never_stops self.new) }
    {
        Ok(())
    }

    fn take_picked(&mut self, _entries: &Rows<K>, bits: u64) -> Result<(), Stop>
        requires few { length _entries.now ≤ 64 }
        requires within { HasBitsFor _entries.now bits }
        ensures all { OnOk result
            (counts self.old (map row_of (picked bits _entries.now)) self.new) }
        ensures some { OnErr result
            (TakesSome counts (map row_of (picked bits _entries.now)) self.old self.new) }
        ensures why { IfErr result (never_stops self.new) }
    {
        self.rows = self.rows.wrapping_add(u64::from(bits.count_ones()));
        Ok(())
    }

    ghost takes_none = { λ counter. counts_none K counter };

    ghost takes_more = { counts_more };
}
