ghost use Rattle.std.specs.Prelude.{◌≡◌, ◌∷◌, [], IfErr, OnErr, OnOk};
ghost use Rattle.search.specs.Limited.{has_enough, keeps, keeps_more, keeps_none};
ghost use Rattle.search.specs.Sinks.{TakesSome};

use crate::row_sink::{RowSink, Stop};
use change_list::Row;
use key_class::Columned;

/// A list that takes a limited number of rows, and then ends the search.
#[derive(Drop)]
pub struct AtMost<K> {
    pub rows: Vec<Row<K>>,
    pub most: usize,
}

impl<K: Columned> RowSink<K> for AtMost<K> {
    ghost takes = { keeps };

    ghost stops = { has_enough };

    fn take(&mut self, row: Row<K>) -> Result<(), Stop>
        ensures all { OnOk result (keeps self.old (row ∷ []) self.new) }
        ensures some { OnErr result (TakesSome keeps (row ∷ []) self.old self.new) }
        ensures why { IfErr result (has_enough self.new) }
    {
        if self.rows.len() >= self.most {
            return Err(Stop::Enough);
        }
        if self.rows.push(row).is_err() {
            return Err(Stop::OutOfMemory);
        }
        if self.rows.len() == self.most {
            return Err(Stop::Enough);
        }
        Ok(())
    }

    fn expect(&mut self, _rows: usize) -> Result<(), Stop>
        ensures none { keeps self.old [] self.new }
        ensures why { IfErr result (has_enough self.new) }
    {
        Ok(())
    }

    ghost takes_none = { keeps_none };

    ghost takes_more = { keeps_more };
}
