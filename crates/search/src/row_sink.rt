//! Where the rows of a search go.
ghost use Rattle.std.specs.Prelude.{◌≡◌, ◌≤◌, ◌++◌, ◌∷◌, [], IfErr, List, OnErr, OnOk, length, map};
ghost use Rattle.change_list.specs.declared.item.Row.{Row};
ghost use Rattle.search.specs.Live.{row_of};
ghost use Rattle.search.specs.Picks.{HasBitsFor, picked};
ghost use Rattle.search.specs.Sinks.{TakesSome};
ghost use Rattle.search.specs.declared.row_sink.Stop.{Stop};

use change_list::Row;
use key_class::Columned;
use node::Rows;
use row_version::Entry;
use thiserror::Error;

/// Why a sink takes no more rows.
#[derive(Clone, Copy, Debug, PartialEq, Eq, Error)]
pub enum Stop {
    /// It has as many as it wants.
    #[error("enough")]
    Enough,
    /// Memory ran out.
    #[error("out of memory")]
    OutOfMemory,
}

/// What takes the rows of a search.
pub trait RowSink<K: Columned> {
    /// It took these rows, in this order.
    ghost takes: { Self → List (Row K) → Self → Type 0 };

    /// It may end a search, for this reason.
    ghost stops: { Self → Stop → Type 0 };

    /// Takes a row.
    ///
    /// # Errors
    /// The sink takes no more rows after this one, or not even this one.
    fn take(&mut self, row: Row<K>) -> Result<(), Stop>
        ensures all { OnOk result (takes self.old (row ∷ []) self.new) }
        ensures some { OnErr result (TakesSome takes (row ∷ []) self.old self.new) }
        ensures why { IfErr result (stops self.new) };

    /// Hears that about so many rows may come.
    ///
    /// # Errors
    /// The sink can take no row.
    fn expect(&mut self, rows: usize) -> Result<(), Stop>
        ensures none { takes self.old [] self.new }
        ensures why { IfErr result (stops self.new) };

    /// Takes the rows of picked entries, the first one first.
    ///
    /// # Errors
    /// The sink takes no more rows.
    fn take_picked(&mut self, entries: &Rows<K>, bits: u64) -> Result<(), Stop>
        requires few { length entries.now ≤ 64 }
        requires within { HasBitsFor entries.now bits }
        ensures all { OnOk result (takes self.old (map row_of (picked bits entries.now)) self.new) }
        ensures some { OnErr result
            (TakesSome takes (map row_of (picked bits entries.now)) self.old self.new) }
        ensures why { IfErr result (stops self.new) }
    {
        let mut left = bits;
        let mut place = 0;
        'entries: while left != 0 {
            let passed = left.trailing_zeros();
            place += passed as usize;
            self.take(row_of(&entries.get(place)))?;
            place += 1;
            left = left >> passed >> 1;
        }
        Ok(())
    }

    ghost takes_none: { (sink : Self) → takes sink [] sink };

    ghost takes_more: { (a b c : Self) (xs ys : List (Row K)) → takes a xs b → takes b ys c → takes a (xs ++ ys) c };
}

/// The row of an entry.
pub fn row_of<K: Copy>(entry: &Entry<K>) -> Row<K>
    ensures { result ≡ row_of entry.now }
{
    Row {
        row: u64::from(entry.row()),
        key: entry.key(),
        tag: entry.tag(),
    }
}
