ghost use Rattle.std.specs.Prelude.{◌≡◌, ℕ, IfOk};
ghost use Rattle.page_table.specs.Soundness.{IsSound};
ghost use Rattle.snapshot.specs.Life.{TellsLife, holds_live};

use key_class::{Columned, KeyClass};
use node::Rows;
use page_table::PageTable;
use scan::{Sought, Stack};
use std::alloc::{AllocError, Global};

/// Whether the row with that number and key is live: a traversal from the root, by the bounds that cover the key, to
/// the page that holds the row.
///
/// # Errors
/// Memory ran out.
pub(crate) fn lives<C: KeyClass>(
    alloc: Global,
    table: &PageTable<C::Key>,
    row: u32,
    key: C::Key,
) -> Result<bool, AllocError>
    requires { (fan : ℕ) × IsSound C.rules.is_cover fan table.now }
    ensures { IfOk result (TellsLife table.now row key) }
{
    let mut stack = Stack::at_root(alloc, table.counter());
    'visits: while let Some(sought) = stack.seek::<C>(table, key, row)? {
        if let Sought::Here(page) = sought {
            return Ok(holds_live(table.page(page).rows(), row));
        }
    }
    Ok(false)
}

/// Whether an entry is that of the row, and is live.
fn holds_live<K: Columned>(entries: &Rows<K>, row: u32) -> bool
    ensures { result ≡ holds_live row entries.now }
{
    for place in 0..entries.len() {
        let entry = entries.get(place);
        if entry.row() == row && entry.is_live() {
            return true;
        }
    }
    false
}
