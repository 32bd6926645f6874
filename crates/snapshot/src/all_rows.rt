ghost use Rattle.std.specs.Prelude.{◌≡◌, length, IfOk};
ghost use Rattle.change_list.specs.Changes.{rows};
ghost use Rattle.change_list.specs.Roomy.{NamesEarlier};
ghost use Rattle.snapshot.specs.Ended.{TellsEnded, with_end};

use change_list::{Row, View, Write};
use std::alloc::{AllocError, Global};

/// The rows that are live after all commits of a list, by rising number. It reads each commit twice, and no page.
///
/// # Errors
/// Memory ran out.
pub(crate) fn all_rows<K: Copy>(alloc: Global, list: &View<K>) -> Result<Vec<Row<K>>, AllocError>
    ensures { IfOk result (λ found. found.items ≡ rows list.now) }
{
    let ended = ended_rows(alloc, list)?;
    let mut found = Vec::new(alloc);
    for place in 0..ended.len() {
        if ended[place] {
            continue;
        }
        if let Some(row) = list.row(place as u64 + 1) {
            found.push(row)?;
        }
    }
    Ok(found)
}

/// For the number of each commit, whether a commit of the list ends its row.
///
/// # Errors
/// Memory ran out.
fn ended_rows<K: Copy>(alloc: Global, list: &View<K>) -> Result<Vec<bool>, AllocError>
    ensures { IfOk result (λ ended. TellsEnded list.now (length list.now) ended.items) }
{
    let mut ended = vec![in alloc; false; list.len()]?;
    for place in 0..list.len() {
        let Some(write) = list.get(place as u64 + 1) else {
            unreachable!()
        };
        note_end(&mut ended, write);
    }
    Ok(ended)
}

/// Records the end of the row that a commit ends, if it ends one.
fn note_end<K: Copy>(ended: &mut Vec<bool>, write: Write<K>)
    requires names { NamesEarlier (length ended.old.items) write }
    ensures { ended.new.items ≡ with_end ended.old.items write }
{
    match write {
        Write::Insert(_, _) => {}
        Write::Delete(row) | Write::Move(row, _) => ended[(row - 1) as usize] = true,
    }
}
