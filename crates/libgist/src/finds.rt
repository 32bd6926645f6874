//! Searches for many keys in one call.
ghost use Rattle.std.specs.Prelude.{◌≡◌, ◌+◌, ◌≤◌, ◌++◌, length, map, take, drop, Ok, IfOk, IfErr};
ghost use Rattle.libgist.specs.ManyFinds.{IsFindOfEach, RefusesKey, live_by};
ghost use Rattle.libgist.specs.Shown.{shown_row};

use crate::crossing::Crossing;
use crate::denied::Denied;
use crate::relations::atom;
use crate::shown;
use crate::words::{KeyWords, ShownRow};
use change_list::Row;
use key_class::Pred;
use snapshot::Snapshot;

/// Writes rows into a buffer from a place on, where they must fit, in the layout that C reads.
fn put_rows<C: Crossing>(buffer: &mut [ShownRow], at: usize, rows: &[Row<C::Key>])
    requires { at + length rows.now ≤ length buffer.old }
    ensures { buffer.new ≡ take at buffer.old
        ++ (map (shown_row C.words_of) rows.now ++ drop (at + length rows.now) buffer.old) }
{
    for place in 0..rows.len() {
        buffer[at + place] = shown::row::<C>(rows[place]);
    }
}

/// The live rows that have a relation, given by its number, to a key, by rising number.
fn found_by<C: Crossing>(
    snapshot: &Snapshot<C>,
    relation: u32,
    key: &KeyWords,
) -> Result<Vec<Row<C::Key>>, Denied>
    ensures ok { IfOk result (λ v.
        live_by C.rules C.texts C.key_of snapshot.now relation key.now ≡ Ok v.items) }
    ensures refused { IfErr result
        (RefusesKey (live_by C.rules C.texts C.key_of snapshot.now relation) key.now) }
{
    let wanted = atom::<C>(relation, *key)?;
    let found = snapshot.find(&Pred::Atom(wanted))?;
    Ok(found)
}

/// Finds the live rows that have a relation to each of many keys. Writes them into a buffer, key after key, until the
/// next key's rows don't fit, a find is refused or `ends` is full. Gives how many keys were answered, and where each
/// key's rows end.
pub fn find_each<C: Crossing>(
    snapshot: &Snapshot<C>,
    relation: u32,
    keys: &[KeyWords],
    rows: &mut [ShownRow],
    ends: &mut [u64],
) -> Result<u64, Denied>
    ensures { IsFindOfEach C.rules C.texts C.key_of snapshot.now C.words_of relation keys.now
        ends.old ends.new rows.old rows.new result }
{
    let mut end = 0usize;
    for place in 0..keys.len().min(ends.len()) {
        match found_by::<C>(snapshot, relation, &keys[place]) {
            Ok(found) if found.len() <= rows.len() - end => {
                put_rows::<C>(rows, end, &found);
                end += found.len();
                ends[place] = end as u64;
            }
            Ok(_) => return Ok(place as u64),
            Err(why) if place == 0 => return Err(why),
            Err(_) => return Ok(place as u64),
        }
    }
    Ok(keys.len().min(ends.len()) as u64)
}
