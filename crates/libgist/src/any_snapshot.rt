//! The calls of a lent snapshot, of any class.
ghost use Rattle.std.specs.Prelude.{◌≡◌, Ok, OnErr};
ghost use Rattle.libgist.specs.Classes.{FromHandle, FromHandles};
ghost use Rattle.libgist.specs.Asked.{AnswersChanges, AnswersCommit, AnswersCommits, AnswersCount, AnswersFind, AnswersFindAny, AnswersFindOfEach, AnswersRow};

use crate::by_class::{in_lent, in_lent_by, of_class, of_one_class};
use crate::denied::{Denied, passed_on};
use crate::held::{AnyQuery, AnySnapshot, Held};
use crate::lent::Lent;
use crate::words::{KeyWords, ShownItem, ShownRow};
use crate::{finds, reading};
use std::alloc::Global;

/// How many commits there are.
pub fn commits(lent: &Lent) -> Result<u64, Denied>
    ensures { FromHandle AnswersCommits lent.now.inside.state result }
{
    in_lent!(lent, Snapshot, AnySnapshot, snapshot => Ok(snapshot.commits()))
}

/// The row with a number, and whether it lives.
pub fn row_of(lent: &Lent, number: u64) -> Result<(ShownRow, bool), Denied>
    ensures { FromHandle (AnswersRow number) lent.now.inside.state result }
{
    in_lent!(lent, Snapshot, AnySnapshot, snapshot => passed_on(reading::row_of(snapshot, number)))
}

/// The commit with a number; kind 0 if there is none.
pub fn commit(lent: &Lent, number: u64) -> Result<ShownItem, Denied>
    ensures { FromHandle (AnswersCommit number) lent.now.inside.state result }
{
    in_lent!(lent, Snapshot, AnySnapshot, snapshot => Ok(reading::commit(snapshot, number)))
}

/// Finds the live rows that match.
pub fn find(asked: &Lent, lent: &Lent, rows: &mut [ShownRow]) -> Result<u64, Denied>
    ensures answered { FromHandles (AnswersFind rows.old rows.new) asked.now.inside.state
        lent.now.inside.state result }
    ensures unfilled { OnErr result (rows.new ≡ rows.old) }
{
    in_lent_by!(asked, query, lent, Snapshot, AnySnapshot, snapshot => {
        passed_on(reading::find(snapshot, query, rows))
    })
}

/// Finds the live rows that match, in any order.
pub fn find_any(asked: &Lent, lent: &Lent, rows: &mut [ShownRow]) -> Result<u64, Denied>
    ensures answered { FromHandles (AnswersFindAny rows.old rows.new) asked.now.inside.state
        lent.now.inside.state result }
    ensures unfilled { OnErr result (rows.new ≡ rows.old) }
{
    in_lent_by!(asked, query, lent, Snapshot, AnySnapshot, snapshot => {
        passed_on(reading::find_any(snapshot, query, rows))
    })
}

/// Counts the live rows that match.
pub fn count(asked: &Lent, lent: &Lent) -> Result<u64, Denied>
    ensures { FromHandles AnswersCount asked.now.inside.state lent.now.inside.state result }
{
    in_lent_by!(asked, query, lent, Snapshot, AnySnapshot, snapshot => passed_on(reading::count(snapshot, query)))
}

/// Gives the matching items of the commits after `from`.
pub fn changes(
    alloc: Global,
    asked: &Lent,
    lent: &Lent,
    from: u64,
    items: &mut [ShownItem],
) -> Result<(u64, u64), Denied>
    ensures answered { FromHandles (AnswersChanges from items.old items.new) asked.now.inside.state
        lent.now.inside.state result }
    ensures unfilled { OnErr result (items.new ≡ items.old) }
{
    in_lent_by!(asked, query, lent, Snapshot, AnySnapshot, snapshot => {
        passed_on(reading::changes(alloc, snapshot, query, from, items))
    })
}

/// Finds the live rows that are related to each of many keys.
pub fn find_each(
    lent: &Lent,
    relation: u32,
    keys: &[KeyWords],
    rows: &mut [ShownRow],
    ends: &mut [u64],
) -> Result<u64, Denied>
    ensures answered { FromHandle (AnswersFindOfEach relation keys.now ends.old ends.new rows.old
        rows.new) lent.now.inside.state result }
    ensures unfilled { OnErr result ((rows.new ≡ rows.old) × (ends.new ≡ ends.old)) }
{
    in_lent!(lent, Snapshot, AnySnapshot, snapshot => finds::find_each(snapshot, relation, keys, rows, ends))
}
