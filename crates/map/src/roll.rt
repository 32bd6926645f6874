ghost use Rattle.std.specs.Prelude.{◌≡◌, length, IfOk, IfErr, OnOk, OnErr};
ghost use Rattle.change_list.specs.Roomy.{NamesEarlier};
ghost use Rattle.snapshot.specs.Ended.{with_end};
ghost use Rattle.key_class.specs.declared.refusal.Refusal.TheVariants.{OutOfMemory};
ghost use Rattle.map.specs.Rolls.{Advances, IsGive, Offers, Skips, roll_state};

use crate::offer::Offer;
use change_list::{View, Write};
use key_class::Refusal;
use revisions::MapEntry;
use segmented::{SegmentRemains, SegmentedVec};
use std::alloc::Global;
use std::marker::Model;

/// How many commits without an entry are passed at once.
const AT_ONCE: u32 = 64;

/// The live rows of a list of commits, by rising number, with a bounded number of commits read at a step. First it
/// reads all commits for the ends of rows, then all again for their beginnings.
#[derive(Drop)]
pub(crate) struct Roll<K> {
    list: View<K>,
    /// For each commit that was noted, whether one of these ends its row.
    ended: SegmentedVec<bool>,
    /// How many commits were passed.
    next: u64,
}

impl<K> Model for Roll<K> {
    ghost use Rattle.std.specs.Prelude.{length};
    ghost use Rattle.map.specs.Rolls.{RollState, IsRoll, roll_state};

    ghost Value = { RollState K };

    ghost view = { λ r. roll_state r.list (length r.ended.items) r.next };

    ghost invariant = { λ r. IsRoll r.list r.ended.items r.next };
}

impl<K: Copy> Roll<K> {
    /// A roll of the rows of a list.
    pub(crate) fn new(alloc: Global, list: View<K>) -> Roll<K>
        ensures { result ≡ roll_state list 0 0 }
    {
        Roll {
            list,
            ended: SegmentedVec::new(alloc),
            next: 0,
        }
    }

    /// Its flags, to be dropped piece by piece.
    pub(crate) fn into_remains(self) -> SegmentRemains<bool> {
        self.ended.into_remains()
    }

    /// What comes next.
    pub(crate) fn offer(&self) -> Offer<K>
        ensures is { result ≡ self.now.offer }
        ensures ahead { Offers self.now }
    {
        let commits = self.list.len();
        if self.ended.len() < commits {
            return Offer::Pass;
        }
        if self.next >= commits as u64 {
            return Offer::Over;
        }
        let Some(false) = self.ended.get(self.next as usize) else {
            return Offer::Pass;
        };
        match self.list.row(self.next + 1) {
            Some(row) => Offer::Give(MapEntry {
                id: row.tag,
                key: row.key,
            }),
            None => Offer::Pass,
        }
    }

    /// Passes the entry that comes next.
    pub(crate) fn pass(&mut self)
        requires { IsGive self.old.offer }
        ensures { Advances self.old self.new }
    {
        // states that the number of commits is in range
        let _count = self.list.len();
        self.next += 1;
    }

    /// Passes commits without an entry, at most 64 of them.
    ///
    /// # Errors
    /// `OutOfMemory`.
    pub(crate) fn skip(&mut self) -> Result<(), Refusal>
        ensures { Skips self.old self.new }
    {
        'skipping: for _ in 0..AT_ONCE {
            if !matches!(self.offer(), Offer::Pass) {
                return Ok(());
            }
            self.advance()?;
        }
        Ok(())
    }

    /// Passes what comes next.
    ///
    /// # Errors
    /// `OutOfMemory`; nothing is changed then.
    fn advance(&mut self) -> Result<(), Refusal>
        ensures ok { OnOk result (Advances self.old self.new) }
        ensures err { OnErr result (self.new ≡ self.old) }
    {
        let commits = self.list.len() as u64;
        let noted = self.ended.len() as u64;
        if noted < commits {
            if let Some(write) = self.list.get(noted + 1) {
                self.ended.reserve()?;
                self.ended.push_reserved(false);
                note_end(&mut self.ended, write);
            }
        } else if self.next < commits {
            self.next += 1;
        }
        Ok(())
    }
}

/// Records the end of the row that a commit ends, if it ends one. The flag of the commit itself is the last.
fn note_end<K: Copy>(ended: &mut SegmentedVec<bool>, write: Write<K>)
    requires { NamesEarlier (length ended.old.items) write }
    ensures { ended.new.items ≡ with_end ended.old.items write }
{
    match write {
        Write::Insert(_, _) => {}
        Write::Delete(row) | Write::Move(row, _) => ended.set((row - 1) as usize, true),
    }
}
