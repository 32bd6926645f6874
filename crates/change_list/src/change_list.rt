ghost use Rattle.std.specs.Prelude.{◌≡◌, ◌++◌, ◌∷◌, ◌/◌, ◌%◌, ◌<◌, [], length, OnOk, OnErr, IfOk, IfErr};
ghost use Rattle.change_list.specs.Changes.{commit_at, row_at, status_of, MayFollow, IsLegal};

use crate::item::Row;
use crate::remains::CommitRemains;
use crate::roomy_list::RoomyList;
use crate::view::View;
use crate::write::{Status, Write};
use key_class::Refusal;
use segmented::SegmentedVec;
use std::alloc::{AllocError, Global};
use std::marker::Model;
use std::mem;

/// A list of commits that only grows. The first commit is 1.
#[derive(Drop)]
pub struct ChangeList<K> {
    pub(crate) commits: View<K>,
    /// At place n - 1, whether a commit ended row n.
    pub(crate) ended: SegmentedVec<bool>,
}

impl<K> Model for ChangeList<K> {
    ghost use Rattle.std.specs.Prelude.{List};
    ghost use Rattle.change_list.specs.declared.write.Write.{Write};
    ghost use Rattle.change_list.specs.Changes.{IsTracked};

    ghost Value = { List (Write K) };

    ghost view = { λ list. list.commits };

    ghost invariant = { λ list. IsTracked list.commits list.ended.items };
}

impl<K: Copy> ChangeList<K> {
    pub fn new(alloc: Global) -> Self
        ensures { result ≡ [] }
    {
        ChangeList {
            commits: View::new(alloc),
            ended: SegmentedVec::new(alloc),
        }
    }

    pub fn len(&self) -> usize
        ensures len { result ≡ length self.now }
        ensures legal { IsLegal self.now }
    {
        self.commits.len()
    }

    /// The commit with a number.
    pub fn commit(&self, number: u64) -> Option<Write<K>>
        ensures { result ≡ commit_at self.now number }
    {
        self.commits.get(number)
    }

    /// The row with a number, live or dead, as its commit made it. It takes no search.
    pub fn row(&self, number: u64) -> Option<Row<K>>
        ensures { result ≡ row_at self.now number }
    {
        self.commits.row(number)
    }

    /// How many full segments of 256 commits there are.
    pub fn segments(&self) -> usize
        ensures { result ≡ length self.now / 256 }
    {
        self.commits.segments()
    }

    /// How many commits come after the full segments.
    pub fn tail_len(&self) -> usize
        ensures { result ≡ length self.now % 256 }
    {
        self.commits.tail_len()
    }

    /// A view of the list as it is now, which later commits don't change. It shares the full segments and copies the
    /// rest, at most 255 commits.
    ///
    /// # Errors
    /// `OutOfMemory`.
    pub fn view(&self) -> Result<View<K>, Refusal>
        ensures list { IfOk result (λ view. view ≡ self.now) }
        ensures refused { IfErr result (λ why. why ≡ Refusal.OutOfMemory) }
    {
        match self.commits.copy() {
            Ok(view) => Ok(view),
            Err(_) => Err(Refusal::OutOfMemory),
        }
    }

    /// The list as a view, which is borrowed.
    pub fn as_view(&self) -> &View<K>
        ensures { result.now ≡ self.now }
    {
        &self.commits
    }

    /// The status of the row with a number. It takes no search.
    pub fn status(&self, row: u64) -> Status
        ensures { result ≡ status_of self.now row }
    {
        match self.commit(row) {
            Some(Write::Insert(_, _) | Write::Move(_, _)) => {
                if self.ended.get((row - 1) as usize) == Some(true) {
                    Status::Dead
                } else {
                    Status::Live
                }
            }
            _ => Status::NeverIssued,
        }
    }

    /// The list without its use: what is left to be dropped piece by piece. At most 255 commits are dropped at once.
    pub fn into_remains(self) -> CommitRemains<K> {
        let ChangeList { commits, ended } = self;
        let View { kept } = commits;
        CommitRemains::new(kept, ended)
    }

    /// Adds a commit: an insert, or the delete or the move of a live row.
    ///
    /// # Errors
    /// Memory ran out; the list is unchanged.
    pub fn push(&mut self, write: Write<K>) -> Result<(), AllocError>
        requires follows { MayFollow self.old write }
        requires few { length self.old < 4294967295 }
        ensures ok { OnOk result (self.new ≡ self.old ++ write ∷ []) }
        ensures err { OnErr result (self.new ≡ self.old) }
    {
        let empty = ChangeList::new(self.ended.allocator());
        match mem::replace(self, empty).reserve(write) {
            Ok(roomy) => {
                *self = roomy.push();
                Ok(())
            }
            Err(list) => {
                *self = list;
                Err(AllocError)
            }
        }
    }

    /// Reserves memory for one more commit: an insert, or the delete or the move of a live row.
    ///
    /// # Errors
    /// Memory ran out; gives the list back.
    pub fn reserve(self, write: Write<K>) -> Result<RoomyList<K>, ChangeList<K>>
        requires follows { MayFollow self write }
        requires few { length self < 4294967295 }
        ensures list { IfOk result (λ roomy. roomy.list ≡ self) }
        ensures write { IfOk result (λ roomy. roomy.write ≡ write) }
        ensures err { IfErr result (λ list. list ≡ self) }
    {
        let ChangeList { commits, mut ended } = self;
        if ended.reserve().is_err() {
            return Err(ChangeList { commits, ended });
        }
        let next = commits.record(write);
        let View { kept } = commits;
        match kept.reserve(next) {
            Ok(kept) => Ok(RoomyList { kept, write, ended }),
            Err(kept) => {
                let commits = View { kept };
                Err(ChangeList { commits, ended })
            }
        }
    }
}
