ghost use Rattle.std.specs.Prelude.{◌≡◌, ◌<◌, length};
ghost use Rattle.change_list.specs.Roomy.{with_write, NamesEarlier, flags_with};

use crate::change_list::ChangeList;
use crate::recorded::Recorded;
use crate::shared_list::RoomySharedList;
use crate::view::View;
use crate::write::Write;
use segmented::SegmentedVec;
use std::marker::Model;

/// A list of commits with memory reserved for one more.
#[derive(Drop)]
pub struct RoomyList<K> {
    pub(crate) kept: RoomySharedList<Recorded<K>>,
    pub(crate) write: Write<K>,
    pub(crate) ended: SegmentedVec<bool>,
}

impl<K> Model for RoomyList<K> {
    ghost use Rattle.std.specs.Prelude.{◌≡◌, ◌<◌, length};
    ghost use Rattle.change_list.specs.Changes.{MayFollow, IsTracked};
    ghost use Rattle.change_list.specs.Records.{IsKept, KeepsWrite, writes_of};
    ghost use Rattle.change_list.specs.Roomy.{Roomy};

    ghost Value = { Roomy K };

    ghost view = { λ roomy. record { list = writes_of roomy.kept.list; write = roomy.write } };

    ghost invariant = { λ roomy. IsKept roomy.kept.list × KeepsWrite (writes_of roomy.kept.list) roomy.write roomy.kept.next × IsTracked (writes_of roomy.kept.list) roomy.ended.items × MayFollow (writes_of roomy.kept.list) roomy.write × (length roomy.ended.items < roomy.ended.capacity) };
}

impl<K: Copy> RoomyList<K> {
    /// Adds the commit. It needs no memory.
    pub fn push(self) -> ChangeList<K>
        ensures { result ≡ with_write self }
    {
        let RoomyList { kept, write, ended } = self;
        let ended = with_letter(ended, write);
        let commits = View { kept: kept.push() };
        ChangeList { commits, ended }
    }

    /// The list, without the commit.
    pub fn into_list(self) -> ChangeList<K>
        ensures { result ≡ self.list }
    {
        let RoomyList { kept, ended, .. } = self;
        let commits = View {
            kept: kept.into_list(),
        };
        ChangeList { commits, ended }
    }
}

/// The `ended` flags, with one more for the new commit. A delete or a move also sets the flag of the row that it
/// ends.
fn with_letter<K: Copy>(ended: SegmentedVec<bool>, write: Write<K>) -> SegmentedVec<bool>
    requires room { length ended.items < ended.capacity }
    requires names { NamesEarlier (length ended.items) write }
    ensures { result.items ≡ flags_with ended.items write }
{
    let mut ended = ended;
    ended.push_reserved(false);
    if let Write::Delete(row) | Write::Move(row, _) = write {
        ended.set((row - 1) as usize, true);
        return ended;
    }
    ended
}
